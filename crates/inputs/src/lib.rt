// Everything that is refused before the pass, in the order of document 01's table. All functions take any bytes.
#![tactic(auto)]

ghost use Rattle.std.specs.Prelude.{◌≡◌, ◌≤◌, length};
ghost use Rattle.rules.specs.Input.{input_of};
ghost use Rattle.rules.specs.Answer.{flags_of};
ghost use Rattle.refusals.specs.Told.{number_of};
ghost use Rattle.inputs.specs.Inputs.{number_in, EarlyChecked, LateChecked, InputsChecked, ContentsChecked, UnitsReady};

use model::layout;
use refusals::{Reason, Refusal};
use unit_index::Index;

// How much work memory has to be lent (docs/MEMORY.md).
pub const WORDS: usize = layout::WORDS;

pub const BYTES: usize = 65536;

// 4, then 5 and 6; the unit list gets its index.
fn check_contents(text: &[u8], units: &[u8], index: &mut Index) -> Result<(), Reason>
    requires { length units.now ≤ 16384 }
    ensures { ContentsChecked text.now units.now result × UnitsReady number_of units.now index.old index.new result }
{
    if let Some(_) = utf8::first_fault(text) {
        return Err(Reason::TextNotUtf8);
    }
    unit_index::index_units(units, index)
}

// What is refused before the flags: the three files, words for the index of the units, and how many words and bytes of work
// memory are lent.
pub fn check_early(
    sheet: &[u8],
    text: &[u8],
    units: &[u8],
    index: &mut Index,
    words: usize,
    bytes: usize,
) -> Result<(), Reason>
    ensures { EarlyChecked sheet.now text.now units.now words bytes result × UnitsReady number_of units.now index.old index.new result }
{
    if words < WORDS {
        return Err(Reason::Lengths);
    }
    if bytes < BYTES {
        return Err(Reason::Lengths);
    }
    if 65536 < sheet.len() {
        return Err(Reason::Lengths);
    }
    if 65535 < text.len() {
        return Err(Reason::LongText);
    }
    if 16384 < units.len() {
        return Err(Reason::LongUnits);
    }
    check_contents(text, units, index)
}

// From the flags on: 7, then 8 to 10.
pub fn check_late(sheet: &[u8], text: &[u8], flags: u32) -> Result<(), Refusal>
    ensures { LateChecked sheet.now text.now flags result }
{
    if 7 < flags {
        let reason = Reason::UnknownFlags;
        return Err(Refusal { reason, line: 0 });
    }
    reading::read_sheet(sheet, text)
}

// All that is refused before the pass, where no list of a page's own stands between.
pub fn check_inputs(
    sheet: &[u8],
    text: &[u8],
    units: &[u8],
    index: &mut Index,
    flags: u32,
    words: usize,
    bytes: usize,
) -> Result<(), Refusal>
    ensures { InputsChecked (input_of sheet.now text.now units.now flags) words bytes result × UnitsReady number_in units.now index.old index.new result }
{
    match check_early(sheet, text, units, index, words, bytes) {
        Err(reason) => Err(Refusal { reason, line: 0 }),
        Ok(()) => check_late(sheet, text, flags),
    }
}

// The flags that a file of one digit says; any other file says 8.
pub fn read_flags(f: &[u8]) -> u32
    ensures { result ≡ flags_of f.now }
{
    if f.len() != 1 {
        return 8;
    }
    let c = f[0] as u32;
    if c < 48 || 57 < c {
        return 8;
    }
    c - 48
}
