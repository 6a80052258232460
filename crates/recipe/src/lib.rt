// Recipe pages and plain forms from event sheets: everything is lent, nothing is kept, and what was lent is zero again but
// for the page or the form.
#![tactic(auto)]

ghost use Rattle.std.specs.Prelude.{◌≡◌, ◌≤◌, length};
ghost use Rattle.rules.specs.Input.{input_of};
ghost use Rattle.rules.specs.Answer.{words_needed, bytes_needed, events_or, read_sheet, collect_answer, error_line, form_answer, plain_answer};
ghost use Rattle.inputs.specs.Inputs.{GoodInputs};
ghost use Rattle.recipe.specs.Answers.{usable_lent, lengths, lent_of, Answered, Collected, PlainFormed, Coded};
ghost use Rattle.recipe.specs.Forms.{RecipeGiven, form_given};

use answers::Answer;
use memory::Stored;
use model::Held;
use reading::ReadSheet;
use refusals::{Reason, Refusal};
use unit_index::{Index, UnitList};

// The pass, then the page.
fn pass_and_write(
    sheet: &ReadSheet,
    units: &UnitList,
    flags: u32,
    words: &mut [u32],
    bytes: usize,
    out: &mut [u8],
) -> Answer
    requires { GoodInputs (input_of sheet.now.bytes.now sheet.now.text.now units.now.lines.now flags) (length words.old) bytes }
    ensures { Answered (collect_answer (input_of sheet.now.bytes.now sheet.now.text.now units.now.lines.now flags) (lengths words.old bytes out.old)) (length out.old) out.new result }
{
    match pass::run(sheet, units, flags, words)? {
        Some(h) => {
            let n = page::recipe_page(sheet, units, flags, words, h, out);
            answers::hand_out(n, out.len())
        }
        None => {
            let n = page::failed_page(sheet, out);
            answers::hand_out(n, out.len())
        }
    }
}

// The answer, with memory left as it comes; `bytes` is how many bytes of work memory are lent.
fn collected(
    sheet: &[u8],
    text: &[u8],
    units: &[u8],
    index: &mut Index,
    flags: u32,
    words: &mut [u32],
    bytes: usize,
    out: &mut [u8],
) -> Answer
    ensures { Answered (collect_answer (input_of sheet.now text.now units.now flags) (lengths words.old bytes out.old)) (length out.old) out.new result }
{
    inputs::check_inputs(sheet, text, units, index, flags, words.len(), bytes)?;
    let read = ReadSheet { bytes: sheet, text };
    let list = UnitList {
        lines: units,
        words: index,
    };
    pass_and_write(&read, &list, flags, words, bytes, out)
}

// The page of a sheet with its text, its units and flags, at the front of `out`; or a refusal.
pub fn collect(
    sheet: &[u8],
    text: &[u8],
    units: &[u8],
    flags: u32,
    words: &mut [u32],
    bytes: &mut [u8],
    out: &mut [u8],
) -> Answer
    ensures { Collected (input_of sheet.now text.now units.now flags) (lent_of words.old bytes.old out.old) words.new bytes.new out.new result }
{
    let mut index = [0u32; 2305];
    let r = collected(
        sheet,
        text,
        units,
        &mut index,
        flags,
        words,
        bytes.len(),
        out,
    );
    clearing::clear_words(words);
    clearing::clear_from(bytes, 0);
    clearing::clear_from(out, answers::used(r));
    r
}

// ---- the plain form

// The number of the first `error` line; 0 where there is none.
fn error_line(sheet: &ReadSheet) -> u32
    requires { length sheet.now.bytes.now ≤ 65536 }
    ensures { result ≡ error_line 1 (events_or (read_sheet sheet.now.text.now sheet.now.bytes.now)) }
{
    let mut at = 0;
    let mut number: u32 = 1;
    while at < sheet.bytes.len() {
        let Some(end) = sheet::line_end(sheet.bytes, at) else {
            return 0;
        };
        let v = known_events::event_of(&sheet.bytes[at..end]);
        if pass::is_error(v) {
            return number;
        }
        at = end + 1;
        number += 1;
    }
    0
}

// A form that is not too long: collected again, then copied to the output.
fn give_form(
    form: &[u8],
    text: &[u8],
    units: &UnitList,
    flags: u32,
    words: &mut [u32],
    out: &mut [u8],
) -> Answer
    requires { GoodInputs (input_of form.now text.now units.now.lines.now flags) (length words.old) bytes_needed }
    ensures { Answered (form_answer (input_of form.now text.now units.now.lines.now flags) (length out.old) form.now) (length out.old) out.new result }
{
    let read = ReadSheet { bytes: form, text };
    answers::form_checked(pass::run(&read, units, flags, words))?;
    let n = output::put_bytes(out, 0, form);
    answers::hand_out(n, out.len())
}

// The form of a sheet whose pass made a recipe, written to work memory first.
fn write_form(
    sheet: &ReadSheet,
    units: &UnitList,
    flags: u32,
    words: &mut [u32],
    h: Held,
    bytes: &mut [u8],
    out: &mut [u8],
) -> Answer
    requires { RecipeGiven (input_of sheet.now.bytes.now sheet.now.text.now units.now.lines.now flags) words.old h × (65536 ≤ length bytes.old) }
    ensures { Answered (form_given (input_of sheet.now.bytes.now sheet.now.text.now units.now.lines.now flags) (length out.old)) (length out.old) out.new result }
{
    let stored = Stored { words, held: h };
    let n = plain_walk::plain_form_lines(sheet, flags, &stored, &mut bytes[0..65536])?;
    if 65536 < n {
        let reason = Reason::LongForm;
        return Err(Refusal { reason, line: 0 });
    }
    give_form(&bytes[0..n], sheet.text, units, flags, words, out)
}

// The pass, then the form.
fn pass_and_form(
    sheet: &ReadSheet,
    units: &UnitList,
    flags: u32,
    words: &mut [u32],
    bytes: &mut [u8],
    out: &mut [u8],
) -> Answer
    requires { GoodInputs (input_of sheet.now.bytes.now sheet.now.text.now units.now.lines.now flags) (length words.old) (length bytes.old) }
    ensures { Answered (plain_answer (input_of sheet.now.bytes.now sheet.now.text.now units.now.lines.now flags) (lent_of words.old bytes.old out.old)) (length out.old) out.new result }
{
    match pass::run(sheet, units, flags, words)? {
        Some(h) => write_form(sheet, units, flags, words, h, bytes, out),
        None => Err(Refusal {
            reason: Reason::ErrorLine,
            line: error_line(sheet),
        }),
    }
}

// The answer, with memory left as it comes.
fn formed(
    sheet: &[u8],
    text: &[u8],
    units: &[u8],
    index: &mut Index,
    flags: u32,
    words: &mut [u32],
    bytes: &mut [u8],
    out: &mut [u8],
) -> Answer
    ensures { Answered (plain_answer (input_of sheet.now text.now units.now flags) (lent_of words.old bytes.old out.old)) (length out.old) out.new result }
{
    inputs::check_inputs(sheet, text, units, index, flags, words.len(), bytes.len())?;
    let read = ReadSheet { bytes: sheet, text };
    let list = UnitList {
        lines: units,
        words: index,
    };
    pass_and_form(&read, &list, flags, words, bytes, out)
}

// The plain form of a sheet, with its text, its units and flags, at the front of `out`; or a refusal.
pub fn plain_form(
    sheet: &[u8],
    text: &[u8],
    units: &[u8],
    flags: u32,
    words: &mut [u32],
    bytes: &mut [u8],
    out: &mut [u8],
) -> Answer
    ensures { PlainFormed (input_of sheet.now text.now units.now flags) (lent_of words.old bytes.old out.old) words.new bytes.new out.new result }
{
    let mut index = [0u32; 2305];
    let f = formed(sheet, text, units, &mut index, flags, words, bytes, out);
    clearing::clear_words(words);
    clearing::clear_from(bytes, 0usize);
    clearing::clear_from(out, answers::used(f));
    f
}

// ---- for C and Rust (include/recipe.h)

pub fn recipe_words() -> usize
    ensures { result ≡ words_needed }
{
    inputs::WORDS
}

pub fn recipe_bytes() -> usize
    ensures { result ≡ bytes_needed }
{
    inputs::BYTES
}

pub fn recipe_collect(
    sheet: &[u8],
    text: &[u8],
    units: &[u8],
    flags: u32,
    words: &mut [u32],
    bytes: &mut [u8],
    out: &mut [u8],
) -> u64
    ensures { Coded (collect_answer (input_of sheet.now text.now units.now flags) (usable_lent (lent_of words.old bytes.old out.old))) (lent_of words.old bytes.old out.old) words.new bytes.new out.new result }
{
    let room = answers::usable(out.len());
    let r = collect(sheet, text, units, flags, words, bytes, &mut out[0..room]);
    clearing::clear_from(out, room);
    answers::code(r)
}

pub fn recipe_plain_form(
    sheet: &[u8],
    text: &[u8],
    units: &[u8],
    flags: u32,
    words: &mut [u32],
    bytes: &mut [u8],
    out: &mut [u8],
) -> u64
    ensures { Coded (plain_answer (input_of sheet.now text.now units.now flags) (usable_lent (lent_of words.old bytes.old out.old))) (lent_of words.old bytes.old out.old) words.new bytes.new out.new result }
{
    let room = answers::usable(out.len());
    let r = plain_form(sheet, text, units, flags, words, bytes, &mut out[0..room]);
    clearing::clear_from(out, room);
    answers::code(r)
}
