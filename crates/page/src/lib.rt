// The page of a recipe, and the page of a sheet with an `error` line, at the front of the output. Both answer the page's
// length, or one more than the output's where the page does not fit.
#![tactic(auto)]

mod walk;

ghost use Rattle.output.specs.Put.{Put};
ghost use Rattle.finding_lines.specs.Lines.{old_open, old_close};
ghost use Rattle.page.specs.Walk.{PassInputs};
ghost use Rattle.page.specs.Pages.{PageGiven, RecipePut, FailedPut};
ghost use Rattle.page.specs.Parts.{head_line, PartPut, tables_of, findings_of, DrawnPut, OldPut};

use following::Part;
use memory::Stored;
use model::{Held, Kind};
use reading::ReadSheet;
use unit_index::UnitList;

// `recipe`, `yes` or `no`.
fn head_line(rest: &mut [u8], made: bool) -> usize
    ensures { Put (head_line made) rest.old 0 rest.new result }
{
    if made {
        return output::put_bytes(rest, 0, b"recipe\tyes\n");
    }
    output::put_bytes(rest, 0, b"recipe\tno\n")
}

// ---- tables

// The lines of timers or inline quantities, n of them; where there is none the sheet is not read again.
fn put_drawn(
    p: Part,
    n: usize,
    sheet: &ReadSheet,
    units: &UnitList,
    flags: u32,
    out: &mut [u8],
    at: usize,
) -> usize
    requires { PassInputs sheet.now.bytes.now sheet.now.text.now units.now.lines.now flags }
    ensures { DrawnPut p n sheet.now.bytes.now sheet.now.text.now units.now.lines.now flags out.old at out.new result }
{
    if n == 0 {
        return finding_lines::begin(out, at);
    }
    walk::draw_part(p, sheet, units, flags, out, at)
}

// The lines of ingredients, cookware, timers and inline quantities.
fn put_tables(
    sheet: &ReadSheet,
    units: &UnitList,
    flags: u32,
    stored: &Stored,
    out: &mut [u8],
    at: usize,
) -> usize
    requires { PageGiven sheet.now.bytes.now sheet.now.text.now units.now.lines.now flags stored.now.words.now stored.now.held }
    ensures { PartPut tables_of sheet.now.bytes.now sheet.now.text.now units.now.lines.now flags stored.now.words.now stored.now.held out.old at out.new result }
{
    let n = stored.held.counts.timers;
    let m = stored.held.counts.inline;
    let a = entry_lines::component_lines(sheet.bytes, stored, Kind::Ingredient, out, at);
    let b = entry_lines::component_lines(sheet.bytes, stored, Kind::Cookware, out, a);
    let c = put_drawn(Part::Timers, n, sheet, units, flags, out, b);
    put_drawn(Part::Inline, m, sheet, units, flags, out, c)
}

// ---- findings

fn put_old_open(out: &mut [u8], at: usize) -> usize
    ensures { Put old_open out.old at out.new result }
{
    output::put_line(out, at, finding_lines::old_open)
}

fn put_old_close(out: &mut [u8], at: usize) -> usize
    ensures { Put old_close out.old at out.new result }
{
    output::put_line(out, at, finding_lines::old_close)
}

// Finding 3, whose spans are those of n `meta` lines; where there is none the sheet is not read again.
fn put_old(
    n: usize,
    sheet: &ReadSheet,
    units: &UnitList,
    flags: u32,
    out: &mut [u8],
    at: usize,
) -> usize
    requires { PassInputs sheet.now.bytes.now sheet.now.text.now units.now.lines.now flags }
    ensures { OldPut n sheet.now.bytes.now sheet.now.text.now units.now.lines.now flags out.old at out.new result }
{
    if n == 0 {
        return finding_lines::begin(out, at);
    }
    let a = put_old_open(out, at);
    let b = walk::draw_part(Part::Old, sheet, units, flags, out, a);
    put_old_close(out, b)
}

// The findings of the pass, then 3.
fn put_findings(
    sheet: &ReadSheet,
    units: &UnitList,
    flags: u32,
    stored: &Stored,
    out: &mut [u8],
    at: usize,
) -> usize
    requires { PageGiven sheet.now.bytes.now sheet.now.text.now units.now.lines.now flags stored.now.words.now stored.now.held }
    ensures { PartPut findings_of sheet.now.bytes.now sheet.now.text.now units.now.lines.now flags stored.now.words.now stored.now.held out.old at out.new result }
{
    let old = stored.held.counts.old;
    let a = finding_lines::finding_lines(stored, out, at);
    put_old(old, sheet, units, flags, out, a)
}

// ---- pages

// `words` still holds what the pass left there, and room for the metadata.
pub fn recipe_page(
    sheet: &ReadSheet,
    units: &UnitList,
    flags: u32,
    words: &mut [u32],
    h: Held,
    out: &mut [u8],
) -> usize
    requires { PageGiven sheet.now.bytes.now sheet.now.text.now units.now.lines.now flags words.old h }
    ensures { RecipePut sheet.now.bytes.now sheet.now.text.now units.now.lines.now flags words.old words.new h out.old out.new result }
{
    let n = meta_map::index_metadata(flags, sheet, words);
    let a = head_line(out, true);
    let b = meta_map::meta_lines(sheet.bytes, words, n, out, a);
    let c = walk::draw_part(Part::Sections, sheet, units, flags, out, b);
    let stored = Stored { words, held: h };
    let d = put_tables(sheet, units, flags, &stored, out, c);
    put_findings(sheet, units, flags, &stored, out, d)
}

// `recipe`, `no`, and the lines of the parser's findings.
pub fn failed_page(sheet: &ReadSheet, out: &mut [u8]) -> usize
    ensures { FailedPut sheet.now.bytes.now sheet.now.text.now out.old out.new result }
{
    let a = head_line(out, false);
    finding_lines::parsed_lines(sheet, out, a)
}
