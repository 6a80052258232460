// Runs the pass alone on the cases of `cases.txt` (the format is that of crates/replay/data/README.md). It prints the name
// of each case, and then the refusal, or `no recipe`, or how much the recipe has and what each ingredient and each piece of cookware
// is: a definition with what refers to it, or a reference.
#![tactic(auto)]

ghost use Rattle.std.specs.Prelude.{◌≡◌, ◌<◌, ◌≤◌, length};
ghost use Rattle.rules.specs.Input.{input_of};
ghost use Rattle.inputs.specs.Inputs.{GoodInputs};
ghost use Rattle.inputs.specs.declared.TheConstants.{WORDS};
ghost use Rattle.model.specs.Kinds.{kind_of};
ghost use Rattle.model.specs.Memory.{count_of};

use memory::Stored;
use model::{Held, Kind};
use reading::ReadSheet;
use refusals::Refusal;
use std::io;
use stored_cases::{Case, bytes_named, part};
use unit_index::UnitList;

// ---- components

fn put_word(out: &mut [u8], kind: Kind) -> usize {
    match kind {
        Kind::Ingredient => output::put_bytes(out, 0, b"ingredient"),
        Kind::Cookware => output::put_bytes(out, 0, b"cookware"),
    }
}

// Its kind, index and relation as a line.
fn show_component(rt: &impl Print, stored: &Stored, kind: Kind, index: usize) -> io::Result<()>
    requires { index < count_of (kind_of kind) stored.now.held }
{
    let relation = stored.row(kind, index).relation;
    let mut out = host::buffer();
    let a = put_word(&mut out, kind);
    let b = output::put_number(&mut out, a, index as u32);
    let c = entry_lines::put_relation(&mut out, b, stored, kind, index, relation);
    let n = output::put_byte(&mut out, c, b'\n');
    rt.write_all(part(&out, 0, n))
}

fn show_components(rt: &impl Print, stored: &Stored, kind: Kind) -> io::Result<()> {
    for i in 0..memory::count_of(stored.held, kind) {
        show_component(rt, stored, kind, i)?;
    }
    Ok(())
}

fn show_both(rt: &impl Print, stored: &Stored) -> io::Result<()> {
    show_components(rt, stored, Kind::Ingredient)?;
    show_components(rt, stored, Kind::Cookware)
}

// ---- the recipe

fn show_count(rt: &impl Print, what: &[u8], n: usize) -> io::Result<()> {
    rt.write_all(what)?;
    rt.print(n)
}

// The findings after the end: 3 comes last.
fn findings(h: Held) -> usize
    requires { h.counts.findings ≤ 1024 }
{
    if h.counts.old == 0 {
        return h.counts.findings;
    }
    h.counts.findings + 1
}

fn show_counts(rt: &impl Print, h: Held) -> io::Result<()>
    requires { (h.counts.sections ≤ 128) × (h.counts.findings ≤ 1024) }
{
    let ended = memory::begin_section(h, false);
    show_count(rt, b"ingredients ", h.counts.ingredients)?;
    show_count(rt, b", cookware ", h.counts.cookware)?;
    show_count(rt, b", timers ", h.counts.timers)?;
    show_count(rt, b", inline ", h.counts.inline)?;
    show_count(rt, b", sections ", ended.counts.sections)?;
    show_count(rt, b", blocks ", h.counts.blocks)?;
    show_count(rt, b", items ", h.counts.items)?;
    show_count(rt, b", findings ", findings(h))?;
    rt.write_all(b"\n")
}

fn show_refusal(rt: &impl Print, f: Refusal) -> io::Result<()> {
    let mut out = host::buffer();
    let n = output::write_refusal(&mut out, f.reason.number(), f.line);
    rt.write_all(part(&out, 0, n))
}

// ---- cases

fn run(
    rt: &impl Print,
    sheet: &ReadSheet,
    units: &UnitList,
    flags: u32,
    words: &mut [u32],
) -> io::Result<()>
    requires { GoodInputs (input_of sheet.now.bytes.now sheet.now.text.now units.now.lines.now flags) (length words.old) 65536 }
{
    match pass::run(sheet, units, flags, words) {
        Ok(Some(h)) => {
            show_counts(rt, h)?;
            show_both(rt, &Stored { words, held: h })
        }
        Ok(None) => rt.write_all(b"no recipe\n"),
        Err(f) => show_refusal(rt, f),
    }
}

fn check_and_run(
    rt: &impl Print,
    sheet: &[u8],
    text: &[u8],
    units: &[u8],
    flags: u32,
    words: &mut [u32],
) -> io::Result<()> {
    let mut index = [0u32; 2305];
    match inputs::check_inputs(
        sheet,
        text,
        units,
        &mut index,
        flags,
        words.len(),
        inputs::BYTES,
    ) {
        Err(f) => show_refusal(rt, f),
        Ok(()) => {
            let read = ReadSheet { bytes: sheet, text };
            let list = UnitList {
                lines: units,
                words: &index,
            };
            run(rt, &read, &list, flags, words)
        }
    }
}

// A part that is absent has no bytes; the stored answers are not read.
fn relate(rt: &impl Print, s: &[u8], c: Case, words: &mut [u32]) -> io::Result<()> {
    rt.write_all(part(s, c.name.from, c.name.to))?;
    rt.write_all(b"\n")?;
    let sheet = bytes_named(s, c, b"sheet");
    let text = bytes_named(s, c, b"text");
    let units = bytes_named(s, c, b"units");
    let flags = inputs::read_flags(bytes_named(s, c, b"flags"));
    check_and_run(rt, sheet, text, units, flags, words)
}

// All cases of a file. Nothing is read after what is not as the format says.
fn relate_all(rt: &impl Print, s: &[u8], words: &mut [u32]) -> io::Result<()> {
    let mut at = 0;
    while at < s.len() {
        let Some(c) = stored_cases::case_at(s, at) else {
            return Ok(());
        };
        relate(rt, s, c, words)?;
        let next = stored_cases::next_case(s, c);
        if next <= at {
            return Ok(());
        }
        at = next;
    }
    Ok(())
}

fn words_room() -> [u32; inputs::WORDS]
    ensures { WORDS ≡ length result }
{
    [0; inputs::WORDS]
}

fn main(rt: HostRuntime) -> io::Result<()> {
    let mut words = words_room();
    let mut space = stored_cases::room();
    let n = stored_cases::read_file(&rt, "cases.txt", &mut space)?;
    relate_all(&rt, part(&space, 0, n), &mut words)
}
