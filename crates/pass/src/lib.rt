// The pass over the lines of a sheet (`RecipeCollector::parse_events`): which line does what, the refusals 11, 12, 17 and 19.
#![tactic(auto)]

ghost use Rattle.std.specs.Prelude.{◌≡◌, ◌≤◌, ◌<◌, length};
ghost use Rattle.rules.specs.Answer.{events_or, read_sheet};
ghost use Rattle.events.specs.Views.{BetweenWithin};
ghost use Rattle.events.specs.declared.EventView.TheVariants as event;
ghost use Rattle.events.specs.declared.Inside.TheVariants as inside;
ghost use Rattle.model.specs.Memory.{first_held};
ghost use Rattle.unit_checks.specs.Codes.{CodesKept};
ghost use Rattle.blocks.specs.Lined.{left};
ghost use Rattle.component_lines.specs.Lines.{ComponentDone};
ghost use Rattle.pass.specs.Walks.{EventHere, Running, InStep, InsideDone, BetweenDone, EventDone, ErrorView, left_if, StepDone, Finished, Ran, RanAs};
ghost use Rattle.model.specs.declared.layout.TheConstants.{MOST_FINDINGS, STATE_WORDS};

use events::{Between, ComponentEvent, EventView, Inside, Severity};
use memory::Memory;
use model::{Held, Open};
use reading::ReadSheet;
use refusals::{Reason, Refusal};
use unit_codes::Codes;
use unit_index::UnitList;

fn on_component(
    units: &UnitList,
    flags: u32,
    sheet: &[u8],
    line: &[u8],
    at: usize,
    end: usize,
    c: ComponentEvent,
    codes: &mut Codes,
    memory: &mut Memory,
) -> Result<(), Reason>
    requires { EventHere sheet.now line.now at end (event.Inside (inside.Component c)) × Running sheet.now memory.old.words.now memory.old.held at × CodesKept units.now.lines.now sheet.now codes.old }
    ensures done { ComponentDone units.now.lines.now flags sheet.now line.now c memory.old.words.now memory.old.held memory.new.words.now (left memory.new.held result) }
    ensures codes { CodesKept units.now.lines.now sheet.now codes.new }
    ensures lent { memory.new.words.ghost_name ≡ memory.old.words.ghost_name }
{
    match c {
        ComponentEvent::Ingredient(v, i) => component_lines::on_ingredient(
            units, flags, sheet, at, end, v, i, codes, memory,
        ),
        ComponentEvent::Cookware(v) => component_lines::on_cookware(
            units, flags, sheet, at, end, v, codes, memory,
        ),
        ComponentEvent::Timer(s, n, q) => {
            timers::on_timer(units, flags, line, n, q, memory);
            Ok(())
        }
    }
}

// `in_step`.
fn in_step_block(
    units: &UnitList,
    flags: u32,
    sheet: &[u8],
    line: &[u8],
    at: usize,
    end: usize,
    e: Inside,
    codes: &mut Codes,
    memory: &mut Memory,
) -> Result<(), Reason>
    requires { EventHere sheet.now line.now at end (event.Inside e) × Running sheet.now memory.old.words.now memory.old.held at × CodesKept units.now.lines.now sheet.now codes.old }
    ensures done { InStep units.now.lines.now flags sheet.now line.now e memory.old.words.now memory.old.held memory.new.words.now (left memory.new.held result) }
    ensures codes { CodesKept units.now.lines.now sheet.now codes.new }
    ensures lent { memory.new.words.ghost_name ≡ memory.old.words.ghost_name }
{
    match e {
        Inside::End(kind) => blocks::end_step(memory, kind),
        Inside::Text(v) => {
            step_texts::text_in_step(units, flags, line, v, memory);
            Ok(())
        }
        Inside::Component(c) => on_component(units, flags, sheet, line, at, end, c, codes, memory),
    }
}

// 12, `end`, text or component in no block.
fn on_inside(
    units: &UnitList,
    flags: u32,
    sheet: &[u8],
    line: &[u8],
    at: usize,
    end: usize,
    e: Inside,
    codes: &mut Codes,
    memory: &mut Memory,
) -> Result<(), Reason>
    requires { EventHere sheet.now line.now at end (event.Inside e) × Running sheet.now memory.old.words.now memory.old.held at × CodesKept units.now.lines.now sheet.now codes.old }
    ensures done { InsideDone units.now.lines.now flags sheet.now line.now e memory.old.words.now memory.old.held memory.new.words.now (left memory.new.held result) }
    ensures codes { CodesKept units.now.lines.now sheet.now codes.new }
    ensures lent { memory.new.words.ghost_name ≡ memory.old.words.ghost_name }
{
    let block = memory.held.block;
    match block {
        Open::Nothing => Err(Reason::InNoBlock),
        Open::Step => in_step_block(units, flags, sheet, line, at, end, e, codes, memory),
        Open::Text => blocks::in_text_block(memory, e),
        Open::TextMode => blocks::in_text_mode(memory, e),
    }
}

fn on_between(flags: u32, line: &[u8], b: Between, memory: &mut Memory)
    requires { BetweenWithin line.now b × (memory.old.held.counts.findings < MOST_FINDINGS) × (memory.old.held.counts.old < 100000) × (memory.old.held.counts.sections < 100000) }
    ensures done { BetweenDone flags line.now b memory.old.words.now memory.old.held memory.new.words.now memory.new.held }
    ensures lent { memory.new.words.ghost_name ≡ memory.old.words.ghost_name }
{
    match b {
        Between::Meta(k, v) => metadata::on_meta(flags, line, k, v, memory),
        Between::Section(n) => memory.held = blocks::on_section(memory.held, n),
        Between::Start(k) => memory.held = blocks::on_start(memory.held, k),
    }
}

// 11, `start`, `section` or `meta` in an open block.
fn on_event(
    units: &UnitList,
    flags: u32,
    sheet: &[u8],
    line: &[u8],
    at: usize,
    end: usize,
    v: EventView,
    codes: &mut Codes,
    memory: &mut Memory,
) -> Result<(), Reason>
    requires { EventHere sheet.now line.now at end v × Running sheet.now memory.old.words.now memory.old.held at × CodesKept units.now.lines.now sheet.now codes.old }
    ensures done { EventDone units.now.lines.now flags sheet.now line.now v memory.old.words.now memory.old.held memory.new.words.now (left memory.new.held result) }
    ensures codes { CodesKept units.now.lines.now sheet.now codes.new }
    ensures lent { memory.new.words.ghost_name ≡ memory.old.words.ghost_name }
{
    match v {
        EventView::Between(b) => {
            if blocks::is_open(memory.held) {
                return Err(Reason::InOpenBlock);
            }
            on_between(flags, line, b, memory);
            Ok(())
        }
        EventView::Inside(e) => on_inside(units, flags, sheet, line, at, end, e, codes, memory),
        EventView::Finding(s, n) => {
            blocks::on_finding(memory, s, n);
            Ok(())
        }
    }
}

// Whether a line is an `error` line.
pub fn is_error(v: EventView) -> bool
    ensures { ErrorView v result }
{
    matches!(v, EventView::Finding(Severity::Severe, _))
}

// One line, and 17 after it. Whether the pass goes on: after an `error` line there will be no recipe.
fn step(
    units: &UnitList,
    flags: u32,
    sheet: &[u8],
    line: &[u8],
    at: usize,
    end: usize,
    v: EventView,
    codes: &mut Codes,
    memory: &mut Memory,
) -> Result<bool, Reason>
    requires { EventHere sheet.now line.now at end v × Running sheet.now memory.old.words.now memory.old.held at × CodesKept units.now.lines.now sheet.now codes.old }
    ensures done { StepDone units.now.lines.now flags sheet.now line.now end v memory.old.words.now memory.old.held memory.new.words.now (left_if memory.new.held result) }
    ensures codes { CodesKept units.now.lines.now sheet.now codes.new }
    ensures lent { memory.new.words.ghost_name ≡ memory.old.words.ghost_name }
{
    if is_error(v) {
        return Ok(false);
    }
    on_event(units, flags, sheet, line, at, end, v, codes, memory)?;
    memory::check_limits(memory.held)?;
    Ok(true)
}

// The end: 19, then 17.
fn finish(h: Held) -> Result<Option<Held>, Refusal>
    requires { (h.counts.sections ≤ 128) × (h.counts.findings ≤ 1024) }
    ensures { Finished h result }
{
    match memory::check_end(h) {
        Err(reason) => Err(Refusal { reason, line: 0 }),
        Ok(()) => Ok(Some(h)),
    }
}

// The whole pass, over a `Memory` whose small state is the first one; what its words held does not matter. From an `error` line
// on nothing more is refused; `None`: there was one, and there is no recipe.
fn parse_events(
    sheet: &ReadSheet,
    units: &UnitList,
    flags: u32,
    memory: &mut Memory,
) -> Result<Option<Held>, Refusal>
    requires { (length sheet.now.bytes.now ≤ 65536) × (memory.old.held ≡ first_held) }
    ensures done { Ran sheet.now.text.now units.now.lines.now flags sheet.now.bytes.now (events_or (read_sheet sheet.now.text.now sheet.now.bytes.now)) memory.old.words.now memory.new.words.now result }
    ensures lent { memory.new.words.ghost_name ≡ memory.old.words.ghost_name }
{
    // `codes` keeps what an earlier line's unit is, so that each is looked up once.
    let mut codes = [0u32; unit_codes::CODES];
    let mut at = 0;
    let mut number: u32 = 1;
    while at < sheet.bytes.len() {
        let Some(end) = sheet::line_end(sheet.bytes, at) else {
            return Ok(None);
        };
        let line = &sheet.bytes[at..end];
        let v = known_events::event_of(line);
        match step(
            units,
            flags,
            sheet.bytes,
            line,
            at,
            end,
            v,
            &mut codes,
            memory,
        ) {
            Err(reason) => {
                return Err(Refusal {
                    reason,
                    line: number,
                });
            }
            Ok(false) => {
                return Ok(None);
            }
            Ok(true) => {
                at = end + 1;
                number += 1;
            }
        }
    }
    finish(memory.held)
}

// The same over words that are lent: the `Memory` is made here.
pub fn run(
    sheet: &ReadSheet,
    units: &UnitList,
    flags: u32,
    words: &mut [u32],
) -> Result<Option<Held>, Refusal>
    requires { (length sheet.now.bytes.now ≤ 65536) × (STATE_WORDS ≤ length words.old) }
    ensures { RanAs sheet.now.text.now units.now.lines.now flags sheet.now.bytes.now (events_or (read_sheet sheet.now.text.now sheet.now.bytes.now)) words.old words.new result }
{
    let mut memory = Memory {
        words,
        held: memory::first_held(),
    };
    parse_events(sheet, units, flags, &mut memory)
}
