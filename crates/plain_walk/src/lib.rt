// The plain form of a sheet that the pass accepted: a second walk, over the component rows that the pass left in work memory.
#![tactic(auto)]

ghost use Rattle.std.specs.Prelude.{◌≡◌, true, ◌&&◌, ◌≤◌, ◌<◌, length, Some};
ghost use Rattle.rules.specs.Utf8.{is_utf8};
ghost use Rattle.rules.specs.Modes.{has_modes, key_of, key_text};
ghost use Rattle.rules.specs.Plain.{is_mode_key};
ghost use Rattle.parts.specs.Views.{text_in, TextWithin};
ghost use Rattle.events.specs.declared.EventView.TheVariants as event;
ghost use Rattle.events.specs.Views.{BetweenWithin, EventWithin};
ghost use Rattle.model.specs.Kinds.{kind_of, room_of};
ghost use Rattle.model.specs.Memory.{rows_in};
ghost use Rattle.model.specs.Rows.{HasRow};
ghost use Rattle.model.specs.declared.Open.TheVariants as block;
ghost use Rattle.plain_walk.specs.Rows.{implicit_row};
ghost use Rattle.plain_walk.specs.Faults.{RowNamed, ComponentReady, InsideReady, EventReady, ImplicitFound, RowFault, StepFault, LineFault};
ghost use Rattle.plain_walk.specs.Becomes.{PlainFit, Few, row_plain, StartTold, BetweenTold, ComponentTold, BlockTold, TextTold, EventTold, PlainWritten};
ghost use Rattle.plain_walk.specs.Walk.{PassDone, FormWritten};

use components::ComponentView;
use events::{Between, ComponentEvent, EventView, Inside};
use following::Follow;
use memory::Stored;
use model::{Kind, Open};
use parts::{Span, TextView};
use reading::ReadSheet;
use refusals::{Reason, Refusal};
use sheet::BlockKind;
use utf8::Utf8;

// ---- references without REF

// What row n refers to, of its own kind, where its line has no REF.
fn implicit_row(rows: &[u32], n: usize, reference: bool) -> Option<usize>
    requires { HasRow rows.now n }
    ensures { ImplicitFound rows.now reference n result }
{
    if reference {
        return None;
    }
    model::row_target(rows, n)
}

// 23, where row n refers to the row d without REF.
fn check_last(sheet: &[u8], rows: &[u32], n: usize, d: usize) -> Result<(), Reason>
    requires { RowNamed sheet.now rows.now n }
    ensures { RowFault sheet.now rows.now n (Some d) result }
{
    let (from, to) = model::row_name(rows, n);
    match lookup::same_name_before(sheet, rows, n, &sheet[from..to], true, false) {
        None => Err(Reason::NotLast),
        Some(l) => {
            if l == d {
                return Ok(());
            }
            Err(Reason::NotLast)
        }
    }
}

// 23 of the line of row n.
fn check_row(sheet: &[u8], rows: &[u32], n: usize, reference: bool) -> Result<(), Reason>
    requires { RowNamed sheet.now rows.now n }
    ensures { RowFault sheet.now rows.now n (implicit_row rows.now reference n) result }
{
    match implicit_row(rows, n, reference) {
        None => Ok(()),
        Some(d) => check_last(sheet, rows, n, d),
    }
}

// 23 of a component in a step.
fn check_mark(sheet: &[u8], stored: &Stored, c: ComponentEvent, f: Follow) -> Result<(), Reason>
    requires { ComponentReady sheet.now stored.now.words.now c f }
    ensures { StepFault sheet.now stored.now.words.now c f result }
{
    match c {
        ComponentEvent::Ingredient(v, i) => {
            let n = f.ingredients as usize;
            let m = v.modifiers;
            check_row(sheet, stored.rows(Kind::Ingredient), n, m.reference)
        }
        ComponentEvent::Cookware(v) => {
            let n = f.cookware as usize;
            let m = v.modifiers;
            check_row(sheet, stored.rows(Kind::Cookware), n, m.reference)
        }
        ComponentEvent::Timer(s, n, q) => Ok(()),
    }
}

// 22 or 23 of a line in a block.
fn check_inside(sheet: &[u8], stored: &Stored, i: Inside, f: Follow) -> Result<(), Reason>
    requires { InsideReady sheet.now stored.now.words.now i f }
    ensures { LineFault sheet.now stored.now.words.now (event.Inside i) f result }
{
    match i {
        Inside::End(kind) => Ok(()),
        Inside::Text(body) => Ok(()),
        Inside::Component(c) => {
            let b = f.block;
            match b {
                Open::Nothing => Ok(()),
                Open::Step => {
                    let define = f.define;
                    following::check_define(define)?;
                    check_mark(sheet, stored, c, f)
                }
                Open::Text => Ok(()),
                Open::TextMode => Ok(()),
            }
        }
    }
}

// 22 or 23 of any line.
fn check_marks(sheet: &[u8], stored: &Stored, e: EventView, f: Follow) -> Result<(), Reason>
    requires { EventReady sheet.now stored.now.words.now e f }
    ensures { LineFault sheet.now stored.now.words.now e f result }
{
    match e {
        EventView::Between(b) => Ok(()),
        EventView::Inside(i) => check_inside(sheet, stored, i, f),
        EventView::Finding(s, n) => Ok(()),
    }
}

// ---- what a line becomes

#[derive(Clone, Copy)]
pub enum Plain {
    Dropped,
    Copied,
    StartText,
    EndText,
    // A component in text mode, by its span.
    Source(Span),
    // A component of the kind, with REF added.
    Marked(Kind, ComponentView),
}

// Whether a `meta` line sets a mode, or would.
fn is_mode_line(flags: u32, line: &[u8], key: TextView) -> bool
    requires { TextWithin line.now key }
    ensures { result ≡ (has_modes flags && is_mode_key (key_of (key_text (text_in line.now key)))) }
{
    let kp = key.content;
    let k = parts::part_of(line, kp);
    config_keys::is_heeded(flags, k)
}

fn start_plain(kind: BlockKind, f: Follow) -> Plain
    ensures { StartTold kind f result }
{
    match kind {
        BlockKind::Step => {
            let define = f.define;
            if blocks::is_text(define) {
                return Plain::StartText;
            }
            if blocks::is_components(define) {
                return Plain::Dropped;
            }
            Plain::Copied
        }
        BlockKind::Text => Plain::Copied,
    }
}

fn between_plain(flags: u32, line: &[u8], b: Between, f: Follow) -> Plain
    requires { BetweenWithin line.now b }
    ensures { BetweenTold flags line.now b f result }
{
    match b {
        Between::Meta(key, value) => {
            if is_mode_line(flags, line, key) {
                return Plain::Dropped;
            }
            Plain::Copied
        }
        Between::Section(name) => Plain::Copied,
        Between::Start(kind) => start_plain(kind, f),
    }
}

// A component of a kind, in row n.
fn row_plain(stored: &Stored, kind: Kind, v: ComponentView, n: usize) -> Plain
    requires { n < room_of (kind_of kind) }
    ensures { result ≡ row_plain kind v (implicit_row (rows_in (kind_of kind) stored.now.words.now) v.modifiers.reference n) }
{
    let m = v.modifiers;
    match implicit_row(stored.rows(kind), n, m.reference) {
        None => Plain::Copied,
        Some(d) => Plain::Marked(kind, v),
    }
}

// A component in a step that is kept.
fn component_plain(stored: &Stored, c: ComponentEvent, f: Follow) -> Plain
    requires { Few f }
    ensures { ComponentTold stored.now.words.now c f result }
{
    match c {
        ComponentEvent::Ingredient(v, i) => {
            let n = f.ingredients as usize;
            row_plain(stored, Kind::Ingredient, v, n)
        }
        ComponentEvent::Cookware(v) => {
            let n = f.cookware as usize;
            row_plain(stored, Kind::Cookware, v, n)
        }
        ComponentEvent::Timer(s, n, q) => Plain::Copied,
    }
}

// A line in a step.
fn step_plain(stored: &Stored, i: Inside, f: Follow) -> Plain
    requires { Few f }
    ensures { BlockTold stored.now.words.now i block.Step f result }
{
    let define = f.define;
    if blocks::is_components(define) {
        return Plain::Dropped;
    }
    match i {
        Inside::End(kind) => Plain::Copied,
        Inside::Text(body) => Plain::Copied,
        Inside::Component(c) => component_plain(stored, c, f),
    }
}

// A line in text mode.
fn text_plain(i: Inside) -> Plain
    ensures { TextTold i result }
{
    match i {
        Inside::End(kind) => Plain::EndText,
        Inside::Text(body) => Plain::Copied,
        Inside::Component(c) => Plain::Source(blocks::component_span(c)),
    }
}

fn inside_plain(stored: &Stored, i: Inside, f: Follow) -> Plain
    requires { Few f }
    ensures { BlockTold stored.now.words.now i f.block f result }
{
    let b = f.block;
    match b {
        Open::Nothing => Plain::Copied,
        Open::Step => step_plain(stored, i, f),
        Open::Text => Plain::Copied,
        Open::TextMode => text_plain(i),
    }
}

fn plain_of(flags: u32, line: &[u8], stored: &Stored, e: EventView, f: Follow) -> Plain
    requires { EventWithin line.now e × Few f }
    ensures { EventTold flags stored.now.words.now line.now e f result }
{
    match e {
        EventView::Between(b) => between_plain(flags, line, b, f),
        EventView::Inside(i) => inside_plain(stored, i, f),
        EventView::Finding(s, n) => Plain::Copied,
    }
}

// ---- its bytes

fn plain_line(rest: &mut [u8], text: &Utf8, line: &[u8], p: Plain) -> usize
    requires { PlainFit text.now.bytes.now line.now p }
    ensures { PlainWritten text.now.bytes.now line.now p rest.old 0 rest.new result }
{
    match p {
        Plain::Dropped => 0,
        Plain::Copied => plain_lines::copied_line(rest, line),
        Plain::StartText => plain_lines::start_text_line(rest),
        Plain::EndText => plain_lines::end_text_line(rest),
        Plain::Source(s) => plain_lines::source_line(rest, text, s),
        Plain::Marked(b, v) => plain_lines::marked_line(rest, line, b, v),
    }
}

fn put_plain(out: &mut [u8], at: usize, text: &Utf8, line: &[u8], p: Plain) -> usize
    requires { PlainFit text.now.bytes.now line.now p }
    ensures { PlainWritten text.now.bytes.now line.now p out.old at out.new result }
{
    if out.len() < at {
        return out.len() + 1;
    }
    at + plain_line(&mut out[at..], text, line, p)
}

// ---- the form

// The plain form of a sheet that the pass accepted, written in `out`.
pub fn plain_form_lines(
    sheet: &ReadSheet,
    flags: u32,
    stored: &Stored,
    out: &mut [u8],
) -> Result<usize, Refusal>
    requires { (length sheet.now.bytes.now ≤ 65536) × (is_utf8 sheet.now.text.now ≡ true) × PassDone sheet.now.text.now flags sheet.now.bytes.now stored.now.words.now stored.now.held }
    ensures { FormWritten sheet.now.text.now flags sheet.now.bytes.now stored.now.words.now stored.now.held out.old out.new result }
{
    let text = Utf8 { bytes: sheet.text };
    let mut f = following::first_follow();
    let mut at = 0;
    let mut number: u32 = 1;
    let mut n = 0;
    while at < sheet.bytes.len() {
        let Some(end) = sheet::line_end(sheet.bytes, at) else {
            return Ok(0);
        };
        let line = &sheet.bytes[at..end];
        let e = known_events::event_of(line);
        if let Err(reason) = check_marks(sheet.bytes, stored, e, f) {
            return Err(Refusal {
                reason,
                line: number,
            });
        }
        let p = plain_of(flags, line, stored, e, f);
        n = put_plain(out, n, &text, line, p);
        f = following::follow_event(flags, line, e, f, 0);
        at = end + 1;
        number += 1;
    }
    Ok(n)
}
