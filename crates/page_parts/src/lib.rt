// What a line of the sheet adds to a part of the page: here to its sections, in each_part.rt to the others and to any part. A
// writer gets the output from the cursor on and returns how many bytes it wrote, or one more than there is room for.
#![tactic(auto)]

pub mod each_part;

ghost use Rattle.std.specs.Prelude.{◌≡◌, true, [], ◌+◌, ◌^◌, ◌<◌, length};
ghost use Rattle.rules.specs.Basic.{pick, all, is_some, on_some};
ghost use Rattle.rules.specs.Event.{component_span, spans_of, inside};
ghost use Rattle.rules.specs.Units.{read_units, units_or};
ghost use Rattle.rules.specs.Answer.{is_good_span};
ghost use Rattle.rules.specs.Model.{trimmed_text};
ghost use Rattle.output.specs.Put.{Put};
ghost use Rattle.parts.specs.Views.{opt_text_in};
ghost use Rattle.events.specs.Views.{component_event_in, inside_in, event_in};
ghost use Rattle.known_events.specs.Fields.{TextField, OptTextField, BetweenFields, InsideFields, EventFields};
ghost use Rattle.following.specs.Drawn.{lead, start_adds, section_line};
ghost use Rattle.page_parts.specs.Sections.{ItemDrawn, EndDrawn, ComponentDrawn, TextDrawn, BetweenDrawn, InsideDrawn, SectionsDrawn};

use events::{Between, ComponentEvent, EventView, Inside};
use following::Follow;
use model::Open;
use parts::TextView;
use step_lines::{ItemKind, TextItems};
use unit_index::UnitList;
use utf8::Utf8;

// The first bytes of a block.
fn lead_line(rest: &mut [u8], counter: u32, b: Open) -> usize
    ensures { Put (lead counter b) rest.old 0 rest.new result }
{
    match b {
        Open::Nothing => 0,
        Open::Step => step_lines::step_line(rest, counter),
        Open::Text => step_lines::text_open(rest),
        Open::TextMode => step_lines::text_open(rest),
    }
}

fn put_lead(out: &mut [u8], at: usize, counter: u32, b: Open) -> usize
    ensures { Put (lead counter b) out.old at out.new result }
{
    output::put_line(out, at, |rest: &mut [u8]| lead_line(rest, counter, b))
}

// A `start` that opens the block b.
fn start_line(rest: &mut [u8], f: Follow, b: Open) -> usize
    ensures { Put (start_adds f b) rest.old 0 rest.new result }
{
    let define = f.define;
    if following::keeps_block(define, b) {
        let counter = f.counter;
        if f.shown {
            return lead_line(rest, counter, b);
        }
        let n = step_lines::unnamed_section_line(rest);
        return put_lead(rest, n, counter, b);
    }
    0
}

// A `section`: one without a name is drawn with its first block.
fn named_line(rest: &mut [u8], line: &[u8], name: Option<TextView>) -> usize
    requires { OptTextField line.now name }
    ensures { Put (pick (is_some (opt_text_in line.now name)) (section_line (on_some trimmed_text (opt_text_in line.now name))) []) rest.old 0 rest.new result }
{
    match name {
        None => 0,
        Some(v) => step_lines::section_line(rest, line, name),
    }
}

fn end_line(rest: &mut [u8], b: Open) -> usize
    ensures { EndDrawn b rest.old rest.new result }
{
    match b {
        Open::Nothing => 0,
        Open::Step => 0,
        Open::Text => step_lines::text_close(rest),
        Open::TextMode => step_lines::text_close(rest),
    }
}

fn item_line(rest: &mut [u8], c: ComponentEvent, f: Follow) -> usize
    ensures { ItemDrawn c f rest.old rest.new result }
{
    match c {
        ComponentEvent::Ingredient(v, i) => {
            let n = f.ingredients;
            step_lines::item_line(rest, ItemKind::Ingredient, n)
        }
        ComponentEvent::Cookware(v) => {
            let n = f.cookware;
            step_lines::item_line(rest, ItemKind::Cookware, n)
        }
        ComponentEvent::Timer(s, a, q) => {
            let n = f.timers;
            step_lines::item_line(rest, ItemKind::Timer, n)
        }
    }
}

// A component: an item in a step, its source in text mode.
fn component_line(rest: &mut [u8], text: &Utf8, c: ComponentEvent, f: Follow) -> usize
    requires { is_good_span text.now.bytes.now (length text.now.bytes.now) (component_span (component_event_in [] c)) ≡ true }
    ensures { ComponentDrawn text.now.bytes.now c f rest.old rest.new result }
{
    let b = f.block;
    match b {
        Open::Nothing => 0,
        Open::Step => {
            let define = f.define;
            if blocks::is_components(define) {
                return 0;
            }
            item_line(rest, c, f)
        }
        Open::Text => 0,
        Open::TextMode => {
            let s = blocks::component_span(c);
            step_lines::source_piece(rest, text, s)
        }
    }
}

// A text: the items of a step, or a piece of a text block.
fn text_line(
    units: &UnitList,
    flags: u32,
    rest: &mut [u8],
    line: &[u8],
    body: TextView,
    f: Follow,
) -> TextItems
    requires { TextField line.now body × (f.inline + length line.now < 2 ^ 32) }
    ensures { TextDrawn (units_or (read_units units.now.lines.now)) flags line.now body f rest.old rest.new result }
{
    let b = f.block;
    match b {
        Open::Nothing => TextItems {
            count: 0,
            inline: 0,
        },
        Open::Step => {
            let define = f.define;
            if blocks::is_components(define) {
                return TextItems {
                    count: 0,
                    inline: 0,
                };
            }
            let first = f.inline;
            step_lines::text_items(units, flags, rest, line, body, first)
        }
        Open::Text => {
            let count = step_lines::text_piece(rest, line, body);
            TextItems { count, inline: 0 }
        }
        Open::TextMode => {
            let count = step_lines::text_piece(rest, line, body);
            TextItems { count, inline: 0 }
        }
    }
}

fn between_line(rest: &mut [u8], line: &[u8], b: Between, f: Follow) -> usize
    requires { BetweenFields line.now b }
    ensures { BetweenDrawn line.now b f rest.old rest.new result }
{
    match b {
        Between::Meta(key, value) => 0,
        Between::Section(name) => named_line(rest, line, name),
        Between::Start(kind) => {
            let define = f.define;
            let o = following::opens_as(define, kind);
            start_line(rest, f, o)
        }
    }
}

fn inside_line(
    text: &Utf8,
    units: &UnitList,
    flags: u32,
    rest: &mut [u8],
    line: &[u8],
    i: Inside,
    f: Follow,
) -> TextItems
    requires { InsideFields line.now i × (all (is_good_span text.now.bytes.now (length text.now.bytes.now)) (spans_of (inside (inside_in line.now i))) ≡ true) × (f.inline + length line.now < 2 ^ 32) }
    ensures { InsideDrawn text.now.bytes.now (units_or (read_units units.now.lines.now)) flags line.now i f rest.old rest.new result }
{
    match i {
        Inside::End(kind) => {
            let b = f.block;
            let count = end_line(rest, b);
            TextItems { count, inline: 0 }
        }
        Inside::Text(body) => text_line(units, flags, rest, line, body, f),
        Inside::Component(c) => {
            let count = component_line(rest, text, c, f);
            TextItems { count, inline: 0 }
        }
    }
}

// What a line adds to the page's sections, and how many inline quantities it adds.
fn sections_line(
    text: &Utf8,
    units: &UnitList,
    flags: u32,
    rest: &mut [u8],
    line: &[u8],
    e: EventView,
    f: Follow,
) -> TextItems
    requires { EventFields line.now e × (all (is_good_span text.now.bytes.now (length text.now.bytes.now)) (spans_of (event_in line.now e)) ≡ true) × (f.inline + length line.now < 2 ^ 32) }
    ensures { SectionsDrawn text.now.bytes.now (units_or (read_units units.now.lines.now)) flags line.now e f rest.old rest.new result }
{
    match e {
        EventView::Between(b) => {
            let count = between_line(rest, line, b, f);
            TextItems { count, inline: 0 }
        }
        EventView::Inside(i) => inside_line(text, units, flags, rest, line, i, f),
        EventView::Finding(s, n) => TextItems {
            count: 0,
            inline: 0,
        },
    }
}
