// What a line of the sheet adds to the page's timers, inline quantities and spans of finding 3, and to any part of the page.
ghost use Rattle.std.specs.Prelude.{◌≡◌, true, ◌+◌, ◌^◌, ◌<◌, length};
ghost use Rattle.rules.specs.Basic.{all};
ghost use Rattle.rules.specs.Event.{spans_of};
ghost use Rattle.rules.specs.Units.{read_units, units_or};
ghost use Rattle.rules.specs.Answer.{is_good_span};
ghost use Rattle.parts.specs.Views.{TextWithin};
ghost use Rattle.events.specs.Views.{event_in, EventWithin};
ghost use Rattle.known_events.specs.Fields.{TextField, ComponentEventFields, EventFields};
ghost use Rattle.known_events.specs.Known.{KnownEvent};
ghost use Rattle.page_parts.specs.Drawing.{TimerDrawn, TimersDrawn, QuantitiesDrawn, InlineDrawn, MetaDrawn, OldDrawn, LineDrawn};

use events::{Between, ComponentEvent, EventView, Inside};
use following::{Follow, Meta, Part};
use model::Open;
use parts::{Span, TextView};
use step_lines::TextItems;
use unit_index::UnitList;
use utf8::Utf8;

fn timer_of(rest: &mut [u8], line: &[u8], c: ComponentEvent, f: Follow) -> usize
    requires { ComponentEventFields line.now c }
    ensures { TimerDrawn line.now c f rest.old rest.new result }
{
    match c {
        ComponentEvent::Ingredient(v, i) => 0,
        ComponentEvent::Cookware(v) => 0,
        ComponentEvent::Timer(s, name, quantity) => {
            let b = f.block;
            match b {
                Open::Nothing => 0,
                Open::Step => {
                    let n = f.timers;
                    step_lines::timer_line(rest, line, n, name, quantity)
                }
                Open::Text => 0,
                Open::TextMode => 0,
            }
        }
    }
}

// What a line adds to the page's timers.
fn timers_line(rest: &mut [u8], line: &[u8], e: EventView, f: Follow) -> usize
    requires { EventFields line.now e }
    ensures { TimersDrawn line.now e f rest.old rest.new result }
{
    match e {
        EventView::Between(b) => 0,
        EventView::Inside(i) => match i {
            Inside::End(kind) => 0,
            Inside::Text(body) => 0,
            Inside::Component(c) => timer_of(rest, line, c, f),
        },
        EventView::Finding(s, n) => 0,
    }
}

fn quantities_of(
    units: &UnitList,
    flags: u32,
    rest: &mut [u8],
    line: &[u8],
    body: TextView,
    f: Follow,
) -> TextItems
    requires { TextField line.now body × (f.inline + length line.now < 2 ^ 32) }
    ensures { QuantitiesDrawn (units_or (read_units units.now.lines.now)) flags line.now body f rest.old rest.new result }
{
    let b = f.block;
    match b {
        Open::Nothing => TextItems {
            count: 0,
            inline: 0,
        },
        Open::Step => {
            let define = f.define;
            if blocks::is_components(define) {
                return TextItems {
                    count: 0,
                    inline: 0,
                };
            }
            let first = f.inline;
            step_lines::inline_lines(units, flags, rest, line, body, first)
        }
        Open::Text => TextItems {
            count: 0,
            inline: 0,
        },
        Open::TextMode => TextItems {
            count: 0,
            inline: 0,
        },
    }
}

// What a line adds to the page's inline quantities, and how many they are.
fn inline_line(
    units: &UnitList,
    flags: u32,
    rest: &mut [u8],
    line: &[u8],
    e: EventView,
    f: Follow,
) -> TextItems
    requires { EventFields line.now e × (f.inline + length line.now < 2 ^ 32) }
    ensures { InlineDrawn (units_or (read_units units.now.lines.now)) flags line.now e f rest.old rest.new result }
{
    match e {
        EventView::Between(b) => TextItems {
            count: 0,
            inline: 0,
        },
        EventView::Inside(i) => match i {
            Inside::End(kind) => TextItems {
                count: 0,
                inline: 0,
            },
            Inside::Text(body) => quantities_of(units, flags, rest, line, body, f),
            Inside::Component(c) => TextItems {
                count: 0,
                inline: 0,
            },
        },
        EventView::Finding(s, n) => TextItems {
            count: 0,
            inline: 0,
        },
    }
}

fn meta_line(
    flags: u32,
    rest: &mut [u8],
    line: &[u8],
    key: TextView,
    value: TextView,
    f: Follow,
) -> usize
    requires { TextWithin line.now key × TextWithin line.now value }
    ensures { MetaDrawn flags line.now key value f rest.old rest.new result }
{
    let m = following::meta_of(flags, line, key, value);
    match m {
        Meta::Defines(d) => 0,
        Meta::Ordinary => {
            let from = key.span;
            let to = value.span;
            let s = Span {
                start: from.start,
                end: to.end,
            };
            if f.old {
                return finding_lines::span_piece(rest, false, s);
            }
            finding_lines::span_piece(rest, true, s)
        }
        Meta::Other => 0,
    }
}

// What a line adds to the spans of finding 3.
fn old_line(flags: u32, rest: &mut [u8], line: &[u8], e: EventView, f: Follow) -> usize
    requires { EventWithin line.now e }
    ensures { OldDrawn flags line.now e f rest.old rest.new result }
{
    match e {
        EventView::Between(b) => match b {
            Between::Meta(key, value) => meta_line(flags, rest, line, key, value, f),
            Between::Section(name) => 0,
            Between::Start(kind) => 0,
        },
        EventView::Inside(i) => 0,
        EventView::Finding(s, n) => 0,
    }
}

// What a line adds to a part, and how many inline quantities it adds where the part depends on them.
pub fn draw_line(
    p: Part,
    text: &Utf8,
    units: &UnitList,
    flags: u32,
    rest: &mut [u8],
    line: &[u8],
    e: EventView,
    f: Follow,
) -> TextItems
    requires { KnownEvent line.now e × (all (is_good_span text.now.bytes.now (length text.now.bytes.now)) (spans_of (event_in line.now e)) ≡ true) × (f.inline + length line.now < 2 ^ 32) }
    ensures { LineDrawn text.now.bytes.now (units_or (read_units units.now.lines.now)) flags p line.now e f rest.old rest.new result }
{
    match p {
        Part::Sections => super::sections_line(text, units, flags, rest, line, e, f),
        Part::Timers => {
            let count = timers_line(rest, line, e, f);
            TextItems { count, inline: 0 }
        }
        Part::Inline => inline_line(units, flags, rest, line, e, f),
        Part::Old => {
            let count = old_line(flags, rest, line, e, f);
            TextItems { count, inline: 0 }
        }
    }
}
