// The component of a line that was read before, read again.
#![tactic(auto)]

ghost use Rattle.std.specs.Prelude.{◌≡◌, true, ◌+◌, ◌≤◌, length, drop};
ghost use Rattle.rules.specs.Basic.{lf, is_some};
ghost use Rattle.rules.specs.Read.{parse_line};
ghost use Rattle.rules.specs.Model.{ingredient};
ghost use Rattle.rules.specs.Sheet.{Without};
ghost use Rattle.sheet.specs.Lines.{fields_from};
ghost use Rattle.model.specs.Fits.{is_of_kind};
ghost use Rattle.recall.specs.Recalls.{blank_view, view_of, view_inside, view_in, Recalled, QuantityRecalled};
ghost use Rattle.recall.specs.Places.{tabs_in, PastText, UnitRead, UnitRecalled};

use components::{ComponentView, Modifiers};
use parts::{Dash, Part, QuantityView};

// A view of nothing.
fn blank_view() -> ComponentView
    ensures { result ≡ blank_view }
{
    ComponentView {
        span: parts::Span { start: 0, end: 0 },
        name: parts::TextView {
            span: parts::Span { start: 0, end: 0 },
            content: parts::Part { from: 0, to: 0 },
        },
        alias: None,
        quantity: None,
        note: None,
        modifiers: Modifiers {
            recipe: false,
            reference: false,
            hidden: false,
            opt: false,
            new: false,
        },
        modifiers_span: parts::Span { start: 0, end: 0 },
    }
}

fn of_component(c: events::ComponentEvent) -> ComponentView
    ensures { result ≡ view_of c }
{
    match c {
        events::ComponentEvent::Ingredient(v, i) => v,
        events::ComponentEvent::Cookware(v) => v,
        events::ComponentEvent::Timer(s, n, q) => blank_view(),
    }
}

#[tactic(auto, unfolding(crate::specs::Recalls::view_inside))]
fn of_inside(i: events::Inside) -> ComponentView
    ensures { result ≡ view_inside i }
{
    match i {
        events::Inside::End(k) => blank_view(),
        events::Inside::Text(t) => blank_view(),
        events::Inside::Component(c) => of_component(c),
    }
}

#[tactic(auto, unfolding(crate::specs::Recalls::view_in))]
fn of_event(e: events::EventView) -> ComponentView
    ensures { result ≡ view_in e }
{
    match e {
        events::EventView::Between(b) => blank_view(),
        events::EventView::Inside(i) => of_inside(i),
        events::EventView::Finding(s, n) => blank_view(),
    }
}

// The ingredient or the piece of cookware of a line that is one.
pub fn component_in(line: &[u8]) -> ComponentView
    requires { (is_some (parse_line line.now) ≡ true) × Without lf line.now }
    ensures { Recalled line.now result }
{
    let e = known_events::event_of(line);
    of_event(e)
}

// The quantity of a line that is an ingredient: what stands before it is read, and nothing after it.
pub fn quantity_in(line: &[u8]) -> Option<QuantityView>
    requires { is_of_kind ingredient (parse_line line.now) ≡ true }
    ensures { QuantityRecalled line.now result }
{
    // after the word `ingredient` and a tab
    let (span, a1) = parts::read_span(line, 11)?;
    let (name, a2) = parts::read_text(line, a1)?;
    let (alias, a3) = parts::read_opt_text(line, a2)?;
    let (quantity, a4) = parts::read_opt_quantity(line, a3)?;
    quantity
}

// How many of the eight bytes at a place are tabs.
fn tabs_in_eight(line: &[u8], at: usize) -> usize
    requires { at + 8 ≤ length line.now }
    ensures { result ≡ tabs_in line.now at 8 }
{
    let mut n = 0;
    for c in &line[at..at + 8] {
        if *c == b'\t' {
            n += 1;
        }
    }
    n
}

// Where the field starts that stands n fields after the one at `at`, found byte by byte; past the line where it has fewer.
fn after_near_tabs(line: &[u8], at: usize, n: usize) -> usize
    ensures { fields_from line.now result ≡ drop n (fields_from line.now at) }
{
    let mut i = at;
    let mut left = n;
    while 0 < left {
        if line.len() <= i {
            return line.len() + 1;
        }
        if line[i] == b'\t' {
            left -= 1;
        }
        i += 1;
    }
    i
}

// The same by eight bytes a turn, as long as these have fewer tabs than are left.
fn after_tabs(line: &[u8], at: usize, n: usize) -> usize
    ensures { fields_from line.now result ≡ drop n (fields_from line.now at) }
{
    if line.len() < at {
        return at;
    }
    let mut i = at;
    let mut left = n;
    while 8 <= line.len() - i {
        let tabs = tabs_in_eight(line, i);
        if left <= tabs {
            return after_near_tabs(line, i, left);
        }
        left -= tabs;
        i += 8;
    }
    after_near_tabs(line, i, left)
}

// Where the field after an opt text starts.
fn after_text(line: &[u8], at: usize) -> usize
    ensures { PastText line.now at result }
{
    match parts::opt_dash(line, at) {
        Dash::Absent(next) => next,
        Dash::Ill => at,
        Dash::Present => after_tabs(line, at, 3),
    }
}

// Where the unit of a quantity stands in its line.
#[derive(Clone, Copy)]
pub enum UnitPlace {
    // There is no quantity.
    NoQuantity,
    // The quantity has no unit.
    NoUnit,
    // The unit's content, still escaped.
    At(Part),
}

// The unit whose opt text starts at `at`.
fn unit_at(line: &[u8], at: usize) -> UnitPlace
    ensures { UnitRead line.now at result }
{
    match parts::opt_dash(line, at) {
        Dash::Absent(next) => UnitPlace::NoUnit,
        Dash::Ill => UnitPlace::NoUnit,
        Dash::Present => {
            let from = after_near_tabs(line, at, 2);
            if line.len() < from {
                return UnitPlace::NoUnit;
            }
            let content = sheet::field(line, from);
            UnitPlace::At(Part {
                from: from,
                to: from + content.len(),
            })
        }
    }
}

// Where the unit of the quantity of a line that is an ingredient stands. The line is known to be well formed, so fields are
// skipped by their tabs.
pub fn unit_in(line: &[u8]) -> UnitPlace
    requires { is_of_kind ingredient (parse_line line.now) ≡ true }
    ensures { UnitRecalled line.now result }
{
    // after the word `ingredient` and a tab, past the span and the name
    let alias = after_tabs(line, 11, 5);
    let quantity = after_text(line, alias);
    match parts::opt_dash(line, quantity) {
        Dash::Absent(next) => UnitPlace::NoQuantity,
        Dash::Ill => UnitPlace::NoQuantity,
        Dash::Present => {
            // past its span, its value and its lock
            let unit = after_tabs(line, quantity, 7);
            unit_at(line, unit)
        }
    }
}
