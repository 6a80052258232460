// The checks after a reference that two components make: their notes (18), quantities (19, 20) and units (15 to 17).
// A check that may find one thing answers it; the others store what is found, in the order in which it comes.
#![tactic(auto)]

ghost use Rattle.std.specs.Prelude.{◌≡◌, not, ◌+◌, ◌<◌};
ghost use Rattle.rules.specs.Basic.{when};
ghost use Rattle.rules.specs.Units.{read_units, units_or};
ghost use Rattle.rules.specs.Finding.{found_two};
ghost use Rattle.rules.specs.Model.{is_textual};
ghost use Rattle.rules.specs.Checks.{text_check, widened};
ghost use Rattle.parts.specs.Views.{span_in, SpanWithin, OptQuantityWithin};
ghost use Rattle.model.specs.Rows.{finding_of, if_found};
ghost use Rattle.checks.specs.Reports.{place_of, NoteWithin, NoteChecked, PairChecked, QuantityChecked, UnitsChecked, ReferenceChecked};
ghost use Rattle.sheet.specs.Words.{kind_in};
ghost use Rattle.model.specs.declared.layout.TheConstants.{MOST_FINDINGS};

use memory::Memory;
use model::Noted;
use parts::{QuantityView, Span, TextView};
use sheet::ValueKind;
use unit_index::UnitList;

// A finding with two spans.
fn two_spans(code: u32, s: Span, t: Span, implicit: bool) -> Noted
    ensures { finding_of result ≡ found_two code (span_in s) (span_in t) implicit }
{
    model::two_spans(code, s.start, s.end, t.start, t.end, implicit)
}

fn widened_span(s: Span) -> Span
    requires { SpanWithin s }
    ensures { span_in result ≡ widened (span_in s) }
{
    let end = s.end + 1;
    let at = s.start;
    if at == 0 {
        return Span { start: 0, end };
    }
    Span { start: at - 1, end }
}

// A note of a component that refers to one of the span and the note `old`.
fn note_check(
    implicit: bool,
    note: Option<TextView>,
    span: Span,
    old: Option<TextView>,
) -> Option<Noted>
    requires { NoteWithin note }
    ensures { NoteChecked implicit note span old result }
{
    let v = note?;
    let s = widened_span(v.span);
    match old {
        None => {
            let e = span.end;
            Some(two_spans(18, s, Span { start: e, end: e }, implicit))
        }
        Some(d) => Some(two_spans(18, s, d.span, implicit)),
    }
}

fn is_textual(k: ValueKind) -> bool
    ensures { result ≡ is_textual (kind_in k) }
{
    matches!(k, ValueKind::Textual)
}

fn conflict_check(implicit: bool, in_step: bool, s: Span, d: Span) -> Option<Noted>
    ensures { if_found result ≡ when (not in_step) (found_two 19 (span_in s) (span_in d) implicit) }
{
    if in_step {
        return None;
    }
    Some(two_spans(19, s, d, implicit))
}

// The text's span stands first.
fn text_check(implicit: bool, a: bool, b: bool, s: Span, t: Span) -> Option<Noted>
    ensures { if_found result ≡ text_check implicit a b (span_in s) (span_in t) }
{
    if a {
        if b {
            return None;
        }
        return Some(two_spans(20, s, t, implicit));
    }
    if b {
        return Some(two_spans(20, t, s, implicit));
    }
    None
}

fn pair_check(
    memory: &mut Memory,
    implicit: bool,
    in_step: bool,
    a: QuantityView,
    span: Span,
    b: QuantityView,
)
    requires { memory.old.held.counts.findings + 1 < MOST_FINDINGS }
    ensures done { PairChecked implicit in_step a span b memory.old.words.now memory.old.held memory.new.words.now memory.new.held }
    ensures lent { memory.new.words.ghost_name ≡ memory.old.words.ghost_name }
{
    let x = is_textual(a.kind);
    let y = is_textual(b.kind);
    let conflict = conflict_check(implicit, in_step, a.span, span);
    memory.push_found(conflict);
    let text = text_check(implicit, x, y, a.span, b.span);
    memory.push_found(text);
}

// A quantity of a component that refers to one of the span and the quantity `b`, which is defined in a step or not.
fn quantity_check(
    memory: &mut Memory,
    implicit: bool,
    in_step: bool,
    a: Option<QuantityView>,
    span: Span,
    b: Option<QuantityView>,
)
    requires { memory.old.held.counts.findings + 1 < MOST_FINDINGS }
    ensures done { QuantityChecked implicit in_step a span b memory.old.words.now memory.old.held memory.new.words.now memory.new.held }
    ensures lent { memory.new.words.ghost_name ≡ memory.old.words.ghost_name }
{
    if let Some(x) = a {
        if let Some(y) = b {
            pair_check(memory, implicit, in_step, x, span, y);
        }
    }
}

// A unit's place: its own span, or the quantity's.
fn unit_place(q: QuantityView) -> Span
    ensures { result ≡ place_of q }
{
    let s = q.span;
    let u = q.unit;
    match u {
        None => s,
        Some(v) => v.span,
    }
}

// The units of a new quantity and of an old one, each of its line.
pub fn unit_pair(
    units: &UnitList,
    f: &[u8],
    a: Option<QuantityView>,
    g: &[u8],
    b: Option<QuantityView>,
) -> Option<Noted>
    requires { OptQuantityWithin f.now a × OptQuantityWithin g.now b }
    ensures { UnitsChecked (units_or (read_units units.now.lines.now)) f.now a g.now b result }
{
    let x = a?;
    let y = b?;
    let code = compatible::compatible_unit(units, g, y.unit, f, x.unit)?;
    let p = unit_place(x);
    let q = unit_place(y);
    Some(two_spans(code, p, q, false))
}

// The checks of notes and quantities, in this order.
pub fn reference_checks(
    memory: &mut Memory,
    implicit: bool,
    in_step: bool,
    note: Option<TextView>,
    a: Option<QuantityView>,
    span: Span,
    old: Option<TextView>,
    b: Option<QuantityView>,
)
    requires { (memory.old.held.counts.findings + 2 < MOST_FINDINGS) × NoteWithin note }
    ensures done { ReferenceChecked implicit in_step note a span old b memory.old.words.now memory.old.held memory.new.words.now memory.new.held }
    ensures lent { memory.new.words.ghost_name ≡ memory.old.words.ghost_name }
{
    let found = note_check(implicit, note, span, old);
    memory.push_found(found);
    quantity_check(memory, implicit, in_step, a, span, b);
}
