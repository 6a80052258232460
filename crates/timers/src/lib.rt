// `timer` lines in a step: the locks of quantities (6), and a timer's value and unit (21 to 23).
#![tactic(auto)]

ghost use Rattle.std.specs.Prelude.{◌≡◌, ◌+◌, ◌<◌};
ghost use Rattle.rules.specs.Basic.{when, on_some};
ghost use Rattle.rules.specs.Units.{read_units, units_or};
ghost use Rattle.rules.specs.Finding.{found};
ghost use Rattle.rules.specs.Model.{is_textual};
ghost use Rattle.sheet.specs.Words.{kind_in};
ghost use Rattle.units.specs.Quantities.{physical_in};
ghost use Rattle.parts.specs.Views.{span_in, OptTextWithin, OptQuantityWithin};
ghost use Rattle.model.specs.Rows.{if_found};
ghost use Rattle.model.specs.Small.{with_timers};
ghost use Rattle.timers.specs.Timed.{LockChecked, time_code, UnitChecked, TimeChecked, TimerPushed, TimerDone};
ghost use Rattle.model.specs.declared.layout.TheConstants.{MOST_FINDINGS};

use memory::Memory;
use model::{Held, Noted};
use parts::{QuantityView, Span, TextView};
use sheet::ValueKind;
use unit_index::UnitList;
use units::Physical;

// 6, lock.
pub fn lock_finding(quantity: Option<QuantityView>) -> Option<Noted>
    ensures { LockChecked quantity result }
{
    let q = quantity?;
    if q.lock {
        return Some(reference_findings::one_span(6, q.value_span, false));
    }
    None
}

// 21, timer text.
fn text_finding(kind: ValueKind, s: Span) -> Option<Noted>
    ensures { if_found result ≡ when (is_textual (kind_in kind)) (found 21 (span_in s)) }
{
    if matches!(kind, ValueKind::Textual) {
        return Some(reference_findings::one_span(21, s, false));
    }
    None
}

// 22 where a unit is not of time, 23 where it is unknown.
#[tactic(auto, unfolding(crate::specs::Timed::time_code, rules::specs::Basic::on_some, units::specs::Quantities::physical_in, rules::specs::Units::same_physical, rules::specs::Units::physical_number))]
fn time_code(p: Option<Physical>) -> Option<u32>
    ensures { result ≡ time_code (on_some physical_in p) }
{
    match p {
        None => Some(23),
        Some(q) => match q {
            Physical::Time => None,
            _ => Some(22),
        },
    }
}

fn unit_finding(units: &UnitList, line: &[u8], unit: Option<TextView>) -> Option<Noted>
    requires { OptTextWithin line.now unit }
    ensures { UnitChecked (units_or (read_units units.now.lines.now)) line.now unit result }
{
    let v = unit?;
    let name = compatible::text_part(line, v);
    let code = time_code(unit_index::find_named(units, name))?;
    Some(reference_findings::one_span(code, v.span, false))
}

// The checks of a timer's quantity with flag 4.
fn time_checks(units: &UnitList, memory: &mut Memory, line: &[u8], quantity: Option<QuantityView>)
    requires { OptQuantityWithin line.now quantity × (memory.old.held.counts.findings + 1 < MOST_FINDINGS) }
    ensures done { TimeChecked (units_or (read_units units.now.lines.now)) line.now quantity memory.old.words.now memory.old.held memory.new.words.now memory.new.held }
    ensures lent { memory.new.words.ghost_name ≡ memory.old.words.ghost_name }
{
    if let Some(q) = quantity {
        let kind = q.kind;
        let unit = q.unit;
        let text = text_finding(kind, q.value_span);
        memory.push_found(text);
        let known = unit_finding(units, line, unit);
        memory.push_found(known);
    }
}

// One timer more.
fn count_timer(mut h: Held) -> Held
    requires { h.counts.timers < 100000 }
    ensures { result ≡ with_timers (h.counts.timers + 1) h }
{
    h.counts.timers += 1;
    h
}

// The timer and its item.
fn push_timer(h: Held) -> Held
    requires { (h.counts.timers < 100000) × (h.counts.items < 100000) }
    ensures { TimerPushed h result }
{
    let k = count_timer(h);
    blocks::push_items(k, 1)
}

pub fn on_timer(
    units: &UnitList,
    flags: u32,
    line: &[u8],
    name: Option<TextView>,
    quantity: Option<QuantityView>,
    memory: &mut Memory,
)
    requires { OptQuantityWithin line.now quantity × (memory.old.held.counts.findings + 2 < MOST_FINDINGS) × (memory.old.held.counts.timers < 100000) × (memory.old.held.counts.items < 100000) }
    ensures done { TimerDone (units_or (read_units units.now.lines.now)) flags line.now name quantity memory.old.words.now memory.old.held memory.new.words.now memory.new.held }
    ensures lent { memory.new.words.ghost_name ≡ memory.old.words.ghost_name }
{
    memory.push_found(lock_finding(quantity));
    let bit = flags / 4 % 2;
    if bit == 1 {
        time_checks(units, memory, line, quantity);
    }
    memory.held = push_timer(memory.held);
}
