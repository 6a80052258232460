// `ingredient` and `cookware` lines in a step: what a component refers to, what is found at it, and its row in work memory.
#![tactic(auto)]

ghost use Rattle.std.specs.Prelude.{◌≡◌, ◌+◌, ◌≤◌, length};
ghost use Rattle.std.proofs.Math.Seq.{slice};
ghost use Rattle.rules.specs.Basic.{on_some};
ghost use Rattle.rules.specs.Event.{inside, component_event};
ghost use Rattle.rules.specs.Units.{read_units, units_or};
ghost use Rattle.rules.specs.Model.{ingredient};
ghost use Rattle.components.specs.Views.{modifiers_in};
ghost use Rattle.events.specs.Views.{component_event_in, ComponentEventWithin};
ghost use Rattle.events.specs.declared.ComponentEvent.TheVariants as event;
ghost use Rattle.known_events.specs.Fields.{ComponentEventFields};
ghost use Rattle.model.specs.Fits.{AllFit};
ghost use Rattle.blocks.specs.Lined.{left};
ghost use Rattle.component_lines.specs.Lines.{LineHere, Kept, ComponentDone};
ghost use Rattle.component_lines.specs.Steps.{ComponentHere, NamePlaced, SameAsked, Roomy, SameSmall, OldRead, NamedReported, heir_of, RelatedTo, RowNamed, ReferredBelow, RowPut, IntermediateReported, IntermediateDone, NamedDone};
ghost use Rattle.new_rows.specs.Rows.{RowMade};
ghost use Rattle.unit_checks.specs.Checked.{SameBelow};
ghost use Rattle.unit_checks.specs.Codes.{CodesKept};
ghost use Rattle.model.specs.Kinds.{kind_of};

use components::{ComponentView, Intermediate, Modifiers};
use lookup::NamePart;
use memory::Memory;
use model::{Kind, Relation, RelationRecord, Row};
use refusals::Reason;
use unit_codes::Codes;
use unit_index::UnitList;

// ---- names

// Where the sheet has the name of the component whose line begins at `at`.
fn name_of(sheet: &[u8], at: usize, v: ComponentView, kind: Kind) -> NamePart
    requires { (length sheet.now ≤ 65536) × (v.name.content.from ≤ v.name.content.to) × (at + v.name.content.to ≤ length sheet.now) }
    ensures { NamePlaced (kind_of kind) sheet.now at v result }
{
    let from = at + v.name.content.from;
    let to = at + v.name.content.to;
    lookup::new_name(sheet, from, to, kind)
}

// The earlier component of the name, where it is needed.
fn same_of(sheet: &[u8], memory: &Memory, p: NamePart, m: Modifiers, kind: Kind) -> Option<usize>
    requires { (p.at ≤ p.end) × (p.end ≤ length sheet.now) × AllFit sheet.now memory.now.words.now memory.now.held }
    ensures { SameAsked (kind_of kind) sheet.now memory.now.words.now memory.now.held (slice p.at p.end sheet.now) m.reference m.opt result }
{
    let define = memory.held.define;
    let duplicate = memory.held.duplicate;
    if lookup::asks_same(define, duplicate, m.reference) {
        return lookup::found_before(sheet, &memory.stored(), kind, p, m.reference, m.opt);
    }
    None
}

// The modifiers of what the search found.
fn old_of(memory: &Memory, same: Option<usize>, kind: Kind) -> Option<Modifiers>
    requires { SameBelow (kind_of kind) memory.now.held same }
    ensures { OldRead (kind_of kind) memory.now.words.now memory.now.held same result }
{
    match same {
        None => None,
        Some(i) => {
            let r = memory.row(kind, i);
            let m = new_rows::modifiers_of(r);
            Some(m)
        }
    }
}

// ---- the row

// Its modifiers, and where it refers those that the definition hands down.
fn heir_of(m: Modifiers, to: Option<usize>, old: Option<Modifiers>, kind: Kind) -> Modifiers
    ensures { modifiers_in result ≡ heir_of (kind_of kind) to (on_some modifiers_in old) (modifiers_in m) }
{
    match to {
        None => m,
        Some(_) => match old {
            None => m,
            Some(d) => new_rows::referring_modifiers(kind, m, d),
        },
    }
}

fn relation_to(to: Option<usize>, in_step: bool, kind: Kind) -> RelationRecord
    requires { SameSmall to }
    ensures { RelatedTo (kind_of kind) in_step to result }
{
    match to {
        None => {
            RelationRecord {
                relation: Relation::Definition,
                in_step,
                index: 0,
            }
        }
        Some(i) => {
            RelationRecord {
                relation: Relation::Reference(model::Target::Ingredient),
                in_step,
                index: i as u32,
            }
        }
    }
}

// The row of the component of a line.
fn row_of(at: usize, end: usize, p: NamePart, m: Modifiers, relation: RelationRecord) -> Row
    requires { (end ≤ 65536) × (at ≤ end) × (p.at ≤ p.end) × (p.end ≤ 65536) }
    ensures { RowMade at end p.at p.end m relation result }
{
    let line_at = at as u32;
    let line_end = end as u32;
    let name_at = p.at as u32;
    let name_end = p.end as u32;
    new_rows::new_row(line_at, line_end, name_at, name_end, m, relation)
}

// The row of a component that is looked up by its name.
fn row_named(
    at: usize,
    end: usize,
    p: NamePart,
    in_step: bool,
    m: Modifiers,
    to: Option<usize>,
    old: Option<Modifiers>,
    kind: Kind,
) -> Row
    requires { (end ≤ 65536) × (at ≤ end) × (p.at ≤ p.end) × (p.end ≤ 65536) × SameSmall to }
    ensures { RowNamed (kind_of kind) at end p in_step m to old result }
{
    let own = heir_of(m, to, old, kind);
    let relation = relation_to(to, in_step, kind);
    row_of(at, end, p, own, relation)
}

// It again, as an index that work memory holds.
fn found_of(to: Option<usize>) -> Option<u32>
    requires { SameSmall to }
    ensures { result ≡ to }
{
    to.map(|i| i as u32)
}

// The row, the referrer of what it refers to, and the item.
fn put_row(memory: &mut Memory, row: Row, to: Option<u32>, kind: Kind)
    requires { Roomy memory.old.held × ReferredBelow (kind_of kind) memory.old.held to }
    ensures done { RowPut (kind_of kind) memory.old.words.now memory.old.held row to memory.new.words.now memory.new.held }
    ensures lent { memory.new.words.ghost_name ≡ memory.old.words.ghost_name }
{
    memory.add_component(kind, row, to);
    memory.held = blocks::push_items(memory.held, 1);
}

// ---- intermediate references

// All that is found at an intermediate reference to `target`.
fn intermediate_reports(memory: &mut Memory, v: ComponentView, i: Intermediate, target: Option<u32>)
    requires { memory.old.held.counts.findings ≤ 1024 }
    ensures done { IntermediateReported v i target memory.old.words.now memory.old.held memory.new.words.now memory.new.held }
    ensures lent { memory.new.words.ghost_name ≡ memory.old.words.ghost_name }
{
    let m = v.modifiers;
    let quantity = v.quantity;
    memory.push_found(timers::lock_finding(quantity));
    let marks = intermediate::intermediate_modifiers(m, v.modifiers_span);
    memory.push_found(marks);
    memory.push_found(intermediate::intermediate_findings(i, target));
}

// An ingredient with an intermediate reference.
fn intermediate_line(
    sheet: &[u8],
    at: usize,
    end: usize,
    v: ComponentView,
    i: Intermediate,
    memory: &mut Memory,
)
    requires { ComponentHere ingredient sheet.now at end v × AllFit sheet.now memory.old.words.now memory.old.held × Roomy memory.old.held × (memory.old.held.counts.findings ≤ 1024) }
    ensures done { IntermediateDone sheet.now (slice at end sheet.now) v i memory.old.words.now memory.old.held memory.new.words.now memory.new.held }
    ensures lent { memory.new.words.ghost_name ≡ memory.old.words.ghost_name }
{
    let m = v.modifiers;
    let define = memory.held.define;
    let p = name_of(sheet, at, v, Kind::Ingredient);
    let target = intermediate::intermediate_target(&memory.stored(), i);
    let in_step = !blocks::is_components(define);
    let relation = intermediate::intermediate_relation(i, in_step, target);
    let row = row_of(at, end, p, m, relation);
    intermediate_reports(memory, v, i, target);
    put_row(memory, row, None, Kind::Ingredient);
}

// ---- references by name

// All that is found at a component that refers to `to`, where the search found one with the modifiers `old`.
fn named_reports(
    units: &UnitList,
    flags: u32,
    sheet: &[u8],
    at: usize,
    end: usize,
    v: ComponentView,
    old: Option<Modifiers>,
    to: Option<usize>,
    kind: Kind,
    codes: &mut Codes,
    memory: &mut Memory,
)
    requires { ComponentHere (kind_of kind) sheet.now at end v × SameBelow (kind_of kind) memory.old.held to × AllFit sheet.now memory.old.words.now memory.old.held × Roomy memory.old.held × (memory.old.held.counts.findings ≤ 1024) × CodesKept units.now.lines.now sheet.now codes.old }
    ensures done { NamedReported (units_or (read_units units.now.lines.now)) flags (kind_of kind) sheet.now (slice at end sheet.now) v old to memory.old.words.now memory.old.held memory.new.words.now memory.new.held }
    ensures codes { CodesKept units.now.lines.now sheet.now codes.new }
    ensures lent { memory.new.words.ghost_name ≡ memory.old.words.ghost_name }
{
    let m = v.modifiers;
    let quantity = v.quantity;
    memory.push_found(timers::lock_finding(quantity));
    reference_findings::reference_findings(memory, kind, m, v.span, v.modifiers_span, old);
    unit_checks::checks_after(
        units,
        flags,
        codes,
        memory,
        sheet,
        &sheet[at..end],
        kind,
        v,
        to,
    );
}

// A component that is looked up by its name.
fn named_line(
    units: &UnitList,
    flags: u32,
    sheet: &[u8],
    at: usize,
    end: usize,
    v: ComponentView,
    kind: Kind,
    codes: &mut Codes,
    memory: &mut Memory,
)
    requires { ComponentHere (kind_of kind) sheet.now at end v × AllFit sheet.now memory.old.words.now memory.old.held × Roomy memory.old.held × (memory.old.held.counts.findings ≤ 1024) × CodesKept units.now.lines.now sheet.now codes.old }
    ensures done { NamedDone (units_or (read_units units.now.lines.now)) flags (kind_of kind) sheet.now (slice at end sheet.now) v memory.old.words.now memory.old.held memory.new.words.now memory.new.held }
    ensures codes { CodesKept units.now.lines.now sheet.now codes.new }
    ensures lent { memory.new.words.ghost_name ≡ memory.old.words.ghost_name }
{
    let m = v.modifiers;
    let define = memory.held.define;
    let duplicate = memory.held.duplicate;
    let p = name_of(sheet, at, v, kind);
    let same = same_of(sheet, memory, p, m, kind);
    let old = old_of(memory, same, kind);
    let to = lookup::refers_to(define, duplicate, m.reference, m.new, same);
    let in_step = !blocks::is_components(define);
    let row = row_named(at, end, p, in_step, m, to, old, kind);
    let found = found_of(to);
    named_reports(
        units, flags, sheet, at, end, v, old, to, kind, codes, memory,
    );
    put_row(memory, row, found, kind);
}

// ---- the lines

pub fn on_ingredient(
    units: &UnitList,
    flags: u32,
    sheet: &[u8],
    at: usize,
    end: usize,
    v: ComponentView,
    i: Option<Intermediate>,
    codes: &mut Codes,
    memory: &mut Memory,
) -> Result<(), Reason>
    requires { LineHere sheet.now at end (inside (component_event (component_event_in (slice at end sheet.now) (event.Ingredient v i)))) × ComponentEventWithin (slice at end sheet.now) (event.Ingredient v i) × ComponentEventFields (slice at end sheet.now) (event.Ingredient v i) × Kept sheet.now memory.old.words.now memory.old.held × CodesKept units.now.lines.now sheet.now codes.old }
    ensures done { ComponentDone units.now.lines.now flags sheet.now (slice at end sheet.now) (event.Ingredient v i) memory.old.words.now memory.old.held memory.new.words.now (left memory.new.held result) }
    ensures codes { CodesKept units.now.lines.now sheet.now codes.new }
    ensures lent { memory.new.words.ghost_name ≡ memory.old.words.ghost_name }
{
    let m = v.modifiers;
    intermediate::check_intermediate(m.reference, i)?;
    match i {
        None => {
            let kind = Kind::Ingredient;
            named_line(units, flags, sheet, at, end, v, kind, codes, memory);
            Ok(())
        }
        Some(x) => {
            intermediate_line(sheet, at, end, v, x, memory);
            Ok(())
        }
    }
}

pub fn on_cookware(
    units: &UnitList,
    flags: u32,
    sheet: &[u8],
    at: usize,
    end: usize,
    v: ComponentView,
    codes: &mut Codes,
    memory: &mut Memory,
) -> Result<(), Reason>
    requires { LineHere sheet.now at end (inside (component_event (component_event_in (slice at end sheet.now) (event.Cookware v)))) × ComponentEventWithin (slice at end sheet.now) (event.Cookware v) × ComponentEventFields (slice at end sheet.now) (event.Cookware v) × Kept sheet.now memory.old.words.now memory.old.held × CodesKept units.now.lines.now sheet.now codes.old }
    ensures done { ComponentDone units.now.lines.now flags sheet.now (slice at end sheet.now) (event.Cookware v) memory.old.words.now memory.old.held memory.new.words.now (left memory.new.held result) }
    ensures codes { CodesKept units.now.lines.now sheet.now codes.new }
    ensures lent { memory.new.words.ghost_name ≡ memory.old.words.ghost_name }
{
    let kind = Kind::Cookware;
    named_line(units, flags, sheet, at, end, v, kind, codes, memory);
    Ok(())
}
