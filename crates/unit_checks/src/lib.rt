// The checks after a reference: the unit check over a definition and its references (15 to 17), then those of notes and
// quantities (18 to 20).
#![tactic(auto)]

mod kept;

ghost use Rattle.std.specs.Prelude.{◌≡◌, true, ◌+◌, ◌-◌, ◌<◌, ◌≤◌, None, Some};
ghost use Rattle.rules.specs.Units.{read_units, units_or};
ghost use Rattle.units.specs.Lists.{units_from};
ghost use Rattle.compatible.specs.Fitting.{unit_code};
ghost use Rattle.parts.specs.Views.{OptQuantityWithin};
ghost use Rattle.components.specs.Views.{ComponentWithin};
ghost use Rattle.model.specs.Memory.{count_of};
ghost use Rattle.model.specs.Fits.{AllFit};
ghost use Rattle.unit_checks.specs.Codes.{Trims, new_text, NewCode, CodesKept};
ghost use Rattle.unit_checks.specs.Checked.{InStep, SameBelow, HasUnit, UnitField, NumberRead, UnitKnown, fits_row, RowChecked, ReferrersChecked, UnitChecked, UnitsAfter, EntryChecked, ChecksDone};
ghost use Rattle.model.specs.Kinds.{kind_of};
ghost use Rattle.model.specs.declared.layout.TheConstants.{MOST_FINDINGS};

use components::ComponentView;
use memory::Memory;
use model::{Kind, Noted, Relation, RelationRecord};
use parts::QuantityView;
use unit_codes::Codes;
use unit_index::UnitList;

// The unit of a new quantity: its field, that trimmed, and the number of its physical quantity, where there is a unit.
#[derive(Clone, Copy)]
pub(crate) struct NewUnit<'a> {
    pub field: &'a [u8],
    pub trimmed: &'a [u8],
    pub number: Option<u32>,
    ghost trims: { Trims field.now trimmed.now },
}

fn in_step(r: RelationRecord) -> bool
    ensures { InStep r result }
{
    let e = r.relation;
    match e {
        Relation::Definition => r.in_step,
        Relation::Reference(t) => true,
    }
}

// ---- units

fn has_unit(a: Option<QuantityView>) -> bool
    ensures { HasUnit a result }
{
    match a {
        None => false,
        Some(q) => {
            let u = q.unit;
            match u {
                None => false,
                Some(v) => true,
            }
        }
    }
}

// The number of its physical quantity, where there is one: `x` is its field, trimmed.
fn number_of(units: &UnitList, a: Option<QuantityView>, x: &[u8]) -> Option<u32>
    ensures { NumberRead (units_from units.now.lines.now 0) a x.now result }
{
    if has_unit(a) {
        return Some(compatible::unit_code(units, x));
    }
    None
}

// The field of a quantity's unit in its line; nothing where there is none.
fn unit_field<'a>(line: &'a [u8], a: Option<QuantityView>) -> &'a [u8]
    ensures { UnitField line.now a result.now }
{
    match a {
        None => &line[0..0],
        Some(q) => {
            let u = q.unit;
            match u {
                None => &line[0..0],
                Some(v) => parts::part_of(line, v.content),
            }
        }
    }
}

// Whether the row i draws nothing beside a new unit.
fn row_fits(
    units: &UnitList,
    codes: &mut Codes,
    memory: &Memory,
    sheet: &[u8],
    new: &NewUnit,
    i: usize,
) -> bool
    requires { CodesKept units.now.lines.now sheet.now codes.old × AllFit sheet.now memory.now.words.now memory.now.held × NewCode (units_from units.now.lines.now 0) new.now.trimmed.now new.now.number × (i < memory.now.held.counts.ingredients) }
    ensures { (result ≡ fits_row (units_from units.now.lines.now 0) sheet.now memory.now.words.now i (new_text new.now.number new.now.field.now)) × CodesKept units.now.lines.now sheet.now codes.new }
{
    let r = memory.row(Kind::Ingredient, i);
    let at = r.line_at;
    let end = r.line_end;
    unit_codes::known_fits(codes, i, at, end, new.number)
        || kept::line_fits(units, codes, sheet, at, end, i, new)
}

// The unit of a new ingredient's quantity `a`, of its line, against that of the row i.
fn row_against(
    units: &UnitList,
    memory: &Memory,
    sheet: &[u8],
    line: &[u8],
    a: Option<QuantityView>,
    i: usize,
) -> Option<Noted>
    requires { OptQuantityWithin line.now a × AllFit sheet.now memory.now.words.now memory.now.held × (i < memory.now.held.counts.ingredients) }
    ensures { RowChecked (units_or (read_units units.now.lines.now)) sheet.now line.now a i memory.now.words.now memory.now.held result }
{
    let r = memory.row(Kind::Ingredient, i);
    let at = r.line_at as usize;
    let end = r.line_end as usize;
    let b = recall::quantity_in(&sheet[at..end]);
    checks::unit_pair(units, line, a, &sheet[at..end], b)
}

// The same where they do not fit.
fn unit_against(
    units: &UnitList,
    codes: &mut Codes,
    memory: &Memory,
    sheet: &[u8],
    line: &[u8],
    a: Option<QuantityView>,
    new: &NewUnit,
    i: usize,
) -> Option<Noted>
    requires { OptQuantityWithin line.now a × UnitKnown (units_from units.now.lines.now 0) line.now a new.now.field.now new.now.trimmed.now new.now.number × AllFit sheet.now memory.now.words.now memory.now.held × CodesKept units.now.lines.now sheet.now codes.old × (i < memory.now.held.counts.ingredients) }
    ensures { RowChecked (units_or (read_units units.now.lines.now)) sheet.now line.now a i memory.now.words.now memory.now.held result × CodesKept units.now.lines.now sheet.now codes.new }
{
    if row_fits(units, codes, memory, sheet, new, i) {
        return None;
    }
    row_against(units, memory, sheet, line, a, i)
}

// Against those of all rows that refer to the row d, oldest first.
fn referrer_check(
    units: &UnitList,
    codes: &mut Codes,
    memory: &mut Memory,
    sheet: &[u8],
    line: &[u8],
    a: Option<QuantityView>,
    new: &NewUnit,
    d: usize,
)
    requires { OptQuantityWithin line.now a × UnitKnown (units_from units.now.lines.now 0) line.now a new.now.field.now new.now.trimmed.now new.now.number × AllFit sheet.now memory.old.words.now memory.old.held × (d < memory.old.held.counts.ingredients) × (memory.old.held.counts.findings + memory.old.held.counts.ingredients ≤ MOST_FINDINGS) × CodesKept units.now.lines.now sheet.now codes.old }
    ensures done { ReferrersChecked (units_or (read_units units.now.lines.now)) sheet.now line.now a d memory.old.words.now memory.old.held memory.new.words.now memory.new.held }
    ensures codes { CodesKept units.now.lines.now sheet.now codes.new }
    ensures lent { memory.new.words.ghost_name ≡ memory.old.words.ghost_name }
{
    let mut place = memory.stored().first_referrer(Kind::Ingredient, d);
    loop {
        let Some((i, next)) = memory.stored().next_referrer(Kind::Ingredient, d, place) else {
            return;
        };
        let j = i as usize;
        // Not `unit_against`: with it a row takes 23 more instructions, 5 in a hundred on 512 amounts.
        if !row_fits(units, codes, memory, sheet, new, j) {
            let found = row_against(units, memory, sheet, line, a, j);
            memory.push_found(found);
        }
        place = next;
    }
}

// Against that of the definition at d, then those of all that refer to it; nothing where there is no quantity.
fn unit_check(
    units: &UnitList,
    codes: &mut Codes,
    memory: &mut Memory,
    sheet: &[u8],
    line: &[u8],
    a: Option<QuantityView>,
    d: usize,
)
    requires { OptQuantityWithin line.now a × AllFit sheet.now memory.old.words.now memory.old.held × (d < memory.old.held.counts.ingredients) × (memory.old.held.counts.findings + memory.old.held.counts.ingredients < MOST_FINDINGS) × CodesKept units.now.lines.now sheet.now codes.old }
    ensures done { UnitChecked (units_or (read_units units.now.lines.now)) sheet.now line.now a d memory.old.words.now memory.old.held memory.new.words.now memory.new.held }
    ensures codes { CodesKept units.now.lines.now sheet.now codes.new }
    ensures lent { memory.new.words.ghost_name ≡ memory.old.words.ghost_name }
{
    let Some(_) = a else {
        return;
    };
    let r = memory.row(Kind::Ingredient, d);
    let g = r.relation;
    let e = g.relation;
    let field = unit_field(line, a);
    let trimmed = text::text_outer_trimmed(field);
    let new = NewUnit {
        field,
        trimmed,
        number: number_of(units, a, trimmed),
    };
    let found = unit_against(units, codes, memory, sheet, line, a, &new, d);
    memory.push_found(found);
    if matches!(e, Relation::Definition) {
        referrer_check(units, codes, memory, sheet, line, a, &new, d);
    }
}

// ---- after a reference

// The unit check is for ingredients, with flag 4.
fn units_after(
    units: &UnitList,
    flags: u32,
    codes: &mut Codes,
    memory: &mut Memory,
    sheet: &[u8],
    line: &[u8],
    kind: Kind,
    a: Option<QuantityView>,
    d: usize,
)
    requires { OptQuantityWithin line.now a × AllFit sheet.now memory.old.words.now memory.old.held × (d < count_of (kind_of kind) memory.old.held) × (memory.old.held.counts.findings + memory.old.held.counts.ingredients < MOST_FINDINGS) × CodesKept units.now.lines.now sheet.now codes.old }
    ensures done { UnitsAfter (units_or (read_units units.now.lines.now)) flags (kind_of kind) sheet.now line.now a d memory.old.words.now memory.old.held memory.new.words.now memory.new.held }
    ensures codes { CodesKept units.now.lines.now sheet.now codes.new }
    ensures lent { memory.new.words.ghost_name ≡ memory.old.words.ghost_name }
{
    if matches!(kind, Kind::Ingredient) {
        let bit = flags / 4 % 2;
        if bit == 1 {
            unit_check(units, codes, memory, sheet, line, a, d);
        }
    }
}

// The checks of notes and quantities against the row d.
fn entry_check(
    memory: &mut Memory,
    sheet: &[u8],
    line: &[u8],
    kind: Kind,
    v: ComponentView,
    d: usize,
)
    requires { ComponentWithin line.now v × AllFit sheet.now memory.old.words.now memory.old.held × (d < count_of (kind_of kind) memory.old.held) × (memory.old.held.counts.findings + 2 < MOST_FINDINGS) }
    ensures done { EntryChecked (kind_of kind) sheet.now line.now v d memory.old.words.now memory.old.held memory.new.words.now memory.new.held }
    ensures lent { memory.new.words.ghost_name ≡ memory.old.words.ghost_name }
{
    let r = memory.row(kind, d);
    let g = r.relation;
    let inside = in_step(g);
    let at = r.line_at as usize;
    let end = r.line_end as usize;
    let o = recall::component_in(&sheet[at..end]);
    let implicit = !v.modifiers.reference;
    let note = v.note;
    let a = v.quantity;
    let old = o.note;
    let b = o.quantity;
    checks::reference_checks(memory, implicit, inside, note, a, o.span, old, b);
}

// All checks after a reference to the row `to`, or none.
pub fn checks_after(
    units: &UnitList,
    flags: u32,
    codes: &mut Codes,
    memory: &mut Memory,
    sheet: &[u8],
    line: &[u8],
    kind: Kind,
    v: ComponentView,
    to: Option<usize>,
)
    requires { ComponentWithin line.now v × AllFit sheet.now memory.old.words.now memory.old.held × SameBelow (kind_of kind) memory.old.held to × (memory.old.held.counts.findings + memory.old.held.counts.ingredients + 3 < MOST_FINDINGS) × CodesKept units.now.lines.now sheet.now codes.old }
    ensures done { ChecksDone (units_or (read_units units.now.lines.now)) flags (kind_of kind) sheet.now line.now v to memory.old.words.now memory.old.held memory.new.words.now memory.new.held }
    ensures codes { CodesKept units.now.lines.now sheet.now codes.new }
    ensures lent { memory.new.words.ghost_name ≡ memory.old.words.ghost_name }
{
    if let Some(d) = to {
        let a = v.quantity;
        units_after(units, flags, codes, memory, sheet, line, kind, a, d);
        entry_check(memory, sheet, line, kind, v, d);
    }
}
