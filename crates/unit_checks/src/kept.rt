// What the units of earlier ingredients are, each line read for its unit once, and whether a new unit fits.
ghost use Rattle.std.specs.Prelude.{◌≡◌, true, ◌-◌, ◌<◌, ◌≤◌, length, take, drop};
ghost use Rattle.rules.specs.Basic.{eq_list};
ghost use Rattle.rules.specs.Read.{parse_line};
ghost use Rattle.rules.specs.Model.{ingredient};
ghost use Rattle.units.specs.Lists.{units_from};
ghost use Rattle.compatible.specs.Fitting.{unit_code, trimmed_in};
ghost use Rattle.model.specs.Rows.{component_of_line};
ghost use Rattle.model.specs.Fits.{is_of_kind};
ghost use Rattle.unit_checks.specs.Checked.{fits_unit};
ghost use Rattle.unit_checks.specs.Codes.{UnitPlaced, LineWord, CodesKept, SameUnit, new_text, NewCode};
ghost use Rattle.model.specs.declared.layout.TheConstants.{MOST_INGREDIENTS};

use crate::NewUnit;
use parts::Part;
use recall::UnitPlace;
use unit_codes::Codes;
use unit_index::UnitList;

// The word of an earlier ingredient's line: 1 to 5 for its unit's physical quantity, that of its place for a unit that is not in
// the list, 7 for none, 8 where there is no quantity.
fn line_word(units: &UnitList, old: &[u8]) -> u32
    requires { is_of_kind ingredient (parse_line old.now) ≡ true }
    ensures { LineWord units.now.lines.now old.now result }
{
    match recall::unit_in(old) {
        UnitPlace::NoQuantity => 8,
        UnitPlace::NoUnit => 7,
        UnitPlace::At(p) => {
            let y = text::text_outer_trimmed(parts::part_of(old, p));
            let m = compatible::unit_code(units, y);
            if m == 5 {
                return unit_codes::place_word(p);
            }
            m + 1
        }
    }
}

// The word of that line, from then on kept.
fn row_word(units: &UnitList, codes: &mut Codes, sheet: &[u8], at: u32, end: u32, i: usize) -> u32
    requires { CodesKept units.now.lines.now sheet.now codes.old × (at ≤ end) × (end ≤ length sheet.now) × (is_of_kind ingredient (parse_line (take (end - at) (drop at sheet.now))) ≡ true) × (i < MOST_INGREDIENTS) }
    ensures { LineWord units.now.lines.now (take (end - at) (drop at sheet.now)) result × CodesKept units.now.lines.now sheet.now codes.new }
{
    let known = unit_codes::kept_word(codes, i, at, end);
    if known != 0 {
        return known;
    }
    let from = at as usize;
    let to = end as usize;
    let w = line_word(units, &sheet[from..to]);
    unit_codes::keep_word(codes, i, at, end, w);
    w
}

// Whether the unit of a field is written like the new one, without the white space around them.
fn same_written(a: &[u8], new: &NewUnit) -> bool
    ensures { result ≡ eq_list (trimmed_in a.now) (trimmed_in new.now.field.now) }
{
    if sheet::same_bytes(a, new.field) {
        return true;
    }
    let y = text::text_outer_trimmed(a);
    content::same_parts(y, new.trimmed)
}

// Whether the unit of an earlier ingredient's line, whose word is w, is the new one.
fn same_unit(old: &[u8], w: u32, new: &NewUnit) -> bool
    requires { (is_of_kind ingredient (parse_line old.now) ≡ true) × (16 ≤ w → UnitPlaced old.now w) }
    ensures { SameUnit old.now new.now.field.now result }
{
    let u = if 16 <= w {
        let from = (w / 65536) as usize;
        let to = (w % 65536) as usize;
        &old[from..to]
    } else {
        match recall::unit_in(old) {
            UnitPlace::NoQuantity => return false,
            UnitPlace::NoUnit => return false,
            UnitPlace::At(p) => parts::part_of(old, p),
        }
    };
    same_written(u, new)
}

// Whether the line of the row i draws nothing beside a new unit.
pub(crate) fn line_fits(
    units: &UnitList,
    codes: &mut Codes,
    sheet: &[u8],
    at: u32,
    end: u32,
    i: usize,
    new: &NewUnit,
) -> bool
    requires { CodesKept units.now.lines.now sheet.now codes.old × (at ≤ end) × (end ≤ length sheet.now) × (is_of_kind ingredient (parse_line (take (end - at) (drop at sheet.now))) ≡ true) × (i < MOST_INGREDIENTS) × NewCode (units_from units.now.lines.now 0) new.now.trimmed.now new.now.number }
    ensures { (result ≡ fits_unit (units_from units.now.lines.now 0) (component_of_line ingredient (take (end - at) (drop at sheet.now))).quantity (new_text new.now.number new.now.field.now)) × CodesKept units.now.lines.now sheet.now codes.new }
{
    let w = row_word(units, codes, sheet, at, end, i);
    let o = unit_codes::code_in(w);
    if o == 8 {
        return true;
    }
    if unit_codes::both_unknown(o, new.number) {
        let from = at as usize;
        let to = end as usize;
        return same_unit(&sheet[from..to], w, new);
    }
    unit_codes::code_fits(o, new.number)
}
