// Whether the units of two quantities fit (`compatible_unit`). Units are parts of lines, still escaped.
#![tactic(auto)]

ghost use Rattle.std.specs.Prelude.{◌≡◌};
ghost use Rattle.rules.specs.Units.{physical_number, read_units, units_or};
ghost use Rattle.rules.specs.Checks.{compatible_unit};
ghost use Rattle.content.specs.Contents.{kept_in};
ghost use Rattle.text.specs.Trims.{TrimmedTo};
ghost use Rattle.units.specs.Quantities.{physical_in};
ghost use Rattle.units.specs.Lists.{units_from};
ghost use Rattle.parts.specs.Views.{part_of, OptTextWithin};
ghost use Rattle.compatible.specs.Fitting.{unit_code, known_of, unit_in, told};

use parts::TextView;
use unit_index::UnitList;
use units::Physical;

#[tactic(auto, unfolding(rules::specs::Units::physical_number, units::specs::Quantities::physical_in))]
fn physical_code(p: Physical) -> u32
    ensures { result ≡ physical_number (physical_in p) }
{
    match p {
        Physical::Volume => 0,
        Physical::Mass => 1,
        Physical::Length => 2,
        Physical::Temperature => 3,
        Physical::Time => 4,
    }
}

// The number of a unit's physical quantity; 5 where it is not in the list.
pub fn unit_code(units: &UnitList, a: &[u8]) -> u32
    ensures { result ≡ unit_code (units_from units.now.lines.now 0) (kept_in a.now) }
{
    match unit_index::find_named(units, a) {
        Some(p) => physical_code(p),
        None => 5,
    }
}

// The code for two units, or none where they fit. The same unit fits, known or not.
fn known_units(units: &UnitList, a: &[u8], b: &[u8]) -> Option<u32>
    ensures { result ≡ told (known_of (units_from units.now.lines.now 0) (kept_in a.now) (kept_in b.now)) }
{
    if content::same_parts(a, b) {
        return None;
    }
    let m = unit_code(units, a);
    if m == 5 {
        return Some(17);
    }
    let n = unit_code(units, b);
    if n == 5 {
        return Some(17);
    }
    if m == n {
        return None;
    }
    Some(16)
}

// The part of a line that a text's trimming leaves.
pub fn text_part<'a>(line: &'a [u8], v: TextView) -> &'a [u8]
    ensures { TrimmedTo (part_of line.now v.content) result.now }
{
    let f = parts::part_of(line, v.content);
    text::text_outer_trimmed(f)
}

// The code for the units of two quantities, each of its line: 15, 16 or 17, or none where they fit.
pub fn compatible_unit(
    units: &UnitList,
    f: &[u8],
    a: Option<TextView>,
    g: &[u8],
    b: Option<TextView>,
) -> Option<u32>
    requires { OptTextWithin f.now a × OptTextWithin g.now b }
    ensures { result ≡ told (compatible_unit (units_or (read_units units.now.lines.now)) (unit_in f.now a) (unit_in g.now b)) }
{
    match (a, b) {
        (Some(u), Some(v)) => {
            let x = text_part(f, u);
            let y = text_part(g, v);
            known_units(units, x, y)
        }
        (None, None) => None,
        _ => Some(15),
    }
}
