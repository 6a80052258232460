// The unit list: lines of a name, a tab and a physical quantity. It is lent bytes; crates/unit_index has an index of it.
#![tactic(auto)]

ghost use Rattle.std.specs.Prelude.{◌≡◌, true, ◌≤◌, [], length, MatchOption};
ghost use Rattle.rules.specs.Basic.{eq_list, is_some, word_in};
ghost use Rattle.rules.specs.Sheet.{fields_of};
ghost use Rattle.rules.specs.Units.{physical_words, unit_of_fields, unit_of, read_units};
ghost use Rattle.units.specs.Lists.{is_list_from, units_from, part, UnitTurn};

#[derive(Clone, Copy)]
pub enum Physical {
    Volume,
    Mass,
    Length,
    Temperature,
    Time,
}

// Whether the second field of a line is the word of a physical quantity.
#[tactic(auto, unfolding(rules::specs::Basic::is_some, rules::specs::Basic::word_in))]
fn is_physical(f: &[u8]) -> bool
    ensures { result ≡ is_some (word_in f.now physical_words) }
{
    sheet::same_bytes(f, b"volume")
        || sheet::same_bytes(f, b"mass")
        || sheet::same_bytes(f, b"length")
        || sheet::same_bytes(f, b"temperature")
        || sheet::same_bytes(f, b"time")
}

// A line that is UTF-8.
fn has_unit_fields(line: &[u8]) -> bool
    ensures { result ≡ is_some (unit_of_fields (fields_of line.now)) }
{
    let name = sheet::field(line, 0);
    let n = name.len();
    if n == 0 || line.len() <= n {
        return false;
    }
    let word = sheet::field(line, n + 1);
    line.len() <= n + 1 + word.len() && is_physical(word)
}

// One line without its LF.
fn is_unit(line: &[u8]) -> bool
    ensures { result ≡ is_some (unit_of line.now) }
{
    match utf8::first_fault(line) {
        None => has_unit_fields(line),
        Some(_) => false,
    }
}

// Whether each line is a unit, and ended, and there are at most 1,024 of them.
pub fn is_list(units: &[u8]) -> bool
    ensures { result ≡ is_some (read_units units.now) }
{
    let mut at = 0;
    let mut n: u32 = 0;
    while at < units.len() {
        let Some(e) = sheet::line_end(units, at) else {
            return false;
        };
        if n == 1024 {
            return false;
        }
        if !is_unit(&units[at..e]) {
            return false;
        }
        n += 1;
        at = e + 1;
    }
    true
}

// A unit of a list: where its name ends, and where the next line starts.
#[derive(Clone, Copy)]
pub struct UnitAt {
    pub name_end: usize,
    pub next: usize,
    pub physical: Physical,
}

// The unit whose line starts at a place of a well-formed list. The words of the physical quantities differ in
// their first two letters.
pub fn unit_at(units: &[u8], at: usize) -> Option<UnitAt>
    requires { is_list_from units.now at ≡ true }
    ensures { MatchOption result (units_from units.now at ≡ []) (UnitTurn units.now at) }
{
    if units.len() <= at {
        return None;
    }
    let name = sheet::field(units, at);
    let name_end = at + name.len();
    let w = name_end + 1;
    let c = units[w];
    let d = units[w + 1];
    let (physical, size) = if c == b'v' {
        (Physical::Volume, 7)
    } else if c == b'm' {
        (Physical::Mass, 5)
    } else if c == b'l' {
        (Physical::Length, 7)
    } else if d == b'i' {
        (Physical::Time, 5)
    } else {
        (Physical::Temperature, 12)
    };
    Some(UnitAt {
        name_end,
        next: w + size,
        physical,
    })
}

// Whether the name from one place of a list to another is this one. Most differ in their length.
pub fn is_named(units: &[u8], at: usize, end: usize, name: &[u8]) -> bool
    requires { (at ≤ end) × (end ≤ length units.now) }
    ensures { result ≡ eq_list name.now (part units.now at end) }
{
    let e = at + name.len();
    if end != e {
        return false;
    }
    sheet::same_bytes(name, &units[at..e])
}
