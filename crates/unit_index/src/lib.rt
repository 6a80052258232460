// The index of a unit list: its names in chains by their hashes. 256 words are the heads of the chains; then each line has two, where
// it starts in the list, and the next line of its chain (one more than its number, or 0); the last word is a number of bytes
// that no name exceeds.
#![tactic(auto)]

ghost use Rattle.std.specs.Prelude.{◌≡◌, true, ◌-◌, ◌≤◌, ◌<◌, length};
ghost use Rattle.rules.specs.Basic.{is_some, eq_list, on_some};
ghost use Rattle.rules.specs.Utf8.{is_utf8, chars};
ghost use Rattle.rules.specs.Units.{read_units, find_unit};
ghost use Rattle.content.specs.Contents.{content_in, kept_in};
ghost use Rattle.units.specs.Quantities.{physical_in};
ghost use Rattle.units.specs.Lists.{units_from, UnitTurn};
ghost use Rattle.chains.specs.Rows.{find_in};
ghost use Rattle.unit_index.specs.Index.{names, bucket, head, start, next, longest, first_of, LineIn, Filled, Indexed, Linked, Cleared, LongestKept, LinePushed, Named, LineAdded, AllAdded, UnitsIndexed};

use refusals::Reason;
use units::{Physical, UnitAt};

// The words of an index.
pub type Index = [u32; 2305];

// A well-formed unit list in which no name stands twice, with its index.
#[derive(Clone, Copy)]
pub struct UnitList<'a> {
    pub lines: &'a [u8],
    pub words: &'a Index,
    ghost indexed: { Indexed lines.now words.now },
}

fn head_at(index: &Index, b: usize) -> usize
    requires { b < 256 }
    ensures { result ≡ head index.now b }
{
    index[b] as usize
}

fn start_at(index: &Index, i: usize) -> usize
    requires { i < 1024 }
    ensures { result ≡ start index.now i }
{
    index[256 + i * 2] as usize
}

fn next_at(index: &Index, i: usize) -> usize
    requires { i < 1024 }
    ensures { result ≡ next index.now i }
{
    index[257 + i * 2] as usize
}

fn longest_in(index: &Index) -> usize
    ensures { result ≡ longest index.now }
{
    index[2304] as usize
}

fn line_at(units: &[u8], from: usize) -> UnitAt
    requires { LineIn units.now from }
    ensures { UnitTurn units.now from result }
{
    units::unit_at(units, from).unwrap()
}

// ---- the names of a list

// What the content of a field, its blanks collapsed, stands for.
pub fn find_named(units: &UnitList, name: &[u8]) -> Option<Physical>
    ensures { on_some physical_in result ≡ find_unit (kept_in name.now) (units_from units.now.lines.now 0) }
{
    let h = chains::hash_kept(name) % 256;
    let mut p = head_at(units.words, h);
    while p != 0 {
        let i = p - 1;
        let from = start_at(units.words, i);
        let u = line_at(units.lines, from);
        let to = u.name_end;
        if content::same_content(name, &units.lines[from..to]) {
            return Some(u.physical);
        }
        p = next_at(units.words, i);
    }
    None
}

// The chain of the content of a field's part: one more than the number of its first line, or 0; also 0 where the content is seen
// to be longer than any name.
pub fn first_of(index: &Index, name: &[u8]) -> usize
    ensures { result ≡ first_of index.now name.now }
{
    if longest_in(index) < name.len() / 2 {
        return 0;
    }
    let h = chains::hash_content(name) % 256;
    head_at(index, h)
}

// Whether such a line's name is the content.
pub fn is_named(units: &UnitList, p: usize, name: &[u8]) -> bool
    requires { Linked units.now.lines.now p }
    ensures { result ≡ eq_list (content_in name.now) (names units.now.lines.now (p - 1)) }
{
    let i = p - 1;
    let from = start_at(units.words, i);
    let u = line_at(units.lines, from);
    let to = u.name_end;
    content::same_chars(name, &units.lines[from..to])
}

// The next line of its chain.
pub fn next_of(index: &Index, p: usize) -> usize
    requires { (0 < p) × (p ≤ 1024) }
    ensures { result ≡ next index.now (p - 1) }
{
    next_at(index, p - 1)
}

// ---- the lines of a list

// No chain has a line.
fn clear_heads(index: &mut Index)
    ensures { Cleared index.new }
{
    index[..256].fill(0);
}

// Whether a name in UTF-8 of the chain b is that of one of the first n lines.
fn has_name(units: &[u8], index: &Index, n: usize, name: &[u8], b: usize) -> bool
    requires { Filled units.now index.now n × (is_utf8 name.now ≡ true) × (b ≡ bucket (chars name.now)) }
    ensures { result ≡ is_some (find_in (names units.now) (chars name.now) n) }
{
    let mut p = head_at(index, b);
    while p != 0 {
        let i = p - 1;
        let from = start_at(index, i);
        let u = line_at(units, from);
        if units::is_named(units, from, u.name_end, name) {
            return true;
        }
        p = next_at(index, i);
    }
    false
}

// The last word is raised to the size of a name.
fn keep_longest(index: &mut Index, size: u32)
    ensures { LongestKept index.old size index.new }
{
    if index[2304] < size {
        index[2304] = size;
    }
}

// One line more, first in its chain.
fn push_line(index: &mut Index, n: usize, b: usize, from: u32)
    requires { (n < 1024) × (b < 256) }
    ensures { LinePushed index.old n b from index.new }
{
    let first = index[b];
    let at = 256 + n * 2;
    let after = 257 + n * 2;
    let more = (n + 1) as u32;
    index[at] = from;
    index[after] = first;
    index[b] = more;
}

// Adds line n, whose name stands from a place to another. True where an earlier line has its name: then nothing is added.
fn add_line(units: &[u8], index: &mut Index, n: usize, from: usize, to: usize) -> bool
    requires { Filled units.now index.old n × Named units.now n from to × (length units.now ≤ 16384) }
    ensures { LineAdded units.now n index.new result }
{
    let name = &units[from..to];
    let b = chains::hash_chars(name) % 256;
    if has_name(units, index, n, name, b) {
        return true;
    }
    keep_longest(index, name.len() as u32);
    push_line(index, n, b, from as u32);
    false
}

// Adds the lines of a well-formed list, up to the first whose name an earlier line has. True where there is such a line: then the
// index is of no use.
fn add_lines(units: &[u8], index: &mut Index) -> bool
    requires { (is_some (read_units units.now) ≡ true) × (length units.now ≤ 16384) × Cleared index.old }
    ensures { AllAdded units.now index.new result }
{
    let mut n = 0;
    let mut at = 0;
    while let Some(u) = units::unit_at(units, at) {
        if add_line(units, index, n, at, u.name_end) {
            return true;
        }
        n += 1;
        at = u.next;
    }
    false
}

// The unit list as it is lent: refusal 5 where it is ill-formed, refusal 6 where a name stands twice; else its index.
pub fn index_units(units: &[u8], index: &mut Index) -> Result<(), Reason>
    requires { length units.now ≤ 16384 }
    ensures { UnitsIndexed units.now index.old index.new result }
{
    if !units::is_list(units) {
        return Err(Reason::IllUnits);
    }
    clear_heads(index);
    if add_lines(units, index) {
        return Err(Reason::UnitTwice);
    }
    Ok(())
}
