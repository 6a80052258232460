// Reads a file of stored cases (crates/replay/data/README.md). All functions take any bytes: a case that is not as the
// format says is seen, and nothing is read past the end.
#![tactic(auto)]

ghost use Rattle.std.specs.Prelude.{◌≡◌, length, get_or, replicate};
ghost use Rattle.std.specs.Io.{ReadsAtMost};
ghost use Rattle.stored_cases.specs.Cases.{part_of, after_of, starts_with, past_word, on_line, number_at, part_at, case_at, part_named, bytes_named, next_case};

use std::rt::Files;
use std::{fs, io};

// A number, and the place after the byte that ends it.
#[derive(Clone, Copy)]
struct Number {
    value: u32,
    next: usize,
}

// Bytes of the file, from a place to another.
#[derive(Clone, Copy)]
pub struct Place {
    pub from: usize,
    pub to: usize,
}

// A part of a case: its name and its bytes, which end before an LF.
#[derive(Clone, Copy)]
struct NamedPart {
    name: Place,
    bytes: Place,
}

// How many bytes of output are lent, the case's name, and where its parts start.
#[derive(Clone, Copy)]
pub struct Case {
    pub room: usize,
    pub name: Place,
    pub parts: usize,
}

// The byte at a place; past the end 0.
fn byte(s: &[u8], at: usize) -> u8
    ensures { result ≡ get_or s.now at 0 }
{
    if at < s.len() {
        return s[at];
    }
    0
}

// The decimal number at a place: one to nine digits, and then this byte.
fn read_number(s: &[u8], at: usize, end: u8) -> Option<Number>
    ensures { result ≡ number_at s.now at end }
{
    let mut n: u32 = 0;
    let mut count: u32 = 0;
    for i in at..s.len() {
        let b = s[i];
        if b == end {
            if count == 0 {
                return None;
            }
            return Some(Number {
                value: n,
                next: i + 1,
            });
        }
        if b < b'0' || b'9' < b || 9 <= count {
            return None;
        }
        n = n * 10 + (b - 48) as u32;
        count += 1;
    }
    None
}

// So many bytes on from a place, or the end.
fn after(s: &[u8], at: usize, n: usize) -> usize
    ensures { result ≡ after_of s.now at n }
{
    if at <= s.len() {
        if n <= s.len() - at {
            return at + n;
        }
    }
    s.len()
}

// The bytes between two places, or none.
pub fn part<'a>(s: &'a [u8], from: usize, to: usize) -> &'a [u8]
    ensures { result.now ≡ part_of s.now from to }
{
    if s.len() < to {
        return &s[0..0];
    }
    if to < from {
        return &s[0..0];
    }
    &s[from..to]
}

pub fn starts(s: &[u8], word: &[u8]) -> bool
    ensures { result ≡ starts_with s.now word.now }
{
    let n = word.len();
    sheet::same_bytes(part(s, 0, n), word)
}

// The place after a word, if that stands at a place.
fn past_word(s: &[u8], at: usize, word: &[u8]) -> Option<usize>
    ensures { result ≡ past_word s.now at word.now }
{
    if !starts(part(s, at, s.len()), word) {
        return None;
    }
    Some(after(s, at, word.len()))
}

// Where this byte stands first from a place on; none where the line or the file ends before it.
fn on_line(s: &[u8], at: usize, end: u8) -> Option<usize>
    ensures { result ≡ on_line s.now at end }
{
    for i in at..s.len() {
        let b = s[i];
        if b == end {
            return Some(i);
        }
        if b == b'\n' {
            return None;
        }
    }
    None
}

// The part whose line starts at a place; an LF within the file ends its bytes.
fn part_at(s: &[u8], at: usize) -> Option<NamedPart>
    ensures { result ≡ part_at s.now at }
{
    let from = past_word(s, at, b"part ")?;
    let to = on_line(s, from, b' ')?;
    let size = read_number(s, to + 1, b'\n')?;
    let end = after(s, size.next, size.value as usize);
    if byte(s, end) != b'\n' {
        return None;
    }
    Some(NamedPart {
        name: Place { from, to },
        bytes: Place {
            from: size.next,
            to: end,
        },
    })
}

// The case whose line starts at a place.
pub fn case_at(s: &[u8], at: usize) -> Option<Case>
    ensures { result ≡ case_at s.now at }
{
    let a = past_word(s, at, b"case ")?;
    let room = read_number(s, a, b' ')?;
    let end = on_line(s, room.next, b'\n')?;
    Some(Case {
        room: room.value as usize,
        name: Place {
            from: room.next,
            to: end,
        },
        parts: end + 1,
    })
}

// Where the bytes of a part stand, by its name: the first one of that name. Other parts are passed over.
pub fn part_named(s: &[u8], c: Case, name: &[u8]) -> Option<Place>
    ensures { result ≡ part_named s.now c name.now }
{
    let mut at = c.parts;
    while let Some(p) = part_at(s, at) {
        if sheet::same_bytes(part(s, p.name.from, p.name.to), name) {
            return Some(p.bytes);
        }
        at = p.bytes.to + 1;
    }
    None
}

// The bytes of a part, by its name; none where it is absent.
pub fn bytes_named<'a>(s: &'a [u8], c: Case, name: &[u8]) -> &'a [u8]
    ensures { result.now ≡ bytes_named s.now c name.now }
{
    match part_named(s, c, name) {
        Some(p) => part(s, p.from, p.to),
        None => &s[0..0],
    }
}

// Where the case after this one starts: after its last part.
pub fn next_case(s: &[u8], c: Case) -> usize
    ensures { result ≡ next_case s.now c }
{
    let mut at = c.parts;
    while let Some(p) = part_at(s, at) {
        at = p.bytes.to + 1;
    }
    at
}

// Room for the longest file.
pub fn room() -> [u8; 2097152]
    ensures { (2097152 ≡ length result) × (result ≡ replicate 2097152 0) }
{
    [0; 2097152]
}

// How many bytes of a file were read, at the front of the room; a longer file fills it.
pub fn read_file(rt: &impl Files, name: &str, space: &mut [u8]) -> io::Result<usize>
    ensures { ReadsAtMost result space.new }
{
    let mut file = fs::open(rt, name)?;
    host::read_full(&mut file, space)
}

// Prints some words and a number as a line.
pub fn show(rt: &impl Print, what: &[u8], n: u64) -> io::Result<()> {
    rt.write_all(what)?;
    rt.println(n)
}
