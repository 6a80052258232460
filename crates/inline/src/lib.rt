// Quantities inside a text. A text is the content of a field or of a part of one, which stands escaped; places are those
// of the field's bytes.
#![tactic(auto)]

ghost use Rattle.std.specs.Prelude.{◌≡◌, ◌≤◌, ◌<◌, length, drop};
ghost use Rattle.rules.specs.Basic.{is_digit};
ghost use Rattle.rules.specs.Units.{read_units, units_or};
ghost use Rattle.rules.specs.Unicode.{is_white_space};
ghost use Rattle.content.specs.Contents.{content_in};
ghost use Rattle.content.specs.Parts.{Field};
ghost use Rattle.rules.specs.Text.{is_not_alphabetic};
ghost use Rattle.rules.specs.Inline.{is_no_digit, is_digit_or_point, points as points_in};
ghost use Rattle.inline.specs.Scans.{is_not_white, lead_size, is_solid, is_solid_e3, part, Front, SignAt, UnitPart};
ghost use Rattle.inline.specs.Found.{InlineAt};
ghost use Rattle.inline.specs.Items.{CountsOf, text_items};

use text::Dropped;
use unit_index::UnitList;

// A part of a text, from a place to a place.
#[derive(Clone, Copy)]
struct Span {
    from: usize,
    to: usize,
}

// Whether a code point is an ASCII digit.
fn is_digit(c: u32) -> bool
    ensures { result ≡ is_digit c }
{
    48 <= c && c <= 57
}

#[tactic(auto, unfolding(rules::specs::Inline::is_digit_or_point))]
fn is_digit_or_point(c: u32) -> bool
    ensures { result ≡ is_digit_or_point c }
{
    is_digit(c) || c == 46
}

// How many bytes the character takes that a byte starts.
#[tactic(auto, unfolding(crate::specs::Scans::lead_size))]
fn lead_size(a: u8) -> usize
    ensures { result ≡ lead_size a }
{
    if a < 0x80 {
        return 1;
    }
    if a < 0xe0 {
        return 2;
    }
    if a < 0xf0 {
        return 3;
    }
    4
}

// Whether a byte is seen to start a character that is not White_Space.
#[tactic(auto, unfolding(crate::specs::Scans::is_solid))]
fn is_solid(a: u8) -> bool
    ensures { result ≡ is_solid a }
{
    if a < 0x80 {
        return 33 <= a && a != b'\\';
    }
    if a < 0xe1 {
        return a != 0xc2;
    }
    0xe3 < a
}

// Whether the byte at a place is E3 and does not start U+3000, the only White_Space that starts so.
#[tactic(auto, unfolding(crate::specs::Scans::is_solid_e3))]
fn is_solid_e3(s: &[u8], i: usize) -> bool
    requires { i < length s.now }
    ensures { result ≡ is_solid_e3 s.now i }
{
    s[i] == 0xe3 && (s.len() - i < 3 || s[i + 1] != 0x80 || s[i + 2] != 0x80)
}

// The place of the next ASCII digit, or the end.
#[tactic(auto, using(content::proofs::Compare::sizes))]
fn next_digit(s: &[u8], at: usize) -> usize
    requires { (at ≤ length s.now) × (Field (drop at s.now)) }
    ensures { Front is_no_digit s.now at result }
{
    let mut i = at;
    while i < s.len() {
        let a = s[i];
        if 0x80 <= a {
            i += lead_size(a);
        } else {
            let c = content::char_in(s, i);
            if is_digit(c.code) {
                return i;
            }
            i += c.size;
        }
    }
    i
}

// The place after the digits and points.
#[tactic(auto, using(content::proofs::Compare::sizes))]
fn number_end(s: &[u8], at: usize) -> usize
    requires { (at ≤ length s.now) × (Field (drop at s.now)) }
    ensures { Front is_digit_or_point s.now at result }
{
    let mut i = at;
    while i < s.len() {
        if 0x80 <= s[i] {
            return i;
        }
        let c = content::char_in(s, i);
        if !is_digit_or_point(c.code) {
            return i;
        }
        i += c.size;
    }
    i
}

// The place after the White_Space.
#[tactic(auto, using(content::proofs::Compare::sizes))]
fn blanks_end(s: &[u8], at: usize) -> usize
    requires { (at ≤ length s.now) × (Field (drop at s.now)) }
    ensures { Front is_white_space s.now at result }
{
    let mut i = at;
    while i < s.len() {
        if is_solid(s[i]) {
            return i;
        }
        let c = content::char_in(s, i);
        if !letters::is_white_space(c.code) {
            return i;
        }
        i += c.size;
    }
    i
}

// The place of the next White_Space, or the end.
#[tactic(auto, using(content::proofs::Compare::sizes))]
fn word_end(s: &[u8], at: usize) -> usize
    requires { (at ≤ length s.now) × (Field (drop at s.now)) }
    ensures { Front is_not_white s.now at result }
{
    let mut i = at;
    while i < s.len() {
        let a = s[i];
        if is_solid(a) {
            i += lead_size(a);
        } else if is_solid_e3(s, i) {
            i += 3;
        } else {
            let c = content::char_in(s, i);
            if letters::is_white_space(c.code) {
                return i;
            }
            i += c.size;
        }
    }
    i
}

// The place of the first Alphabetic character, or the end.
#[tactic(auto, using(content::proofs::Compare::sizes))]
fn letters_start(s: &[u8]) -> usize
    requires { Field s.now }
    ensures { Front is_not_alphabetic s.now 0 result }
{
    let mut i = 0;
    while i < s.len() {
        let c = content::char_in(s, i);
        if letters::is_alphabetic(c.code) {
            return i;
        }
        i += c.size;
    }
    i
}

// How many points a text holds.
fn points(s: &[u8]) -> usize
    ensures { result ≡ points_in (content_in s.now) }
{
    let mut n = 0;
    let mut i = 0;
    while i < s.len() {
        let c = content::char_in(s, i);
        i += c.size;
        if c.code == 46 {
            n += 1;
        }
    }
    n
}

// The place of the number's minus, where one stands right before its first digit, else of that digit.
fn sign_start(s: &[u8], at: usize, digit: usize) -> usize
    requires { (at ≤ digit) × (digit ≤ length s.now) × (Field (part at digit s.now)) }
    ensures { SignAt s.now at digit result }
{
    if digit <= at {
        return digit;
    }
    let m = digit - 1;
    if s[m] == b'-' {
        return m;
    }
    digit
}

// The unit's name in a word: what is not Alphabetic goes from both ends.
fn unit_part(s: &[u8], from: usize, to: usize) -> Span
    requires { (from ≤ to) × (to ≤ length s.now) × (Field (part from to s.now)) }
    ensures { UnitPart s.now from to result }
{
    let a = from + letters_start(&s[from..to]);
    let size = text::end_of(&s[a..to], Dropped::NotAlphabetic);
    Span {
        from: a,
        to: a + size,
    }
}

// A quantity of a text, whose unit is known: where its number starts, with its sign, and ends; where its unit's name starts
// and ends; where the search goes on.
#[derive(Clone, Copy)]
pub struct Inline {
    pub number_from: usize,
    pub number_to: usize,
    pub unit_from: usize,
    pub unit_to: usize,
    pub after: usize,
}

// The first quantity of the text from a place on.
pub fn find_inline_quantity(units: &UnitList, s: &[u8], from: usize) -> Option<Inline>
    requires { (from ≤ length s.now) × (Field (drop from s.now)) }
    ensures { InlineAt (units_or (read_units units.now.lines.now)) s.now from result }
{
    let mut i = from;
    'numbers: loop {
        let digit = next_digit(s, i);
        if digit == s.len() {
            break None;
        }
        let number_from = sign_start(s, i, digit);
        let number_to = number_end(s, digit);
        let word = blanks_end(s, number_to);
        if word == s.len() {
            break None;
        }
        let after = word_end(s, word);
        let span = unit_part(s, word, after);
        let unit_from = span.from;
        let unit_to = span.to;
        if points(&s[digit..number_to]) <= 1 {
            let name = &s[unit_from..unit_to];
            let mut p = unit_index::first_of(units.words, name);
            while p != 0 {
                if unit_index::is_named(units, p, name) {
                    break 'numbers Some(Inline {
                        number_from,
                        number_to,
                        unit_from,
                        unit_to,
                        after,
                    });
                }
                p = unit_index::next_of(units.words, p);
            }
        }
        i = after;
    }
}

// How many items a text is split into, and how many of them are quantities.
#[derive(Clone, Copy)]
pub struct Counts {
    pub items: usize,
    pub quantities: usize,
}

// One item for a text that is not empty.
#[tactic(auto, unfolding(crate::specs::Items::text_items))]
fn text_items(from: usize, to: usize) -> usize
    ensures { result ≡ text_items from to }
{
    usize::from(from < to)
}

pub fn count_items(units: &UnitList, s: &[u8]) -> Counts
    requires { Field s.now }
    ensures { CountsOf (units_or (read_units units.now.lines.now)) s.now result }
{
    let mut items = 0;
    let mut quantities = 0;
    let mut at = 0;
    while let Some(q) = find_inline_quantity(units, s, at) {
        items += text_items(at, q.number_from) + 1;
        quantities += 1;
        at = q.after;
    }
    Counts {
        items: items + text_items(at, s.len()),
        quantities,
    }
}
