#![tactic(auto)]

ghost use Rattle.std.specs.Prelude.{◌≡◌, true, [], ◌∷◌, ◌+◌, ◌≤◌, ◌<◌, length, drop, get_or};
ghost use Rattle.rules.specs.Utf8.{second, later, sized, first_fault, is_inside, is_utf8};
ghost use Rattle.utf8.specs.Decoding.{decoded_as, decoded_of, decoded_size};
ghost use Rattle.utf8.specs.Reading.{char_of};
ghost use Rattle.utf8.specs.Checking.{ascii_for, AsciiTo};

// A code point, U+FFFD for a byte where no character starts, and how many bytes it takes.
#[derive(Clone, Copy)]
pub struct Char {
    pub code: u32,
    pub size: usize,
}

// Bytes that are UTF-8.
#[derive(Clone, Copy)]
pub struct Utf8<'a> {
    pub bytes: &'a [u8],
    ghost utf8: { is_utf8 bytes.now ≡ true },
}

// The byte at a place; past the end 0.
fn byte(s: &[u8], at: usize) -> u8
    ensures { result ≡ get_or s.now at 0 }
{
    if at < s.len() {
        return s[at];
    }
    0
}

#[tactic(auto, using(crate::proofs::Bytes::second_cases))]
fn is_second(a: u8, b: u8) -> bool
    ensures { result ≡ second a b }
{
    if (b < 0x80) | (0xbf < b) {
        return false;
    }
    if a == 0xe0 {
        return 0xa0 <= b;
    }
    if a == 0xed {
        return b <= 0x9f;
    }
    if a == 0xf0 {
        return 0x90 <= b;
    }
    if a == 0xf4 {
        return b <= 0x8f;
    }
    true
}

fn is_later(b: u8) -> bool
    ensures { result ≡ later b }
{
    0x80 <= b && b <= 0xbf
}

// The character of the bytes a and b, if they are one; and of three, and of four.
fn two(a: u8, b: u8) -> Option<Char>
    ensures { result ≡ decoded_as 2 (sized 2 a (b ∷ [])) }
{
    if !is_second(a, b) {
        return None;
    }
    Some(Char {
        code: (a as u32) % 32 * 64 + (b as u32) % 64,
        size: 2,
    })
}

#[tactic(auto, using(crate::proofs::Bytes::three_cases))]
fn three(a: u8, b: u8, c: u8) -> Option<Char>
    ensures { result ≡ decoded_as 3 (sized 3 a (b ∷ c ∷ [])) }
{
    if !is_second(a, b) {
        return None;
    }
    if !is_later(c) {
        return None;
    }
    Some(Char {
        code: (a as u32) % 16 * 4096 + (b as u32) % 64 * 64 + (c as u32) % 64,
        size: 3,
    })
}

#[tactic(auto, using(crate::proofs::Bytes::four_cases))]
fn four(a: u8, b: u8, c: u8, d: u8) -> Option<Char>
    ensures { result ≡ decoded_as 4 (sized 4 a (b ∷ c ∷ d ∷ [])) }
{
    if !is_second(a, b) {
        return None;
    }
    if !is_later(c) {
        return None;
    }
    if !is_later(d) {
        return None;
    }
    Some(Char {
        code: (a as u32) % 8 * 262144
            + (b as u32) % 64 * 4096
            + (c as u32) % 64 * 64
            + (d as u32) % 64,
        size: 4,
    })
}

// The character that s starts with.
#[tactic(auto, using(crate::proofs::Firsts::first_cases))]
fn first(s: &[u8]) -> Option<Char>
    ensures { result ≡ decoded_of s.now }
{
    if s.len() < 1 {
        return None;
    }
    let a = s[0];
    if a < 0x80 {
        return Some(Char {
            code: a as u32,
            size: 1,
        });
    }
    if a < 0xc2 {
        return None;
    }
    let b = byte(s, 1);
    if a < 0xe0 {
        return two(a, b);
    }
    let c = byte(s, 2);
    if a < 0xf0 {
        return three(a, b, c);
    }
    if a < 0xf5 {
        let d = byte(s, 3);
        return four(a, b, c, d);
    }
    None
}

// The character that starts at a place.
fn decode(s: &[u8], at: usize) -> Option<Char>
    requires { at ≤ length s.now }
    ensures { result ≡ decoded_of (drop at s.now) }
{
    first(&s[at..])
}

// The same at a byte that is not ASCII: most characters there have two or three bytes.
#[tactic(auto, using(crate::proofs::Firsts::wide_cases))]
fn wide_at(s: &[u8], at: usize) -> Option<Char>
    requires { (at < length s.now) × (128 ≤ get_or s.now at 0) }
    ensures { result ≡ decoded_of (drop at s.now) }
{
    let a = s[at];
    if a < 0xc2 {
        return None;
    }
    let j = at + 1;
    if a < 0xe0 {
        if s.len() <= j {
            return None;
        }
        let b = s[j];
        if !is_later(b) {
            return None;
        }
        return Some(Char {
            code: (a as u32) % 32 * 64 + (b as u32) % 64,
            size: 2,
        });
    }
    let k = at + 2;
    if a < 0xf0 {
        if s.len() <= k {
            return None;
        }
        return three(a, s[j], s[k]);
    }
    decode(s, at)
}

// How many bytes the character takes that starts at a byte that is not ASCII; 0 where none does.
#[tactic(auto, using(crate::proofs::Sizes::size_cases))]
fn wide_size(s: &[u8], at: usize) -> usize
    requires { (at < length s.now) × (128 ≤ get_or s.now at 0) }
    ensures { result ≡ decoded_size (decoded_of (drop at s.now)) }
{
    let a = s[at];
    if a < 0xc2 {
        return 0;
    }
    let b = byte(s, at + 1);
    if a < 0xe0 {
        if !is_later(b) {
            return 0;
        }
        return 2;
    }
    if a < 0xf0 {
        let c = byte(s, at + 2);
        if !is_second(a, b) {
            return 0;
        }
        if !is_later(c) {
            return 0;
        }
        return 3;
    }
    match decode(s, at) {
        None => 0,
        Some(ch) => ch.size,
    }
}

// The code point at a place.
pub fn char_at(s: &[u8], at: usize) -> Char
    requires { at < length s.now }
    ensures { result ≡ char_of (drop at s.now) }
{
    let a = s[at];
    if a < 0x80 {
        return Char {
            code: a as u32,
            size: 1,
        };
    }
    wide_at(s, at).unwrap_or(Char {
        code: 0xfffd,
        size: 1,
    })
}

// The same, with characters of three bytes read in place, for where one follows another.
pub fn char_near(s: &[u8], at: usize) -> Char
    requires { at < length s.now }
    ensures { result ≡ char_of (drop at s.now) }
{
    let a = s[at];
    if 0xe0 <= a {
        if a < 0xf0 {
            let k = at + 2;
            if k < s.len() {
                if let Some(ch) = three(a, s[at + 1], s[k]) {
                    return ch;
                }
            }
        }
    }
    char_at(s, at)
}

// Whether the sixteen bytes at a place are ASCII. All of them are looked at, which the compiler makes one comparison.
fn are_ascii(s: &[u8], at: usize) -> bool
    requires { at + 16 ≤ length s.now }
    ensures { result ≡ ascii_for s.now at 16 }
{
    let mut all = true;
    let mut j = 0;
    while j < 16 {
        if 0x80 <= s[at + j] {
            all = false;
        }
        j += 1;
    }
    all
}

// A place that only ASCII stands before, from `at` on, by sixteen bytes a turn.
fn past_ascii(s: &[u8], at: usize) -> usize
    requires { at ≤ length s.now }
    ensures { AsciiTo s.now at result }
{
    let mut i = at;
    while 16 <= s.len() - i {
        if !are_ascii(s, i) {
            return i;
        }
        i += 16;
    }
    i
}

// The same after a character beyond ASCII, where one more of them is likely: then one byte is looked at.
fn past_wide(s: &[u8], at: usize) -> usize
    requires { at ≤ length s.now }
    ensures { AsciiTo s.now at result }
{
    if at < s.len() && s[at] < 0x80 {
        return past_ascii(s, at);
    }
    at
}

pub fn first_fault(s: &[u8]) -> Option<usize>
    ensures { result ≡ first_fault s.now }
{
    let mut at = past_ascii(s, 0);
    while at < s.len() {
        let a = s[at];
        if a < 0x80 {
            let b = at + 1;
            let c = b + 1;
            // three bytes a turn
            if c < s.len() {
                if s[b] < 0x80 {
                    if s[c] < 0x80 {
                        at = c + 1;
                    } else {
                        at = c;
                    }
                } else {
                    at = b;
                }
            } else {
                at = b;
            }
        } else {
            let n = wide_size(s, at);
            if n == 0 {
                return Some(at);
            }
            let next = at + n;
            at = past_wide(s, next);
        }
    }
    None
}

// Whether a place is inside a character.
pub fn is_inside(s: &[u8], at: usize) -> bool
    ensures { result ≡ is_inside s.now at }
{
    is_later(byte(s, at))
}
