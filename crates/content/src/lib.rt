// The content of a field as it stands in a sheet: escaped bytes, read character by character. All functions take any bytes.
#![tactic(auto)]

ghost use Rattle.std.specs.Prelude.{◌≡◌, ◌≤◌, ◌<◌, length, get_or, drop};
ghost use Rattle.rules.specs.Basic.{eq_list};
ghost use Rattle.rules.specs.Utf8.{chars};
ghost use Rattle.content.specs.Contents.{kept_in};
ghost use Rattle.content.specs.Readings.{char_in, plain_byte, same_plain};
ghost use Rattle.content.specs.Kept.{Skipped, KeptStep};
ghost use Rattle.rules.specs.Model.{is_path};
ghost use Rattle.content.specs.Contents.{content_in};
ghost use Rattle.content.specs.Names.{is_separator, separator_first, Separated, NameAt};

use utf8::Char;

// The character that the backslash at a place starts.
fn escape_at(f: &[u8], at: usize) -> Char
    requires { (at < length f.now) × (get_or f.now at 0 ≡ 92) }
    ensures { result ≡ char_in (drop at f.now) }
{
    let j = at + 1;
    if f.len() <= j {
        return Char { code: 92, size: 1 };
    }
    let Some(e) = sheet::letter(f[j]) else {
        return Char { code: 92, size: 1 };
    };
    Char {
        code: e as u32,
        size: 2,
    }
}

// The character at a place of a field, and how many bytes of the field it takes.
pub fn char_in(f: &[u8], at: usize) -> Char
    requires { at < length f.now }
    ensures { result ≡ char_in (drop at f.now) }
{
    let a = f[at];
    if a < 0x80 {
        if a != b'\\' {
            return Char {
                code: a as u32,
                size: 1,
            };
        }
        return escape_at(f, at);
    }
    utf8::char_at(f, at)
}

// The place after the blanks from a place on.
fn skip_blanks(f: &[u8], at: usize) -> usize
    requires { at ≤ length f.now }
    ensures { Skipped f.now at result }
{
    for i in at..f.len() {
        if f[i] != b' ' {
            return i;
        }
    }
    f.len()
}

// The character at a place, which takes the blanks with it that go after it.
fn any_kept(f: &[u8], at: usize) -> Char
    requires { at < length f.now }
    ensures { KeptStep f.now at result }
{
    let c = char_in(f, at);
    if c.code != 32 {
        return c;
    }
    let r = skip_blanks(f, at + c.size);
    Char {
        code: 32,
        size: r - at,
    }
}

// The same; most characters are ASCII, no blank and no backslash.
pub fn kept_char(f: &[u8], at: usize) -> Char
    requires { at < length f.now }
    ensures { KeptStep f.now at result }
{
    let a = f[at];
    if 0x80 <= a {
        return utf8::char_at(f, at);
    }
    if a == b'\\' || a == b' ' {
        return any_kept(f, at);
    }
    Char {
        code: a as u32,
        size: 1,
    }
}

// Whether a byte is a character by itself, and kept: ASCII, no backslash and no blank.
pub fn is_plain(b: u8) -> bool
    ensures { result ≡ plain_byte b }
{
    (b < 0x80) & (b != b'\\') & (b != b' ')
}

fn same_plain(a: u8, b: u8) -> bool
    ensures { result ≡ same_plain a b }
{
    (a == b) & is_plain(a)
}

// Whether the content of a field, its blanks collapsed, is a text in UTF-8.
#[tactic(auto, using(crate::proofs::Compare::sizes))]
pub fn same_content(f: &[u8], w: &[u8]) -> bool
    ensures { result ≡ eq_list (kept_in f.now) (chars w.now) }
{
    let mut i = 0;
    let mut j = 0;
    while i < f.len() {
        if w.len() <= j {
            return false;
        }
        if same_plain(f[i], w[j]) {
            i += 1;
            j += 1;
        } else {
            let a = kept_char(f, i);
            let b = utf8::char_at(w, j);
            if a.code != b.code {
                return false;
            }
            i += a.size;
            j += b.size;
        }
    }
    w.len() <= j
}

// Whether the content of a field, with all its blanks, is a text in UTF-8.
#[tactic(auto, using(crate::proofs::Compare::sizes))]
pub fn same_chars(f: &[u8], w: &[u8]) -> bool
    ensures { result ≡ eq_list (content_in f.now) (chars w.now) }
{
    let mut i = 0;
    let mut j = 0;
    while i < f.len() {
        if w.len() <= j {
            return false;
        }
        if same_plain(f[i], w[j]) {
            i += 1;
            j += 1;
        } else {
            let a = char_in(f, i);
            let b = utf8::char_at(w, j);
            if a.code != b.code {
                return false;
            }
            i += a.size;
            j += b.size;
        }
    }
    w.len() <= j
}

// Whether the contents of two fields, their blanks collapsed, are the same.
pub fn same_parts(f: &[u8], g: &[u8]) -> bool
    ensures { result ≡ eq_list (kept_in f.now) (kept_in g.now) }
{
    if sheet::same_bytes(f, g) {
        return true;
    }
    let mut i = 0;
    let mut j = 0;
    while i < f.len() {
        if g.len() <= j {
            return false;
        }
        let a = kept_char(f, i);
        let b = kept_char(g, j);
        if a.code != b.code {
            return false;
        }
        i += a.size;
        j += b.size;
    }
    g.len() <= j
}

fn is_separator(c: u32) -> bool
    ensures { result ≡ is_separator c }
{
    c == 92 || c == 47
}

fn separator_at(f: &[u8], at: usize) -> bool
    ensures { result ≡ separator_first (content_in (drop at f.now)) }
{
    at < f.len() && is_separator(char_in(f, at).code)
}

// Whether a name starts as a path does: with one or two points and a separator.
fn is_path(f: &[u8]) -> bool
    ensures { result ≡ is_path (content_in f.now) }
{
    if f.is_empty() {
        return false;
    }
    let a = char_in(f, 0);
    if a.code != 46 {
        return false;
    }
    let i = a.size;
    if separator_at(f, i) {
        return true;
    }
    if f.len() <= i {
        return false;
    }
    let b = char_in(f, i);
    b.code == 46 && separator_at(f, i + b.size)
}

// Where the path before a name ends, and where the name starts; without a path both are 0.
#[derive(Clone, Copy)]
pub struct NamePlace {
    pub end: usize,
    pub start: usize,
}

// The last separator: where it starts and where it ends.
fn last_separator(f: &[u8]) -> NamePlace
    ensures { Separated f.now result }
{
    let mut at = 0;
    let mut end = 0;
    let mut start = 0;
    while at < f.len() {
        let c = char_in(f, at);
        let next = at + c.size;
        if is_separator(c.code) {
            end = at;
            start = next;
        }
        at = next;
    }
    NamePlace { end, start }
}

pub fn name_place(f: &[u8]) -> NamePlace
    ensures { NameAt f.now result }
{
    if !is_path(f) {
        return NamePlace { end: 0, start: 0 };
    }
    let p = last_separator(f);
    let start = p.start;
    if f.len() <= start {
        return NamePlace { end: 0, start: 0 };
    }
    p
}
