// The parts of a line as views: numbers, and where the contents stand in the line. All readers take any bytes and any position;
// `None` says that the part is ill-formed.
#![tactic(auto)]

ghost use Rattle.std.specs.Prelude.{◌≡◌, ◌+◌, ◌<◌, ◌≤◌, [], ◌∷◌, length};
ghost use Rattle.rules.specs.Basic.{is_empty, eq_list, word_in};
ghost use Rattle.rules.specs.Words.{value_kinds, locks};
ghost use Rattle.rules.specs.Read.{word};
ghost use Rattle.sheet.specs.Lines.{field_at};
ghost use Rattle.sheet.specs.Runs.{is_stop, Lacking};
ghost use Rattle.sheet.specs.Words.{kind_in};
ghost use Rattle.parts.specs.Views.{part_of};
ghost use Rattle.parts.specs.Near.{figure_of, end_of, NearRead};
ghost use Rattle.parts.specs.Generic.{WordReadBy, OptReadBy};
ghost use Rattle.parts.specs.Got.{DashAt, NumberRead, SpanRead, ContentRead, TextRead, OptTextRead, BareRead, itself, QuantityRead, OptQuantityRead};

use sheet::ValueKind;

#[derive(Clone, Copy)]
pub struct Span {
    pub start: u32,
    pub end: u32,
}

// A part of a line, still escaped.
#[derive(Clone, Copy)]
pub struct Part {
    pub from: usize,
    pub to: usize,
}

#[derive(Clone, Copy)]
pub struct TextView {
    pub span: Span,
    pub content: Part,
}

#[derive(Clone, Copy)]
pub struct QuantityView {
    pub span: Span,
    pub kind: ValueKind,
    pub value_span: Span,
    pub value: Part,
    pub lock: bool,
    pub unit: Option<TextView>,
}

// The bytes of a part; of one that a reader made, the line from `from` to `to`.
pub fn part_of<'a>(line: &'a [u8], p: Part) -> &'a [u8]
    ensures { result.now ≡ part_of line.now p }
{
    let from = p.from;
    let to = p.to;
    if line.len() < from || to < from {
        return &line[..0];
    }
    if line.len() < to {
        return &line[from..];
    }
    &line[from..to]
}

// Whether the field that a byte before `at` belongs to ends at `at`.
fn ends_at(line: &[u8], at: usize) -> bool
    ensures { result ≡ is_empty (field_at line.now at) }
{
    line.len() <= at || line[at] == b'\t'
}

// Whether the field at `at` is the byte c alone.
fn is_alone(line: &[u8], at: usize, c: u8) -> bool
    requires { 9 < c }
    ensures { result ≡ eq_list (field_at line.now at) (c ∷ []) }
{
    if line.len() <= at {
        return false;
    }
    line[at] == c && ends_at(line, at + 1)
}

// Whether an opt part is there.
#[derive(Clone, Copy)]
pub enum Dash {
    // `-`; the next field starts at the position.
    Absent(usize),
    Present,
    Ill,
}

pub fn opt_dash(line: &[u8], at: usize) -> Dash
    ensures { DashAt line.now at result }
{
    if line.len() < at {
        return Dash::Ill;
    }
    if is_alone(line, at, b'-') {
        return Dash::Absent(at + 2);
    }
    Dash::Present
}

pub fn read_number(line: &[u8], at: usize) -> Option<(u32, usize)>
    ensures { NumberRead line.now at result }
{
    if line.len() <= at {
        return None;
    }
    let first = line[at];
    if first == b'0' {
        if ends_at(line, at + 1) {
            return Some((0, at + 2));
        }
        return None;
    }
    if first < b'0' || b'9' < first {
        return None;
    }
    let mut n = (first - b'0') as u32;
    for i in at + 1..line.len() {
        let c = line[i];
        if c == b'\t' {
            return Some((n, i + 1));
        }
        if c < b'0' || b'9' < c {
            return None;
        }
        n = n * 10 + ((c - b'0') as u32);
        if 65535 < n {
            return None;
        }
    }
    Some((n, line.len() + 1))
}

// The value of a digit; of any other byte a number above 9, and of a tab 4294967257.
fn figure(c: u8) -> u32
    ensures { result ≡ figure_of c }
{
    std::num::wrapping_sub_u32(c as u32, 48)
}

// The number n where its digits end, before a byte with the figure y; the next field would start at `next`.
fn number_end(y: u32, n: u32, next: usize) -> Option<(u32, usize)>
    ensures { result ≡ end_of y n next }
{
    if y == 4294967257 {
        return Some((n, next));
    }
    None
}

// A number at which six bytes are left.
fn near_number(line: &[u8], at: usize) -> Option<(u32, usize)>
    requires { at + 5 < length line.now }
    ensures { NearRead line.now at result }
{
    let n = figure(line[at]);
    let i = at + 1;
    let b = figure(line[i]);
    if n == 0 {
        return number_end(b, 0, i + 1);
    }
    if 9 < n {
        return None;
    }
    if 9 < b {
        return number_end(b, n, i + 1);
    }
    let m = n * 10 + b;
    let j = i + 1;
    let c = figure(line[j]);
    if 9 < c {
        return number_end(c, m, j + 1);
    }
    let o = m * 10 + c;
    let k = j + 1;
    let d = figure(line[k]);
    if 9 < d {
        return number_end(d, o, k + 1);
    }
    let p = o * 10 + d;
    let l = k + 1;
    let e = figure(line[l]);
    if 9 < e {
        return number_end(e, p, l + 1);
    }
    let q = p * 10 + e;
    if 65535 < q {
        return None;
    }
    let x = l + 1;
    let y = figure(line[x]);
    number_end(y, q, x + 1)
}

#[tactic(auto, using(crate::proofs::Sequence::goes_on), unfolding(rules::specs::Read::read_span, rules::specs::Read::go_on, crate::specs::Got::got_as, crate::specs::Got::IfGot, crate::specs::Got::IfWhole))]
pub fn read_span(line: &[u8], at: usize) -> Option<(Span, usize)>
    ensures { SpanRead line.now at result }
{
    if at < line.len() {
        if 11 < line.len() - at {
            let (start, a1) = near_number(line, at)?;
            let (end, a2) = near_number(line, a1)?;
            return Some((Span { start, end }, a2));
        }
    }
    let (start, a1) = read_number(line, at)?;
    let (end, a2) = read_number(line, a1)?;
    Some((Span { start, end }, a2))
}

// A place that no tab, backslash or CR stands before, from `at` on, by sixteen bytes a turn.
fn past_sixteens(line: &[u8], at: usize) -> usize
    requires { at ≤ length line.now }
    ensures { Lacking is_stop line.now at result }
{
    if line.len() < 16 {
        return at;
    }
    let last = line.len() - 16;
    let mut i = at;
    while i <= last {
        if !sheet::sixteen_plain(line, i) {
            return i;
        }
        i += 16;
    }
    i
}

// A place that no tab, backslash or CR stands before, from `at` on, by sixteen bytes a turn and then by eight.
fn past_plain(line: &[u8], at: usize) -> usize
    requires { at ≤ length line.now }
    ensures { Lacking is_stop line.now at result }
{
    let mut i = past_sixteens(line, at);
    while 8 <= line.len() - i {
        if !sheet::eight_plain(line, i) {
            return i;
        }
        i += 8;
    }
    i
}

fn read_content(line: &[u8], at: usize) -> Option<(Part, usize)>
    ensures { ContentRead line.now at result }
{
    if line.len() < at {
        return None;
    }
    let mut i = past_plain(line, at);
    while i < line.len() {
        let c = line[i];
        if c == b'\\' {
            let j = i + 1;
            if line.len() <= j {
                return None;
            }
            sheet::letter(line[j])?;
            i = j + 1;
        } else if b'\r' < c {
            // most bytes
            i += 1;
        } else {
            if c == b'\t' {
                return Some((Part { from: at, to: i }, i + 1));
            }
            if c == b'\r' {
                return None;
            }
            i += 1;
        }
    }
    Some((Part { from: at, to: i }, i + 1))
}

#[tactic(auto, using(crate::proofs::Sequence::goes_on), unfolding(rules::specs::Read::read_text, rules::specs::Read::go_on, crate::specs::Got::got_as, crate::specs::Got::IfGot, crate::specs::Got::IfWhole))]
pub fn read_text(line: &[u8], at: usize) -> Option<(TextView, usize)>
    ensures { TextRead line.now at result }
{
    let (span, a1) = read_span(line, at)?;
    let (content, a2) = read_content(line, a1)?;
    Some((TextView { span, content }, a2))
}

// An opt part: `-`, or what the part's reader finds there.
pub fn read_opt<T, F: FnOnce(&[u8], usize) -> Option<(T, usize)>>(
    line: &[u8],
    at: usize,
    read: F,
) -> Option<(Option<T>, usize)>
    requires { F.IsAlwaysCallable read }
    ensures { OptReadBy F.FnOnce read line.now at result }
{
    match opt_dash(line, at) {
        Dash::Absent(n) => Some((None, n)),
        Dash::Ill => None,
        Dash::Present => {
            let (v, m) = read(line, at)?;
            Some((Some(v), m))
        }
    }
}

pub fn read_opt_text(line: &[u8], at: usize) -> Option<(Option<TextView>, usize)>
    ensures { OptTextRead line.now at result }
{
    read_opt(line, at, read_text)
}

// A field that is one word: what the word's reader makes of it.
pub fn read_word<T, F: FnOnce(&[u8]) -> Option<T>>(
    line: &[u8],
    at: usize,
    word: F,
) -> Option<(T, usize)>
    requires { F.IsAlwaysCallable word }
    ensures { WordReadBy F.FnOnce word line.now at result }
{
    if line.len() < at {
        return None;
    }
    let f = sheet::field(line, at);
    let n = at + f.len() + 1;
    let x = word(f)?;
    Some((x, n))
}

fn read_kind(line: &[u8], at: usize) -> Option<(ValueKind, usize)>
    ensures { BareRead kind_in (word value_kinds) line.now at result }
{
    read_word(line, at, sheet::value_kind)
}

// The lock of a quantity: `l` or `-`.
#[tactic(auto, unfolding(rules::specs::Basic::word_in))]
fn lock_of(f: &[u8]) -> Option<bool>
    ensures { result ≡ word_in f.now locks }
{
    if sheet::same_bytes(f, b"l") {
        return Some(true);
    }
    if sheet::same_bytes(f, b"-") {
        return Some(false);
    }
    None
}

fn read_lock(line: &[u8], at: usize) -> Option<(bool, usize)>
    ensures { BareRead itself (word locks) line.now at result }
{
    read_word(line, at, lock_of)
}

#[tactic(auto, using(crate::proofs::Sequence::goes_on), unfolding(rules::specs::Read::read_quantity, rules::specs::Read::go_on, crate::specs::Got::got_as, crate::specs::Got::IfGot, crate::specs::Got::IfWhole))]
fn read_quantity(line: &[u8], at: usize) -> Option<(QuantityView, usize)>
    ensures { QuantityRead line.now at result }
{
    let (span, a1) = read_span(line, at)?;
    let (kind, a2) = read_kind(line, a1)?;
    let (value_span, a3) = read_span(line, a2)?;
    let (value, a4) = read_content(line, a3)?;
    let (lock, a5) = read_lock(line, a4)?;
    let (unit, a6) = read_opt_text(line, a5)?;
    Some((
        QuantityView {
            span,
            kind,
            value_span,
            value,
            lock,
            unit,
        },
        a6,
    ))
}

pub fn read_opt_quantity(line: &[u8], at: usize) -> Option<(Option<QuantityView>, usize)>
    ensures { OptQuantityRead line.now at result }
{
    read_opt(line, at, read_quantity)
}
