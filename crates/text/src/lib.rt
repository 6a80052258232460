// The contents of fields as they stand in a sheet, escaped, or of any bytes: trimming, and names that are folded as they
// are read.
#![tactic(auto)]

mod ends;
mod meets;

ghost use Rattle.std.specs.Prelude.{◌≡◌, true, false, ◌&&◌, ◌+◌, ◌≤◌, ◌<◌, eqb, length, get_or};
ghost use Rattle.rules.specs.Basic.{blank, any};
ghost use Rattle.rules.specs.Text.{retain, trim_end, trim_matches};
ghost use Rattle.rules.specs.Unicode.{is_alphanumeric, same_name};
ghost use Rattle.content.specs.Contents.{content_in, kept_in};
ghost use Rattle.output.specs.Put.{Put};
ghost use Rattle.text.specs.Trims.{drops_of, StartAt, EndAt, TrimmedBy, TrimmedTo, PutTrimmed};
ghost use Rattle.text.specs.Singles.{stay, NextBlank};
ghost use Rattle.text.specs.Paths.{is_back, path_bytes};
ghost use Rattle.text.specs.Names.{start_cursor, step_of, fold_from, rest, told};
ghost use Rattle.text.specs.Meets.{Met};

use ends::Last;
use letters::Folded;
use meets::Meeting;

// Which characters a trimming drops at both ends.
#[derive(Clone, Copy)]
pub enum Dropped {
    White,
    NotAlphabetic,
}

fn is_dropped(d: Dropped, c: u32) -> bool
    ensures { result ≡ drops_of d c }
{
    match d {
        Dropped::White => letters::is_white_space(c),
        Dropped::NotAlphabetic => !letters::is_alphabetic(c),
    }
}

// The place of the first character that stays.
#[tactic(auto, using(content::proofs::Compare::sizes))]
pub fn start_of(s: &[u8], d: Dropped) -> usize
    ensures { StartAt (drops_of d) s.now result }
{
    let mut at = 0;
    while at < s.len() {
        let c = content::char_in(s, at);
        if !is_dropped(d, c.code) {
            return at;
        }
        at += c.size;
    }
    at
}

// The place after the last character that stays, sought from the end; a backslash makes it unclear, and then from the start.
pub fn end_of(s: &[u8], d: Dropped) -> usize
    ensures { EndAt (drops_of d) s.now result }
{
    let mut e = fronts::blanks_end(s);
    while 0 < e {
        match ends::last_of(&s[..e], d) {
            Last::Stays => {
                return e;
            }
            Last::Goes(i) => {
                e = i;
            }
            Last::Unclear => {
                return ends::forward_end(&s[..e], d);
            }
        }
    }
    0
}

fn trimmed_end<'a>(s: &'a [u8], d: Dropped) -> &'a [u8]
    ensures { TrimmedBy (trim_end (drops_of d)) s.now result.now }
{
    let e = end_of(s, d);
    &s[..e]
}

// The field without what is dropped at its ends.
fn trimmed<'a>(s: &'a [u8], d: Dropped) -> &'a [u8]
    ensures { TrimmedBy (trim_matches (drops_of d)) s.now result.now }
{
    let a = start_of(s, d);
    trimmed_end(&s[a..], d)
}

// The field without White_Space at its ends.
pub fn text_outer_trimmed<'a>(s: &'a [u8]) -> &'a [u8]
    ensures { TrimmedTo s.now result.now }
{
    trimmed(s, Dropped::White)
}

// Whether the byte b goes after the byte prev.
fn goes(b: u8, prev: u8) -> bool
    ensures { result ≡ (eqb b blank && eqb prev blank) }
{
    b == 32 && prev == 32
}

// The first blank at or after `at`, or the end.
fn next_blank(w: &[u8], at: usize) -> usize
    requires { at ≤ length w.now }
    ensures { NextBlank w.now at result }
{
    for i in sheet::past_lacking(w, at, b' ')..w.len() {
        if w[i] == b' ' {
            return i;
        }
    }
    w.len()
}

// Whether a blank stands after the place.
fn is_blank_after(w: &[u8], at: usize) -> bool
    requires { at < length w.now }
    ensures { result ≡ eqb (get_or w.now (at + 1) 0) blank }
{
    let i = at + 1;
    i < w.len() && w[i] == b' '
}

// Whether no two blanks follow one another.
fn is_single(w: &[u8]) -> bool
    ensures { result ≡ stay w.now 0 (length w.now) }
{
    let mut i = 0;
    while i < w.len() {
        let j = next_blank(w, i);
        if j == w.len() {
            return true;
        }
        if is_blank_after(w, j) {
            return false;
        }
        i = j + 1;
    }
    true
}

// The bytes w, and of blanks that follow one another only the first: what spells the content of a field with its blanks
// collapsed.
pub fn put_kept(out: &mut [u8], at: usize, w: &[u8]) -> usize
    ensures { Put (retain 0 w.now) out.old at out.new result }
{
    if is_single(w) {
        return output::put_bytes(out, at, w);
    }
    let mut n = at;
    let mut i = 0;
    let mut prev = 0;
    while i < w.len() {
        let b = w[i];
        let gone = goes(b, prev);
        prev = b;
        i += 1;
        if !gone {
            n = output::put_byte(out, n, b);
        }
    }
    if n <= out.len() { n } else { out.len() + 1 }
}

// Whether an escaped backslash stands at a place.
fn is_back(w: &[u8], at: usize) -> bool
    ensures { result ≡ is_back w.now at }
{
    if w.len() <= at || w[at] != b'\\' {
        return false;
    }
    at + 1 < w.len() && w[at + 1] == b'\\'
}

// A path before a name, as a page has it: with slashes for backslashes, and with single blanks.
pub fn put_path(out: &mut [u8], at: usize, w: &[u8]) -> usize
    ensures { Put (path_bytes 0 w.now) out.old at out.new result }
{
    let mut n = at;
    let mut i = 0;
    let mut prev = 0;
    while i < w.len() {
        if is_back(w, i) {
            n = output::put_byte(out, n, b'/');
            prev = b'/';
            i += 2;
        } else {
            let b = w[i];
            let gone = goes(b, prev);
            prev = b;
            i += 1;
            if !gone {
                n = output::put_byte(out, n, b);
            }
        }
    }
    if n <= out.len() { n } else { out.len() + 1 }
}

// The field trimmed at its ends and with single blanks.
pub fn put_text_trimmed(out: &mut [u8], at: usize, s: &[u8]) -> usize
    ensures { PutTrimmed s.now out.old at out.new result }
{
    let w = text_outer_trimmed(s);
    put_kept(out, at, w)
}

// Whether a field has a letter or a number.
pub fn has_alphanumeric(s: &[u8]) -> bool
    ensures { result ≡ any is_alphanumeric (content_in s.now) }
{
    let mut at = 0;
    while at < s.len() {
        let c = content::char_in(s, at);
        if letters::is_alphanumeric(c.code) {
            return true;
        }
        at += c.size;
    }
    false
}

// Folded code points that were not given yet.
#[derive(Clone, Copy)]
pub enum Pending {
    Nothing,
    One(u32),
    Two(u32, u32),
}

// A place in a field that is folded as it is read, its blanks collapsed.
#[derive(Clone, Copy)]
pub struct Cursor {
    pub at: usize,
    pub pending: Pending,
}

pub fn start() -> Cursor
    ensures { result ≡ start_cursor }
{
    Cursor {
        at: 0,
        pending: Pending::Nothing,
    }
}

// The first of a folding's code points, with the others pending, before the text from at on.
#[tactic(auto, using(crate::proofs::Names::emit_cases))]
fn emit(f: Folded, at: usize) -> Option<(u32, Cursor)>
    ensures { result ≡ step_of f at }
{
    match f {
        Folded::One(a) => Some((
            a,
            Cursor {
                at,
                pending: Pending::Nothing,
            },
        )),
        Folded::Two(a, b) => Some((
            a,
            Cursor {
                at,
                pending: Pending::One(b),
            },
        )),
        Folded::Three(a, b, c) => Some((
            a,
            Cursor {
                at,
                pending: Pending::Two(b, c),
            },
        )),
    }
}

// The first folded code point of the text from at on.
fn fresh(s: &[u8], at: usize) -> Option<(u32, Cursor)>
    ensures { told s.now result ≡ fold_from s.now at }
{
    if s.len() <= at {
        return None;
    }
    let c = content::kept_char(s, at);
    emit(letters::fold(c.code), at + c.size)
}

// The next folded code point.
#[tactic(auto, using(crate::proofs::Names::next_cases))]
pub fn next_folded(s: &[u8], c: Cursor) -> Option<(u32, Cursor)>
    ensures { told s.now result ≡ rest s.now c }
{
    let at = c.at;
    let p = c.pending;
    match p {
        Pending::Nothing => fresh(s, at),
        Pending::One(x) => Some((
            x,
            Cursor {
                at,
                pending: Pending::Nothing,
            },
        )),
        Pending::Two(x, y) => Some((
            x,
            Cursor {
                at,
                pending: Pending::One(y),
            },
        )),
    }
}

// Whether two fields have the same folding, their blanks collapsed: both folded as they are read.
#[tactic(auto, using(crate::proofs::Names::rest_cases))]
fn same_rest(a: &[u8], b: &[u8]) -> bool
    ensures { result ≡ same_name (kept_in a.now) (kept_in b.now) }
{
    let mut i = start();
    let mut j = start();
    loop {
        let p = next_folded(a, i);
        let q = next_folded(b, j);
        match p {
            None => {
                match q {
                    None => {
                        return true;
                    }
                    Some((_, _)) => {
                        return false;
                    }
                }
            }
            Some((x, k)) => {
                match q {
                    None => {
                        return false;
                    }
                    Some((y, l)) => {
                        if x != y {
                            return false;
                        }
                        i = k;
                        j = l;
                    }
                }
            }
        }
    }
}

// What the characters at a place of each of two names tell of the names from there on.
fn meet(a: &[u8], i: usize, b: &[u8], j: usize) -> Meeting
    ensures { Met a.now i b.now j result }
{
    if fronts::is_parted(a, i, b, j) {
        return Meeting::Answer(false);
    }
    if a.len() <= i {
        return Meeting::Answer(b.len() <= j);
    }
    if b.len() <= j {
        return Meeting::Answer(false);
    }
    // a run of backslashes has no seam: there the names are folded to their ends
    if a[i] == b'\\' {
        return Meeting::Unclear;
    }
    let x = content::kept_char(a, i);
    let y = content::kept_char(b, j);
    let f = letters::fold(x.code);
    let g = letters::fold(y.code);
    let p = meets::paired(f, g);
    meets::meet_on(a, i + x.size, b, j + y.size, p)
}

// The same for names whose first and last bytes do not tell. No table is asked where their bytes are the same or the same
// letters of ASCII.
fn same_whole(a: &[u8], b: &[u8]) -> bool
    ensures { result ≡ same_name (kept_in a.now) (kept_in b.now) }
{
    let mut i = 0;
    let mut j = 0;
    loop {
        let n = fronts::level(&a[i..], &b[j..]);
        i += n;
        j += n;
        let m = meet(a, i, b, j);
        match m {
            Meeting::Answer(r) => {
                return r;
            }
            Meeting::On(k, l) => {
                let w = meets::wide_pairs(&a[k..], &b[l..]);
                i = k + w;
                j = l + w;
            }
            Meeting::Unclear => {
                break;
            }
        }
    }
    same_rest(&a[i..], &b[j..])
}

// Whether two fields have the same folding, their blanks collapsed.
pub fn same_name(a: &[u8], b: &[u8]) -> bool
    ensures { result ≡ same_name (kept_in a.now) (kept_in b.now) }
{
    if fronts::is_parted(a, 0, b, 0) {
        return false;
    }
    // a name of one byte has no other last one; called in two places, the comparison stays out of the loop over names
    if a.len() < 2 {
        return same_whole(a, b);
    }
    !fronts::is_parted_last(a, b) && same_whole(a, b)
}
