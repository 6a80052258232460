// What characters that are not the same bytes, one of each of two names, tell of the names by their foldings.
ghost use Rattle.std.specs.Prelude.{◌≡◌, true, ◌≤◌, length};
ghost use Rattle.fronts.specs.Seams.{Seam};
ghost use Rattle.text.specs.Meets.{pair_of, Following, Settled, LetterS, StartsSs};

use letters::Folded;

// The answer, or where to go on.
#[derive(Clone, Copy)]
pub(crate) enum Meeting {
    Answer(bool),
    On(usize, usize),
    Unclear,
}

// By the two alone: they are not the same; or both are passed; or one more code point is to follow in the first name, or in the
// second; or several are.
#[derive(Clone, Copy)]
pub(crate) enum Pair {
    Apart,
    Level,
    FirstShort(u32),
    SecondShort(u32),
    Several,
}

#[tactic(auto, using(crate::proofs::Pairs::pair_cases))]
pub(crate) fn paired(f: Folded, g: Folded) -> Pair
    ensures { result ≡ pair_of f g }
{
    match f {
        Folded::One(x) => match g {
            Folded::One(y) => if x == y { Pair::Level } else { Pair::Apart },
            Folded::Two(y, z) => if x == y {
                Pair::FirstShort(z)
            } else {
                Pair::Apart
            },
            Folded::Three(_, _, _) => Pair::Several,
        },
        Folded::Two(x, z) => match g {
            Folded::One(y) => if x == y {
                Pair::SecondShort(z)
            } else {
                Pair::Apart
            },
            Folded::Two(_, _) => Pair::Several,
            Folded::Three(_, _, _) => Pair::Several,
        },
        Folded::Three(_, _, _) => Pair::Several,
    }
}

// Whether a code point follows in a name: another one does, or it, up to a place; or a character that folds to several.
#[derive(Clone, Copy)]
enum Next {
    Other,
    Past(usize),
    Many,
}

// Whether the character at a place folds to z alone.
fn following(s: &[u8], at: usize, z: u32) -> Next
    ensures { Following s.now at z result }
{
    if s.len() <= at {
        return Next::Other;
    }
    let c = content::kept_char(s, at);
    match letters::fold(c.code) {
        Folded::One(x) => if x == z {
            Next::Past(at + c.size)
        } else {
            Next::Other
        },
        Folded::Two(_, _) => Next::Many,
        Folded::Three(_, _, _) => Next::Many,
    }
}

// By the two, and one more character where one is to follow.
#[tactic(auto, using(crate::proofs::Pairs::settled_cases))]
pub(crate) fn meet_on(a: &[u8], i: usize, b: &[u8], j: usize, p: Pair) -> Meeting
    requires { (i ≤ length a.now) × (j ≤ length b.now) }
    ensures { Settled a.now i b.now j p result }
{
    match p {
        Pair::Apart => Meeting::Answer(false),
        Pair::Level => Meeting::On(i, j),
        Pair::FirstShort(z) => match following(a, i, z) {
            Next::Other => Meeting::Answer(false),
            Next::Past(k) => Meeting::On(k, j),
            Next::Many => Meeting::Unclear,
        },
        Pair::SecondShort(z) => match following(b, j, z) {
            Next::Other => Meeting::Answer(false),
            Next::Past(l) => Meeting::On(i, l),
            Next::Many => Meeting::Unclear,
        },
        Pair::Several => Meeting::Unclear,
    }
}

// ---- characters beyond ASCII that take as many bytes in both names

// The size of the characters that two names start with, where they differ but fold to one and the same; else 0.
fn wide_pair(a: &[u8], b: &[u8]) -> usize
    ensures { Seam a.now b.now result }
{
    if a.is_empty() || b.is_empty() {
        return 0;
    }
    if (a[0] < 0x80) | (b[0] < 0x80) {
        return 0;
    }
    let x = content::kept_char(a, 0);
    let y = content::kept_char(b, 0);
    if x.size != y.size || x.code == y.code {
        return 0;
    }
    match letters::fold(x.code) {
        Folded::One(u) => match letters::fold(y.code) {
            Folded::One(v) => if u == v { x.size } else { 0 },
            Folded::Two(_, _) => 0,
            Folded::Three(_, _, _) => 0,
        },
        Folded::Two(_, _) => 0,
        Folded::Three(_, _, _) => 0,
    }
}

// Whether a byte is the letter s.
fn is_s(c: u8) -> bool
    ensures { result ≡ true → LetterS c }
{
    (c == b's') | (c == b'S')
}

// Whether a name starts with ss.
fn starts_ss(s: &[u8]) -> bool
    ensures { result ≡ true → StartsSs s.now }
{
    if s.len() < 2 {
        return false;
    }
    is_s(s[0]) && is_s(s[1])
}

// Whether it starts with ß.
fn starts_sharp(s: &[u8]) -> bool
    ensures { result ≡ true → StartsSs s.now }
{
    if s.len() < 2 {
        return false;
    }
    if s[0] != 0xc3 {
        return false;
    }
    let c = content::kept_char(s, 0);
    c.code == 0xdf && c.size == 2
}

// 2 where one name starts with ß and the other with ss, else 0.
fn sharp_pair(a: &[u8], b: &[u8]) -> usize
    ensures { Seam a.now b.now result }
{
    if starts_sharp(a) {
        if starts_ss(b) {
            return 2;
        }
        return 0;
    }
    if starts_ss(a) {
        if starts_sharp(b) {
            return 2;
        }
    }
    0
}

// How many bytes one such pair takes.
fn pair_size(a: &[u8], b: &[u8]) -> usize
    ensures { Seam a.now b.now result }
{
    let k = wide_pair(a, b);
    if k != 0 {
        return k;
    }
    sharp_pair(a, b)
}

// How many bytes such characters take at the front of two names.
pub(crate) fn wide_pairs(a: &[u8], b: &[u8]) -> usize
    ensures { Seam a.now b.now result }
{
    let mut i = 0;
    loop {
        let k = pair_size(&a[i..], &b[i..]);
        if k == 0 {
            return i;
        }
        i += k;
    }
}
