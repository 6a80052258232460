#![tactic(auto)]

mod tables;

ghost use Rattle.std.specs.Prelude.{◌≡◌, true, false, [], ◌∷◌, ◌+◌, ◌≤◌, ◌<◌, length, get_or};
ghost use Rattle.rules.specs.Basic.{within};
ghost use Rattle.rules.specs.Ranges.{member};
ghost use Rattle.rules.specs.Unicode.{is_white_space, is_alphabetic, is_numeric, is_alphanumeric, fold as fold_rule};
ghost use Rattle.letters.specs.Search.{Ascending, Place, zipped};
ghost use Rattle.letters.specs.Tables.{near_code, unicode_tables};
ghost use Rattle.letters.specs.Folded.{folded_of, row_of};

// Where the columns of the tables start.
const WHITE: usize = 0;

const WHITE_ENDS: usize = 10;

const ALPHABETIC: usize = 20;

const ALPHABETIC_ENDS: usize = 777;

const NUMERIC: usize = 1534;

const NUMERIC_ENDS: usize = 1678;

const KEYS: usize = 1822;

const FIRST: usize = 3379;

const SECOND: usize = 4936;

const THIRD: usize = 6493;

const NEAR: usize = 8050;

// What a code point folds to.
#[derive(Clone, Copy)]
pub enum Folded {
    One(u32),
    Two(u32, u32),
    Three(u32, u32, u32),
}

// The tables. They stand in the program's own data, so that nothing is copied here.
pub fn unicode_tables() -> &'static [u32; 9850]
    ensures { result.now ≡ unicode_tables }
{
    &tables::TABLES
}

// The place of the first element of an ascending slice that is at least c.
fn lower_bound(t: &[u32], c: u32) -> usize
    requires { Ascending t.now }
    ensures { Place t.now c result }
{
    t.partition_point(|x| *x < c)
}

// Whether c lies in one of the ranges with these starts and these ends.
fn in_ranges(starts: &[u32], ends: &[u32], c: u32) -> bool
    requires { Ascending starts.now × Ascending ends.now × length starts.now ≡ length ends.now }
    ensures { result ≡ member c (zipped starts.now ends.now) }
{
    let k = lower_bound(ends, c);
    k < starts.len() && starts[k] <= c
}

fn is_within(lo: u32, hi: u32, c: u32) -> bool
    ensures { result ≡ within lo hi c }
{
    lo <= c && c <= hi
}

pub fn is_white_space(c: u32) -> bool
    ensures { result ≡ is_white_space c }
{
    if c < 128 {
        return c == 32 || is_within(9, 13, c);
    }
    if 0xa0 < c && (c < 0x1680 || 0x3000 < c) {
        return false;
    }
    let t = unicode_tables();
    in_ranges(&t[WHITE..WHITE_ENDS], &t[WHITE_ENDS..ALPHABETIC], c)
}

// Whether c is a mark of the blocks for punctuation, which have neither letters nor numbers there.
fn is_mark(c: u32) -> bool
    ensures { result ≡ true → (false ≡ is_alphabetic c) × (false ≡ is_numeric c) }
{
    if c < 0x3000 {
        return is_within(0x2000, 0x206f, c);
    }
    if c < 0x3005 {
        return true;
    }
    if c < 0x3021 {
        return 0x3007 < c;
    }
    is_within(0xff00, 0xff0f, c)
}

pub fn is_alphabetic(c: u32) -> bool
    ensures { result ≡ is_alphabetic c }
{
    if c < 128 {
        return is_within(97, 122, c) || is_within(65, 90, c);
    }
    // Chinese characters, and the letters of Yi after them
    if is_within(0x4e00, 0xa48c, c) {
        return true;
    }
    let t = unicode_tables();
    !is_mark(c)
        && in_ranges(
            &t[ALPHABETIC..ALPHABETIC_ENDS],
            &t[ALPHABETIC_ENDS..NUMERIC],
            c,
        )
}

pub fn is_numeric(c: u32) -> bool
    ensures { result ≡ is_numeric c }
{
    if c < 128 {
        return is_within(48, 57, c);
    }
    let t = unicode_tables();
    !is_mark(c) && in_ranges(&t[NUMERIC..NUMERIC_ENDS], &t[NUMERIC_ENDS..KEYS], c)
}

pub fn is_alphanumeric(c: u32) -> bool
    ensures { result ≡ is_alphanumeric c }
{
    is_alphabetic(c) || is_numeric(c)
}

// The code points of a row of the folding table.
fn row(a: u32, b: u32, c: u32) -> Folded
    ensures { folded_of result ≡ row_of a b c }
{
    if b == 0 {
        return Folded::One(a);
    }
    if c == 0 {
        return Folded::Two(a, b);
    }
    Folded::Three(a, b, c)
}

// Whether c lies in one of the large parts of Unicode where each code point folds to itself: Hebrew to Myanmar, Chinese and
// Japanese, Hangul.
fn is_still(c: u32) -> bool
    requires { 0x588 ≤ c }
    ensures { result ≡ true → c ∷ [] ≡ fold_rule c }
{
    if c < 0x2cf3 {
        return c < 0x10a0;
    }
    if c < 0xa640 {
        return true;
    }
    is_within(0xabc0, 0xfaff, c)
}

// The row at a place of the folding table.
fn row_at(k: usize) -> Folded
    requires { k < 1557 }
    ensures { folded_of result ≡ row_of (get_or unicode_tables (3379 + k) 0) (get_or unicode_tables (4936 + k) 0) (get_or unicode_tables (6493 + k) 0) }
{
    let t = unicode_tables();
    row(t[FIRST + k], t[SECOND + k], t[THIRD + k])
}

// The folding of one of the code points that have a word each.
fn fold_near(i: usize) -> Folded
    requires { i < 1800 }
    ensures { folded_of result ≡ fold_rule (near_code i) }
{
    let x = unicode_tables()[NEAR + i];
    if x < 0x110000 {
        return Folded::One(x);
    }
    let k = (x - 0x110000) as usize;
    row_at(k)
}

// The folding by a search in the table.
fn fold_in(c: u32) -> Folded
    ensures { folded_of result ≡ fold_rule c }
{
    let t = unicode_tables();
    let k = lower_bound(&t[KEYS..FIRST], c);
    if k < 1557 && t[KEYS + k] == c {
        return row_at(k);
    }
    Folded::One(c)
}

pub fn fold(c: u32) -> Folded
    ensures { folded_of result ≡ fold_rule c }
{
    if c < 128 {
        if is_within(65, 90, c) {
            return Folded::One(c + 32);
        }
        return Folded::One(c);
    }
    // Latin, Greek, Cyrillic and Armenian letters
    if c < 0x588 {
        return fold_near((c - 128) as usize);
    }
    if is_still(c) {
        return Folded::One(c);
    }
    // Latin and Greek letters with more marks
    if is_within(0x1e00, 0x1fff, c) {
        return fold_near((c - 0x1e00 + 1288) as usize);
    }
    fold_in(c)
}
