// The words that are kept of the units of earlier ingredients, and whether a unit fits one; no line is read.
#![tactic(auto)]

ghost use Rattle.std.specs.Prelude.{◌≡◌, ◌&&◌, ◌<◌, ◌≤◌, eqb};
ghost use Rattle.unit_codes.specs.Codes.{code_in, PlaceWord, kept_word, with_word, UpToFive, is_unlisted, code_fits, known_fits};
ghost use Rattle.model.specs.declared.layout.TheConstants.{MOST_INGREDIENTS};

use model::layout;
use parts::Part;

// How many words are kept: three for each row of an ingredient.
pub const CODES: usize = layout::MOST_INGREDIENTS * 3;

// What is kept of earlier ingredients: of each where its line begins and ends, and the word of its unit.
pub type Codes = [u32; CODES];

// The word of a unit that is not in the list: its place where that fits in 32 bits, else the code 6.
pub fn place_word(p: Part) -> u32
    requires { p.from ≤ p.to }
    ensures { PlaceWord p result }
{
    let from = p.from;
    let to = p.to;
    if from == 0 {
        return 6;
    }
    if 65535 < to {
        return 6;
    }
    (from * 65536 + to) as u32
}

// Keeps the word of the line from `at` to `end` for the row i.
pub fn keep_word(codes: &mut Codes, i: usize, at: u32, end: u32, w: u32)
    requires { i < MOST_INGREDIENTS }
    ensures { codes.new ≡ with_word codes.old i at end w }
{
    let a = i * 3;
    let b = i * 3 + 1;
    let c = i * 3 + 2;
    codes[a] = at;
    codes[b] = end;
    codes[c] = w;
}

// The word that is kept for the row i, where it is that of this line; else 0.
pub fn kept_word(codes: &Codes, i: usize, at: u32, end: u32) -> u32
    requires { i < MOST_INGREDIENTS }
    ensures { result ≡ kept_word codes.now i at end }
{
    if codes[i * 3] == at {
        if codes[i * 3 + 1] == end {
            return codes[i * 3 + 2];
        }
    }
    0
}

// The code that a kept word says.
pub fn code_in(w: u32) -> u32
    ensures { result ≡ code_in w }
{
    if w < 16 {
        return w;
    }
    6
}

// Whether two units are to be compared as they are written: the earlier one has the code o, the new one a number, and neither
// is in the list.
pub fn both_unknown(o: u32, number: Option<u32>) -> bool
    ensures { result ≡ (eqb o 6 && is_unlisted number) }
{
    match number {
        None => false,
        Some(m) => (o == 6) & (m == 5),
    }
}

// Else whether they fit; the new amount may have no unit.
pub fn code_fits(o: u32, number: Option<u32>) -> bool
    requires { UpToFive number }
    ensures { result ≡ code_fits o number }
{
    match number {
        Some(m) => o == m + 1,
        None => o == 7,
    }
}

// Whether a word is kept that says that the row's line fits.
pub fn known_fits(codes: &Codes, i: usize, at: u32, end: u32, number: Option<u32>) -> bool
    requires { (i < MOST_INGREDIENTS) × UpToFive number }
    ensures { result ≡ known_fits (code_in (kept_word codes.now i at end)) number }
{
    let w = kept_word(codes, i, at, end);
    let o = code_in(w);
    if both_unknown(o, number) {
        return false;
    }
    code_fits(o, number)
}
