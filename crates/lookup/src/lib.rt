// The same-name search over component rows of work memory, the name of a new component, and what it refers to.
#![tactic(auto)]

ghost use Rattle.std.specs.Prelude.{◌≡◌, ◌||◌, ◌+◌, ◌<◌, ◌≤◌, length};
ghost use Rattle.std.proofs.Math.Seq.{slice};
ghost use Rattle.rules.specs.Unicode.{fold_name, same_name};
ghost use Rattle.rules.specs.Modes.{is_steps, is_reference};
ghost use Rattle.rules.specs.Reference.{eq_bool};
ghost use Rattle.content.specs.Contents.{kept_in};
ghost use Rattle.model.specs.Rows.{row_on, HasRow, HasRows};
ghost use Rattle.model.specs.Fits.{AllFit};
ghost use Rattle.lookup.specs.Names.{NameInside, NamesInside, row_fits, same_row, SameFound, TrimmedAt, NewName};
ghost use Rattle.lookup.specs.References.{modes_of, asks_same, TreatedAs, Refers};
ghost use Rattle.sheet.specs.Words.{define_of, duplicate_of};
ghost use Rattle.model.specs.Kinds.{kind_of};

use memory::Stored;
use model::Kind;
use sheet::{Define, Duplicate};
use text::Dropped;

// ---- the same-name search

// Whether OPT agrees, where it must.
fn agrees(any_opt: bool, opt: bool, is_opt: bool) -> bool
    ensures { result ≡ (any_opt || eq_bool opt is_opt) }
{
    any_opt || opt == is_opt
}

// Whether a part of the sheet has the name.
fn named(sheet: &[u8], from: usize, to: usize, name: &[u8]) -> bool
    requires { (from ≤ to) × (to ≤ length sheet.now) }
    ensures { result ≡ same_name (kept_in (slice from to sheet.now)) (kept_in name.now) }
{
    text::same_name(&sheet[from..to], name)
}

// Whether a row has the name and fits: REF and OPT are asked before the name.
fn row_fits(sheet: &[u8], rows: &[u32], i: usize, name: &[u8], any_opt: bool, is_opt: bool) -> bool
    requires { HasRow rows.now i × NameInside sheet.now (row_on rows.now i) }
    ensures { result ≡ row_fits sheet.now (fold_name (kept_in name.now)) any_opt is_opt (row_on rows.now i) }
{
    if model::row_reference(rows, i) || !agrees(any_opt, model::row_opt(rows, i), is_opt) {
        return false;
    }
    let (from, to) = model::row_name(rows, i);
    named(sheet, from, to, name)
}

// The last of the first rows that has the name, without REF, and with OPT as asked.
pub fn same_name_before(
    sheet: &[u8],
    rows: &[u32],
    count: usize,
    name: &[u8],
    any_opt: bool,
    is_opt: bool,
) -> Option<usize>
    requires { HasRows rows.now count × NamesInside sheet.now rows.now count }
    ensures { result ≡ same_row sheet.now (fold_name (kept_in name.now)) any_opt is_opt rows.now count }
{
    for k in (0..count).rev() {
        if row_fits(sheet, rows, k, name, any_opt, is_opt) {
            return Some(k);
        }
    }
    None
}

// The same among the components of a kind.
pub fn same_component(
    sheet: &[u8],
    stored: &Stored,
    kind: Kind,
    name: &[u8],
    any_opt: bool,
    is_opt: bool,
) -> Option<usize>
    requires { AllFit sheet.now stored.now.words.now stored.now.held }
    ensures { SameFound (kind_of kind) sheet.now stored.now.words.now stored.now.held name.now any_opt is_opt result }
{
    let n = memory::count_of(stored.held, kind);
    same_name_before(sheet, stored.rows(kind), n, name, any_opt, is_opt)
}

// ---- the name of a new component

// Where a name stands.
#[derive(Clone, Copy)]
pub struct NamePart {
    pub at: usize,
    pub end: usize,
}

fn trimmed_place(f: &[u8]) -> NamePart
    ensures { TrimmedAt f.now result }
{
    let at = text::start_of(f, Dropped::White);
    let e = text::end_of(&f[at..], Dropped::White);
    let end = at + e;
    NamePart { at, end }
}

// The name of a new component: trimmed, and for ingredients without its path.
pub fn new_name(sheet: &[u8], from: usize, to: usize, kind: Kind) -> NamePart
    requires { (from ≤ to) × (to ≤ length sheet.now) }
    ensures { NewName (kind_of kind) sheet.now from to result }
{
    let p = trimmed_place(&sheet[from..to]);
    let at = from + p.at;
    let end = from + p.end;
    match kind {
        Kind::Cookware => NamePart { at, end },
        Kind::Ingredient => {
            let q = content::name_place(&sheet[at..end]);
            let start = at + q.start;
            NamePart { at: start, end }
        }
    }
}

// ---- the earlier component of its name

// That component; an explicit REF asks nothing of OPT.
pub fn found_before(
    sheet: &[u8],
    stored: &Stored,
    kind: Kind,
    p: NamePart,
    reference: bool,
    opt: bool,
) -> Option<usize>
    requires { (p.at ≤ p.end) × (p.end ≤ length sheet.now) × AllFit sheet.now stored.now.words.now stored.now.held }
    ensures { SameFound (kind_of kind) sheet.now stored.now.words.now stored.now.held (slice p.at p.end sheet.now) reference opt result }
{
    let from = p.at;
    let to = p.end;
    let any_opt = reference;
    same_component(sheet, stored, kind, &sheet[from..to], any_opt, opt)
}

// ---- what it refers to

#[tactic(auto, unfolding(rules::specs::Modes::is_steps, sheet::specs::Words::define_of))]
pub fn is_steps(d: Define) -> bool
    ensures { result ≡ is_steps (define_of d) }
{
    matches!(d, Define::Steps)
}

#[tactic(auto, unfolding(rules::specs::Modes::is_reference, sheet::specs::Words::duplicate_of))]
pub fn is_reference(d: Duplicate) -> bool
    ensures { result ≡ is_reference (duplicate_of d) }
{
    matches!(d, Duplicate::Reference)
}

// Whether the search is needed at all: elsewhere nothing that is made of a component depends on it.
pub fn asks_same(define: Define, duplicate: Duplicate, reference: bool) -> bool
    ensures { result ≡ asks_same (modes_of define duplicate) reference }
{
    reference || is_steps(define) || is_reference(duplicate)
}

pub fn treat_as_reference(
    define: Define,
    duplicate: Duplicate,
    reference: bool,
    found: bool,
) -> bool
    ensures { TreatedAs define duplicate reference found result }
{
    reference || is_steps(define) || (is_reference(duplicate) && found)
}

// What a new component refers to, where the search found `same`.
pub fn refers_to(
    define: Define,
    duplicate: Duplicate,
    reference: bool,
    new: bool,
    same: Option<usize>,
) -> Option<usize>
    ensures { Refers define duplicate reference new same result }
{
    if new {
        return None;
    }
    let found = same.is_some();
    if treat_as_reference(define, duplicate, reference, found) {
        return same;
    }
    None
}
