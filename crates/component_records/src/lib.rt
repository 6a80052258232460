// The component records of a recipe, lent as slices of structs: records after the pass, and pairs of a definition and its
// referrer.
#![tactic(auto)]

ghost use Rattle.std.specs.Prelude.{◌≡◌, ◌++◌, ◌+◌, ◌-◌, ◌*◌, ◌<◌, ◌≤◌, ltb, length, get_or, take, drop, replicate};
ghost use Rattle.std.proofs.lemmas.List.Edits.{sets};
ghost use Rattle.rules.specs.Basic.{pick};
ghost use Rattle.component_records.specs.Records.{no_component, lent_relation, component_of, component_in, records_in};
ghost use Rattle.component_records.specs.Links.{is_own, pair_at, pairs_of, own_at, own_count, LinkedAs, place_after, Linkable, LinkableAt};
ghost use Rattle.component_records.specs.Tables.{OwnCounted, room_for, is_room_for, Ready, Laid};
ghost use Rattle.model.specs.declared.layout.TheConstants.{ROW, MOST_ROWS, INGREDIENTS, COOKWARE};

use model::{Relation, RelationRecord, Row, Target, layout};
use refusals::Reason;

// A component of a recipe as it is lent: its line in the sheet, its name in it (after a path, still escaped), its modifiers
// and its relation after the pass.
#[derive(Clone, Copy)]
pub struct Component {
    pub line_at: u32,
    pub line_end: u32,
    pub name_at: u32,
    pub name_end: u32,
    pub recipe: bool,
    pub reference: bool,
    pub hidden: bool,
    pub opt: bool,
    pub new: bool,
    pub relation: RelationRecord,
}

// ---- records

pub fn no_component() -> Component
    ensures { result ≡ no_component }
{
    Component {
        line_at: 0,
        line_end: 0,
        name_at: 0,
        name_end: 0,
        recipe: false,
        reference: false,
        hidden: false,
        opt: false,
        new: false,
        relation: RelationRecord {
            relation: Relation::Definition,
            in_step: false,
            index: 0,
        },
    }
}

// A definition has no index, and a reference does not say whether it stands in a step.
fn lent_relation(g: RelationRecord) -> RelationRecord
    ensures { result ≡ lent_relation g }
{
    let k = g.relation;
    let Relation::Reference(_) = k else {
        return RelationRecord {
            relation: k,
            in_step: g.in_step,
            index: 0,
        };
    };
    RelationRecord {
        relation: k,
        in_step: false,
        index: g.index,
    }
}

pub fn component_of(r: Row) -> Component
    ensures { result ≡ component_of r }
{
    Component {
        line_at: r.line_at,
        line_end: r.line_end,
        name_at: r.name_at,
        name_end: r.name_end,
        recipe: r.recipe,
        reference: r.reference,
        hidden: r.hidden,
        opt: r.opt,
        new: r.new,
        relation: lent_relation(r.relation),
    }
}

// The record of the i-th row.
fn component_in(words: &[u32], from: usize, i: usize) -> Component
    requires { (i < MOST_ROWS) × (from + (i * ROW + ROW) ≤ length words.now) }
    ensures { result ≡ component_in words.now from i }
{
    component_of(model::row_on(&words[from..], i))
}

// The record of the i-th of `count` rows; an empty one past them.
pub fn component_at(words: &[u32], from: usize, count: usize, i: usize) -> Component
    requires { (count ≤ MOST_ROWS) × (0 < count → from + count * ROW ≤ length words.now) }
    ensures { result ≡ pick (ltb i count) (component_in words.now from i) no_component }
{
    if count <= i {
        return no_component();
    }
    component_in(words, from, i)
}

// All records that the caller lends: those of the rows, and empty ones after them.
pub fn lend_records(words: &[u32], from: usize, count: usize, all: &mut [Component])
    requires { (count ≤ MOST_ROWS) × (0 < count → from + count * ROW ≤ length words.now) × (count ≤ length all.old) }
    ensures { all.new ≡ records_in words.now from count ++ replicate (length all.old - count) no_component }
{
    for (i, c) in all.iter_mut().enumerate() {
        *c = component_at(words, from, count, i);
    }
}

// ---- pairs

// The work of `set_referenced_from`, on numbers: the pair at n; 18 where what is referred to is itself a reference, the Rust's
// panic.
pub fn link(
    relation: Relation,
    pairs: &mut [u32],
    n: usize,
    definition: usize,
    referrer: usize,
) -> Result<(), Reason>
    requires { (definition < MOST_ROWS) × (referrer ≤ MOST_ROWS) × (n < MOST_ROWS) × (n * 2 + 2 ≤ length pairs.old) }
    ensures { LinkedAs relation pairs.old n definition referrer pairs.new result }
{
    let Relation::Reference(_) = relation else {
        model::put_pair(pairs, n, definition as u32, referrer as u32);
        return Ok(());
    };
    Err(Reason::ReferenceToReference)
}

// The component that comes next, with index `count`, refers to the one at `references_to`.
pub fn set_referenced_from(
    all: &mut [Component],
    count: usize,
    references_to: usize,
    pairs: &mut [u32],
    n: usize,
) -> Result<(), Reason>
    requires { (references_to < count) × (count ≤ length all.old) × (count ≤ MOST_ROWS) × (n < MOST_ROWS) × (n * 2 + 2 ≤ length pairs.old) }
    ensures { (all.new ≡ all.old)
        × LinkedAs (get_or all.old references_to no_component).relation.relation pairs.old n references_to count pairs.new result }
{
    link(
        all[references_to].relation.relation,
        pairs,
        n,
        references_to,
        count,
    )
}

// Whether a component refers to one of its own kind.
pub fn is_own_reference(g: RelationRecord) -> bool
    ensures { result ≡ is_own g.relation }
{
    let k = g.relation;
    matches!(k, Relation::Reference(Target::Ingredient))
}

// The place of the next pair.
fn place_after(l: Result<(), Reason>, n: usize) -> usize
    requires { n < MOST_ROWS }
    ensures { result ≡ place_after l n }
{
    match l {
        Ok(_) => n + 1,
        Err(_) => n,
    }
}

// The pair of the component at i, at n, where it has one; the place of the next pair.
fn link_record(all: &mut [Component], i: usize, pairs: &mut [u32], n: usize) -> usize
    requires { (i < length all.old) × (i < MOST_ROWS) × (n < MOST_ROWS) × LinkableAt all.old i n (length pairs.old) }
    ensures { (all.new ≡ all.old)
        × (pairs.new ≡ sets pairs.old (n * 2) (pair_at i (get_or all.old i no_component)))
        × (result ≡ n + own_at (get_or all.old i no_component)) }
{
    let g = all[i].relation;
    if is_own_reference(g) {
        return place_after(set_referenced_from(all, i, g.index as usize, pairs, n), n);
    }
    n
}

// The pairs of the first `count` records, and how many they are.
pub fn link_records(all: &mut [Component], count: usize, pairs: &mut [u32]) -> usize
    requires { (count ≤ MOST_ROWS) × (count ≤ length all.old) × Linkable (take count all.old) (length pairs.old) }
    ensures { (all.new ≡ all.old)
        × (pairs.new ≡ pairs_of (take count all.old) ++ drop (length (pairs_of (take count all.old))) pairs.old)
        × (result ≡ own_count (take count all.old)) }
{
    let mut n = 0;
    for i in 0..count {
        n = link_record(all, i, pairs, n);
    }
    n
}

// ---- a table

// The records of a table's rows and the pairs of its references, each followed by nothing; the number of pairs.
pub fn lend_table(
    words: &[u32],
    from: usize,
    count: usize,
    all: &mut [Component],
    pairs: &mut [u32],
) -> usize
    requires { (count ≤ MOST_ROWS) × (0 < count → from + count * ROW ≤ length words.now) × (count ≤ length all.old)
        × Linkable (records_in words.now from count) (length pairs.old) }
    ensures { (all.new ≡ records_in words.now from count ++ replicate (length all.old - count) no_component)
        × (pairs.new ≡ pairs_of (records_in words.now from count)
        ++ replicate (length pairs.old - length (pairs_of (records_in words.now from count))) 0)
        × (result ≡ own_count (records_in words.now from count)) }
{
    lend_records(words, from, count, all);
    clearing::clear_words(pairs);
    link_records(all, count, pairs)
}

// How many of the first `count` rows refer to a component of their own kind.
pub fn own_references(words: &[u32], from: usize, count: usize) -> usize
    requires { (count ≤ MOST_ROWS) × (0 < count → from + count * ROW ≤ length words.now) }
    ensures { OwnCounted words.now from count result }
{
    let mut n: usize = 0;
    for i in 0..count {
        let c = component_at(words, from, count, i);
        if is_own_reference(c.relation) {
            n += 1;
        }
    }
    n
}

// Whether the records of a table and its pairs fit in what is lent.
pub fn table_fits(count: usize, pairs: usize, records: usize, words: usize) -> bool
    requires { pairs ≤ MOST_ROWS }
    ensures { result ≡ is_room_for count pairs (room_for records words) }
{
    count <= records && pairs * 2 <= words
}

// ---- both tables

// The records and the pairs of `ingredients_count` and `cookware_count` rows, each followed by nothing.
pub fn lend_tables(
    words: &[u32],
    ingredients_count: usize,
    cookware_count: usize,
    ingredients: &mut [Component],
    ingredient_pairs: &mut [u32],
    cookware: &mut [Component],
    cookware_pairs: &mut [u32],
)
    requires { Ready words.now INGREDIENTS ingredients_count (room_for (length ingredients.old) (length ingredient_pairs.old))
        × Ready words.now COOKWARE cookware_count (room_for (length cookware.old) (length cookware_pairs.old)) }
    ensures { Laid words.now INGREDIENTS ingredients_count (room_for (length ingredients.old) (length ingredient_pairs.old)) ingredients.new ingredient_pairs.new
        × Laid words.now COOKWARE cookware_count (room_for (length cookware.old) (length cookware_pairs.old)) cookware.new cookware_pairs.new }
{
    lend_table(
        words,
        layout::INGREDIENTS,
        ingredients_count,
        ingredients,
        ingredient_pairs,
    );
    lend_table(
        words,
        layout::COOKWARE,
        cookware_count,
        cookware,
        cookware_pairs,
    );
}
