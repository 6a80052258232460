// The collector's work memory: rows of components, pairs of definition and referrer, findings, kinds of blocks; and the
// small state beside it. Its windows stand in docs/MEMORY.md.
#![tactic(auto)]

pub mod layout;

ghost use Rattle.std.specs.Prelude.{◌≡◌, [], ◌∷◌, reverse, ◌+◌, ◌-◌, ◌*◌, ◌<◌, ◌≤◌, length, set};
ghost use Rattle.std.proofs.lemmas.List.Edits.{sets};
ghost use Rattle.rules.specs.Basic.{pick};
ghost use Rattle.rules.specs.Checks.{step_indices, section_indices, nth};
ghost use Rattle.rules.specs.Words.{severe, mild};
ghost use Rattle.rules.specs.Finding.{diag, parsed};
ghost use Rattle.model.specs.Rows.{finding_of, bit_of, relation_word, relation_of, row_words, row_of, row_on, HasRow, own_target, noted_words, noted_of, noted_on, blocks_in};
ghost use Rattle.model.specs.Searches.{TargetFound, NextReferrer};
ghost use Rattle.model.specs.Small.{with_counts, with_define, with_duplicate, with_block, with_named};
ghost use Rattle.model.specs.declared.Open.TheVariants.{Nothing};

use layout::{FINDING, MOST_FINDINGS, MOST_INGREDIENTS, MOST_KINDS, PAIR, ROW};
use sheet::{Define, Duplicate};

// The two kinds of components.
#[derive(Clone, Copy)]
pub enum Kind {
    Ingredient,
    Cookware,
}

// The open block.
#[derive(Clone, Copy)]
pub enum Open {
    Nothing,
    Step,
    Text,
    TextMode,
}

#[derive(Clone, Copy)]
pub struct Counts {
    pub counter: usize,
    pub here: usize,
    pub sections: usize,
    pub blocks: usize,
    pub items: usize,
    pub ingredients: usize,
    pub cookware: usize,
    pub timers: usize,
    pub inline: usize,
    pub ingredient_pairs: usize,
    pub cookware_pairs: usize,
    pub findings: usize,
    pub old: usize,
}

#[derive(Clone, Copy)]
pub struct Held {
    pub define: Define,
    pub duplicate: Duplicate,
    pub block: Open,
    pub named: bool,
    pub counts: Counts,
}

#[derive(Clone, Copy)]
pub enum Target {
    Ingredient,
    Step,
    Section,
}

#[derive(Clone, Copy)]
pub enum Relation {
    Definition,
    Reference(Target),
}

#[derive(Clone, Copy)]
pub struct RelationRecord {
    pub relation: Relation,
    pub in_step: bool,
    pub index: u32,
}

#[derive(Clone, Copy)]
pub struct Row {
    pub line_at: u32,
    pub line_end: u32,
    pub name_at: u32,
    pub name_end: u32,
    pub recipe: bool,
    pub reference: bool,
    pub hidden: bool,
    pub opt: bool,
    pub new: bool,
    pub relation: RelationRecord,
}

// A finding. `flag` is `implicit` of a finding of the pass, and marks an error of the parser.
#[derive(Clone, Copy)]
pub struct Noted {
    pub parse: bool,
    pub code: u32,
    pub spans: u32,
    pub start: u32,
    pub end: u32,
    pub start2: u32,
    pub end2: u32,
    pub flag: bool,
}

// ---- the small state with another part

pub fn with_define(h: Held, define: Define) -> Held
    ensures { result ≡ with_define define h }
{
    Held { define, ..h }
}

pub fn with_duplicate(h: Held, duplicate: Duplicate) -> Held
    ensures { result ≡ with_duplicate duplicate h }
{
    Held { duplicate, ..h }
}

pub fn with_block(h: Held, block: Open) -> Held
    ensures { result ≡ with_block block h }
{
    Held { block, ..h }
}

// With no open block, and other counts.
pub fn closed(h: Held, named: bool, counts: Counts) -> Held
    ensures { result ≡ with_block Nothing (with_named named (with_counts counts h)) }
{
    Held {
        block: Open::Nothing,
        named,
        counts,
        ..h
    }
}

// ---- rows

pub fn copy_words(words: &mut [u32], at: usize, row: &[u32])
    requires { at + length row.now ≤ length words.old }
    ensures { words.new ≡ sets words.old at row.now }
{
    words[at..at + row.len()].copy_from_slice(row);
}

fn bit(b: bool) -> u32
    ensures { result ≡ bit_of b }
{
    u32::from(b)
}

fn relation_word(r: Relation) -> u32
    ensures { result ≡ relation_word r }
{
    match r {
        Relation::Definition => 0,
        Relation::Reference(t) => match t {
            Target::Ingredient => 1,
            Target::Step => 2,
            Target::Section => 3,
        },
    }
}

fn relation_of(n: u32) -> Relation
    ensures { result ≡ relation_of n }
{
    if n == 0 {
        return Relation::Definition;
    }
    if n == 1 {
        return Relation::Reference(Target::Ingredient);
    }
    if n == 2 {
        return Relation::Reference(Target::Step);
    }
    Relation::Reference(Target::Section)
}

pub fn put_row(rows: &mut [u32], i: usize, r: Row)
    requires { HasRow rows.old i }
    ensures { rows.new ≡ sets rows.old (i * ROW) (row_words r) }
{
    let at = i * ROW;
    let g = r.relation;
    let e = g.relation;
    let w = [
        r.line_at,
        r.line_end,
        r.name_at,
        r.name_end,
        bit(r.recipe),
        bit(r.reference),
        bit(r.hidden),
        bit(r.opt),
        bit(r.new),
        relation_word(e),
        g.index,
        bit(g.in_step),
    ];
    copy_words(rows, at, &w);
}

fn row_of(w: &[u32]) -> Row
    requires { length w.now ≡ ROW }
    ensures { result ≡ row_of w.now }
{
    Row {
        line_at: w[0],
        line_end: w[1],
        name_at: w[2],
        name_end: w[3],
        recipe: w[4] == 1,
        reference: w[5] == 1,
        hidden: w[6] == 1,
        opt: w[7] == 1,
        new: w[8] == 1,
        relation: RelationRecord {
            relation: relation_of(w[9]),
            in_step: w[11] == 1,
            index: w[10],
        },
    }
}

pub fn row_on(rows: &[u32], i: usize) -> Row
    requires { HasRow rows.now i }
    ensures { result ≡ row_on rows.now i }
{
    let at = i * ROW;
    row_of(&rows[at..at + ROW])
}

// ---- what a search reads of the i-th row, without the rest

pub fn row_reference(rows: &[u32], i: usize) -> bool
    requires { HasRow rows.now i }
    ensures { result ≡ (row_on rows.now i).reference }
{
    rows[i * ROW + 5] == 1
}

pub fn row_opt(rows: &[u32], i: usize) -> bool
    requires { HasRow rows.now i }
    ensures { result ≡ (row_on rows.now i).opt }
{
    rows[i * ROW + 7] == 1
}

// Where its name begins and ends in the sheet.
pub fn row_name(rows: &[u32], i: usize) -> (usize, usize)
    requires { HasRow rows.now i }
    ensures { (result.0 ≡ (row_on rows.now i).name_at) × (result.1 ≡ (row_on rows.now i).name_end) }
{
    let at = i * ROW;
    (rows[at + 2] as usize, rows[at + 3] as usize)
}

// What it refers to of its own kind.
pub fn row_target(rows: &[u32], i: usize) -> Option<usize>
    requires { HasRow rows.now i }
    ensures { result ≡ own_target (row_on rows.now i).relation.relation (row_on rows.now i).relation.index }
{
    let at = i * ROW;
    if rows[at + 9] == 1 {
        return Some(rows[at + 10] as usize);
    }
    None
}

// ---- pairs

// `set_referenced_from`: the pair at n.
pub fn put_pair(pairs: &mut [u32], n: usize, definition: u32, referrer: u32)
    requires { (n < MOST_INGREDIENTS) × (n * PAIR + PAIR ≤ length pairs.old) }
    ensures { pairs.new ≡ sets pairs.old (n * PAIR) (definition ∷ referrer ∷ []) }
{
    let at = n * PAIR;
    copy_words(pairs, at, &[definition, referrer]);
}

// The first of the pairs from `from` on, of n, that names the definition.
pub fn next_referrer(pairs: &[u32], n: usize, definition: u32, from: usize) -> Option<(u32, usize)>
    requires { (n ≤ MOST_INGREDIENTS) × (n * PAIR ≤ length pairs.now) }
    ensures { NextReferrer pairs.now n definition from result }
{
    for i in from..n {
        let at = i * PAIR;
        if pairs[at] == definition {
            return Some((pairs[at + 1], i + 1));
        }
    }
    None
}

// ---- findings

pub fn put_finding(findings: &mut [u32], n: usize, x: Noted)
    requires { (n < MOST_FINDINGS) × (n * FINDING + FINDING ≤ length findings.old) }
    ensures { findings.new ≡ sets findings.old (n * FINDING) (noted_words x) }
{
    let at = n * FINDING;
    let w = [
        bit(x.parse),
        x.code,
        x.spans,
        x.start,
        x.end,
        x.start2,
        x.end2,
        bit(x.flag),
    ];
    copy_words(findings, at, &w);
}

fn noted_of(w: &[u32]) -> Noted
    requires { length w.now ≡ FINDING }
    ensures { result ≡ noted_of w.now }
{
    Noted {
        parse: w[0] == 1,
        code: w[1],
        spans: w[2],
        start: w[3],
        end: w[4],
        start2: w[5],
        end2: w[6],
        flag: w[7] == 1,
    }
}

pub fn finding_at(findings: &[u32], i: usize) -> Noted
    requires { (i < MOST_FINDINGS) × (i * FINDING + FINDING ≤ length findings.now) }
    ensures { result ≡ noted_on findings.now i }
{
    let at = i * FINDING;
    noted_of(&findings[at..at + FINDING])
}

// A finding of the pass at one span.
pub fn one_span(code: u32, start: u32, end: u32, implicit: bool) -> Noted
    ensures { finding_of result ≡ diag code (record { start = start; end = end } ∷ []) implicit }
{
    Noted {
        parse: false,
        code,
        spans: 1,
        start,
        end,
        start2: 0,
        end2: 0,
        flag: implicit,
    }
}

// A finding of the pass at two spans.
pub fn two_spans(code: u32, start: u32, end: u32, start2: u32, end2: u32, implicit: bool) -> Noted
    ensures { finding_of result ≡ diag code (record { start = start; end = end } ∷ record { start = start2; end = end2 } ∷ []) implicit }
{
    Noted {
        parse: false,
        code,
        spans: 2,
        start,
        end,
        start2,
        end2,
        flag: implicit,
    }
}

// A finding of the parser.
pub fn of_parser(error: bool, number: u32) -> Noted
    ensures { finding_of result ≡ parsed (pick error severe mild) number }
{
    Noted {
        parse: true,
        code: number,
        spans: 0,
        start: 0,
        end: 0,
        start2: 0,
        end2: 0,
        flag: error,
    }
}

// ---- kinds of blocks

pub fn put_kind(kinds: &mut [u32], n: usize, step: bool)
    requires { n < length kinds.old }
    ensures { kinds.new ≡ set kinds.old n (bit_of step) }
{
    kinds[n] = bit(step);
}

// The step that is the value-th, counted back from the newest of n blocks.
#[tactic(auto, using(crate::proofs::Searches::back_cases))]
fn step_back(kinds: &[u32], n: usize, value: u32) -> Option<u32>
    requires { (n ≤ MOST_KINDS) × (n ≤ length kinds.now) }
    ensures { result ≡ nth value (step_indices (blocks_in kinds.now n)) }
{
    if value == 0 {
        return None;
    }
    let mut v = value;
    for i in (0..n).rev() {
        if kinds[i] == 1 {
            if v == 1 {
                return Some(i as u32);
            }
            v -= 1;
        }
    }
    None
}

// The step that is the value-th, counted from the first.
#[tactic(auto, using(crate::proofs::Searches::ahead_cases))]
fn step_ahead(kinds: &[u32], n: usize, value: u32) -> Option<u32>
    requires { (n ≤ MOST_KINDS) × (n ≤ length kinds.now) }
    ensures { result ≡ nth value (reverse (step_indices (blocks_in kinds.now n))) }
{
    if value == 0 {
        return None;
    }
    let mut v = value;
    for k in 0..n {
        if kinds[k] == 1 {
            if v == 1 {
                return Some(k as u32);
            }
            v -= 1;
        }
    }
    None
}

pub fn step_target(kinds: &[u32], n: usize, relative: bool, value: u32) -> Option<u32>
    requires { (n ≤ MOST_KINDS) × (n ≤ length kinds.now) }
    ensures { TargetFound relative value (step_indices (blocks_in kinds.now n)) result }
{
    if relative {
        step_back(kinds, n, value)
    } else {
        step_ahead(kinds, n, value)
    }
}

pub fn section_target(sections: usize, relative: bool, value: u32) -> Option<u32>
    requires { sections ≤ 100000 }
    ensures { TargetFound relative value (section_indices sections) result }
{
    let v = value as usize;
    if v == 0 {
        return None;
    }
    if sections < v {
        return None;
    }
    if relative {
        let i = sections - v;
        return Some(i as u32);
    }
    let i = v - 1;
    Some(i as u32)
}
