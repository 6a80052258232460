// The whole of work memory and the small state beside it: one component, referrer, finding, block or section more.
// Rows are stored first; whether a limit was passed is asked after the line.
#![tactic(auto)]

ghost use Rattle.std.specs.Prelude.{◌≡◌, ◌+◌, ◌<◌};
ghost use Rattle.model.specs.Memory.{first_held, Sound};
ghost use Rattle.model.specs.Kinds.{kind_of, room_of};
ghost use Rattle.model.specs.Memory.{count_of, pairs_of, rows_in, row_in, noted_in};
ghost use Rattle.memory.specs.Referrers.{FirstReferrer, NextReferrer};
ghost use Rattle.memory.specs.Reading.{StepTarget};
ghost use Rattle.memory.specs.Reports.{Reported};
ghost use Rattle.model.specs.Rows.{if_found};
ghost use Rattle.memory.specs.Pushes.{RowPushed, PairPushed, ComponentAdded, FoundBelow, FindingPushed, BlockKept, SectionBegun, OverLimits, LimitsChecked, EndChecked, is_open_block};
ghost use Rattle.model.specs.declared.layout.TheConstants.{MOST_FINDINGS, MOST_KINDS};

use model::{Counts, Held, Kind, Noted, Open, Row, layout};
use refusals::Reason;
use sheet::{Define, Duplicate};

pub fn first_held() -> Held
    ensures { result ≡ first_held }
{
    Held {
        define: Define::All,
        duplicate: Duplicate::New,
        block: Open::Nothing,
        named: false,
        counts: Counts {
            counter: 1,
            here: 0,
            sections: 0,
            blocks: 0,
            items: 0,
            ingredients: 0,
            cookware: 0,
            timers: 0,
            inline: 0,
            ingredient_pairs: 0,
            cookware_pairs: 0,
            findings: 0,
            old: 0,
        },
    }
}

// How many components of a kind there are.
pub fn count_of(h: Held, kind: Kind) -> usize
    ensures { result ≡ count_of (kind_of kind) h }
{
    match kind {
        Kind::Ingredient => h.counts.ingredients,
        Kind::Cookware => h.counts.cookware,
    }
}

// What the pass has stored, for those who read it: work memory, and the small state beside it.
#[derive(Clone, Copy)]
pub struct Stored<'a> {
    pub words: &'a [u32],
    pub held: Held,
    ghost sound: { Sound words.now held },
}

impl<'a> Stored<'a> {
    // The rows of a kind.
    pub fn rows(&self, kind: Kind) -> &'a [u32]
        ensures { result.now ≡ rows_in (kind_of kind) self.now.words.now }
    {
        match kind {
            Kind::Ingredient => &self.words[layout::INGREDIENTS..layout::COOKWARE],
            Kind::Cookware => &self.words[layout::COOKWARE..layout::INGREDIENT_PAIRS],
        }
    }

    pub fn row(&self, kind: Kind, i: usize) -> Row
        requires { i < room_of (kind_of kind) }
        ensures { result ≡ row_in (kind_of kind) self.now.words.now i }
    {
        model::row_on(self.rows(kind), i)
    }

    pub fn finding(&self, i: usize) -> Noted
        requires { i < MOST_FINDINGS }
        ensures { result ≡ noted_in self.now.words.now i }
    {
        model::finding_at(&self.words[layout::FINDINGS..layout::KINDS], i)
    }

    // The step of the current section that an intermediate reference means.
    pub fn step_target(&self, relative: bool, value: u32) -> Option<u32>
        ensures { StepTarget relative value self.now.words.now self.now.held result }
    {
        let kinds = &self.words[layout::KINDS..layout::STATE_WORDS];
        model::step_target(kinds, self.held.counts.here, relative, value)
    }

    // The place of the first that refers to the component `definition`.
    pub fn first_referrer(&self, kind: Kind, definition: usize) -> usize
        requires { definition < count_of (kind_of kind) self.now.held }
        ensures { FirstReferrer (kind_of kind) self.now.words.now self.now.held definition result }
    {
        0
    }

    // The first from a place on that refers to the component `definition`, and the place after it.
    pub fn next_referrer(&self, kind: Kind, definition: usize, place: usize) -> Option<(u32, usize)>
        requires { definition < count_of (kind_of kind) self.now.held }
        ensures { NextReferrer (kind_of kind) self.now.words.now self.now.held definition place result }
    {
        let d = definition as u32;
        match kind {
            Kind::Ingredient => {
                let pairs = &self.words[layout::INGREDIENT_PAIRS..layout::COOKWARE_PAIRS];
                model::next_referrer(pairs, self.held.counts.ingredient_pairs, d, place)
            }
            Kind::Cookware => {
                let pairs = &self.words[layout::COOKWARE_PAIRS..layout::FINDINGS];
                model::next_referrer(pairs, self.held.counts.cookware_pairs, d, place)
            }
        }
    }
}

// The same while it is written.
#[derive(Drop)]
pub struct Memory<'a> {
    pub words: &'a mut [u32],
    pub held: Held,
    ghost sound: { Sound words.now held },
}

impl<'a> Memory<'a> {
    // What it holds, to be read.
    pub fn stored(&self) -> Stored<'_>
        ensures words { result.words.now ≡ self.now.words.now }
        ensures held { result.held ≡ self.now.held }
    {
        Stored {
            words: self.words,
            held: self.held,
        }
    }

    // The same row: of the words that a `&mut Memory` lends in part the check knows only their length afterwards.
    pub fn row(&self, kind: Kind, i: usize) -> Row
        requires { i < room_of (kind_of kind) }
        ensures { result ≡ row_in (kind_of kind) self.now.words.now i }
    {
        self.stored().row(kind, i)
    }

    fn push_row(&mut self, kind: Kind, row: Row)
        requires { count_of (kind_of kind) self.old.held < room_of (kind_of kind) }
        ensures row { RowPushed (kind_of kind) self.old.words.now self.old.held row self.new.words.now self.new.held }
        ensures lent { self.new.words.ghost_name ≡ self.old.words.ghost_name }
    {
        match kind {
            Kind::Ingredient => {
                let n = self.held.counts.ingredients;
                model::put_row(
                    &mut self.words[layout::INGREDIENTS..layout::COOKWARE],
                    n,
                    row,
                );
                self.held.counts.ingredients = n + 1;
            }
            Kind::Cookware => {
                let n = self.held.counts.cookware;
                model::put_row(
                    &mut self.words[layout::COOKWARE..layout::INGREDIENT_PAIRS],
                    n,
                    row,
                );
                self.held.counts.cookware = n + 1;
            }
        }
    }

    // `set_referenced_from`: one more that refers to the component at `definition`.
    fn push_pair(&mut self, kind: Kind, definition: u32, referrer: u32)
        requires { (pairs_of (kind_of kind) self.old.held < count_of (kind_of kind) self.old.held) × (definition < count_of (kind_of kind) self.old.held) × (referrer < count_of (kind_of kind) self.old.held) }
        ensures pair { PairPushed (kind_of kind) self.old.words.now self.old.held definition referrer self.new.words.now self.new.held }
        ensures lent { self.new.words.ghost_name ≡ self.old.words.ghost_name }
    {
        match kind {
            Kind::Ingredient => {
                let n = self.held.counts.ingredient_pairs;
                model::put_pair(
                    &mut self.words[layout::INGREDIENT_PAIRS..layout::COOKWARE_PAIRS],
                    n,
                    definition,
                    referrer,
                );
                self.held.counts.ingredient_pairs = n + 1;
            }
            Kind::Cookware => {
                let n = self.held.counts.cookware_pairs;
                model::put_pair(
                    &mut self.words[layout::COOKWARE_PAIRS..layout::FINDINGS],
                    n,
                    definition,
                    referrer,
                );
                self.held.counts.cookware_pairs = n + 1;
            }
        }
    }

    // A component of a kind, and with it the referrer of what it refers to.
    pub fn add_component(&mut self, kind: Kind, row: Row, to: Option<u32>)
        requires { (count_of (kind_of kind) self.old.held < room_of (kind_of kind)) × FoundBelow to (count_of (kind_of kind) self.old.held) }
        ensures added { ComponentAdded (kind_of kind) self.old.words.now self.old.held row to self.new.words.now self.new.held }
        ensures lent { self.new.words.ghost_name ≡ self.old.words.ghost_name }
    {
        let n = count_of(self.held, kind);
        self.push_row(kind, row);
        if let Some(d) = to {
            self.push_pair(kind, d, n as u32);
        }
    }

    pub fn push_finding(&mut self, x: Noted)
        requires { self.old.held.counts.findings < MOST_FINDINGS }
        ensures finding { FindingPushed self.old.words.now self.old.held x self.new.words.now self.new.held }
        ensures lent { self.new.words.ghost_name ≡ self.old.words.ghost_name }
    {
        let n = self.held.counts.findings;
        model::put_finding(&mut self.words[layout::FINDINGS..layout::KINDS], n, x);
        self.held.counts.findings = n + 1;
    }

    // What a check found: nothing or one finding.
    pub fn push_found(&mut self, x: Option<Noted>)
        requires { self.old.held.counts.findings < MOST_FINDINGS }
        ensures found { Reported (if_found x) self.old.words.now self.old.held self.new.words.now self.new.held }
        ensures lent { self.new.words.ghost_name ≡ self.old.words.ghost_name }
    {
        if let Some(found) = x {
            self.push_finding(found);
        }
    }

    // A step closed: the next one has the next number.
    pub fn keep_step(&mut self)
        requires { (self.old.held.counts.here < MOST_KINDS) × (self.old.held.counts.blocks < 100000) × (self.old.held.counts.counter < 100000) }
        ensures kept { BlockKept self.old.words.now self.old.held 1 (self.old.held.counts.counter + 1) self.new.words.now self.new.held }
        ensures lent { self.new.words.ghost_name ≡ self.old.words.ghost_name }
    {
        let mut c = self.held.counts;
        let n = c.here;
        let kinds = &mut self.words[layout::KINDS..layout::STATE_WORDS];
        model::put_kind(kinds, n, true);
        c.here = n + 1;
        c.blocks += 1;
        c.counter += 1;
        self.held = model::closed(self.held, self.held.named, c);
    }

    // A text block closed.
    pub fn keep_text(&mut self)
        requires { (self.old.held.counts.here < MOST_KINDS) × (self.old.held.counts.blocks < 100000) }
        ensures kept { BlockKept self.old.words.now self.old.held 0 self.old.held.counts.counter self.new.words.now self.new.held }
        ensures lent { self.new.words.ghost_name ≡ self.old.words.ghost_name }
    {
        let mut c = self.held.counts;
        let n = c.here;
        let kinds = &mut self.words[layout::KINDS..layout::STATE_WORDS];
        model::put_kind(kinds, n, false);
        c.here = n + 1;
        c.blocks += 1;
        self.held = model::closed(self.held, self.held.named, c);
    }
}

// A section closed, which counts unless it has neither name nor block; and the next one.
pub fn begin_section(h: Held, named: bool) -> Held
    requires { h.counts.sections < 100000 }
    ensures { SectionBegun h named result }
{
    let mut c = h.counts;
    let here = c.here;
    c.counter = 1;
    c.here = 0;
    if h.named || 0 < here {
        c.sections += 1;
    }
    model::closed(h, named, c)
}

// Whether a limit is passed.
fn over_limits(h: Held) -> bool
    ensures { OverLimits h result }
{
    if 512 < h.counts.ingredients {
        return true;
    }
    if 256 < h.counts.cookware {
        return true;
    }
    if 256 < h.counts.timers {
        return true;
    }
    if 128 < h.counts.sections {
        return true;
    }
    if 1024 < h.counts.blocks {
        return true;
    }
    if 4096 < h.counts.items {
        return true;
    }
    if 512 < h.counts.inline {
        return true;
    }
    1024 < h.counts.findings
}

// What is refused after a line: 17 where a limit is passed.
pub fn check_limits(h: Held) -> Result<(), Reason>
    ensures { LimitsChecked h result }
{
    if over_limits(h) {
        return Err(Reason::OverLimits);
    }
    Ok(())
}

// Whether a block is open.
pub fn is_open(b: Open) -> bool
    ensures { result ≡ is_open_block b }
{
    !matches!(b, Open::Nothing)
}

// What the end refuses: 19 where a block is open, 17 where the last section or finding 3 passes a limit.
pub fn check_end(h: Held) -> Result<(), Reason>
    requires { (h.counts.sections < 100000) × (h.counts.findings < 100000) }
    ensures { EndChecked h result }
{
    if is_open(h.block) {
        return Err(Reason::OpenAtEnd);
    }
    let mut g = begin_section(h, false);
    if h.counts.old == 0 {
        return check_limits(g);
    }
    g.counts.findings = h.counts.findings + 1;
    check_limits(g)
}
