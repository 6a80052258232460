// Lines that begin and end sections and blocks, texts and components outside steps, and the parser's findings.
// The functions stand for the rules' of the same lines; work memory keeps no texts.
#![tactic(auto)]

ghost use Rattle.std.specs.Prelude.{◌≡◌, [], ◌∷◌, ◌+◌, ◌<◌, ◌≤◌};
ghost use Rattle.rules.specs.Basic.{pick};
ghost use Rattle.rules.specs.Finding.{parsed};
ghost use Rattle.rules.specs.Modes.{is_components, is_text};
ghost use Rattle.rules.specs.State.{report};
ghost use Rattle.rules.specs.Pass.{close_step, close_text};
ghost use Rattle.events.specs.Views.{severity_in};
ghost use Rattle.blocks.specs.Lined.{Told, Went, left, start_block, kind_open, OpenNow, SectionDone, ItemsPushed, SpanOf, InTextBlock, InTextMode, StepEnded, ComponentInText};
ghost use Rattle.sheet.specs.Words.{define_of};
ghost use Rattle.model.specs.declared.layout.TheConstants.{MOST_FINDINGS, MOST_KINDS};

use events::{ComponentEvent, Inside, Severity};
use memory::Memory;
use model::{Held, Open};
use parts::{Span, TextView};
use refusals::Reason;
use sheet::{BlockKind, Define};

pub fn is_open(h: Held) -> bool
    ensures { OpenNow h result }
{
    memory::is_open(h.block)
}

#[tactic(auto, unfolding(rules::specs::Modes::is_components, sheet::specs::Words::define_of))]
pub fn is_components(d: Define) -> bool
    ensures { result ≡ is_components (define_of d) }
{
    matches!(d, Define::Components)
}

// The block that a `start` opens outside text mode.
fn block_of(kind: BlockKind) -> Open
    ensures { result ≡ kind_open kind }
{
    match kind {
        BlockKind::Step => Open::Step,
        BlockKind::Text => Open::Text,
    }
}

#[tactic(auto, unfolding(rules::specs::Modes::is_text, sheet::specs::Words::define_of))]
pub fn is_text(d: Define) -> bool
    ensures { result ≡ is_text (define_of d) }
{
    matches!(d, Define::Text)
}

pub fn on_start(h: Held, kind: BlockKind) -> Held
    ensures { Told (start_block kind) h result }
{
    let define = h.define;
    if is_text(define) {
        return model::with_block(h, Open::TextMode);
    }
    let block = block_of(kind);
    model::with_block(h, block)
}

pub fn on_section(h: Held, name: Option<TextView>) -> Held
    requires { h.counts.sections < 100000 }
    ensures { SectionDone name h result }
{
    let named = name.is_some();
    memory::begin_section(h, named)
}

// An `error` or `warning` of the parser.
pub fn on_finding(memory: &mut Memory, severity: Severity, number: u32)
    requires { memory.old.held.counts.findings < MOST_FINDINGS }
    ensures done { Went (report (parsed (severity_in severity) number ∷ [])) memory.old.words.now memory.old.held memory.new.words.now memory.new.held }
    ensures lent { memory.new.words.ghost_name ≡ memory.old.words.ghost_name }
{
    let x = model::of_parser(matches!(severity, Severity::Severe), number);
    memory.push_finding(x);
}

// The number of items, of which `more` are there with a step's new ones; those of components mode do not count.
fn items_after(d: Define, items: usize, more: usize) -> usize
    ensures { result ≡ pick (is_components (define_of d)) items more }
{
    if is_components(d) { items } else { more }
}

// The items of a step.
pub fn push_items(mut h: Held, n: usize) -> Held
    requires { h.counts.items + n ≤ 100000 }
    ensures { ItemsPushed n h result }
{
    let more = h.counts.items + n;
    h.counts.items = items_after(h.define, h.counts.items, more);
    model::with_block(h, Open::Step)
}

// A step closed: components mode drops it.
fn close_step(memory: &mut Memory)
    requires { (memory.old.held.counts.here < MOST_KINDS) × (memory.old.held.counts.blocks < 100000) × (memory.old.held.counts.counter < 100000) }
    ensures done { Went (close_step []) memory.old.words.now memory.old.held memory.new.words.now memory.new.held }
    ensures lent { memory.new.words.ghost_name ≡ memory.old.words.ghost_name }
{
    if is_components(memory.held.define) {
        memory.held = model::with_block(memory.held, Open::Nothing);
    } else {
        memory.keep_step();
    }
}

pub fn end_step(memory: &mut Memory, kind: BlockKind) -> Result<(), Reason>
    requires { (memory.old.held.counts.here < MOST_KINDS) × (memory.old.held.counts.blocks < 100000) × (memory.old.held.counts.counter < 100000) }
    ensures done { StepEnded kind memory.old.words.now memory.old.held memory.new.words.now (left memory.new.held result) }
    ensures lent { memory.new.words.ghost_name ≡ memory.old.words.ghost_name }
{
    match kind {
        BlockKind::Step => {
            close_step(memory);
            Ok(())
        }
        BlockKind::Text => Err(Reason::OtherEnd),
    }
}

fn close_text(memory: &mut Memory)
    requires { (memory.old.held.counts.here < MOST_KINDS) × (memory.old.held.counts.blocks < 100000) }
    ensures done { Went (close_text []) memory.old.words.now memory.old.held memory.new.words.now memory.new.held }
    ensures lent { memory.new.words.ghost_name ≡ memory.old.words.ghost_name }
{
    memory.keep_text();
}

pub fn in_text_block(memory: &mut Memory, e: Inside) -> Result<(), Reason>
    requires { (memory.old.held.counts.here < MOST_KINDS) × (memory.old.held.counts.blocks < 100000) }
    ensures done { InTextBlock e memory.old.words.now memory.old.held memory.new.words.now (left memory.new.held result) }
    ensures lent { memory.new.words.ghost_name ≡ memory.old.words.ghost_name }
{
    match e {
        Inside::End(kind) => match kind {
            BlockKind::Step => Err(Reason::OtherEnd),
            BlockKind::Text => {
                close_text(memory);
                Ok(())
            }
        },
        Inside::Text(t) => {
            memory.held = model::with_block(memory.held, Open::Text);
            Ok(())
        }
        Inside::Component(c) => Err(Reason::ComponentInText),
    }
}

// The span of a whole component.
pub fn component_span(c: ComponentEvent) -> Span
    ensures { SpanOf c result }
{
    match c {
        ComponentEvent::Ingredient(v, i) => v.span,
        ComponentEvent::Cookware(v) => v.span,
        ComponentEvent::Timer(s, n, q) => s,
    }
}

// 5, component in text mode.
fn component_in_text(memory: &mut Memory, c: ComponentEvent)
    requires { memory.old.held.counts.findings < MOST_FINDINGS }
    ensures done { ComponentInText c memory.old.words.now memory.old.held memory.new.words.now memory.new.held }
    ensures lent { memory.new.words.ghost_name ≡ memory.old.words.ghost_name }
{
    let s = component_span(c);
    let x = model::one_span(5, s.start, s.end, false);
    memory.held = model::with_block(memory.held, Open::TextMode);
    memory.push_finding(x);
}

pub fn in_text_mode(memory: &mut Memory, e: Inside) -> Result<(), Reason>
    requires { (memory.old.held.counts.here < MOST_KINDS) × (memory.old.held.counts.blocks < 100000) × (memory.old.held.counts.findings < MOST_FINDINGS) }
    ensures done { InTextMode e memory.old.words.now memory.old.held memory.new.words.now (left memory.new.held result) }
    ensures lent { memory.new.words.ghost_name ≡ memory.old.words.ghost_name }
{
    match e {
        Inside::End(kind) => {
            close_text(memory);
            Ok(())
        }
        Inside::Text(t) => {
            memory.held = model::with_block(memory.held, Open::TextMode);
            Ok(())
        }
        Inside::Component(c) => {
            component_in_text(memory, c);
            Ok(())
        }
    }
}
