// The state that a second walk over an accepted sheet carries: what the bytes of the page that work memory does not hold
// depend on. specs/Drawn.antt says what each line adds to them.
#![tactic(auto)]

ghost use Rattle.std.specs.Prelude.{◌≡◌, ◌+◌, ◌≤◌};
ghost use Rattle.parts.specs.Views.{TextWithin};
ghost use Rattle.events.specs.Views.{BetweenWithin, EventWithin};
ghost use Rattle.following.specs.Drawn.{keeps, opens_as, first_follow};
ghost use Rattle.following.specs.Follow.{word_meta, meta_follow, section_follow, start_follow, close_follow, counter_after, with_inline, Room, MetaRead, BetweenFollowed, EventFollowed, ComponentCounted, InsideFollowed, Followed};
ghost use Rattle.following.specs.Checked.{define_answer};
ghost use Rattle.rules.specs.Modes.{is_components};
ghost use Rattle.sheet.specs.Words.{block_in, define_of};

use events::{Between, ComponentEvent, EventView, Inside};
use model::Open;
use parts::TextView;
use refusals::Reason;
use sheet::{BlockKind, Define};

// The parts of the page that are drawn by a second walk: sections with their blocks and items; timers; inline
// quantities; the spans of finding 3.
#[derive(Clone, Copy)]
pub enum Part {
    Sections,
    Timers,
    Inline,
    Old,
}

// `shown`: the current section has its line already; `old`: some line counted for finding 3.
#[derive(Clone, Copy)]
pub struct Follow {
    pub define: Define,
    pub block: Open,
    pub shown: bool,
    pub counter: u32,
    pub ingredients: u32,
    pub cookware: u32,
    pub timers: u32,
    pub inline: u32,
    pub old: bool,
}

// What a `meta` line does: it sets the define mode, counts for finding 3, or neither.
#[derive(Clone, Copy)]
pub enum Meta {
    Defines(Define),
    Ordinary,
    Other,
}

pub fn first_follow() -> Follow
    ensures { result ≡ first_follow }
{
    Follow {
        define: Define::All,
        block: Open::Nothing,
        shown: false,
        counter: 1,
        ingredients: 0,
        cookware: 0,
        timers: 0,
        inline: 0,
        old: false,
    }
}

// ---- `meta` lines

fn word_meta(m: Option<Define>) -> Meta
    ensures { result ≡ word_meta m }
{
    match m {
        Some(define) => Meta::Defines(define),
        None => Meta::Other,
    }
}

pub fn meta_of(flags: u32, line: &[u8], key: TextView, value: TextView) -> Meta
    requires { TextWithin line.now key × TextWithin line.now value }
    ensures { MetaRead flags line.now key value result }
{
    let odd = flags % 2;
    if odd == 1 {
        let kp = key.content;
        let vp = value.content;
        let k = parts::part_of(line, kp);
        match config_keys::key_of(k) {
            config_keys::Key::Define => {
                let v = parts::part_of(line, vp);
                let m = config_keys::define_value(v);
                return word_meta(m);
            }
            config_keys::Key::Duplicate => {
                return Meta::Other;
            }
            config_keys::Key::Unknown => {
                return Meta::Other;
            }
            config_keys::Key::Ordinary => {
                return Meta::Ordinary;
            }
        }
    }
    Meta::Ordinary
}

fn after_meta(m: Meta, f: Follow) -> Follow
    ensures { result ≡ meta_follow m f }
{
    match m {
        Meta::Defines(define) => Follow { define, ..f },
        Meta::Ordinary => Follow { old: true, ..f },
        Meta::Other => f,
    }
}

// ---- sections and blocks

fn after_section(named: bool, f: Follow) -> Follow
    ensures { result ≡ section_follow named f }
{
    Follow {
        block: Open::Nothing,
        shown: named,
        counter: 1,
        ..f
    }
}

// Whether such a block is kept at its end.
pub fn keeps_block(d: Define, b: Open) -> bool
    ensures { result ≡ keeps d b }
{
    match b {
        Open::Nothing => false,
        Open::Step => !blocks::is_components(d),
        Open::Text | Open::TextMode => true,
    }
}

// What the plain form refuses of a component in a step: 22 in components mode.
pub fn check_define(define: Define) -> Result<(), Reason>
    ensures { result ≡ define_answer (is_components (define_of define)) }
{
    if blocks::is_components(define) {
        return Err(Reason::InComponentsMode);
    }
    Ok(())
}

// The block that a `start` opens.
pub fn opens_as(d: Define, kind: BlockKind) -> Open
    ensures { result ≡ opens_as d (block_in kind) }
{
    if blocks::is_text(d) {
        return Open::TextMode;
    }
    match kind {
        BlockKind::Step => Open::Step,
        BlockKind::Text => Open::Text,
    }
}

fn after_start(block: Open, f: Follow) -> Follow
    ensures { result ≡ start_follow block f }
{
    let kept = keeps_block(f.define, block);
    Follow {
        block,
        shown: f.shown || kept,
        ..f
    }
}

fn counter_after(b: Open, f: Follow) -> u32
    requires { Room f }
    ensures { result ≡ counter_after b f }
{
    match b {
        Open::Nothing => f.counter,
        Open::Step => {
            let define = f.define;
            if blocks::is_components(define) {
                return f.counter;
            }
            f.counter + 1
        }
        Open::Text => f.counter,
        Open::TextMode => f.counter,
    }
}

fn with_closed(counter: u32, f: Follow) -> Follow
    ensures { result ≡ close_follow counter f }
{
    Follow {
        block: Open::Nothing,
        counter,
        ..f
    }
}

// ---- lines

fn count_component(c: ComponentEvent, mut f: Follow) -> Follow
    requires { Room f }
    ensures { ComponentCounted c f result }
{
    match c {
        ComponentEvent::Ingredient(v, i) => {
            f.ingredients += 1;
            f
        }
        ComponentEvent::Cookware(v) => {
            f.cookware += 1;
            f
        }
        ComponentEvent::Timer(s, n, q) => {
            f.timers += 1;
            f
        }
    }
}

fn after_inside(i: Inside, f: Follow) -> Follow
    requires { Room f }
    ensures { InsideFollowed i f result }
{
    let b = f.block;
    match i {
        Inside::End(kind) => {
            let n = counter_after(b, f);
            with_closed(n, f)
        }
        Inside::Text(t) => f,
        Inside::Component(c) => match b {
            Open::Nothing => f,
            Open::Step => count_component(c, f),
            Open::Text => f,
            Open::TextMode => f,
        },
    }
}

fn after_between(flags: u32, line: &[u8], b: Between, f: Follow) -> Follow
    requires { BetweenWithin line.now b }
    ensures { BetweenFollowed flags line.now b f result }
{
    match b {
        Between::Meta(key, value) => {
            let m = meta_of(flags, line, key, value);
            after_meta(m, f)
        }
        Between::Section(name) => {
            let named = name.is_some();
            after_section(named, f)
        }
        Between::Start(kind) => {
            let o = opens_as(f.define, kind);
            after_start(o, f)
        }
    }
}

fn after_event(flags: u32, line: &[u8], e: EventView, f: Follow) -> Follow
    requires { EventWithin line.now e × Room f }
    ensures { EventFollowed flags line.now e f result }
{
    match e {
        EventView::Between(b) => after_between(flags, line, b, f),
        EventView::Inside(i) => after_inside(i, f),
        EventView::Finding(s, n) => f,
    }
}

fn with_inline(n: u32, mut f: Follow) -> Follow
    ensures { result ≡ with_inline n f }
{
    f.inline = n;
    f
}

// The state after a line that adds so many inline quantities.
pub fn follow_event(flags: u32, line: &[u8], e: EventView, f: Follow, inline: u32) -> Follow
    requires { EventWithin line.now e × Room f × (f.inline + inline ≤ 100000) }
    ensures { Followed flags line.now e inline f result }
{
    let n = f.inline + inline;
    let r = after_event(flags, line, e, f);
    with_inline(n, r)
}
