// The components of a line and their intermediate references as views. All readers take any bytes and any position.
#![tactic(auto)]

ghost use Rattle.std.specs.Prelude.{◌≡◌, drop};
ghost use Rattle.rules.specs.Read.{leads, modifier_letters, modifiers_of, word, read_modifiers};
ghost use Rattle.rules.specs.Basic.{on_some, word_in};
ghost use Rattle.rules.specs.Words.{references, targets};
ghost use Rattle.rules.specs.Sheet.{signed_of};
ghost use Rattle.parts.specs.Got.{BareRead, itself};
ghost use Rattle.components.specs.Views.{Skips, modifiers_in, signed_in, target_in};
ghost use Rattle.components.specs.Got.{ComponentRead, SignedRead, IntermediateRead, OptIntermediateRead};

#[derive(Clone, Copy)]
pub struct Modifiers {
    pub recipe: bool,
    pub reference: bool,
    pub hidden: bool,
    pub opt: bool,
    pub new: bool,
}

#[derive(Clone, Copy)]
pub struct ComponentView {
    pub span: parts::Span,
    pub name: parts::TextView,
    pub alias: Option<parts::TextView>,
    pub quantity: Option<parts::QuantityView>,
    pub note: Option<parts::TextView>,
    pub modifiers: Modifiers,
    pub modifiers_span: parts::Span,
}

#[derive(Clone, Copy)]
pub struct SignedView {
    pub negative: bool,
    pub size: u32,
}

#[derive(Clone, Copy)]
pub enum Target {
    Step,
    Section,
}

#[derive(Clone, Copy)]
pub struct Intermediate {
    pub relative: bool,
    pub target: Target,
    pub value: SignedView,
    pub span: parts::Span,
}

// Whether the letter c stands at a place.
fn is_letter(f: &[u8], at: usize, c: u8) -> bool
    ensures { result ≡ leads c (drop at f.now) }
{
    at < f.len() && f[at] == c
}

// The place after the letter c, if it stands there.
fn after_letter(f: &[u8], at: usize, c: u8) -> usize
    ensures { Skips f.now c at result }
{
    if f.len() <= at {
        return at;
    }
    if f[at] == c {
        return at + 1;
    }
    at
}

// The letters `@&-?+`, each at most once and in this order.
fn letters_of(f: &[u8]) -> Option<Modifiers>
    ensures { on_some modifiers_in result ≡ modifier_letters f.now }
{
    let recipe = is_letter(f, 0, b'@');
    let a1 = after_letter(f, 0, b'@');
    let reference = is_letter(f, a1, b'&');
    let a2 = after_letter(f, a1, b'&');
    let hidden = is_letter(f, a2, b'-');
    let a3 = after_letter(f, a2, b'-');
    let opt = is_letter(f, a3, b'?');
    let a4 = after_letter(f, a3, b'?');
    let new = is_letter(f, a4, b'+');
    let a5 = after_letter(f, a4, b'+');
    if a5 < f.len() {
        return None;
    }
    Some(Modifiers {
        recipe,
        reference,
        hidden,
        opt,
        new,
    })
}

fn modifiers_of(f: &[u8]) -> Option<Modifiers>
    ensures { on_some modifiers_in result ≡ modifiers_of f.now }
{
    if f.len() == 0 {
        return None;
    }
    if sheet::same_bytes(f, b".") {
        return Some(Modifiers {
            recipe: false,
            reference: false,
            hidden: false,
            opt: false,
            new: false,
        });
    }
    letters_of(f)
}

fn read_modifiers(line: &[u8], at: usize) -> Option<(Modifiers, usize)>
    ensures { BareRead modifiers_in read_modifiers line.now at result }
{
    parts::read_word(line, at, modifiers_of)
}

#[tactic(auto, using(parts::proofs::Sequence::goes_on), unfolding(rules::specs::Read::read_component, rules::specs::Read::go_on, parts::specs::Got::got_as, parts::specs::Got::IfGot, parts::specs::Got::IfWhole))]
pub fn read_component(line: &[u8], at: usize) -> Option<(ComponentView, usize)>
    ensures { ComponentRead line.now at result }
{
    let (span, a1) = parts::read_span(line, at)?;
    let (name, a2) = parts::read_text(line, a1)?;
    let (alias, a3) = parts::read_opt_text(line, a2)?;
    let (quantity, a4) = parts::read_opt_quantity(line, a3)?;
    let (note, a5) = parts::read_opt_text(line, a4)?;
    let (modifiers, a6) = read_modifiers(line, a5)?;
    let (modifiers_span, a7) = parts::read_span(line, a6)?;
    Some((
        ComponentView {
            span,
            name,
            alias,
            quantity,
            note,
            modifiers,
            modifiers_span,
        },
        a7,
    ))
}

fn value_of(f: &[u8]) -> Option<SignedView>
    ensures { on_some signed_in result ≡ signed_of f.now }
{
    let signed = sheet::read_signed(f)?;
    match signed {
        sheet::Signed::Plus(k) => Some(SignedView {
            negative: false,
            size: k,
        }),
        sheet::Signed::Minus(k) => Some(SignedView {
            negative: true,
            size: k,
        }),
    }
}

fn read_value(line: &[u8], at: usize) -> Option<(SignedView, usize)>
    ensures { SignedRead line.now at result }
{
    parts::read_word(line, at, value_of)
}

// How an intermediate is counted: `n`, from the start, or `r`, relative.
#[tactic(auto, unfolding(rules::specs::Basic::word_in))]
fn reference_of(f: &[u8]) -> Option<bool>
    ensures { result ≡ word_in f.now references }
{
    if sheet::same_bytes(f, b"n") {
        return Some(false);
    }
    if sheet::same_bytes(f, b"r") {
        return Some(true);
    }
    None
}

fn read_reference(line: &[u8], at: usize) -> Option<(bool, usize)>
    ensures { BareRead itself (word references) line.now at result }
{
    parts::read_word(line, at, reference_of)
}

#[tactic(auto, unfolding(rules::specs::Basic::on_some, rules::specs::Basic::word_in, crate::specs::Views::target_in))]
fn target_of(f: &[u8]) -> Option<Target>
    ensures { on_some target_in result ≡ word_in f.now targets }
{
    if sheet::same_bytes(f, b"step") {
        return Some(Target::Step);
    }
    if sheet::same_bytes(f, b"section") {
        return Some(Target::Section);
    }
    None
}

fn read_target(line: &[u8], at: usize) -> Option<(Target, usize)>
    ensures { BareRead target_in (word targets) line.now at result }
{
    parts::read_word(line, at, target_of)
}

#[tactic(auto, using(parts::proofs::Sequence::goes_on), unfolding(rules::specs::Read::read_intermediate, rules::specs::Read::go_on, parts::specs::Got::got_as, parts::specs::Got::IfGot, parts::specs::Got::IfWhole))]
fn read_intermediate(line: &[u8], at: usize) -> Option<(Intermediate, usize)>
    ensures { IntermediateRead line.now at result }
{
    let (relative, a1) = read_reference(line, at)?;
    let (target, a2) = read_target(line, a1)?;
    let (value, a3) = read_value(line, a2)?;
    let (span, a4) = parts::read_span(line, a3)?;
    Some((
        Intermediate {
            relative,
            target,
            value,
            span,
        },
        a4,
    ))
}

pub fn read_opt_intermediate(line: &[u8], at: usize) -> Option<(Option<Intermediate>, usize)>
    ensures { OptIntermediateRead line.now at result }
{
    parts::read_opt(line, at, read_intermediate)
}
