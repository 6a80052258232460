// The findings 10 to 14 of a new component, in the order in which they come: NEW with REF, redundant NEW, redundant REF,
// modifiers that its definition does not hand down, a definition that is not there.
#![tactic(auto)]

ghost use Rattle.std.specs.Prelude.{◌≡◌, [], ◌∷◌, ◌+◌, ◌<◌};
ghost use Rattle.rules.specs.Finding.{diag};
ghost use Rattle.rules.specs.Model.{both, any_beyond, with_ref, inherits};
ghost use Rattle.parts.specs.Views.{span_in};
ghost use Rattle.components.specs.Views.{modifiers_in};
ghost use Rattle.model.specs.Rows.{finding_of};
ghost use Rattle.reference_findings.specs.Reports.{RedundantNew, RedundantRef, ConflictOrMissing, ReferenceReported};
ghost use Rattle.model.specs.Kinds.{kind_of};
ghost use Rattle.model.specs.declared.layout.TheConstants.{MOST_FINDINGS};

use components::Modifiers;
use memory::Memory;
use model::{Kind, Noted};
use parts::Span;
use sheet::{Define, Duplicate};

// A finding with one span.
pub fn one_span(code: u32, s: Span, implicit: bool) -> Noted
    ensures { finding_of result ≡ diag code (span_in s ∷ []) implicit }
{
    model::one_span(code, s.start, s.end, implicit)
}

// ---- modifiers

// The modifiers that a definition hands down.
pub fn handed_down(kind: Kind, d: Modifiers) -> Modifiers
    ensures { modifiers_in result ≡ both (modifiers_in d) (inherits (kind_of kind)) }
{
    let recipe = match kind {
        Kind::Ingredient => d.recipe,
        Kind::Cookware => false,
    };
    Modifiers {
        recipe,
        reference: false,
        hidden: d.hidden,
        opt: d.opt,
        new: false,
    }
}

// Whether some of `a` but REF is not in `b`.
#[tactic(auto, using(rules::proofs::Basics::and_false), unfolding(rules::specs::Model::any_beyond, rules::specs::Model::with_ref, components::specs::Views::modifiers_in))]
fn any_beyond(a: Modifiers, b: Modifiers) -> bool
    ensures { result ≡ any_beyond (modifiers_in a) (with_ref (modifiers_in b)) }
{
    (a.recipe && !b.recipe) || (a.hidden && !b.hidden) || (a.opt && !b.opt) || (a.new && !b.new)
}

// ---- the findings

// 11: never in steps mode; else with `[duplicate] new`, or where the name is new.
fn redundant_new(define: Define, duplicate: Duplicate, is_found: bool, at: Span) -> Option<Noted>
    ensures { RedundantNew define duplicate is_found at result }
{
    if lookup::is_steps(define) || (lookup::is_reference(duplicate) && is_found) {
        return None;
    }
    Some(one_span(11, at, false))
}

// 12
fn redundant_ref(define: Define, duplicate: Duplicate, explicit: bool, at: Span) -> Option<Noted>
    ensures { RedundantRef define duplicate explicit at result }
{
    if explicit && (lookup::is_reference(duplicate) || lookup::is_steps(define)) {
        return Some(one_span(12, at, false));
    }
    None
}

// 13 and 14
fn conflict_or_missing(
    kind: Kind,
    m: Modifiers,
    span: Span,
    at: Span,
    old: Option<Modifiers>,
) -> Option<Noted>
    ensures { ConflictOrMissing (kind_of kind) m span at old result }
{
    let implicit = !m.reference;
    match old {
        None => Some(one_span(14, span, implicit)),
        Some(d) => {
            let b = handed_down(kind, d);
            if any_beyond(m, b) {
                return Some(one_span(13, at, implicit));
            }
            None
        }
    }
}

// What is found at a new component with the modifiers `m`, of the span `span`, its modifiers at `at`.
pub fn reference_findings(
    memory: &mut Memory,
    kind: Kind,
    m: Modifiers,
    span: Span,
    at: Span,
    old: Option<Modifiers>,
)
    requires { memory.old.held.counts.findings + 1 < MOST_FINDINGS }
    ensures done { ReferenceReported (kind_of kind) m span at old memory.old.words.now memory.old.held memory.new.words.now memory.new.held }
    ensures lent { memory.new.words.ghost_name ≡ memory.old.words.ghost_name }
{
    let define = memory.held.define;
    let duplicate = memory.held.duplicate;
    let is_found = old.is_some();
    let explicit = m.reference;
    if m.new {
        if explicit {
            memory.push_finding(one_span(10, at, false));
            return;
        }
        let found = redundant_new(define, duplicate, is_found, at);
        memory.push_found(found);
        return;
    }
    let found = redundant_ref(define, duplicate, explicit, at);
    memory.push_found(found);
    if lookup::treat_as_reference(define, duplicate, explicit, is_found) {
        let found = conflict_or_missing(kind, m, span, at, old);
        memory.push_found(found);
    }
}
