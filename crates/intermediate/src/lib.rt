// An intermediate reference of an ingredient: the refusals 15 and 16, the step or section that it is to, the findings 7 to 9,
// and the relation that it gives.
#![tactic(auto)]

ghost use Rattle.std.specs.Prelude.{◌≡◌};
ghost use Rattle.rules.specs.Checks.{intermediate_findings};
ghost use Rattle.components.specs.Views.{intermediate_in};
ghost use Rattle.model.specs.Rows.{if_found};
ghost use Rattle.intermediate.specs.Intermediates.{Faulted, ModifiersReported, Resolved, Related};

use components::{Intermediate, Modifiers, Target};
use memory::Stored;
use model::{Noted, Relation, RelationRecord};
use parts::Span;
use refusals::Reason;

// 15 without REF, 16 a negative value.
pub fn check_intermediate(reference: bool, i: Option<Intermediate>) -> Result<(), Reason>
    ensures { Faulted reference i result }
{
    match i {
        None => Ok(()),
        Some(v) => {
            if !reference {
                return Err(Reason::NotMarked);
            }
            if v.value.negative {
                return Err(Reason::Negative);
            }
            Ok(())
        }
    }
}

// 7
pub fn intermediate_modifiers(m: Modifiers, at: Span) -> Option<Noted>
    ensures { ModifiersReported m at result }
{
    if m.recipe || m.hidden || m.new {
        return Some(reference_findings::one_span(7, at, false));
    }
    None
}

// The index of the step or section that is referred to.
pub fn intermediate_target(stored: &Stored, i: Intermediate) -> Option<u32>
    ensures { Resolved i stored.now.words.now stored.now.held result }
{
    let relative = i.relative;
    let value = i.value.size;
    let target = i.target;
    match target {
        Target::Step => stored.step_target(relative, value),
        Target::Section => {
            let n = stored.held.counts.sections;
            model::section_target(n, relative, value)
        }
    }
}

// 8 and 9
pub fn intermediate_findings(i: Intermediate, target: Option<u32>) -> Option<Noted>
    ensures { if_found result ≡ intermediate_findings (intermediate_in i) target }
{
    if target.is_some() {
        return None;
    }
    let code = if i.value.size == 0 { 8 } else { 9 };
    Some(reference_findings::one_span(code, i.span, false))
}

// The relation of an ingredient with an intermediate reference.
pub fn intermediate_relation(i: Intermediate, in_step: bool, target: Option<u32>) -> RelationRecord
    ensures { Related i in_step target result }
{
    match target {
        None => {
            RelationRecord {
                relation: Relation::Definition,
                in_step,
                index: 0,
            }
        }
        Some(index) => {
            let t = i.target;
            match t {
                Target::Step => {
                    RelationRecord {
                        relation: Relation::Reference(model::Target::Step),
                        in_step,
                        index,
                    }
                }
                Target::Section => {
                    RelationRecord {
                        relation: Relation::Reference(model::Target::Section),
                        in_step,
                        index,
                    }
                }
            }
        }
    }
}
