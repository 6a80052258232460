// The row of a new component, and the modifiers that it has where it refers to a definition.
#![tactic(auto)]

ghost use Rattle.std.specs.Prelude.{◌≡◌, ◌||◌};
ghost use Rattle.rules.specs.Model.{either, both, with_ref, inherits};
ghost use Rattle.components.specs.Views.{modifiers_in};
ghost use Rattle.new_rows.specs.Rows.{RowMade};
ghost use Rattle.model.specs.Rows as rows;
ghost use Rattle.model.specs.Kinds.{kind_of};

use components::Modifiers;
use model::{Kind, RelationRecord, Row};

fn joined(a: bool, b: bool) -> bool
    ensures { result ≡ (a || b) }
{
    a || b
}

// REF, its own modifiers `m`, and those that the definition's `d` hand down.
pub fn referring_modifiers(kind: Kind, m: Modifiers, d: Modifiers) -> Modifiers
    ensures { modifiers_in result ≡ with_ref (either (modifiers_in m) (both (modifiers_in d) (inherits (kind_of kind)))) }
{
    let b = reference_findings::handed_down(kind, d);
    let recipe = joined(m.recipe, b.recipe);
    let hidden = joined(m.hidden, b.hidden);
    let opt = joined(m.opt, b.opt);
    let new = joined(m.new, b.new);
    Modifiers {
        recipe,
        reference: true,
        hidden,
        opt,
        new,
    }
}

// The modifiers that a row has.
pub fn modifiers_of(r: Row) -> Modifiers
    ensures { modifiers_in result ≡ rows.modifiers_in r }
{
    Modifiers {
        recipe: r.recipe,
        reference: r.reference,
        hidden: r.hidden,
        opt: r.opt,
        new: r.new,
    }
}

// The row of the component of a line, its name at `name_at` to `name_end`.
pub fn new_row(
    line_at: u32,
    line_end: u32,
    name_at: u32,
    name_end: u32,
    m: Modifiers,
    relation: RelationRecord,
) -> Row
    ensures { RowMade line_at line_end name_at name_end m relation result }
{
    Row {
        line_at,
        line_end,
        name_at,
        name_end,
        recipe: m.recipe,
        reference: m.reference,
        hidden: m.hidden,
        opt: m.opt,
        new: m.new,
        relation,
    }
}
