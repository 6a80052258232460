// The ingredients and the cookware of a recipe, lent as records.
#![tactic(auto)]

ghost use Rattle.std.specs.Prelude.{◌≡◌, length};
ghost use Rattle.rules.specs.Input.{input_of};
ghost use Rattle.inputs.specs.Inputs.{GoodInputs};
ghost use Rattle.component_records.specs.Tables.{room_for};
ghost use Rattle.recipe_components.specs.Components.{ComponentsLeft};
ghost use Rattle.recipe_components.specs.Tables.{ingredients_of, cookware_of, room_of, counts_or20, RowsCollected};

use component_records::Component;
use memory::Stored;
use model::layout;
use reading::ReadSheet;
use refusals::{Reason, Refusal};
use unit_index::UnitList;

// How many ingredients, pieces of cookware, and pairs of each kind a recipe has.
#[derive(Clone, Copy)]
pub struct ComponentCounts {
    pub ingredients: usize,
    pub cookware: usize,
    pub ingredient_pairs: usize,
    pub cookware_pairs: usize,
}

// What is lent: how many records of each kind, and how many words for its pairs, two a pair.
#[derive(Clone, Copy)]
struct Lent {
    ingredients: usize,
    ingredient_pairs: usize,
    cookware: usize,
    cookware_pairs: usize,
}

// The counts of a recipe; `None`: an `error` line, there is no recipe; or a refusal.
pub type Components = Result<Option<ComponentCounts>, Refusal>;

// An answer without rows.
const NO_ROWS: ComponentCounts = ComponentCounts {
    ingredients: 0,
    cookware: 0,
    ingredient_pairs: 0,
    cookware_pairs: 0,
};

// The counts that an answer has, or none.
fn counts_of(r: Components) -> ComponentCounts
    ensures { (result.ingredients ≡ ingredients_of r) × (result.cookware ≡ cookware_of r) }
{
    match r {
        Ok(Some(counts)) => counts,
        Ok(None) => NO_ROWS,
        Err(_) => NO_ROWS,
    }
}

// ---- rows

// The counts of a recipe, or 20 where some of it does not fit.
fn recipe_counts(stored: &Stored, room: Lent) -> Components
    ensures { result ≡ counts_or20 stored.now.words.now stored.now.held (room_for room.ingredients room.ingredient_pairs) (room_for room.cookware room.cookware_pairs) }
{
    let h = stored.held;
    let i = component_records::own_references(
        stored.words,
        layout::INGREDIENTS,
        h.counts.ingredients,
    );
    let c = component_records::own_references(stored.words, layout::COOKWARE, h.counts.cookware);
    if component_records::table_fits(
        h.counts.ingredients,
        i,
        room.ingredients,
        room.ingredient_pairs,
    ) {
        if component_records::table_fits(h.counts.cookware, c, room.cookware, room.cookware_pairs) {
            return Ok(Some(ComponentCounts {
                ingredients: h.counts.ingredients,
                cookware: h.counts.cookware,
                ingredient_pairs: i,
                cookware_pairs: c,
            }));
        }
    }
    Err(Refusal {
        reason: Reason::NoRoom,
        line: 0,
    })
}

// The pass; its rows stay in the words.
fn pass_rows(
    sheet: &ReadSheet,
    units: &UnitList,
    flags: u32,
    words: &mut [u32],
    room: Lent,
) -> Components
    requires { GoodInputs (input_of sheet.now.bytes.now sheet.now.text.now units.now.lines.now flags) (length words.old) 65536 }
    ensures { RowsCollected (input_of sheet.now.bytes.now sheet.now.text.now units.now.lines.now flags) (room_of (length words.old) room.ingredients room.ingredient_pairs room.cookware room.cookware_pairs) words.new result }
{
    match pass::run(sheet, units, flags, words)? {
        Some(held) => {
            let stored = Stored { words, held };
            recipe_counts(&stored, room)
        }
        None => Ok(None),
    }
}

// The answer, for what is lent. The rows of the recipe stay in the words.
fn collect_rows(
    sheet: &[u8],
    text: &[u8],
    units: &[u8],
    flags: u32,
    words: &mut [u32],
    room: Lent,
) -> Components
    ensures { RowsCollected (input_of sheet.now text.now units.now flags) (room_of (length words.old) room.ingredients room.ingredient_pairs room.cookware room.cookware_pairs) words.new result }
{
    let mut index = [0u32; 2305];
    inputs::check_inputs(
        sheet,
        text,
        units,
        &mut index,
        flags,
        words.len(),
        inputs::BYTES,
    )?;
    let read = ReadSheet { bytes: sheet, text };
    let list = UnitList {
        lines: units,
        words: &index,
    };
    pass_rows(&read, &list, flags, words, room)
}

// ---- records

// The ingredients and the cookware of a sheet, with its text, its units and flags, as records: the oldest first, and after
// them empty ones; and the pairs of a definition and its referrer, two words a pair, and after them zeros. Or a refusal,
// 20 where something that is lent is too short, and then all is empty.
pub fn collect_components(
    sheet: &[u8],
    text: &[u8],
    units: &[u8],
    flags: u32,
    words: &mut [u32],
    ingredients: &mut [Component],
    ingredient_pairs: &mut [u32],
    cookware: &mut [Component],
    cookware_pairs: &mut [u32],
) -> Components
    ensures { ComponentsLeft (input_of sheet.now text.now units.now flags)
        (room_of (length words.old) (length ingredients.old) (length ingredient_pairs.old) (length cookware.old) (length cookware_pairs.old))
        words.new ingredients.new ingredient_pairs.new cookware.new cookware_pairs.new result }
{
    let room = Lent {
        ingredients: ingredients.len(),
        ingredient_pairs: ingredient_pairs.len(),
        cookware: cookware.len(),
        cookware_pairs: cookware_pairs.len(),
    };
    let r = collect_rows(sheet, text, units, flags, words, room);
    let counts = counts_of(r);
    component_records::lend_tables(
        words,
        counts.ingredients,
        counts.cookware,
        ingredients,
        ingredient_pairs,
        cookware,
        cookware_pairs,
    );
    clearing::clear_words(words);
    r
}
