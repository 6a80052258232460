// The `ingredient` and `cookware` lines of a recipe page: each row of work memory with the component of its line, read again.
#![tactic(auto)]

ghost use Rattle.std.specs.Prelude.{◌≡◌, true, [], ◌∷◌, reverse, ◌<◌};
ghost use Rattle.rules.specs.Basic.{pick, codes, comma, lf, decimal, join_by, each};
ghost use Rattle.rules.specs.Utf8.{encode};
ghost use Rattle.rules.specs.Read.{parse_line};
ghost use Rattle.rules.specs.Model.{ingredient, cookware, is_ingredient, name_of, path_of, reference_in, definition, reference};
ghost use Rattle.rules.specs.Page.{or_minus, target_word, relation_fields, table_lines};
ghost use Rattle.rules.specs.State.{table_of};
ghost use Rattle.rules.specs.Sheet.{Without};
ghost use Rattle.output.specs.Put.{Put, tabbed};
ghost use Rattle.content.specs.Contents.{kept_in};
ghost use Rattle.content.specs.Parts.{Field};
ghost use Rattle.components.specs.Views.{modifiers_in, component_in};
ghost use Rattle.known_events.specs.Fields.{ComponentFields};
ghost use Rattle.model.specs.Rows.{relation_in, entry_in, component_of_line};
ghost use Rattle.model.specs.Memory.{count_of, rows_in, referrers_of, referrers_left, state_in};
ghost use Rattle.model.specs.Fits.{is_of_kind, AllFit};
ghost use Rattle.model.specs.Kinds.{kind_of};
ghost use Rattle.entry_lines.specs.Lines.{kind_word, target_in, entry_line, comma_each, path_fields, own_fields, marked_entry, Placed};

use components::{ComponentView, Modifiers};
use content::NamePlace;
use memory::Stored;
use model::{Kind, Relation, RelationRecord, Target};

// ---- relations

// `ingredient` or `cookware`.
fn put_word(out: &mut [u8], at: usize, kind: Kind) -> usize
    ensures { Put (kind_word (kind_of kind)) out.old at out.new result }
{
    let word: &[u8] = match kind {
        Kind::Ingredient => b"ingredient",
        Kind::Cookware => b"cookware",
    };
    output::put_bytes(out, at, word)
}

fn put_target(out: &mut [u8], at: usize, t: Target, kind: Kind) -> usize
    ensures { Put (tabbed (target_word (target_in (kind_of kind) t) ∷ [])) out.old at out.new result }
{
    match t {
        Target::Ingredient => {
            let n = output::put_byte(out, at, b'\t');
            put_word(out, n, kind)
        }
        Target::Step => output::put_field(out, at, b"step"),
        Target::Section => output::put_field(out, at, b"section"),
    }
}

// `ref`, target, index.
fn put_reference(out: &mut [u8], at: usize, t: Target, index: u32, kind: Kind) -> usize
    ensures { Put (tabbed (relation_fields (reference (target_in (kind_of kind) t) index))) out.old at out.new result }
{
    let a = output::put_field(out, at, b"ref");
    let b = put_target(out, a, t, kind);
    output::put_number(out, b, index)
}

// `step`, or `list` for what is defined in components mode.
fn put_place(out: &mut [u8], at: usize, in_step: bool) -> usize
    ensures { Put (tabbed (pick in_step (codes "step") (codes "list") ∷ [])) out.old at out.new result }
{
    output::put_field(out, at, if in_step { b"step" } else { b"list" })
}

// The referrers of a definition that are left from a place on, oldest first, each after a comma.
fn put_more(
    out: &mut [u8],
    at: usize,
    stored: &Stored,
    kind: Kind,
    definition: usize,
    from: usize,
) -> usize
    requires { definition < count_of (kind_of kind) stored.now.held }
    ensures { Put (comma_each (referrers_left (kind_of kind) stored.now.words.now stored.now.held definition from)) out.old at out.new result }
{
    let mut n = at;
    let mut place = from;
    loop {
        match stored.next_referrer(kind, definition, place) {
            None => {
                if n <= out.len() {
                    return n;
                }
                return out.len() + 1;
            }
            Some((r, next)) => {
                let a = output::put_byte(out, n, b',');
                n = output::put_decimal(out, a, r);
                place = next;
            }
        }
    }
}

// The referrers of a definition by comma, oldest first, or `-`.
fn put_referrers(out: &mut [u8], at: usize, stored: &Stored, kind: Kind, definition: usize) -> usize
    requires { definition < count_of (kind_of kind) stored.now.held }
    ensures { Put (tabbed (or_minus (join_by comma (each decimal (reverse (referrers_of (kind_of kind) stored.now.words.now stored.now.held definition)))) ∷ [])) out.old at out.new result }
{
    let n = output::put_byte(out, at, b'\t');
    let first = stored.first_referrer(kind, definition);
    match stored.next_referrer(kind, definition, first) {
        None => output::put_byte(out, n, b'-'),
        Some((r, next)) => {
            let a = output::put_decimal(out, n, r);
            put_more(out, a, stored, kind, definition, next)
        }
    }
}

// `def`, `step` or `list`, the referrers.
fn put_definition(
    out: &mut [u8],
    at: usize,
    stored: &Stored,
    kind: Kind,
    index: usize,
    in_step: bool,
) -> usize
    requires { index < count_of (kind_of kind) stored.now.held }
    ensures { Put (tabbed (relation_fields (definition in_step (referrers_of (kind_of kind) stored.now.words.now stored.now.held index)))) out.old at out.new result }
{
    let a = output::put_field(out, at, b"def");
    let b = put_place(out, a, in_step);
    put_referrers(out, b, stored, kind, index)
}

// The relation of the row with an index.
pub fn put_relation(
    out: &mut [u8],
    at: usize,
    stored: &Stored,
    kind: Kind,
    index: usize,
    r: RelationRecord,
) -> usize
    requires { index < count_of (kind_of kind) stored.now.held }
    ensures { Put (tabbed (relation_fields (relation_in (kind_of kind) r (referrers_of (kind_of kind) stored.now.words.now stored.now.held index)))) out.old at out.new result }
{
    let relation = r.relation;
    match relation {
        Relation::Definition => put_definition(out, at, stored, kind, index, r.in_step),
        Relation::Reference(t) => put_reference(out, at, t, r.index, kind),
    }
}

// ---- names and paths

// Where the path before a name ends, and where the name starts.
fn place_in(w: &[u8], kind: Kind) -> NamePlace
    ensures { Placed (kind_of kind) w.now result }
{
    match kind {
        Kind::Ingredient => content::name_place(w),
        Kind::Cookware => NamePlace { end: 0, start: 0 },
    }
}

fn put_name(out: &mut [u8], at: usize, w: &[u8], p: NamePlace, kind: Kind) -> usize
    requires { Field w.now × Placed (kind_of kind) w.now p }
    ensures { Put (tabbed (encode (name_of (kept_in w.now) (reference_in (kind_of kind) (kept_in w.now))) ∷ [])) out.old at out.new result }
{
    let n = output::put_byte(out, at, b'\t');
    let start = p.start;
    text::put_kept(out, n, &w[start..])
}

// `-`, or `=` and the path.
fn put_ingredient_path(out: &mut [u8], at: usize, w: &[u8], p: NamePlace) -> usize
    requires { Field w.now × Placed ingredient w.now p }
    ensures { Put (tabbed (path_fields ingredient (path_of (reference_in ingredient (kept_in w.now))))) out.old at out.new result }
{
    let start = p.start;
    if start == 0 {
        return output::put_field(out, at, b"-");
    }
    let n = output::put_bytes(out, at, b"\t=");
    let end = p.end;
    text::put_path(out, n, &w[..end])
}

// An ingredient's path; cookware has none.
fn put_path(out: &mut [u8], at: usize, w: &[u8], p: NamePlace, kind: Kind) -> usize
    requires { Field w.now × Placed (kind_of kind) w.now p }
    ensures { Put (tabbed (path_fields (kind_of kind) (path_of (reference_in (kind_of kind) (kept_in w.now))))) out.old at out.new result }
{
    match kind {
        Kind::Ingredient => put_ingredient_path(out, at, w, p),
        Kind::Cookware => { if at <= out.len() { at } else { out.len() + 1 } }
    }
}

// ---- lines

#[tactic(auto, unfolding(rules::specs::Model::is_ingredient))]
fn is_ingredient(kind: Kind) -> bool
    ensures { result ≡ is_ingredient (kind_of kind) }
{
    matches!(kind, Kind::Ingredient)
}

// The fields of a component between its index and its relation.
fn put_own(
    out: &mut [u8],
    at: usize,
    line: &[u8],
    v: ComponentView,
    marks: Modifiers,
    kind: Kind,
) -> usize
    requires { ComponentFields line.now v }
    ensures { Put (tabbed (own_fields (kind_of kind) (marked_entry (kind_of kind) (modifiers_in marks) (component_in line.now v)))) out.old at out.new result }
{
    let name = v.name;
    let alias = v.alias;
    let quantity = v.quantity;
    let note = v.note;
    let f = parts::part_of(line, name.content);
    let w = text::text_outer_trimmed(f);
    let p = place_in(w, kind);
    let a = put_name(out, at, w, p, kind);
    let b = page_fields::put_optional(out, a, line, alias);
    let c = page_fields::put_amount(out, b, line, quantity, is_ingredient(kind));
    let d = page_fields::put_optional(out, c, line, note);
    let e = put_path(out, d, w, p, kind);
    page_fields::put_modifiers(out, e, marks)
}

// The same of the component of a line.
fn put_component(out: &mut [u8], at: usize, line: &[u8], marks: Modifiers, kind: Kind) -> usize
    requires { (is_of_kind (kind_of kind) (parse_line line.now) ≡ true) × Without lf line.now }
    ensures { Put (tabbed (own_fields (kind_of kind) (marked_entry (kind_of kind) (modifiers_in marks) (component_of_line (kind_of kind) line.now)))) out.old at out.new result }
{
    let v = recall::component_in(line);
    put_own(out, at, line, v, marks, kind)
}

// The line of the i-th row at the front of the unwritten rest of the output: how many bytes it took, or one more than the
// rest has where it does not fit.
fn entry_line(sheet: &[u8], stored: &Stored, kind: Kind, i: usize, rest: &mut [u8]) -> usize
    requires { AllFit sheet.now stored.now.words.now stored.now.held × (i < count_of (kind_of kind) stored.now.held) }
    ensures { Put (entry_line (kind_of kind) i (entry_in (kind_of kind) sheet.now (rows_in (kind_of kind) stored.now.words.now) (referrers_of (kind_of kind) stored.now.words.now stored.now.held) i)) rest.old 0 rest.new result }
{
    let row = stored.row(kind, i);
    let from = row.line_at as usize;
    let to = row.line_end as usize;
    let relation = row.relation;
    let marks = new_rows::modifiers_of(row);
    let a = put_word(rest, 0, kind);
    let b = output::put_number(rest, a, i as u32);
    let c = put_component(rest, b, &sheet[from..to], marks, kind);
    let d = put_relation(rest, c, stored, kind, i, relation);
    output::put_byte(rest, d, b'\n')
}

// The same at a position of the output: the rest from there on is lent.
fn put_entry(
    sheet: &[u8],
    stored: &Stored,
    kind: Kind,
    i: usize,
    out: &mut [u8],
    at: usize,
) -> usize
    requires { AllFit sheet.now stored.now.words.now stored.now.held × (i < count_of (kind_of kind) stored.now.held) }
    ensures { Put (entry_line (kind_of kind) i (entry_in (kind_of kind) sheet.now (rows_in (kind_of kind) stored.now.words.now) (referrers_of (kind_of kind) stored.now.words.now stored.now.held) i)) out.old at out.new result }
{
    if out.len() < at {
        return out.len() + 1;
    }
    at + entry_line(sheet, stored, kind, i, &mut out[at..])
}

// The lines of the ingredients or of the cookware.
pub fn component_lines(
    sheet: &[u8],
    stored: &Stored,
    kind: Kind,
    out: &mut [u8],
    at: usize,
) -> usize
    requires { AllFit sheet.now stored.now.words.now stored.now.held }
    ensures { Put (table_lines (entry_line (kind_of kind)) (table_of (kind_of kind) (state_in sheet.now stored.now.words.now stored.now.held))) out.old at out.new result }
{
    if out.len() < at {
        return out.len() + 1;
    }
    let mut next = at;
    for i in 0..memory::count_of(stored.held, kind) {
        next = put_entry(sheet, stored, kind, i, out, next);
    }
    next
}
