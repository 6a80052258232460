// The fields of a recipe page, written at a position: contents of a line, which are copied as they stand escaped there,
// optional texts, quantities, modifiers.
#![tactic(auto)]

ghost use Rattle.std.specs.Prelude.{◌≡◌, [], ◌∷◌, Some};
ghost use Rattle.rules.specs.Basic.{pick, codes, when, is_empty, on_some};
ghost use Rattle.rules.specs.Utf8.{encode};
ghost use Rattle.rules.specs.Model.{trimmed_text, amount_of};
ghost use Rattle.rules.specs.Page.{optional, amount_fields};
ghost use Rattle.rules.specs.Write.{kind_field, modifiers_field};
ghost use Rattle.output.specs.Put.{Put, tabbed};
ghost use Rattle.sheet.specs.Words.{kind_in};
ghost use Rattle.content.specs.Parts.{Field};
ghost use Rattle.parts.specs.Views.{part_of, content_in, text_in, opt_text_in, quantity_in, opt_quantity_in};
ghost use Rattle.components.specs.Views.{modifiers_in};
ghost use Rattle.known_events.specs.Fields.{TextField, OptTextField, QuantityFields, OptQuantityFields};
ghost use Rattle.page_fields.specs.Letters.{letters, scalable};

use components::Modifiers;
use parts::{Part, QuantityView, TextView};
use sheet::ValueKind;

// ---- contents

// A content of a line as it stands there, escaped.
pub fn put_part(out: &mut [u8], at: usize, line: &[u8], p: Part) -> usize
    requires { Field (part_of line.now p) }
    ensures { Put (tabbed (encode (content_in line.now p) ∷ [])) out.old at out.new result }
{
    let n = output::put_byte(out, at, b'\t');
    let f = parts::part_of(line, p);
    output::put_bytes(out, n, f)
}

pub fn put_text(out: &mut [u8], at: usize, line: &[u8], v: TextView) -> usize
    requires { TextField line.now v }
    ensures { Put (tabbed (encode (text_in line.now v).content ∷ [])) out.old at out.new result }
{
    put_part(out, at, line, v.content)
}

// `-`, or `=` and the text trimmed.
pub fn put_optional(out: &mut [u8], at: usize, line: &[u8], o: Option<TextView>) -> usize
    requires { OptTextField line.now o }
    ensures { Put (tabbed (optional (on_some trimmed_text (opt_text_in line.now o)) ∷ [])) out.old at out.new result }
{
    match o {
        None => output::put_field(out, at, b"-"),
        Some(v) => {
            let n = output::put_bytes(out, at, b"\t=");
            let f = parts::part_of(line, v.content);
            text::put_text_trimmed(out, n, f)
        }
    }
}

// ---- quantities

pub fn put_kind(out: &mut [u8], at: usize, kind: ValueKind) -> usize
    ensures { Put (tabbed (kind_field (kind_in kind) ∷ [])) out.old at out.new result }
{
    match kind {
        ValueKind::Number => output::put_field(out, at, b"n"),
        ValueKind::Range => output::put_field(out, at, b"r"),
        ValueKind::Textual => output::put_field(out, at, b"t"),
    }
}

// Only an ingredient's number or range without lock is scalable.
fn is_scalable(of_ingredient: bool, kind: ValueKind, lock: bool) -> bool
    ensures { result ≡ scalable of_ingredient (kind_in kind) lock }
{
    if !of_ingredient {
        return false;
    }
    match kind {
        ValueKind::Number => !lock,
        ValueKind::Range => !lock,
        ValueKind::Textual => false,
    }
}

// `s` or `f`: scalable or fixed.
fn put_scaling(out: &mut [u8], at: usize, scalable: bool) -> usize
    ensures { Put (tabbed (pick scalable (codes "s") (codes "f") ∷ [])) out.old at out.new result }
{
    output::put_field(out, at, if scalable { b"s" } else { b"f" })
}

fn put_quantity(
    out: &mut [u8],
    at: usize,
    line: &[u8],
    v: QuantityView,
    of_ingredient: bool,
) -> usize
    requires { QuantityFields line.now v }
    ensures { Put (tabbed (amount_fields (Some (amount_of of_ingredient (quantity_in line.now v))))) out.old at out.new result }
{
    let kind = v.kind;
    let unit = v.unit;
    let a = put_kind(out, at, kind);
    let b = put_part(out, a, line, v.value);
    let c = put_optional(out, b, line, unit);
    let s = is_scalable(of_ingredient, kind, v.lock);
    put_scaling(out, c, s)
}

// `-`, or the kind, the value as it is spelled, the unit, and whether the quantity is scalable.
pub fn put_amount(
    out: &mut [u8],
    at: usize,
    line: &[u8],
    q: Option<QuantityView>,
    of_ingredient: bool,
) -> usize
    requires { OptQuantityFields line.now q }
    ensures { Put (tabbed (amount_fields (on_some (amount_of of_ingredient) (opt_quantity_in line.now q)))) out.old at out.new result }
{
    match q {
        None => output::put_field(out, at, b"-"),
        Some(v) => put_quantity(out, at, line, v, of_ingredient),
    }
}

// ---- modifiers

// A letter where its modifier is set.
fn put_letter(out: &mut [u8], at: usize, is_set: bool, letter: u8) -> usize
    ensures { Put (when is_set letter) out.old at out.new result }
{
    if is_set {
        return output::put_byte(out, at, letter);
    }
    if at <= out.len() { at } else { out.len() + 1 }
}

fn put_letters(out: &mut [u8], at: usize, m: Modifiers) -> usize
    ensures { Put (letters (modifiers_in m)) out.old at out.new result }
{
    let a = put_letter(out, at, m.recipe, b'@');
    let b = put_letter(out, a, m.reference, b'&');
    let c = put_letter(out, b, m.hidden, b'-');
    let d = put_letter(out, c, m.opt, b'?');
    put_letter(out, d, m.new, b'+')
}

// Whether no modifier is set.
fn has_none(m: Modifiers) -> bool
    ensures { result ≡ is_empty (letters (modifiers_in m)) }
{
    !(m.recipe || m.reference || m.hidden || m.opt || m.new)
}

// The letters of the modifiers that are set, or a point.
pub fn put_modifiers(out: &mut [u8], at: usize, m: Modifiers) -> usize
    ensures { Put (tabbed (modifiers_field (modifiers_in m) ∷ [])) out.old at out.new result }
{
    let n = output::put_byte(out, at, b'\t');
    if has_none(m) {
        return output::put_byte(out, n, b'.');
    }
    put_letters(out, n, m)
}
