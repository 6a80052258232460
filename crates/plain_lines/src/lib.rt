// Lines of the plain form: a line as it stands, the ends of a text block, the source of a component, a component with REF added. A line's
// writer gets the output from the cursor on and returns how many bytes it wrote, or one more than there is room for.
#![tactic(auto)]

ghost use Rattle.std.specs.Prelude.{◌≡◌, true, [], ◌∷◌, ◌++◌, length};
ghost use Rattle.rules.specs.Basic.{pick, codes, lf};
ghost use Rattle.rules.specs.Words.{text_kind};
ghost use Rattle.rules.specs.Event.{start_event, end_event, text_event, component_event, between, inside};
ghost use Rattle.rules.specs.Answer.{is_good_span};
ghost use Rattle.rules.specs.Model.{ingredient, cookware, with_ref};
ghost use Rattle.rules.specs.Write.{opt_fields, span_fields, text_fields, quantity_fields, named_fields, write_line};
ghost use Rattle.rules.specs.Plain.{mark_ref};
ghost use Rattle.output.specs.Put.{Put, tabbed};
ghost use Rattle.parts.specs.Views.{span_in, text_in, opt_text_in, quantity_in, opt_quantity_in};
ghost use Rattle.components.specs.Views.{modifiers_in, component_in};
ghost use Rattle.known_events.specs.Fields.{TextField, OptTextField, QuantityFields, OptQuantityFields, ComponentFields};
ghost use Rattle.model.specs.Kinds.{kind_of};
ghost use Rattle.plain_lines.specs.Lines.{source_at, marked_as};

use components::{ComponentView, Modifiers};
use model::Kind;
use parts::{QuantityView, Span, TextView};
use utf8::Utf8;

// A line as it stands in the sheet, and its LF.
pub fn copied_line(rest: &mut [u8], line: &[u8]) -> usize
    ensures { Put (line.now ++ (lf ∷ [])) rest.old 0 rest.new result }
{
    let a = output::put_bytes(rest, 0, line);
    output::put_byte(rest, a, b'\n')
}

// ---- text-mode blocks

// The first line of a text block.
pub fn start_text_line(rest: &mut [u8]) -> usize
    ensures { Put (write_line (between (start_event text_kind))) rest.old 0 rest.new result }
{
    output::put_bytes(rest, 0, b"start\ttext\n")
}

// The last line of a text block.
pub fn end_text_line(rest: &mut [u8]) -> usize
    ensures { Put (write_line (inside (end_event text_kind))) rest.old 0 rest.new result }
{
    output::put_bytes(rest, 0, b"end\ttext\n")
}

fn put_span(out: &mut [u8], at: usize, s: Span) -> usize
    ensures { Put (tabbed (span_fields (span_in s))) out.old at out.new result }
{
    let n = output::put_number(out, at, s.start);
    output::put_number(out, n, s.end)
}

// The `text` line of a span and its source.
#[tactic(auto, using(step_lines::proofs::Sources::span_inside))]
pub fn source_line(rest: &mut [u8], text: &Utf8, span: Span) -> usize
    requires { is_good_span text.now.bytes.now (length text.now.bytes.now) (span_in span) ≡ true }
    ensures { Put (write_line (inside (text_event (source_at text.now.bytes.now (span_in span))))) rest.old 0 rest.new result }
{
    let from = span.start as usize;
    let to = span.end as usize;
    let a = output::put_bytes(rest, 0, b"text");
    let b = put_span(rest, a, span);
    let c = output::put_byte(rest, b, b'\t');
    let d = output::put_escaped(rest, c, &text.bytes[from..to]);
    output::put_byte(rest, d, b'\n')
}

// ---- components

fn put_text_fields(out: &mut [u8], at: usize, line: &[u8], v: TextView) -> usize
    requires { TextField line.now v }
    ensures { Put (tabbed (text_fields (text_in line.now v))) out.old at out.new result }
{
    let n = put_span(out, at, v.span);
    page_fields::put_text(out, n, line, v)
}

fn put_opt_text_fields(out: &mut [u8], at: usize, line: &[u8], o: Option<TextView>) -> usize
    requires { OptTextField line.now o }
    ensures { Put (tabbed (opt_fields text_fields (opt_text_in line.now o))) out.old at out.new result }
{
    match o {
        None => output::put_field(out, at, b"-"),
        Some(v) => put_text_fields(out, at, line, v),
    }
}

// `l` where a quantity is locked.
fn put_lock(out: &mut [u8], at: usize, lock: bool) -> usize
    ensures { Put (tabbed (pick «lock» (codes "l") (codes "-") ∷ [])) out.old at out.new result }
{
    output::put_field(out, at, if lock { b"l" } else { b"-" })
}

fn put_quantity_fields(out: &mut [u8], at: usize, line: &[u8], v: QuantityView) -> usize
    requires { QuantityFields line.now v }
    ensures { Put (tabbed (quantity_fields (quantity_in line.now v))) out.old at out.new result }
{
    let kind = v.kind;
    let unit = v.unit;
    let a = put_span(out, at, v.span);
    let b = page_fields::put_kind(out, a, kind);
    let c = put_span(out, b, v.value_span);
    let d = page_fields::put_part(out, c, line, v.value);
    let e = put_lock(out, d, v.lock);
    put_opt_text_fields(out, e, line, unit)
}

fn put_opt_quantity_fields(out: &mut [u8], at: usize, line: &[u8], q: Option<QuantityView>) -> usize
    requires { OptQuantityFields line.now q }
    ensures { Put (tabbed (opt_fields quantity_fields (opt_quantity_in line.now q))) out.old at out.new result }
{
    match q {
        None => output::put_field(out, at, b"-"),
        Some(v) => put_quantity_fields(out, at, line, v),
    }
}

fn with_reference(m: Modifiers) -> Modifiers
    ensures { modifiers_in result ≡ with_ref (modifiers_in m) }
{
    Modifiers {
        reference: true,
        ..m
    }
}

// The fields that ingredients and cookware have in common, with REF among the modifiers.
fn put_marked(out: &mut [u8], at: usize, line: &[u8], v: ComponentView) -> usize
    requires { ComponentFields line.now v }
    ensures { Put (tabbed (named_fields (mark_ref (component_in line.now v)))) out.old at out.new result }
{
    let alias = v.alias;
    let quantity = v.quantity;
    let note = v.note;
    let a = put_span(out, at, v.span);
    let b = put_text_fields(out, a, line, v.name);
    let c = put_opt_text_fields(out, b, line, alias);
    let d = put_opt_quantity_fields(out, c, line, quantity);
    let e = put_opt_text_fields(out, d, line, note);
    let m = with_reference(v.modifiers);
    let f = page_fields::put_modifiers(out, e, m);
    put_span(out, f, v.modifiers_span)
}

// An ingredient with REF added; what refers to a component of its kind has no intermediate reference.
fn marked_ingredient(rest: &mut [u8], line: &[u8], v: ComponentView) -> usize
    requires { ComponentFields line.now v }
    ensures { Put (write_line (inside (component_event (marked_as ingredient (component_in line.now v))))) rest.old 0 rest.new result }
{
    let a = output::put_bytes(rest, 0, b"ingredient");
    let b = put_marked(rest, a, line, v);
    let c = output::put_field(rest, b, b"-");
    output::put_byte(rest, c, b'\n')
}

fn marked_cookware(rest: &mut [u8], line: &[u8], v: ComponentView) -> usize
    requires { ComponentFields line.now v }
    ensures { Put (write_line (inside (component_event (marked_as cookware (component_in line.now v))))) rest.old 0 rest.new result }
{
    let a = output::put_bytes(rest, 0, b"cookware");
    let b = put_marked(rest, a, line, v);
    output::put_byte(rest, b, b'\n')
}

// The line of an implicit reference with REF added.
pub fn marked_line(rest: &mut [u8], line: &[u8], kind: Kind, v: ComponentView) -> usize
    requires { ComponentFields line.now v }
    ensures { Put (write_line (inside (component_event (marked_as (kind_of kind) (component_in line.now v))))) rest.old 0 rest.new result }
{
    match kind {
        Kind::Ingredient => marked_ingredient(rest, line, v),
        Kind::Cookware => marked_cookware(rest, line, v),
    }
}
