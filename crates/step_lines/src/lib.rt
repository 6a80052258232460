// Lines of the page: sections, steps and their items, texts, timers, inline quantities. A line's writer gets the output from the cursor on
// and returns how many bytes it wrote, or one more than there is room for.
#![tactic(auto)]

ghost use Rattle.std.specs.Prelude.{◌≡◌, true, [], ◌∷◌, ◌++◌, ◌+◌, ◌^◌, ◌<◌, length, None};
ghost use Rattle.rules.specs.Basic.{codes, tab, lf, decimal, on_some};
ghost use Rattle.rules.specs.Sheet.{line_of};
ghost use Rattle.rules.specs.Units.{read_units, units_or};
ghost use Rattle.rules.specs.Answer.{is_good_span};
ghost use Rattle.rules.specs.Inline.{inline_pieces};
ghost use Rattle.rules.specs.Model.{text_item, trimmed_text};
ghost use Rattle.rules.specs.Components.{timer_of};
ghost use Rattle.rules.specs.Pass.{pieces, source_text};
ghost use Rattle.rules.specs.Page.{optional, item_line, timer_line, inline_line};
ghost use Rattle.output.specs.Put.{Put, tabbed};
ghost use Rattle.content.specs.Contents.{content_in, spell};
ghost use Rattle.content.specs.Parts.{Field};
ghost use Rattle.parts.specs.Views.{text_in, span_in, opt_text_in, opt_quantity_in};
ghost use Rattle.known_events.specs.Fields.{TextField, OptTextField, OptQuantityFields};
ghost use Rattle.step_lines.specs.Lines.{kind_word, item_as, PutItem, quantity_as, TextLines, item_text, inline_text, text_text};

use parts::{QuantityView, Span, TextView};
use unit_index::UnitList;
use utf8::Utf8;

// What an item refers to by its index.
#[derive(Clone, Copy)]
pub enum ItemKind {
    Ingredient,
    Cookware,
    Timer,
    Inline,
}

fn put_kind(out: &mut [u8], at: usize, kind: ItemKind) -> usize
    ensures { Put (tabbed (kind_word kind ∷ [])) out.old at out.new result }
{
    match kind {
        ItemKind::Ingredient => output::put_bytes(out, at, b"\tingredient"),
        ItemKind::Cookware => output::put_bytes(out, at, b"\tcookware"),
        ItemKind::Timer => output::put_bytes(out, at, b"\ttimer"),
        ItemKind::Inline => output::put_bytes(out, at, b"\tinline"),
    }
}

// The line of an item that is no text.
pub fn item_line(rest: &mut [u8], kind: ItemKind, index: u32) -> usize
    ensures { PutItem (item_as kind index) rest.old rest.new result }
{
    let a = output::put_bytes(rest, 0, b"item");
    let b = put_kind(rest, a, kind);
    let c = output::put_number(rest, b, index);
    output::put_byte(rest, c, b'\n')
}

// The same at a position of the output: the rest from there on is lent.
fn put_item(out: &mut [u8], at: usize, kind: ItemKind, index: u32) -> usize
    ensures { Put (item_line 0 (item_as kind index)) out.old at out.new result }
{
    output::put_line(out, at, |rest: &mut [u8]| item_line(rest, kind, index))
}

// An item that is the text of a field.
fn text_item_line(rest: &mut [u8], f: &[u8]) -> usize
    requires { Field f.now }
    ensures { Put (item_line 0 (text_item (content_in f.now))) rest.old 0 rest.new result }
{
    let a = output::put_bytes(rest, 0, b"item\ttext\t");
    let b = output::put_bytes(rest, a, f);
    output::put_byte(rest, b, b'\n')
}

// The text of a field at a position of the output, as an item; an empty one is none.
fn put_text(out: &mut [u8], at: usize, f: &[u8]) -> usize
    requires { Field f.now }
    ensures { Put (text_text f.now) out.old at out.new result }
{
    if f.len() == 0 {
        return output::put_bytes(out, at, f);
    }
    output::put_line(out, at, |rest: &mut [u8]| text_item_line(rest, f))
}

// How many bytes the lines of a text took, or one more than there is room for; and how many quantities it has.
#[derive(Clone, Copy)]
pub struct TextItems {
    pub count: usize,
    pub inline: u32,
}

// The items of a field's text, which quantities split.
fn split_items(units: &UnitList, rest: &mut [u8], s: &[u8], first: u32) -> TextItems
    requires { Field s.now × (first + length s.now < 2 ^ 32) }
    ensures { TextLines item_text (inline_pieces (units_or (read_units units.now.lines.now)) (content_in s.now)) first rest.old rest.new result }
{
    let mut n = 0;
    let mut quantities = 0;
    let mut at = 0;
    while let Some(q) = inline::find_inline_quantity(units, s, at) {
        let m = put_text(rest, n, &s[at..q.number_from]);
        n = put_item(rest, m, ItemKind::Inline, first + quantities);
        quantities += 1;
        at = q.after;
    }
    let count = put_text(rest, n, &s[at..]);
    TextItems {
        count,
        inline: quantities,
    }
}

// The items of a text in a step, where `first` inline quantities came before.
pub fn text_items(
    units: &UnitList,
    flags: u32,
    rest: &mut [u8],
    line: &[u8],
    body: TextView,
    first: u32,
) -> TextItems
    requires { TextField line.now body × (first + length line.now < 2 ^ 32) }
    ensures { TextLines item_text (pieces (units_or (read_units units.now.lines.now)) flags (text_in line.now body).content) first rest.old rest.new result }
{
    let s = parts::part_of(line, body.content);
    let bit = flags / 2 % 2;
    if bit == 1 {
        return split_items(units, rest, s, first);
    }
    let count = text_item_line(rest, s);
    TextItems { count, inline: 0 }
}

// An inline quantity, its number with its sign and its unit as fields.
fn inline_line(rest: &mut [u8], index: u32, number: &[u8], unit: &[u8]) -> usize
    requires { Field number.now × Field unit.now }
    ensures { Put (inline_line index (quantity_as number.now unit.now)) rest.old 0 rest.new result }
{
    let a = output::put_bytes(rest, 0, b"inline");
    let b = output::put_number(rest, a, index);
    let c = output::put_byte(rest, b, b'\t');
    let d = output::put_bytes(rest, c, number);
    let e = output::put_bytes(rest, d, b"\t=");
    let f = output::put_bytes(rest, e, unit);
    output::put_byte(rest, f, b'\n')
}

fn put_inline(out: &mut [u8], at: usize, index: u32, number: &[u8], unit: &[u8]) -> usize
    requires { Field number.now × Field unit.now }
    ensures { Put (inline_line index (quantity_as number.now unit.now)) out.old at out.new result }
{
    output::put_line(
        out,
        at,
        |rest: &mut [u8]| inline_line(rest, index, number, unit),
    )
}

// The quantities of a field's text.
fn split_quantities(units: &UnitList, rest: &mut [u8], s: &[u8], first: u32) -> TextItems
    requires { Field s.now × (first + length s.now < 2 ^ 32) }
    ensures { TextLines inline_text (inline_pieces (units_or (read_units units.now.lines.now)) (content_in s.now)) first rest.old rest.new result }
{
    let mut count = 0;
    let mut quantities = 0;
    let mut at = 0;
    while let Some(q) = inline::find_inline_quantity(units, s, at) {
        count = put_inline(
            rest,
            count,
            first + quantities,
            &s[q.number_from..q.number_to],
            &s[q.unit_from..q.unit_to],
        );
        quantities += 1;
        at = q.after;
    }
    TextItems {
        count,
        inline: quantities,
    }
}

// The inline quantities of a text in a step, where `first` came before.
pub fn inline_lines(
    units: &UnitList,
    flags: u32,
    rest: &mut [u8],
    line: &[u8],
    body: TextView,
    first: u32,
) -> TextItems
    requires { TextField line.now body × (first + length line.now < 2 ^ 32) }
    ensures { TextLines inline_text (pieces (units_or (read_units units.now.lines.now)) flags (text_in line.now body).content) first rest.old rest.new result }
{
    let bit = flags / 2 % 2;
    if bit == 1 {
        let s = parts::part_of(line, body.content);
        return split_quantities(units, rest, s, first);
    }
    TextItems {
        count: 0,
        inline: 0,
    }
}

// The first line of a section with an optional name.
pub fn section_line(rest: &mut [u8], line: &[u8], name: Option<TextView>) -> usize
    requires { OptTextField line.now name }
    ensures { Put (line_of (codes "section" ∷ optional (on_some trimmed_text (opt_text_in line.now name)) ∷ [])) rest.old 0 rest.new result }
{
    let a = output::put_bytes(rest, 0, b"section");
    let b = page_fields::put_optional(rest, a, line, name);
    output::put_byte(rest, b, b'\n')
}

pub fn unnamed_section_line(rest: &mut [u8]) -> usize
    ensures { Put (line_of (codes "section" ∷ optional None ∷ [])) rest.old 0 rest.new result }
{
    output::put_bytes(rest, 0, b"section\t-\n")
}

pub fn timer_line(
    rest: &mut [u8],
    line: &[u8],
    index: u32,
    name: Option<TextView>,
    quantity: Option<QuantityView>,
) -> usize
    requires { OptTextField line.now name × OptQuantityFields line.now quantity }
    ensures { Put (timer_line index (timer_of (opt_text_in line.now name) (opt_quantity_in line.now quantity))) rest.old 0 rest.new result }
{
    let a = output::put_bytes(rest, 0, b"timer");
    let b = output::put_number(rest, a, index);
    let c = page_fields::put_optional(rest, b, line, name);
    let d = page_fields::put_amount(rest, c, line, quantity, false);
    output::put_byte(rest, d, b'\n')
}

// The first line of a step.
pub fn step_line(rest: &mut [u8], number: u32) -> usize
    ensures { Put (line_of (codes "step" ∷ decimal number ∷ [])) rest.old 0 rest.new result }
{
    let a = output::put_bytes(rest, 0, b"step");
    let b = output::put_number(rest, a, number);
    output::put_byte(rest, b, b'\n')
}

// The line of a text, piece by piece: its front, pieces, and its end.
pub fn text_open(rest: &mut [u8]) -> usize
    ensures { Put (codes "text" ++ (tab ∷ [])) rest.old 0 rest.new result }
{
    output::put_bytes(rest, 0, b"text\t")
}

pub fn text_piece(rest: &mut [u8], line: &[u8], body: TextView) -> usize
    requires { TextField line.now body }
    ensures { Put (spell (text_in line.now body).content) rest.old 0 rest.new result }
{
    let f = parts::part_of(line, body.content);
    output::put_bytes(rest, 0, f)
}

// The source of a span, escaped.
#[tactic(auto, using(crate::proofs::Sources::span_inside))]
pub fn source_piece(rest: &mut [u8], text: &Utf8, span: Span) -> usize
    requires { is_good_span text.now.bytes.now (length text.now.bytes.now) (span_in span) ≡ true }
    ensures { Put (spell (source_text text.now.bytes.now (span_in span))) rest.old 0 rest.new result }
{
    let from = span.start as usize;
    let to = span.end as usize;
    output::put_escaped(rest, 0, &text.bytes[from..to])
}

pub fn text_close(rest: &mut [u8]) -> usize
    ensures { Put (lf ∷ []) rest.old 0 rest.new result }
{
    output::put_byte(rest, 0, b'\n')
}
