// The findings of a page. A line's writer gets the output from the line's place on, and answers how many bytes it wrote, or
// one more than there is room.
#![tactic(auto)]

ghost use Rattle.std.specs.Prelude.{◌≡◌, false, [], ◌∷◌};
ghost use Rattle.rules.specs.Basic.{pick};
ghost use Rattle.rules.specs.Words.{severe, mild};
ghost use Rattle.rules.specs.Finding.{is_error};
ghost use Rattle.rules.specs.Page.{severity_word, span_word};
ghost use Rattle.output.specs.Put.{Put, tabbed};
ghost use Rattle.parts.specs.Views.{span_in};
ghost use Rattle.events.specs.Views.{severity_in};
ghost use Rattle.finding_lines.specs.Lines.{spans_field, noted_spans, flag_field, old_open, old_close, span_piece, ParsePut, FindingPut, FindingsPut, EventPut, ParsedPut};

use events::{EventView, Severity};
use memory::Stored;
use model::Noted;
use parts::Span;
use reading::ReadSheet;

// A place to write at: one past the room for any that lies behind it.
pub fn begin(out: &[u8], at: usize) -> usize
    ensures { Put [] out.now at out.now result }
{
    if at <= out.len() {
        return at;
    }
    out.len() + 1
}

// ---- one finding

// Whether a finding of the pass is an error.
#[tactic(auto, unfolding(rules::specs::Finding::is_error))]
fn is_error(code: u32) -> bool
    ensures { result ≡ is_error code }
{
    matches!(code, 1 | 7 | 8 | 9 | 10 | 13 | 14 | 18 | 19 | 21 | 22 | 23)
}

// The field `E` or `W`.
fn put_severity(out: &mut [u8], at: usize, error: bool) -> usize
    ensures { Put (tabbed (severity_word (pick error severe mild) ∷ [])) out.old at out.new result }
{
    output::put_field(out, at, if error { b"E" } else { b"W" })
}

// The field `i` or `-`.
fn put_flag(out: &mut [u8], at: usize, implicit: bool) -> usize
    ensures { Put (tabbed (flag_field implicit ∷ [])) out.old at out.new result }
{
    output::put_field(out, at, if implicit { b"i" } else { b"-" })
}

// A span as `3-14`.
fn put_span(out: &mut [u8], at: usize, s: Span) -> usize
    ensures { Put (span_word (span_in s)) out.old at out.new result }
{
    let a = output::put_decimal(out, at, s.start);
    let b = output::put_byte(out, a, b'-');
    output::put_decimal(out, b, s.end)
}

// The field of a finding's spans: none, one or two.
fn put_spans(out: &mut [u8], at: usize, x: Noted) -> usize
    ensures { Put (tabbed (spans_field (noted_spans x) ∷ [])) out.old at out.new result }
{
    let a = output::put_byte(out, at, b'\t');
    if x.spans == 0 {
        return a;
    }
    let first = Span {
        start: x.start,
        end: x.end,
    };
    let b = put_span(out, a, first);
    if x.spans == 1 {
        return b;
    }
    let c = output::put_byte(out, b, b',');
    let second = Span {
        start: x.start2,
        end: x.end2,
    };
    put_span(out, c, second)
}

// The line of a finding of the parser.
fn parse_line(rest: &mut [u8], error: bool, number: u32) -> usize
    ensures { ParsePut (pick error severe mild) number rest.old 0 rest.new result }
{
    let a = output::put_bytes(rest, 0, b"parse");
    let b = put_severity(rest, a, error);
    let c = output::put_number(rest, b, number);
    output::put_byte(rest, c, b'\n')
}

// The line of a finding of the pass.
fn pass_line(rest: &mut [u8], x: Noted) -> usize
    requires { x.parse ≡ false }
    ensures { FindingPut x rest.old 0 rest.new result }
{
    let a = output::put_bytes(rest, 0, b"diag");
    let b = put_severity(rest, a, is_error(x.code));
    let c = output::put_number(rest, b, x.code);
    let d = put_spans(rest, c, x);
    let e = put_flag(rest, d, x.flag);
    output::put_byte(rest, e, b'\n')
}

fn finding_line(rest: &mut [u8], x: Noted) -> usize
    ensures { FindingPut x rest.old 0 rest.new result }
{
    if x.parse {
        return parse_line(rest, x.flag, x.code);
    }
    pass_line(rest, x)
}

// ---- the findings in work memory

fn put_finding(out: &mut [u8], at: usize, x: Noted) -> usize
    ensures { FindingPut x out.old at out.new result }
{
    output::put_line(out, at, |rest: &mut [u8]| finding_line(rest, x))
}

pub fn finding_lines(stored: &Stored, out: &mut [u8], at: usize) -> usize
    ensures { FindingsPut stored.now.words.now stored.now.held out.old at out.new result }
{
    let mut n = begin(out, at);
    for i in 0..stored.held.counts.findings {
        n = put_finding(out, n, stored.finding(i));
    }
    n
}

// ---- 3, old metadata, whose spans are not in work memory: what stands before them, one of them, what stands after them

pub fn old_open(rest: &mut [u8]) -> usize
    ensures { Put old_open rest.old 0 rest.new result }
{
    output::put_bytes(rest, 0, b"diag\tW\t3\t")
}

pub fn span_piece(rest: &mut [u8], first: bool, s: Span) -> usize
    ensures { Put (span_piece first (span_in s)) rest.old 0 rest.new result }
{
    if first {
        return put_span(rest, 0, s);
    }
    let a = output::put_byte(rest, 0, b',');
    put_span(rest, a, s)
}

pub fn old_close(rest: &mut [u8]) -> usize
    ensures { Put old_close rest.old 0 rest.new result }
{
    output::put_bytes(rest, 0, b"\t-\n")
}

// ---- the findings of the parser, read from the sheet

fn is_severe(s: Severity) -> bool
    ensures { pick result severe mild ≡ severity_in s }
{
    matches!(s, Severity::Severe)
}

fn put_parsed(out: &mut [u8], at: usize, error: bool, number: u32) -> usize
    ensures { ParsePut (pick error severe mild) number out.old at out.new result }
{
    output::put_line(out, at, |rest: &mut [u8]| parse_line(rest, error, number))
}

// The line of an event: only those of the parser have one.
fn put_event(out: &mut [u8], at: usize, v: EventView) -> usize
    ensures { EventPut v out.old at out.new result }
{
    match v {
        EventView::Between(b) => begin(out, at),
        EventView::Inside(i) => begin(out, at),
        EventView::Finding(s, n) => put_parsed(out, at, is_severe(s), n),
    }
}

// The lines of all events of a sheet.
pub fn parsed_lines(sheet: &ReadSheet, out: &mut [u8], at: usize) -> usize
    ensures { ParsedPut sheet.now.text.now sheet.now.bytes.now out.old at out.new result }
{
    let mut from = 0;
    let mut m = at;
    while from < sheet.bytes.len() {
        let Some(end) = sheet::line_end(sheet.bytes, from) else {
            return m;
        };
        let Some(v) = reading::event_in(&sheet.bytes[from..end]) else {
            return m;
        };
        m = put_event(out, m, v);
        from = end + 1;
    }
    begin(out, m)
}
