// The parts of the page that work memory does not hold, drawn by a second walk over an accepted sheet.
ghost use Rattle.std.specs.Prelude.{◌≡◌, not, eqb};
ghost use Rattle.rules.specs.Units.{read_units, units_or};
ghost use Rattle.page.specs.Walk.{LineReady, LineTaken, is_aside, is_idle, TurnTaken, PassInputs, PartDrawn};

use following::{Follow, Part};
use reading::ReadSheet;
use unit_index::UnitList;
use utf8::Utf8;

// How many bytes a line's part took, or one more than there is room for; and the state after the line.
#[derive(Clone, Copy)]
struct Turn {
    count: usize,
    follow: Follow,
}

// One line of the sheet, read.
fn part_line(
    p: Part,
    text: &Utf8,
    units: &UnitList,
    flags: u32,
    rest: &mut [u8],
    line: &[u8],
    f: Follow,
) -> Turn
    requires { LineReady text.now.bytes.now (units_or (read_units units.now.lines.now)) flags p line.now f }
    ensures { LineTaken text.now.bytes.now (units_or (read_units units.now.lines.now)) flags p line.now f rest.old rest.new result }
{
    let e = known_events::event_of(line);
    let r = page_parts::each_part::draw_line(p, text, units, flags, rest, line, e, f);
    let count = r.count;
    let inline = r.inline;
    let follow = following::follow_event(flags, line, e, f, inline);
    Turn { count, follow }
}

// Whether a line begins like an `ingredient`, a `cookware` or a `warning`, or with t and x.
#[tactic(auto, unfolding(crate::specs::Walk::is_aside))]
fn is_aside(x: u8, a: u8, b: u8) -> bool
    ensures { result ≡ is_aside x a b }
{
    matches!(a, b'i' | b'c' | b'w') || (a == b't' && b == x)
}

// Whether a line begins with another byte than a `meta` line.
fn is_other(a: u8) -> bool
    ensures { result ≡ not (eqb a 109) }
{
    a != b'm'
}

// Whether a line's first bytes tell that it adds nothing to the part, and changes nothing that the part depends on.
fn is_idle(p: Part, line: &[u8]) -> bool
    ensures { result ≡ is_idle p line.now }
{
    if line.len() < 2 {
        return false;
    }
    let a = line[0];
    let b = line[1];
    match p {
        Part::Sections => false,
        Part::Timers => is_aside(b'e', a, b),
        Part::Inline => is_aside(b'i', a, b),
        Part::Old => is_other(a),
    }
}

// One line of the sheet, which is not read where it is idle.
fn line_turn(
    p: Part,
    text: &Utf8,
    units: &UnitList,
    flags: u32,
    rest: &mut [u8],
    line: &[u8],
    f: Follow,
) -> Turn
    requires { LineReady text.now.bytes.now (units_or (read_units units.now.lines.now)) flags p line.now f }
    ensures { TurnTaken text.now.bytes.now (units_or (read_units units.now.lines.now)) flags p line.now f rest.old rest.new result }
{
    if is_idle(p, line) {
        return Turn {
            count: 0,
            follow: f,
        };
    }
    part_line(p, text, units, flags, rest, line, f)
}

// The part p of the page, written at a position of the output.
pub(crate) fn draw_part(
    p: Part,
    sheet: &ReadSheet,
    units: &UnitList,
    flags: u32,
    out: &mut [u8],
    at: usize,
) -> usize
    requires { PassInputs sheet.now.bytes.now sheet.now.text.now units.now.lines.now flags }
    ensures { PartDrawn sheet.now.bytes.now sheet.now.text.now units.now.lines.now flags p out.old at out.new result }
{
    let text = Utf8 { bytes: sheet.text };
    let mut n = finding_lines::begin(out, at);
    let mut f = following::first_follow();
    let mut from = 0;
    while from < sheet.bytes.len() {
        if out.len() < n {
            return n;
        }
        let Some(end) = sheet::line_end(sheet.bytes, from) else {
            return n;
        };
        let r = line_turn(
            p,
            &text,
            units,
            flags,
            &mut out[n..],
            &sheet.bytes[from..end],
            f,
        );
        n += r.count;
        f = r.follow;
        from = end + 1;
    }
    n
}
