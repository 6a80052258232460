// Texts in a step: 4 in components mode, else items and inline quantities.
#![tactic(auto)]

ghost use Rattle.std.specs.Prelude.{◌≡◌, ◌+◌, ◌≤◌, ◌<◌, length};
ghost use Rattle.rules.specs.Units.{read_units, units_or};
ghost use Rattle.content.specs.Parts.{Field};
ghost use Rattle.parts.specs.Views.{part_of, TextWithin};
ghost use Rattle.model.specs.Small.{with_inline};
ghost use Rattle.step_texts.specs.Texts.{PiecesPushed, TextDone};
ghost use Rattle.model.specs.declared.layout.TheConstants.{MOST_FINDINGS};

use memory::Memory;
use model::Held;
use parts::TextView;
use unit_index::UnitList;

// The inline quantities of a text.
fn count_inline(mut h: Held, n: usize) -> Held
    requires { h.counts.inline + n ≤ 100000 }
    ensures { result ≡ with_inline (h.counts.inline + n) h }
{
    h.counts.inline += n;
    h
}

// A text's items, and how many of them are quantities.
fn push_pieces(h: Held, items: usize, quantities: usize) -> Held
    requires { (h.counts.items + items ≤ 100000) × (h.counts.inline + quantities ≤ 100000) }
    ensures { PiecesPushed items quantities h result }
{
    let k = count_inline(h, quantities);
    blocks::push_items(k, items)
}

pub fn text_in_step(units: &UnitList, flags: u32, line: &[u8], body: TextView, memory: &mut Memory)
    requires { TextWithin line.now body × Field (part_of line.now body.content) × (memory.old.held.counts.findings < MOST_FINDINGS) × (memory.old.held.counts.items + length line.now < 100000) × (memory.old.held.counts.inline + length line.now < 100000) }
    ensures done { TextDone (units_or (read_units units.now.lines.now)) flags line.now body memory.old.words.now memory.old.held memory.new.words.now memory.new.held }
    ensures lent { memory.new.words.ghost_name ≡ memory.old.words.ghost_name }
{
    let f = parts::part_of(line, body.content);
    if blocks::is_components(memory.held.define) {
        if text::has_alphanumeric(f) {
            let s = body.span;
            let x = model::one_span(4, s.start, s.end, false);
            memory.push_finding(x);
        }
        return;
    }
    let bit = flags / 2 % 2;
    if bit == 1 {
        let n = inline::count_items(units, f);
        memory.held = push_pieces(memory.held, n.items, n.quantities);
    } else {
        memory.held = push_pieces(memory.held, 1, 0);
    }
}
