// The event of a line as a view, read after the line's first word. All readers take any bytes and any position.
#![tactic(auto)]

ghost use Rattle.rules.specs.Read.{word, read_meta, read_section, read_start, read_end, read_text_line, read_ingredient, read_cookware, read_timer, read_finding};
ghost use Rattle.events.specs.Views.{severity_in};
ghost use Rattle.rules.specs.Words.{block_kinds};
ghost use Rattle.sheet.specs.Words.{block_in};
ghost use Rattle.parts.specs.Got.{BareRead};
ghost use Rattle.events.specs.Got.{EventRead};

use sheet::BlockKind;

// Lines that stand between blocks.
#[derive(Clone, Copy)]
pub enum Between {
    Meta(parts::TextView, parts::TextView),
    Section(Option<parts::TextView>),
    Start(BlockKind),
}

#[derive(Clone, Copy)]
pub enum ComponentEvent {
    Ingredient(components::ComponentView, Option<components::Intermediate>),
    Cookware(components::ComponentView),
    Timer(parts::Span, Option<parts::TextView>, Option<parts::QuantityView>),
}

// Lines that stand in a block.
#[derive(Clone, Copy)]
pub enum Inside {
    End(BlockKind),
    Text(parts::TextView),
    Component(ComponentEvent),
}

#[derive(Clone, Copy)]
pub enum Severity {
    Severe,
    Mild,
}

#[derive(Clone, Copy)]
pub enum EventView {
    Between(Between),
    Inside(Inside),
    Finding(Severity, u32),
}

fn read_block(line: &[u8], at: usize) -> Option<(BlockKind, usize)>
    ensures { BareRead block_in (word block_kinds) line.now at result }
{
    parts::read_word(line, at, sheet::block_kind)
}

#[tactic(auto, using(parts::proofs::Sequence::goes_on), unfolding(rules::specs::Read::read_meta, rules::specs::Read::go_on, parts::specs::Got::got_as, parts::specs::Got::IfGot, parts::specs::Got::IfWhole))]
pub fn read_meta(line: &[u8], at: usize) -> Option<(EventView, usize)>
    ensures { EventRead read_meta line.now at result }
{
    let (key, a1) = parts::read_text(line, at)?;
    let (value, a2) = parts::read_text(line, a1)?;
    Some((EventView::Between(Between::Meta(key, value)), a2))
}

#[tactic(auto, using(parts::proofs::Sequence::goes_on), unfolding(rules::specs::Read::read_section, rules::specs::Read::go_on, parts::specs::Got::got_as, parts::specs::Got::IfGot, parts::specs::Got::IfWhole))]
pub fn read_section(line: &[u8], at: usize) -> Option<(EventView, usize)>
    ensures { EventRead read_section line.now at result }
{
    let (name, a1) = parts::read_opt_text(line, at)?;
    Some((EventView::Between(Between::Section(name)), a1))
}

#[tactic(auto, using(parts::proofs::Sequence::goes_on), unfolding(rules::specs::Read::read_start, rules::specs::Read::go_on, parts::specs::Got::got_as, parts::specs::Got::IfGot, parts::specs::Got::IfWhole))]
pub fn read_start(line: &[u8], at: usize) -> Option<(EventView, usize)>
    ensures { EventRead read_start line.now at result }
{
    let (kind, a1) = read_block(line, at)?;
    Some((EventView::Between(Between::Start(kind)), a1))
}

#[tactic(auto, using(parts::proofs::Sequence::goes_on), unfolding(rules::specs::Read::read_end, rules::specs::Read::go_on, parts::specs::Got::got_as, parts::specs::Got::IfGot, parts::specs::Got::IfWhole))]
pub fn read_end(line: &[u8], at: usize) -> Option<(EventView, usize)>
    ensures { EventRead read_end line.now at result }
{
    let (kind, a1) = read_block(line, at)?;
    Some((EventView::Inside(Inside::End(kind)), a1))
}

#[tactic(auto, using(parts::proofs::Sequence::goes_on), unfolding(rules::specs::Read::read_text_line, rules::specs::Read::go_on, parts::specs::Got::got_as, parts::specs::Got::IfGot, parts::specs::Got::IfWhole))]
pub fn read_text_line(line: &[u8], at: usize) -> Option<(EventView, usize)>
    ensures { EventRead read_text_line line.now at result }
{
    let (text, a1) = parts::read_text(line, at)?;
    Some((EventView::Inside(Inside::Text(text)), a1))
}

#[tactic(auto, using(parts::proofs::Sequence::goes_on), unfolding(rules::specs::Read::read_ingredient, rules::specs::Read::go_on, parts::specs::Got::got_as, parts::specs::Got::IfGot, parts::specs::Got::IfWhole))]
pub fn read_ingredient(line: &[u8], at: usize) -> Option<(EventView, usize)>
    ensures { EventRead read_ingredient line.now at result }
{
    let (component, a1) = components::read_component(line, at)?;
    let (intermediate, a2) = components::read_opt_intermediate(line, a1)?;
    Some((
        EventView::Inside(Inside::Component(ComponentEvent::Ingredient(component, intermediate))),
        a2,
    ))
}

#[tactic(auto, using(parts::proofs::Sequence::goes_on), unfolding(rules::specs::Read::read_cookware, rules::specs::Read::go_on, parts::specs::Got::got_as, parts::specs::Got::IfGot, parts::specs::Got::IfWhole))]
pub fn read_cookware(line: &[u8], at: usize) -> Option<(EventView, usize)>
    ensures { EventRead read_cookware line.now at result }
{
    let (component, a1) = components::read_component(line, at)?;
    Some((
        EventView::Inside(Inside::Component(ComponentEvent::Cookware(component))),
        a1,
    ))
}

#[tactic(auto, using(parts::proofs::Sequence::goes_on), unfolding(rules::specs::Read::read_timer, rules::specs::Read::go_on, parts::specs::Got::got_as, parts::specs::Got::IfGot, parts::specs::Got::IfWhole))]
pub fn read_timer(line: &[u8], at: usize) -> Option<(EventView, usize)>
    ensures { EventRead read_timer line.now at result }
{
    let (span, a1) = parts::read_span(line, at)?;
    let (name, a2) = parts::read_opt_text(line, a1)?;
    let (quantity, a3) = parts::read_opt_quantity(line, a2)?;
    Some((
        EventView::Inside(Inside::Component(ComponentEvent::Timer(span, name, quantity))),
        a3,
    ))
}

#[tactic(auto, using(parts::proofs::Sequence::goes_on), unfolding(rules::specs::Read::read_finding, rules::specs::Read::go_on, parts::specs::Got::got_as, parts::specs::Got::IfGot, parts::specs::Got::IfWhole))]
pub fn read_finding(line: &[u8], at: usize, severity: Severity) -> Option<(EventView, usize)>
    ensures { EventRead (read_finding (severity_in severity)) line.now at result }
{
    let (number, a1) = parts::read_number(line, at)?;
    Some((EventView::Finding(severity, number), a1))
}
