// Every span of a line against the text: not reversed, not past the text, not inside a character.
#![tactic(auto)]

ghost use Rattle.std.specs.Prelude.{◌≡◌, List, ℕ, length};
ghost use Rattle.rules.specs.Event.{text_spans, quantity_spans, intermediate_spans, named_spans, component_spans, spans_of, between as between_rule, inside as inside_rule};
ghost use Rattle.rules.specs.Answer.{is_good_span};
ghost use Rattle.parts.specs.Views.{span_in, opt_text_in, opt_quantity_in};
ghost use Rattle.components.specs.Views.{component_in, opt_intermediate_in};
ghost use Rattle.events.specs.Views.{between_in, component_event_in, inside_in, event_in};
ghost use Rattle.spans.specs.Goods.{Goods, GoodsIn};

fn is_good_span(text: &[u8], s: parts::Span) -> bool
    ensures { result ≡ is_good_span text.now (length text.now) (span_in s) }
{
    let start = s.start as usize;
    let end = s.end as usize;
    if end < start || text.len() < end {
        return false;
    }
    !utf8::is_inside(text, start) && !utf8::is_inside(text, end)
}

// Whether all spans of a part are good; they do not depend on the line that the contents stand in.
fn opt_text_good(text: &[u8], t: Option<parts::TextView>) -> bool
    ensures { GoodsIn text.now (λ (line : List ℕ). text_spans (opt_text_in line t)) result }
{
    match t {
        None => true,
        Some(v) => is_good_span(text, v.span),
    }
}

fn opt_quantity_good(text: &[u8], q: Option<parts::QuantityView>) -> bool
    ensures { GoodsIn text.now (λ (line : List ℕ). quantity_spans (opt_quantity_in line q)) result }
{
    match q {
        None => true,
        Some(v) => {
            is_good_span(text, v.span)
                & is_good_span(text, v.value_span)
                & opt_text_good(text, v.unit)
        }
    }
}

fn opt_intermediate_good(text: &[u8], i: Option<components::Intermediate>) -> bool
    ensures { Goods text.now (intermediate_spans (opt_intermediate_in i)) result }
{
    match i {
        None => true,
        Some(v) => is_good_span(text, v.span),
    }
}

fn component_good(text: &[u8], v: components::ComponentView) -> bool
    ensures { GoodsIn text.now (λ (line : List ℕ). named_spans (component_in line v)) result }
{
    is_good_span(text, v.span)
        & is_good_span(text, v.name.span)
        & opt_text_good(text, v.alias)
        & opt_quantity_good(text, v.quantity)
        & opt_text_good(text, v.note)
        & is_good_span(text, v.modifiers_span)
}

fn component_event_good(text: &[u8], v: events::ComponentEvent) -> bool
    ensures { GoodsIn text.now (λ (line : List ℕ). component_spans (component_event_in line v)) result }
{
    match v {
        events::ComponentEvent::Ingredient(c, i) => {
            component_good(text, c) & opt_intermediate_good(text, i)
        }
        events::ComponentEvent::Cookware(c) => component_good(text, c),
        events::ComponentEvent::Timer(s, n, q) => {
            is_good_span(text, s) & opt_text_good(text, n) & opt_quantity_good(text, q)
        }
    }
}

fn between_good(text: &[u8], v: events::Between) -> bool
    ensures { GoodsIn text.now (λ (line : List ℕ). spans_of (between_rule (between_in line v))) result }
{
    match v {
        events::Between::Meta(k, t) => { is_good_span(text, k.span) & is_good_span(text, t.span) }
        events::Between::Section(n) => opt_text_good(text, n),
        events::Between::Start(_) => true,
    }
}

fn inside_good(text: &[u8], v: events::Inside) -> bool
    ensures { GoodsIn text.now (λ (line : List ℕ). spans_of (inside_rule (inside_in line v))) result }
{
    match v {
        events::Inside::End(_) => true,
        events::Inside::Text(t) => is_good_span(text, t.span),
        events::Inside::Component(c) => component_event_good(text, c),
    }
}

pub fn spans_good(text: &[u8], v: events::EventView) -> bool
    ensures { GoodsIn text.now (λ (line : List ℕ). spans_of (event_in line v)) result }
{
    match v {
        events::EventView::Between(b) => between_good(text, b),
        events::EventView::Inside(i) => inside_good(text, i),
        events::EventView::Finding(_, _) => true,
    }
}
