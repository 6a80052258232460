// The event of a line that is known to be well formed.
#![tactic(auto)]

ghost use Rattle.std.specs.Prelude.{◌≡◌, true};
ghost use Rattle.rules.specs.Basic.{lf, is_some};
ghost use Rattle.rules.specs.Read.{parse_line};
ghost use Rattle.rules.specs.Sheet.{Without};
ghost use Rattle.known_events.specs.Known.{KnownEvent};

use events::EventView;

// Whether the line is UTF-8 is not tested again.
pub fn event_of(line: &[u8]) -> EventView
    requires { (is_some (parse_line line.now) ≡ true) × Without lf line.now }
    ensures { KnownEvent line.now result }
{
    let Some(v) = reading::event_in(line) else {
        return EventView::Between(events::Between::Start(sheet::BlockKind::Step));
    };
    v
}
