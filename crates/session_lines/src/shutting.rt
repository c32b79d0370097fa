//! Which events end a session.
ghost use Rattle.std.specs.Prelude.{◌≡◌};
ghost use Rattle.session_lines.specs.Sessions as spec;

use session_text::Event;

/// Whether these events of a line shut the session.
pub fn shuts(events: &[Event]) -> bool
    ensures { result ≡ spec.shuts events.now }
{
    events.iter().any(is_shut)
}

fn is_shut(event: &Event) -> bool
    ensures { result ≡ spec.is_shut event.now }
{
    match event {
        Event::Shut => true,
        Event::Line { .. } | Event::Supervisor(_) | Event::Turns(_) | Event::Fixpoint => false,
    }
}
