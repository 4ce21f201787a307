//! The text of audit.

ghost use Rattle.std.specs.Prelude.{◌≡◌, List, Some};
ghost use Rattle.std.specs.List.{AllByRecursion};
ghost use Rattle.ad_audit.specs.declared.event.Event.{Event};
ghost use Rattle.ad_text_laws.specs.Lines.{facts_of};
ghost use Rattle.ad_text_laws.specs.Events.{IsEvent, event_of, event_text};

/// The lines of audit give back the events.
pub fn the_lines_of_audit_read_back()
    ensures { (events : List Event) → AllByRecursion IsEvent events → facts_of event_of
        (event_text events)
        ≡ Some events }
{}
