// What holds of event files, each the contract of a function without code.
ghost use Rattle.event_file.specs.Laws.{AlteredEventsRefused, EventsFollow, EventsReadBack, EventsStand, NextEvents};

/// An event file that stands with exactly one byte altered is refused, with 1 at 0 or with 2 at the check.
#[tactic(auto, using(crate::proofs::Theorems::EventFile::altered_events_refused))]
pub fn altered_events_refused()
    ensures { AlteredEventsRefused }
{}

/// Every list of events within its widths has an event file, and reading it gives that list.
#[tactic(auto, using(crate::proofs::Theorems::WrittenEvents::events_read_back))]
pub fn events_read_back()
    ensures { EventsReadBack }
{}

/// The fields of an event file that stands are the file, and each is an event that stands.
#[tactic(auto, using(crate::proofs::Theorems::EventFile::events_follow, crate::proofs::Theorems::EventFile::events_stand_each))]
pub fn events_of_a_file()
    ensures follow { EventsFollow }
    ensures stand { EventsStand }
{}

/// Its events are the first one and those of the rest after it.
#[tactic(auto, using(crate::proofs::Theorems::EventFile::next_events))]
pub fn events_go_on()
    ensures { NextEvents }
{}
