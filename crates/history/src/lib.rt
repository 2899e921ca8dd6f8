// What a list of calls comes to, from the calls alone. The promises are in specs/. Each function is there
// for its contract alone, a law on those definitions.
#![tactic(auto)]

ghost use Rattle.history.specs.Cases.Accounts.{MarkedHistory};
ghost use Rattle.history.specs.Cases.BuildingOn.{BuiltOnHistory};
ghost use Rattle.history.specs.Cases.Cleared.{ClearedHistory};
ghost use Rattle.history.specs.Cases.Fair.{TightBounds};
ghost use Rattle.history.specs.DemandThree.{EveryListOfCalls};
ghost use Rattle.history.specs.Laws.{ClearedIsEnded, ClearedWhole, CreditedInJoinings, EveryAcceptCounted, EveryListShown, NumbersOnce, TraceExists};

/// After every list of calls all of `HoldsAfter` holds; each list of calls has such a trace.
pub fn every_list_of_calls()
    ensures holds { EveryListOfCalls }
    ensures shown { EveryListShown }
    ensures exists { TraceExists }
{}

/// No number of a scheme or an entry is given twice in a list of calls: from 1 up to the next each is given once.
pub fn numbers_once()
    ensures { NumbersOnce }
{}

/// A joining of a scheme that was cleared is "ended", whatever was called between: never 6, small or joined.
pub fn cleared_is_ended()
    ensures { ClearedIsEnded }
{}

/// What a call adds to the figures, by its answer alone.
pub fn counted_by_answers()
    ensures accepts { EveryAcceptCounted }
    ensures others { CreditedInJoinings }
    ensures cleared { ClearedWhole }
{}

/// M7, a joiner who builds on and a clearing, as histories from bytes with literal figures, and what narrower bounds would come to.
pub fn marked_history()
    ensures marked { MarkedHistory }
    ensures built_on { BuiltOnHistory }
    ensures cleared { ClearedHistory }
    ensures bounds { TightBounds }
{}
