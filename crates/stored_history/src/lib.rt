// Demand 3 for a ledger that is kept as its stored bytes from call to call. The promises are in
// specs/. Each function is there for its contract alone, a law on those definitions.
#![tactic(auto)]

ghost use Rattle.stored_history.specs.Cases.BytesKept.{BytesKept};
ghost use Rattle.stored_history.specs.Laws.{KeptReadsBack, NewStoredKept, StoredTraceExists};
ghost use Rattle.stored_history.specs.StoredDemandThree.{EveryListOfStoredCalls};

/// After every list of calls the bytes kept are the form of what the history comes to, of which demand 3 holds.
pub fn every_list_of_stored_calls()
    ensures holds { EveryListOfStoredCalls }
    ensures reads_back { KeptReadsBack }
    ensures exists { StoredTraceExists }
    ensures starts { NewStoredKept }
{}

/// Which bytes are kept after a call, case by case.
pub fn bytes_kept_cases()
    ensures { BytesKept }
{}
