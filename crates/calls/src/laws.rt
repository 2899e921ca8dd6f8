// Theorems over how the calls end. Each function is there for its contract alone, a law on the definitions of specs/.

ghost use Rattle.calls.specs.Laws.{ByEntries, CallByEnding, CallByNumber, PromisedAnswer};

/// A call's ending tells whether it is done, and its answer; so what a call promises by its ending holds of its answer.
#[tactic(auto, using(crate::proofs::Theorems::CallEnding::call_by_number, crate::proofs::Theorems::CallEnding::call_by_ending, crate::proofs::Theorems::Promised::promised_answers))]
pub fn calls_by_ending()
    ensures number { CallByNumber }
    ensures answer { CallByEnding }
    ensures promised { PromisedAnswer }
{}

/// A call's answer, and the ledger and the entries that it leaves, depend on the table by its entries and its length alone.
#[tactic(auto, using(crate::proofs::Theorems::ByEntries::by_entries))]
pub fn calls_by_entries()
    ensures { ByEntries }
{}
