// What holds of the stored form and of the calls on stored bytes: bytes and ledgers tell each other, and every refusal and ending.
// Each function is there for its contract alone, a law on the definitions of the crates below.
#![tactic(auto)]

ghost use Rattle.stored_laws.specs.Laws.{BackAndMoved, CallReadsBack, CheckByEnding, CheckByNumber, FullTableRefused, LongTableReads, MoveBackKeepsValues, MoveByNumber, MoveKeepsValues, MoveRefusalNumbers, MovedAndBack, NewByNumber, NewRefusedChangesNothing, OldSound, PromisedCheck, PromisedMove, PromisedNew, PromisedReading, PromisedStored, PromisedWriting, ReadByNumber, ReadOfWrite, ReadRefusalNumbers, ReadRefused3, RefusedMoveChangesNothing, RefusedReadChangesNothing, RefusedWriteChangesNothing, ShortTableCallRefused, ShortTableRefused, StoredByNumber, StoredLedgersDiffer, StoredRefusalNumbers, StoredRefused14, StoredRefusedChangesNothing, WriteByEnding, WriteByNumber, WriteOfRead, WriteRefusalNumbers, WrittenWithin};

/// A written ledger reads back as itself, an accepted file writes back as the same bytes, and no two files are one ledger.
#[tactic(auto, using(stored::proofs::Theorems::RoundTrips::read_of_write, stored::proofs::Theorems::RoundTrips::write_of_read, stored::proofs::Theorems::RoundTrips::stored_ledgers_differ))]
pub fn form_reads_back()
    ensures written { ReadOfWrite }
    ensures read { WriteOfRead }
    ensures differ { StoredLedgersDiffer }
{}

/// Reading refuses with these numbers alone, with 3 where the letters stand, and then changes nothing; its ending tells its answer.
#[tactic(auto, using(stored::proofs::Theorems::Reading::read_refusal_numbers, stored::proofs::Theorems::Reading::refused_read_changes_nothing, stored::proofs::Theorems::StoredEnding::read_by_number))]
pub fn reading_ends()
    ensures numbers { ReadRefusalNumbers }
    ensures letters { ReadRefused3 }
    ensures nothing { RefusedReadChangesNothing }
    ensures done { ReadByNumber }
    ensures promised { PromisedReading }
{}

/// Writing refuses with these numbers alone and then changes nothing; what it writes fits the output; its ending tells its answer.
#[tactic(auto, using(stored::proofs::Theorems::Writing::write_refusal_numbers, stored::proofs::Theorems::Writing::refused_write_changes_nothing, stored::proofs::Theorems::StoredEnding::write_by_number, stored::proofs::Theorems::StoredEnding::write_by_ending))]
pub fn writing_ends()
    ensures numbers { WriteRefusalNumbers }
    ensures within { WrittenWithin }
    ensures nothing { RefusedWriteChangesNothing }
    ensures done { WriteByNumber }
    ensures answer { WriteByEnding }
    ensures promised { PromisedWriting }
{}

/// What one move between the forms has written the other brings back to the same bytes, and refuses with nothing but 14.
#[tactic(auto, using(stored::proofs::Theorems::Moves::moved_and_back, stored::proofs::Theorems::Moves::back_and_moved))]
pub fn moves_bring_back()
    ensures to_new { MovedAndBack }
    ensures back { BackAndMoved }
{}

/// Either move keeps month, connections, both sums, and the six values of each scheme and of each entry.
pub fn moves_keep_values()
    ensures to_new { MoveKeepsValues }
    ensures back { MoveBackKeepsValues }
{}

/// The move to the new form judges document 01's soundness, no more and no less.
#[tactic(auto, using(stored::proofs::Theorems::OldSound::old_sound_judged))]
pub fn old_sound()
    ensures { OldSound }
{}

/// The moves refuse with their numbers alone and then change nothing; their endings tell their answers.
pub fn moves_end()
    ensures numbers { MoveRefusalNumbers }
    ensures nothing { RefusedMoveChangesNothing }
    ensures done { MoveByNumber }
    ensures promised { PromisedMove }
{}

/// A refused call on stored bytes has one of its numbers and changes no byte of the output; 14 alone comes after the call.
#[tactic(auto, using(stored_calls::proofs::Theorems::StoredCalls::stored_refusal_numbers, stored_calls::proofs::Theorems::StoredCalls::stored_refused_changes_nothing, stored_calls::proofs::Theorems::StoredCalls::new_refused_changes_nothing, stored_calls::proofs::Theorems::StoredCallsRefusals::stored_refused_14))]
pub fn stored_calls_refused()
    ensures numbers { StoredRefusalNumbers }
    ensures nothing { StoredRefusedChangesNothing }
    ensures new_nothing { NewRefusedChangesNothing }
    ensures last { StoredRefused14 }
{}

/// What another length of the table makes of a stored ledger that is read.
#[tactic(auto, using(stored_calls::proofs::Theorems::StoredCallsRefusals::short_table_refused, stored_calls::proofs::Theorems::StoredCallsRefusals::short_table_call_refused, stored_calls::proofs::Theorems::StoredCallsRefusals::long_table_reads, stored_calls::proofs::Theorems::StoredCallsRefusals::full_table_refused))]
pub fn table_lengths()
    ensures short { ShortTableRefused }
    ensures short_call { ShortTableCallRefused }
    ensures long { LongTableReads }
    ensures full { FullTableRefused }
{}

/// What a done call on stored bytes wrote reads back as the ledger and the entries that it leaves.
#[tactic(auto, using(stored_calls::proofs::Theorems::StoredCallsReadBack::call_reads_back))]
pub fn calls_read_back()
    ensures { CallReadsBack }
{}

/// The ending of a call on stored bytes tells its answer, as does that of their check.
#[tactic(auto, using(stored_calls::proofs::Theorems::StoredCallEnding::stored_by_number, stored_calls::proofs::Theorems::StoredCallEnding::new_by_number, stored_calls::proofs::Theorems::StoredCallEnding::check_by_number, stored_calls::proofs::Theorems::StoredCallEnding::check_by_ending))]
pub fn stored_calls_by_ending()
    ensures done { StoredByNumber }
    ensures new_done { NewByNumber }
    ensures check_done { CheckByNumber }
    ensures check { CheckByEnding }
    ensures promised { PromisedStored }
    ensures promised_new { PromisedNew }
    ensures promised_check { PromisedCheck }
{}
