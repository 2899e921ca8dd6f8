// Pay-out and hand-over over a ledger and its lent party table: document 01, 'Ledger calls'. They change no other entry and nothing
// of the ledger, and nothing at all where they refuse.
#![tactic(auto)]

ghost use Rattle.std.specs.Prelude.{◌≡◌, take, Some, None, MatchResult};
ghost use Rattle.tagged.specs.File.{refusal};
ghost use Rattle.tagged.specs.Refusals.{no_such_entry};
ghost use Rattle.ledger.specs.EntryPlace.{entry_place};
ghost use Rattle.calls.specs.Calls.{state_of, Promised};
ghost use Rattle.calls.specs.Decision.{pay_out, hand_over, of_entry_call};
ghost use Rattle.entry_calls.specs.EntryCalls.{entry_change, changed_table};

use calls::answers::Answer;
use ledger::lookup::entry_at;
use ledger::records::{Ledger, Party};
use ledger::sound::is_sound;
use party_table::{hand_one, pay_one};
use tagged::file::Refusal;
use tagged::refusals::{LEDGER_UNSOUND, NO_SUCH_ENTRY, PAY_OUT_ABOVE_CREDIT};

// An entry's place among those that the table holds.
#[tactic(auto, using(std::proofs::lemmas::List::take_min))]
fn place_of(ledger: &Ledger, table: &[Party], entry: u32) -> Result<usize, Refusal>
    ensures { MatchResult result (λ at. entry_place entry (take ledger.now.entries table.now) ≡ Some at) (λ r. (entry_place entry (take ledger.now.entries table.now) ≡ None) × (r ≡ refusal no_such_entry 0 0)) }
{
    let entries = &table[..table.len().min(ledger.entries as usize)];
    entry_at(entries, entry).ok_or(Refusal::of_call(NO_SUCH_ENTRY))
}

// Entry and amount, entry and person: two numbers each from the C interface down to here, and no struct.
// Pay-out on a ledger whose soundness the caller has judged.
// This and the next stand apart from the calls below, so that a ledger that was just read isn't tested twice.
#[tactic(auto, using(crate::proofs::Kept::paying))]
pub fn pay_out_sound(ledger: &Ledger, table: &mut [Party], entry: u32, amount: u64) -> Answer
    ensures answer { result ≡ (entry_change ledger.now table.old (pay_out entry amount)).answer }
    ensures after { table.new ≡ changed_table table.old (entry_change ledger.now table.old (pay_out entry amount)) }
{
    let at = place_of(ledger, table, entry)?;
    let party = table[at];
    if party.credited < party.paid_out || party.credited - party.paid_out < amount {
        return Err(Refusal::of_call(PAY_OUT_ABOVE_CREDIT));
    }
    pay_one(table, at, amount);
    Ok(())
}

// Hand-over on a ledger whose soundness the caller has judged.
#[tactic(auto, using(crate::proofs::Kept::handing))]
pub fn hand_over_sound(ledger: &Ledger, table: &mut [Party], entry: u32, person: u32) -> Answer
    ensures answer { result ≡ (entry_change ledger.now table.old (hand_over entry person)).answer }
    ensures after { table.new ≡ changed_table table.old (entry_change ledger.now table.old (hand_over entry person)) }
{
    let at = place_of(ledger, table, entry)?;
    hand_one(table, at, person);
    Ok(())
}

// This and the next are one test and one call each: a function over a closure for the call would be no shorter.
pub fn pay_out(ledger: &Ledger, table: &mut [Party], entry: u32, amount: u64) -> Answer
    ensures { Promised (state_of ledger.now table.old) (pay_out entry amount) (of_entry_call result) (state_of ledger.now table.new) }
{
    if !is_sound(ledger, table) {
        return Err(Refusal::of_call(LEDGER_UNSOUND));
    }
    pay_out_sound(ledger, table, entry, amount)
}

pub fn hand_over(ledger: &Ledger, table: &mut [Party], entry: u32, person: u32) -> Answer
    ensures { Promised (state_of ledger.now table.old) (hand_over entry person) (of_entry_call result) (state_of ledger.now table.new) }
{
    if !is_sound(ledger, table) {
        return Err(Refusal::of_call(LEDGER_UNSOUND));
    }
    hand_over_sound(ledger, table, entry, person)
}
