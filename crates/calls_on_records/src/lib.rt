// The calls on the first records of a lent array. The table is its first `room` records, or all of them.
#![tactic(auto)]

ghost use Rattle.std.specs.Prelude.{◌≡◌, min, length};
ghost use Rattle.ledger.specs.Limits.{most_schemes, most_entries};
ghost use Rattle.calls.specs.Decision.{of_accept, of_entry_call};
ghost use Rattle.calls.specs.Decision as Call;
ghost use Rattle.calls_on_records.specs.OnRecords.{SoundOnRecords, PromisedOnRecords};

use calls::answers::{AcceptAnswer, Answer};
use ledger::limits::{MOST_ENTRIES, Parties};
use ledger::records::Ledger;

// How many records the table has.
pub fn records_of(room: usize) -> usize
    ensures { result ≡ min room most_entries }
{
    room.min(MOST_ENTRIES)
}

// Each call on a ledger that is known to be sound: one that was just read is not tested twice. That a lent ledger has all its places
// for schemes is a clause, as its type says it only of one by value.
// Each lends the records and hands on to one call: a function over a closure for the call would be no shorter.
pub fn accept_sound(
    ledger: &mut Ledger,
    parties: &mut Parties,
    room: usize,
    book: &[u8],
    request: &[u8],
) -> AcceptAnswer
    requires places { length ledger.old.schemes ≡ most_schemes }
    requires stands { SoundOnRecords room ledger.old parties.old }
    ensures { PromisedOnRecords room ledger.old parties.old (Call.accept book.now request.now) (of_accept result) ledger.new parties.new }
{
    let records = records_of(room);
    acceptance::accept::accept_sound(ledger, &mut parties[..records], book, request)
}

pub fn pay_out_sound(
    ledger: &Ledger,
    parties: &mut Parties,
    room: usize,
    entry: u32,
    amount: u64,
) -> Answer
    requires { SoundOnRecords room ledger.now parties.old }
    ensures { PromisedOnRecords room ledger.now parties.old (Call.pay_out entry amount) (of_entry_call result) ledger.now parties.new }
{
    let records = records_of(room);
    entry_calls::pay_out_sound(ledger, &mut parties[..records], entry, amount)
}

pub fn hand_over_sound(
    ledger: &Ledger,
    parties: &mut Parties,
    room: usize,
    entry: u32,
    person: u32,
) -> Answer
    requires { SoundOnRecords room ledger.now parties.old }
    ensures { PromisedOnRecords room ledger.now parties.old (Call.hand_over entry person) (of_entry_call result) ledger.now parties.new }
{
    let records = records_of(room);
    entry_calls::hand_over_sound(ledger, &mut parties[..records], entry, person)
}

pub fn clear_sound(ledger: &mut Ledger, parties: &mut Parties, room: usize, month: u16) -> Answer
    requires places { length ledger.old.schemes ≡ most_schemes }
    requires stands { SoundOnRecords room ledger.old parties.old }
    ensures { PromisedOnRecords room ledger.old parties.old (Call.clear month) (of_entry_call result) ledger.new parties.new }
{
    let records = records_of(room);
    clearing::clear_sound(ledger, &mut parties[..records], month)
}
