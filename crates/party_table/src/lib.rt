// The writes to the lent party table: of one record each, but for a ledger that is read, whose entries come all at once.
#![tactic(auto)]

ghost use Rattle.std.specs.Prelude.{◌≡◌, ◌++◌, ◌+◌, ◌≤◌, ◌<◌, ◌^◌, length, set, get_or, drop};
ghost use Rattle.ledger.specs.Records.{no_party};
ghost use Rattle.ledger.specs.Updates.{with_paid_out, with_person};
ghost use Rattle.ledger.specs.Table.{credited_more};

use ledger::records::Party;

// Document 01 names the form: a thin function each to append an entry, to credit one and to pay one. Table and place go side by side: a
// place doesn't know the table that it was found in.
pub fn append_one(table: &mut [Party], at: usize, party: Party)
    requires { at < length table.old }
    ensures { table.new ≡ set table.old at party }
{
    table[at] = party;
}

pub fn credit_one(table: &mut [Party], at: usize, credit: u64)
    requires { (at < length table.old) × ((get_or table.old at no_party).credited + credit < 2 ^ 64) }
    ensures { table.new ≡ set table.old at (credited_more (get_or table.old at no_party) credit) }
{
    table[at].credited += credit;
}

pub fn pay_one(table: &mut [Party], at: usize, amount: u64)
    requires { (at < length table.old) × ((get_or table.old at no_party).paid_out + amount < 2 ^ 64) }
    ensures { table.new ≡ set table.old at (with_paid_out ((get_or table.old at no_party).paid_out + amount) (get_or table.old at no_party)) }
{
    table[at].paid_out += amount;
}

pub fn hand_one(table: &mut [Party], at: usize, person: u32)
    requires { at < length table.old }
    ensures { table.new ≡ set table.old at (with_person person (get_or table.old at no_party)) }
{
    table[at].person = person;
}

// The record at one place is put at another too, where those that stay close up.
pub fn move_one(table: &mut [Party], from: usize, to: usize)
    requires { (from < length table.old) × (to < length table.old) }
    ensures { table.new ≡ set table.old to (get_or table.old from no_party) }
{
    table[to] = table[from];
}

// The first records of the table become these.
pub fn store_each(table: &mut [Party], parties: &[Party])
    requires { length parties.now ≤ length table.old }
    ensures { table.new ≡ parties.now ++ drop (length parties.now) table.old }
{
    table[..parties.len()].copy_from_slice(parties);
}
