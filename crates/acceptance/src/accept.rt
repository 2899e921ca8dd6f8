// Accept: what it answers, and what it makes of the ledger and the table, in three steps: the connection is booked, the joining
// that is paid comes next, and a scheme that opens last. Deciding is the crate `verdict`; nothing is refused here once a verdict accepts.
ghost use Rattle.std.specs.Prelude.{◌≡◌, true, cond, ℕ, ◌+◌, ◌*◌, ◌<◌, ◌≤◌, List, length, take, set, get_or, Ok};
ghost use Rattle.std.proofs.lemmas.List.Edits.{sets};
ghost use Rattle.charge.specs.Price.{price_of};
ghost use Rattle.charge.specs.BillLimits.{BillWithin};
ghost use Rattle.field_values.specs.Limits.{highest_capacity};
ghost use Rattle.ledger.specs.declared.records.Party.{Party};
ghost use Rattle.ledger.specs.Limits.{most_schemes, most_entries, most_connections, highest_credited, highest_next_scheme, highest_next_entry};
ghost use Rattle.ledger.specs.Records.{no_party};
ghost use Rattle.ledger.specs.Books.{Books};
ghost use Rattle.ledger.specs.Columns.{scheme_column, sum_over};
ghost use Rattle.ledger.specs.CapacityColumns.{capacity_column};
ghost use Rattle.ledger.specs.Sound.{sound};
ghost use Rattle.ledger.specs.Table.{credit_each};
ghost use Rattle.ledger.specs.Updates.{with_entry};
ghost use Rattle.calls.specs.ByPlace.{credits_among};
ghost use Rattle.calls.specs.Carried.{new_party};
ghost use Rattle.calls.specs.Calls.{state_of, Promised};
ghost use Rattle.calls.specs.Decision.{joining_answer, acceptance_of, of_accept};
ghost use Rattle.calls.specs.Decision as Call;
ghost use Rattle.calls.specs.Verdict.{verdict};
ghost use Rattle.verdict.specs.Snapshot.{snapshot_books};
ghost use Rattle.acceptance.specs.Plan.{booked_ledger, fee_taken, joined_ledger, opened_ledger, credits_by, joiner_added, course_plan, bill_plan, plan_of, plan_table};
ghost use Rattle.acceptance.specs.PlanNeeds.{Bookable, FeeDue, FeesDue, CreditsDue};

use calls::answers::{AcceptAnswer, Acceptance, Collected, JoiningAnswer};
use calls::courses::{Course, Joining};
use charge::Bill;
use ledger::lookup::scheme_at;
use ledger::records::{Ledger, Party, Scheme};
use ledger::sound::is_sound;
use party_table::{append_one, credit_one};
use tagged::file::Refusal;
use tagged::refusals::LEDGER_UNSOUND;

// ---- booked

// Here and below ledger and bill are lent apart, since a call changes the one and only reads the other.
// That a bill is within the limits is a clause: the slip's text takes any bill, and a type would take fewer.
fn book(ledger: &mut Ledger, bill: &Bill)
    requires { Bookable ledger.old × BillWithin bill.now }
    ensures { ledger.new ≡ booked_ledger bill.now ledger.old }
{
    ledger.month = bill.applicant.month;
    ledger.connections += 1;
    ledger.charged += bill.reconciliation.cc;
    ledger.borne += bill.reconciliation.borne;
}

// ---- joined

// An entry more, which has the next number.
fn count_entry(ledger: &mut Ledger)
    requires { (ledger.old.entries < most_entries) × (ledger.old.next_entry ≤ highest_next_entry most_connections + 1) }
    ensures { ledger.new ≡ with_entry ledger.old }
{
    ledger.entries += 1;
    ledger.next_entry += 1;
}

// The fee taken at a scheme's place, and the joiner's entry counted.
fn take_fee(ledger: &mut Ledger, at: usize, fee: u32)
    requires { FeeDue ledger.old.entries ledger.old.next_entry ledger.old.schemes at }
    ensures { ledger.new ≡ fee_taken at fee ledger.old }
{
    ledger.schemes[at].fees += u64::from(fee);
    count_entry(ledger);
}

// An amount is credited to the entries of a scheme: each gets what the quotient by the running capacity grows by.
#[tactic(auto, using(crate::proofs::Booking::crediting))]
fn credit_scheme(entries: &mut [Party], scheme: u16, amount: u64, total: u64)
    requires few { length entries.old ≤ most_entries }
    requires divided { (amount < 4294967296) × (1 ≤ total) × (total ≤ highest_capacity * most_entries) }
    requires capacity { total ≡ sum_over scheme (scheme_column entries.old) (capacity_column entries.old) }
    requires fits { (i : ℕ) → i < length entries.old → (get_or entries.old i no_party).credited ≤ highest_credited }
    ensures { entries.new ≡ credit_each entries.old (credits_among scheme amount entries.old) }
{
    let mut capacity: u64 = 0;
    let mut credited: u64 = 0;
    // By place, since the function that credits one entry writes there.
    for i in 0..entries.len() {
        let party = entries[i];
        if party.scheme == scheme {
            capacity += u64::from(party.capacity);
            let due = amount * capacity / total;
            credit_one(entries, i, due - credited);
            credited = due;
        }
    }
}

fn new_party(number: u32, scheme: u16, bill: &Bill, put_in: u32) -> Party
    ensures { result ≡ new_party number scheme bill.now put_in }
{
    Party {
        number,
        scheme,
        person: bill.applicant.person,
        capacity: bill.applicant.capacity,
        put_in,
        ..Party::default()
    }
}

// The scheme's entries get their credits of G less the fee, and the joiner its entry.
#[tactic(auto, using(ledger::proofs::Theorems::Table::credit_none, crate::proofs::Booking::paid_table))]
fn join(ledger: &mut Ledger, table: &mut [Party], bill: &Bill, joining: Joining)
    requires fees { FeesDue ledger.old bill.now joining }
    requires credits { CreditsDue (take ledger.old.entries table.old) bill.now joining }
    requires places { (ledger.old.count ≤ most_schemes) × (ledger.old.entries ≤ most_entries) × (ledger.old.entries + (joiner_added ledger.old.next_entry bill.now joining).count ≤ length table.old) }
    requires fits { (i : ℕ) → i < length (take ledger.old.entries table.old) → (get_or (take ledger.old.entries table.old) i no_party).credited ≤ highest_credited }
    ensures ledger { ledger.new ≡ joined_ledger joining bill.now ledger.old }
    ensures table { table.new ≡ sets (credit_each table.old (credits_by (take ledger.old.entries table.old) bill.now joining)) ledger.old.entries (take (joiner_added ledger.old.next_entry bill.now joining).count (joiner_added ledger.old.next_entry bill.now joining).parties) }
{
    if let Joining::Pays(paid) = joining {
        let scheme = bill.applicant.scheme;
        let entries = ledger.entries as usize;
        let amount = u64::from(paid.collected - paid.fee);
        credit_scheme(&mut table[..entries], scheme, amount, paid.capacity);
        let joiner = new_party(ledger.next_entry, scheme, bill, paid.collected);
        append_one(table, entries, joiner);
        let schemes = &ledger.schemes[..ledger.count as usize];
        if let Some(at) = scheme_at(schemes, u32::from(scheme)) {
            take_fee(ledger, at, paid.fee);
        }
    }
}

// ---- opened

// The scheme that opens, with its first entry, or nothing. Whether it opens is asked here, so that what becomes of ledger and table
// is promised in one.
fn open(ledger: &mut Ledger, table: &mut [Party], bill: &Bill, opens: bool)
    requires places { opens ≡ true → (ledger.old.count < most_schemes) × (ledger.old.entries < most_entries) × (ledger.old.entries < length table.old) }
    requires numbers { opens ≡ true → (ledger.old.next_scheme < highest_next_scheme) × (ledger.old.next_entry ≤ highest_next_entry most_connections + 1) }
    requires within { BillWithin bill.now }
    ensures ledger { ledger.new ≡ opened_ledger opens bill.now ledger.old }
    ensures table { table.new ≡ cond opens (set table.old ledger.old.entries (new_party ledger.old.next_entry ledger.old.next_scheme bill.now bill.now.reconciliation.x)) table.old }
{
    if !opens {
        return;
    }
    let cost = bill.reconciliation.x as u32;
    let at = ledger.count as usize;
    let opener = new_party(ledger.next_entry, ledger.next_scheme as u16, bill, cost);
    append_one(table, ledger.entries as usize, opener);
    ledger.schemes[at] = Scheme {
        number: ledger.next_scheme,
        cost,
        fee: bill.terms.fee,
        minimum: bill.terms.minimum,
        opening: bill.applicant.month,
        term: bill.terms.term,
        fees: 0,
    };
    ledger.count += 1;
    ledger.next_scheme += 1;
    count_entry(ledger);
}

// ---- the answer

// By name and no From: the joiner's number comes from the ledger, beside the joining.
fn joining_answer(next_entry: u32, joining: &Joining) -> JoiningAnswer
    ensures { (books : Books) → books.next_entry ≡ next_entry → result ≡ joining_answer books joining.now }
{
    match joining {
        Joining::NotAsked => JoiningAnswer::NotAsked,
        Joining::Ended => JoiningAnswer::Ended,
        Joining::Small => JoiningAnswer::Small,
        Joining::Pays(paid) => JoiningAnswer::Joined(Collected {
            entry: next_entry,
            contribution: paid.collected,
        }),
    }
}

fn acceptance_of(ledger: &Ledger, bill: &Bill, course: &Course) -> Acceptance
    requires { course.now.opens ≡ true → ledger.now.next_scheme < highest_next_scheme }
    ensures { (table : List Party) (room : ℕ) → result ≡ acceptance_of (snapshot_books ledger.now table room) bill.now course.now }
{
    Acceptance {
        reconciliation: bill.reconciliation,
        joining: joining_answer(ledger.next_entry, &course.joining),
        // No then_some: that the number is below 65,536 is known only where a scheme opens.
        opening: if course.opens {
            Some(ledger.next_scheme as u16)
        } else {
            None
        },
    }
}

// ---- the call

// What a verdict that accepts makes of the ledger and the table.
#[tactic(auto, using(crate::proofs::Carrying::carrying))]
fn carry_out(ledger: &mut Ledger, table: &mut [Party], bill: &Bill, course: &Course) -> Acceptance
    requires stands { sound ledger.old table.old (length table.old) ≡ true }
    requires within { BillWithin bill.now }
    requires places { length ledger.old.schemes ≡ most_schemes }
    requires accepts { verdict (snapshot_books ledger.old table.old (length table.old)) bill.now ≡ Ok course.now }
    ensures answer { Ok result ≡ (course_plan ledger.old table.old (length table.old) bill.now course.now).answer }
    ensures ledger { ledger.new ≡ (course_plan ledger.old table.old (length table.old) bill.now course.now).ledger }
    ensures table { table.new ≡ plan_table ledger.old table.old (course_plan ledger.old table.old (length table.old) bill.now course.now) }
{
    let acceptance = acceptance_of(ledger, bill, course);
    book(ledger, bill);
    join(ledger, table, bill, course.joining);
    open(ledger, table, bill, course.opens);
    acceptance
}

#[tactic(auto, unfolding(crate::specs::Plan::bill_plan))]
fn accept_bill(ledger: &mut Ledger, table: &mut [Party], bill: &Bill) -> AcceptAnswer
    requires stands { sound ledger.old table.old (length table.old) ≡ true }
    requires within { BillWithin bill.now }
    ensures answer { result ≡ (bill_plan ledger.old table.old (length table.old) bill.now).answer }
    ensures ledger { ledger.new ≡ (bill_plan ledger.old table.old (length table.old) bill.now).ledger }
    ensures table { table.new ≡ plan_table ledger.old table.old (bill_plan ledger.old table.old (length table.old) bill.now) }
{
    let course = verdict::verdict_of(ledger, table, bill)?;
    Ok(carry_out(ledger, table, bill, &course))
}

// Accept on a ledger that is known to be sound: the book, the request, 4, 5, and then by the verdict.
// Apart from `accept`, so that a ledger that was just read, and found sound, isn't tested twice.
#[tactic(auto, using(crate::proofs::Theorems::Plan::plan_priced, charge::proofs::Theorems::PriceEnding::promised_price))]
pub fn accept_sound(
    ledger: &mut Ledger,
    table: &mut [Party],
    book: &[u8],
    request: &[u8],
) -> AcceptAnswer
    requires { sound ledger.old table.old (length table.old) ≡ true }
    ensures answer { result ≡ (plan_of ledger.old table.old (length table.old) (price_of book.now request.now)).answer }
    ensures ledger { ledger.new ≡ (plan_of ledger.old table.old (length table.old) (price_of book.now request.now)).ledger }
    ensures table { table.new ≡ plan_table ledger.old table.old (plan_of ledger.old table.old (length table.old) (price_of book.now request.now)) }
{
    let bill = charge::price(book, request)?;
    accept_bill(ledger, table, &bill)
}

// The same on any ledger: 13 first.
pub fn accept(ledger: &mut Ledger, table: &mut [Party], book: &[u8], request: &[u8]) -> AcceptAnswer
    ensures { Promised (state_of ledger.old table.old) (Call.accept book.now request.now) (of_accept result) (state_of ledger.new table.new) }
{
    if !is_sound(ledger, table) {
        return Err(Refusal::of_call(LEDGER_UNSOUND));
    }
    accept_sound(ledger, table, book, request)
}
