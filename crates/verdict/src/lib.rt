// Deciding: what becomes of a priced request, its joining and then its opening. All refusals of accept but 13 and pricing's are
// here, and nothing is changed.
#![tactic(auto)]

ghost use Rattle.std.specs.Prelude.{◌≡◌, true, ℕ, ◌*◌, ◌≤◌, List, length, OnOk};
ghost use Rattle.ledger.specs.declared.records.Party.{Party};
ghost use Rattle.ledger.specs.Limits.{most_schemes, most_entries};
ghost use Rattle.ledger.specs.Books.{Books, scheme_particulars};
ghost use Rattle.ledger.specs.Columns.{scheme_column, sum_over};
ghost use Rattle.ledger.specs.CapacityColumns.{capacity_column};
ghost use Rattle.ledger.specs.Sound.{sound};
ghost use Rattle.calls.specs.Rules.{parties_of, capacity_of, contribution};
ghost use Rattle.calls.specs.Verdict.{joining_of, joining_part, opens_scheme, entries_needed, schemes_lacking, entries_lacking, course_verdict, verdict};
ghost use Rattle.verdict.specs.Snapshot.{snapshot_books};

use calls::courses::{Contribution, Course, Joining, Verdict};
use charge::Bill;
use ledger::limits::{HIGHEST_NEXT_SCHEME, MOST_CONNECTIONS, MOST_ENTRIES_COUNTED, Schemes};
use ledger::lookup::scheme_at;
use ledger::records::{Ledger, Party, Scheme};
use tagged::file::Refusal;
use tagged::refusals::{
    MONTH_BEFORE_LAST, NO_CONNECTION_LEFT, NO_ENTRY_LEFT, NO_SCHEME_LEFT, SCHEME_NEVER_OPENED,
};

// Whether the table or the limit of entries has no place for so many entries more.
fn entries_lacking(entries: u32, room: usize, needed: u32) -> bool
    requires { (entries ≤ most_entries) × (needed ≤ 2) }
    ensures { result ≡ entries_lacking entries room needed }
{
    let entries_then = entries + needed;
    needed != 0 && (MOST_ENTRIES_COUNTED < entries_then || room < entries_then as usize)
}

// Mark and scheme are the file's numbers, 0 for none: a bill holds them so, and the slip's text takes any bill.
fn opens_scheme(bill: &Bill) -> bool
    ensures { result ≡ opens_scheme bill.now }
{
    bill.applicant.mark == 0 && u64::from(bill.terms.threshold) < bill.reconciliation.x
}

// K: the capacity of all parties of a scheme.
#[tactic(auto, using(crate::proofs::Deciding::capacity_none, crate::proofs::Deciding::capacity_own, crate::proofs::Deciding::capacity_other))]
fn capacity_of(entries: &[Party], scheme: u16) -> u64
    requires { length entries.now ≤ most_entries }
    ensures { (result ≡ sum_over scheme (scheme_column entries.now) (capacity_column entries.now)) × (result ≤ 4294967295 * length entries.now) }
{
    let mut total = 0;
    for party in entries {
        if party.scheme == scheme {
            total += u64::from(party.capacity);
        }
    }
    total
}

// G for a joiner of capacity k.
fn contribution(cost: u32, k: u32, total: u64) -> u32
    requires { (1 ≤ k) × (total ≤ 4294967295 * most_entries) }
    ensures { result ≡ contribution cost k total }
{
    let k = u64::from(k);
    (u64::from(cost) * k / (total + k)) as u32
}

// That the capacity isn't 0 is a clause, here and below: the slip's text takes any bill, and a type would take fewer.
// The joining of this scheme, by its own terms.
fn joining_of(entries: &[Party], scheme: &Scheme, bill: &Bill) -> Joining
    requires { (length entries.now ≤ most_entries) × (1 ≤ bill.now.applicant.capacity) }
    ensures { (books : Books) → capacity_of (parties_of bill.now.applicant.scheme books) ≡ sum_over bill.now.applicant.scheme (scheme_column entries.now) (capacity_column entries.now) → result ≡ joining_of books bill.now (scheme_particulars scheme.now) }
{
    if u32::from(scheme.opening) + u32::from(scheme.term) <= u32::from(bill.applicant.month) {
        return Joining::Ended;
    }
    let capacity = capacity_of(entries, bill.applicant.scheme);
    let collected = contribution(scheme.cost, bill.applicant.capacity, capacity);
    if collected < scheme.minimum {
        return Joining::Small;
    }
    Joining::Pays(Contribution {
        collected,
        fee: scheme.fee,
        capacity,
    })
}

#[tactic(auto, using(crate::proofs::Deciding::scheme_below, crate::proofs::Deciding::joining_missing))]
fn joining_part(ledger: &Ledger, table: &[Party], bill: &Bill) -> Joining
    requires { (ledger.now.count ≤ most_schemes) × (ledger.now.entries ≤ most_entries) × (ledger.now.entries ≤ length table.now) × (1 ≤ bill.now.applicant.capacity) }
    ensures { (room : ℕ) → result ≡ joining_part (snapshot_books ledger.now table.now room) bill.now }
{
    if bill.applicant.scheme == 0 {
        return Joining::NotAsked;
    }
    let schemes = &ledger.schemes[..ledger.count as usize];
    match scheme_at(schemes, u32::from(bill.applicant.scheme)) {
        None => Joining::Ended,
        Some(at) => joining_of(&table[..ledger.entries as usize], &schemes[at], bill),
    }
}

fn entries_needed(course: &Course) -> u32
    ensures { (result ≡ entries_needed course.now) × (result ≤ 2) }
{
    let joins = match course.joining {
        Joining::Pays(_) => 1,
        Joining::NotAsked | Joining::Ended | Joining::Small => 0,
    };
    joins + u32::from(course.opens)
}

fn schemes_lacking(schemes: &Schemes, count: u32, next_scheme: u32, opens: bool) -> bool
    ensures lacking { result ≡ schemes_lacking count next_scheme opens }
    ensures places { length schemes.now ≡ most_schemes }
{
    opens && (schemes.len() <= count as usize || HIGHEST_NEXT_SCHEME <= next_scheme)
}

// 8 and 9, where the table has `room` records.
#[tactic(auto, using(crate::proofs::Deciding::course_by_counts))]
fn course_verdict(ledger: &Ledger, room: usize, course: Course) -> Verdict
    requires { (ledger.now.count ≤ most_schemes) × (ledger.now.entries ≤ most_entries) }
    ensures decided { (table : List Party) → ledger.now.entries ≤ length table → result ≡ course_verdict (snapshot_books ledger.now table room) course }
    ensures places { length ledger.now.schemes ≡ most_schemes }
{
    if schemes_lacking(
        &ledger.schemes,
        ledger.count,
        ledger.next_scheme,
        course.opens,
    ) {
        return Err(Refusal::of_call(NO_SCHEME_LEFT));
    }
    if entries_lacking(ledger.entries, room, entries_needed(&course)) {
        return Err(Refusal::of_call(NO_ENTRY_LEFT));
    }
    Ok(course)
}

#[tactic(auto, using(crate::proofs::Deciding::in_order))]
pub fn verdict_of(ledger: &Ledger, table: &[Party], bill: &Bill) -> Verdict
    requires { (sound ledger.now table.now (length table.now) ≡ true) × (1 ≤ bill.now.applicant.capacity) }
    ensures decided { result ≡ verdict (snapshot_books ledger.now table.now (length table.now)) bill.now }
    ensures places { OnOk result (length ledger.now.schemes ≡ most_schemes) }
{
    if MOST_CONNECTIONS <= ledger.connections {
        return Err(Refusal::of_call(NO_CONNECTION_LEFT));
    }
    if bill.applicant.month < ledger.month {
        return Err(Refusal::of_call(MONTH_BEFORE_LAST));
    }
    if ledger.next_scheme <= u32::from(bill.applicant.scheme) {
        return Err(Refusal::of_call(SCHEME_NEVER_OPENED));
    }
    let course = Course {
        joining: joining_part(ledger, table, bill),
        opens: opens_scheme(bill),
    };
    course_verdict(ledger, table.len(), course)
}
