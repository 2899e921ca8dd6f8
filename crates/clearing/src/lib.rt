// Clearing over a ledger and its lent party table: document 02, E8. A crate of its own, since pay-out and hand-over in `entry_calls` change one record of the
// table and nothing of the ledger.
#![tactic(auto)]

ghost use Rattle.std.specs.Prelude.{◌≡◌, true, false, ℕ, ◌*◌, ◌-◌, ◌<◌, ◌≤◌, ◌&&◌, map, filter, length, take, get_or};
ghost use Rattle.field_values.specs.Limits.{highest_minimum};
ghost use Rattle.ledger.specs.Limits.{most_schemes, most_entries, highest_credited};
ghost use Rattle.ledger.specs.Lists.{at_start};
ghost use Rattle.ledger.specs.Records.{no_scheme, new_ledger};
ghost use Rattle.ledger.specs.Books.{books_of};
ghost use Rattle.ledger.specs.RefusalNumbers.{one_of};
ghost use Rattle.ledger.specs.Sound.{schemes_rise, sound};
ghost use Rattle.ledger.specs.Tallied.{OwnPlaces};
ghost use Rattle.calls.specs.Calls.{state_of, Promised};
ghost use Rattle.calls.specs.Decision.{goes, of_entry_call};
ghost use Rattle.calls.specs.Decision as Call;
ghost use Rattle.clearing.specs.Clearing.{ended_by, settled, gone_numbers, schemes_left, entries_left, fees_gone, paid_out_gone};

use calls::answers::Answer;
use ledger::limits::{MOST_SCHEMES, Schemes};
use ledger::lookup::scheme_at;
use ledger::records::{Ledger, Party, Scheme};
use ledger::sound::is_sound;
use party_table::move_one;
use tagged::file::Refusal;
use tagged::refusals::{LEDGER_UNSOUND, MONTH_BEFORE_LAST};

// ---- which schemes go

// For each place of the ledger whether the scheme there goes.
type Going = [bool; MOST_SCHEMES];

fn ended_by(scheme: &Scheme, month: u16) -> bool
    ensures { result ≡ ended_by month scheme.now }
{
    u32::from(scheme.opening) + u32::from(scheme.term) <= u32::from(month)
}

fn ended_schemes(schemes: &[Scheme], month: u16) -> Going
    requires { length schemes.now ≤ most_schemes }
    ensures { (k : ℕ) → k < length schemes.now → get_or result k false ≡ ended_by month (get_or schemes.now k no_scheme) }
{
    let mut going = [false; MOST_SCHEMES];
    for (k, scheme) in schemes.iter().enumerate() {
        going[k] = ended_by(scheme, month);
    }
    going
}

// A scheme stays while one of its entries has standing credit. An entry without needs no look-up.
fn keep_owing(going: &mut Going, schemes: &[Scheme], entries: &[Party])
    requires { (length schemes.now ≤ most_schemes) × OwnPlaces schemes.now }
    ensures { (k : ℕ) → k < length schemes.now → get_or going.new k false ≡ (get_or going.old k false && settled (get_or schemes.now k no_scheme).number entries.now) }
{
    for entry in entries {
        if entry.credited != entry.paid_out {
            if let Some(at) = scheme_at(schemes, u32::from(entry.scheme)) {
                going[at] = false;
            }
        }
    }
}

fn going_schemes(ledger: &Ledger, table: &[Party], month: u16) -> Going
    requires { sound ledger.now table.now (length table.now) ≡ true }
    ensures places { length result ≡ most_schemes }
    ensures gone { gone_numbers result (take ledger.now.count ledger.now.schemes) ≡ map (λ row. row.number) (filter (goes (books_of ledger.now table.now) month) (books_of ledger.now table.now).schemes) }
{
    let schemes = &ledger.schemes[..ledger.count as usize];
    let mut going = ended_schemes(schemes, month);
    keep_owing(&mut going, schemes, &table[..ledger.entries as usize]);
    going
}

// ---- closing up

// How many are left, and what those that go come to: entries in what they were paid out, schemes in fees.
#[derive(Clone, Copy)]
struct ClosedUp {
    left: u32,
    gone: u64,
}

// Whether the scheme with this number goes.
fn goes(ledger: &Ledger, going: &Going, number: u16) -> bool
    requires { (ledger.now.count ≤ most_schemes) × (schemes_rise ledger.now ≡ true) }
    ensures { result ≡ one_of (gone_numbers going.now (take ledger.now.count ledger.now.schemes)) number }
{
    let schemes = &ledger.schemes[..ledger.count as usize];
    match scheme_at(schemes, u32::from(number)) {
        Some(at) => going[at],
        None => false,
    }
}

// The records past the last entry that is left stay as they were.
fn close_up_entries(ledger: &Ledger, table: &mut [Party], going: &Going) -> ClosedUp
    requires { sound ledger.now table.old (length table.old) ≡ true }
    ensures left { result.left ≡ length (entries_left (gone_numbers going.now (take ledger.now.count ledger.now.schemes)) (take ledger.now.entries table.old)) }
    ensures gone { result.gone ≡ paid_out_gone (gone_numbers going.now (take ledger.now.count ledger.now.schemes)) (take ledger.now.entries table.old) }
    ensures within { result.gone ≤ highest_credited * most_entries }
    ensures table { table.new ≡ at_start (entries_left (gone_numbers going.now (take ledger.now.count ledger.now.schemes)) (take ledger.now.entries table.old)) table.old }
{
    let mut left = 0;
    let mut gone = 0;
    for i in 0..ledger.entries as usize {
        let party = table[i];
        if goes(ledger, going, party.scheme) {
            gone += party.paid_out;
        } else {
            move_one(table, i, left);
            left += 1;
        }
    }
    ClosedUp {
        left: left as u32,
        gone,
    }
}

// Zeros stand past the last scheme that is left.
fn close_up_schemes(schemes: &mut Schemes, count: usize, going: &Going) -> ClosedUp
    requires few { count ≤ most_schemes }
    requires places { (k : ℕ) → k < count → get_or going.now k false ≡ one_of (gone_numbers going.now (take count schemes.old)) (get_or schemes.old k no_scheme).number }
    requires rest { (i : ℕ) → count ≤ i → get_or schemes.old i no_scheme ≡ no_scheme }
    requires fees { (k : ℕ) → k < count → (get_or schemes.old k no_scheme).fees ≤ highest_minimum * (most_entries - 1) }
    ensures left { result.left ≡ length (schemes_left (gone_numbers going.now (take count schemes.old)) (take count schemes.old)) }
    ensures gone { result.gone ≡ fees_gone (gone_numbers going.now (take count schemes.old)) (take count schemes.old) }
    ensures within { result.gone ≤ highest_minimum * (most_entries - 1) * most_schemes }
    ensures schemes { schemes.new ≡ at_start (schemes_left (gone_numbers going.now (take count schemes.old)) (take count schemes.old)) new_ledger.schemes }
{
    let mut left = 0;
    let mut gone = 0;
    for k in 0..count {
        let scheme = schemes[k];
        schemes[k] = Scheme::default();
        if going[k] {
            gone += scheme.fees;
        } else {
            schemes[left] = scheme;
            left += 1;
        }
    }
    ClosedUp {
        left: left as u32,
        gone,
    }
}

// ---- the call

/// Clearing in a month on a ledger that is known to be sound: 7. Apart from `clear`, so that a ledger that was just read isn't tested twice.
// What the schemes that go collected is what they paid out and their fees: a sound scheme's account says so where it has no standing credit.
pub fn clear_sound(ledger: &mut Ledger, table: &mut [Party], month: u16) -> Answer
    requires places { length ledger.old.schemes ≡ most_schemes }
    requires stands { sound ledger.old table.old (length table.old) ≡ true }
    ensures { Promised (state_of ledger.old table.old) (Call.clear month) (of_entry_call result) (state_of ledger.new table.new) }
{
    if month < ledger.month {
        return Err(Refusal::of_call(MONTH_BEFORE_LAST));
    }
    let going = going_schemes(ledger, table, month);
    let entries = close_up_entries(ledger, table, &going);
    let schemes = close_up_schemes(&mut ledger.schemes, ledger.count as usize, &going);
    ledger.month = month;
    ledger.entries = entries.left;
    ledger.count = schemes.left;
    ledger.cleared_collected += entries.gone + schemes.gone;
    ledger.cleared_paid_out += entries.gone;
    ledger.cleared_fees += schemes.gone;
    Ok(())
}

/// Clearing in a month, on any ledger and table: 13, then 7. Every scheme that has ended by the month and has no standing credit goes with its entries; the others
/// close up in order, and the month is set. A refusal changes nothing.
pub fn clear(ledger: &mut Ledger, table: &mut [Party], month: u16) -> Answer
    ensures { Promised (state_of ledger.old table.old) (Call.clear month) (of_entry_call result) (state_of ledger.new table.new) }
{
    if !is_sound(ledger, table) {
        return Err(Refusal::of_call(LEDGER_UNSOUND));
    }
    clear_sound(ledger, table, month)
}
