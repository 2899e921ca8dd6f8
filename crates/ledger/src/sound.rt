// Whether a ledger is sound: one pass over the entries, with sums for each scheme.
ghost use Rattle.std.specs.Prelude.{◌≡◌, ◌↔◌, true, false, List, [], ◌∷◌, length, map, take, drop, ◌<◌, ◌≤◌, ◌-◌, MatchOption, IsTrue, All};
ghost use Rattle.ledger.specs.declared.records.Party.{Party};
ghost use Rattle.ledger.specs.Lookup.{scheme_place};
ghost use Rattle.ledger.specs.Limits.{most_schemes, most_entries, highest_credited, highest_next_entry};
ghost use Rattle.ledger.specs.Sound.{all_hold, counts_sound, sums_sound, figures_within, parties_sound, accounts_sound, schemes_sound, is_zero, all_zero, records_sound, sound_figures, sound_numbers, rise_to, schemes_rise, entries_rise, cleared_sound, sound};
ghost use Rattle.ledger.specs.Tallied.{no_tallies, tally_with, Tallied, OwnPlaces, Rising, TallyWithin, TalliesWithin};

use crate::limits::{
    HIGHEST_CREDITED, HIGHEST_NEXT_SCHEME, HIGHEST_PUT_IN, HIGHEST_SUM, MOST_CONNECTIONS,
    MOST_ENTRIES, MOST_ENTRIES_COUNTED, MOST_SCHEMES, MOST_SCHEMES_COUNTED, Parties,
};
use crate::records::{Ledger, Party, Scheme};
use field_values::limits::{HIGHEST_CAPACITY, HIGHEST_MINIMUM, LOWEST_CAPACITY, LOWEST_TERM};

// What a scheme's entries come to: how many, what the first put in, what all were credited and put in.
#[derive(Clone, Copy, Default)]
pub struct Tally {
    pub entries: u64,
    pub first: u64,
    pub credited: u64,
    pub put_in: u64,
}

// A tally for each scheme, beside the schemes: the test only looks at the ledger, and the tallies are its own.
pub type Tallies = [Tally; MOST_SCHEMES];

fn counts_sound(ledger: &Ledger, room: usize) -> bool
    ensures { result ≡ counts_sound ledger.now room }
{
    ledger.count <= MOST_SCHEMES_COUNTED
        && ledger.entries <= MOST_ENTRIES_COUNTED
        && ledger.entries as usize <= room
}

fn sums_sound(ledger: &Ledger) -> bool
    ensures { result ≡ sums_sound ledger.now }
{
    if MOST_CONNECTIONS < ledger.connections {
        return false;
    }
    let most = HIGHEST_SUM * u64::from(ledger.connections);
    ledger.charged <= most && ledger.borne <= most
}

fn figures_sound(party: &Party) -> bool
    ensures { result ≡ all_hold (figures_within party.now) }
{
    LOWEST_CAPACITY <= party.capacity
        && party.capacity <= HIGHEST_CAPACITY
        && party.put_in <= HIGHEST_PUT_IN
        && party.credited <= HIGHEST_CREDITED
        && party.paid_out <= party.credited
}

fn is_zero(scheme: &Scheme) -> bool
    ensures { result ≡ is_zero scheme.now }
{
    *scheme == Scheme::default()
}

// With one entry more.
fn tally_with(tally: &Tally, party: &Party) -> Tally
    requires { TallyWithin (most_entries - 1) tally.now × (party.now.credited ≤ highest_credited) }
    ensures { result ≡ tally_with tally.now party.now }
{
    let put_in = u64::from(party.put_in);
    Tally {
        entries: tally.entries + 1,
        first: if tally.entries == 0 {
            put_in
        } else {
            tally.first
        },
        credited: tally.credited + party.credited,
        put_in: tally.put_in + put_in,
    }
}

// A function: `[x; N]` says the value itself, where an array's Default says it place by place. One for each list, as each is promised
// by a definition of its own.
#[tactic(auto, unfolding(crate::specs::Tallied::no_tallies))]
fn no_tallies() -> Tallies
    ensures { result ≡ no_tallies }
{
    [Tally::default(); MOST_SCHEMES]
}

// The place of the scheme with this number, searched in halves, since the numbers rise.
fn rising_scheme_at(schemes: &[Scheme], number: u32) -> Option<usize>
    requires { Rising schemes.now }
    ensures { result ≡ scheme_place number schemes.now }
{
    let mut low = 0;
    let mut high = schemes.len();
    while low < high {
        let middle = low + (high - low) / 2;
        if schemes[middle].number < number {
            low = middle + 1;
        } else {
            high = middle;
        }
    }
    if low < schemes.len() && schemes[low].number == number {
        Some(low)
    } else {
        None
    }
}

// What each scheme's entries come to, if every entry is sound.
#[tactic(auto, using(crate::proofs::Tallying::tallying))]
fn tally_entries(parties: &[Party], schemes: &[Scheme]) -> Option<Tallies>
    requires within { (length parties.now ≤ most_entries) × (length schemes.now ≤ most_schemes) }
    requires rise { Rising schemes.now }
    ensures { MatchOption result (parties_sound schemes.now parties.now ≡ false) (λ tallies. (parties_sound schemes.now parties.now ≡ true) × Tallied schemes.now tallies parties.now × TalliesWithin most_entries tallies) }
{
    let mut tallies = no_tallies();
    for party in parties {
        let k = rising_scheme_at(schemes, u32::from(party.scheme))?;
        if !figures_sound(party) {
            return None;
        }
        tallies[k] = tally_with(&tallies[k], party);
    }
    Some(tallies)
}

// A scheme's terms and accounts, by what its entries come to.
fn scheme_sound(month: u16, scheme: &Scheme, tally: &Tally) -> bool
    requires { TallyWithin most_entries tally.now }
    ensures { result ≡ accounts_sound month scheme.now tally.now }
{
    if tally.entries < 1 {
        return false;
    }
    let fees = u64::from(scheme.fee) * (tally.entries - 1);
    scheme.fee <= scheme.minimum
        && scheme.minimum <= HIGHEST_MINIMUM
        && LOWEST_TERM <= scheme.term
        && scheme.opening <= month
        && tally.first == u64::from(scheme.cost)
        && scheme.fees == fees
        && u64::from(scheme.cost) + scheme.fees + tally.credited == tally.put_in
}

fn schemes_sound(month: u16, schemes: &[Scheme], tallies: &Tallies) -> bool
    requires within { (length schemes.now ≤ most_schemes) × TalliesWithin most_entries tallies.now }
    requires placed { OwnPlaces schemes.now }
    ensures { (parties : List Party) → Tallied schemes.now tallies.now parties → result ≡ schemes_sound month parties schemes.now }
{
    for (scheme, tally) in schemes.iter().zip(tallies) {
        if !scheme_sound(month, scheme, tally) {
            return false;
        }
    }
    true
}

fn all_zero(schemes: &[Scheme]) -> bool
    ensures { IsTrue result ↔ All (λ scheme. is_zero scheme ≡ true) schemes.now }
{
    schemes.iter().all(is_zero)
}

// Whether every record is sound, where these are the entries and neither they nor the schemes are too many, and no two schemes have one number.
#[tactic(auto, using(crate::proofs::Rest::by_each))]
fn records_sound(ledger: &Ledger, entries: &[Party]) -> bool
    requires within { (ledger.now.count ≤ most_schemes) × (length entries.now ≤ most_entries) }
    requires rise { schemes_rise ledger.now ≡ true }
    ensures holds { result ≡ all_hold (parties_sound (take ledger.now.count ledger.now.schemes) entries.now ∷ schemes_sound ledger.now.month entries.now (take ledger.now.count ledger.now.schemes) ∷ all_zero (drop ledger.now.count ledger.now.schemes) ∷ []) }
    ensures places { length ledger.now.schemes ≡ most_schemes }
{
    let (schemes, places_left) = ledger.schemes.split_at(ledger.count as usize);
    match tally_entries(entries, schemes) {
        Some(tallies) => { schemes_sound(ledger.month, schemes, &tallies) && all_zero(places_left) }
        None => false,
    }
}

// Whether numbers rise from 1 or more and stay below the next one. Two functions of one form, one for schemes and one for entries.
fn schemes_rise(schemes: &[Scheme], next: u32) -> bool
    ensures { result ≡ rise_to next 0 (map (λ scheme. scheme.number) schemes.now) }
{
    let mut before = 0;
    for scheme in schemes {
        if scheme.number <= before {
            return false;
        }
        before = scheme.number;
    }
    before < next
}

fn entries_rise(entries: &[Party], next: u32) -> bool
    ensures { result ≡ rise_to next 0 (map (λ entry. entry.number) entries.now) }
{
    let mut before = 0;
    for entry in entries {
        if entry.number <= before {
            return false;
        }
        before = entry.number;
    }
    before < next
}

// A ledger may hold all its entries before its first connection, and each connection enters a joiner and an opener at most.
fn highest_next_entry(connections: u32) -> u64
    ensures { result ≡ highest_next_entry connections }
{
    u64::from(MOST_ENTRIES_COUNTED + 1) + 2 * u64::from(connections)
}

// The next numbers within their limits, and the account over what was cleared.
fn cleared_sound(ledger: &Ledger) -> bool
    ensures { result ≡ cleared_sound ledger.now }
{
    let gone = ledger
        .next_entry
        .saturating_sub(1)
        .saturating_sub(ledger.entries);
    ledger.next_scheme <= HIGHEST_NEXT_SCHEME
        && u64::from(ledger.next_entry) <= highest_next_entry(ledger.connections)
        && ledger.cleared_paid_out <= ledger.cleared_collected
        && ledger.cleared_fees == ledger.cleared_collected - ledger.cleared_paid_out
        && ledger.cleared_collected <= u64::from(HIGHEST_PUT_IN) * u64::from(gone)
}

// Document 02's conditions, where these are the entries and the schemes are not too many.
#[tactic(auto, unfolding(crate::specs::Sound::sound_numbers))]
fn numbers_sound(ledger: &Ledger, entries: &[Party]) -> bool
    requires { ledger.now.count ≤ most_schemes }
    ensures { result ≡ sound_numbers ledger.now entries.now }
{
    schemes_rise(&ledger.schemes[..ledger.count as usize], ledger.next_scheme)
        && entries_rise(entries, ledger.next_entry)
        && cleared_sound(ledger)
}

/// Whether document 01's conditions hold of a ledger with the party table that these are the records of. Schemes are found by number, so that no two
/// may have one.
#[tactic(auto, unfolding(crate::specs::Sound::sound_figures))]
pub fn has_sound_figures(ledger: &Ledger, table: &[Party]) -> bool
    requires { schemes_rise ledger.now ≡ true }
    ensures holds { result ≡ sound_figures ledger.now table.now (length table.now) }
    ensures places { result ≡ true → length ledger.now.schemes ≡ most_schemes }
{
    counts_sound(ledger, table.len())
        && sums_sound(ledger)
        && records_sound(ledger, &table[..ledger.entries as usize])
}

// Whether a ledger is sound with the party table that these are the records of. In this and in the calls the table is
// lent beside the ledger, a slice as document 01 names it, and is no part of a struct with it; and that both are sound is a
// clause of the calls, since a type for it would borrow both, which the calls change.
#[tactic(auto, using(crate::proofs::Rest::numbers_rise, crate::proofs::Rest::counts_fail), unfolding(crate::specs::Sound::sound))]
pub fn is_sound(ledger: &Ledger, table: &[Party]) -> bool
    ensures holds { result ≡ sound ledger.now table.now (length table.now) }
    ensures places { result ≡ true → length ledger.now.schemes ≡ most_schemes }
{
    counts_sound(ledger, table.len())
        && numbers_sound(ledger, &table[..ledger.entries as usize])
        && has_sound_figures(ledger, table)
}

// The same of an array whose first `room` records are the table, or all of them: a table read from a file has no other length yet.
// `inline(never)`: in a caller's frame the tallies would stay on the stack.
#[inline(never)]
#[tactic(auto, using(crate::proofs::Theorems::SameEntries::sound_in_first))]
pub fn sound(ledger: &Ledger, parties: &Parties, room: usize) -> bool
    ensures { result ≡ sound ledger.now parties.now room }
{
    is_sound(ledger, &parties[..room.min(MOST_ENTRIES)])
}
