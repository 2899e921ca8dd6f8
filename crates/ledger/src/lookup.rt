// A scheme's and an entry's place among those that stand, by its number. Beside these only the soundness test turns a number into a place, by its own search.
ghost use Rattle.std.specs.Prelude.{◌≡◌};
ghost use Rattle.ledger.specs.Lookup.{scheme_place};
ghost use Rattle.ledger.specs.EntryPlace.{entry_place};

use crate::records::{Party, Scheme};

/// The place of the scheme with this number. `schemes` are those that stand.
#[tactic(auto, unfolding(crate::specs::Lookup::place_of))]
pub fn scheme_at(schemes: &[Scheme], number: u32) -> Option<usize>
    ensures { result ≡ scheme_place number schemes.now }
{
    schemes.iter().position(|scheme| scheme.number == number)
}

/// The place of the entry with this number. `entries` are those that stand: a record past the last may still hold a number.
#[tactic(auto, unfolding(crate::specs::Lookup::place_of))]
pub fn entry_at(entries: &[Party], number: u32) -> Option<usize>
    ensures { result ≡ entry_place number entries.now }
{
    entries.iter().position(|entry| entry.number == number)
}
