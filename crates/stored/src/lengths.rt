// How many bytes a stored form and its fields take: document 01, 'Stored form', and document 02, E9.
ghost use Rattle.std.specs.Prelude.{◌≡◌};
ghost use Rattle.stored.specs.StoredRows.{entry_size, head_size, scheme_size};

use crate::form::Form;
use ledger::limits::{MOST_ENTRIES, MOST_SCHEMES};

// a field's tag and length
pub const START_LENGTH: usize = 3;

// field 01, with both
pub const LETTERS_LENGTH: usize = 7;

// the last field, with both
pub const CHECK_LENGTH: usize = 5;

// the values of PIO2's fields 02, 03 and 04
const PIO2_HEAD: u16 = 54;

const PIO2_SCHEME: u16 = 28;

const PIO2_ENTRY: u16 = 34;

// PIO2 with as many schemes and entries as a ledger holds: 20,997
pub const LONGEST_FORM: usize = LETTERS_LENGTH
    + (START_LENGTH + PIO2_HEAD as usize)
    + (START_LENGTH + PIO2_SCHEME as usize) * MOST_SCHEMES
    + (START_LENGTH + PIO2_ENTRY as usize) * MOST_ENTRIES
    + CHECK_LENGTH;

// The value of field 02.
pub fn head_size(form: Form) -> u16
    ensures { result ≡ head_size form }
{
    match form {
        Form::Pion => 22,
        Form::Pio2 => PIO2_HEAD,
    }
}

// The value of a field 03.
pub fn scheme_size(form: Form) -> u16
    ensures { result ≡ scheme_size form }
{
    match form {
        Form::Pion => 24,
        Form::Pio2 => PIO2_SCHEME,
    }
}

// The value of a field 04.
pub fn entry_size(form: Form) -> u16
    ensures { result ≡ entry_size form }
{
    match form {
        Form::Pion => 30,
        Form::Pio2 => PIO2_ENTRY,
    }
}
