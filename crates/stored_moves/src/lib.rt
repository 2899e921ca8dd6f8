// The moves between the stored forms: document 02, E9. Each makes one ledger and one array of records, and lends both to reading and to writing.
#![tactic(auto)]

ghost use Rattle.std.specs.Prelude.{◌≡◌, MatchResult, Ok, Err};
ghost use Rattle.tagged.specs.File.{fields_part};
ghost use Rattle.ledger.specs.Limits.{most_entries};
ghost use Rattle.ledger.specs.Lists.{at_start};
ghost use Rattle.ledger.specs.Records.{new_ledger, no_parties};
ghost use Rattle.ledger.specs.Sound.{all_hold};
ghost use Rattle.stored.specs.Form.{stored_entries, stored_ledger};
ghost use Rattle.stored.specs.Reading.{read_answer};
ghost use Rattle.stored.specs.Moves.{move_back, move_to_new, numbers_are_counts};
ghost use Rattle.stored.specs.Promises.{WritePromised};

use ledger::limits::{MOST_ENTRIES, Parties};
use ledger::records::Ledger;
use stored::form::Form;
use stored::writing::Written;
use tagged::file::{FileAnswer, Refusal};
use tagged::refusals::NUMBERS_NOT_COUNTS;

// A file of a form, read into a new ledger and empty records. Both are made by the call and lent on: by value each step would copy them.
fn read_form(form: Form, ledger: &mut Ledger, parties: &mut Parties, file: &[u8]) -> FileAnswer
    requires { (ledger.old ≡ new_ledger) × (parties.old ≡ no_parties) }
    ensures { MatchResult result
        (λ _. (read_answer form most_entries file.now ≡ Ok tt) × (ledger.new ≡ stored_ledger form (fields_part file.now)) × (parties.new ≡ at_start (stored_entries form (fields_part file.now)) no_parties))
        (λ refusal. read_answer form most_entries file.now ≡ Err refusal) }
{
    stored_reading::read(form, ledger, parties, MOST_ENTRIES, file)
}

fn numbers_are_counts(ledger: &Ledger) -> bool
    ensures { result ≡ all_hold (numbers_are_counts ledger.now) }
{
    u64::from(ledger.next_scheme) == u64::from(ledger.count) + 1
        && u64::from(ledger.next_entry) == u64::from(ledger.entries) + 1
}

/// Writes a ledger stored in document 01's form as PIO2, and answers its length. Each scheme and each entry gets its place as its number. Refuses
/// with 1, 2 and 3 of the file, 13 and 14; a refusal leaves the output as it was.
pub fn move_to_new(file: &[u8], out: &mut [u8]) -> Written
    ensures { WritePromised (move_to_new file.now out.old) result out.new }
{
    let mut ledger = ledger::records::new_ledger();
    let mut parties = ledger::records::no_parties();
    read_form(Form::Pion, &mut ledger, &mut parties, file)?;
    stored_writing::write_form(Form::Pio2, &ledger, &parties, out)
}

/// Writes a ledger stored as PIO2 in document 01's form, and answers its length. Refuses with 1, 2 and 3 of the file, 13, 16 where a next number
/// isn't its count plus one, and 14; a refusal leaves the output as it was.
pub fn move_back(file: &[u8], out: &mut [u8]) -> Written
    ensures { WritePromised (move_back file.now out.old) result out.new }
{
    let mut ledger = ledger::records::new_ledger();
    let mut parties = ledger::records::no_parties();
    read_form(Form::Pio2, &mut ledger, &mut parties, file)?;
    if !numbers_are_counts(&ledger) {
        return Err(Refusal::of_call(NUMBERS_NOT_COUNTS));
    }
    stored_writing::write_form(Form::Pion, &ledger, &parties, out)
}
