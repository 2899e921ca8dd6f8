// The public calls on a pioneer ledger and its lent party table: document 01, 'Ledger calls' and 'Stored form'. Each decides on the
// table itself, and writes to it once nothing can be refused any more.
#![tactic(auto)]

ghost use Rattle.stored.specs.Promises.{ReadPromised};
ghost use Rattle.stored.specs.Reading.{read_of};

pub use acceptance::accept::accept;
pub use clearing::clear;
pub use entry_calls::{hand_over, pay_out};
use ledger::records::{Ledger, Party};
use stored::form::Form;
pub use stored_writing::write;
use tagged::file::FileAnswer;

pub fn read(ledger: &mut Ledger, table: &mut [Party], file: &[u8]) -> FileAnswer
    ensures { ReadPromised (read_of ledger.old table.old file.now) result ledger.new table.new }
{
    let mut parties = ledger::records::no_parties();
    stored_reading::read(Form::Pio2, ledger, &mut parties, table.len(), file)?;
    party_table::store_each(table, &parties[..ledger.entries as usize]);
    Ok(())
}
