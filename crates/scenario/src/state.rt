// A ledger and its table, which every call of the script reads or changes.
use calls::answers::{AcceptAnswer, Answer};
use ledger::limits::{MOST_ENTRIES, Parties};
use ledger::records::{Ledger, Party};
use ledger_text::records::{LedgerLines, Shown};
use stored::writing::Written;
use tagged::file::FileAnswer;

#[derive(Clone, Copy)]
pub struct State {
    pub ledger: Ledger,
    parties: Parties,
    // The table's length: it may grow and shrink between calls, and the records past it stay.
    pub room: usize,
}

// What a call is lent: the first `room` records, or all of them.
fn table(parties: &mut Parties, room: usize) -> &mut [Party] {
    &mut parties[..room.min(MOST_ENTRIES)]
}

impl State {
    pub fn new() -> State {
        State {
            ledger: ledger::records::new_ledger(),
            parties: ledger::records::no_parties(),
            room: MOST_ENTRIES,
        }
    }

    pub fn accept(&mut self, book: &[u8], request: &[u8]) -> AcceptAnswer {
        let table = table(&mut self.parties, self.room);
        pioneer::accept(&mut self.ledger, table, book, request)
    }

    pub fn pay_out(&mut self, entry: u32, amount: u64) -> Answer {
        let table = table(&mut self.parties, self.room);
        pioneer::pay_out(&self.ledger, table, entry, amount)
    }

    pub fn hand_over(&mut self, entry: u32, person: u32) -> Answer {
        let table = table(&mut self.parties, self.room);
        pioneer::hand_over(&self.ledger, table, entry, person)
    }

    pub fn clear(&mut self, month: u16) -> Answer {
        let table = table(&mut self.parties, self.room);
        pioneer::clear(&mut self.ledger, table, month)
    }

    // What is read; a new ledger with no entries where the reading is refused.
    pub fn read(&mut self, file: &[u8]) -> FileAnswer {
        *self = State::new();
        pioneer::read(&mut self.ledger, table(&mut self.parties, self.room), file)
    }

    pub fn write(&self, out: &mut [u8]) -> Written {
        let records = self.room.min(MOST_ENTRIES);
        pioneer::write(&self.ledger, &self.parties[..records], out)
    }

    // The record in this place, counted from 1, whether or not it is an entry; none where there is no such place.
    pub fn record(&self, place: usize) -> Option<Shown<&Party>> {
        self.parties.get(place.checked_sub(1)?).map(Shown)
    }

    pub fn lines(&self) -> LedgerLines<'_> {
        LedgerLines {
            ledger: &self.ledger,
            table: &self.parties,
        }
    }
}
