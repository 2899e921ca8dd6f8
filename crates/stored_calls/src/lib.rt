// The calls on a pioneer ledger that is kept as its stored bytes: document 01, 'Ledger calls' and 'Stored form', and document 02, E8 and E9. The bytes are read
// into a table of `room` records, MOST_ENTRIES where that is more, the call is made on it, and the new form goes to the start of a lent
// buffer. In turn: reading's refusals, the call's, and 14 where the buffer is shorter than the new form. A refusal leaves the
// buffer as it was. Reading finds the ledger sound, and the call leaves it so: neither tests it again.
#![tactic(auto)]

ghost use Rattle.std.specs.Prelude.{◌≡◌, ◌≤◌, take, MatchResult, Ok, Err};
ghost use Rattle.ledger.specs.Limits.{most_schemes, most_entries};
ghost use Rattle.ledger.specs.Records.{no_parties, new_ledger};
ghost use Rattle.calls.specs.Decision.{accept, pay_out, hand_over, clear, of_accept, of_entry_call};
ghost use Rattle.stored.specs.FormOutput.{form_end};
ghost use Rattle.stored.specs.declared.form.Form.TheVariants.{Pio2};
ghost use Rattle.stored_calls.specs.StoredCalls.{of_stored_accept, of_stored_answer, stored_read, end_by, stored_call_of, new_stored_of, counts_of, check_stored_of};
ghost use Rattle.stored_calls.specs.StoredPromises.{StoredPromised, CheckPromised};

use calls::answers::{AcceptAnswer, Acceptance, Answer};
use ledger::limits::Parties;
use ledger::records::Ledger;
use stored::form::Form;
use tagged::file::{FileAnswer, Refusal};

// The new form's length with the acceptance.
#[derive(Clone, Copy)]
pub struct StoredAcceptance {
    pub acceptance: Acceptance,
    pub length: usize,
}

#[derive(Clone, Copy)]
pub enum StoredRefusal {
    // reading's: file 1 is the stored ledger
    NotRead(Refusal),
    // the call's own, or 14: file 1 is the rate book, 2 the request
    NotMade(Refusal),
}

#[derive(Clone, Copy)]
pub struct StoredCounts {
    pub month: u16,
    pub connections: u32,
    pub charged: u64,
    pub borne: u64,
    pub schemes: u32,
    pub entries: u32,
}

// A stored ledger, read into a new ledger and empty records. Both are made by the call and lent on: by value each step would copy them.
fn read_stored(ledger: &mut Ledger, parties: &mut Parties, room: usize, file: &[u8]) -> FileAnswer
    requires { (ledger.old ≡ new_ledger) × (parties.old ≡ no_parties) }
    ensures { MatchResult result
        (λ _. stored_read file.now room ≡ record { answer = Ok tt; ledger = ledger.new; table = take room parties.new })
        (λ refusal. (stored_read file.now room).answer ≡ Err refusal) }
{
    stored_reading::read(
        Form::Pio2,
        ledger,
        parties,
        calls_on_records::records_of(room),
        file,
    )
}

// The ledger and the table after an accept, which alone has an acceptance to hand back beside the length: one function for this and
// the next would tell apart in its promise what each answers.
fn write_accepted(
    answer: AcceptAnswer,
    ledger: &Ledger,
    parties: &Parties,
    out: &mut [u8],
) -> Result<StoredAcceptance, StoredRefusal>
    requires { (ledger.now.count ≤ most_schemes) × (ledger.now.entries ≤ most_entries) }
    ensures result_value { of_stored_accept result ≡ (end_by (of_accept answer) (form_end Pio2 ledger.now parties.now out.old) out.old).answer }
    ensures out_after { out.new ≡ (end_by (of_accept answer) (form_end Pio2 ledger.now parties.now out.old) out.old).output }
{
    let acceptance = answer.map_err(StoredRefusal::NotMade)?;
    let written = stored_writing::write_form(Form::Pio2, ledger, parties, out);
    let length = written.map_err(StoredRefusal::NotMade)?;
    Ok(StoredAcceptance { acceptance, length })
}

// The ledger and the table after one of the other calls.
fn write_changed(
    answer: Answer,
    ledger: &Ledger,
    parties: &Parties,
    out: &mut [u8],
) -> Result<usize, StoredRefusal>
    requires { (ledger.now.count ≤ most_schemes) × (ledger.now.entries ≤ most_entries) }
    ensures result_value { of_stored_answer result ≡ (end_by (of_entry_call answer) (form_end Pio2 ledger.now parties.now out.old) out.old).answer }
    ensures out_after { out.new ≡ (end_by (of_entry_call answer) (form_end Pio2 ledger.now parties.now out.old) out.old).output }
{
    answer.map_err(StoredRefusal::NotMade)?;
    stored_writing::write_form(Form::Pio2, ledger, parties, out).map_err(StoredRefusal::NotMade)
}

// Each of the calls reads, decides and writes, a line for each: one function over a closure for the decision would be no shorter.
// File and room go side by side, as C hands them over: a pair would be made for one call and taken apart in `read_stored`.
#[tactic(auto, using(crate::proofs::Ends::sound_here, crate::proofs::Ends::places_here, crate::proofs::Ends::counts_kept, crate::proofs::Ends::call_ends, crate::proofs::Theorems::StoredPromises::stored_promise))]
pub fn accept_stored(
    file: &[u8],
    room: usize,
    book: &[u8],
    request: &[u8],
    out: &mut [u8],
) -> Result<StoredAcceptance, StoredRefusal>
    ensures { StoredPromised (stored_call_of file.now room (accept book.now request.now) out.old) (of_stored_accept result) out.new }
{
    let mut ledger = ledger::records::new_ledger();
    let mut parties = ledger::records::no_parties();
    read_stored(&mut ledger, &mut parties, room, file).map_err(StoredRefusal::NotRead)?;
    let answer = calls_on_records::accept_sound(&mut ledger, &mut parties, room, book, request);
    write_accepted(answer, &ledger, &parties, out)
}

#[tactic(auto, using(crate::proofs::Ends::sound_here, crate::proofs::Ends::counts_kept, crate::proofs::Ends::call_ends, crate::proofs::Theorems::StoredPromises::stored_promise))]
pub fn pay_out_stored(
    file: &[u8],
    room: usize,
    entry: u32,
    amount: u64,
    out: &mut [u8],
) -> Result<usize, StoredRefusal>
    ensures { StoredPromised (stored_call_of file.now room (pay_out entry amount) out.old) (of_stored_answer result) out.new }
{
    let mut ledger = ledger::records::new_ledger();
    let mut parties = ledger::records::no_parties();
    read_stored(&mut ledger, &mut parties, room, file).map_err(StoredRefusal::NotRead)?;
    let answer = calls_on_records::pay_out_sound(&ledger, &mut parties, room, entry, amount);
    write_changed(answer, &ledger, &parties, out)
}

#[tactic(auto, using(crate::proofs::Ends::sound_here, crate::proofs::Ends::counts_kept, crate::proofs::Ends::call_ends, crate::proofs::Theorems::StoredPromises::stored_promise))]
pub fn hand_over_stored(
    file: &[u8],
    room: usize,
    entry: u32,
    person: u32,
    out: &mut [u8],
) -> Result<usize, StoredRefusal>
    ensures { StoredPromised (stored_call_of file.now room (hand_over entry person) out.old) (of_stored_answer result) out.new }
{
    let mut ledger = ledger::records::new_ledger();
    let mut parties = ledger::records::no_parties();
    read_stored(&mut ledger, &mut parties, room, file).map_err(StoredRefusal::NotRead)?;
    let answer = calls_on_records::hand_over_sound(&ledger, &mut parties, room, entry, person);
    write_changed(answer, &ledger, &parties, out)
}

#[tactic(auto, using(crate::proofs::Ends::sound_here, crate::proofs::Ends::places_here, crate::proofs::Ends::counts_kept, crate::proofs::Ends::call_ends, crate::proofs::Theorems::StoredPromises::stored_promise))]
pub fn clear_stored(
    file: &[u8],
    room: usize,
    month: u16,
    out: &mut [u8],
) -> Result<usize, StoredRefusal>
    ensures { StoredPromised (stored_call_of file.now room (clear month) out.old) (of_stored_answer result) out.new }
{
    let mut ledger = ledger::records::new_ledger();
    let mut parties = ledger::records::no_parties();
    read_stored(&mut ledger, &mut parties, room, file).map_err(StoredRefusal::NotRead)?;
    let answer = calls_on_records::clear_sound(&mut ledger, &mut parties, room, month);
    write_changed(answer, &ledger, &parties, out)
}

// The stored form of a new ledger, which every list of calls starts from.
#[tactic(auto, using(crate::proofs::Ends::new_form, crate::proofs::Theorems::StoredPromises::new_promise))]
pub fn new_stored(out: &mut [u8]) -> Result<usize, StoredRefusal>
    ensures { StoredPromised (new_stored_of out.old) (of_stored_answer result) out.new }
{
    let ledger = ledger::records::new_ledger();
    stored_writing::write_form(Form::Pio2, &ledger, &[], out).map_err(StoredRefusal::NotMade)
}

impl From<&Ledger> for StoredCounts {
    ghost from_gives = { λ ledger counts. counts ≡ counts_of ledger.now };

    fn from(ledger: &Ledger) -> StoredCounts {
        StoredCounts {
            month: ledger.month,
            connections: ledger.connections,
            charged: ledger.charged,
            borne: ledger.borne,
            schemes: ledger.count,
            entries: ledger.entries,
        }
    }
}

#[tactic(auto, using(crate::proofs::Theorems::StoredPromises::check_promise))]
pub fn check_stored(file: &[u8], room: usize) -> Result<StoredCounts, Refusal>
    ensures { CheckPromised (check_stored_of file.now room) result }
{
    let mut ledger = ledger::records::new_ledger();
    let mut parties = ledger::records::no_parties();
    read_stored(&mut ledger, &mut parties, room, file)?;
    Ok(StoredCounts::from(&ledger))
}
