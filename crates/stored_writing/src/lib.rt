// Writing a ledger and its entries as a stored form.
#![tactic(auto)]

ghost use Rattle.std.specs.Prelude.{◌≡◌, ℕ, List, [], ◌∷◌, ◌++◌, map, ◌+◌, ◌*◌, ◌≤◌, length, take};
ghost use Rattle.numbers.specs.BigEndian.{bytes_of};
ghost use Rattle.numbers.specs.Written.{written};
ghost use Rattle.numbers.specs.Check.{check};
ghost use Rattle.tagged.specs.Encoded.{encoded_parts};
ghost use Rattle.ledger.specs.CapacityColumns.{sum_of};
ghost use Rattle.ledger.specs.Limits.{most_schemes, most_entries};
ghost use Rattle.stored.specs.StoredRows.{entry_size, scheme_size};
ghost use Rattle.stored.specs.Form.{letters_part, head_part, scheme_part, party_part, stored_parts, header_length, check_length, form_length};
ghost use Rattle.stored.specs.Layout.{added_values, added_widths, head_values, head_widths, number_first, party_values, party_widths, record_bytes, scheme_values, scheme_widths};
ghost use Rattle.stored.specs.Writing.{form_answer, write_of};
ghost use Rattle.stored.specs.FormOutput.{form_output};
ghost use Rattle.stored.specs.Promises.{WritePromised};
ghost use Rattle.stored.specs.declared.form.Form.{Form};
ghost use Rattle.stored.specs.declared.form.Form.TheVariants.{Pio2};
ghost use Rattle.std.proofs.Common.{refl};
ghost use Rattle.stored.proofs.Theorems.Form.{scheme_sum, entry_sum};

use ledger::records::{Ledger, Party, Scheme};
use numbers::big_endian::BigEndian;
use stored::form::Form;
use stored::lengths::{
    CHECK_LENGTH, LETTERS_LENGTH, START_LENGTH, entry_size, head_size, scheme_size,
};
use stored::writing::Written;
use tagged::file::Refusal;
use tagged::refusals::{LEDGER_UNSOUND, OUTPUT_TOO_SHORT};

// The output and the place go through all writers together, since each promise is of the whole output.
// A field's tag and length.
#[tactic(auto, using(crate::proofs::Fields::written_start))]
fn write_start(out: &mut [u8], at: usize, tag: u8, len: u16)
    requires { at + 3 ≤ length out.old }
    ensures { out.new ≡ written out.old at (tag ∷ bytes_of 2 len) }
{
    tag.write(out, at);
    len.write(out, at + 1);
}

// Field 01, which a form starts with.
#[tactic(auto, using(crate::proofs::Fields::letters_pion, crate::proofs::Fields::letters_pio2))]
fn write_letters(form: Form, out: &mut [u8])
    requires { 7 ≤ length out.old }
    ensures { out.new ≡ written out.old 0 (encoded_parts (letters_part form ∷ [])) }
{
    write_start(out, 0, 1, 4);
    match form {
        Form::Pion => out[3..7].copy_from_slice(b"PION"),
        Form::Pio2 => out[3..7].copy_from_slice(b"PIO2"),
    }
}

// What both forms have in field 02.
#[tactic(auto, using(crate::proofs::Fields::written_head), unfolding(stored::proofs::Theorems::Layout::written_each))]
fn write_head_figures(out: &mut [u8], ledger: &Ledger)
    requires { 32 ≤ length out.old }
    ensures { out.new ≡ written out.old 10 (record_bytes head_widths (head_values ledger.now)) }
{
    ledger.month.write(out, 10);
    ledger.connections.write(out, 12);
    ledger.charged.write(out, 16);
    ledger.borne.write(out, 24);
}

// What PIO2 has after it.
#[tactic(auto, using(crate::proofs::Fields::written_added), unfolding(stored::proofs::Theorems::Layout::written_each))]
fn write_added(out: &mut [u8], ledger: &Ledger)
    requires { 64 ≤ length out.old }
    ensures { out.new ≡ written out.old 32 (record_bytes added_widths (added_values ledger.now)) }
{
    ledger.next_scheme.write(out, 32);
    ledger.next_entry.write(out, 36);
    ledger.cleared_collected.write(out, 40);
    ledger.cleared_paid_out.write(out, 48);
    ledger.cleared_fees.write(out, 56);
}

// Field 02, which stands after the letters.
#[tactic(auto, using(crate::proofs::Fields::head_pion, crate::proofs::Fields::head_pio2))]
fn write_head(form: Form, out: &mut [u8], ledger: &Ledger)
    requires { header_length form ≤ length out.old }
    ensures { out.new ≡ written out.old 7 (encoded_parts (head_part form ledger.now ∷ [])) }
{
    write_start(out, 7, 2, head_size(form));
    write_head_figures(out, ledger);
    match form {
        Form::Pion => {}
        Form::Pio2 => write_added(out, ledger),
    }
}

// A record that has a field of its own.
// Beside stored_reading's trait of this name: reading and writing are two crates, so that an edit of one proves little again.
trait StoredRecord: Copy {
    ghost TAG: { ℕ };

    const TAG: u8;

    ghost widths: { List ℕ };

    ghost values: { Self → List ℕ };

    ghost number: { Self → ℕ };

    ghost size: { Form → ℕ };

    ghost part: { Form → Self → ℕ × List ℕ };

    fn number(self) -> u32
        ensures { result ≡ number self };

    // what it has beside its number
    fn write_figures(self, out: &mut [u8], at: usize)
        requires { at + sum_of widths ≤ length out.old }
        ensures { out.new ≡ written out.old at (record_bytes widths (values self)) };

    // of its value in a form
    fn size(form: Form) -> u16
        ensures { result ≡ size form };

    ghost parts: { (form : Form) (x : Self) → part form x ≡ (TAG, record_bytes (number_first form 4 widths) (number_first form (number x) (values x))) };

    ghost sizes: { (form : Form) → size form ≡ sum_of (number_first form 4 widths) };

    ghost lengths: { (x : Self) → length (values x) ≡ length widths };
}

impl StoredRecord for Scheme {
    ghost TAG = { 3 };

    const TAG: u8 = 3;

    ghost widths = { scheme_widths };

    ghost values = { scheme_values };

    ghost number = { λ scheme. scheme.number };

    ghost size = { scheme_size };

    ghost part = { scheme_part };

    fn number(self) -> u32 {
        self.number
    }

    #[tactic(auto, using(crate::proofs::Fields::written_scheme))]
    fn write_figures(self, out: &mut [u8], at: usize) {
        self.cost.write(out, at);
        self.fee.write(out, at + 4);
        self.minimum.write(out, at + 8);
        self.opening.write(out, at + 12);
        self.term.write(out, at + 14);
        self.fees.write(out, at + 16);
    }

    fn size(form: Form) -> u16 {
        scheme_size(form)
    }

    ghost parts = { λ form scheme. refl };

    ghost sizes = { scheme_sum };

    ghost lengths = { λ scheme. refl };
}

impl StoredRecord for Party {
    ghost TAG = { 4 };

    const TAG: u8 = 4;

    ghost widths = { party_widths };

    ghost values = { party_values };

    ghost number = { λ party. party.number };

    ghost size = { entry_size };

    ghost part = { party_part };

    fn number(self) -> u32 {
        self.number
    }

    #[tactic(auto, using(crate::proofs::Fields::written_party))]
    fn write_figures(self, out: &mut [u8], at: usize) {
        self.scheme.write(out, at);
        self.person.write(out, at + 2);
        self.capacity.write(out, at + 6);
        self.put_in.write(out, at + 10);
        self.credited.write(out, at + 14);
        self.paid_out.write(out, at + 22);
    }

    fn size(form: Form) -> u16 {
        entry_size(form)
    }

    ghost parts = { λ form party. refl };

    ghost sizes = { entry_sum };

    ghost lengths = { λ party. refl };
}

// A record's field, which in PIO2 begins with its number.
fn write_record<R: StoredRecord>(form: Form, one: R, out: &mut [u8], at: usize)
    requires { at + (R.size form + 3) ≤ length out.old }
    ensures { out.new ≡ written out.old at (encoded_parts (R.part form one ∷ [])) }
{
    write_start(out, at, R::TAG, R::size(form));
    match form {
        Form::Pion => one.write_figures(out, at + 3),
        Form::Pio2 => {
            one.number().write(out, at + 3);
            one.write_figures(out, at + 7);
        }
    }
}

// The fields of these records, one after the other.
#[tactic(auto, using(crate::proofs::Fields::written_no_fields))]
fn write_records<R: StoredRecord>(form: Form, out: &mut [u8], at: usize, records: &[R])
    requires { at + (R.size form + 3) * length records.now ≤ length out.old }
    ensures { out.new ≡ written out.old at (encoded_parts (map (R.part form) records.now)) }
{
    let length = R::size(form) as usize + START_LENGTH;
    for (i, record) in records.iter().enumerate() {
        write_record(form, *record, out, at + length * i);
    }
}

// All fields but the last, from the start of the output on.
#[tactic(auto, using(crate::proofs::Fields::written_stored))]
fn write_fields(form: Form, out: &mut [u8], ledger: &Ledger, table: &[Party])
    requires { (ledger.now.count ≤ most_schemes) × (ledger.now.entries ≤ most_entries) × (ledger.now.entries ≤ length table.now) × (form_length form ledger.now.count ledger.now.entries ≤ length out.old) }
    ensures { out.new ≡ written out.old 0 (encoded_parts (stored_parts form ledger.now table.now)) }
{
    let count = ledger.count as usize;
    let entries = ledger.entries as usize;
    write_letters(form, out);
    write_head(form, out, ledger);
    let schemes = LETTERS_LENGTH + START_LENGTH + head_size(form) as usize;
    write_records(form, out, schemes, &ledger.schemes[..count]);
    let parties = schemes + (scheme_size(form) as usize + START_LENGTH) * count;
    write_records(form, out, parties, &table[..entries]);
}

// The last field, at the end of the others: the check of all bytes before its value.
#[tactic(auto, using(crate::proofs::Fields::written_check))]
fn write_check(out: &mut [u8], at: usize)
    requires { at + check_length ≤ length out.old }
    ensures { out.new ≡ written out.old at (255 ∷ 0 ∷ 2 ∷ bytes_of 2 (check (take at out.old ++ 255 ∷ 0 ∷ 2 ∷ []))) }
{
    write_start(out, at, 255, 2);
    let end = at + 3;
    let check = numbers::check::check(&out[..end]);
    (check as u16).write(out, end);
}

// How many bytes a form takes with so many schemes and entries.
fn form_length(form: Form, count: usize, entries: usize) -> usize
    requires { (count ≤ most_schemes) × (entries ≤ most_entries) }
    ensures { result ≡ form_length form count entries }
{
    let header = LETTERS_LENGTH + START_LENGTH + head_size(form) as usize;
    let schemes = (scheme_size(form) as usize + START_LENGTH) * count;
    let parties = (entry_size(form) as usize + START_LENGTH) * entries;
    header + CHECK_LENGTH + schemes + parties
}

// A stored form at the start of a lent buffer, of a ledger that was tested already. The table's first records are its entries.
// Apart from `write`, so that a ledger that a call has left sound isn't tested again.
#[tactic(auto, using(std::proofs::lemmas::Grind::common_steps, stored::proofs::Theorems::Form::length_form, stored::proofs::Theorems::Form::length_fields, crate::proofs::Fields::written_form))]
pub fn write_form(form: Form, ledger: &Ledger, table: &[Party], out: &mut [u8]) -> Written
    requires { (ledger.now.count ≤ most_schemes) × (ledger.now.entries ≤ most_entries) × (ledger.now.entries ≤ length table.now) }
    ensures value { result ≡ form_answer form ledger.now table.now out.old }
    ensures out_after { out.new ≡ form_output form ledger.now table.now out.old }
{
    let schemes = &ledger.schemes[..ledger.count as usize];
    let entries = &table[..ledger.entries as usize];
    let size = form_length(form, schemes.len(), entries.len());
    if out.len() < size {
        return Err(Refusal::of_call(OUTPUT_TOO_SHORT));
    }
    write_fields(form, out, ledger, table);
    write_check(out, size - CHECK_LENGTH);
    Ok(size)
}

// The same once the ledger is found to be sound.
#[tactic(auto, using(ledger::proofs::Theorems::Sound::sound_means, stored::proofs::Theorems::Promises::write_promise), unfolding(stored::specs::Writing::written_answer))]
pub fn write(ledger: &Ledger, table: &[Party], out: &mut [u8]) -> Written
    ensures { WritePromised (write_of ledger.now table.now out.old) result out.new }
{
    if !ledger::sound::is_sound(ledger, table) {
        return Err(Refusal::of_call(LEDGER_UNSOUND));
    }
    write_form(Form::Pio2, ledger, table, out)
}
