// Reading a stored ledger, in either form, into a lent ledger and array of records, or its refusal.
#![tactic(auto)]

ghost use Rattle.std.specs.Prelude.{◌≡◌, ◌≤◌, ◌+◌, true, ℕ, List, [], ◌∷◌, length, Ok};
ghost use mathlib.Core.List.{Memᴰ};
ghost use Rattle.field_walk.specs.Walk.{FieldAt, walk};
ghost use Rattle.field_walk.specs.Walked.{walked};
ghost use Rattle.field_walk.specs.FieldsWalk.{FieldsWalk};
ghost use Rattle.tagged.specs.Find.{fields_of};
ghost use Rattle.field_values.specs.Judged.{judge_letters};
ghost use Rattle.ledger.specs.Lists.{at_start};
ghost use Rattle.ledger.specs.Limits.{most_schemes, most_entries};
ghost use Rattle.ledger.specs.Records.{no_parties};
ghost use Rattle.ledger.specs.Sound.{schemes_rise};
ghost use Rattle.stored.specs.StoredRows.{entry_size, head_size, scheme_size, stored_rows};
ghost use Rattle.stored.specs.Layout.{added_in, number_in, past_number, party_from, party_widths, record_values, scheme_from, scheme_widths};
ghost use Rattle.stored.specs.Form.{letters, scheme_of_bytes, party_of_bytes, each_with, stored_entries, no_schemes, stored_ledger};
ghost use Rattle.stored.specs.Reading.{form_sound, table_answer, read_by, read_back, of_reading};
ghost use Rattle.stored.specs.declared.form.Form.{Form};
ghost use Rattle.stored.specs.declared.form.Form.TheVariants.{Pion, Pio2};
ghost use Rattle.std.proofs.Common.{rules, refl};
ghost use Rattle.stored.proofs.Theorems.StoredFields.{schemes_sized, entries_sized, few_schemes_collected, few_entries_collected};

use field_values::judged::Judged;
use ledger::limits::{MOST_SCHEMES, Parties, Schemes};
use ledger::records::{Ledger, Party, Scheme};
use numbers::big_endian::BigEndian;
use stored::form::Form;
use tagged::file::{FileAnswer, Refusal};
use tagged::find::next_field;
use tagged::refusals::{LEDGER_UNSOUND, NO_ENTRY_LEFT, VALUE_NOT_LISTED};

// A record that a stored ledger has a field for each of.
trait StoredRecord: Copy {
    ghost TAG: { ℕ };

    const TAG: u8;

    // how long its value is in a form, and without a number, and how many of them a ledger holds
    ghost size: { Form → ℕ };

    ghost figures_size: { ℕ };

    ghost most: { ℕ };

    ghost of_figures: { ℕ → List ℕ → Self };

    ghost of_bytes: { Form → ℕ → List ℕ → Self };

    // what it has beside its number
    fn read(number: u32, figures: &[u8]) -> Self
        requires { figures_size ≤ length figures.now }
        ensures { result ≡ of_figures number figures.now };

    ghost pion: { (size Pion ≡ figures_size) × ((place : ℕ) (value : List ℕ) → of_bytes Pion place value ≡ of_figures (number_in Pion place value) (past_number Pion value)) };

    ghost pio2: { (size Pio2 ≡ figures_size + 4) × ((place : ℕ) (value : List ℕ) → of_bytes Pio2 place value ≡ of_figures (number_in Pio2 place value) (past_number Pio2 value)) };

    ghost sized: { (form : Form) (s : List ℕ) → FieldsWalk (stored_rows form) s → (f : FieldAt) → Memᴰ f (fields_of s) → f.tag ≡ TAG → f.len ≡ size form };

    ghost few: { (form : Form) (s : List ℕ) → FieldsWalk (stored_rows form) s → length (each_with (of_bytes form) 1 TAG s (fields_of s)) ≤ most };

    ghost most_fits: { most ≤ most_entries };
}

impl StoredRecord for Scheme {
    ghost TAG = { 3 };

    const TAG: u8 = 3;

    ghost size = { scheme_size };

    ghost figures_size = { 24 };

    ghost most = { most_schemes };

    ghost of_figures = { λ number figures. scheme_from number (record_values scheme_widths figures) };

    ghost of_bytes = { scheme_of_bytes };

    #[tactic(auto, unfolding(stored::specs::Layout::values_at))]
    fn read(number: u32, figures: &[u8]) -> Scheme {
        Scheme {
            number,
            cost: u32::read(figures, 0),
            fee: u32::read(figures, 4),
            minimum: u32::read(figures, 8),
            opening: u16::read(figures, 12),
            term: u16::read(figures, 14),
            fees: u64::read(figures, 16),
        }
    }

    ghost pion = { (refl, λ place value. refl) };

    ghost pio2 = { (refl, λ place value. refl) };

    ghost sized = { schemes_sized };

    ghost few = { few_schemes_collected };

    ghost most_fits = { Prim.search rules };
}

impl StoredRecord for Party {
    ghost TAG = { 4 };

    const TAG: u8 = 4;

    ghost size = { entry_size };

    ghost figures_size = { 30 };

    ghost most = { most_entries };

    ghost of_figures = { λ number figures. party_from number (record_values party_widths figures) };

    ghost of_bytes = { party_of_bytes };

    #[tactic(auto, unfolding(stored::specs::Layout::values_at))]
    fn read(number: u32, figures: &[u8]) -> Party {
        Party {
            number,
            scheme: u16::read(figures, 0),
            person: u32::read(figures, 2),
            capacity: u32::read(figures, 6),
            put_in: u32::read(figures, 10),
            credited: u64::read(figures, 14),
            paid_out: u64::read(figures, 22),
        }
    }

    ghost pion = { (refl, λ place value. refl) };

    ghost pio2 = { (refl, λ place value. refl) };

    ghost sized = { entries_sized };

    ghost few = { few_entries_collected };

    ghost most_fits = { Prim.search rules };
}

// A record of a form: its own number, or where the form has none its place's.
fn read_record<R: StoredRecord>(form: Form, place: u32, value: &[u8]) -> R
    requires { length value.now ≡ R.size form }
    ensures { result ≡ R.of_bytes form place value.now }
{
    match form {
        Form::Pion => R::read(place, value),
        Form::Pio2 => R::read(u32::read(value, 0), &value[4..]),
    }
}

// What the head has after the sum borne: the next numbers, and the sums of the schemes cleared.
#[derive(Clone, Copy)]
struct Added {
    next_scheme: u32,
    next_entry: u32,
    collected: u64,
    paid_out: u64,
    fees: u64,
}

// A form without them has given as many numbers as it has schemes and entries, and has cleared none.
#[tactic(auto, unfolding(stored::specs::Layout::values_at))]
fn read_added(form: Form, head: &[u8], count: u32, entries: u32) -> Added
    requires { (length head.now ≡ head_size form) × (count ≤ most_schemes) × (entries ≤ most_entries) }
    ensures { (result.next_scheme ∷ result.next_entry ∷ result.collected ∷ result.paid_out ∷ result.fees ∷ []) ≡ added_in form count entries head.now }
{
    match form {
        Form::Pion => Added {
            next_scheme: count + 1,
            next_entry: entries + 1,
            collected: 0,
            paid_out: 0,
            fees: 0,
        },
        Form::Pio2 => Added {
            next_scheme: u32::read(head, 22),
            next_entry: u32::read(head, 26),
            collected: u64::read(head, 30),
            paid_out: u64::read(head, 38),
            fees: u64::read(head, 46),
        },
    }
}

// A function: `[x; N]` says the value itself, where an array's Default says it place by place. One for each list, as each is promised
// by a definition of its own.
#[tactic(auto, unfolding(stored::specs::Form::no_schemes))]
fn no_schemes() -> Schemes
    ensures { result ≡ no_schemes }
{
    [Scheme::default(); MOST_SCHEMES]
}

// The fields of a stored ledger, which walk. A type for each kind of file, as its readers are methods.
#[derive(Clone, Copy)]
struct StoredFields<'a> {
    form: Form,
    fields: &'a [u8],
    ghost walks: { walked (walk (stored_rows form) fields.now) ≡ Ok tt },
}

impl<'a> StoredFields<'a> {
    // The records of a file, in the first places, and how many they are: a ledger holds both so. `inline(never)`:
    // in a caller's frame the copies of the records would stay on the stack.
    #[inline(never)]
    fn read_records<R: StoredRecord>(self, records: &mut [R]) -> usize
        requires places { R.most ≤ length records.old }
        ensures stored { records.new ≡ at_start (each_with (R.of_bytes self.entry.form) 1 R.TAG self.entry.fields.now (fields_of self.entry.fields.now)) records.old }
        ensures count { result ≡ length (each_with (R.of_bytes self.entry.form) 1 R.TAG self.entry.fields.now (fields_of self.entry.fields.now)) }
    {
        let mut count: usize = 0;
        let mut rest = self.fields;
        // Document 01 names the form: the part from a field's end onward goes on to the next step.
        while let Some(field) = next_field(rest) {
            if field.tag == R::TAG {
                records[count] = read_record(self.form, count as u32 + 1, field.value);
                count += 1;
            }
            rest = field.rest;
        }
        count
    }

    #[tactic(auto, using(crate::proofs::Walking::head_long, stored::proofs::Theorems::StoredFields::schemes_collected), unfolding(stored::specs::Form::stored_ledger, stored::specs::Layout::values_at))]
    fn read_ledger(self, entries: usize) -> Ledger
        requires { (entries ≡ length (stored_entries self.form self.fields.now)) × (entries ≤ most_entries) }
        ensures { result ≡ stored_ledger self.entry.form self.entry.fields.now }
    {
        let head = tagged::find::find(self.fields, 2);
        let mut schemes = no_schemes();
        let count = self.read_records(&mut schemes);
        let added = read_added(self.form, head, count as u32, entries as u32);
        Ledger {
            month: u16::read(head, 0),
            connections: u32::read(head, 2),
            charged: u64::read(head, 6),
            borne: u64::read(head, 14),
            next_scheme: added.next_scheme,
            next_entry: added.next_entry,
            cleared_collected: added.collected,
            cleared_paid_out: added.paid_out,
            cleared_fees: added.fees,
            entries: entries as u32,
            count: count as u32,
            schemes,
        }
    }
}

// Whether a ledger that was read is sound as its form asks. `inline(never)`: in a caller's frame the tallies would stay on the stack.
#[inline(never)]
fn form_sound(form: Form, ledger: &Ledger, parties: &Parties, room: usize) -> bool
    requires { form ≡ Pion → schemes_rise ledger.now ≡ true }
    ensures { result ≡ form_sound form ledger.now parties.now room }
{
    match form {
        Form::Pion => ledger::sound::has_sound_figures(ledger, parties),
        Form::Pio2 => ledger::sound::sound(ledger, parties, room),
    }
}

// The ledger and the entries of a file's fields, where they are sound in a table of `room` records.
#[tactic(auto, using(crate::proofs::Walking::few_entries_walked, crate::proofs::Walking::schemes_rise_when, stored::proofs::Theorems::StoredFields::entries_collected, stored::proofs::Theorems::Reading::sound_placed), unfolding(stored::specs::Reading::table_answer))]
fn read_values(
    ledger: &mut Ledger,
    parties: &mut Parties,
    room: usize,
    stored: StoredFields,
) -> FileAnswer
    requires { parties.old ≡ no_parties }
    ensures { of_reading result ledger.new parties.new ≡ read_by stored.entry.form (table_answer stored.entry.form room stored.entry.fields.now) ledger.old stored.entry.fields.now }
{
    let entries = stored.read_records(parties);
    if room < entries {
        return Err(Refusal::of_call(NO_ENTRY_LEFT));
    }
    let read = stored.read_ledger(entries);
    if !form_sound(stored.form, &read, parties, room) {
        return Err(Refusal::of_call(LEDGER_UNSOUND));
    }
    *ledger = read;
    Ok(())
}

fn judge_letters(form: Form, fields: &[u8]) -> Judged
    ensures { result ≡ judge_letters (letters form) fields.now }
{
    match form {
        Form::Pion => field_values::judged::judge_letters(fields, b"PION"),
        Form::Pio2 => field_values::judged::judge_letters(fields, b"PIO2"),
    }
}

/// A ledger stored in a form, and its entries in the first places of an array of empty records; `room` is the table's length. Refuses with
/// 1, 2, 3, 9 and 13. A refusal leaves the present ledger, and the array with what was read.
// By a function of its own beside a book's and a request's: its values are judged against the table too.
#[tactic(auto, unfolding(stored::specs::Reading::read_answer))]
pub fn read(
    form: Form,
    ledger: &mut Ledger,
    parties: &mut Parties,
    room: usize,
    file: &[u8],
) -> FileAnswer
    requires { parties.old ≡ no_parties }
    ensures { of_reading result ledger.new parties.new ≡ read_back form ledger.old room file.now }
{
    stored::rows::stored_stands(form, 1, file)?;
    let fields = tagged::file::fields_part(file);
    let judged = judge_letters(form, fields);
    judged.map_err(|place| Refusal::of_file(VALUE_NOT_LISTED, 1, place))?;
    read_values(ledger, parties, room, StoredFields { form, fields })
}
