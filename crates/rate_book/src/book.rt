// The values of a rate book, or its refusal.
ghost use Rattle.std.specs.Prelude.{Ok, ◌≡◌};
ghost use Rattle.field_values.specs.Reading.{reading_of};
ghost use Rattle.book_zones.specs.Zones.{zone_rates};
ghost use Rattle.rate_book.specs.Book.{judge_book, book_values, book_of};

use crate::fields::{
    CHARGED_LIMITS, Charging, RATE_LIMITS, Sums, judge_sums, judge_terms, read_charging, read_rate,
    read_sums, read_terms,
};
use book_zones::rows::book_stands;
use book_zones::zones::BookFields;
use field_values::factors::{Factors, judge_factors, read_factors};
use field_values::judged::{Judged, judge_field, judge_letters};
use field_values::limits::{MOST_ZONES, Rates};
use tagged::file::{Refusal, fields_part};
use tagged::refusals::VALUE_NOT_LISTED;

// Zone numbers in a fixed array with their count: a book is Copy and handed on by value, which the library's ArrayVec isn't.
// The zones' rates stand outside it: a book is handed on by value, and takes less of the stack.
// The limits are asked of a book and no part of its type: book_values reads fields past them as well.
#[derive(Clone, Copy)]
pub struct Book {
    // discount rate b, hundredths of a percent
    pub rate: u16,
    // sums of selected opex and of distribution revenue
    pub opex: u64,
    pub revenue: u64,
    // revenue factors
    pub distribution: Factors,
    pub transmission: Factors,
    pub threshold: u32,
    pub fee: u32,
    pub minimum: u32,
    // in months
    pub term: u16,
    // 1 where capacity is charged, otherwise 0
    // A byte and no bool: fields that walk may hold any.
    pub charged: u8,
    // credit share
    pub share: u16,
    pub zones: usize,
    pub zone_numbers: [u16; MOST_ZONES],
}

// The first value, in byte order, that isn't as listed.
#[tactic(auto, unfolding(field_values::specs::Narrow::narrow))]
fn judge_book(book: BookFields, rates: Rates) -> Judged
    requires { rates ≡ zone_rates book.fields.now }
    ensures { result ≡ judge_book book.entry.fields.now }
{
    let fields = book.fields;
    judge_letters(fields, b"RATE")?;
    judge_field(fields, 2, &RATE_LIMITS)?;
    judge_sums(book)?;
    judge_factors(fields, 4)?;
    judge_factors(fields, 5)?;
    judge_terms(book)?;
    judge_field(fields, 7, &CHARGED_LIMITS)?;
    book.judge_zones(rates)
}

// Figure by figure: a book is flat, so that who prices by it needs none of the file's fields. The terms stay by name: a
// pattern would list the four once more, over six lines.
pub fn book_values(book: BookFields) -> Book
    ensures { result ≡ book_values book.entry.fields.now }
{
    let fields = book.fields;
    let Sums { opex, revenue } = read_sums(book);
    let terms = read_terms(book);
    let Charging { charged, share } = read_charging(book);
    Book {
        rate: read_rate(book),
        opex,
        revenue,
        distribution: read_factors(fields, 4),
        transmission: read_factors(fields, 5),
        threshold: terms.threshold,
        fee: terms.fee,
        minimum: terms.minimum,
        term: terms.term,
        charged,
        share,
        zones: book.zones.count,
        zone_numbers: book.zone_numbers(),
    }
}

// The values of a book whose fields walk, or the refusal of its first value past its limits.
// By a function of its own beside a request's: the zone rates are read before and stand beside the book.
pub fn read_walked_book(number: u8, book: BookFields, rates: Rates) -> Result<Book, Refusal>
    requires { rates ≡ zone_rates book.fields.now }
    ensures { result ≡ reading_of number (Ok tt) (judge_book book.entry.fields.now) (book_values book.entry.fields.now) }
{
    let judged = judge_book(book, rates);
    judged.map_err(|at| Refusal::of_file(VALUE_NOT_LISTED, number, at))?;
    Ok(book_values(book))
}

// The values of a rate book, or its refusal; `number` is the file's in a refusal. The zone rates stand
// beside the book.
#[tactic(auto, using(crate::proofs::Theorems::Book::book_walks), unfolding(crate::specs::Book::book_of))]
pub fn read_book(number: u8, file: &[u8]) -> Result<Book, Refusal>
    ensures { result ≡ book_of number file.now }
{
    book_stands(number, file)?;
    let book = BookFields::new(fields_part(file));
    read_walked_book(number, book, book.zone_rates())
}
