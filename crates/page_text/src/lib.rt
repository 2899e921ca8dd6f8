// The reconciliation as a page: twelve lines of a label and an amount. A line is made from its last
// column to its first, since an amount is aligned to the right.
#![tactic(auto)]

ghost use Rattle.std.specs.Prelude.{◌≡◌, ◌+◌, ◌/◌, ◌<◌, ◌≤◌, ℕ, List, length, drop};
ghost use mathlib.Core.List.{[], ◌∷◌, ◌++◌};
ghost use Rattle.tagged.specs.AnswerPromised.{AnswerPromised};
ghost use Rattle.charge.specs.Price.{price_of};
ghost use Rattle.page_text.specs.Page.{digit, three_digits_of, first_group, dollars_text, cents_text, amount_text, line, page_lines, page_of, page_size, page_written, page_output};
ghost use Rattle.page_text.specs.PageEnding.{page_ending};

use charge::Pricing;
use reconciliation::Reconciliation;
use std::marker::Model;
use tagged::file::Refusal;
use tagged::refusals::OUTPUT_TOO_SHORT;

// The bytes of a page, its lines and the bytes of each.
pub const PAGE: usize = 768;

const LINES: usize = 12;

const LINE: usize = 64;

// The end of a line: its bytes are there from `start` on.
// A line is filled from its last byte to its first, as an amount is aligned to the right: no type of the library grows to the front.
#[derive(Drop)]
struct Columns {
    bytes: [u8; LINE],
    start: usize,
}

impl Model for Columns {
    ghost use Rattle.std.specs.Prelude.{ℕ, List, ◌≤◌, drop};

    ghost Value = { List ℕ };

    ghost view = { λ columns. drop columns.start columns.bytes };

    ghost invariant = { λ columns. columns.start ≤ 64 };
}

pub type PageWritten = Result<(), Refusal>;

// Printed by hand and not by Display, which writes from the left and may fail. Each push asks for the room that it takes: an amount
// always fits its line, so that none of them fails.
impl Columns {
    // None of them.
    fn new() -> Self
        ensures { result ≡ [] }
    {
        Columns {
            bytes: [b' '; LINE],
            start: LINE,
        }
    }

    fn push_front(&mut self, byte: u8)
        requires { length self.old < 64 }
        ensures { self.new ≡ byte ∷ self.old }
    {
        self.start -= 1;
        self.bytes[self.start] = byte;
    }

    // The last decimal digit of n.
    // One, two and three digits by a function each: a group has no more, and a loop would be no plainer.
    fn push_digit(&mut self, n: u64)
        requires { length self.old < 64 }
        ensures { self.new ≡ digit n ∷ self.old }
    {
        self.push_front(b'0' + (n % 10) as u8);
    }

    // The last two.
    fn push_two_digits(&mut self, n: u64)
        requires { length self.old + 2 ≤ 64 }
        ensures { self.new ≡ digit (n / 10) ∷ digit n ∷ self.old }
    {
        self.push_digit(n);
        self.push_digit(n / 10);
    }

    // The last three.
    fn push_three_digits(&mut self, n: u64)
        requires { length self.old + 3 ≤ 64 }
        ensures { self.new ≡ three_digits_of n self.old }
    {
        self.push_two_digits(n);
        self.push_digit(n / 100);
    }

    // One to three digits, without a leading zero.
    fn push_first_group(&mut self, n: u64)
        requires { length self.old + 3 ≤ 64 }
        ensures value { self.new ≡ first_group n self.old }
        ensures within { length self.new ≤ length self.old + 3 }
    {
        if n < 10 {
            self.push_digit(n);
        } else if n < 100 {
            self.push_two_digits(n);
        } else {
            self.push_three_digits(n);
        }
    }

    // Dollars with a comma between thousands: at most 18 digits and 5 commas.
    fn push_dollars(&mut self, dollars: u64)
        requires { (length self.old + 23 ≤ 64) × (dollars < 1000000000000000000) }
        ensures value { self.new ≡ dollars_text 5 dollars self.old }
        ensures within { length self.new ≤ length self.old + 23 }
    {
        let mut thousands = dollars;
        while thousands >= 1000 {
            self.push_three_digits(thousands);
            self.push_front(b',');
            thousands /= 1000;
        }
        self.push_first_group(thousands);
    }
}

// An amount that isn't below 0, with byte 0A behind it.
#[tactic(auto, using(crate::proofs::Theorems::Page::cents_before))]
fn unsigned_amount(cents: u64) -> Columns
    ensures value { result ≡ cents_text cents ++ 10 ∷ [] }
    ensures within { length result ≤ 27 }
{
    let mut amount = Columns::new();
    amount.push_front(b'\n');
    amount.push_two_digits(cents);
    amount.push_front(b'.');
    amount.push_dollars(cents / 100);
    amount
}

// "a leading minus where negative"
// A function of its own: not every amount without a sign fits a number with one.
fn signed_amount(cents: i64) -> Columns
    ensures value { result ≡ amount_text cents ++ 10 ∷ [] }
    ensures within { length result ≤ 28 }
{
    let mut amount = unsigned_amount(slip_text::size(cents));
    if cents < 0 {
        amount.push_front(b'-');
    }
    amount
}

// A line: a label at its start, an amount with byte 0A at its end, and blanks between. In bytes and not by Display, as the amounts are.
fn line(label: &[u8], columns: Columns) -> [u8; LINE]
    requires { (length label.now ≤ 32) × (length columns ≤ 32) }
    ensures { (amount : List ℕ) → columns ≡ amount ++ 10 ∷ [] → result ≡ line label.now amount }
{
    let mut line = columns.bytes;
    line[..columns.start].fill(b' ');
    line[..label.len()].copy_from_slice(label);
    line
}

// `inline(never)`: the columns of each amount would stay on the page's stack.
#[inline(never)]
fn unsigned_line(label: &[u8], cents: u64) -> [u8; LINE]
    requires { length label.now ≤ 32 }
    ensures { result ≡ line label.now (cents_text cents) }
{
    line(label, unsigned_amount(cents))
}

fn page_lines(r: &Reconciliation) -> [[u8; LINE]; LINES]
    ensures { result ≡ page_lines r.now }
{
    [
        unsigned_line(b"ME", r.me),
        unsigned_line(b"MC", r.mc),
        unsigned_line(b"CE", r.ce),
        unsigned_line(b"CC2", r.cc2),
        unsigned_line(b"TW", r.tw),
        unsigned_line(b"HR", r.hr),
        unsigned_line(b"OL", r.ol),
        unsigned_line(b"IC", r.ic),
        unsigned_line(b"IR", r.ir),
        unsigned_line(b"CC", r.cc),
        line(b"NIC", signed_amount(r.nic)),
        line(b"NC", signed_amount(r.nc)),
    ]
}

// The lines at the output's start. `inline(never)`: in a caller's frame they would stay on the stack
// beside the pricing's.
#[tactic(auto, using(crate::proofs::Filling::page_joined))]
#[inline(never)]
fn write_lines(r: &Reconciliation, out: &mut [u8])
    requires { page_size ≤ length out.old }
    ensures { out.new ≡ page_of r.now ++ drop page_size out.old }
{
    let lines = page_lines(r);
    out[..PAGE].copy_from_slice(lines.as_flattened());
}

// `inline(never)`: in a caller's frame the pricing's own figures would stay on the stack below the lines.
#[tactic(auto, using(charge::proofs::Theorems::PriceEnding::promised_price))]
#[inline(never)]
fn priced(book: &[u8], request: &[u8]) -> Pricing
    ensures { result ≡ price_of book.now request.now }
{
    charge::price(book, request)
}

// The page of a request by a rate book at the start of a lent output, or the refusal: book, request,
// 4, 5, and 14 where the output is shorter than the page.
#[tactic(auto, using(crate::proofs::Theorems::PageEnding::page_promise), unfolding(crate::specs::Page::page_written, crate::specs::Page::page_output, crate::specs::Page::page_of))]
pub fn page(book: &[u8], request: &[u8], out: &mut [u8]) -> PageWritten
    ensures answer { AnswerPromised page_ending (page_written (price_of book.now request.now) out.old) result }
    ensures out_after { out.new ≡ page_output (price_of book.now request.now) out.old }
{
    let bill = priced(book, request)?;
    if out.len() < PAGE {
        return Err(Refusal::of_call(OUTPUT_TOO_SHORT));
    }
    write_lines(&bill.reconciliation, out);
    Ok(())
}
