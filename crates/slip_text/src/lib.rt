// The slip: the lines that the printing program writes for a pricing answer.
#![tactic(auto)]

ghost use Rattle.std.specs.Prelude.{◌≡◌, ◌+◌, ◌<◌, ◌≤◌, nat_abs, length};
ghost use mathlib.Core.List.{[], ◌∷◌, ◌++◌, flatten};
ghost use Rattle.tagged.specs.AnswerPromised.{AnswerPromised};
ghost use Rattle.slip_text.specs.Slip.{decimal, signed_decimal, line, reconciliation_lines, refusal_text, slip_of, slip_written, slip_buffer};
ghost use Rattle.slip_text.specs.SlipEnding.{slip_ending};
ghost use Rattle.slip_text.specs.SlipRoom.{room};
ghost use Rattle.slip_text.specs.FigureRoom.{figure_text, figure_room};

use charge::Pricing;
use reconciliation::{Percent, Reconciliation};
use std::marker::Model;
use tagged::file::Refusal;
use tagged::refusals::OUTPUT_TOO_SHORT;

// How many bytes a text has room for: eleven lines of any figures of 64 bits. A slip of two files is at most 236 bytes long.
pub const ROOM: usize = 384;

// What is written so far: the first `len` bytes of a fixed buffer. By the library's ArrayString, which was tried, the static library
// would take the contracts of one more crate of the kit as they stand: what they rest on doesn't grow.
#[derive(Drop)]
struct Text {
    bytes: [u8; ROOM],
    len: usize,
}

impl Model for Text {
    ghost use Rattle.std.specs.Prelude.{ℕ, List, ◌≤◌, take};

    ghost Value = { List ℕ };

    ghost view = { λ text. take text.len text.bytes };

    ghost invariant = { λ text. text.len ≤ 384 };
}

// A figure of the slip: an amount, or a percentage, rounded or as quotient and remainder.
#[derive(Clone, Copy)]
enum Figure {
    Unsigned(u64),
    Signed(i64),
    Rounded(Percent),
    Exact(Percent),
}

// How many bytes were written, or the refusal.
pub type SlipWritten = Result<usize, Refusal>;

// A figure without its sign.
pub fn size(n: i64) -> u64
    ensures { result ≡ nat_abs n }
{
    n.unsigned_abs()
}

// Printed by hand and not by Display, which may fail where a slip can't.
// Each push asks for the room that it takes: the lines of a slip always fit, so that none of them fails.
impl Text {
    fn new() -> Self
        ensures { result ≡ [] }
    {
        Text {
            bytes: [0; ROOM],
            len: 0,
        }
    }

    fn as_bytes(&self) -> &[u8]
        ensures value { result.now ≡ self.now }
        ensures within { length self.now ≤ room }
    {
        &self.bytes[..self.len]
    }

    fn push(&mut self, byte: u8)
        requires { length self.old < room }
        ensures value { self.new ≡ self.old ++ byte ∷ [] }
        ensures within { length self.new ≡ length self.old + 1 }
    {
        self.bytes[self.len] = byte;
        self.len += 1;
    }

    fn push_bytes(&mut self, bytes: &[u8])
        requires { length self.old + length bytes.now ≤ room }
        ensures value { self.new ≡ self.old ++ bytes.now }
        ensures within { length self.new ≡ length self.old + length bytes.now }
    {
        for byte in bytes {
            self.push(*byte);
        }
    }

    // Decimal digits, without leading zeros. Not by `write!`, which may fail where a slip can't.
    #[tactic(auto, using(crate::proofs::Lines::tens))]
    fn push_decimal(&mut self, n: u64)
        requires { length self.old + length (decimal n) ≤ room }
        ensures value { self.new ≡ self.old ++ decimal n }
        ensures within { length self.new ≡ length self.old + length (decimal n) }
    {
        if n >= 10 {
            self.push_decimal(n / 10);
        }
        self.push(b'0' + (n % 10) as u8);
    }

    // "a negative figure starts with `-`". A sign and at most 20 digits are at most 21 bytes.
    #[tactic(auto, using(crate::proofs::Lines::signs))]
    fn push_signed(&mut self, n: i64)
        requires { length self.old + 21 ≤ room }
        ensures { (self.new ≡ self.old ++ signed_decimal n) × (length self.new ≤ length self.old + 21) }
    {
        if n < 0 {
            self.push_bytes(b"-");
        }
        self.push_decimal(size(n));
    }

    // "“none” is written `-`"; "quotient, a blank, remainder; `-` where the divisor is 0".
    #[tactic(auto, using(crate::proofs::Lines::digits))]
    fn push_figure(&mut self, figure: Figure)
        requires { length self.old + figure_room figure ≤ room }
        ensures { (self.new ≡ self.old ++ figure_text figure) × (length self.new ≤ length self.old + figure_room figure) }
    {
        match figure {
            Figure::Unsigned(n) => self.push_decimal(n),
            Figure::Signed(n) => self.push_signed(n),
            Figure::Rounded(None) => self.push(b'-'),
            Figure::Rounded(Some(whole)) => self.push_signed(whole.rounded),
            Figure::Exact(None) => self.push(b'-'),
            Figure::Exact(Some(whole)) => {
                self.push_signed(whole.quotient);
                self.push(b' ');
                self.push_decimal(whole.remainder);
            }
        }
    }

    // A line: its label, a blank, its figure, byte 0A.
    fn push_line(&mut self, label: &[u8], figure: Figure)
        requires { length self.old + length label.now + figure_room figure + 2 ≤ room }
        ensures { (self.new ≡ self.old ++ line label.now (figure_text figure)) × (length self.new ≤ length self.old + length label.now + figure_room figure + 2) }
    {
        self.push_bytes(label);
        self.push(b' ');
        self.push_figure(figure);
        self.push(b'\n');
    }
}

fn reconciliation_text(r: &Reconciliation) -> Text
    ensures { result ≡ flatten (reconciliation_lines r.now) }
{
    let mut text = Text::new();
    text.push_line(b"CC", Figure::Unsigned(r.cc));
    text.push_line(b"IC", Figure::Unsigned(r.ic));
    text.push_line(b"IR", Figure::Unsigned(r.ir));
    text.push_line(b"NIC", Figure::Signed(r.nic));
    text.push_line(b"NC", Figure::Signed(r.nc));
    text.push_line(b"RELIANCE", Figure::Rounded(r.reliance));
    text.push_line(b"UPFRONT", Figure::Rounded(r.upfront));
    text.push_line(b"NCRATIO", Figure::Rounded(r.nc_ratio));
    text.push_line(b"RELIANCE-R", Figure::Exact(r.reliance));
    text.push_line(b"UPFRONT-R", Figure::Exact(r.upfront));
    text.push_line(b"NCRATIO-R", Figure::Exact(r.nc_ratio));
    text
}

// "A refusal is the one line `REFUSED n file place`."
// By hand and not by Display, as the figures are.
#[tactic(auto, using(crate::proofs::Lines::digits))]
fn refusal_text(r: &Refusal) -> Text
    ensures { result ≡ refusal_text r.now }
{
    let mut text = Text::new();
    text.push_bytes(b"REFUSED ");
    text.push_decimal(u64::from(r.number));
    text.push(b' ');
    text.push_decimal(u64::from(r.file));
    text.push(b' ');
    text.push_decimal(r.place as u64);
    text.push(b'\n');
    text
}

#[tactic(auto, unfolding(crate::specs::Slip::slip_of))]
fn pricing_text(pricing: &Pricing) -> Text
    ensures { result ≡ slip_of pricing.now }
{
    match pricing {
        Ok(bill) => reconciliation_text(&bill.reconciliation),
        Err(refusal) => refusal_text(refusal),
    }
}

// The slip at the start of a lent buffer, and its length; refused where the buffer is shorter.
#[tactic(auto, using(crate::proofs::Theorems::SlipEnding::slip_promise))]
pub fn slip_text(pricing: Pricing, out: &mut [u8]) -> SlipWritten
    ensures answer { AnswerPromised slip_ending (slip_written pricing out.old) result }
    ensures out_after { out.new ≡ slip_buffer pricing out.old }
{
    let text = pricing_text(&pricing);
    let slip = text.as_bytes();
    let len = slip.len();
    if out.len() < len {
        return Err(Refusal::of_call(OUTPUT_TOO_SHORT));
    }
    out[..len].copy_from_slice(slip);
    Ok(len)
}
