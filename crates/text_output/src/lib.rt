// Bytes and digits written one behind the other into a lent output. Each write asks for the room that it takes, and answers the place behind it.
#![tactic(auto)]

ghost use Rattle.std.specs.Prelude.{◌≡◌, ◌+◌, ◌<◌, ◌≤◌, ◌∷◌, [], length};
ghost use Rattle.numbers.specs.Written.{written};
ghost use Rattle.text_output.specs.Digits.{decimal, last_digits, grouped};

/// Bytes from a place of the output on.
#[tactic(auto, using(crate::proofs::Theorems::Written::written_part))]
pub fn put(out: &mut [u8], at: usize, bytes: &[u8]) -> usize
    requires { at + length bytes.now ≤ length out.old }
    ensures place { result ≡ at + length bytes.now }
    ensures out_after { out.new ≡ written out.old at bytes.now }
{
    let end = at + bytes.len();
    out[at..end].copy_from_slice(bytes);
    end
}

/// One byte.
#[tactic(auto, using(crate::proofs::Theorems::Written::written_byte))]
pub fn put_byte(out: &mut [u8], at: usize, byte: u8) -> usize
    requires { at < length out.old }
    ensures place { result ≡ at + 1 }
    ensures out_after { out.new ≡ written out.old at (byte ∷ []) }
{
    out[at] = byte;
    at + 1
}

/// The last so many decimal digits of a number, with zeros in front.
#[tactic(auto, using(crate::proofs::Theorems::Written::written_behind, crate::proofs::Theorems::Written::written_nothing, crate::proofs::Theorems::Digits::last_digits_length, crate::proofs::Theorems::Digits::last_digits_none, crate::proofs::Theorems::Digits::last_digits_on))]
pub fn put_last_digits(out: &mut [u8], at: usize, count: usize, n: u64) -> usize
    requires { at + count ≤ length out.old }
    ensures place { result ≡ at + count }
    ensures out_after { out.new ≡ written out.old at (last_digits count n) }
{
    if count == 0 {
        return at;
    }
    let last = put_last_digits(out, at, count - 1, n / 10);
    put_byte(out, last, b'0' + (n % 10) as u8)
}

/// A number in decimal digits, without leading zeros.
#[tactic(auto, using(crate::proofs::Theorems::Written::written_behind, crate::proofs::Theorems::Digits::decimal_end, crate::proofs::Theorems::Digits::decimal_on, crate::proofs::Theorems::Digits::decimal_length_on))]
pub fn put_decimal(out: &mut [u8], at: usize, n: u64) -> usize
    requires { at + length (decimal n) ≤ length out.old }
    ensures place { result ≡ at + length (decimal n) }
    ensures out_after { out.new ≡ written out.old at (decimal n) }
{
    let mut last = at;
    if n >= 10 {
        last = put_decimal(out, at, n / 10);
    }
    put_byte(out, last, b'0' + (n % 10) as u8)
}

/// A number in decimal digits with a comma between thousands.
#[tactic(auto, using(crate::proofs::Theorems::Written::written_behind, crate::proofs::Theorems::Digits::grouped_end, crate::proofs::Theorems::Digits::grouped_on, crate::proofs::Theorems::Digits::grouped_length_on, crate::proofs::Theorems::Digits::last_digits_length))]
pub fn put_grouped(out: &mut [u8], at: usize, n: u64) -> usize
    requires { at + length (grouped n) ≤ length out.old }
    ensures place { result ≡ at + length (grouped n) }
    ensures out_after { out.new ≡ written out.old at (grouped n) }
{
    if n < 1000 {
        return put_decimal(out, at, n);
    }
    let comma = put_grouped(out, at, n / 1000);
    let last = put_byte(out, comma, b',');
    put_last_digits(out, last, 3, n)
}
