// Big-endian numbers of 1, 2, 4 and 8 bytes, read at a place of a slice and written into a lent one.
ghost use Rattle.std.specs.Prelude.{◌≡◌, ◌+◌, ◌≤◌, ℕ, length};
ghost use Rattle.numbers.specs.BigEndian.{number_at, bytes_of};
ghost use Rattle.numbers.specs.Written.{written};

use std::array;

// A number of a width in a file.
pub trait BigEndian {
    ghost width: { ℕ };

    ghost value: { Self → ℕ };

    fn read(bytes: &[u8], at: usize) -> Self
        requires { at + width ≤ length bytes.now }
        ensures { value result ≡ number_at bytes.now at width };

    fn write(self, out: &mut [u8], at: usize)
        requires { at + width ≤ length out.old }
        ensures { out.new ≡ written out.old at (bytes_of width (value self)) };
}

impl BigEndian for u8 {
    ghost width = { 1 };

    ghost value = { λ n. n };

    #[tactic(auto, using(crate::proofs::Theorems::BigEndian::number_at_one))]
    fn read(bytes: &[u8], at: usize) -> u8 {
        bytes[at]
    }

    #[tactic(auto, using(crate::proofs::Theorems::BigEndian::written_one))]
    fn write(self, out: &mut [u8], at: usize) {
        out[at] = self;
    }
}

impl BigEndian for u16 {
    ghost width = { 2 };

    ghost value = { λ n. n };

    #[tactic(auto, using(crate::proofs::StdBytes::read_2))]
    fn read(bytes: &[u8], at: usize) -> u16 {
        u16::from_be_bytes(array::from_fn(|i| bytes[at + i]))
    }

    #[tactic(auto, using(crate::proofs::StdBytes::written_2))]
    fn write(self, out: &mut [u8], at: usize) {
        out[at..at + 2].copy_from_slice(&self.to_be_bytes());
    }
}

impl BigEndian for u32 {
    ghost width = { 4 };

    ghost value = { λ n. n };

    #[tactic(auto, using(crate::proofs::StdBytes::read_4))]
    fn read(bytes: &[u8], at: usize) -> u32 {
        u32::from_be_bytes(array::from_fn(|i| bytes[at + i]))
    }

    #[tactic(auto, using(crate::proofs::StdBytes::written_4))]
    fn write(self, out: &mut [u8], at: usize) {
        out[at..at + 4].copy_from_slice(&self.to_be_bytes());
    }
}

impl BigEndian for u64 {
    ghost width = { 8 };

    ghost value = { λ n. n };

    #[tactic(auto, using(crate::proofs::StdBytes::read_8))]
    fn read(bytes: &[u8], at: usize) -> u64 {
        u64::from_be_bytes(array::from_fn(|i| bytes[at + i]))
    }

    #[tactic(auto, using(crate::proofs::StdBytes::written_8))]
    fn write(self, out: &mut [u8], at: usize) {
        out[at..at + 8].copy_from_slice(&self.to_be_bytes());
    }
}
