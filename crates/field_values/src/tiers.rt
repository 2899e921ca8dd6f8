// Numbers of the five tiers in a value.
ghost use Rattle.std.specs.Prelude.{[], ◌≡◌, ◌∷◌, ◌+◌, ◌*◌, ◌≤◌, length, map};
ghost use Rattle.numbers.specs.BigEndian.{number_at};

use crate::limits::TIERS;
use numbers::big_endian::BigEndian;
use std::array;

// A number for each tier, each `apart` bytes after the last.
pub fn by_tier<N: BigEndian>(value: &[u8], from: usize, apart: usize) -> [N; TIERS]
    requires { from + apart * 4 + N.width ≤ length value.now }
    ensures { map N.value result ≡ map (λ tier. number_at value.now (from + apart * tier) N.width) (0 ∷ 1 ∷ 2 ∷ 3 ∷ 4 ∷ []) }
{
    array::from_fn(|tier| N::read(value, from + apart * tier))
}
