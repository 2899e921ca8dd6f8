// Discount factors in hundred-millionths, year after year from the factor of the year before.
#![tactic(auto)]

ghost use Rattle.std.specs.Prelude.{◌≡◌, suc, ◌≤◌};
ghost use Rattle.discount.specs.DiscountLimits.{highest_discount, FactorsUntil};
ghost use Rattle.discount.specs.DiscountYears.{last_year};
ghost use Rattle.discount.specs.Discount.{discount};

// The last year that has a discount factor: that of the longest life.
pub const LAST_YEAR: usize = 30;

// A factor for each of the years 0 to 30. A fixed array, of which the life says how many years count: a row of the table has them all,
// and is handed on as it is.
pub type DiscountFactors = [u32; LAST_YEAR + 1];

// The discount factor of year n + 1 from that of year n.
// A factor is a plain number with its limit, as a row holds it: a type of its own would be opened each year.
#[tactic(auto, using(crate::proofs::Theorems::Discount::discount_at_most), unfolding(crate::specs::Discount::discount))]
pub fn next_discount(b: u16, n: usize, f: u64) -> u64
    requires { (f ≡ discount b n) × (f ≤ highest_discount) }
    ensures { (result ≡ discount b (suc n)) × (result ≤ highest_discount) }
{
    f * 10_000 / (10_000 + u64::from(b))
}

// The discount factors of the years 0 to life; later years hold no factor.
// Rate and life as two numbers: the one is the book's, the other the class's.
#[tactic(auto, using(crate::proofs::Theorems::Discount::discount_at_most), unfolding(crate::specs::Discount::discount))]
pub fn factors_until(b: u16, life: usize) -> DiscountFactors
    requires { life ≤ last_year }
    ensures { FactorsUntil b life result }
{
    let mut factors = [100_000_000; LAST_YEAR + 1];
    for n in 0..life {
        factors[n + 1] = next_discount(b, n, u64::from(factors[n])) as u32;
    }
    factors
}
