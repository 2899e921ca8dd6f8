// Incremental revenue: the lines charges of the years 0 to 30 at most, scaled and discounted year by year.
#![tactic(auto)]

ghost use Rattle.std.specs.Prelude.{◌≡◌, suc, ◌*◌, ◌<◌, ◌≤◌};
ghost use Rattle.field_values.specs.FactorLimits.{FactorsWithin};
ghost use Rattle.field_values.specs.Limits.{highest_factor, highest_revenue};
ghost use Rattle.field_values.specs.SumLimits.{sums_below};
ghost use Rattle.discount.specs.DiscountLimits.{highest_discount};
ghost use Rattle.revenue.specs.RevenueLimits.{highest_year_revenue, highest_incremental_revenue};
ghost use Rattle.revenue.specs.StreamLimits.{highest_opex_factor, longest_life, StreamWithin};
ghost use Rattle.revenue.specs.Revenue.{opex_factor, distribution_opex_factor, factor_of, life_of, scaled, stream_year, incremental_revenue};

use field_values::factors::Factors;
use field_values::limits::SPECIAL_PRICING;

// "10,000 for transmission": no opex is taken from it.
pub const TRANSMISSION_OPEX_FACTOR: u16 = 10_000;

// A stream of revenue, distribution or transmission: its year-one figure, its opex factor, and the
// factor lists of its years. It may hold any figures: their limits are asked where revenue is worked
// out, and not of whoever makes a stream.
#[derive(Clone, Copy)]
pub struct Stream {
    pub revenue: u32,
    pub opex_factor: u16,
    pub part_year: Factors,
    pub revenue_factors: Factors,
    pub tariff_factors: Factors,
}

// The opex factor O of a rate book.
// Opex and revenue as two plain numbers, as a book holds them: a type with their three bounds would be made twice for one division.
fn opex_factor(opex: u64, revenue: u64) -> u16
    requires { (opex ≤ revenue) × (0 < revenue) × (revenue < sums_below) }
    ensures { (result ≡ opex_factor opex revenue) × (result ≤ highest_opex_factor) }
{
    (10_000 * (revenue - opex) / revenue) as u16
}

// The opex factor of distribution, by the connection's class: special pricing has transmission's.
// A class is the file's byte: an enum would take fewer values than this does.
pub fn distribution_opex_factor(class: u8, opex: u64, revenue: u64) -> u16
    requires { (opex ≤ revenue) × (0 < revenue) × (revenue < sums_below) }
    ensures { (result ≡ distribution_opex_factor class opex revenue) × (result ≤ highest_opex_factor) }
{
    if class == SPECIAL_PRICING {
        TRANSMISSION_OPEX_FACTOR
    } else {
        opex_factor(opex, revenue)
    }
}

// The factor of year n: the first is year 0's, the last holds for all later years.
pub fn factor_of(list: Factors, n: usize) -> u64
    requires { FactorsWithin list }
    ensures { (result ≡ factor_of list n) × (result ≤ highest_factor) }
{
    u64::from(list.values[n.min(list.count - 1)])
}

// Scales a revenue to which at most two factors, of at most 4 each, were applied before.
fn scaled(x: u64, factor: u64) -> u64
    requires { (x ≤ 16 * highest_revenue) × (factor ≤ highest_factor) }
    ensures value { result ≡ scaled x factor }
    ensures within { result ≤ 4 * x }
    ensures opex_taken { factor ≤ highest_opex_factor → result ≤ x }
{
    x * factor / 10_000
}

impl Stream {
    // The revenue of year n, whose discount factor is f, rounded down after each division.
    fn year(&self, n: usize, f: u64) -> u64
        requires { StreamWithin self.now × (f ≤ highest_discount) }
        ensures { (result ≡ stream_year self.now n f) × (result ≤ highest_year_revenue) }
    {
        let net = scaled(u64::from(self.revenue), u64::from(self.opex_factor));
        let of_year = scaled(net, factor_of(self.part_year, n));
        let grown = scaled(of_year, factor_of(self.revenue_factors, n));
        scaled(grown, factor_of(self.tariff_factors, n)) * f / 100_000_000
    }
}

// The life of a connection in years, by its class.
// By the file's byte as well, of which any has a life.
pub fn life_of(class: u8) -> usize
    ensures { (result ≡ life_of class) × (result ≤ longest_life) }
{
    if class == 0 { 30 } else { 15 }
}

// IR: both streams over the years 0 to life.
// The life is a plain number of years, as the discount table takes it: a type would hold it for one call.
#[tactic(auto, using(crate::proofs::Years::years))]
pub fn incremental_revenue(distribution: Stream, transmission: Stream, b: u16, life: usize) -> u64
    requires { StreamWithin distribution × StreamWithin transmission × (life ≤ longest_life) }
    ensures { (result ≡ incremental_revenue distribution transmission b (suc life)) × (result ≤ highest_incremental_revenue) }
{
    let factors = discount_table::factors_of(b, life);
    let mut sum = 0;
    for (n, factor) in factors[..=life].iter().enumerate() {
        let f = u64::from(*factor);
        sum += distribution.year(n, f) + transmission.year(n, f);
    }
    sum
}
