// How far a figure of the pricing call may lie from document 000's unrounded one.
//
// Document 000 works unrounded and prints rounded, so a printed figure lies within half its unit of
// the unrounded one. Document 01 takes revenue in cents and factors in ten-thousandths, and rounds
// down after each division. Where x lies off by e and a factor f by d, the product lies off by at
// most e × (f + d) + x × d, and rounding it down takes less than a cent more. O lies below its exact
// value by what its division leaves, and F(n) by less than n hundred-millionths. A bound follows
// these steps through every year, with the book's and the request's own factors, and never looks at
// a computed figure. Every division here rounds up.
ghost use Rattle.std.specs.Prelude.{◌<◌, ◌≤◌};
ghost use Rattle.field_values.specs.Limits.{tier_count, highest_factor, highest_share};
ghost use Rattle.field_values.specs.SumLimits.{sums_below};
ghost use Rattle.discount.specs.DiscountLimits.{highest_discount};
ghost use Rattle.revenue.specs.StreamLimits.{longest_life, StreamWithin};
ghost use Rattle.rate_book.specs.BookLimits.{BookWithin};
ghost use Rattle.request.specs.RequestLimits.{RequestWithin};
ghost use Rattle.printed_figures.specs.Tolerance.{limit};

use crate::printed::Units;
use charge::Streams;
use field_values::limits::TIERS;
use rate_book::book::Book;
use request::values::Request;
use revenue::Stream;
use tagged::file::Refusal;

// No figure and no bound comes near it. A bound that did would be cut to it, which only makes the
// test stricter.
const LIMIT: u64 = 10_000_000_000_000;

// An input lies off by no more.
const FURTHEST: u64 = 10_000;

// A figure, and how far it may lie off.
#[derive(Clone, Copy)]
struct Near {
    // at least the figure, in cents
    figure: u64,
    // at least its distance from the unrounded one, in ten-thousandths of a cent
    off: u64,
    ghost figure_within: { figure ≤ limit },
    ghost off_within: { off ≤ limit },
}

// By how much at most a stream's inputs lie off: its revenue in ten-thousandths of a cent, its
// factors in hundred-millionths.
#[derive(Clone, Copy)]
struct Offs {
    revenue: u64,
    opex: u64,
    tariff: u64,
    ghost revenue_within: { revenue ≤ 10000 },
    ghost opex_within: { opex ≤ 10000 },
    ghost tariff_within: { tariff ≤ 10000 },
}

// By how much at most a figure lies off, in cents.
#[derive(Clone, Copy, Default)]
pub struct Bounds {
    pub mc: u64,
    pub cc2: u64,
    pub cc: u64,
    pub borne: u64,
    pub ic: u64,
    pub ir: u64,
    pub nic: u64,
    pub nc: u64,
}

// Here and below plain numbers with their bounds: what is kept from step to step is a Near or an Offs, whose members hold them.
pub fn capped(x: u64) -> u64
    ensures { result ≤ limit }
{
    x.min(LIMIT)
}

// x × factor / 10,000, rounded up.
fn raised(x: u64, factor: u64) -> u64
    requires { (x ≤ limit) × (factor ≤ 100000) }
    ensures { result ≤ limit }
{
    capped((x * factor).div_ceil(10_000))
}

// Ten-thousandths of a cent in cents, rounded up.
fn cents(off: u64) -> u64
    requires { off ≤ limit }
    ensures { result ≤ 1000000001 }
{
    off.div_ceil(10_000)
}

// What the rounding down of a product takes, in ten-thousandths of a cent: a cent, or nothing where
// the product is whole.
fn rounded(figure: u64, factor: u64, off: u64) -> u64
    ensures { result ≤ 10000 }
{
    let whole = off == 0 && (factor == 0 || factor == 10_000);
    if figure == 0 || whole { 0 } else { 10_000 }
}

impl Near {
    // A figure times a factor in ten-thousandths that lies off by at most `off` hundred-millionths. A factor is a plain number with its limit,
    // here as in `revenue`: it comes from a list of numbers, and a type of its own would be opened in each product.
    fn times(self, factor: u64, off: u64) -> Near
        requires { (factor ≤ highest_factor) × (off ≤ 10000) }
    {
        let highest = factor + off.min(1);
        let carried = raised(self.off, highest) + raised(self.figure, off);
        Near {
            figure: raised(self.figure, highest),
            off: capped(carried + rounded(self.figure, factor, off)),
        }
    }

    fn plus(self, other: Near) -> Near {
        Near {
            figure: capped(self.figure + other.figure),
            off: capped(self.off + other.off),
        }
    }
}

// A stream's revenue of year n, whose discount factor is f.
// Here and below the stream's limits and the life's are asked as `revenue` asks them: a stream may hold any figures.
fn near_year(stream: Stream, offs: Offs, n: usize, f: u64) -> Near
    requires { StreamWithin stream × (n ≤ longest_life) × (f ≤ highest_discount) }
{
    let revenue = Near {
        figure: u64::from(stream.revenue),
        off: offs.revenue.min(u64::from(stream.revenue) * 10_000),
    };
    revenue
        .times(u64::from(stream.opex_factor), offs.opex)
        .times(revenue::factor_of(stream.part_year, n), 0)
        .times(revenue::factor_of(stream.revenue_factors, n), 0)
        .times(revenue::factor_of(stream.tariff_factors, n), offs.tariff)
        .times(f.div_ceil(10_000), n as u64)
}

// A stream's revenue of the years 0 to life.
#[tactic(auto, unfolding(discount::specs::Discount::discount))]
fn near_stream(stream: Stream, offs: Offs, b: u16, life: usize) -> Near
    requires { StreamWithin stream × (life ≤ longest_life) }
{
    // Nothing, and off by nothing. Zeros spelled out: a type with ghost fields derives no Default.
    let mut sum = Near { figure: 0, off: 0 };
    let mut f: u64 = 100_000_000;
    for n in 0..=life {
        sum = sum.plus(near_year(stream, offs, n, f));
        f = discount::next_discount(b, n, f);
    }
    sum
}

// By how many hundred-millionths O lies below its exact value.
fn opex_off(opex: u64, revenue: u64, factor: u16) -> u64
    requires { (opex ≤ revenue) × (0 < revenue) × (revenue < sums_below) }
    ensures { result ≤ 10000 }
{
    let exact = (100_000_000 * (revenue - opex)).div_ceil(revenue);
    exact
        .saturating_sub(10_000 * u64::from(factor))
        .min(FURTHEST)
}

// Both streams' revenue.
fn near_revenue(book: Book, request: Request, units: Units) -> Near
    requires { BookWithin book × RequestWithin request }
{
    let life = revenue::life_of(request.class);
    let Streams {
        distribution,
        transmission,
    } = charge::streams_of(
        book,
        request,
        request.distribution_revenue,
        request.transmission_revenue,
    );
    let revenue = units.revenue.min(FURTHEST);
    let distribution_offs = Offs {
        revenue,
        opex: opex_off(book.opex, book.revenue, distribution.opex_factor),
        tariff: units.distribution_tariff.min(FURTHEST),
    };
    let transmission_offs = Offs {
        revenue,
        opex: 0,
        tariff: units.transmission_tariff.min(FURTHEST),
    };
    near_stream(distribution, distribution_offs, book.rate, life).plus(near_stream(
        transmission,
        transmission_offs,
        book.rate,
        life,
    ))
}

// A tier's cost is rounded down by less than a cent, and not at all where its demand is whole kVA.
fn tiers_rounded(demands: [u32; TIERS]) -> u64
    ensures { result ≤ tier_count }
{
    demands.iter().filter(|demand| **demand % 100 != 0).count() as u64
}

// The bounds from IR on. The credit takes the share of IR, and NC keeps the rest: no example's
// credit reaches M.
fn bounds_with(
    near: Near,
    share: u64,
    capacity_charged: bool,
    units: Units,
    mc: u64,
    cc2: u64,
) -> Bounds
    requires { (share ≤ highest_share) × (mc ≤ tier_count) × (cc2 ≤ tier_count) }
{
    let capacity = mc + cc2;
    let (charged, not_charged) = if capacity_charged {
        (capacity, 0)
    } else {
        (0, capacity)
    };
    let charged = charged + units.charged.min(FURTHEST);
    let not_charged = not_charged + units.not_charged.min(FURTHEST);
    let share_off = units.share.min(FURTHEST);
    let used = cents(near.times(share, share_off).off);
    let kept = cents(near.times(10_000 - share, share_off).off);
    let ic = charged + not_charged;
    let ir = cents(near.off);
    Bounds {
        mc,
        cc2,
        cc: used + charged,
        borne: used + not_charged,
        ic,
        ir,
        nic: ic + ir,
        nc: kept + not_charged + units.printed_charge.min(FURTHEST),
    }
}

fn bounds_of(book: Book, request: Request, units: Units) -> Bounds
    requires { BookWithin book × RequestWithin request }
{
    bounds_with(
        near_revenue(book, request, units),
        u64::from(book.share),
        book.charged == 1,
        units,
        tiers_rounded(request.demands),
        tiers_rounded(request.added_demands),
    )
}

fn read_bounds(book: &[u8], request: &[u8], units: Units) -> Result<Bounds, Refusal> {
    let book = rate_book::book::read_book(1, book)?;
    let request = request::values::read_request(2, request)?;
    Ok(bounds_of(book, request, units))
}

// The bounds for the files of a rate book and a request: 0 where one is refused, since nothing is
// priced then.
pub fn file_bounds(book: &[u8], request: &[u8], units: Units) -> Bounds {
    read_bounds(book, request, units).unwrap_or_default()
}
