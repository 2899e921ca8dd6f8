// The pricing call: a rate book and a request in, the reconciliation or a refusal out.
#![tactic(auto)]

ghost use Rattle.std.specs.Prelude.{◌≡◌, ◌<◌, ◌≤◌, ◌==◌, length, position};
ghost use Rattle.tagged.specs.AnswerPromised.{AnswerPromised};
ghost use Rattle.capacity.specs.TierLimits.{TiersWithin};
ghost use Rattle.rate_book.specs.BookLimits.{BookWithin};
ghost use Rattle.book_zones.specs.ZoneLimits.{RatesWithin};
ghost use Rattle.request.specs.RequestLimits.{RequestWithin};
ghost use Rattle.field_values.specs.Limits.{most_zones, highest_revenue};
ghost use Rattle.revenue.specs.RevenueLimits.{highest_incremental_revenue};
ghost use Rattle.revenue.specs.StreamLimits.{StreamWithin};
ghost use Rattle.charge.specs.Price.{zone_found, distribution_of, transmission_of, incremental_revenue_of, bill_of, values_priced, request_priced, price_of};
ghost use Rattle.charge.specs.PriceEnding.{pricing_ending};
ghost use Rattle.charge.specs.ZonePlaces.{ZoneBelow};

use book_zones::zones::BookFields;
use capacity::Tiers;
use field_values::limits::Rates;
use rate_book::book::Book;
use rate_book::fields::Terms;
use reconciliation::{Costs, Reconciliation};
use request::values::Request;
use revenue::{Stream, TRANSMISSION_OPEX_FACTOR};
use tagged::file::Refusal;
use tagged::refusals::{BESPOKE_NOT_ALLOWED, ZONE_NOT_IN_BOOK};

// Who asks for the connection, when, for how much capacity, and in which scheme.
// Scheme (0 for none) and mark are the request's numbers: a request is priced with any of them.
#[derive(Clone, Copy)]
pub struct Applicant {
    pub person: u32,
    pub month: u16,
    pub capacity: u32,
    pub scheme: u16,
    pub mark: u8,
}

#[derive(Clone, Copy)]
pub struct Bill {
    pub reconciliation: Reconciliation,
    // of the book, for a scheme that opens
    pub terms: Terms,
    pub applicant: Applicant,
}

// The two streams of a connection's revenue.
#[derive(Clone, Copy)]
pub struct Streams {
    pub distribution: Stream,
    pub transmission: Stream,
}

// The bill, or why there is none.
pub type Pricing = Result<Bill, Refusal>;

fn place_of(numbers: &[u16], number: u16) -> Option<usize>
    ensures value { result ≡ position (λ listed. listed == number) numbers.now }
    ensures within { ZoneBelow (length numbers.now) result }
{
    numbers.iter().position(|listed| *listed == number)
}

// The row of a zone among the book's zones.
#[tactic(auto, using(crate::proofs::ZonePlaces::zone_position))]
fn zone_found(book: &Book, number: u16) -> Option<usize>
    requires { book.now.zones ≤ most_zones }
    ensures value { result ≡ zone_found 0 book.now.zones book.now.zone_numbers number }
    ensures zone_below { ZoneBelow book.now.zones result }
{
    place_of(&book.zone_numbers[..book.zones], number)
}

// The streams of distribution and transmission, with their year-one revenues as handed over.
// The two revenues stand beside the request, which has its own: the price band prices one request with other figures than the file's.
pub fn streams_of(book: Book, request: Request, distribution: u32, transmission: u32) -> Streams
    requires { BookWithin book × RequestWithin request × (distribution ≤ highest_revenue) × (transmission ≤ highest_revenue) }
    ensures distribution { result.distribution ≡ distribution_of book request distribution }
    ensures transmission { result.transmission ≡ transmission_of book request transmission }
    ensures within { StreamWithin result.distribution × StreamWithin result.transmission }
{
    let distributed = Stream {
        revenue: distribution,
        opex_factor: revenue::distribution_opex_factor(request.class, book.opex, book.revenue),
        part_year: request.part_year,
        revenue_factors: book.distribution,
        tariff_factors: request.distribution_tariff,
    };
    let transmitted = Stream {
        revenue: transmission,
        opex_factor: TRANSMISSION_OPEX_FACTOR,
        part_year: request.part_year,
        revenue_factors: book.transmission,
        tariff_factors: request.transmission_tariff,
    };
    Streams {
        distribution: distributed,
        transmission: transmitted,
    }
}

// IR over the years 0 to life.
pub fn incremental_revenue_of(
    book: Book,
    request: Request,
    distribution: u32,
    transmission: u32,
) -> u64
    requires { BookWithin book × RequestWithin request × (distribution ≤ highest_revenue) × (transmission ≤ highest_revenue) }
    ensures { (result ≡ incremental_revenue_of book request distribution transmission) × (result ≤ highest_incremental_revenue) }
{
    let streams = streams_of(book, request, distribution, transmission);
    let life = revenue::life_of(request.class);
    revenue::incremental_revenue(streams.distribution, streams.transmission, book.rate, life)
}

// The bill of a request whose tiers' rates are known.
// Figure by figure: book and request are flat, and a bill takes a part of each.
#[tactic(auto, using(reconciliation::proofs::Theorems::Reconciliation::a_of))]
fn bill_of(book: Book, tiers: Tiers, request: Request, ir: u64) -> Bill
    requires { BookWithin book × TiersWithin tiers × RequestWithin request × (ir ≤ highest_incremental_revenue) }
    ensures { result ≡ bill_of book tiers request ir }
{
    let costs = Costs {
        me: u64::from(request.me),
        mc: tiers.capacity_cost(&request.demands),
        ce: u64::from(request.ce),
        cc2: tiers.capacity_cost(&request.added_demands),
        de: u64::from(request.de),
        tw: u64::from(request.tw),
        hr: u64::from(request.hr),
        ol: u64::from(request.ol),
    };
    Bill {
        reconciliation: reconciliation::reconcile(costs, ir, book.charged == 1, book.share),
        terms: Terms {
            threshold: book.threshold,
            fee: book.fee,
            minimum: book.minimum,
            term: book.term,
        },
        applicant: Applicant {
            person: request.person,
            month: request.month,
            capacity: request.capacity,
            scheme: request.scheme,
            mark: request.mark,
        },
    }
}

// The pricing of values that were read: 4, 5, or the bill.
// Row by row: modes and bespoke rates are the request's, posted rates the book's.
#[tactic(auto, unfolding(crate::specs::Price::values_priced))]
pub fn price_values(
    book: Book,
    rates: Rates,
    request: Request,
    distribution: u32,
    transmission: u32,
) -> Pricing
    requires { BookWithin book × RatesWithin rates book.zones × RequestWithin request × (distribution ≤ highest_revenue) × (transmission ≤ highest_revenue) }
    ensures { result ≡ values_priced book rates request distribution transmission }
{
    let zone = zone_found(&book, request.zone).ok_or(Refusal::of_file(ZONE_NOT_IN_BOOK, 2, 0))?;
    // By a local each: an array that a literal takes straight from a field can't be proved yet.
    let modes = request.modes;
    let posted = rates[zone];
    let bespoke = request.bespoke_rates;
    let tiers = Tiers {
        modes,
        posted,
        bespoke,
    };
    if let Some(tier) = tiers.first_not_allowed() {
        return Err(Refusal::of_file(BESPOKE_NOT_ALLOWED, 2, tier));
    }
    let ir = incremental_revenue_of(book, request, distribution, transmission);
    Ok(bill_of(book, tiers, request, ir))
}

// The pricing of a request file by the values of a book.
#[tactic(auto, unfolding(crate::specs::Price::request_priced))]
fn price_request(book: Book, rates: Rates, request: &[u8]) -> Pricing
    requires { BookWithin book × RatesWithin rates book.zones }
    ensures { result ≡ request_priced book rates request.now }
{
    let values = request::values::read_request(2, request)?;
    price_values(
        book,
        rates,
        values,
        values.distribution_revenue,
        values.transmission_revenue,
    )
}

// The reconciliation of a request by a rate book, or the refusal: book, request, 4, 5.
// Book and request stay two parameters from here down, as C hands over two files, each with its own name.
#[tactic(auto, using(rate_book::proofs::Theorems::Book::book_walks, crate::proofs::Theorems::PriceEnding::price_promise), unfolding(crate::specs::Price::price_of, rate_book::specs::Book::book_of))]
pub fn price(book: &[u8], request: &[u8]) -> Pricing
    ensures { AnswerPromised pricing_ending (price_of book.now request.now) result }
{
    book_zones::rows::book_stands(1, book)?;
    let book = BookFields::new(tagged::file::fields_part(book));
    let rates = book.zone_rates();
    let values = rate_book::book::read_walked_book(1, book, rates)?;
    price_request(values, rates, request)
}
