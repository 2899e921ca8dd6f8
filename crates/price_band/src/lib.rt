// The charge of a request whose usage is known only between two figures: what IR, CC and NC come to at
// least and at most.
#![tactic(auto)]

ghost use Rattle.std.specs.Prelude.{◌≡◌, true, ◌≤◌};
ghost use Rattle.tagged.specs.AnswerPromised.{AnswerPromised};
ghost use Rattle.field_values.specs.Limits.{highest_revenue};
ghost use Rattle.rate_book.specs.BookLimits.{BookWithin};
ghost use Rattle.request.specs.RequestLimits.{RequestWithin};
ghost use Rattle.reconciliation.specs.CostLimits.{CostsWithin};
ghost use Rattle.charge.specs.Price.{price_of};
ghost use Rattle.price_band.specs.PriceBand.{within_limits, low_to_high, band_between, band_at_ends, band_of};
ghost use Rattle.price_band.specs.BandEnding.{band_ending};
ghost use Rattle.price_band.specs.EndCosts.{end_costs, end_reconciliation};

use book_zones::zones::BookFields;
use charge::Bill;
use field_values::limits::HIGHEST_REVENUE;
use rate_book::book::Book;
use reconciliation::{Costs, Reconciliation};
use request::values::Request;
use tagged::file::{Refusal, fields_part};
use tagged::refusals::{LOW_ABOVE_HIGH, VALUE_NOT_LISTED};

// Year-one revenue of distribution and of transmission, each known only between two figures.
// Lowest and highest by two fields, as in the band: C hands over the one and reads the other so.
#[derive(Clone, Copy)]
pub struct Bands {
    pub distribution_low: u64,
    pub distribution_high: u64,
    pub transmission_low: u64,
    pub transmission_high: u64,
}

#[derive(Clone, Copy)]
pub struct Band {
    pub lowest_ir: u64,
    pub highest_ir: u64,
    pub lowest_cc: u64,
    pub highest_cc: u64,
    pub lowest_nc: i64,
    pub highest_nc: i64,
}

// The band, or why there is none.
pub type BandPricing = Result<Band, Refusal>;

// Field 08's limit, as wide as the figures.
const HIGHEST_FIGURE: u64 = HIGHEST_REVENUE as u64;

impl Bands {
    fn within_limits(&self) -> bool
        ensures { result ≡ within_limits self.now }
    {
        self.distribution_low <= HIGHEST_FIGURE
            && self.distribution_high <= HIGHEST_FIGURE
            && self.transmission_low <= HIGHEST_FIGURE
            && self.transmission_high <= HIGHEST_FIGURE
    }

    fn low_to_high(&self) -> bool
        ensures { result ≡ low_to_high self.now }
    {
        self.distribution_low <= self.distribution_high
            && self.transmission_low <= self.transmission_high
    }
}

// The costs of a bill; the distributor's enhancement is in none of the band's figures.
// By name and no From, since it leaves a cost out.
fn end_costs(r: Reconciliation) -> Costs
    ensures { result ≡ end_costs r }
{
    Costs {
        me: r.me,
        mc: r.mc,
        ce: r.ce,
        cc2: r.cc2,
        de: 0,
        tw: r.tw,
        hr: r.hr,
        ol: r.ol,
    }
}

// The reconciliation at one end of the bands, by its year-one revenues.
#[tactic(auto, using(reconciliation::proofs::Theorems::Reconciliation::a_of))]
fn at_end(
    book: Book,
    request: Request,
    costs: Costs,
    distribution: u64,
    transmission: u64,
) -> Reconciliation
    requires { BookWithin book × RequestWithin request × CostsWithin costs × (distribution ≤ highest_revenue) × (transmission ≤ highest_revenue) }
    ensures { result ≡ end_reconciliation book request costs distribution transmission }
{
    let ir = charge::incremental_revenue_of(
        book,
        request,
        distribution as u32,
        transmission as u32,
    );
    reconciliation::reconcile(costs, ir, book.charged == 1, book.share)
}

// IR and NC never fall with a revenue, and CC never rises.
fn band_between(low: Reconciliation, high: Reconciliation) -> Band
    ensures { result ≡ band_between low high }
{
    Band {
        lowest_ir: low.ir,
        highest_ir: high.ir,
        lowest_cc: high.cc,
        highest_cc: low.cc,
        lowest_nc: low.nc,
        highest_nc: high.nc,
    }
}

// The band of a request that is priced: its files stand, so that their values are read without a further test.
fn band_of_bill(book: &[u8], request: &[u8], bill: Bill, bands: Bands) -> Band
    requires { (price_of book.now request.now ≡ Ok bill) × (within_limits bands ≡ true) }
    ensures { Ok result ≡ band_at_ends book.now request.now bands }
{
    let values = rate_book::book::book_values(BookFields::new(fields_part(book)));
    let asked = request::values::request_values(fields_part(request));
    let costs = end_costs(bill.reconciliation);
    let low = at_end(
        values,
        asked,
        costs,
        bands.distribution_low,
        bands.transmission_low,
    );
    let high = at_end(
        values,
        asked,
        costs,
        bands.distribution_high,
        bands.transmission_high,
    );
    band_between(low, high)
}

// Lowest and highest IR, CC and NC of a request by a rate book, with these bands in place of field 08,
// or the refusal: book, request, 4, 5, then 3 and 15 for the bands.
#[tactic(auto, using(charge::proofs::Theorems::PriceEnding::promised_price, crate::proofs::Theorems::BandEnding::band_promise), unfolding(crate::specs::PriceBand::band_of))]
pub fn price_band(book: &[u8], request: &[u8], bands: Bands) -> BandPricing
    ensures { AnswerPromised band_ending (band_of book.now request.now bands) result }
{
    let bill = charge::price(book, request)?;
    if !bands.within_limits() {
        return Err(Refusal::of_call(VALUE_NOT_LISTED));
    }
    if !bands.low_to_high() {
        return Err(Refusal::of_call(LOW_ABOVE_HIGH));
    }
    Ok(band_of_bill(book, request, bill, bands))
}
