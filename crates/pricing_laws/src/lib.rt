// What holds of every pricing, band, slip and page. Each function is there for its contract alone, a law on
// the definitions of the crates below.
#![tactic(auto)]

ghost use Rattle.pricing_laws.specs.Cases.Slip.{SlipOfDocument01};
ghost use Rattle.pricing_laws.specs.Laws.{AlteredBookNotPriced, AlteredBookSlip, AlteredRequestNotPriced, AlteredRequestSlip, AmountReadBack, BandByEnding, BandByNumber, BandHolds, BandReached, BandRefusals, BookByNumber, BookInTwoBytes, CCNeverRises, DecimalOneWay, DiscountBounds, EitherFormAccepted, EitherFormPricesAlike, EveryBandFits, LabelsListed, LineEnds, LongestSlip, NCNeverFalls, NoOtherEnd, OlderBookSame, OlderPriced, OlderRequestSame, OlderZone, OlderZones, OneAmount, OneValue, PageByEnding, PageByNumber, PageOneWay, PageSize, PricedPercentagesExact, PricedReconciles, PricedWithin, PricingByEnding, PricingByNumber, PricingRefusals, PromisedBand, PromisedPage, PromisedPrice, PromisedSlip, Reconciles, RecurrenceAtEachEntry, RefusedPageChangesNothing, RefusedSlipChangesNothing, RequestByNumber, RequestInTwoBytes, SignedOneWay, SlipByEnding, SlipByNumber, SlipFits, SlipSaysExact};

/// Discount factors, by document 01's recurrence.
pub fn discount_factors()
    ensures bounds { DiscountBounds }
    ensures table { RecurrenceAtEachEntry }
{}

/// The charge and its reconciliation, of any figures and of every bill.
#[tactic(auto, using(reconciliation::proofs::Theorems::Reconciliation::reconciles, charge::proofs::Theorems::Bill::priced_percentages_exact))]
pub fn charge_reconciles()
    ensures figures { Reconciles }
    ensures priced { PricedReconciles }
    ensures percentages { PricedPercentagesExact }
    ensures limits { PricedWithin }
{}

/// How pricing ends.
#[tactic(auto, using(charge::proofs::Theorems::PriceRefusals::pricing_refusal, charge::proofs::Theorems::PriceEnding::book_by_number, charge::proofs::Theorems::PriceEnding::request_by_number, charge::proofs::Theorems::PriceEnding::pricing_by_number))]
pub fn pricing_ends()
    ensures refusals { PricingRefusals }
    ensures book { BookByNumber }
    ensures request { RequestByNumber }
    ensures number { PricingByNumber }
    ensures ending { PricingByEnding }
    ensures promised { PromisedPrice }
{}

/// With one byte of a file altered, what was priced is refused, and the slip says so.
#[tactic(auto, using(charge::proofs::Theorems::Bill::altered_book_not_priced, charge::proofs::Theorems::Bill::altered_request_not_priced, slip_text::proofs::Theorems::AlteredFiles::altered_book_slip, slip_text::proofs::Theorems::AlteredFiles::altered_request_slip))]
pub fn altered_files_refused()
    ensures book { AlteredBookNotPriced }
    ensures request { AlteredRequestNotPriced }
    ensures book_slip { AlteredBookSlip }
    ensures request_slip { AlteredRequestSlip }
{}

/// Older books and requests price as before.
#[tactic(auto, using(crate::proofs::Theorems::OlderPricing::older_zones, crate::proofs::Theorems::OlderPricing::older_zone))]
pub fn older_files_alike()
    ensures priced { OlderPriced }
    ensures book { OlderBookSame }
    ensures request { OlderRequestSame }
    ensures zones { OlderZones }
    ensures zone { OlderZone }
{}

/// Zone numbers of one byte and of two price alike.
#[tactic(auto, using(crate::proofs::Theorems::ZoneForms::either_form_prices_alike))]
pub fn either_form_alike()
    ensures accepted { EitherFormAccepted }
    ensures priced { EitherFormPricesAlike }
    ensures book { BookInTwoBytes }
    ensures request { RequestInTwoBytes }
{}

/// Every price between two figures lies in the band, and each end is one.
#[tactic(auto, using(price_band::proofs::Theorems::Band::band_holds, price_band::proofs::Theorems::Band::band_fits, reconciliation::proofs::Theorems::RisingRevenue::cc_never_rises, reconciliation::proofs::Theorems::RisingRevenue::nc_never_falls))]
pub fn band_is_exact()
    ensures holds { BandHolds }
    ensures reached { BandReached }
    ensures fits { EveryBandFits }
    ensures cc { CCNeverRises }
    ensures nc { NCNeverFalls }
{}

/// How pricing between two figures ends.
#[tactic(auto, using(price_band::proofs::Theorems::BandEnding::band_refusal, price_band::proofs::Theorems::BandEnding::band_by_number))]
pub fn band_ends()
    ensures refusals { BandRefusals }
    ensures number { BandByNumber }
    ensures ending { BandByEnding }
    ensures promised { PromisedBand }
{}

/// What is read off a slip.
#[tactic(auto, using(slip_text::proofs::Theorems::Slip::slip_of_document_01))]
pub fn slip_reads()
    ensures sample { SlipOfDocument01 }
    ensures exact { SlipSaysExact }
    ensures unsigned { DecimalOneWay }
    ensures signed { SignedOneWay }
{}

/// How long a slip is, and how its writing ends.
#[tactic(auto, using(slip_text::proofs::Theorems::SlipSize::longest_slip_lem, slip_text::proofs::Theorems::Slip::slip_fits))]
pub fn slip_ends()
    ensures longest { LongestSlip }
    ensures fits { SlipFits }
    ensures refused { RefusedSlipChangesNothing }
    ensures number { SlipByNumber }
    ensures ending { SlipByEnding }
    ensures promised { PromisedSlip }
{}

/// What is read off a page.
#[tactic(auto, using(page_text::proofs::Theorems::PageShape::page_one_way, page_text::proofs::Theorems::PageShape::page_size_lem, page_text::proofs::Theorems::PageShape::labels_listed, page_text::proofs::Theorems::PageShape::line_ends, page_text::proofs::Theorems::PageShape::no_other_end))]
pub fn page_reads()
    ensures amounts { PageOneWay }
    ensures any_amounts { AmountReadBack }
    ensures one_value { OneValue }
    ensures one_amount { OneAmount }
    ensures size { PageSize }
    ensures labels { LabelsListed }
    ensures ends { LineEnds }
    ensures no_other { NoOtherEnd }
{}

/// How the writing of a page ends.
#[tactic(auto, using(page_text::proofs::Theorems::PageShape::refused_page_changes_nothing, page_text::proofs::Theorems::PageEnding::page_by_number, page_text::proofs::Theorems::PageEnding::page_by_ending))]
pub fn page_ends()
    ensures refused { RefusedPageChangesNothing }
    ensures number { PageByNumber }
    ensures ending { PageByEnding }
    ensures promised { PromisedPage }
{}
