// The values of a request, or its refusal.
ghost use Rattle.std.specs.Prelude.{◌≡◌};
ghost use Rattle.field_walk.specs.FieldsWalk.{FieldsWalk};
ghost use Rattle.request.specs.RequestRows.{request_rows};
ghost use Rattle.field_values.specs.Judged.{judge_field};
ghost use Rattle.request.specs.Fields.{amount_limits};
ghost use Rattle.request.specs.Request.{judge_charges, judge_request, request_values, request_of};

use crate::fields::{
    ADDED_LIMITS, AMOUNT_LIMITS, AMOUNT_LIMITS_WITHOUT_LOADING, CLASS_LIMITS, CONNECTION_LIMITS,
    REVENUE_LIMITS, RequestFields, TIER_LIMITS, Tiers,
};
use crate::rows::request_stands;
use field_values::factors::{Factors, judge_factors, read_factors};
use field_values::judged::{Judged, judge_field, judge_letters};
use field_values::limits::{SPECIAL_PRICING, TIERS};
use tagged::file::{Refusal, fields_part};
use tagged::refusals::VALUE_NOT_LISTED;

// Class, modes and mark are the file's bytes: an enum would take fewer than request_values does.
// A scheme is the file's number, 0 for none: an Option of a NonZeroU16 would be made a number again wherever it meets a party's or a count.
// By rows and not by tier: demands and added demands are priced alike, a row each.
// The limits are asked of a request and no part of its type: request_values reads fields past them as well.
#[derive(Clone, Copy)]
pub struct Request {
    pub person: u32,
    // 0 residential, 1 non-residential, 2 special pricing
    pub class: u8,
    pub zone: u16,
    // minimum scheme extension, customer enhancement extension, distributor enhancement,
    // transmission works, historical cost recovery, operating loading
    pub me: u32,
    pub ce: u32,
    pub de: u32,
    pub tw: u32,
    pub hr: u32,
    pub ol: u32,
    // by tier: 0 posted, 1 extension-like, 2 bespoke
    pub modes: [u8; TIERS],
    pub demands: [u32; TIERS],
    pub bespoke_rates: [u32; TIERS],
    pub added_demands: [u32; TIERS],
    // year-one revenue
    pub distribution_revenue: u32,
    pub transmission_revenue: u32,
    pub part_year: Factors,
    pub distribution_tariff: Factors,
    pub transmission_tariff: Factors,
    pub month: u16,
    pub capacity: u32,
    // 0 for none
    pub scheme: u16,
    // 0 none, 1 opted out in writing, 2 real estate
    pub mark: u8,
}

// The six amounts of a request of this class.
// By an if and no step handed in: the class is in the file, and the list of limits follows from it.
#[tactic(auto, unfolding(field_values::specs::Narrow::narrow))]
fn judge_amounts(fields: &[u8], class: u8) -> Judged
    ensures { result ≡ judge_field (amount_limits class) 5 fields.now }
{
    if class == SPECIAL_PRICING {
        judge_field(fields, 5, &AMOUNT_LIMITS)
    } else {
        judge_field(fields, 5, &AMOUNT_LIMITS_WITHOUT_LOADING)
    }
}

// The class, and the six amounts by it.
#[tactic(auto, unfolding(field_values::specs::Narrow::narrow))]
fn judge_charges(request: RequestFields) -> Judged
    ensures { result ≡ judge_charges request.entry.fields.now }
{
    judge_field(request.fields, 3, &CLASS_LIMITS)?;
    judge_amounts(request.fields, request.class())
}

// The first value, in byte order, that isn't as document 01, 'Request', lists it.
#[tactic(auto, unfolding(field_values::specs::Narrow::narrow))]
fn judge_request(request: RequestFields) -> Judged
    ensures { result ≡ judge_request request.entry.fields.now }
{
    let fields = request.fields;
    judge_letters(fields, b"CONN")?;
    judge_charges(request)?;
    judge_field(fields, 6, TIER_LIMITS.as_flattened())?;
    judge_field(fields, 7, &ADDED_LIMITS)?;
    judge_field(fields, 8, &REVENUE_LIMITS)?;
    judge_factors(fields, 9)?;
    judge_factors(fields, 10)?;
    judge_factors(fields, 11)?;
    judge_field(fields, 12, &CONNECTION_LIMITS)
}

// Figure by figure: a request is flat, so that who prices it needs none of the file's fields. Amounts, revenues and
// connection stay by name: a pattern for each would list its figures once more.
#[tactic(auto, using(crate::proofs::Theorems::RequestSizes::walked_when))]
pub fn request_values(fields: &[u8]) -> Request
    requires { FieldsWalk request_rows fields.now }
    ensures { result ≡ request_values fields.now }
{
    let request = RequestFields { fields };
    let amounts = request.amounts();
    let Tiers {
        modes,
        demands,
        bespoke_rates,
    } = request.tiers();
    let revenues = request.revenues();
    let connection = request.connection();
    Request {
        person: request.person(),
        class: request.class(),
        zone: request.zone(),
        me: amounts.me,
        ce: amounts.ce,
        de: amounts.de,
        tw: amounts.tw,
        hr: amounts.hr,
        ol: amounts.ol,
        modes,
        demands,
        bespoke_rates,
        added_demands: request.added_demands(),
        distribution_revenue: revenues.distribution,
        transmission_revenue: revenues.transmission,
        part_year: read_factors(fields, 9),
        distribution_tariff: read_factors(fields, 10),
        transmission_tariff: read_factors(fields, 11),
        month: connection.month,
        capacity: connection.capacity,
        scheme: connection.scheme,
        mark: connection.mark,
    }
}

// The values of a request, or its refusal; `number` is the file's in a refusal.
// Read as a book is, by a function of its own: a book's zone rates are read first and stand beside it.
#[tactic(auto, using(crate::proofs::Theorems::Request::request_walks, crate::proofs::Theorems::RequestSizes::walked_when), unfolding(crate::specs::Request::request_of))]
pub fn read_request(number: u8, file: &[u8]) -> Result<Request, Refusal>
    ensures { result ≡ request_of number file.now }
{
    request_stands(number, file)?;
    let fields = fields_part(file);
    let judged = judge_request(RequestFields { fields });
    judged.map_err(|at| Refusal::of_file(VALUE_NOT_LISTED, number, at))?;
    Ok(request_values(fields))
}
