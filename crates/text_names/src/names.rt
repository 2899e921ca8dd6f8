// What the values are called in a text.
ghost use Rattle.std.specs.Prelude.{◌≡◌, ◌+◌, ◌≤◌, ◌<◌, get_or, length, []};
ghost use Rattle.numbers.specs.Written.{written};
ghost use Rattle.text_names.specs.Names.{kind_name, book_names, request_names, row_name, tier_names, ordinals, name_front, name_back, value_name};

use crate::table::{Kind, Over};
use text_output::{put, put_decimal};

/// What a kind of file is called.
pub fn kind_name(kind: Kind) -> &'static [u8]
    ensures { result.now ≡ kind_name kind }
{
    match kind {
        Kind::Book => b"rate book",
        Kind::Request => b"request",
    }
}

/// What the values of a row are called, whatever they are repeated over; no bytes past the last.
pub fn row_name(kind: Kind, number: usize) -> &'static [u8]
    ensures { result.now ≡ row_name kind number }
{
    match kind {
        Kind::Book => book_name(number),
        Kind::Request => request_name(number),
    }
}

#[tactic(auto, unfolding(crate::specs::Names::book_names))]
fn book_name(number: usize) -> &'static [u8]
    ensures { result.now ≡ get_or book_names number [] }
{
    match number {
        0 => b"discount rate",
        1 => b"selected opex",
        2 => b"distribution revenue",
        3 => b"distribution revenue factor",
        4 => b"transmission revenue factor",
        5 => b"threshold",
        6 => b"fee",
        7 => b"minimum",
        8 => b"term months",
        9 => b"capacity charged",
        10 => b"credit share",
        11 => b"number",
        12 => b"LV mains rate",
        13 => b"distribution substation rate",
        14 => b"HV feeder rate",
        15 => b"zone substation rate",
        16 => b"sub-transmission rate",
        _ => b"",
    }
}

#[tactic(auto, unfolding(crate::specs::Names::request_names))]
fn request_name(number: usize) -> &'static [u8]
    ensures { result.now ≡ get_or request_names number [] }
{
    match number {
        0 => b"person number",
        1 => b"class",
        2 => b"zone number",
        3 => b"minimum scheme extension ME",
        4 => b"customer enhancement extension CE",
        5 => b"distributor enhancement DE",
        6 => b"transmission works TW",
        7 => b"historical cost recovery HR",
        8 => b"operating loading OL",
        9 => b"mode",
        10 => b"demand",
        11 => b"bespoke rate",
        12 => b"added demand",
        13 => b"year-one distribution revenue",
        14 => b"year-one transmission revenue",
        15 => b"part-year factor",
        16 => b"distribution tariff factor",
        17 => b"transmission tariff factor",
        18 => b"month",
        19 => b"capacity",
        20 => b"scheme joined",
        21 => b"mark",
        _ => b"",
    }
}

#[tactic(auto, unfolding(crate::specs::Names::tier_names))]
fn tier_name(number: usize) -> &'static [u8]
    ensures { result.now ≡ get_or tier_names number [] }
{
    match number {
        0 => b"LV mains",
        1 => b"distribution substation",
        2 => b"HV feeder",
        3 => b"zone substation",
        4 => b"sub-transmission",
        _ => b"",
    }
}

#[tactic(auto, unfolding(crate::specs::Names::ordinals))]
fn ordinal(number: usize) -> &'static [u8]
    ensures { result.now ≡ get_or ordinals number [] }
{
    match number {
        0 => b"first",
        1 => b"second",
        2 => b"third",
        3 => b"fourth",
        4 => b"fifth",
        5 => b"sixth",
        6 => b"seventh",
        7 => b"eighth",
        _ => b"",
    }
}

// Before the name: the tier, or the zone.
#[tactic(auto, using(text_output::proofs::Theorems::Written::pieces, text_output::proofs::Theorems::Written::written_nothing))]
fn put_front(out: &mut [u8], at: usize, over: Over, round: usize) -> usize
    requires { at + length (name_front over round) ≤ length out.old }
    ensures place { result ≡ at + length (name_front over round) }
    ensures out_after { out.new ≡ written out.old at (name_front over round) }
{
    match over {
        Over::Tiers => {
            let next = put(out, at, tier_name(round));
            put(out, next, b" ")
        }
        Over::Zones => {
            let next = put(out, at, ordinal(round));
            put(out, next, b" zone ")
        }
        Over::Nothing | Over::Pairs | Over::Years => at,
    }
}

// Behind it: the pair from 1 on, or the year from 0 on.
#[tactic(auto, using(text_output::proofs::Theorems::Written::pieces, text_output::proofs::Theorems::Written::written_nothing))]
fn put_back(out: &mut [u8], at: usize, over: Over, round: usize) -> usize
    requires { (round < 8) × (at + length (name_back over round) ≤ length out.old) }
    ensures place { result ≡ at + length (name_back over round) }
    ensures out_after { out.new ≡ written out.old at (name_back over round) }
{
    match over {
        Over::Pairs => {
            let next = put(out, at, b" ");
            put_decimal(out, next, (round + 1) as u64)
        }
        Over::Years => {
            let next = put(out, at, b" year ");
            put_decimal(out, next, round as u64)
        }
        Over::Nothing | Over::Tiers | Over::Zones => at,
    }
}

/// What the value of a row is called in a round.
#[tactic(auto, using(text_output::proofs::Theorems::Written::pieces), unfolding(crate::specs::Names::value_name))]
pub fn put_value_name(
    out: &mut [u8],
    at: usize,
    kind: Kind,
    over: Over,
    number: usize,
    round: usize,
) -> usize
    requires { (round < 8) × (at + length (value_name kind over number round) ≤ length out.old) }
    ensures place { result ≡ at + length (value_name kind over number round) }
    ensures out_after { out.new ≡ written out.old at (value_name kind over number round) }
{
    let name = put_front(out, at, over, round);
    let back = put(out, name, row_name(kind, number));
    put_back(out, back, over, round)
}
