// The result of a call in one number: 0 where it is done, otherwise its refusal.

ghost use Rattle.std.specs.Prelude.{◌≡◌, ◌≤◌};
ghost use Rattle.tagged.specs.File.{answer_of};
ghost use Rattle.quoting_unit.specs.Interface.{answer_result, highest_place, place_in_result, result_of};

use tagged::file::Refusal;
use tagged::refusals::OUTPUT_TOO_SHORT;

// What one counts in a result: of the file, of the flag for the stored ledger, of the place. The number stands below a file's, so that it may be up to 31.
const FILE_WEIGHT: u64 = 32;

const LEDGER_WEIGHT: u64 = 128;

const PLACE_WEIGHT: u64 = 256;

// The highest place that a result can tell: 2^56 − 1.
const HIGHEST_PLACE: u64 = 72057594037927935;

/// The result where the answer or the figures are too short.
pub const TOO_SHORT: u64 = OUTPUT_TOO_SHORT as u64;

fn place_in_result(place: usize) -> u64
    ensures value { result ≡ place_in_result place }
    ensures upper_bound { result ≤ highest_place }
{
    (place as u64).min(HIGHEST_PLACE)
}

/// A refusal in one number: its number in the lowest five bits, its file in the next two, whether it is of the stored ledger itself (0 or 1) in
/// the next one, and its place from bit 8 on; a place above 2^56 − 1 is told as that. Never 0 where the number is 1 to 31.
// The remainders take nothing from any refusal; by them every sum fits.
pub fn result_of(refusal: Refusal, of_ledger: u8) -> u64
    ensures { result ≡ result_of refusal of_ledger }
{
    let number = u64::from(refusal.number);
    let file = u64::from(refusal.file);
    let ledger = u64::from(of_ledger);
    let low = number % FILE_WEIGHT + FILE_WEIGHT * (file % 4) + LEDGER_WEIGHT * (ledger % 2);
    let place = place_in_result(refusal.place);
    low + PLACE_WEIGHT * place
}

/// The result of a call that tells nothing beside it, and needs no stored ledger: 0 where it is done, otherwise its refusal.
pub fn result_of_answer<Values: Drop>(answer: Result<Values, Refusal>) -> u64
    ensures { result ≡ answer_result (answer_of answer) }
{
    match answer {
        Ok(_) => 0,
        Err(refused) => result_of(refused, 0),
    }
}
