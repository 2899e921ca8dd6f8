// How a call ends: its result, and what a done call tells in the answer's places.

ghost use Rattle.std.specs.Prelude.{◌≡◌, ◌≤◌, length, Ok};
ghost use Rattle.stored_calls.specs.StoredCalls.{refused_by, of_stored_accept, of_stored_answer};
ghost use Rattle.quoting_unit.specs.Interface.{answer_after, answer_places, is_done, is_refused, outcome_of};
ghost use Rattle.quoting_unit.specs.Unit.{acceptance_places, check_ending, move_ending, of_stored_file, unit_call_ending, unit_slip_ending, written_places};

use crate::results::result_of;
use calls::answers::{Acceptance, JoiningAnswer};
use slip_text::SlipWritten;
use stored::writing::Written;
use stored_calls::{StoredAcceptance, StoredCounts, StoredRefusal};
use tagged::file::Refusal;
use tagged::refusals::{
    CHECK_DIFFERS, FILE_DOES_NOT_WALK, LEDGER_UNSOUND, NO_ENTRY_LEFT, VALUE_NOT_LISTED,
};

/// How many places an answer has: numbers by place, since they cross to C.
pub const ANSWER: usize = 5;

/// How a call ends.
#[derive(Clone, Copy, Debug, PartialEq, Eq)]
pub struct Outcome {
    /// 0 where the call is done, otherwise its refusal
    pub result: u64,
    /// what a done call tells in the answer's places
    pub told: [u64; ANSWER],
}

fn done(told: [u64; ANSWER]) -> Outcome
    ensures { result ≡ outcome_of (is_done told) }
{
    Outcome { result: 0, told }
}

fn refused(refusal: Refusal, of_ledger: u8) -> Outcome
    ensures { result ≡ outcome_of (is_refused refusal of_ledger) }
{
    let told = [0; ANSWER];
    let result = result_of(refusal, of_ledger);
    Outcome { result, told }
}

/// The result, and at the answer's start what is told, where the call is done.
pub fn write_answer(outcome: Outcome, answer: &mut [u64]) -> u64
    requires { answer_places ≤ length answer.old }
    ensures value { result ≡ outcome.result }
    ensures answer_after { answer.new ≡ answer_after outcome answer.old }
{
    let Outcome { result, told } = outcome;
    if result != 0 {
        return result;
    }
    answer[..ANSWER].copy_from_slice(&told);
    result
}

// The bytes written, in the answer's last place.
fn written_places(length: usize) -> [u64; ANSWER]
    ensures { result ≡ written_places length }
{
    [0, 0, 0, 0, length as u64]
}

/// Of the slip: the text's length, or 14.
// A refusal is the files' here, the stored ledger's where that is judged, and either one's in a call.
pub fn slip_outcome(written: SlipWritten) -> Outcome
    ensures { result ≡ outcome_of (unit_slip_ending written) }
{
    match written {
        Ok(length) => done(written_places(length)),
        Err(refusal) => refused(refusal, 0),
    }
}

/// A refusal of the stored ledger itself is told apart from one of the call.
pub fn stored_refused(refusal: StoredRefusal) -> Outcome
    ensures { result ≡ outcome_of (unit_call_ending (refused_by refusal)) }
{
    match refusal {
        StoredRefusal::NotRead(refusal) => refused(refusal, 1),
        StoredRefusal::NotMade(refusal) => refused(refusal, 0),
    }
}

/// Of pay-out, hand-over, clearing and the new ledger: the new form's length in bytes.
pub fn call_outcome(answer: Result<usize, StoredRefusal>) -> Outcome
    ensures { result ≡ outcome_of (unit_call_ending (of_stored_answer answer)) }
{
    match answer {
        Ok(length) => done(written_places(length)),
        Err(refusal) => stored_refused(refusal),
    }
}

// Whether a move's refusal is of the stored file: 14 and 16 are the move's own.
fn of_stored_file(number: u8) -> u8
    ensures { result ≡ of_stored_file number }
{
    let of_file = number == FILE_DOES_NOT_WALK
        || number == CHECK_DIFFERS
        || number == VALUE_NOT_LISTED
        || number == NO_ENTRY_LEFT
        || number == LEDGER_UNSOUND;
    u8::from(of_file)
}

/// Of a move between the stored forms: the form's length in bytes.
pub fn move_outcome(written: Written) -> Outcome
    ensures { result ≡ outcome_of (move_ending written) }
{
    match written {
        Ok(length) => done(written_places(length)),
        Err(refusal) => refused(refusal, of_stored_file(refusal.number)),
    }
}

// What accept tells: the joining's kind, 0 where none is asked for, 1 joined, 2 small, 3 ended; the joiner's entry and G; the scheme
// that opened, 0 where none did; the new form's length.
fn acceptance_places(joining: JoiningAnswer, opening: Option<u16>, length: usize) -> [u64; ANSWER]
    ensures { result ≡ acceptance_places joining opening length }
{
    let scheme = opening.map_or(0, u64::from);
    let size = length as u64;
    match joining {
        JoiningAnswer::NotAsked => [0, 0, 0, scheme, size],
        JoiningAnswer::Joined(collected) => {
            let entry = u64::from(collected.entry);
            [1, entry, u64::from(collected.contribution), scheme, size]
        }
        JoiningAnswer::Small => [2, 0, 0, scheme, size],
        JoiningAnswer::Ended => [3, 0, 0, scheme, size],
    }
}

/// Of an accepted request: what became of joining and opening, and the new form's length in bytes.
pub fn acceptance_outcome(accepted: StoredAcceptance) -> Outcome
    ensures { result ≡ outcome_of (unit_call_ending (of_stored_accept (Ok accepted))) }
{
    let Acceptance {
        joining,
        opening,
        ..
    } = accepted.acceptance;
    done(acceptance_places(joining, opening, accepted.length))
}

/// Of the judging of a ledger: schemes, entries, connections, the last accepted month.
pub fn check_outcome(check: Result<StoredCounts, Refusal>) -> Outcome
    ensures { result ≡ outcome_of (check_ending check) }
{
    match check {
        Ok(counts) => done([
            u64::from(counts.schemes),
            u64::from(counts.entries),
            u64::from(counts.connections),
            u64::from(counts.month),
            0,
        ]),
        Err(refusal) => refused(refusal, 1),
    }
}
