// The calls on a ledger that is kept as its stored bytes, and the moves between its forms. Short answer or figures are 14 before anything else. `table_size` is the party
// table's length in records; more than 512 counts as 512.

ghost use Rattle.std.specs.Prelude.{◌≡◌};
ghost use Rattle.calls.specs.Decision.{accept, clear, hand_over, pay_out};
ghost use Rattle.quoting_unit.specs.Interface.{lent_answer, lent_both, lent_output};
ghost use Rattle.quoting_unit.specs.Unit.{check_ledger, move_back, move_to_new, new_ledger, on_ledger, unit_call};

use quoting_unit::figures::{FIGURES, write_figures};
use quoting_unit::outcomes::{
    ANSWER, acceptance_outcome, call_outcome, check_outcome, move_outcome, stored_refused,
    write_answer,
};
use quoting_unit::results::TOO_SHORT;

/// The stored form of a new ledger, into the lent output; its length in bytes in the answer's last place.
#[tactic(auto, using(stored_calls::proofs::Theorems::StoredPromises::promised_new))]
#[unsafe(no_mangle)]
pub extern "C" fn fikrem_new_ledger(out: &mut [u8], answer: &mut [u64]) -> u64
    ensures { let end = unit_call new_ledger (lent_output out.old answer.old) in
        (result ≡ end.result) × (out.new ≡ end.lent.output) × (answer.new ≡ end.lent.answer) }
{
    if answer.len() < ANSWER {
        return TOO_SHORT;
    }
    let called = stored_calls::new_stored(out);
    write_answer(call_outcome(called), answer)
}

/// Accept on a stored ledger: the new stored form into the lent output, the reconciliation into the figures, and what became of joining and
/// opening into the answer.
#[tactic(auto, using(stored_calls::proofs::Theorems::StoredPromises::promised_stored))]
#[unsafe(no_mangle)]
pub extern "C" fn fikrem_accept(
    stored: &[u8],
    table_size: usize,
    book: &[u8],
    request: &[u8],
    out: &mut [u8],
    figures: &mut [i64],
    answer: &mut [u64],
) -> u64
    ensures { let call = on_ledger stored.now table_size (accept book.now request.now) in
        let end = unit_call call (lent_both out.old figures.old answer.old) in
        (result ≡ end.result) × (out.new ≡ end.lent.output) × (figures.new ≡ end.lent.figures) × (answer.new ≡ end.lent.answer) }
{
    if answer.len() < ANSWER || figures.len() < FIGURES {
        return TOO_SHORT;
    }
    match stored_calls::accept_stored(stored, table_size, book, request, out) {
        Ok(accepted) => {
            write_figures(accepted.acceptance.reconciliation, figures);
            write_answer(acceptance_outcome(accepted), answer)
        }
        Err(refusal) => write_answer(stored_refused(refusal), answer),
    }
}

/// Pay-out of an amount in cents on a stored ledger: the new stored form into the lent output.
#[tactic(auto, using(stored_calls::proofs::Theorems::StoredPromises::promised_stored))]
#[unsafe(no_mangle)]
pub extern "C" fn fikrem_pay_out(
    stored: &[u8],
    table_size: usize,
    entry: u32,
    amount: u64,
    out: &mut [u8],
    answer: &mut [u64],
) -> u64
    ensures { let call = on_ledger stored.now table_size (pay_out entry amount) in
        let end = unit_call call (lent_output out.old answer.old) in
        (result ≡ end.result) × (out.new ≡ end.lent.output) × (answer.new ≡ end.lent.answer) }
{
    if answer.len() < ANSWER {
        return TOO_SHORT;
    }
    let called = stored_calls::pay_out_stored(stored, table_size, entry, amount, out);
    write_answer(call_outcome(called), answer)
}

/// Hand-over to another person on a stored ledger: the new stored form into the lent output.
#[tactic(auto, using(stored_calls::proofs::Theorems::StoredPromises::promised_stored))]
#[unsafe(no_mangle)]
pub extern "C" fn fikrem_hand_over(
    stored: &[u8],
    table_size: usize,
    entry: u32,
    person: u32,
    out: &mut [u8],
    answer: &mut [u64],
) -> u64
    ensures { let call = on_ledger stored.now table_size (hand_over entry person) in
        let end = unit_call call (lent_output out.old answer.old) in
        (result ≡ end.result) × (out.new ≡ end.lent.output) × (answer.new ≡ end.lent.answer) }
{
    if answer.len() < ANSWER {
        return TOO_SHORT;
    }
    let called = stored_calls::hand_over_stored(stored, table_size, entry, person, out);
    write_answer(call_outcome(called), answer)
}

/// Clearing of the schemes ended by a month on a stored ledger: the new stored form into the lent output.
#[tactic(auto, using(stored_calls::proofs::Theorems::StoredPromises::promised_stored))]
#[unsafe(no_mangle)]
pub extern "C" fn fikrem_clear(
    stored: &[u8],
    table_size: usize,
    month: u16,
    out: &mut [u8],
    answer: &mut [u64],
) -> u64
    ensures { let call = on_ledger stored.now table_size (clear month) in
        let end = unit_call call (lent_output out.old answer.old) in
        (result ≡ end.result) × (out.new ≡ end.lent.output) × (answer.new ≡ end.lent.answer) }
{
    if answer.len() < ANSWER {
        return TOO_SHORT;
    }
    let called = stored_calls::clear_stored(stored, table_size, month, out);
    write_answer(call_outcome(called), answer)
}

/// A ledger stored in the old form, moved to the new one, into the lent output; its length in bytes in the answer's last place.
#[unsafe(no_mangle)]
pub extern "C" fn fikrem_move_to_new(file: &[u8], out: &mut [u8], answer: &mut [u64]) -> u64
    ensures { let end = unit_call (move_to_new file.now) (lent_output out.old answer.old) in
        (result ≡ end.result) × (out.new ≡ end.lent.output) × (answer.new ≡ end.lent.answer) }
{
    if answer.len() < ANSWER {
        return TOO_SHORT;
    }
    let moved = stored_moves::move_to_new(file, out);
    write_answer(move_outcome(moved), answer)
}

/// A ledger stored in the new form, moved back to the old one, into the lent output; its length in bytes in the answer's last place.
#[unsafe(no_mangle)]
pub extern "C" fn fikrem_move_back(file: &[u8], out: &mut [u8], answer: &mut [u64]) -> u64
    ensures { let end = unit_call (move_back file.now) (lent_output out.old answer.old) in
        (result ≡ end.result) × (out.new ≡ end.lent.output) × (answer.new ≡ end.lent.answer) }
{
    if answer.len() < ANSWER {
        return TOO_SHORT;
    }
    let moved = stored_moves::move_back(file, out);
    write_answer(move_outcome(moved), answer)
}

/// Whether a stored ledger can be read; schemes, entries, connections and the last accepted month into the answer.
#[tactic(auto, using(stored_calls::proofs::Theorems::StoredPromises::promised_check))]
#[unsafe(no_mangle)]
pub extern "C" fn fikrem_judge_ledger(stored: &[u8], table_size: usize, answer: &mut [u64]) -> u64
    ensures { let end = unit_call (check_ledger stored.now table_size) (lent_answer answer.old) in
        (result ≡ end.result) × (answer.new ≡ end.lent.answer) }
{
    if answer.len() < ANSWER {
        return TOO_SHORT;
    }
    let check = stored_calls::check_stored(stored, table_size);
    write_answer(check_outcome(check), answer)
}
