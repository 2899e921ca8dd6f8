// Walks a pioneer ledger through its life by the lines of data/calls.txt: M7 of document 01, 'Marked figures', with plain, small and ended connections
// in between, pay-outs, a hand-over, every refusal, the stored form, a joiner who builds on, and clearings, all by the public calls over a lent table. Each call is
// written with its answer; `show`, `figures` and `record` write what ledger and table hold.
#![tactic(auto)]

mod script;
mod state;

ghost use Rattle.std.specs.Prelude.{◌≤◌, length, IfSome};

use arrayvec::ArrayVec;
use calls::answers::AcceptAnswer;
use ledger_text::answers::{Accepted, Answered, FormLength};
use ledger_text::records::Figures;
use script::Line;
use state::State;
use std::fmt;
use std::rt::Files;
use tagged::file::{FileAnswer, Refusal};

// How many bytes are read of a rate book or a request.
const FILE_SIZE: usize = 4_096;

// How many bytes are read of a stored ledger or of the script, and written of a stored form.
const LONGEST_FILE: usize = 65_536;

// Writes the stored form into a lent output: the form's bytes, none where that is refused.
fn write_form<'a>(rt: &impl Print, state: &State, out: &'a mut [u8]) -> Option<&'a [u8]>
    ensures { IfSome result (λ form. length form.now ≤ length out.old) }
{
    let _ = print!(rt; "write to {} bytes: ", out.len());
    let written = state.write(out);
    let _ = println!(rt; "{}", Answered(written.map(FormLength)));
    out.get(..written.ok()?)
}

// Here and below: out of line, so that a buffer takes its stack while its line is carried out and no longer.
#[inline(never)]
fn write_to(rt: &impl Print, state: &State, size: usize) {
    let mut space = [0u8; LONGEST_FILE];
    write_form(rt, state, space.get_mut(..size).unwrap_or(&mut []));
}

#[inline(never)]
fn accept(rt: &impl Files, state: &mut State, request: &[u8], book: &[u8]) -> AcceptAnswer {
    let book: ArrayVec<u8, FILE_SIZE> = files::read_start(rt, book);
    let request: ArrayVec<u8, FILE_SIZE> = files::read_start(rt, request);
    state.accept(book.as_slice(), request.as_slice())
}

#[inline(never)]
fn read(rt: &impl Files, state: &mut State, name: &[u8]) -> FileAnswer {
    // Read into it where it lies: a buffer of this size that is handed back by value would be copied.
    let mut bytes = [0u8; LONGEST_FILE];
    let size = files::read_file(rt, name, &mut bytes);
    state.read(&bytes[..size])
}

// The written form read back and written again.
#[inline(never)]
fn over_and_back(rt: &impl Print, state: &State) {
    let mut out = [0u8; LONGEST_FILE];
    let form = write_form(rt, state, &mut out);
    let _ = print!(rt; "read what was written: ");
    let mut again = State::new();
    let read = again.read(form.unwrap_or(b""));
    let _ = println!(rt; "{}", Answered(read.map(|_| "READ")));
    let mut second_out = [0u8; LONGEST_FILE];
    let says = if form == write_form(rt, &again, &mut second_out) {
        "the second writing gives the same bytes"
    } else {
        "THE SECOND WRITING DIFFERS"
    };
    let _ = println!(rt; "{says}");
    again.lines().print(rt);
}

// A call's line, before its files are read and the call is made. Its bytes need be no text.
fn print_call(rt: &impl Print, text: &[u8]) {
    let _ = rt.write_all(text);
    let _ = print!(rt; ": ");
}

// Its answer's line.
fn print_answer<T: fmt::Display + Copy>(rt: &impl Print, answer: Result<T, Refusal>) {
    let _ = println!(rt; "{}", Answered(answer));
}

// Carries out one line; `kept` is the ledger and table to go back to.
fn carry_out(rt: &(impl Files + Print), state: &mut State, kept: &mut State, text: &[u8]) {
    match Line::parse(text) {
        Line::Heading => {
            let _ = rt.write_all(text);
            let _ = println!(rt);
        }
        Line::Accept { request, book } => {
            print_call(rt, text);
            print_answer(rt, accept(rt, state, request, book).map(Accepted));
        }
        Line::PayOut { entry, amount } => {
            print_call(rt, text);
            print_answer(rt, state.pay_out(entry, amount).map(|_| "DONE"));
        }
        Line::HandOver { entry, person } => {
            print_call(rt, text);
            print_answer(rt, state.hand_over(entry, person).map(|_| "DONE"));
        }
        Line::Clear(month) => {
            print_call(rt, text);
            print_answer(rt, state.clear(month).map(|_| "DONE"));
        }
        Line::Read(name) => {
            print_call(rt, text);
            print_answer(rt, read(rt, state, name).map(|_| "READ"));
        }
        Line::Write(size) => write_to(rt, state, size),
        Line::OverAndBack => over_and_back(rt, state),
        Line::New => *state = State::new(),
        Line::Table(room) => state.room = room,
        Line::Month(month) => state.ledger.month = month,
        Line::Count(entries) => state.ledger.entries = entries,
        Line::Keep => *kept = *state,
        Line::Back => *state = *kept,
        Line::Show => state.lines().print(rt),
        Line::Figures => {
            let _ = println!(rt; "{}", Figures(&state.ledger));
        }
        Line::Record(place) => {
            if let Some(record) = state.record(place) {
                let _ = println!(rt; "{record}");
            }
        }
    }
}

// Line by line, to the end of the script; the last line may go without its end. What standard output doesn't take of a line is lost, and the run goes on.
fn run(rt: &(impl Files + Print)) {
    let script: ArrayVec<u8, LONGEST_FILE> = files::read_start(rt, "calls.txt");
    let mut state = State::new();
    let mut kept = state;
    for line in script.as_slice().split_inclusive(|byte| *byte == b'\n') {
        let text = line.strip_suffix(b"\n").unwrap_or(line);
        carry_out(rt, &mut state, &mut kept, text);
    }
}

fn main(rt: HostRuntime) {
    run(&rt);
}
