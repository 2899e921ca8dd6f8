// Reads the stored ledgers in data/, sound and damaged, writes back those that stand, and moves them between the forms.
//
// A line for each: the file and the table's length; what reading came to, with schemes, entries and
// connections, or the refusal; the output's length; what writing came to, with the form's length and
// whether it is the file, or the refusal. Then a line for each move: the file, to which form, the output's length, and
// what it came to.
#![tactic(auto)]

use files::refused::Refused;
use ledger::limits::{MOST_ENTRIES, Parties};
use ledger::records::Ledger;
use std::fmt;
use std::rt::Files;
use stored::form::Form;
use stored::lengths::LONGEST_FORM;
use tagged::file::Refusal;

// How many bytes are read of a file.
const READ_SIZE: usize = 65_536;

// A file, how many records the table has, and how many bytes the output.
const FILES: [(&str, usize, usize); 18] = [
    ("new.bin", 0, LONGEST_FORM),
    ("one_scheme.bin", 2, LONGEST_FORM),
    ("one_scheme.bin", MOST_ENTRIES, LONGEST_FORM),
    ("full.bin", MOST_ENTRIES, LONGEST_FORM),
    ("cleared.bin", 1, LONGEST_FORM),
    // refused
    ("missing.bin", MOST_ENTRIES, LONGEST_FORM),
    ("truncated.bin", MOST_ENTRIES, LONGEST_FORM),
    ("altered_byte.bin", MOST_ENTRIES, LONGEST_FORM),
    ("wrong_check.bin", MOST_ENTRIES, LONGEST_FORM),
    ("wrong_letter.bin", MOST_ENTRIES, LONGEST_FORM),
    ("one_scheme.bin", 1, LONGEST_FORM),
    ("full.bin", MOST_ENTRIES - 1, LONGEST_FORM),
    ("fees_off_by_one.bin", MOST_ENTRIES, LONGEST_FORM),
    ("cleared_off_by_one.bin", MOST_ENTRIES, LONGEST_FORM),
    ("old_letters.bin", MOST_ENTRIES, LONGEST_FORM),
    ("old_one_scheme.bin", MOST_ENTRIES, LONGEST_FORM),
    // an output as long as the form, and one that is a byte shorter
    ("one_scheme.bin", 2, 174),
    ("one_scheme.bin", 2, 173),
];

// A file, the form that it moves to, and how many bytes the output; the file that comes out, where one does.
const MOVES: [(&str, Form, usize, &str); 14] = [
    ("old_new.bin", Form::Pio2, LONGEST_FORM, "new.bin"),
    (
        "old_one_scheme.bin",
        Form::Pio2,
        LONGEST_FORM,
        "one_scheme.bin",
    ),
    ("old_full.bin", Form::Pio2, LONGEST_FORM, "full.bin"),
    ("new.bin", Form::Pion, LONGEST_FORM, "old_new.bin"),
    (
        "one_scheme.bin",
        Form::Pion,
        LONGEST_FORM,
        "old_one_scheme.bin",
    ),
    ("full.bin", Form::Pion, LONGEST_FORM, "old_full.bin"),
    // refused
    ("one_scheme.bin", Form::Pio2, LONGEST_FORM, ""),
    ("old_fees_off_by_one.bin", Form::Pio2, LONGEST_FORM, ""),
    ("old_one_scheme.bin", Form::Pio2, 173, ""),
    ("old_one_scheme.bin", Form::Pion, LONGEST_FORM, ""),
    ("fees_off_by_one.bin", Form::Pion, LONGEST_FORM, ""),
    ("cleared.bin", Form::Pion, LONGEST_FORM, ""),
    ("cleared.bin", Form::Pion, 0, ""),
    ("one_scheme.bin", Form::Pion, 129, ""),
];

// A ledger and its table, the first `room` of the records.
#[derive(Drop)]
struct Stored {
    ledger: Ledger,
    parties: Parties,
    room: usize,
}

impl Stored {
    fn read(room: usize, file: &[u8]) -> Result<Stored, Refusal> {
        let mut ledger = ledger::records::new_ledger();
        let mut parties = ledger::records::no_parties();
        stored_reading::read(Form::Pio2, &mut ledger, &mut parties, room, file)?;
        Ok(Stored {
            ledger,
            parties,
            room,
        })
    }

    fn write(&self, out: &mut [u8]) -> Result<usize, Refusal> {
        let table = &self.parties[..self.room.min(MOST_ENTRIES)];
        stored_writing::write(&self.ledger, table, out)
    }
}

impl fmt::Display for Stored {
    fn fmt<W: fmt::Write>(&self, f: &mut fmt::Formatter<W>) -> fmt::Result {
        let ledger = &self.ledger;
        write!(
            f,
            "STANDS {} {} {}",
            ledger.count, ledger.entries, ledger.connections
        )
    }
}

// Writes a ledger into an output, and holds its stored form against a file. What standard output doesn't take is lost, here and
// below, and the run goes on.
#[inline(never)]
fn write_back(rt: &impl Print, stored: &Stored, output: usize, file: &[u8]) {
    let mut space = [0u8; LONGEST_FORM];
    let out = &mut space[..output.min(LONGEST_FORM)];
    let _ = print!(rt; " OUTPUT {output} ");
    match stored.write(out) {
        Err(refusal) => {
            let _ = println!(rt; "{}", Refused(refusal));
        }
        Ok(size) => {
            let same = out.get(..size).is_some_and(|form| form == file);
            let says = if same { "the file" } else { "NOT THE FILE" };
            let _ = println!(rt; "WRITTEN {size} {says}");
        }
    }
}

// Reads a file with a table of `room` records, and writes what stands into an output. Here and below each buffer takes its stack in
// one frame alone, out of line, and a file is read into it where it lies: a buffer that is handed back by value would be copied.
#[inline(never)]
fn show(rt: &(impl Files + Print), name: &str, room: usize, output: usize) {
    let mut bytes = [0u8; READ_SIZE];
    let size = files::read_file(rt, name.as_bytes(), &mut bytes);
    let file = &bytes[..size];
    let _ = print!(rt; "{name} TABLE {room} ");
    match Stored::read(room, file) {
        Err(refusal) => {
            let _ = println!(rt; "{}", Refused(refusal));
        }
        Ok(stored) => {
            let _ = print!(rt; "{stored}");
            write_back(rt, &stored, output, file);
        }
    }
}

// Whether a file's bytes are these.
#[inline(never)]
fn holds(rt: &impl Files, name: &str, form: &[u8]) -> bool {
    let mut bytes = [0u8; READ_SIZE];
    let size = files::read_file(rt, name.as_bytes(), &mut bytes);
    &bytes[..size] == form
}

// Moves a file to a form, and holds what is written against another file.
#[inline(never)]
fn show_move(rt: &(impl Files + Print), name: &str, form: Form, output: usize, other: &str) {
    let mut bytes = [0u8; READ_SIZE];
    let size = files::read_file(rt, name.as_bytes(), &mut bytes);
    let file = &bytes[..size];
    let mut space = [0u8; LONGEST_FORM];
    let out = &mut space[..output.min(LONGEST_FORM)];
    let (to, moved) = match form {
        Form::Pion => ("PION", stored_moves::move_back(file, out)),
        Form::Pio2 => ("PIO2", stored_moves::move_to_new(file, out)),
    };
    let _ = print!(rt; "{name} TO {to} OUTPUT {output} ");
    match moved {
        Err(refusal) => {
            let _ = println!(rt; "{}", Refused(refusal));
        }
        Ok(size) => {
            let same = out.get(..size).is_some_and(|form| holds(rt, other, form));
            let says = if same { "as" } else { "NOT AS" };
            let _ = println!(rt; "WRITTEN {size} {says} {other}");
        }
    }
}

// A ledger that charged something before any connection.
fn unsound_ledger() -> Stored {
    let mut ledger = ledger::records::new_ledger();
    ledger.charged = 1;
    Stored {
        ledger,
        parties: ledger::records::no_parties(),
        room: MOST_ENTRIES,
    }
}

fn run(rt: &(impl Files + Print)) {
    for (name, room, output) in FILES {
        show(rt, name, room, output);
    }
    for (name, form, output, other) in MOVES {
        show_move(rt, name, form, output, other);
    }
    let unsound = unsound_ledger();
    let _ = print!(rt; "unsound TABLE {}", unsound.room);
    write_back(rt, &unsound, LONGEST_FORM, b"");
}

fn main(rt: HostRuntime) {
    run(&rt);
}
