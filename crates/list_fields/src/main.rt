// Lists the fields of the sample files in data/, and says whether each file stands or how it is
// refused.
#![tactic(auto)]

mod fields;

use arrayvec::ArrayVec;
use fields::Fields;
use files::refused::Refused;
use std::rt::Files;
use stored::form::Form;
use tagged::file::FileAnswer;

// The kinds of file.
#[derive(Clone, Copy)]
enum Kind {
    Book,
    Request,
    OldLedger,
    Ledger,
}

impl Kind {
    // A match: the files are listed by kind, and a kind says its call and the number of its file at once.
    fn stands(self, file: &[u8]) -> FileAnswer {
        match self {
            Kind::Book => book_zones::rows::book_stands(1, file),
            Kind::Request => request::rows::request_stands(2, file),
            Kind::OldLedger => stored::rows::stored_stands(Form::Pion, 1, file),
            Kind::Ledger => stored::rows::stored_stands(Form::Pio2, 1, file),
        }
    }
}

const RIGHT_FILES: [(Kind, &str); 7] = [
    (Kind::Book, "book.bin"),
    (Kind::Request, "request.bin"),
    (Kind::Ledger, "ledger.bin"),
    (Kind::Ledger, "ledger_as_new.bin"),
    (Kind::OldLedger, "old_ledger.bin"),
    (Kind::Book, "book_wide.bin"),
    (Kind::Request, "request_wide.bin"),
];

const BAD_TAILS_AND_CHECKS: [(Kind, &str); 7] = [
    (Kind::Book, "missing.bin"),
    (Kind::Book, "empty.bin"),
    (Kind::Book, "one_byte.bin"),
    (Kind::Book, "five_times_ff.bin"),
    (Kind::Book, "altered_byte.bin"),
    (Kind::Book, "altered_check.bin"),
    (Kind::Book, "altered_tail.bin"),
];

const FILES_THAT_DO_NOT_WALK: [(Kind, &str); 13] = [
    (Kind::Book, "book_without_02.bin"),
    (Kind::Book, "book_02_twice.bin"),
    (Kind::Book, "book_ends_early.bin"),
    (Kind::Book, "book_ff_early.bin"),
    (Kind::Book, "book_nine_zones.bin"),
    (Kind::Book, "book_odd_factors.bin"),
    (Kind::Book, "book_long_factors.bin"),
    (Kind::Book, "book_past_end.bin"),
    (Kind::Book, "book_two_bytes_over.bin"),
    (Kind::Book, "request_as_book.bin"),
    (Kind::Request, "book.bin"),
    (Kind::Ledger, "old_ledger.bin"),
    (Kind::OldLedger, "ledger.bin"),
];

const FILES_OF_BOTH_FORMS_AND_OF_NEITHER: [(Kind, &str); 4] = [
    (Kind::Book, "book_both_forms.bin"),
    (Kind::Book, "book_ends_early.bin"),
    (Kind::Request, "request_both_forms.bin"),
    (Kind::Request, "request_neither_form.bin"),
];

// What standard output doesn't take of a line is lost, and the run goes on with the next one.
fn show(rt: &(impl Files + Print), kind: Kind, name: &str) {
    let file: ArrayVec<u8, 4_096> = files::read_start(rt, name);
    if let Err(refusal) = kind.stands(file.as_slice()) {
        let _ = println!(rt; "{name} {}", Refused(refusal));
        return;
    }
    let _ = println!(rt; "{name} stands");
    for field in Fields::new(tagged::file::fields_part(file.as_slice())) {
        let _ = println!(rt; "  {field}");
    }
}

fn run(rt: &(impl Files + Print)) {
    let files = RIGHT_FILES
        .iter()
        .chain(&BAD_TAILS_AND_CHECKS)
        .chain(&FILES_THAT_DO_NOT_WALK)
        .chain(&FILES_OF_BOTH_FORMS_AND_OF_NEITHER);
    for (kind, name) in files {
        show(rt, *kind, *name);
    }
}

fn main(rt: HostRuntime) {
    run(&rt);
}
