// What holds of numbers and their bytes, of tagged files by any rows, and of every rate book and request.
// Each function is there for its contract alone, a law on the definitions of the crates below.
#![tactic(auto)]

ghost use Rattle.file_laws.specs.Laws.{AcceptedBookSizes, AcceptedRequestSizes, AlteredBookRefused, AlteredFileRefused, AlteredRefused, AlteredRequestRefused, BookWithinLimits, BothInABook, BothInARequest, BytesWriteBack, BytesWriteBackAt, CheckOfOneByte, DueSized, FileAnswerByEnding, FinderFinds, FinderGoesOver, FindsDue, JudgedAlike, LoadingIsSpecial, NeitherInABook, NeitherInARequest, NextSeen, NoneAtTheEnd, NumberReadsBack, NumberReadsBackAt, PartsOfEncoded, RatesWithinLimits, RequestWithinLimits, StandsMeans, WalkFields, WalkOfEncoded, WalkStands, WalkTiles};

/// A number and its bytes tell each other.
#[tactic(auto, using(numbers::proofs::Theorems::BigEndian::number_of_bytes_of, numbers::proofs::Theorems::BigEndian::bytes_of_number, crate::proofs::Theorems::InPlace::number_at_written, crate::proofs::Theorems::InPlace::written_number_at))]
pub fn numbers_read_back()
    ensures number { NumberReadsBack }
    ensures bytes { BytesWriteBack }
    ensures number_in_place { NumberReadsBackAt }
    ensures bytes_in_place { BytesWriteBackAt }
{}

/// The check h tells one byte in one place.
#[tactic(auto, using(numbers::proofs::Theorems::Check::check_one_byte))]
pub fn check_tells_one_byte()
    ensures { CheckOfOneByte }
{}

/// The walk's fields are the file.
#[tactic(auto, using(tagged::proofs::Theorems::Walk::walk_stands, tagged::proofs::Theorems::Walk::walk_fields, tagged::proofs::Theorems::FoundFields::walk_tiles))]
pub fn walked_fields()
    ensures stand { WalkStands }
    ensures follow { WalkFields }
    ensures tile { WalkTiles }
{}

/// The finder finds them, and every one that must be there.
#[tactic(auto, using(tagged::proofs::Theorems::FoundFields::walk_fields_of, tagged::proofs::Theorems::FoundFields::walk_first_place, tagged::proofs::Theorems::FoundFields::walk_finds_due, tagged::proofs::Theorems::FoundFields::walk_sized))]
pub fn found_fields()
    ensures all { FinderGoesOver }
    ensures first { FinderFinds }
    ensures due { FindsDue }
    ensures sized { DueSized }
{}

/// Going on from field to field sees exactly them.
#[tactic(auto, using(tagged::proofs::Theorems::FoundFields::walk_next, crate::proofs::Theorems::FieldsGoneThrough::walk_end))]
pub fn fields_gone_through()
    ensures next { NextSeen }
    ensures at_the_end { NoneAtTheEnd }
{}

/// Fields written one after the other walk as themselves.
#[tactic(auto, using(tagged::proofs::Theorems::WalkEncoded::walk_of_encoded, tagged::proofs::Theorems::WalkEncoded::walk_parts_of_encoded))]
pub fn encoded_fields()
    ensures walk { WalkOfEncoded }
    ensures values { PartsOfEncoded }
{}

/// What a file that stands is, and how a file's answer ends.
pub fn file_stands_or_ends()
    ensures stands { StandsMeans }
    ensures ends { FileAnswerByEnding }
{}

/// Values that are judged one after the other answer alike where each of them does.
pub fn judged_in_order()
    ensures { JudgedAlike }
{}

/// Both forms in one file, or neither, is refused with 1 at its place.
#[tactic(auto, using(crate::proofs::Theorems::BothOrNeither::both_in_a_book, crate::proofs::Theorems::BothOrNeither::both_in_a_request, crate::proofs::Theorems::BothOrNeither::neither_in_a_book, crate::proofs::Theorems::BothOrNeither::neither_in_a_request))]
pub fn both_forms_or_neither()
    ensures both_in_book { BothInABook }
    ensures both_in_request { BothInARequest }
    ensures neither_in_book { NeitherInABook }
    ensures neither_in_request { NeitherInARequest }
{}

/// With one byte altered, a file that was accepted is refused with 1 at 0 or with 2 at the check.
#[tactic(auto, using(tagged::proofs::Theorems::AlteredByte::altered_refused, tagged::proofs::Theorems::AlteredByte::altered_file_refused, rate_book::proofs::Theorems::Book::altered_book_refused, request::proofs::Theorems::Request::altered_request_refused))]
pub fn altered_files_refused()
    ensures any { AlteredRefused }
    ensures file { AlteredFileRefused }
    ensures book { AlteredBookRefused }
    ensures request { AlteredRequestRefused }
{}

/// An accepted book's values.
#[tactic(auto, using(rate_book::proofs::Theorems::BookLimits::accepted_book_sizes, rate_book::proofs::Theorems::BookLimits::rates_within_limits))]
pub fn accepted_book()
    ensures sizes { AcceptedBookSizes }
    ensures limits { BookWithinLimits }
    ensures rates { RatesWithinLimits }
{}

/// An accepted request's values.
#[tactic(auto, using(request::proofs::Theorems::RequestLimits::accepted_request_sizes, request::proofs::Theorems::RequestLimits::loading_is_special))]
pub fn accepted_request()
    ensures sizes { AcceptedRequestSizes }
    ensures limits { RequestWithinLimits }
    ensures loading { LoadingIsSpecial }
{}
