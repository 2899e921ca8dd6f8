// A rate book or a request judged alone, and the check of bytes, for whoever writes one.

ghost use Rattle.std.specs.Prelude.{◌≡◌};
ghost use Rattle.numbers.specs.Check.{check};
ghost use Rattle.tagged.specs.File.{answer_of};
ghost use Rattle.rate_book.specs.Book.{book_of};
ghost use Rattle.request.specs.Request.{request_of};
ghost use Rattle.quoting_unit.specs.Interface.{answer_result};
ghost use Rattle.fikrem_c.specs.FileResult.{file_read_alone};

use quoting_unit::results::result_of_answer;

// a refusal's file where a file is read alone
const FILE_READ_ALONE: u8 = 1;

/// Whether a rate book can be read, before it is handed on. Refusals: 1, 2, 3, of file 1.
#[unsafe(no_mangle)]
pub extern "C" fn fikrem_judge_book(book: &[u8]) -> u64
    ensures { result ≡ answer_result (answer_of (book_of file_read_alone book.now)) }
{
    result_of_answer(rate_book::book::read_book(FILE_READ_ALONE, book))
}

/// Whether a request can be read, before it is handed on. Refusals: 1, 2, 3, of file 1 too.
#[unsafe(no_mangle)]
pub extern "C" fn fikrem_judge_request(request: &[u8]) -> u64
    ensures { result ≡ answer_result (answer_of (request_of file_read_alone request.now)) }
{
    result_of_answer(request::values::read_request(FILE_READ_ALONE, request))
}

/// The check of a file's bytes before its last two, which are to hold it: 0 to 65520.
#[unsafe(no_mangle)]
pub extern "C" fn fikrem_check(bytes: &[u8]) -> u32
    ensures { result ≡ check bytes.now }
{
    numbers::check::check(bytes)
}
