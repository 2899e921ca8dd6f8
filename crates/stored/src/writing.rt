// What writing a ledger answers.
use tagged::file::Refusal;

// The form's length, or the refusal.
pub type Written = Result<usize, Refusal>;
