// The lines of the calls' answers.
ghost use Rattle.std.specs.Prelude.{Some};
ghost use Rattle.ledger_text.specs.Answers.{answered_text, length_text};

use calls::answers::{Acceptance, JoiningAnswer};
use files::refused::Refused;
use std::fmt;
use tagged::file::Refusal;

// A call's answer, or its refusal.
#[derive(Clone, Copy)]
pub struct Answered<T>(pub Result<T, Refusal>);

impl<T: fmt::Display> fmt::Display for Answered<T> {
    ghost output = { λ a. answered_text T.output a.0 };

    fn fmt<W: fmt::Write>(&self, f: &mut fmt::Formatter<W>) -> fmt::Result {
        match &self.0 {
            Ok(answer) => write!(f, "{answer}"),
            Err(refusal) => write!(f, "{}", Refused(*refusal)),
        }
    }
}

// What became of a joining and an opening, and the charge.
#[derive(Clone, Copy)]
pub struct Accepted(pub Acceptance);

impl fmt::Display for Accepted {
    fn fmt<W: fmt::Write>(&self, f: &mut fmt::Formatter<W>) -> fmt::Result {
        let Acceptance {
            reconciliation,
            joining,
            opening,
        } = self.0;
        match (joining, opening) {
            (JoiningAnswer::NotAsked, None) => write!(f, "PLAIN")?,
            (JoiningAnswer::NotAsked, Some(scheme)) => write!(f, "OPENED {scheme}")?,
            (joining, None) => write!(f, "{}", Joining(joining))?,
            (joining, Some(scheme)) => write!(f, "{}, OPENED {scheme}", Joining(joining))?,
        }
        write!(
            f,
            ", CC {}, borne {}",
            reconciliation.cc, reconciliation.borne
        )
    }
}

// What became of a joining that was asked for.
#[derive(Clone, Copy)]
struct Joining(JoiningAnswer);

impl fmt::Display for Joining {
    fn fmt<W: fmt::Write>(&self, f: &mut fmt::Formatter<W>) -> fmt::Result {
        match self.0 {
            JoiningAnswer::NotAsked => Ok(()),
            JoiningAnswer::Ended => write!(f, "ENDED"),
            JoiningAnswer::Small => write!(f, "SMALL"),
            JoiningAnswer::Joined(collected) => {
                write!(f, "JOINED {} {}", collected.entry, collected.contribution)
            }
        }
    }
}

// How many bytes a stored form takes.
#[derive(Clone, Copy)]
pub struct FormLength(pub usize);

impl fmt::Display for FormLength {
    ghost output = { λ n. Some (length_text n.0) };

    fn fmt<W: fmt::Write>(&self, f: &mut fmt::Formatter<W>) -> fmt::Result {
        write!(f, "LENGTH {}", self.0)
    }
}
