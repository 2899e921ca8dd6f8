// The line of a refusal.
ghost use Rattle.std.specs.Prelude.{Some};
ghost use Rattle.files.specs.Refused.{refused_text};

use std::fmt;
use tagged::file::Refusal;

// Written as `REFUSED n file place`.
#[derive(Clone, Copy)]
pub struct Refused(pub Refusal);

impl fmt::Display for Refused {
    ghost output = { λ r. Some (refused_text r.0) };

    fn fmt<W: fmt::Write>(&self, f: &mut fmt::Formatter<W>) -> fmt::Result {
        let Refusal {
            number,
            file,
            place,
        } = self.0;
        write!(f, "REFUSED {number} {file} {place}")
    }
}
