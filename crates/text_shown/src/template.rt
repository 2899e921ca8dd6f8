// The template of each kind: the fields of a file that prices as it stands, person 4711 in April 2026 with 150 kVA in zone 1.
ghost use Rattle.std.specs.Prelude.{◌≡◌};
ghost use Rattle.text_shown.specs.Template.{template_fields};
ghost use Rattle.text_shown.specs.Show.{text_written, text_output, template_text};

use crate::show::{TextWritten, write_text};
use text_names::table::Kind;

#[tactic(auto, unfolding(crate::specs::Template::template_book, crate::specs::Template::template_request))]
fn template_fields(kind: Kind) -> &'static [u8]
    ensures { result.now ≡ template_fields kind }
{
    match kind {
        Kind::Book => &[
            1, 0, 4, 82, 65, 84, 69, 2, 0, 2, 0, 0, 3, 0, 40, 0, 0, 0, 0, 0, 0, 0, 1, 0, 0, 0, 0,
            0, 0, 0, 1, 0, 0, 0, 0, 0, 0, 0, 1, 0, 0, 0, 0, 0, 0, 0, 1, 0, 0, 0, 0, 0, 0, 0, 1, 4,
            0, 2, 39, 16, 5, 0, 2, 39, 16, 6, 0, 14, 0, 76, 75, 64, 0, 0, 78, 32, 0, 0, 78, 32, 0,
            84, 7, 0, 3, 1, 25, 100, 8, 0, 21, 1, 0, 0, 0, 0, 0, 0, 0, 0, 0, 0, 33, 52, 0, 0, 148,
            112, 0, 0, 39, 16,
        ],
        Kind::Request => &[
            1, 0, 4, 67, 79, 78, 78, 2, 0, 4, 0, 0, 18, 103, 3, 0, 1, 1, 4, 0, 1, 1, 5, 0, 24, 0,
            24, 100, 36, 0, 0, 0, 0, 0, 0, 0, 0, 0, 0, 0, 0, 0, 0, 0, 0, 0, 0, 0, 0, 6, 0, 45, 0,
            0, 0, 1, 144, 0, 0, 0, 0, 0, 0, 0, 1, 144, 0, 0, 0, 0, 0, 0, 0, 0, 200, 0, 0, 0, 0, 0,
            0, 0, 0, 200, 0, 0, 0, 0, 0, 0, 0, 0, 150, 0, 0, 0, 0, 7, 0, 20, 0, 0, 0, 0, 0, 0, 0,
            0, 0, 0, 0, 0, 0, 0, 0, 0, 0, 0, 0, 0, 8, 0, 8, 0, 0, 223, 232, 0, 0, 0, 0, 9, 0, 4, 0,
            0, 39, 16, 10, 0, 2, 39, 16, 11, 0, 2, 39, 16, 12, 0, 9, 94, 251, 0, 0, 58, 152, 0, 0,
            0,
        ],
    }
}

/// The text with every name, its unit, its limits and a value, ready to fill in, at the start of a lent output, and its length; 14 where the output is shorter than
/// any text may be, and the output as it was.
pub fn template(kind: Kind, out: &mut [u8]) -> TextWritten
    ensures value { result ≡ text_written (template_text kind) out.old }
    ensures out_after { out.new ≡ text_output (template_text kind) out.old }
{
    write_text(kind, template_fields(kind), out)
}
