// Finding a field hands back that very part of the file and no copy: its value.
ghost use Rattle.std.specs.Prelude.{◌≡◌, length, false, cond, Some, None, MatchOption};
ghost use Rattle.field_walk.specs.Walk.{length_at};
ghost use Rattle.tagged.specs.Find.{whole_field, first_place, start_of};
ghost use Rattle.tagged.specs.Parts.{PlaceWithin, IsPart, NextField};

use numbers::big_endian::BigEndian;

// Where a part of a file stands.
// A place and no slice, since a refusal names an offset; of which file it is a part it doesn't know itself.
#[derive(Clone, Copy)]
pub struct Place {
    pub start: usize,
    pub len: usize,
}

// A field of a file, its value, and the rest of the file after it.
#[derive(Clone, Copy)]
pub struct Field<'a> {
    pub tag: u8,
    pub value: &'a [u8],
    pub rest: &'a [u8],
}

// How long the value of the field is that the rest of a file starts with; None where no whole field stands there.
fn value_len(rest: &[u8]) -> Option<usize>
    ensures { result ≡ cond (whole_field rest.now) (Some (length_at rest.now)) None }
{
    if rest.len() < 3 {
        return None;
    }
    let len = usize::from(u16::read(rest, 1));
    (len + 3 <= rest.len()).then_some(len)
}

// The place of the value of the first field with this tag.
// The rest is kept by hand: document 01 names the form, as in stored_reading, and the offset goes along.
#[tactic(auto, unfolding(crate::specs::Find::fields_from, crate::specs::Find::first_with), using(crate::proofs::Finding::search_goes_on))]
pub fn place_of(fields: &[u8], tag: u8) -> Option<Place>
    ensures value { result ≡ first_place tag fields.now }
    ensures place_within { PlaceWithin (length fields.now) result }
{
    let mut rest = fields;
    let mut at: usize = 0;
    while let Some(len) = value_len(rest) {
        if rest[0] == tag {
            return Some(Place { start: at + 3, len });
        }
        let end = len + 3;
        at += end;
        rest = &rest[end..];
    }
    None
}

// The part at a place: the very bytes of the file, as the pointer says; no bytes where there is none.
// No Option, here and in what finds by it: a value that isn't there is read as one of no bytes.
pub fn part<'a>(file: &'a [u8], place: Option<Place>) -> &'a [u8]
    requires { PlaceWithin (length file.now) place }
    ensures { IsPart place file.entry result }
{
    match place {
        Some(Place { start, len }) => &file[start..start + len],
        None => &file[0..0],
    }
}

// The offset at which the part at a place starts.
// 0 and no Option where there is none: a missing value is judged as no bytes at offset 0.
pub fn start_of(place: Option<Place>) -> usize
    ensures { result ≡ start_of place }
{
    match place {
        Some(place) => place.start,
        None => 0,
    }
}

// The value of the first field with this tag, as a part of the file; no bytes where there is none.
pub fn find<'a>(fields: &'a [u8], tag: u8) -> &'a [u8]
    ensures { IsPart (first_place tag fields.now) fields.entry result }
{
    let place = place_of(fields, tag);
    part(fields, place)
}

// The field that the rest of a file starts with, its value and what comes after it as the file's own parts;
// None where no whole field stands there.
pub fn next_field<'a>(rest: &'a [u8]) -> Option<Field<'a>>
    ensures { MatchOption result (whole_field rest.now ≡ false) (λ field. NextField rest.entry field) }
{
    let len = value_len(rest)?;
    let end = len + 3;
    Some(Field {
        tag: rest[0],
        value: &rest[3..end],
        rest: &rest[end..],
    })
}
