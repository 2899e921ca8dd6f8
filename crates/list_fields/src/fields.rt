// The fields of a file, one after the other.
ghost use Rattle.std.specs.Prelude.{◌≤◌, length};
ghost use Rattle.std.specs.Iterator.{at_most};

use std::fmt;
use tagged::find::next_field;

// A field's tag, the offset of its value and the value's length.
#[derive(Clone, Copy)]
pub struct Field {
    tag: u8,
    start: usize,
    len: usize,
}

impl fmt::Display for Field {
    fn fmt<W: fmt::Write>(&self, f: &mut fmt::Formatter<W>) -> fmt::Result {
        let Field { tag, start, len } = *self;
        write!(f, "field {tag:02x} value at {start} length {len}")
    }
}

// Of the fields of a file, those that are left.
#[derive(Drop)]
pub struct Fields<'a> {
    fields: &'a [u8],
    rest: &'a [u8],
    ghost within: { length rest.now ≤ length fields.now },
}

impl<'a> Fields<'a> {
    pub fn new(fields: &'a [u8]) -> Fields<'a> {
        Fields {
            fields,
            rest: fields,
        }
    }
}

impl<'a> Iterator for Fields<'a> {
    type Item = Field;

    ghost remaining = { λ s. at_most (length s.rest.now) };

    fn next(&mut self) -> Option<Field> {
        let field = next_field(self.rest)?;
        let start = self.fields.len() - self.rest.len() + 3;
        self.rest = field.rest;
        Some(Field {
            tag: field.tag,
            start,
            len: field.value.len(),
        })
    }
}
