// The walk over a file's fields: one walker for every kind of file, by the rows that it is handed.
ghost use Rattle.std.specs.Prelude.{◌≡◌, length, drop};
ghost use Rattle.field_walk.specs.Walk.{least_of, most_of, in_form, row_in, rows_in, due_from, all_had, permitted_by, front_of, walk_by, walk};
ghost use Rattle.field_walk.specs.WalkSteps.{RowBelow, EndsWithin};
ghost use Rattle.field_walk.specs.Walked.{walked};

use numbers::big_endian::BigEndian;
use std::cmp::max;

// A row of a kind's table: tag; lowest, highest and step of length; least and most times; the form
// that it is of, 0 for both.
// Seven numbers by place and no names: a kind's table stands as a table, a row a line.
pub type Row = [u16; 7];

// The forms of a kind's files: a field of the second stands in place of one of the first.
// Numbers and no enum: the walk takes rows of any seven numbers, of which the last is the form.
pub const FIRST_FORM: u16 = 1;

pub const SECOND_FORM: u16 = 2;

// What both forms have.
const NEITHER_FORM: u16 = 0;

// What the rest of a file starts with: three outcomes, of which only a field goes on.
#[derive(Clone, Copy)]
pub enum Front {
    End,
    Field {
        row: usize,
        count: usize,
        len: usize,
    },
    CannotStand,
}

pub type Walked = Result<(), usize>;

// Whether files of a form may have fields of the row. Row and form, here and below, and no method of the form's rows: by the row's
// number each would ask that it is below how many there are.
fn in_form(row: &Row, form: u16) -> bool
    ensures { result ≡ in_form form row.now }
{
    let of = row[6];
    of == 0 || of == form
}

// How often a field of the row comes at least in files of a form.
// Least and most by a function each: a column's number handed over would say less than its name.
fn least_in(row: &Row, form: u16) -> usize
    ensures { result ≡ least_of (row_in form row.now) }
{
    if in_form(row, form) {
        return usize::from(row[4]);
    }
    0
}

// How often it comes at most.
fn most_in(row: &Row, form: u16) -> usize
    ensures { result ≡ most_of (row_in form row.now) }
{
    if in_form(row, form) {
        return usize::from(row[5]);
    }
    0
}

// Whether a row permits a length.
pub fn permitted(row: &Row, len: usize) -> bool
    ensures { result ≡ permitted_by row.now len }
{
    let lowest = usize::from(row[1]);
    let highest = usize::from(row[2]);
    let step = usize::from(row[3]);
    if len < lowest {
        return false;
    }
    if highest < len {
        return false;
    }
    step != 0 && (len - lowest) % step == 0
}

// The rows of a kind's table, as files of a form have them.
#[derive(Clone, Copy)]
struct FormRows<'a> {
    rows: &'a [Row],
    form: u16,
}

impl<'a> FormRows<'a> {
    // The row that a field with this tag counts to in a file of this form, and how many fields of that row
    // have then come, where `had` fields of the row `from` have come before it.
    // Row and count stay two numbers: the count starts again at each row, so a pair of them would be taken apart there.
    fn row_due(self, from: usize, had: usize, tag: u8) -> Option<(usize, usize)>
        ensures value { result ≡ due_from (drop from (rows_in self.entry.form self.entry.rows.now)) from had tag }
        ensures row_below { RowBelow (length self.entry.rows.now) result }
    {
        let mut count = had;
        for (number, row) in self.rows.iter().enumerate().skip(from) {
            if row[0] == u16::from(tag) {
                if count < most_in(row, self.form) {
                    return Some((number, count + 1));
                }
                return None;
            }
            if count < least_in(row, self.form) {
                return None;
            }
            count = 0;
        }
        None
    }

    // Whether no field is due any more, where `had` fields of the row `from` have come.
    fn all_had(self, from: usize, had: usize) -> bool
        ensures { result ≡ all_had (drop from (rows_in self.entry.form self.entry.rows.now)) had }
    {
        let mut count = had;
        for row in self.rows.iter().skip(from) {
            if count < least_in(row, self.form) {
                return false;
            }
            count = 0;
        }
        true
    }

    // What the rest of a file starts with, where `had` fields of the row `from` have come.
    #[tactic(auto, unfolding(crate::specs::Walk::front_of), using(crate::proofs::Rows::permitted_in))]
    fn front_of(self, from: usize, had: usize, rest: &[u8]) -> Front
        ensures value { result ≡ front_of (rows_in self.entry.form self.entry.rows.now) from had rest.now }
        ensures ends_within { EndsWithin (length rest.now) result }
    {
        if rest.len() == 0 {
            if self.all_had(from, had) {
                return Front::End;
            }
            return Front::CannotStand;
        }
        if rest.len() < 3 {
            return Front::CannotStand;
        }
        let Some((row, count)) = self.row_due(from, had, rest[0]) else {
            return Front::CannotStand;
        };
        let len = usize::from(u16::read(rest, 1));
        if !permitted(&self.rows[row], len) {
            return Front::CannotStand;
        }
        if rest.len() < len + 3 {
            return Front::CannotStand;
        }
        Front::Field { row, count, len }
    }

    // The walk by these rows: after a field, the part of the file from its end onward is what the
    // next step sees.
    #[tactic(auto, unfolding(crate::specs::Walk::walk_from), using(crate::proofs::Walking::walk_goes_on))]
    fn walk_by(self, fields: &[u8]) -> Walked
        ensures { result ≡ walked (walk_by (rows_in self.entry.form self.entry.rows.now) fields.now) }
    {
        let mut rest = fields;
        let mut at: usize = 0;
        let mut row: usize = 0;
        let mut count: usize = 0;
        loop {
            match self.front_of(row, count, rest) {
                Front::End => return Ok(()),
                Front::Field {
                    row: due,
                    count: had,
                    len,
                } => {
                    let end = len + 3;
                    row = due;
                    count = had;
                    at += end;
                    rest = &rest[end..];
                }
                Front::CannotStand => return Err(at),
            }
        }
    }
}

// The walk by either form; where neither form's field has come and the rest walks, the place is where
// the first form's was due.
// Three walks by a form's number and no step handed in: each one's end is told in its own way.
pub fn walk(rows: &[Row], fields: &[u8]) -> Walked
    ensures { result ≡ walked (walk rows.now fields.now) }
{
    let first = FormRows {
        rows,
        form: FIRST_FORM,
    };
    let second = FormRows {
        rows,
        form: SECOND_FORM,
    };
    let neither = FormRows {
        rows,
        form: NEITHER_FORM,
    };
    let Err(at) = first.walk_by(fields) else {
        return Ok(());
    };
    let Err(at_second) = second.walk_by(fields) else {
        return Ok(());
    };
    match neither.walk_by(fields) {
        Ok(()) => Err(at),
        Err(_) => Err(max(at, at_second)),
    }
}
