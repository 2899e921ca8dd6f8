// Judging an event file, and going through it event by event.
ghost use Rattle.std.specs.Prelude.{◌≡◌, true, false, MatchOption};
ghost use Rattle.field_walk.specs.Walked.{walked};
ghost use Rattle.event_file.specs.EventFile.{listed, book_ends_within, event_stands, front_stands, events_walk, events_answer};
ghost use Rattle.event_file.specs.NextEvent.{EventIs, NextEventIs};

use crate::rows::{ACCEPT, CLEAR, EVENT_ROWS, HAND_OVER, PAY_OUT};
use field_walk::walk::{Row, Walked, permitted};
use numbers::big_endian::BigEndian;
use tagged::file::{FileAnswer, Refusal, closing_stands, fields_part};
use tagged::find::next_field;
use tagged::refusals::FILE_DOES_NOT_WALK;

// The file's number in a refusal: it is read alone.
const EVENT_FILE: u8 = 1;

// An event: which call, with what. Book and request are parts of the file, entries and persons their numbers, an amount
// is in cents.
#[derive(Clone, Copy)]
pub enum Event<'a> {
    Accept { book: &'a [u8], request: &'a [u8] },
    PayOut { entry: u32, amount: u64 },
    HandOver { entry: u32, person: u32 },
    Clear { month: u16 },
    Withdraw { entry: u32 },
}

// An event of a file, and the rest of the file after it.
#[derive(Clone, Copy)]
pub struct NextEvent<'a> {
    pub event: Event<'a>,
    pub rest: &'a [u8],
}

// Whether one of these rows has this tag and permits the length.
fn listed(rows: &[Row], tag: u8, len: usize) -> bool
    ensures { result ≡ listed rows.now tag len }
{
    rows.iter()
        .any(|row| row[0] == u16::from(tag) && permitted(row, len))
}

// Whether an accept's book ends within its event.
fn book_ends_within(value: &[u8]) -> bool
    ensures { result ≡ book_ends_within value.now }
{
    let size = value.len();
    2 <= size && usize::from(u16::read(value, 0)) + 2 <= size
}

// Whether a field's tag and length are listed, and an accept's book ends within it.
fn event_stands(tag: u8, value: &[u8]) -> bool
    ensures { result ≡ event_stands tag value.now }
{
    if !listed(&EVENT_ROWS, tag, value.len()) {
        return false;
    }
    tag != ACCEPT || book_ends_within(value)
}

// The event of a field that stands.
fn event_of<'a>(tag: u8, value: &'a [u8]) -> Event<'a>
    requires { event_stands tag value.now ≡ true }
    ensures { EventIs tag value.entry result }
{
    match tag {
        ACCEPT => {
            let end = 2 + usize::from(u16::read(value, 0));
            Event::Accept {
                book: &value[2..end],
                request: &value[end..],
            }
        }
        PAY_OUT => Event::PayOut {
            entry: u32::read(value, 0),
            amount: u64::read(value, 4),
        },
        HAND_OVER => Event::HandOver {
            entry: u32::read(value, 0),
            person: u32::read(value, 4),
        },
        CLEAR => Event::Clear {
            month: u16::read(value, 0),
        },
        _ => Event::Withdraw {
            entry: u32::read(value, 0),
        },
    }
}

// The event that the rest of a file starts with, its book and request and the rest after it as the file's own parts;
// None where no event stands there, as at the end.
pub fn next_event<'a>(rest: &'a [u8]) -> Option<NextEvent<'a>>
    ensures { MatchOption result (front_stands rest.now ≡ false) (λ next. NextEventIs rest.entry next) }
{
    let field = next_field(rest)?;
    if !event_stands(field.tag, field.value) {
        return None;
    }
    Some(NextEvent {
        event: event_of(field.tag, field.value),
        rest: field.rest,
    })
}

// The walk: after an event, the part of the file from its end onward is what the next step sees.
fn walk_events(fields: &[u8]) -> Walked
    ensures { result ≡ walked (events_walk fields.now) }
{
    let mut rest = fields;
    while let Some(next) = next_event(rest) {
        rest = next.rest;
    }
    if rest.len() == 0 {
        return Ok(());
    }
    Err(fields.len() - rest.len())
}

// Whether a file stands as an event file: its last five bytes, its check and its fields.
pub fn events_stand(file: &[u8]) -> FileAnswer
    ensures { result ≡ events_answer file.now }
{
    closing_stands(EVENT_FILE, file)?;
    walk_events(fields_part(file)).map_err(|at| Refusal::of_file(
        FILE_DOES_NOT_WALK,
        EVENT_FILE,
        at,
    ))
}
