// The lines of a text, and what bytes that are no text are.
ghost use Rattle.std.specs.Prelude.{◌≡◌, ◌≤◌, ◌<◌, length};
ghost use Rattle.text_lines.specs.Lines.{has_zero, form_of, without_mark, without_return, first_line, behind_line, separator_said};

use crate::columns::is_separator;
use unit_text::figure::length_before;

/// What the bytes of a text are.
#[derive(Clone, Copy)]
pub enum Form {
    Utf8,
    Utf16,
    /// A zip, as a spreadsheet's own file is.
    Zip,
    /// Bytes of 0, which no text has.
    Binary,
}

fn has_zero(text: &[u8]) -> bool
    ensures { result ≡ has_zero text.now }
{
    length_before(text, 0) < text.len()
}

/// What the bytes are.
#[tactic(auto, unfolding(crate::specs::Lines::form_of))]
pub fn form_of(text: &[u8]) -> Form
    ensures { result ≡ form_of text.now }
{
    if text.starts_with(&[80, 75, 3, 4]) {
        return Form::Zip;
    }
    if text.starts_with(&[255, 254]) || text.starts_with(&[254, 255]) {
        return Form::Utf16;
    }
    if has_zero(text) {
        Form::Binary
    } else {
        Form::Utf8
    }
}

/// A text without the UTF-8 mark before it.
#[tactic(auto, unfolding(crate::specs::Lines::without_mark))]
pub fn without_mark(text: &[u8]) -> &[u8]
    ensures { result.now ≡ without_mark text.now }
{
    if text.len() >= 3 && text.starts_with(&[239, 187, 191]) {
        return &text[3..];
    }
    text
}

fn without_return(line: &[u8]) -> &[u8]
    ensures { result.now ≡ without_return line.now }
{
    if !line.is_empty() && line[line.len() - 1] == b'\r' {
        return &line[..line.len() - 1];
    }
    line
}

/// The first line of a text, without its end.
#[tactic(auto, unfolding(crate::specs::Lines::first_line))]
pub fn first_line(text: &[u8]) -> &[u8]
    ensures { result.now ≡ first_line text.now }
{
    without_return(&text[..length_before(text, b'\n')])
}

/// The lines behind it.
#[tactic(auto, unfolding(crate::specs::Lines::behind_line))]
pub fn behind_line(text: &[u8]) -> &[u8]
    ensures value { result.now ≡ behind_line text.now }
    ensures shorter { 1 ≤ length text.now → length result.now < length text.now }
{
    let length = length_before(text, b'\n');
    if length == text.len() {
        &text[length..]
    } else {
        &text[length + 1..]
    }
}

/// The separator that a line says is that of the text; 0 where it says none.
#[tactic(auto, unfolding(crate::specs::Lines::separator_said))]
pub fn separator_said(line: &[u8]) -> u8
    ensures { result ≡ separator_said line.now }
{
    if line.len() == 5 && line[..4].eq_ignore_ascii_case(b"sep=") && is_separator(0, line[4]) {
        return line[4];
    }
    0
}
