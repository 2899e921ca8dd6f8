// The columns of a line.
ghost use Rattle.std.specs.Prelude.{◌≡◌, ◌≤◌, length, true, false};
ghost use Rattle.unit_text.specs.Read.{first_is};
ghost use Rattle.text_lines.specs.Columns.{said_of, is_separator, column_length, closes_from, is_quoted, without_quotes, bare, first_column, behind_column, mark_of, is_comment, is_heading, starts_with_digit, of_columns, in_columns, line_said};

use unit_text::read::trimmed;

/// What a line says.
#[derive(Clone, Copy)]
pub enum Line<'a> {
    /// It is blank, a comment or a heading.
    Nothing,
    /// A quote isn't closed.
    Unclosed,
    /// There are more columns than a name, a value and a note.
    Many,
    /// A name and its value.
    Pair(&'a [u8], &'a [u8]),
}

pub fn is_separator(separator: u8, byte: u8) -> bool
    ensures { result ≡ is_separator separator byte }
{
    if separator == 0 {
        return byte == b',' || byte == b';' || byte == b'\t' || byte == b'=';
    }
    byte == separator
}

// How many bytes stand before the first separator outside quotes; 0 as the separator is any of the four.
#[tactic(auto, using(crate::proofs::Scanning::column_on, crate::proofs::Scanning::column_end, std::proofs::lemmas::Bool::Decides::nat_tests))]
fn column_length(line: &[u8], separator: u8) -> usize
    ensures value { result ≡ column_length separator line.now }
    ensures within { result ≤ length line.now }
{
    let mut quoted = false;
    for (place, byte) in line.iter().enumerate() {
        if *byte == b'"' {
            quoted = !quoted;
        } else if !quoted && is_separator(separator, *byte) {
            return place;
        }
    }
    line.len()
}

#[tactic(auto, using(crate::proofs::Scanning::closes_on, crate::proofs::Scanning::closes_end, std::proofs::lemmas::Bool::Decides::nat_tests))]
fn quotes_close(line: &[u8]) -> bool
    ensures { result ≡ closes_from false line.now }
{
    let mut quoted = false;
    for byte in line {
        if *byte == b'"' {
            quoted = !quoted;
        }
    }
    !quoted
}

fn is_quoted(column: &[u8]) -> bool
    ensures value { result ≡ is_quoted column.now }
    ensures long { result ≡ true → 2 ≤ length column.now }
{
    2 <= column.len() && column[0] == b'"' && column[column.len() - 1] == b'"'
}

fn without_quotes(column: &[u8]) -> &[u8]
    ensures { result.now ≡ without_quotes column.now }
{
    if is_quoted(column) {
        return trimmed(&column[1..column.len() - 1]);
    }
    column
}

// A column without white space about it, and without its quotes.
#[tactic(auto, unfolding(crate::specs::Columns::bare))]
fn bare(column: &[u8]) -> &[u8]
    ensures { result.now ≡ bare column.now }
{
    without_quotes(trimmed(column))
}

fn first_column(separator: u8, line: &[u8]) -> &[u8]
    ensures { result.now ≡ first_column separator line.now }
{
    &line[..column_length(line, separator)]
}

fn behind_column(separator: u8, line: &[u8]) -> &[u8]
    ensures { result.now ≡ behind_column separator line.now }
{
    let length = column_length(line, separator);
    if length == line.len() {
        &line[length..]
    } else {
        &line[length + 1..]
    }
}

// The byte between the first column and what stands behind it; 0 where there is none.
fn mark_of(separator: u8, line: &[u8]) -> u8
    ensures { result ≡ mark_of separator line.now }
{
    let length = column_length(line, separator);
    if length == line.len() {
        0
    } else {
        line[length]
    }
}

fn first_is(text: &[u8], byte: u8) -> bool
    requires { 1 ≤ byte }
    ensures { result ≡ first_is byte text.now }
{
    !text.is_empty() && text[0] == byte
}

#[tactic(auto, unfolding(crate::specs::Columns::is_comment))]
fn is_comment(line: &[u8]) -> bool
    ensures { result ≡ is_comment line.now }
{
    let text = trimmed(line);
    if first_is(text, b'"') {
        return first_is(trimmed(&text[1..]), b'#');
    }
    first_is(text, b'#')
}

fn is_heading(name: &[u8], value: &[u8]) -> bool
    ensures { result ≡ is_heading name.now value.now }
{
    name.eq_ignore_ascii_case(b"name") && value.eq_ignore_ascii_case(b"value")
}

fn starts_with_digit(note: &[u8]) -> bool
    ensures { result ≡ starts_with_digit note.now }
{
    !note.is_empty() && note[0].is_ascii_digit()
}

#[tactic(auto, unfolding(crate::specs::Columns::of_columns))]
fn of_columns<'a>(name: &'a [u8], value: &'a [u8], note: &[u8]) -> Line<'a>
    ensures { said_of result ≡ of_columns name.now value.now note.now }
{
    if name.len() == 0 && value.len() == 0 {
        return Line::Nothing;
    }
    if starts_with_digit(note) {
        return Line::Many;
    }
    if is_heading(name, value) {
        return Line::Nothing;
    }
    Line::Pair(name, value)
}

fn in_columns(separator: u8, line: &[u8]) -> Line<'_>
    ensures { said_of result ≡ in_columns separator line.now }
{
    let mark = mark_of(separator, line);
    let rest = behind_column(separator, line);
    let name = bare(first_column(separator, line));
    let value = bare(first_column(mark, rest));
    of_columns(
        name,
        value,
        bare(first_column(mark, behind_column(mark, rest))),
    )
}

/// What a line says, by a text's separator, or by the first of the four in it where that is 0.
#[tactic(auto, unfolding(crate::specs::Columns::line_said))]
pub fn line_said(separator: u8, line: &[u8]) -> Line<'_>
    ensures { said_of result ≡ line_said separator line.now }
{
    if is_comment(line) {
        return Line::Nothing;
    }
    if !quotes_close(line) {
        return Line::Unclosed;
    }
    in_columns(separator, line)
}
