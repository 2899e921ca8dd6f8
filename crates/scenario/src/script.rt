ghost use Rattle.std.specs.Prelude.{◌≤◌};

// A line of the script. The script is bytes, and every line of it says something.
#[derive(Clone, Copy)]
pub enum Line<'a> {
    // `-- TEXT`
    Heading,
    // `accept REQUEST by BOOK`
    Accept { request: &'a [u8], book: &'a [u8] },
    // `pay-out ENTRY AMOUNT`
    PayOut { entry: u32, amount: u64 },
    // `hand-over ENTRY PERSON`
    HandOver { entry: u32, person: u32 },
    // `clear MONTH`
    Clear(u16),
    // `read FILE`
    Read(&'a [u8]),
    // `write to SIZE bytes`
    Write(usize),
    // `over and back`: the stored form written, read back and written again
    OverAndBack,
    // `new`: a new ledger with no entries
    New,
    // `table ROOM`: a table of so many records
    Table(usize),
    // `month MONTH` and `count ENTRIES`: a ledger that need not be sound
    Month(u16),
    Count(u32),
    // `keep`, and `back` to what was kept
    Keep,
    Back,
    // `show`, `figures`, `record PLACE`: what ledger and table hold
    Show,
    Figures,
    Record(usize),
}

// What stands before the first blank, and what after it: nothing where there is none.
fn cut(text: &[u8]) -> (&[u8], &[u8]) {
    let mut parts = text.splitn(2, |byte| *byte == b' ');
    let word = parts.next().unwrap_or(b"");
    let rest = parts.next().unwrap_or(b"");
    (word, rest)
}

fn with_digit(n: u32, byte: u8) -> u32
    ensures { result ≤ 999999999 }
{
    if 99_999_999 < n {
        return 0;
    }
    n * 10 + char::from(byte).to_digit(10).unwrap_or(0)
}

// A number of at most nine decimal digits: one more makes it 0, and any byte that is no digit counts as the digit 0.
fn number(digits: &[u8]) -> u32
    ensures { result ≤ 999999999 }
{
    let mut n = 0;
    for byte in digits {
        n = with_digit(n, *byte);
    }
    n
}

fn month(digits: &[u8]) -> u16 {
    (number(digits) % 65_536) as u16
}

impl<'a> Line<'a> {
    // By the first letter, but for the words `clear` and `record`, which begin as `count` and `read` do. A line that begins with none of the letters, an
    // empty one too, is `over and back`.
    pub fn parse(line: &'a [u8]) -> Line<'a> {
        let (word, rest) = cut(line);
        let (first, after_first) = cut(rest);
        if word == b"clear".as_slice() {
            return Line::Clear(month(rest));
        }
        if word == b"record".as_slice() {
            return Line::Record(number(rest) as usize);
        }
        match line.first().copied().unwrap_or(0) {
            b'-' => Line::Heading,
            b'a' => {
                let (_, book) = cut(after_first);
                Line::Accept {
                    request: first,
                    book,
                }
            }
            b'p' => Line::PayOut {
                entry: number(first),
                amount: u64::from(number(after_first)),
            },
            b'h' => Line::HandOver {
                entry: number(first),
                person: number(after_first),
            },
            b'r' => Line::Read(rest),
            b'w' => {
                let (size, _) = cut(after_first);
                Line::Write(number(size) as usize)
            }
            b'n' => Line::New,
            b't' => Line::Table(number(rest) as usize),
            b'm' => Line::Month(month(rest)),
            b'c' => Line::Count(number(rest)),
            b'k' => Line::Keep,
            b'b' => Line::Back,
            b's' => Line::Show,
            b'f' => Line::Figures,
            b'e' => Line::Record(number(rest) as usize),
            _ => Line::OverAndBack,
        }
    }
}

#[cfg(test)]
mod tests {
    use super::*;

    #[test]
    fn first_letters_tell(rt: HostRuntime) {
        for line in [b"".as_slice(), b"xyz", b"\r", b"\xe9", b" show", b"Show"] {
            assert!(rt; matches!(Line::parse(line), Line::OverAndBack), "{line:?}");
        }
        assert!(rt; matches!(Line::parse(b"- caf\xe9"), Line::Heading));
        assert!(rt; matches!(Line::parse(b"s"), Line::Show));
        assert!(rt; matches!(Line::parse(b"back2\r"), Line::Back));
        assert!(rt; matches!(Line::parse(b"counted 3"), Line::Count(3)));
        assert!(rt; matches!(Line::parse(b"clear 3"), Line::Clear(3)));
        assert!(rt; matches!(Line::parse(b"clearing 3"), Line::Count(3)));
        assert!(rt; matches!(Line::parse(b"record 3"), Line::Record(3)));
        assert!(rt; matches!(Line::parse(b"entry 3"), Line::Record(3)));
        assert!(rt; matches!(Line::parse(b"records 3"), Line::Read(b"3")));
    }

    #[test]
    fn words_may_be_missing(rt: HostRuntime) {
        assert!(rt;
            matches!(
                Line::parse(b"accept a by b c\r"),
                Line::Accept {
                    request: b"a",
                    book: b"b c\r"
                }
            )
        );
        assert!(rt;
            matches!(
                Line::parse(b"accept a"),
                Line::Accept {
                    request: b"a",
                    book: b""
                }
            )
        );
        assert!(rt;
            matches!(
                Line::parse(b"pay-out 1"),
                Line::PayOut {
                    entry: 1,
                    amount: 0
                }
            )
        );
        assert!(rt;
            matches!(
                Line::parse(b"hand-over 1 4294967295"),
                Line::HandOver {
                    entry: 1,
                    person: 0
                }
            )
        );
        assert!(rt; matches!(Line::parse(b"write to 100"), Line::Write(100)));
        assert!(rt; matches!(Line::parse(b"month 70000"), Line::Month(4_464)));
    }

    #[test]
    fn numbers_have_nine_digits(rt: HostRuntime) {
        for (digits, n) in [
            (b"".as_slice(), 0),
            (b"0000000000012", 12),
            (b"999999999", 999_999_999),
            (b"1000000000", 0),
            (b"12345678901", 1),
            (b"1x2", 102),
            (b"12\r", 120),
        ] {
            assert_eq!(rt; number(digits), n, "{digits:?}");
        }
    }
}
