// Reading files, and the line of one that is refused, for the programs.
#![tactic(auto)]

pub mod refused;

ghost use Rattle.std.specs.Prelude.{◌≡◌, [], IfOk};
ghost use Rattle.std.specs.Str.{IsUtf8};
ghost use Rattle.std.specs.Counts.{IsPrefixLen};

use arrayvec::ArrayVec;
use std::convert::AsSlice;
use std::io::Read;
use std::rt::Files;
use std::{fs, io};

// Reads until the buffer is full or the input ends: how many bytes stand at its start. `read_exact`
// would say nothing of these where the input ends early.
fn read_all(file: &mut impl Read, space: &mut [u8]) -> io::Result<usize>
    ensures { IfOk result (λ size. IsPrefixLen size space.new) }
{
    let mut size = 0;
    while size < space.len() {
        let more = file.read(&mut space[size..])?;
        if more == 0 {
            break;
        }
        size += more;
    }
    Ok(size)
}

// The bytes of a file at the start of the buffer, as many as fit, and how many. A file that can't be
// read counts as empty, and so does one whose name is no UTF-8.
// So a count and no error: no program tells such a file from an empty one.
pub fn read_file(files: &impl Files, name: &[u8], space: &mut [u8]) -> usize
    ensures within { IsPrefixLen result space.new }
    ensures no_name { ¬ IsUtf8 name.now → result ≡ 0 }
{
    let Ok(path) = str::from_utf8(name) else {
        return 0;
    };
    let Ok(mut file) = fs::open(files, path) else {
        return 0;
    };
    read_all(&mut file, space).unwrap_or(0)
}

// The first bytes of a file, as many as `MOST`. A file that can't be read counts as empty.
// Which bytes a file holds, the library's contracts don't say, and so no clause can: the clause is of a name that no file has.
pub fn read_start<const MOST: usize, N: AsSlice<u8> + Drop>(
    files: &impl Files,
    name: N,
) -> ArrayVec<u8, MOST>
    ensures { ¬ IsUtf8 (N.items name) → result.items ≡ [] }
{
    let mut bytes = ArrayVec::from([0u8; MOST]);
    let size = read_file(files, name.as_slice(), bytes.as_mut_slice());
    bytes.truncate(size);
    bytes
}

#[cfg(test)]
mod tests {
    use super::*;
    use std::test::Fail;

    #[test]
    fn as_many_as_fit(rt: HostRuntime) -> Result<(), Fail> {
        fs::write(&rt, "letters.txt", "abcdef")?;
        let some: ArrayVec<u8, 4> = read_start(&rt, "letters.txt");
        assert_eq!(rt; some.as_slice(), b"abcd".as_slice());
        let missing: ArrayVec<u8, 4> = read_start(&rt, "missing.txt");
        assert!(rt; missing.is_empty());
        Ok(())
    }
}
