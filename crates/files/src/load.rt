// Bytes read to their end, into a slice that may be longer than they are.
ghost use Rattle.std.specs.Prelude.{◌≤◌, length, IfOk};

use crate::fault::FileError;
use std::io;
use std::io::Read;

// Bytes up to the slice's end or the input's: how many. Not std's way: read_to_end asks for a Vec, and memory is fixed;
// read_exact fails at the input's end.
fn read_full(from: &mut impl Read, bytes: &mut [u8]) -> io::Result<usize>
    ensures { IfOk result (λ n. n ≤ length bytes.new) }
{
    let mut done = 0;
    while done < bytes.len() {
        let n = from.read(&mut bytes[done..])?;
        if n == 0 {
            break;
        }
        done += n;
    }
    Ok(done)
}

// Whether there is one byte more.
fn one_more(from: &mut impl Read) -> io::Result<bool> {
    let mut one = [0u8; 1];
    Ok(0 < from.read(&mut one)?)
}

// How many bytes came; no more are behind them. A count and not the slice of them, here and in `image`: that would be a
// `&mut [u8]` lent on, which each of these functions has to say by a `Lends` clause, longer than the bound.
pub fn load(from: &mut impl Read, bytes: &mut [u8]) -> Result<usize, FileError>
    ensures { IfOk result (λ n. n ≤ length bytes.new) }
{
    let length = read_full(from, bytes)?;
    if one_more(from)? {
        return Err(FileError::Larger);
    }
    Ok(length)
}
