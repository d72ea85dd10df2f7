// Words of the command line.
ghost use Rattle.std.specs.Prelude.{◌≤◌, length};

use std::env::{Env, FillError};

// The bytes of the longest word that is looked at, as long as any path.
pub const PATH: usize = 4096;

// How many words the command line has, the program's own among them.
pub fn argument_count(rt: &impl Env) -> usize {
    let mut none = [0u8; 1];
    (0..usize::MAX)
        .find(|k| matches!(rt.arg(*k, &mut none), Err(FillError::NotPresent)))
        .unwrap_or(usize::MAX)
}

// A word of the command line, put at the start of a slice; without bytes where there is none or it does not fit. No Option: a
// word without bytes is no path, command or number either, so that no caller has another case.
pub fn argument<'a>(rt: &impl Env, k: usize, word: &'a mut [u8]) -> &'a [u8]
    ensures { length result.now ≤ length word.old }
{
    let n = rt.arg(k, word).unwrap_or(0);
    &word[..n]
}
