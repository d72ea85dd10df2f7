// What is wrong, on standard error. What cannot be written there is lost. A path is printed by its bytes, which need
// not be text.
ghost use Rattle.std.specs.Prelude.{◌≡◌, ◌≤◌, length};
ghost use Rattle.files.specs.declared.fault.FileError.TheVariants.{NotUtf8, Io};

use crate::program::Program;
use crate::word::{PATH, argument};
use std::env::Env;
use std::io;
use std::io::Write;
use std::str::Utf8Error;

// What is wrong with a file.
#[derive(Clone, Copy)]
pub enum FileError {
    // Its name is no text, and no file is opened by it.
    NotUtf8,
    // It has more bytes than there is room for.
    Larger,
    // It did not take all that was written.
    Unwritten,
    // The system's words.
    Io(io::Error),
}

impl From<Utf8Error> for FileError {
    ghost from_gives = { λ _ e. e ≡ NotUtf8 };

    fn from(_why: Utf8Error) -> FileError {
        Self::NotUtf8
    }
}

impl From<io::Error> for FileError {
    ghost from_gives = { λ why e. e ≡ Io why };

    fn from(why: io::Error) -> FileError {
        Self::Io(why)
    }
}

// How long a text is in front of the system's number of an error, which std writes behind it, and of the zeros that
// fill the rest.
fn words(text: &[u8]) -> usize
    ensures { result ≤ length text.now }
{
    (0..text.len())
        .find(|i| text[*i] == 0 || text[*i..].starts_with(b" (os error "))
        .unwrap_or(text.len())
}

pub fn fault(err: &impl Print, text: &[u8]) {
    let _written = err.write_all(text);
}

// Each by the program's name.
impl<R, E: Print> Program<'_, R, E> {
    pub fn fault(&self, what: &[u8]) {
        for part in [self.name, b": ", what, b"\n"] {
            fault(self.err, part);
        }
    }

    // That standard output did not take all that was written there.
    pub fn output_fault(&self) {
        self.fault(b"standard output could not be written");
    }

    // What is wrong with a file, by its name.
    pub fn name_fault(&self, path: &[u8], what: &[u8]) {
        for part in [self.name, b": ", path, b": ", what, b"\n"] {
            fault(self.err, part);
        }
    }

    // What the system says of a call that failed.
    pub fn system_fault(&self, path: &[u8], why: io::Error) {
        let mut text = [0u8; 320];
        let mut room: &mut [u8] = &mut text;
        let _whole = write!(room, "{why}");
        let n = words(&text);
        self.name_fault(path, &text[..n]);
    }

    pub fn file_fault(&self, path: &[u8], why: FileError) {
        match why {
            FileError::NotUtf8 => self.name_fault(path, b"a name that is not UTF-8"),
            FileError::Larger => self.name_fault(path, b"larger than 2097152 bytes"),
            FileError::Unwritten => self.name_fault(path, b"could not be written"),
            FileError::Io(why) => self.system_fault(path, why),
        }
    }
}

impl<R: Env, E: Print> Program<'_, R, E> {
    // What is wrong with the file that an argument names.
    pub fn argument_fault(&self, k: usize, what: &[u8]) {
        let mut path = [0u8; PATH];
        self.name_fault(argument(self.rt, k, &mut path), what);
    }
}
