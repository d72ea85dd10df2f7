// An image file: opened, and read whole.
ghost use Rattle.std.specs.Prelude.{◌≡◌, ◌≤◌, length, None, IfOk, IfSome};

use crate::fault::FileError;
use crate::load::load;
use crate::program::Program;
use crate::word::PATH;
use std::env::{Env, FillError};
use std::fs::{Files, OpenOptions};
use std::io;
use std::io::Read;

// An image's file, if it has one, and how many bytes it has.
#[derive(Drop)]
pub struct Image<F> {
    pub file: Option<F>,
    pub length: usize,
}

impl<F> Image<F> {
    pub fn none() -> Image<F>
        ensures file { result.file ≡ None }
        ensures length { result.length ≡ 0 }
    {
        Image {
            file: None,
            length: 0,
        }
    }
}

// What an image is called whose name could not be had.
pub const NAME: &[u8] = b"the name of an image";

// The most bytes of an image, 2 MiB: fixed memory, since a Vec could fail for want of it.
pub fn image_buffer() -> [u8; 2097152]
    ensures { 2097152 ≡ length result }
{
    [0; 2097152]
}

// A file that is only read need not be one that may be written.
fn open<R: Files>(rt: &R, path: &str, update: bool) -> io::Result<R::File> {
    OpenOptions::new().read(true).write(update).open(rt, path)
}

fn opened<R: Files>(
    rt: &R,
    path: &[u8],
    update: bool,
    bytes: &mut [u8],
) -> Result<Image<R::File>, FileError>
    ensures { IfOk result (λ i. i.length ≤ length bytes.new) }
{
    let mut file = open(rt, str::from_utf8(path)?, update)?;
    let length = load(&mut file, bytes)?;
    Ok(Image {
        file: Some(file),
        length,
    })
}

// Why a word of the command line names no file, as the system says it: EINVAL, ENAMETOOLONG.
pub fn argument_error(why: FillError) -> io::Error {
    match why {
        FillError::NotPresent => io::Error::from_raw_os_error(22),
        FillError::TooLong => io::Error::from_raw_os_error(36),
    }
}

impl<R: Files + Env, E: Print> Program<'_, R, E> {
    // The image that an argument names, to be read alone or to be written back too. Where there is none, it is said
    // why.
    pub fn image_of(&self, k: usize, update: bool, bytes: &mut [u8]) -> Option<Image<R::File>>
        ensures { IfSome result (λ i. i.length ≤ length bytes.new) }
    {
        let mut path = [0u8; PATH];
        match self.rt.arg(k, &mut path) {
            Ok(n) => opened(self.rt, &path[..n], update, bytes)
                .inspect_err(|why| self.file_fault(&path[..n], *why))
                .ok(),
            Err(why) => {
                self.system_fault(NAME, argument_error(why));
                None
            }
        }
    }
}
