// An image written back to its file, only where its bytes changed.
use crate::program::Program;
use script::change::stretch_end;
use std::env::Env;
use std::io;
use std::io::{ErrorKind, Read, Seek, SeekFrom, Write};
use std::ops::Range;

// Past the largest image nothing is written: EFBIG.
fn put(file: &mut (impl Write + Seek), at: usize, bytes: &[u8]) -> io::Result<()> {
    if at <= 2097152 {
        file.seek(SeekFrom::Start(at as u64))?;
        return file.write_all(bytes);
    }
    Err(io::Error::from_raw_os_error(27))
}

// A stretch of a part that stands at a place of the file.
fn put_part(
    file: &mut (impl Write + Seek),
    at: usize,
    new: &[u8],
    stretch: Range<usize>,
) -> io::Result<()> {
    if !stretch.is_empty() && stretch.end <= new.len() && at <= 2097152 {
        return put(file, at + stretch.start, &new[stretch]);
    }
    Ok(())
}

// Where a part of the file and of the image differ, the image's bytes are written. Each turn passes a byte at least, or
// the image is over; it goes on behind the stretch that it wrote, so no `for`.
fn keep_part(file: &mut (impl Write + Seek), at: usize, old: &[u8], new: &[u8]) -> io::Result<()> {
    let mut i = 0;
    while i < old.len() {
        let start = stretch_end(old, new, i, true);
        let stop = stretch_end(old, new, start, false);
        if stop <= i {
            break;
        }
        put_part(file, at, new, start..stop)?;
        i = stop;
    }
    Ok(())
}

// A part of the file that stands at a place of it: how many bytes were looked at and kept, 0 at the file's end and past
// the largest image. No Option: 0 is what `read` says at an end, and keep_all would take the Option apart at once.
fn keep_some(file: &mut (impl Read + Write + Seek), at: usize, new: &[u8]) -> io::Result<usize> {
    if 2097152 < at {
        return Ok(0);
    }
    let mut old = [0u8; 4096];
    file.seek(SeekFrom::Start(at as u64))?;
    let n = file.read(&mut old)?;
    keep_part(file, at, &old[..n], new)?;
    Ok(n)
}

// A file that has become shorter than the image is not kept. Each turn goes on by what a read brought, so no `for`.
fn keep_all(file: &mut (impl Read + Write + Seek), image: &[u8]) -> io::Result<()> {
    let mut at = 0;
    while at < image.len() {
        let n = keep_some(file, at, &image[at..])?;
        if n == 0 {
            return Err(ErrorKind::UnexpectedEof.into());
        }
        at += n.min(image.len() - at);
    }
    Ok(())
}

impl<R: Env, E: Print> Program<'_, R, E> {
    // The image that the argument names, written back where its bytes changed; its file is then closed.
    pub fn kept<F: Read + Write + Seek + Drop>(&self, k: usize, file: Option<F>, image: &[u8]) {
        let Some(mut file) = file else {
            return;
        };
        if keep_all(&mut file, image).is_err() {
            self.argument_fault(k, b"could not be written back");
        }
    }
}
