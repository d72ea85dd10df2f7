// `blocks new`: a formatted blank disk in a file that is not there yet.
use crate::command::number;
use blank::disk::{make_blank, size_of_disk};
use files::fault::FileError;
use files::image::{NAME, argument_error};
use files::program::Program;
use files::word::PATH;
use image::disk::Header;
use std::env::Env;
use std::fs::{Files, OpenOptions};
use std::io::Write;
use std::{fs, io};

// A number that is no byte is out of every range, as 0 is.
fn byte_of(value: u32) -> u8 {
    u8::try_from(value).unwrap_or(0)
}

// The numbers of the disk that is asked for. Each that is none is named.
fn header_asked<R: Env, E: Print>(program: &Program<'_, R, E>) -> Option<Header> {
    let cylinders = number(program, 3);
    let heads = number(program, 4);
    let slots = number(program, 5);
    let n = number(program, 6);
    Some(Header {
        cylinders: byte_of(cylinders?),
        heads: byte_of(heads?),
        slots: byte_of(slots?),
        n: byte_of(n?),
        protect: 0,
    })
}

fn create<R: Files>(rt: &R, name: &str) -> io::Result<R::File> {
    OpenOptions::new()
        .write(true)
        .create_new(true)
        .open(rt, name)
}

// All of it, or no file: one that did not take it is named, and then taken away.
fn put<R: Files, E: Print>(
    program: &Program<'_, R, E>,
    path: &[u8],
    image: &[u8],
) -> Result<(), FileError> {
    let name = str::from_utf8(path)?;
    let mut file = create(program.rt, name)?;
    if file.write_all(image).is_err() {
        program.file_fault(path, FileError::Unwritten);
        let _gone = fs::remove_file(program.rt, name);
    }
    Ok(())
}

fn put_named<R: Files + Env, E: Print>(program: &Program<'_, R, E>, image: &[u8]) {
    let mut path = [0u8; PATH];
    match program.rt.arg(2, &mut path) {
        Ok(n) => {
            if let Err(why) = put(program, &path[..n], image) {
                program.file_fault(&path[..n], why);
            }
        }
        Err(why) => program.system_fault(NAME, argument_error(why)),
    }
}

pub fn make<R: Files + Env, E: Print>(program: &Program<'_, R, E>, image: &mut [u8]) {
    let Some(header) = header_asked(program) else {
        return;
    };
    let size = size_of_disk(header.cylinders, header.heads, header.slots, header.n);
    if size == 0 {
        program.fault(
            b"out of range: cylinders are 1 to 82, heads 1 or 2, sectors 1 to 36, N 1 to 3",
        );
        return;
    }
    let Some(image) = image.get_mut(..size as usize) else {
        program.fault(b"the image would be larger than 2097152 bytes");
        return;
    };
    if 0 < make_blank(image, header, 0xF6) {
        put_named(program, image);
    }
}
