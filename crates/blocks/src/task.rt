// What is done with the blocks of an image file.
use crate::serve::{read_from, write_from};
use crate::status::past_end;
use block::place::{blocks_in, bytes_in};
use files::fault::{FileError, fault};
use files::load::load;
use files::program::Program;
use std::env::Env;
use std::fs::Files;
use std::io;
use std::ops::Range;

#[derive(Clone, Copy)]
pub enum Task {
    Count,
    Read(u32),
    Write(u32),
    Export,
    Import,
}

impl Task {
    // Whether it may change the image.
    fn updates(self) -> bool {
        matches!(self, Task::Write(_) | Task::Import)
    }
}

// Whether standard input is exactly as long as the slice; its bytes.
fn input<R: Input, E: Print>(program: &Program<'_, R, E>, bytes: &mut [u8]) -> bool {
    let wanted = bytes.len();
    match load(&mut program.rt.reader(), bytes) {
        Ok(length) if length == wanted => true,
        Ok(_) | Err(FileError::Larger) => {
            fault(program.err, b"blocks: standard input: expected exactly ");
            let _written = program.err.print(wanted);
            fault(program.err, b" bytes\n");
            false
        }
        Err(why) => {
            program.file_fault(b"standard input", why);
            false
        }
    }
}

// The buffer is longer than any block.
fn read<R: Print, E: Print>(
    program: &Program<'_, R, E>,
    image: &mut [u8],
    blocks: Range<u32>,
    bytes: &mut [u8],
) -> io::Result<()> {
    let size = bytes_in(image) as usize;
    match bytes.get_mut(..size) {
        Some(out) => read_from(program, image, blocks, out),
        None => Ok(()),
    }
}

#[tactic(auto, using(image::proofs::LayoutLaws::product_le))]
fn write<R: Input, E: Print>(
    program: &Program<'_, R, E>,
    image: &mut [u8],
    blocks: Range<u32>,
    bytes: &mut [u8],
) {
    let size = bytes_in(image) as usize;
    let total = blocks.len() * size;
    if let Some(bytes) = bytes.get_mut(..total) {
        if input(program, bytes) {
            write_from(program.err, image, blocks, size, bytes);
        }
    }
}

fn perform<R: Env + Input + Print, E: Print>(
    program: &Program<'_, R, E>,
    task: Task,
    image: &mut [u8],
    bytes: &mut [u8],
) -> io::Result<()> {
    let count = blocks_in(image);
    if count == 0 {
        program.argument_fault(2, b"no image: its header or its length does not fit");
        return Ok(());
    }
    match task {
        Task::Count => return program.rt.println(count),
        Task::Read(block) if block < count => {
            return read(program, image, block..block + 1, bytes);
        }
        Task::Write(block) if block < count => write(program, image, block..block + 1, bytes),
        Task::Read(block) | Task::Write(block) => past_end(program.err, block, count),
        Task::Export => return read(program, image, 0..count, bytes),
        Task::Import => write(program, image, 0..count, bytes),
    }
    Ok(())
}

// The image that the second word names, with both buffers as long as the largest: fixed memory, made once. It is
// written back where its bytes changed.
pub fn with_image<R: Files + Env + Input + Print, E: Print>(
    program: &Program<'_, R, E>,
    task: Task,
    image: &mut [u8],
    bytes: &mut [u8],
) {
    let Some(found) = program.image_of(2, task.updates(), image) else {
        return;
    };
    let image = &mut image[..found.length];
    if perform(program, task, image, bytes).is_err() {
        program.output_fault();
    }
    if task.updates() {
        program.kept(2, found.file, image);
    }
}
