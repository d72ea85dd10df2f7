// Blocks of the image in drive 0, one after the other on one record: each is what the block service answers. The other
// drive is empty.
use crate::status::named;
use block::request::{read_block, write_block};
use fdc::record::Controller;
use files::program::Program;
use std::io;
use std::ops::Range;

// A block to standard output: of a bad one the bytes that came, then zeros, so that those behind keep their offsets.
// The record after it.
fn read_one<R: Print, E: Print>(
    program: &Program<'_, R, E>,
    controller: Controller,
    image: &mut [u8],
    block: u32,
    out: &mut [u8],
) -> io::Result<Controller> {
    out.fill(0);
    let served = read_block(controller, image, &mut [], 0, block, out);
    named(program.err, block, served.reply);
    program.rt.write_all(out)?;
    Ok(served.controller)
}

// The blocks in order, as long as standard output takes them; `out` is as long as one.
pub fn read_from<R: Print, E: Print>(
    program: &Program<'_, R, E>,
    image: &mut [u8],
    blocks: Range<u32>,
    out: &mut [u8],
) -> io::Result<()> {
    let mut controller = Controller::power_on(0, 0).controller;
    for block in blocks {
        controller = read_one(program, controller, image, block, out)?;
    }
    Ok(())
}

// The other way, each with its bytes, as far as there are any: it cannot fail, so one function for both is no plainer.
pub fn write_from(
    err: &impl Print,
    image: &mut [u8],
    blocks: Range<u32>,
    size: usize,
    bytes: &[u8],
) {
    if size == 0 {
        return;
    }
    let mut controller = Controller::power_on(0, 0).controller;
    for (block, bytes) in blocks.zip(bytes.chunks_exact(size)) {
        let served = write_block(controller, image, &mut [], 0, block, bytes);
        controller = served.controller;
        named(err, block, served.reply);
    }
}
