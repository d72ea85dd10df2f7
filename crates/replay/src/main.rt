// A log from standard input, played on the box with the disks of up to two image files (arguments; `-` or none: an
// empty drive). For each call it prints the line's number, the value (`--` where nothing is read, `Rn` for refusal n),
// INT and DRQ; a value that is not the one recorded is marked (` != BYTE`), and where any was recorded a last line
// counts calls, refusals and differences. `t N` is one call here: its line is the last tick's. What the ticks stored is
// then written back to the files, only where bytes changed, wherever the log ends. A malformed line ends the run: what
// was played before it is kept. What a line says is decided in `script`, what a call does in `player` and `fdc`.
#![tactic(auto)]

mod drives;
mod input;
mod output;
mod run;

use drives::{image_in, twice};
use files::image::{Image, image_buffer};
use files::program::Program;
use files::word::argument_count;
use output::Output;
use run::play_lines;
use std::env::Env;
use std::fs::Files;

// The log from standard input, played to standard output.
fn play_input<R: Input + Print, E: Print>(program: &Program<'_, R, E>, a: &mut [u8], b: &mut [u8]) {
    let mut out = Output::new(program.rt);
    out.text(b"line value int drq\n");
    if let Err(why) = play_lines(program.rt.reader(), &mut out, program.err, a, b) {
        program.system_fault(b"standard input", why);
    }
    if out.written().is_err() {
        program.output_fault();
    }
}

// An image stands beside its bytes, and they are two slices: the buffers are main's, made once, and `called` of
// `player` is lent both as 01's tick is.
fn play<R: Files + Env + Input + Print, E: Print>(
    program: &Program<'_, R, E>,
    first: Image<R::File>,
    second: Image<R::File>,
    a: &mut [u8],
    b: &mut [u8],
) {
    play_input(program, a, b);
    program.kept(1, first.file, a);
    program.kept(2, second.file, b);
}

// Nothing is played where an image cannot be had.
fn play_files<R: Files + Env + Input + Print, E: Print>(
    program: &Program<'_, R, E>,
    a: &mut [u8],
    b: &mut [u8],
) {
    if 3 < argument_count(program.rt) {
        program.fault(b"at most two images");
        return;
    }
    if twice(program.rt) {
        program.fault(b"the same image is named twice");
        return;
    }
    if let (Some(first), Some(second)) = (image_in(program, 1, a), image_in(program, 2, b)) {
        // The images are as long as their files.
        let n = first.length;
        let m = second.length;
        play(program, first, second, &mut a[..n], &mut b[..m]);
    }
}

fn main(rt: HostRuntime) {
    let err = rt.stderr();
    let mut a = image_buffer();
    let mut b = image_buffer();
    let program = Program {
        rt: &rt,
        err: &err,
        name: b"replay",
    };
    play_files(&program, &mut a, &mut b);
}
