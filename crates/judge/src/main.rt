// The judge of image files (02 2026-04), `judge FILE ..`: a line for each file, sound or the first fault. Files are only
// read. One that cannot be had, or is larger than 2,097,152 bytes, is named on standard error, and the rest are judged.
// What is wrong and where is decided in `judging`.
#![tactic(auto)]

mod report;

use files::fault::fault;
use files::image::image_buffer;
use files::program::Program;
use files::word::argument_count;
use report::report;
use std::env::Env;
use std::fs::Files;
use std::io;

fn judge_file<R: Files + Env + Print, E: Print>(
    program: &Program<'_, R, E>,
    k: usize,
    bytes: &mut [u8],
) -> io::Result<()> {
    if let Some(file) = program.image_of(k, false, bytes) {
        report(program.rt, k, &bytes[..file.length])?;
    }
    Ok(())
}

// Whether each line was taken: one that was not keeps no other file from being judged.
fn judge_files<R: Files + Env + Print, E: Print>(
    program: &Program<'_, R, E>,
    count: usize,
    bytes: &mut [u8],
) -> bool {
    let mut whole = true;
    for k in 1..count {
        if judge_file(program, k, bytes).is_err() {
            whole = false;
        }
    }
    whole
}

fn main(rt: HostRuntime) {
    let err = rt.stderr();
    let count = argument_count(&rt);
    if count < 2 {
        fault(&err, b"usage: judge FILE ..\n");
        return;
    }
    let mut bytes = image_buffer();
    let program = Program {
        rt: &rt,
        err: &err,
        name: b"judge",
    };
    if !judge_files(&program, count, &mut bytes) {
        program.output_fault();
    }
}
