// An image file as a row of blocks (02 2026-01): `new` makes a blank disk, `count` says how many blocks an image has,
// `read` and `write` move one between it and standard output or input, `export` and `import` all. Each block passes
// through the controller, by the block service. Only what is wrong is said on standard error. An image is written back
// only where its bytes changed.
#![tactic(auto)]

mod command;
mod make;
mod serve;
mod status;
mod task;

use command::{Command, asked, number, usage};
use files::image::image_buffer;
use files::program::Program;
use make::make;
use std::env::Env;
use std::fs::Files;
use task::{Task, with_image};

fn obey<R: Files + Env + Input + Print, E: Print>(
    program: &Program<'_, R, E>,
    command: Command,
    image: &mut [u8],
    bytes: &mut [u8],
) {
    let task = match command {
        Command::New => return make(program, image),
        Command::Count => Some(Task::Count),
        Command::Read => number(program, 3).map(|block| Task::Read(block)),
        Command::Write => number(program, 3).map(|block| Task::Write(block)),
        Command::Export => Some(Task::Export),
        Command::Import => Some(Task::Import),
    };
    if let Some(task) = task {
        with_image(program, task, image, bytes);
    }
}

fn main(rt: HostRuntime) {
    let err = rt.stderr();
    let mut image = image_buffer();
    let mut bytes = image_buffer();
    let program = Program {
        rt: &rt,
        err: &err,
        name: b"blocks",
    };
    match asked(&rt) {
        Some(command) => obey(&program, command, &mut image, &mut bytes),
        None => usage(&err),
    }
}
