// The command line: a word for what is to be done, an image, and numbers.
use files::fault::fault;
use files::program::Program;
use files::word::{PATH, argument, argument_count};
use log_lines::words::Word;
use script::decimal::decimal_in;
use std::env::Env;

#[derive(Clone, Copy)]
pub enum Command {
    New,
    Count,
    Read,
    Write,
    Export,
    Import,
}

impl Command {
    // How many words its line has, the program's own among them.
    fn words(self) -> usize {
        match self {
            Command::New => 7,
            Command::Read | Command::Write => 4,
            Command::Count | Command::Export | Command::Import => 3,
        }
    }
}

fn command_in(word: &[u8]) -> Option<Command> {
    match word {
        b"new" => Some(Command::New),
        b"count" => Some(Command::Count),
        b"read" => Some(Command::Read),
        b"write" => Some(Command::Write),
        b"export" => Some(Command::Export),
        b"import" => Some(Command::Import),
        _ => None,
    }
}

// The command of the line that the program was called by, where it has its words.
pub fn asked(rt: &impl Env) -> Option<Command> {
    let mut word = [0u8; PATH];
    command_in(argument(rt, 1, &mut word)).filter(|command| command.words() == argument_count(rt))
}

pub fn usage(err: &impl Print) {
    fault(err, b"usage: blocks new IMAGE CYLINDERS HEADS SECTORS N\n");
    fault(err, b"       blocks count IMAGE\n");
    fault(err, b"       blocks read IMAGE BLOCK\n");
    fault(err, b"       blocks write IMAGE BLOCK\n");
    fault(err, b"       blocks export IMAGE\n");
    fault(err, b"       blocks import IMAGE\n");
}

// The number that an argument says; what is none is named.
pub fn number<R: Env, E: Print>(program: &Program<'_, R, E>, k: usize) -> Option<u32> {
    let mut word = [0u8; PATH];
    let text = argument(program.rt, k, &mut word);
    let number = decimal_in(
        text,
        Word {
            start: 0,
            stop: text.len(),
        },
    );
    if number.is_none() {
        program.argument_fault(k, b"expected a decimal number below 1000000000");
    }
    number
}
