// 01 Checked examples: a log of port calls from standard input, played on an empty box without ticks. For each call it
// prints the line's number, the value (`--` for a write, `Rn` for refusal n), INT and DRQ. What a line says is decided
// in `log_lines`, what a call answers in `fdc`.
#![tactic(auto)]

use fdc::answer::{Answer, Reply};
use fdc::record::Controller;
use log_lines::gather::Gathered;
use log_lines::hex::letter;
use log_lines::line::Line;
use std::io;
use std::io::Read;

// What a call answered. `answer_text` of `player` says the same bytes, but `player` stands on `script`, a larger
// language of logs, of which nothing else is used here. Each part of a line is handed to standard output by itself.
fn print_value(rt: &impl Print, reply: Reply) -> io::Result<()> {
    match reply {
        Reply::Done => rt.write_all(b"--"),
        Reply::Byte(value) => {
            rt.write_all(&[letter(value / 16)])?;
            rt.write_all(&[letter(value)])
        }
        Reply::Refused(refusal) => {
            rt.write_all(b"R")?;
            rt.write_all(&[letter(u8::from(refusal))])
        }
    }
}

fn print_flag(rt: &impl Print, on: bool) -> io::Result<()> {
    rt.write_all(&[b' ', b'0' + u8::from(on)])
}

// The box, the line that is being read and how many were read before it.
#[derive(Clone, Copy)]
struct Run {
    controller: Controller,
    gathered: Gathered,
    lines: u64,
}

impl Run {
    fn new() -> Run {
        Run {
            controller: Controller::power_on(0, 0).controller,
            gathered: Gathered::new(),
            lines: 0,
        }
    }

    // A call's answer is printed; the record goes on to the next.
    fn answered(&mut self, rt: &impl Print, answer: Answer) -> io::Result<()> {
        self.controller = answer.controller;
        let line = self.lines;
        print!(rt; "{line} ")?;
        print_value(rt, answer.reply)?;
        print_flag(rt, answer.int)?;
        print_flag(rt, answer.drq)?;
        rt.write_all(b"\n")
    }

    // The line's end was met. The count of lines wraps: no input is long enough to show it.
    fn ended(&mut self, rt: &impl Print) -> io::Result<()> {
        self.lines = self.lines.wrapping_add(1);
        let said = self.gathered.line();
        self.gathered = Gathered::new();
        match said {
            Ok(Line::Nothing) => Ok(()),
            Ok(Line::Read(offset)) => self.answered(rt, self.controller.read_port(offset)),
            Ok(Line::Write(offset, byte)) => {
                self.answered(rt, self.controller.write_port(offset, byte))
            }
            Err(what) => {
                let line = self.lines;
                print!(rt; "{line} ")?;
                rt.write_all(b"expected ")?;
                rt.print(what)?;
                rt.write_all(b"\n")
            }
        }
    }

    fn fed(&mut self, rt: &impl Print, bytes: &[u8]) -> io::Result<()> {
        for byte in bytes {
            match *byte {
                b'\n' => self.ended(rt)?,
                byte => self.gathered = self.gathered.add(byte),
            }
        }
        Ok(())
    }

    // Each read in turn, up to the input's end. The bound is one that no run uses up: a loop has to end.
    fn read_all(&mut self, rt: &(impl Input + Print)) -> io::Result<()> {
        let mut from = rt.reader();
        let mut buf = [0u8; 4096];
        for _ in 0..u64::MAX {
            match from.read(&mut buf)? {
                0 => break,
                n => self.fed(rt, &buf[..n])?,
            }
        }
        Ok(())
    }
}

fn main(rt: HostRuntime) -> io::Result<()> {
    println!(rt; "line value int drq")?;
    let mut run = Run::new();
    run.read_all(&rt)?;
    // A last line without a line end.
    if run.gathered.length > 0 {
        run.ended(&rt)?;
    }
    Ok(())
}
