// The run: lines are gathered from standard input, their calls made and their answers printed.
use crate::input::Lines;
use crate::output::Output;
use fdc::answer::Answer;
use fdc::record::Controller;
use files::fault::fault;
use player::shown::{answer_text, differs, mark_text, refused};
use player::turn::called;
use script::line::{Expected, Line, gathered_line};
use script::tally::Tally;
use std::io;
use std::io::Read;

// What cannot be written there is lost; each part is tried, whatever became of the one before.
fn print_expected(err: &impl Print, line: u64, what: Expected) {
    fault(err, b"replay: line ");
    let _written = err.print(line);
    fault(err, b": expected ");
    let _written = err.print(what);
    fault(err, b"; nothing after it is played\n");
}

// The box, and what was counted.
#[derive(Clone, Copy)]
struct Run {
    controller: Controller,
    tally: Tally,
}

impl Run {
    // A log that does not begin with power-on finds the heads at 0.
    fn new() -> Run {
        Run {
            controller: Controller::power_on(0, 0).controller,
            tally: Tally::new(),
        }
    }

    // The answer to a line's call is printed and counted. A recorded value is compared, and marked where it differs.
    fn answered<P: Print>(
        &mut self,
        out: &mut Output<'_, P>,
        number: u64,
        line: Line,
        answer: Answer,
    ) {
        self.controller = answer.controller;
        self.tally = self.tally.called(refused(answer.reply));
        out.show(number);
        out.text(&answer_text(answer.reply, answer.int, answer.drq));
        if let Line::Recorded(_, byte) = line {
            let other = differs(answer.reply, byte);
            if other {
                out.text(&mark_text(byte));
            }
            self.tally = self.tally.compared(other);
        }
        out.text(b"\n");
    }
}

// Each line in turn, up to the last, or to one that is malformed; how the last read went. The bound is one that no run
// uses up: a loop has to end.
pub fn play_lines<P: Print>(
    from: impl Read + Drop,
    out: &mut Output<'_, P>,
    err: &impl Print,
    a: &mut [u8],
    b: &mut [u8],
) -> io::Result<()> {
    let mut lines = Lines::new(from);
    let mut run = Run::new();
    for number in 1..=u64::MAX {
        match gathered_line(lines.line()) {
            Ok(Line::Nothing) => {}
            Ok(line) => {
                let answer = called(run.controller, Ok(line), a, b);
                run.answered(out, number, line, answer);
            }
            Err(what) => {
                print_expected(err, number, what);
                break;
            }
        }
        if lines.end().is_some() {
            break;
        }
    }
    if run.tally.recorded {
        out.text(b"calls ");
        out.show(run.tally.calls);
        out.text(b" refusals ");
        out.show(run.tally.refusals);
        out.text(b" differences ");
        out.show(run.tally.differences);
        out.text(b"\n");
    }
    lines.end().unwrap_or(Ok(()))
}
