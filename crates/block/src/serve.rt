// The FIFO served (02 2026-01): after each tick DMA cycles while DRQ is on and bytes are left, TC with the last; then
// the seven result bytes.
// A read's two loops and a write's stay apart: one over a trait would be longer, as each slice needs an impl with ghost
// members for its cycle, and a lemma back to `reads_of` or `writes_of`. The record and both images are three
// parameters, as head.rt says.
ghost use Rattle.std.specs.Prelude.{◌≡◌, ◌-◌, length, replicate};
ghost use Rattle.block.specs.Box.{box_of, came_with};
ghost use Rattle.block.specs.Ready.{in_time};
ghost use Rattle.block.specs.Serve.{
  taking,
  takes_of,
  came_read,
  reads_of,
  giving,
  gives_of,
  writes_of,
  status_with,
  status_from,
};

use crate::ready::{Late, result_byte};
use fdc::answer::{Answer, value};
use fdc::record::Controller;

// After some cycles: the last one's answer, and how many bytes have passed. No iterator: DRQ going off ends the cycles,
// and they go on from there after the next tick. It is public, as its module, for block_demands, whose laws name it.
#[derive(Clone, Copy)]
pub struct Passed {
    pub answer: Answer,
    pub done: usize,
}

#[tactic(auto, using(crate::proofs::ServeLaws::take_on, crate::proofs::ServeLaws::take_off, crate::proofs::ServeLaws::take_over))]
fn take_bytes(answer: Answer, out: &mut [u8], done: usize) -> Passed
    ensures { taking result.answer out.new result.done
        ≡ takes_of (length out.old - done) (taking answer out.old done) }
{
    let mut answer = answer;
    let mut done = done;
    while answer.drq && done < out.len() {
        answer = answer.controller.dma_read(out.len() - done == 1);
        out[done] = value(answer.reply);
        done += 1;
    }
    Passed { answer, done }
}

// Ticks until INT, the bytes asked for taken after each.
#[tactic(auto, using(crate::proofs::ServeLaws::taken_length, crate::proofs::ServeLaws::read_on_lem, crate::proofs::ServeLaws::read_over))]
pub(crate) fn read_sector(
    c: &mut Controller,
    a: &mut [u8],
    b: &mut [u8],
    out: &mut [u8],
    budget: u32,
) -> Result<(), Late>
    ensures { came_read (in_time result) (box_of c.new a.new b.new) out.new
        ≡ reads_of budget (box_of c.old a.old b.old) out.old 0 }
{
    let mut done = 0;
    for _ in 0..budget {
        let answer = c.tick(a, b);
        if answer.int {
            *c = answer.controller;
            return Ok(());
        }
        let passed = take_bytes(answer, out, done);
        *c = passed.answer.controller;
        done = passed.done;
    }
    Err(Late)
}

#[tactic(auto, using(crate::proofs::ServeLaws::give_on, crate::proofs::ServeLaws::give_off, crate::proofs::ServeLaws::give_over))]
fn give_bytes(answer: Answer, bytes: &[u8], done: usize) -> Passed
    ensures { result
        ≡ gives_of (length bytes.now - done) bytes.now (giving answer done) }
{
    let mut answer = answer;
    let mut done = done;
    while answer.drq && done < bytes.len() {
        answer = answer
            .controller
            .dma_write(bytes[done], bytes.len() - done == 1);
        done += 1;
    }
    Passed { answer, done }
}

// Ticks until INT, the bytes asked for given after each.
#[tactic(auto, using(crate::proofs::ServeLaws::write_on_lem, crate::proofs::ServeLaws::write_over))]
pub(crate) fn write_sector(
    c: &mut Controller,
    a: &mut [u8],
    b: &mut [u8],
    bytes: &[u8],
    budget: u32,
) -> Result<(), Late>
    ensures { came_with (in_time result) (box_of c.new a.new b.new)
        ≡ writes_of budget (box_of c.old a.old b.old) bytes.now 0 }
{
    let mut done = 0;
    for _ in 0..budget {
        let answer = c.tick(a, b);
        if answer.int {
            *c = answer.controller;
            return Ok(());
        }
        let passed = give_bytes(answer, bytes, done);
        *c = passed.answer.controller;
        done = passed.done;
    }
    Err(Late)
}

// The seven result bytes, taken.
#[tactic(auto, using(crate::proofs::ServeLaws::status_on, crate::proofs::ServeLaws::status_over))]
pub(crate) fn take_status(c: &mut Controller) -> [u8; 7]
    ensures { status_with result c.new ≡ status_from 7 0 (replicate 7 0) c.old }
{
    let mut bytes = [0u8; 7];
    for byte in bytes.iter_mut() {
        *byte = result_byte(c);
    }
    bytes
}
