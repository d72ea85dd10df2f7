// What a DMA cycle asks of the record, read from its bytes (01 FIFO, Refusals 3).
ghost use Rattle.std.specs.Prelude.{◌≡◌};
ghost use Rattle.fdc.specs.Registers.{pending_in};
ghost use Rattle.pack.specs.Bytes.{loaded_of, pass_number};
ghost use Rattle.pack.specs.Cycle.{
  asked_in,
  fifo_bounded,
  counts_bounded,
  bounded_in,
  still_in,
  drives_still,
  cycles_in,
  due_in,
  reading_in,
  writing_in,
};

use crate::bytes::pass_number;
use crate::places::{
    ASKS_AT, COMMAND_ROW, COUNT_AT, DOR_AT, EFIFO_AT, FIFOTHR_AT, FLOW_ROW, GATHERED_AT, HEAD_AT,
    LEFT_AT, MOTION_AT, PASS_AT, PHASE_ROW, RECORD_SIZE, REGISTERS_ROW, REPORT_AT, RESULT_ROW,
    SPEC2_AT, SPOT_COUNT_AT, SPOT_ROW, TAG_AT, TASK_ROW, WORK_AT,
};
use crate::rows::{drive_rows, row_at};
use chip::fifo::capacity;
use sectors::order::Pass;

#[tactic(auto, unfolding(crate::specs::Cycle::asked_in))]
fn asked(registers: [u8; 16], flow: [u8; 16], head: [u8; 16]) -> bool
    ensures { result ≡ asked_in registers flow head }
{
    (registers[DOR_AT] / 8 % 2 == 1)
        & (registers[SPEC2_AT] % 2 == 0)
        & (flow[ASKS_AT] == 1)
        & (head[TAG_AT] == 3)
        & (head[WORK_AT] == 1)
}

#[tactic(auto, unfolding(crate::specs::Cycle::fifo_bounded))]
fn fifo_bounded(registers: [u8; 16], flow: [u8; 16]) -> bool
    ensures { result ≡ fifo_bounded registers flow }
{
    (flow[COUNT_AT] <= capacity(registers[EFIFO_AT] == 1)) & (registers[FIFOTHR_AT] <= 15)
}

#[tactic(auto, unfolding(crate::specs::Cycle::counts_bounded))]
fn counts_bounded(command: [u8; 16], results: [u8; 16], spot: [u8; 16]) -> bool
    ensures { result ≡ counts_bounded command results spot }
{
    (command[GATHERED_AT] <= 9) & (results[LEFT_AT] <= 7) & (spot[SPOT_COUNT_AT] <= 64)
}

#[tactic(auto, unfolding(crate::specs::Cycle::still_in))]
fn still(row: [u8; 16]) -> bool
    ensures { result ≡ still_in row }
{
    (row[HEAD_AT] <= 81) & (row[MOTION_AT] == 0)
}

#[tactic(auto, unfolding(crate::specs::Cycle::bounded_in))]
fn bounded(r: &[u8; RECORD_SIZE]) -> bool
    ensures { result ≡ bounded_in r.now }
{
    fifo_bounded(row_at(r, REGISTERS_ROW), row_at(r, FLOW_ROW))
        & counts_bounded(
            row_at(r, COMMAND_ROW),
            row_at(r, RESULT_ROW),
            row_at(r, SPOT_ROW),
        )
}

fn drives_still(r: &[u8; RECORD_SIZE]) -> bool
    ensures { result ≡ drives_still r.now }
{
    let [a, b, c, d] = drive_rows(r);
    still(a) & still(b) & still(c) & still(d)
}

#[tactic(auto, unfolding(crate::specs::Cycle::cycles_in))]
fn cycles(r: &[u8; RECORD_SIZE]) -> bool
    ensures { result ≡ cycles_in r.now }
{
    asked(
        row_at(r, REGISTERS_ROW),
        row_at(r, FLOW_ROW),
        row_at(r, PHASE_ROW),
    ) & bounded(r)
        & drives_still(r)
}

// A cycle of that direction is due.
fn due(s: &[u8], pass: Pass) -> bool
    ensures { result ≡ due_in (pass_number pass) s.now }
{
    let Some(r) = s.first_chunk() else {
        return false;
    };
    cycles(r) & (row_at(r, TASK_ROW)[PASS_AT] == pass_number(pass))
}

// A cycle to the host is due.
#[tactic(auto, unfolding(crate::specs::Cycle::reading_in))]
pub fn reading(s: &[u8]) -> bool
    ensures { result ≡ reading_in s.now }
{
    due(s, Pass::Read)
}

// A cycle from the host is due.
#[tactic(auto, unfolding(crate::specs::Cycle::writing_in))]
pub fn writing(s: &[u8]) -> bool
    ensures { result ≡ writing_in s.now }
{
    due(s, Pass::Write)
}

// A drive's report is pending.
#[tactic(auto, unfolding(fdc::specs::Registers::pending_in, crate::specs::Bytes::loaded_of, fdc::specs::Record::fresh_of))]
pub fn pending(s: &[u8]) -> bool
    ensures { result ≡ pending_in (loaded_of s.now).drives }
{
    let Some(r) = s.first_chunk() else {
        return false;
    };
    let [a, b, c, d] = drive_rows(r);
    (a[REPORT_AT] != 0) | (b[REPORT_AT] != 0) | (c[REPORT_AT] != 0) | (d[REPORT_AT] != 0)
}

// 1: the FIFO holds one byte.
#[tactic(auto, unfolding(crate::specs::Bytes::loaded_of, fdc::specs::Record::fresh_of))]
pub fn efifo(s: &[u8]) -> bool
    ensures { result ≡ (loaded_of s.now).registers.efifo }
{
    let Some(r) = s.first_chunk() else {
        return true;
    };
    row_at(r, REGISTERS_ROW)[EFIFO_AT] == 1
}
