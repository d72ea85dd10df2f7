// The record read from its bytes.
ghost use Rattle.std.specs.Prelude.{◌≡◌};
ghost use Rattle.pack.specs.Bytes.{
  row_at,
  registers_in,
  drives_in,
  fifo_in,
  gathered_in,
  flat_of,
  flat_in,
  site_in,
  task_from,
  plan_in,
  spot_in,
  record_in,
  registers_ok,
  drive_ok,
  drives_ok,
  flow_ok,
  head_ok,
  site_ok,
  task_ok,
  spot_ok,
  flat_ok,
  cases_ok,
  is_record,
  loaded_of,
};
ghost use Rattle.pack.specs.Places.{fifo_row, flow_row, command_row, result_row};

use crate::bytes::pass_numbered;
use crate::drives::drive_in;
use crate::flat::{Flat, Spot};
use crate::places::{
    ASKS_AT, BAD_AT, BROKEN_AT, BUSY_AT, C_AT, CHANGED_AT, COMMAND_ROW, COUNT_AT, CYLINDERS_AT,
    DELETED_AT, DISK_SIZE_AT, DONE_AT, DOR_AT, DRIVE_NUMBER_AT, DTL_AT, DUE_AT, EFIFO_AT, EIS_AT,
    EOT_AT, FIFO_ROW, FIFOTHR_AT, FILL_AT, FLOW_ROW, FORM_AT, GATHERED_AT, H_AT, HEADS_AT, KIND_AT,
    LEFT_AT, LOUD_AT, MET_AT, MOTION_AT, MT_AT, N_AT, OTHER_AT, PASS_AT, PHASE_ROW, PLAN_SIZE_AT,
    POLL_AT, PRETRK_AT, PROTECT_AT, R_AT, RATE_AT, RECORD_SIZE, REGISTERS_ROW, RESULT_ROW, SC_AT,
    SIDE_AT, SITE_ROW, SK_AT, SLOT_AT, SLOTS_AT, SPEC1_AT, SPEC2_AT, SPOT_COUNT_AT, SPOT_ROW,
    STAGE_AT, TAG_AT, TASK_LATE_AT, TASK_OTHER_AT, TASK_ROW, TC_AT, TDR_AT, UNIT_AT, VERSION,
    VERSION_AT, WORK_AT, WRONG_AT,
};
use crate::rows::{drive_rows, row_at};
use chip::codes::{Entry, Kind};
use chip::fifo::Fifo;
use drive::Drive;
use fdc::record::{Bytes, Controller, Phase, Registers};
use image::layout::Geometry;
use image::slot::Id;
use sectors::order::{Plan, Transfer};
use sectors::work::{Site, Task};

fn registers_in(row: [u8; 16]) -> Registers
    ensures { result ≡ registers_in row }
{
    Registers {
        dor: row[DOR_AT],
        tdr: row[TDR_AT],
        rate: row[RATE_AT],
        spec1: row[SPEC1_AT],
        spec2: row[SPEC2_AT],
        eis: row[EIS_AT] == 1,
        efifo: row[EFIFO_AT] == 1,
        poll: row[POLL_AT] == 1,
        fifothr: row[FIFOTHR_AT],
        pretrk: row[PRETRK_AT],
    }
}

fn fifo_of(bytes: [u8; 16], flow: [u8; 16]) -> Fifo
    ensures { result ≡ fifo_in bytes flow }
{
    Fifo {
        bytes,
        count: flow[COUNT_AT],
        asks: flow[ASKS_AT] == 1,
        tc: flow[TC_AT] == 1,
    }
}

fn bytes_of(first: [u8; 16], second: [u8; 16]) -> Bytes
    ensures { result ≡ gathered_in first second }
{
    let mut command = [0; 9];
    command.copy_from_slice(&first[..9]);
    let mut results = [0; 7];
    results.copy_from_slice(&second[..7]);
    Bytes {
        command,
        gathered: first[GATHERED_AT],
        results,
        left: second[LEFT_AT],
    }
}

fn site_in(row: [u8; 16]) -> Site
    ensures { result ≡ site_in row }
{
    let disk = Geometry {
        cylinders: row[CYLINDERS_AT],
        heads: row[HEADS_AT],
        slots: row[SLOTS_AT],
        n: row[DISK_SIZE_AT],
        protect: row[PROTECT_AT] == 1,
    };
    Site {
        drive: row[DRIVE_NUMBER_AT],
        side: row[SIDE_AT],
        disk,
    }
}

fn plan_in(row: [u8; 16]) -> Plan
    ensures { result ≡ plan_in row }
{
    Plan {
        n: row[PLAN_SIZE_AT],
        sc: row[SC_AT],
        fill: row[FILL_AT],
    }
}

fn task_in(row: [u8; 16]) -> Task
    ensures { result ≡ task_from row }
{
    let transfer = Transfer {
        pass: pass_numbered(row[PASS_AT]),
        deleted: row[DELETED_AT] == 1,
        mt: row[MT_AT] == 1,
        sk: row[SK_AT] == 1,
        eot: row[EOT_AT],
        dtl: row[DTL_AT],
    };
    let id = Id {
        c: row[C_AT],
        h: row[H_AT],
        r: row[R_AT],
        n: row[N_AT],
    };
    Task {
        transfer,
        id,
        other: row[TASK_OTHER_AT] == 1,
        late: row[TASK_LATE_AT] == 1,
    }
}

fn spot_in(row: [u8; 16]) -> Spot
    ensures { result ≡ spot_in row }
{
    Spot {
        stage: row[STAGE_AT],
        form: row[FORM_AT],
        slot: row[SLOT_AT],
        count: row[SPOT_COUNT_AT],
        met: row[MET_AT] == 1,
        wrong: row[WRONG_AT] == 1,
        bad: row[BAD_AT] == 1,
        broken: row[BROKEN_AT] == 1,
        other: row[OTHER_AT] == 1,
        done: u16::from_be_bytes([row[DONE_AT], row[DONE_AT + 1]]),
    }
}

fn flat_of(head: [u8; 16], site: [u8; 16], task: [u8; 16], spot: [u8; 16]) -> Flat
    ensures { result ≡ flat_of head site task spot }
{
    Flat {
        tag: head[TAG_AT],
        entry: Entry {
            kind: Kind::from(head[KIND_AT]),
            bytes: head[DUE_AT],
        },
        unit: head[UNIT_AT],
        loud: head[LOUD_AT] == 1,
        work: head[WORK_AT],
        site: site_in(site),
        task: task_in(task),
        plan: plan_in(site),
        spot: spot_in(spot),
    }
}

fn flat_in(r: &[u8; RECORD_SIZE]) -> Flat
    ensures { result ≡ flat_in r.now }
{
    flat_of(
        row_at(r, PHASE_ROW),
        row_at(r, SITE_ROW),
        row_at(r, TASK_ROW),
        row_at(r, SPOT_ROW),
    )
}

fn fifo_in(r: &[u8; RECORD_SIZE]) -> Fifo
    ensures { result ≡ fifo_in (row_at r.now fifo_row) (row_at r.now flow_row) }
{
    fifo_of(row_at(r, FIFO_ROW), row_at(r, FLOW_ROW))
}

fn drives_in(r: &[u8; RECORD_SIZE]) -> [Drive; 4]
    ensures { result ≡ drives_in r.now }
{
    let [a, b, c, d] = drive_rows(r);
    [drive_in(a), drive_in(b), drive_in(c), drive_in(d)]
}

fn bytes_in(r: &[u8; RECORD_SIZE]) -> Bytes
    ensures { result ≡ gathered_in (row_at r.now command_row) (row_at r.now result_row) }
{
    bytes_of(row_at(r, COMMAND_ROW), row_at(r, RESULT_ROW))
}

#[tactic(auto, unfolding(crate::specs::Bytes::record_in))]
fn record_in(r: &[u8; RECORD_SIZE]) -> Controller
    ensures { result ≡ record_in r.now }
{
    Controller {
        registers: registers_in(row_at(r, REGISTERS_ROW)),
        drives: drives_in(r),
        fifo: fifo_in(r),
        bytes: bytes_in(r),
        phase: Phase::from(flat_in(r)),
    }
}

#[tactic(auto, unfolding(crate::specs::Bytes::registers_ok))]
fn registers_ok(row: [u8; 16]) -> bool
    ensures { result ≡ registers_ok row }
{
    (row[EIS_AT] <= 1) & (row[EFIFO_AT] <= 1) & (row[POLL_AT] <= 1)
}

#[tactic(auto, unfolding(crate::specs::Bytes::drive_ok))]
fn drive_ok(row: [u8; 16]) -> bool
    ensures { result ≡ drive_ok row }
{
    (row[CHANGED_AT] <= 1) & (row[BUSY_AT] <= 1) & (row[MOTION_AT] <= 2)
}

#[tactic(auto, unfolding(crate::specs::Bytes::flow_ok))]
fn flow_ok(row: [u8; 16]) -> bool
    ensures { result ≡ flow_ok row }
{
    (row[ASKS_AT] <= 1) & (row[TC_AT] <= 1)
}

#[tactic(auto, unfolding(crate::specs::Bytes::head_ok))]
fn head_ok(row: [u8; 16]) -> bool
    ensures { result ≡ head_ok row }
{
    (row[TAG_AT] <= 5) & (row[KIND_AT] <= 13) & (row[LOUD_AT] <= 1) & (row[WORK_AT] <= 2)
}

#[tactic(auto, unfolding(crate::specs::Bytes::site_ok))]
fn site_ok(row: [u8; 16]) -> bool
    ensures { result ≡ site_ok row }
{
    row[PROTECT_AT] <= 1
}

#[tactic(auto, unfolding(crate::specs::Bytes::task_ok))]
fn task_ok(row: [u8; 16]) -> bool
    ensures { result ≡ task_ok row }
{
    (row[PASS_AT] <= 1)
        & (row[DELETED_AT] <= 1)
        & (row[MT_AT] <= 1)
        & (row[SK_AT] <= 1)
        & (row[TASK_OTHER_AT] <= 1)
        & (row[TASK_LATE_AT] <= 1)
}

#[tactic(auto, unfolding(crate::specs::Bytes::spot_ok))]
fn spot_ok(row: [u8; 16]) -> bool
    ensures { result ≡ spot_ok row }
{
    (row[STAGE_AT] <= 5)
        & (row[FORM_AT] <= 3)
        & (row[MET_AT] <= 1)
        & (row[WRONG_AT] <= 1)
        & (row[BAD_AT] <= 1)
        & (row[BROKEN_AT] <= 1)
        & (row[OTHER_AT] <= 1)
}

fn drives_ok(r: &[u8; RECORD_SIZE]) -> bool
    ensures { result ≡ drives_ok r.now }
{
    let [a, b, c, d] = drive_rows(r);
    drive_ok(a) & drive_ok(b) & drive_ok(c) & drive_ok(d)
}

fn flat_ok(r: &[u8; RECORD_SIZE]) -> bool
    ensures { result ≡ flat_ok r.now }
{
    head_ok(row_at(r, PHASE_ROW))
        & site_ok(row_at(r, SITE_ROW))
        & task_ok(row_at(r, TASK_ROW))
        & spot_ok(row_at(r, SPOT_ROW))
}

#[tactic(auto, unfolding(crate::specs::Bytes::cases_ok))]
fn cases_ok(r: &[u8; RECORD_SIZE]) -> bool
    ensures { result ≡ cases_ok r.now }
{
    registers_ok(row_at(r, REGISTERS_ROW))
        & drives_ok(r)
        & flow_ok(row_at(r, FLOW_ROW))
        & flat_ok(r)
}

// Whether bytes are a record, and of this layout.
#[tactic(auto, unfolding(crate::specs::Bytes::is_record))]
pub fn is_record(s: &[u8]) -> bool
    ensures { result ≡ is_record s.now }
{
    let Some(r) = s.first_chunk() else {
        return false;
    };
    (r[VERSION_AT] == VERSION) & cases_ok(r)
}

// The record in enough bytes; in too few, one as after power-on. Whether they are a record is not looked at again.
#[tactic(auto, unfolding(crate::specs::Bytes::loaded_of))]
pub fn load(s: &[u8]) -> Controller
    ensures { result ≡ loaded_of s.now }
{
    let Some(r) = s.first_chunk() else {
        return Controller::new(0, 0);
    };
    record_in(r)
}

// The FIFO alone; in too few bytes an empty one.
#[tactic(auto, unfolding(crate::specs::Bytes::loaded_of, fdc::specs::Record::fresh_of))]
pub fn load_fifo(s: &[u8]) -> Fifo
    ensures { result ≡ (loaded_of s.now).fifo }
{
    let Some(r) = s.first_chunk() else {
        return Fifo::empty();
    };
    fifo_in(r)
}
