// The record written to its bytes.
ghost use Rattle.std.specs.Prelude.{true, ◌≡◌, ◌≤◌, ◌<◌, length};
ghost use Rattle.fdc.specs.Record.{with_fifo};
ghost use Rattle.pack.specs.Bytes.{
  record_size,
  registers_bytes,
  flow_bytes,
  command_bytes,
  result_bytes,
  head_bytes,
  site_bytes,
  task_bytes,
  spot_bytes,
  drives_put,
  fifo_put,
  gathered_put,
  flat_put,
  record_bytes,
  stored_of,
  fifo_stored,
  record_in,
  is_record,
};
ghost use Rattle.pack.specs.Back.{DrivesFit, Typed, HoldsRecord};

use crate::bytes::pass_number;
use crate::drives::drive_row;
use crate::flat::{Flat, Spot};
use crate::places::{
    ASKS_AT, BAD_AT, BROKEN_AT, C_AT, COMMAND_ROW, COUNT_AT, CYLINDERS_AT, DELETED_AT,
    DISK_SIZE_AT, DONE_AT, DOR_AT, DRIVE_NUMBER_AT, DRIVE0_ROW, DRIVE1_ROW, DRIVE2_ROW, DRIVE3_ROW,
    DTL_AT, DUE_AT, EFIFO_AT, EIS_AT, EOT_AT, FIFO_ROW, FIFOTHR_AT, FILL_AT, FLOW_ROW, FORM_AT,
    GATHERED_AT, H_AT, HEADS_AT, KIND_AT, LEFT_AT, LOUD_AT, MET_AT, MT_AT, N_AT, OTHER_AT, PASS_AT,
    PHASE_ROW, PLAN_SIZE_AT, POLL_AT, PRETRK_AT, PROTECT_AT, R_AT, RATE_AT, RECORD_SIZE,
    REGISTERS_ROW, RESULT_ROW, SC_AT, SIDE_AT, SITE_ROW, SK_AT, SLOT_AT, SLOTS_AT, SPEC1_AT,
    SPEC2_AT, SPOT_COUNT_AT, SPOT_ROW, STAGE_AT, TAG_AT, TASK_LATE_AT, TASK_OTHER_AT, TASK_ROW,
    TC_AT, TDR_AT, UNIT_AT, VERSION, VERSION_AT, WORK_AT, WRONG_AT,
};
use crate::rows::put_row;
use chip::fifo::Fifo;
use drive::Drive;
use fdc::record::{Bytes, Controller, Registers};
use sectors::order::Plan;
use sectors::work::{Site, Task};

fn registers_row(r: Registers) -> [u8; 16]
    ensures { result ≡ registers_bytes r }
{
    let mut row = [0; 16];
    row[VERSION_AT] = VERSION;
    row[DOR_AT] = r.dor;
    row[TDR_AT] = r.tdr;
    row[RATE_AT] = r.rate;
    row[SPEC1_AT] = r.spec1;
    row[SPEC2_AT] = r.spec2;
    row[EIS_AT] = u8::from(r.eis);
    row[EFIFO_AT] = u8::from(r.efifo);
    row[POLL_AT] = u8::from(r.poll);
    row[FIFOTHR_AT] = r.fifothr;
    row[PRETRK_AT] = r.pretrk;
    row
}

#[tactic(auto, unfolding(crate::specs::Bytes::drives_put))]
fn put_drives(r: &mut [u8; RECORD_SIZE], drives: [Drive; 4])
    ensures stored { r.new ≡ drives_put drives r.old }
    ensures fits { DrivesFit drives }
{
    let [first, second, third, fourth] = drives.map(drive_row);
    put_row(r, DRIVE0_ROW, first);
    put_row(r, DRIVE1_ROW, second);
    put_row(r, DRIVE2_ROW, third);
    put_row(r, DRIVE3_ROW, fourth);
}

fn flow_row(f: Fifo) -> [u8; 16]
    ensures { result ≡ flow_bytes f }
{
    let mut row = [0; 16];
    row[COUNT_AT] = f.count;
    row[ASKS_AT] = u8::from(f.asks);
    row[TC_AT] = u8::from(f.tc);
    row
}

#[tactic(auto, unfolding(crate::specs::Bytes::fifo_put))]
fn put_fifo(r: &mut [u8; RECORD_SIZE], f: Fifo)
    ensures stored { r.new ≡ fifo_put f r.old }
    ensures fits { length f.bytes ≡ 16 }
{
    put_row(r, FIFO_ROW, f.bytes);
    put_row(r, FLOW_ROW, flow_row(f));
}

fn command_row(b: Bytes) -> [u8; 16]
    ensures bytes { result ≡ command_bytes b }
    ensures fits { length b.command ≡ 9 }
{
    let mut row = [0; 16];
    row[..9].copy_from_slice(&b.command);
    row[GATHERED_AT] = b.gathered;
    row
}

fn result_row(b: Bytes) -> [u8; 16]
    ensures bytes { result ≡ result_bytes b }
    ensures fits { length b.results ≡ 7 }
{
    let mut row = [0; 16];
    row[..7].copy_from_slice(&b.results);
    row[LEFT_AT] = b.left;
    row
}

#[tactic(auto, unfolding(crate::specs::Bytes::gathered_put))]
fn put_bytes(r: &mut [u8; RECORD_SIZE], b: Bytes)
    ensures stored { r.new ≡ gathered_put b r.old }
    ensures fits { (length b.command ≡ 9) × (length b.results ≡ 7) }
{
    put_row(r, COMMAND_ROW, command_row(b));
    put_row(r, RESULT_ROW, result_row(b));
}

fn head_row(f: Flat) -> [u8; 16]
    ensures { result ≡ head_bytes f }
{
    let mut row = [0; 16];
    row[TAG_AT] = f.tag;
    row[KIND_AT] = u8::from(f.entry.kind);
    row[DUE_AT] = f.entry.bytes;
    row[UNIT_AT] = f.unit;
    row[LOUD_AT] = u8::from(f.loud);
    row[WORK_AT] = f.work;
    row
}

fn site_row(site: Site, plan: Plan) -> [u8; 16]
    ensures { result ≡ site_bytes site plan }
{
    let disk = site.disk;
    let mut row = [0; 16];
    row[DRIVE_NUMBER_AT] = site.drive;
    row[SIDE_AT] = site.side;
    row[CYLINDERS_AT] = disk.cylinders;
    row[HEADS_AT] = disk.heads;
    row[SLOTS_AT] = disk.slots;
    row[DISK_SIZE_AT] = disk.n;
    row[PROTECT_AT] = u8::from(disk.protect);
    row[PLAN_SIZE_AT] = plan.n;
    row[SC_AT] = plan.sc;
    row[FILL_AT] = plan.fill;
    row
}

fn task_row(task: Task) -> [u8; 16]
    ensures { result ≡ task_bytes task }
{
    let transfer = task.transfer;
    let id = task.id;
    let mut row = [0; 16];
    row[PASS_AT] = pass_number(transfer.pass);
    row[DELETED_AT] = u8::from(transfer.deleted);
    row[MT_AT] = u8::from(transfer.mt);
    row[SK_AT] = u8::from(transfer.sk);
    row[EOT_AT] = transfer.eot;
    row[DTL_AT] = transfer.dtl;
    row[C_AT] = id.c;
    row[H_AT] = id.h;
    row[R_AT] = id.r;
    row[N_AT] = id.n;
    row[TASK_OTHER_AT] = u8::from(task.other);
    row[TASK_LATE_AT] = u8::from(task.late);
    row
}

fn spot_row(spot: Spot) -> [u8; 16]
    ensures bytes { result ≡ spot_bytes spot }
    ensures fits { spot.done < 0x10000 }
{
    let [high, low] = spot.done.to_be_bytes();
    let mut row = [0; 16];
    row[STAGE_AT] = spot.stage;
    row[FORM_AT] = spot.form;
    row[SLOT_AT] = spot.slot;
    row[SPOT_COUNT_AT] = spot.count;
    row[MET_AT] = u8::from(spot.met);
    row[WRONG_AT] = u8::from(spot.wrong);
    row[BAD_AT] = u8::from(spot.bad);
    row[BROKEN_AT] = u8::from(spot.broken);
    row[OTHER_AT] = u8::from(spot.other);
    row[DONE_AT] = high;
    row[DONE_AT + 1] = low;
    row
}

#[tactic(auto, unfolding(crate::specs::Bytes::flat_put))]
fn put_flat(r: &mut [u8; RECORD_SIZE], f: Flat)
    ensures stored { r.new ≡ flat_put f r.old }
    ensures fits { f.spot.done < 0x10000 }
{
    put_row(r, PHASE_ROW, head_row(f));
    put_row(r, SITE_ROW, site_row(f.site, f.plan));
    put_row(r, TASK_ROW, task_row(f.task));
    put_row(r, SPOT_ROW, spot_row(f.spot));
}

fn put_record(r: &mut [u8; RECORD_SIZE], c: Controller)
    ensures stored { r.new ≡ record_bytes c }
    ensures fits { Typed c }
{
    put_row(r, REGISTERS_ROW, registers_row(c.registers));
    put_drives(r, c.drives);
    put_fifo(r, c.fifo);
    put_bytes(r, c.bytes);
    put_flat(r, Flat::from(c.phase));
}

// The record written to the bytes lent: those behind it stay, and too few stay as they are.
#[tactic(auto, unfolding(crate::specs::Bytes::stored_of))]
pub fn store(s: &mut [u8], c: Controller)
    ensures bytes { s.new ≡ stored_of c s.old }
    ensures back { record_size ≤ length s.old → HoldsRecord s.new c }
{
    if let Some(r) = s.first_chunk_mut() {
        put_record(r, c);
    }
}

// The FIFO alone: of a record every other part stays.
#[tactic(auto, using(crate::proofs::PutLaws::record_long), unfolding(crate::specs::Bytes::fifo_stored))]
pub fn store_fifo(s: &mut [u8], f: Fifo)
    ensures stored { s.new ≡ fifo_stored f s.old }
    ensures back { is_record s.old ≡ true
        → HoldsRecord s.new (with_fifo f (record_in s.old)) }
{
    if let Some(r) = s.first_chunk_mut() {
        put_fifo(r, f);
    }
}
