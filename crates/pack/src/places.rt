// The record's places: rows of sixteen bytes, and the places in each. What has no name here is room, written 0 and not
// looked at. specs/Places has the same names, and the proofs hold each use of these to those.

// Never 0: memory that was never powered on is no record.
pub const VERSION: u8 = 1;

pub const RECORD_SIZE: usize = 0xD0;

pub const REGISTERS_ROW: usize = 0;

pub const DRIVE0_ROW: usize = 0x10;

pub const DRIVE1_ROW: usize = 0x20;

pub const DRIVE2_ROW: usize = 0x30;

pub const DRIVE3_ROW: usize = 0x40;

pub const FIFO_ROW: usize = 0x50;

pub const FLOW_ROW: usize = 0x60;

pub const COMMAND_ROW: usize = 0x70;

pub const RESULT_ROW: usize = 0x80;

pub const PHASE_ROW: usize = 0x90;

pub const SITE_ROW: usize = 0xA0;

pub const TASK_ROW: usize = 0xB0;

pub const SPOT_ROW: usize = 0xC0;

// The registers, behind the layout's version.
pub const VERSION_AT: usize = 0;

pub const DOR_AT: usize = 1;

pub const TDR_AT: usize = 2;

pub const RATE_AT: usize = 3;

pub const SPEC1_AT: usize = 4;

pub const SPEC2_AT: usize = 5;

pub const EIS_AT: usize = 6;

pub const EFIFO_AT: usize = 7;

pub const POLL_AT: usize = 8;

pub const FIFOTHR_AT: usize = 9;

pub const PRETRK_AT: usize = 10;

// A drive; a number of 16 bits goes on at the next place.
pub const HEAD_AT: usize = 0;

pub const PCN_AT: usize = 1;

pub const CHANGED_AT: usize = 2;

pub const BUSY_AT: usize = 3;

pub const REPORT_AT: usize = 4;

pub const MOTION_AT: usize = 5;

pub const TARGET_AT: usize = 6;

pub const STEPS_AT: usize = 7;

pub const WAIT_AT: usize = 8;

// The FIFO's count, request and TC.
pub const COUNT_AT: usize = 0;

pub const ASKS_AT: usize = 1;

pub const TC_AT: usize = 2;

// Command and result bytes lie from 0 on, and at the row's end how many they are.
pub const GATHERED_AT: usize = 15;

pub const LEFT_AT: usize = 15;

// The phase's number, Gathering, Sensing and Answering, and the number of the job or work.
pub const TAG_AT: usize = 0;

pub const KIND_AT: usize = 1;

pub const DUE_AT: usize = 2;

pub const UNIT_AT: usize = 3;

pub const LOUD_AT: usize = 4;

pub const WORK_AT: usize = 5;

// Where a command works, and a Format's plan.
pub const DRIVE_NUMBER_AT: usize = 0;

pub const SIDE_AT: usize = 1;

pub const CYLINDERS_AT: usize = 2;

pub const HEADS_AT: usize = 3;

pub const SLOTS_AT: usize = 4;

pub const DISK_SIZE_AT: usize = 5;

pub const PROTECT_AT: usize = 6;

pub const PLAN_SIZE_AT: usize = 8;

pub const SC_AT: usize = 9;

pub const FILL_AT: usize = 10;

// A transfer, and the sector in hand.
pub const PASS_AT: usize = 0;

pub const DELETED_AT: usize = 1;

pub const MT_AT: usize = 2;

pub const SK_AT: usize = 3;

pub const EOT_AT: usize = 4;

pub const DTL_AT: usize = 5;

pub const C_AT: usize = 8;

pub const H_AT: usize = 9;

pub const R_AT: usize = 10;

pub const N_AT: usize = 11;

pub const TASK_OTHER_AT: usize = 12;

pub const TASK_LATE_AT: usize = 13;

// A stage.
pub const STAGE_AT: usize = 0;

pub const FORM_AT: usize = 1;

pub const SLOT_AT: usize = 2;

pub const SPOT_COUNT_AT: usize = 3;

pub const MET_AT: usize = 4;

pub const WRONG_AT: usize = 5;

pub const BAD_AT: usize = 6;

pub const BROKEN_AT: usize = 7;

pub const OTHER_AT: usize = 8;

pub const DONE_AT: usize = 10;
