// The controller's record (01 Registers, "The record says the phase the controller is in and what that phase carries").
// MSR, INT and DRQ stand nowhere in it: they are worked out from it.
ghost use Rattle.std.specs.Prelude.{◌≡◌, ◌%◌, ◌≤◌, length};
ghost use Rattle.fdc.specs.Record.{
  fresh_registers,
  setting_of,
  result_room,
  padded,
  no_bytes,
  fresh_of,
  with_registers,
  with_drives,
  with_fifo,
  with_bytes,
  with_phase,
  drive_at,
  with_drive,
  phase_wait,
  heads_within,
  countdowns_within,
  valid_of,
};

use chip::codes::Entry;
use chip::fifo::{Fifo, Setting};
use drive::Drive;
use engine::flow::wait_of;
use sectors::order::Order;
use sectors::work::Work;

#[derive(Clone, Copy, Debug, PartialEq, Eq)]
pub struct Registers {
    pub dor: u8,
    pub tdr: u8,
    pub rate: u8,
    // Specify's two bytes: SRT/HUT, HLT/ND.
    pub spec1: u8,
    pub spec2: u8,
    pub eis: bool,
    pub efifo: bool,
    pub poll: bool,
    pub fifothr: u8,
    pub pretrk: u8,
}

// The room of result bytes (01 Refusals 4).
pub const RESULTS: usize = 7;

// Command bytes gathered, and result bytes left, the next one first. What is not in use is 0. Two arrays with their
// counts: the record has no heap, and refusal 4 is of counts past the arrays' ends.
#[derive(Clone, Copy, Debug, PartialEq, Eq)]
pub struct Bytes {
    pub command: [u8; 9],
    pub gathered: u8,
    pub results: [u8; RESULTS],
    pub left: u8,
}

// 01 Form phase.
#[derive(Clone, Copy)]
pub enum Phase {
    Idle,
    Gathering(Entry),
    // A data command, Read ID or Format before its first tick, and from it on.
    Starting(Order),
    Working(Work),
    // Sense Drive, with its side and drive bits.
    Sensing(u8),
    // Whether INT is on: the result of a data command, Read ID or Format with no byte taken yet.
    Answering(bool),
}

#[derive(Clone, Copy)]
pub struct Controller {
    pub registers: Registers,
    pub drives: [Drive; 4],
    pub fifo: Fifo,
    pub bytes: Bytes,
    pub phase: Phase,
}

// Result bytes with zeros behind them, up to their room.
pub(crate) fn pad(bytes: &[u8]) -> [u8; RESULTS]
    requires { length bytes.now ≤ result_room }
    ensures { result ≡ padded bytes.now }
{
    let mut room = [0; RESULTS];
    room[..bytes.len()].copy_from_slice(bytes);
    room
}

fn phase_wait(phase: Phase) -> u8
    ensures { result ≡ phase_wait phase }
{
    if let Phase::Working(work) = phase {
        wait_of(work)
    } else {
        0
    }
}

fn heads_within(drives: [Drive; 4]) -> bool
    ensures { result ≡ heads_within drives }
{
    drives.iter().all(|d| d.head <= 81)
}

// By `map` and not by `all`: there (tried) the proof doesn't close.
fn countdowns_within(drives: [Drive; 4]) -> bool
    ensures { result ≡ countdowns_within drives }
{
    let [a, b, c, d] = drives.map(|d| d.countdown() <= 1000);
    a & b & c & d
}

impl Registers {
    // 01 Form power-on.
    pub const DOR: u8 = 0x00;

    pub const TDR: u8 = 0x00;

    pub const RATE: u8 = 2;

    pub const SPECIFY: u8 = 0x00;

    pub const EIS: bool = false;

    pub const EFIFO: bool = true;

    pub const POLL: bool = false;

    pub const FIFOTHR: u8 = 0;

    pub const PRETRK: u8 = 0;

    pub fn new() -> Registers
        ensures { result ≡ fresh_registers }
    {
        Registers {
            dor: Registers::DOR,
            tdr: Registers::TDR,
            rate: Registers::RATE,
            spec1: Registers::SPECIFY,
            spec2: Registers::SPECIFY,
            eis: Registers::EIS,
            efifo: Registers::EFIFO,
            poll: Registers::POLL,
            fifothr: Registers::FIFOTHR,
            pretrk: Registers::PRETRK,
        }
    }

    // How Configure has set the FIFO. Its two fields are fields of the record too, as `setting_of` and `configured_of` have
    // them.
    pub fn setting(self) -> Setting
        ensures { result ≡ setting_of self }
    {
        Setting {
            efifo: self.efifo,
            fifothr: self.fifothr,
        }
    }
}

impl Bytes {
    pub fn none() -> Bytes
        ensures { result ≡ no_bytes }
    {
        Bytes {
            command: [0; 9],
            gathered: 0,
            results: [0; RESULTS],
            left: 0,
        }
    }
}

impl Controller {
    // 01 Form power-on: the power-on state, with the heads of drives 0 and 1 where they stand.
    #[tactic(auto, unfolding(crate::specs::Record::fresh_of))]
    pub fn new(head0: u8, head1: u8) -> Controller
        ensures { result ≡ fresh_of head0 head1 }
    {
        Controller {
            registers: Registers::new(),
            drives: [head0, head1, 0, 0].map(Drive::new),
            fifo: Fifo::empty(),
            bytes: Bytes::none(),
            phase: Phase::Idle,
        }
    }

    #[tactic(auto, unfolding(crate::specs::Record::with_registers))]
    pub fn with_registers(self, registers: Registers) -> Controller
        ensures { result ≡ with_registers registers self }
    {
        Controller { registers, ..self }
    }

    #[tactic(auto, unfolding(crate::specs::Record::with_drives))]
    pub fn with_drives(self, drives: [Drive; 4]) -> Controller
        ensures { result ≡ with_drives drives self }
    {
        Controller { drives, ..self }
    }

    #[tactic(auto, unfolding(crate::specs::Record::with_fifo))]
    pub fn with_fifo(self, fifo: Fifo) -> Controller
        ensures { result ≡ with_fifo fifo self }
    {
        Controller { fifo, ..self }
    }

    #[tactic(auto, unfolding(crate::specs::Record::with_bytes))]
    pub fn with_bytes(self, bytes: Bytes) -> Controller
        ensures { result ≡ with_bytes bytes self }
    {
        Controller { bytes, ..self }
    }

    #[tactic(auto, unfolding(crate::specs::Record::with_phase))]
    pub fn with_phase(self, phase: Phase) -> Controller
        ensures { result ≡ with_phase phase self }
    {
        Controller { phase, ..self }
    }

    // The drive that two bits name.
    pub fn drive(self, number: u8) -> Drive
        ensures { result ≡ drive_at (number % 4) self.drives }
    {
        self.drives[usize::from(number % 4)]
    }

    #[tactic(auto, unfolding(crate::specs::Record::with_drive))]
    pub fn with_drive(self, number: u8, d: Drive) -> Controller
        ensures { result ≡ with_drive (number % 4) d self }
    {
        let mut drives = self.drives;
        drives[usize::from(number % 4)] = d;
        self.with_drives(drives)
    }

    // 01 Refusals 4: whether the record has none of the six faults.
    #[tactic(auto, unfolding(crate::specs::Record::valid_of))]
    pub fn valid(self) -> bool
        ensures { result ≡ valid_of self }
    {
        self.fifo.within(self.registers.efifo)
            & (self.bytes.gathered <= 9)
            & (usize::from(self.bytes.left) <= RESULTS)
            & heads_within(self.drives)
            & (self.registers.fifothr <= 15)
            & (phase_wait(self.phase) <= 64)
            & countdowns_within(self.drives)
    }
}
