// Commands (01 Commands): gathered by the table, and carried out or begun once complete.
ghost use Rattle.std.specs.Prelude.{◌≡◌, ◌<◌, ◌%◌, ◌≤◌, cond, length, set, IfSome};
ghost use Rattle.fdc.specs.Record.{result_room, padded, drive_at, with_drive};
ghost use Rattle.fdc.specs.Commands.{
  answered_of,
  said_of,
  said_two,
  idled_of,
  specified_of,
  configured_of,
  number_of_reporter,
  reporter_of,
  order_of,
  move_order,
  format_order,
  identify_order,
  started_of,
  sought_of,
  recalibrated_of,
  sensed_of,
  specify_of,
  configure_of,
  sensing_of,
  heeds_of,
  ran_of,
  run_of,
  one_more,
  gathered_of,
  goes_on,
  begun_of,
};

use crate::lines::any_busy;
use crate::record::{Bytes, Controller, Phase, RESULTS, Registers, pad};
use chip::codes::{Entry, Kind, entry_at, mt_of, sk_of};
use chip::fifo::Fifo;
use chip::step::step_ticks;
use drive::Drive;
use image::slot::Id;
use sectors::order::{Job, Order, Pass, Plan, Transfer};

// Past the end nothing is put. Under a test: with `get_mut` (tried) the proof did not close.
fn put(mut command: [u8; 9], at: usize, byte: u8) -> [u8; 9]
    ensures { result ≡ set command at byte }
{
    if at < 9 {
        command[at] = byte;
    }
    command
}

// At most nine.
fn one_more(gathered: u8) -> u8
    ensures { result ≡ one_more gathered }
{
    gathered.saturating_add(1).min(9)
}

// Specify's two bytes.
fn specified(registers: Registers, first: u8, second: u8) -> Registers
    ensures { result ≡ specified_of registers first second }
{
    Registers {
        spec1: first,
        spec2: second,
        ..registers
    }
}

// EIS 40, EFIFO 20, POLL 10, FIFOTHR; PRETRK.
fn configured(registers: Registers, byte: u8, track: u8) -> Registers
    ensures { result ≡ configured_of registers byte track }
{
    Registers {
        eis: byte / 64 % 2 == 1,
        efifo: byte / 32 % 2 == 1,
        poll: byte / 16 % 2 == 1,
        fifothr: byte % 16,
        pretrk: track,
        ..registers
    }
}

// The lowest drive that has a report.
#[tactic(auto, unfolding(crate::specs::Commands::reporter_of))]
fn reporter(drives: [Drive; 4]) -> Option<usize>
    ensures value { number_of_reporter result ≡ reporter_of drives }
    ensures low { IfSome result (λ k. k < 4) }
{
    drives.iter().position(|d| d.report != 0)
}

// Side and drive are bits 2 and 1-0 of a command's second byte.
fn order_of(second: u8, job: Job) -> Order
    ensures { result ≡ order_of second job }
{
    Order {
        drive: second % 4,
        side: second / 4 % 2,
        job,
    }
}

// Code, side and drive, C H R N, EOT, GPL, DTL. DTL has its room in the transfer, for a header with N 0 (02 2026-05):
// there is none, so it is cleared.
#[tactic(auto, unfolding(crate::specs::Commands::move_order))]
fn move_order(command: [u8; 9], pass: Pass, deleted: bool) -> Order
    ensures { result ≡ move_order command pass deleted }
{
    let transfer = Transfer {
        pass,
        deleted,
        mt: mt_of(command[0]),
        sk: sk_of(command[0]),
        eot: command[6],
        dtl: 0,
    };
    let id = Id {
        c: command[2],
        h: command[3],
        r: command[4],
        n: command[5],
    };
    order_of(command[1], Job::Move(transfer, id))
}

// Code, side and drive, N, SC, GPL, D.
#[tactic(auto, unfolding(crate::specs::Commands::format_order))]
fn format_order(command: [u8; 9]) -> Order
    ensures { result ≡ format_order command }
{
    let plan = Plan {
        n: command[2],
        sc: command[3],
        fill: command[5],
    };
    order_of(command[1], Job::Format(plan))
}

#[tactic(auto, unfolding(crate::specs::Commands::identify_order))]
fn identify_order(command: [u8; 9]) -> Order
    ensures { result ≡ identify_order command }
{
    order_of(command[1], Job::Identify)
}

// 01 Commands (house): these three are heard while a drive is busy.
fn heeds(kind: Kind) -> bool
    ensures { result ≡ heeds_of kind }
{
    matches!(kind, Kind::Seek | Kind::Recalibrate | Kind::SenseInterrupt)
}

impl Controller {
    // Results wait. They raise INT where they are a data command's, Read ID's or Format's.
    #[tactic(auto, unfolding(crate::specs::Commands::answered_of))]
    pub fn answered(self, loud: bool, results: [u8; RESULTS], left: u8) -> Controller
        ensures { result ≡ answered_of loud results left self }
    {
        Controller {
            bytes: Bytes {
                results,
                left,
                ..Bytes::none()
            },
            phase: Phase::Answering(loud),
            ..self
        }
    }

    // At most seven bytes wait as results, so that the cast keeps their number; `u8` has no `From<usize>`.
    pub(crate) fn with_results(self, loud: bool, bytes: &[u8]) -> Controller
        requires { length bytes.now ≤ result_room }
        ensures { result ≡ answered_of loud (padded bytes.now) (length bytes.now) self }
    {
        self.answered(loud, pad(bytes), bytes.len() as u8)
    }

    #[tactic(auto, unfolding(crate::specs::Commands::said_of))]
    pub fn say(self, byte: u8) -> Controller
        ensures { result ≡ said_of byte self }
    {
        self.with_results(false, &[byte])
    }

    #[tactic(auto, unfolding(crate::specs::Commands::said_two))]
    fn say_two(self, first: u8, second: u8) -> Controller
        ensures { result ≡ said_two first second self }
    {
        self.with_results(false, &[first, second])
    }

    #[tactic(auto, unfolding(crate::specs::Commands::idled_of))]
    pub fn idled(self) -> Controller
        ensures { result ≡ idled_of self }
    {
        Controller {
            bytes: Bytes::none(),
            phase: Phase::Idle,
            ..self
        }
    }

    #[tactic(auto, unfolding(crate::specs::Commands::started_of))]
    fn started(self, order: Order) -> Controller
        ensures { result ≡ started_of order self }
    {
        self.idled().with_phase(Phase::Starting(order))
    }

    #[tactic(auto, unfolding(crate::specs::Commands::specify_of))]
    fn specify(self) -> Controller
        ensures { result ≡ specify_of self }
    {
        let command = self.bytes.command;
        self.with_registers(specified(self.registers, command[1], command[2]))
            .idled()
    }

    #[tactic(auto, unfolding(crate::specs::Commands::configure_of))]
    fn configure(self) -> Controller
        ensures { result ≡ configure_of self }
    {
        let command = self.bytes.command;
        self.with_registers(configured(self.registers, command[2], command[3]))
            .with_fifo(Fifo::empty())
            .idled()
    }

    #[tactic(auto, unfolding(crate::specs::Commands::sensing_of))]
    fn sense_drive(self) -> Controller
        ensures { result ≡ sensing_of self }
    {
        self.idled()
            .with_phase(Phase::Sensing(self.bytes.command[1] % 8))
    }

    // The report of the lowest drive and its PCN; with none 80 alone.
    #[tactic(auto, unfolding(crate::specs::Commands::sensed_of, crate::specs::Record::with_drive))]
    fn sense_interrupt(self) -> Controller
        ensures { result ≡ sensed_of self }
    {
        let Some(k) = reporter(self.drives) else {
            return self.say(0x80);
        };
        let mut drives = self.drives;
        let d = drives[k];
        drives[k] = d.sensed();
        self.with_drives(drives).say_two(d.report, d.pcn)
    }

    // 80 for a busy drive; any other sets off as `moved`.
    fn set_off(self, unit: u8, moved: Drive) -> Controller
        ensures { result ≡ cond (drive_at (unit % 4) self.drives).busy (said_of 0x80 self) (idled_of (with_drive (unit % 4) moved self)) }
    {
        if self.drive(unit).busy {
            return self.say(0x80);
        }
        self.with_drive(unit, moved).idled()
    }

    #[tactic(auto, unfolding(crate::specs::Commands::sought_of))]
    fn seek(self) -> Controller
        ensures { result ≡ sought_of self }
    {
        let command = self.bytes.command;
        let d = self.drive(command[1]);
        let moved = d.seek(command[2], step_ticks(self.registers.spec1));
        self.set_off(command[1], moved)
    }

    #[tactic(auto, unfolding(crate::specs::Commands::recalibrated_of))]
    fn recalibrate(self) -> Controller
        ensures { result ≡ recalibrated_of self }
    {
        let unit = self.bytes.command[1] % 4;
        let d = self.drive(unit);
        let moved = d.recalibrate(unit, step_ticks(self.registers.spec1));
        self.set_off(unit, moved)
    }

    fn move_sectors(self, pass: Pass, deleted: bool) -> Controller
        ensures { result ≡ started_of (move_order self.bytes.command pass deleted) self }
    {
        self.started(move_order(self.bytes.command, pass, deleted))
    }

    // The kind comes beside the record, as `ran_of` has it.
    #[tactic(auto, unfolding(crate::specs::Commands::ran_of))]
    fn carry_out(self, kind: Kind) -> Controller
        ensures { result ≡ ran_of kind self }
    {
        match kind {
            Kind::Unknown => self.say(0x80),
            Kind::ReadData => self.move_sectors(Pass::Read, false),
            Kind::ReadDeleted => self.move_sectors(Pass::Read, true),
            Kind::WriteData => self.move_sectors(Pass::Write, false),
            Kind::WriteDeleted => self.move_sectors(Pass::Write, true),
            Kind::ReadId => self.started(identify_order(self.bytes.command)),
            Kind::Format => self.started(format_order(self.bytes.command)),
            Kind::Recalibrate => self.recalibrate(),
            Kind::SenseInterrupt => self.sense_interrupt(),
            Kind::Specify => self.specify(),
            Kind::SenseDrive => self.sense_drive(),
            Kind::Seek => self.seek(),
            Kind::Version => self.say(0x90),
            Kind::Configure => self.configure(),
        }
    }

    // A complete command.
    #[tactic(auto, unfolding(crate::specs::Commands::run_of))]
    fn run(self, kind: Kind) -> Controller
        ensures { result ≡ run_of kind self }
    {
        if any_busy(self.drives) & !heeds(kind) {
            return self.say(0x80);
        }
        self.carry_out(kind)
    }

    // One command byte more; past the ninth it is put nowhere.
    #[tactic(auto, unfolding(crate::specs::Commands::gathered_of))]
    pub fn gathered(self, byte: u8) -> Controller
        ensures { result ≡ gathered_of byte self }
    {
        let old = self.bytes;
        self.with_bytes(Bytes {
            command: put(old.command, usize::from(old.gathered), byte),
            gathered: one_more(old.gathered),
            ..old
        })
    }

    // With the bytes so far the command runs, or waits for more.
    #[tactic(auto, unfolding(crate::specs::Commands::goes_on))]
    pub fn go_on(self, entry: Entry) -> Controller
        ensures { result ≡ goes_on entry self }
    {
        if self.bytes.gathered < entry.bytes {
            return self.with_phase(Phase::Gathering(entry));
        }
        self.run(entry.kind)
    }

    // The first byte of a command, whatever was held.
    #[tactic(auto, unfolding(crate::specs::Commands::begun_of))]
    pub fn begin(self, byte: u8) -> Controller
        ensures { result ≡ begun_of byte self }
    {
        self.with_bytes(Bytes::none())
            .gathered(byte)
            .go_on(entry_at(byte))
    }
}
