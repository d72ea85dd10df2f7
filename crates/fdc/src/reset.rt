// 01 Registers reset: what goes and what stays, and the reports at release.
ghost use Rattle.std.specs.Prelude.{◌≡◌};
ghost use Rattle.fdc.specs.Reset.{
  reset_fifo_part,
  reset_all,
  report_all,
  reset_of,
  released_of,
  with_dor,
  with_tdr,
  with_rate,
  wrote_dor,
  wrote_dsr,
};

use crate::lines::held;
use crate::record::{Bytes, Controller, Phase, Registers};
use chip::fifo::Fifo;
use drive::Drive;
use std::array::from_fn;

// EFIFO, FIFOTHR and PRETRK take power-on values; all else stays.
fn reset_fifo_part(registers: Registers) -> Registers
    ensures { result ≡ reset_fifo_part registers }
{
    Registers {
        efifo: Registers::EFIFO,
        fifothr: Registers::FIFOTHR,
        pretrk: Registers::PRETRK,
        ..registers
    }
}

#[tactic(auto, unfolding(crate::specs::Reset::reset_all))]
fn reset_all(drives: [Drive; 4]) -> [Drive; 4]
    ensures { result ≡ reset_all drives }
{
    drives.map(|d| d.reset())
}

// The index is below 4; `u8` has no `From<usize>`.
#[tactic(auto, unfolding(crate::specs::Reset::report_all))]
fn report_all(drives: [Drive; 4]) -> [Drive; 4]
    ensures { result ≡ report_all drives }
{
    from_fn(|k| drives[k].reported(0xC0 + k as u8))
}

impl Controller {
    #[tactic(auto, unfolding(crate::specs::Reset::reset_of))]
    pub fn reset(self) -> Controller
        ensures { result ≡ reset_of self }
    {
        Controller {
            registers: reset_fifo_part(self.registers),
            drives: reset_all(self.drives),
            fifo: Fifo::empty(),
            bytes: Bytes::none(),
            phase: Phase::Idle,
        }
    }

    // POLL 0 gives each of drives 0 to 3 a report.
    #[tactic(auto, unfolding(crate::specs::Reset::released_of, crate::specs::Reset::released_by))]
    fn release(self) -> Controller
        ensures { result ≡ released_of self }
    {
        if self.registers.poll {
            return self;
        }
        self.with_drives(report_all(self.drives))
    }

    #[tactic(auto, unfolding(crate::specs::Reset::with_dor))]
    fn with_dor(self, byte: u8) -> Controller
        ensures { result ≡ with_dor byte self }
    {
        self.with_registers(Registers {
            dor: byte,
            ..self.registers
        })
    }

    #[tactic(auto, unfolding(crate::specs::Reset::with_tdr))]
    pub fn with_tdr(self, byte: u8) -> Controller
        ensures { result ≡ with_tdr byte self }
    {
        self.with_registers(Registers {
            tdr: byte % 4,
            ..self.registers
        })
    }

    #[tactic(auto, unfolding(crate::specs::Reset::with_rate))]
    pub fn with_rate(self, byte: u8) -> Controller
        ensures { result ≡ with_rate byte self }
    {
        self.with_registers(Registers {
            rate: byte % 4,
            ..self.registers
        })
    }

    // Bit 2 low resets; going high it releases.
    #[tactic(auto, unfolding(crate::specs::Reset::wrote_dor))]
    pub fn write_dor(self, byte: u8) -> Controller
        ensures { result ≡ wrote_dor byte self }
    {
        if held(byte) {
            return self.reset().with_dor(byte);
        }
        if held(self.registers.dor) {
            return self.release().with_dor(byte);
        }
        self.with_dor(byte)
    }

    // Bit 7 resets and releases at once, but adds nothing while DOR holds reset. The rate is stored in any case.
    #[tactic(auto, unfolding(crate::specs::Reset::wrote_dsr))]
    pub fn write_dsr(self, byte: u8) -> Controller
        ensures { result ≡ wrote_dsr byte self }
    {
        let strobe = (byte / 128 == 1) & !held(self.registers.dor);
        if strobe {
            return self.reset().release().with_rate(byte);
        }
        self.with_rate(byte)
    }
}
