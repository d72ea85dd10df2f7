// The ports (01 Registers): which register an offset is, in both directions.
ghost use Rattle.std.specs.Prelude.{◌≡◌};
ghost use Rattle.fdc.specs.Calls.{port_of, read_reg, write_reg};

use crate::answer::{Answer, Reply};
use crate::record::Controller;
use chip::refusal::Refusal;

#[derive(Clone, Copy, Debug, PartialEq, Eq)]
pub enum Port {
    Dor,
    Tdr,
    Status,
    Data,
    Input,
}

#[tactic(auto, unfolding(crate::specs::Calls::port_of))]
pub fn port_of(offset: u8) -> Option<Port>
    ensures { result ≡ port_of offset }
{
    match offset {
        2 => Some(Port::Dor),
        3 => Some(Port::Tdr),
        4 => Some(Port::Status),
        5 => Some(Port::Data),
        7 => Some(Port::Input),
        _ => None,
    }
}

impl Controller {
    #[tactic(auto, unfolding(crate::specs::Calls::read_reg))]
    pub fn read_register(self, port: Option<Port>) -> Answer
        ensures { result ≡ read_reg port self }
    {
        match port {
            Some(Port::Dor) => self.answer(Reply::Byte(self.registers.dor)),
            Some(Port::Tdr) => self.answer(Reply::Byte(self.registers.tdr % 4)),
            Some(Port::Status) => self.answer(Reply::Byte(self.msr())),
            Some(Port::Data) => self.read_fifo(),
            Some(Port::Input) => self.answer(Reply::Byte(self.dir())),
            None => self.refuse(Refusal::Port),
        }
    }

    #[tactic(auto, unfolding(crate::specs::Calls::write_reg))]
    pub fn write_register(self, port: Option<Port>, byte: u8) -> Answer
        ensures { result ≡ write_reg port byte self }
    {
        match port {
            Some(Port::Dor) => self.write_dor(byte).answer(Reply::Done),
            Some(Port::Tdr) => self.with_tdr(byte).answer(Reply::Done),
            Some(Port::Status) => self.write_dsr(byte).answer(Reply::Done),
            Some(Port::Data) => self.write_fifo(byte),
            Some(Port::Input) => self.with_rate(byte).answer(Reply::Done),
            None => self.refuse(Refusal::Port),
        }
    }
}
