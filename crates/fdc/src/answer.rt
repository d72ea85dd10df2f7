// What a call answers (01 Refusals).
ghost use Rattle.std.specs.Prelude.{◌≡◌};
ghost use Rattle.fdc.specs.Answer.{value_of, number_in, answer_of};

use crate::record::Controller;
use chip::refusal::Refusal;

// 01 Form refusal: three cases, of which the definitions of every call speak; so no Result of an Option.
#[derive(Clone, Copy, Debug, PartialEq, Eq)]
pub enum Reply {
    Done,
    Byte(u8),
    Refused(Refusal),
}

// A reply with the record handed back, and its lines.
#[derive(Clone, Copy)]
pub struct Answer {
    pub reply: Reply,
    pub int: bool,
    pub drq: bool,
    pub controller: Controller,
}

// 01 Refusals "value 0", as `value_of` and docs/RULES.md have it: 0 and no None where there is no byte.
pub fn value(reply: Reply) -> u8
    ensures { result ≡ value_of reply }
{
    if let Reply::Byte(byte) = reply {
        byte
    } else {
        0
    }
}

// 01 Refusals: the refusal's number, 0 and no None where the call was not refused, as `number_in` and docs/RULES.md have it.
pub fn refusal_number(reply: Reply) -> u8
    ensures { result ≡ number_in reply }
{
    if let Reply::Refused(refusal) = reply {
        u8::from(refusal)
    } else {
        0
    }
}

impl Controller {
    #[tactic(auto, unfolding(crate::specs::Answer::answer_of))]
    pub fn answer(self, reply: Reply) -> Answer
        ensures { result ≡ answer_of reply self }
    {
        Answer {
            reply,
            int: self.int(),
            drq: self.drq(),
            controller: self,
        }
    }

    // The record as it is, and why the call was not made.
    pub(crate) fn refuse(self, refusal: Refusal) -> Answer
        ensures { result ≡ answer_of (Reply.Refused refusal) self }
    {
        self.answer(Reply::Refused(refusal))
    }
}
