// The word that a call returns: value in bits 0 to 7, refusal number in 8 to 15, INT 16, DRQ 17.
ghost use Rattle.std.specs.Prelude.{◌≡◌, cond, ◌+◌, ◌*◌, ◌≤◌};
ghost use Rattle.capi.specs.Word.{word_in, word_of, long_of};

use fdc::answer::{Answer, Reply, refusal_number, value};

// sectors and block have such a product of bytes (sectors/src/ends.rt says why).
pub(crate) fn line(on: bool, weight: u32) -> u32
    ensures value { result ≡ cond on weight 0 }
    ensures upper_bound { result ≤ weight }
{
    u32::from(on) * weight
}

// Three parameters and no Answer: a cycle's short way has no whole one.
#[tactic(auto, unfolding(crate::specs::Word::word_in))]
pub fn word_in(reply: Reply, int: bool, drq: bool) -> u32
    ensures { result ≡ word_in reply int drq }
{
    let number = u32::from(refusal_number(reply));
    u32::from(value(reply)) + 0x100 * number + line(int, 0x10000) + line(drq, 0x20000)
}

pub fn word(answer: Answer) -> u32
    ensures { result ≡ word_of answer }
{
    word_in(answer.reply, answer.int, answer.drq)
}

// The answer's word below, and the ticks made above it.
pub fn long_word(word: u32, made: u32) -> u64
    ensures { result ≡ long_of word made }
{
    u64::from(word) + 0x100000000 * u64::from(made)
}
