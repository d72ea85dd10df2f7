// What a block's status bytes say (02 2026-01), and how a bad block is named on standard error.
ghost use Rattle.std.specs.Prelude.{◌≡◌};
ghost use Rattle.blocks.specs.Status.{bad_in, fault_of};

use block::request::{Ending, Reply};
use files::fault::fault;
use log_lines::hex::letter;
use std::fmt;

// Why a block is bad.
#[derive(Clone, Copy, Debug, PartialEq, Eq)]
pub enum Fault {
    DataError,
    Protected,
    NoData,
    NotFound,
    Missing,
    Overrun,
    Other,
}

impl fmt::Display for Fault {
    fn fmt<W: fmt::Write>(&self, f: &mut fmt::Formatter<W>) -> fmt::Result {
        f.write_str(match self {
            Fault::DataError => "data error",
            Fault::Protected => "protected",
            Fault::NoData => "an address without data",
            Fault::NotFound => "no such address",
            Fault::Missing => "missing address",
            Fault::Overrun => "overrun",
            Fault::Other => "failed",
        })
    }
}

pub fn bad(st0: u8) -> bool
    ensures { result ≡ bad_in st0 }
{
    st0 / 0x40 != 0
}

#[tactic(auto, unfolding(crate::specs::Status::fault_of))]
fn fault_of(st1: u8, st2: u8) -> Fault
    ensures { result ≡ fault_of st1 st2 }
{
    if st1 / 0x20 % 2 == 1 {
        return Fault::DataError;
    }
    if st1 / 0x02 % 2 == 1 {
        return Fault::Protected;
    }
    if st2 / 0x01 % 2 == 1 {
        return Fault::NoData;
    }
    if st1 / 0x04 % 2 == 1 {
        return Fault::NotFound;
    }
    if st1 / 0x01 % 2 == 1 {
        return Fault::Missing;
    }
    if st1 / 0x10 % 2 == 1 {
        return Fault::Overrun;
    }
    Fault::Other
}

// A bad block by its number. Of a line each part is tried, whatever became of the one before.
fn name_block(err: &impl Print, block: u32) {
    fault(err, b"blocks: block ");
    let _written = err.print(block);
    fault(err, b": ");
}

fn say_byte(err: &impl Print, byte: u8) {
    fault(err, &[letter(byte / 16), letter(byte)]);
}

fn ended(err: &impl Print, block: u32, ending: Ending) {
    let Ending { st0, st1, st2, .. } = ending;
    if bad(st0) {
        name_block(err, block);
        let _written = err.print(fault_of(st1, st2));
        fault(err, b" (ST0 ");
        say_byte(err, st0);
        fault(err, b" ST1 ");
        say_byte(err, st1);
        fault(err, b" ST2 ");
        say_byte(err, st2);
        fault(err, b")\n");
    }
}

fn refused(err: &impl Print, block: u32, number: u8) {
    name_block(err, block);
    fault(err, b"refused, ");
    say_byte(err, number);
    fault(err, b"\n");
}

// A block that is one is not spoken of. The service refuses none that is asked for here, and its waits do not run out.
pub fn named(err: &impl Print, block: u32, reply: Reply) {
    match reply {
        Reply::Ended(ending) | Reply::RanOut(ending) => ended(err, block, ending),
        Reply::Refused(refusal) => refused(err, block, u8::from(refusal)),
    }
}

// The whole line for a block that is not there.
pub fn past_end(err: &impl Print, block: u32, count: u32) {
    name_block(err, block);
    fault(err, b"past the end, the image has ");
    let _written = err.print(count);
    fault(err, b" blocks\n");
}
