// A DMA cycle of a transfer at work (01 FIFO): of the record's bytes the FIFO's alone are read and written.
ghost use Rattle.std.specs.Prelude.{◌≡◌, true};
ghost use Rattle.fdc.specs.Answer.{answer_of};
ghost use Rattle.fdc.specs.Calls.{dma_read, dma_write};
ghost use Rattle.fdc.specs.Record.{with_fifo};
ghost use Rattle.pack.specs.Back.{HoldsRecord};
ghost use Rattle.pack.specs.Bytes.{record_in, is_record, fifo_stored};
ghost use Rattle.pack.specs.Cycle.{cycles_in, reading_in, writing_in};
ghost use Rattle.capi.specs.Calls.{cycled_of};
ghost use Rattle.capi.specs.Word.{word_of};

use crate::word::word_in;
use chip::fifo::Fifo;
use fdc::answer::Reply;
use pack::cycle::{efifo, pending};
use pack::put::store_fifo;
use pack::take::load_fifo;

// What a read's cycle and a write's share. That the bytes are a record is asked by all three: an export has just tested
// it where it calls the two below, and a struct with that invariant, made for that one call, would be no plainer.
#[tactic(auto, using(pack::proofs::CycleLaws::cycle_int, pack::proofs::CycleLaws::cycle_drq, pack::proofs::PutLaws::record_loaded), unfolding(fdc::specs::Answer::answer_of))]
fn cycled(s: &mut [u8], reply: Reply, f: Fifo) -> u32
    requires { (is_record s.old ≡ true) × (cycles_in s.old ≡ true) }
    ensures word { result ≡ word_of (answer_of reply (with_fifo f (record_in s.old))) }
    ensures bytes { s.new ≡ fifo_stored f s.old }
    ensures back { HoldsRecord s.new (with_fifo f (record_in s.old)) }
{
    let int = pending(s);
    store_fifo(s, f);
    word_in(reply, int, f.asks)
}

// The host takes a byte. A cycle from the host stays apart: its byte goes the other way (`handed` and `taken`, or
// `given`), and each has the clauses of its own call.
#[tactic(auto, using(pack::proofs::PutLaws::record_loaded, pack::proofs::CycleLaws::reading_told, pack::proofs::CycleLaws::reading_cycle), unfolding(crate::specs::Calls::cycled_of, fdc::specs::Answer::answer_of, fdc::specs::Record::with_fifo))]
pub(crate) fn read_cycle(s: &mut [u8], tc: bool) -> u32
    requires { (is_record s.old ≡ true) × (reading_in s.old ≡ true) }
    ensures word { result ≡ word_of (dma_read tc (record_in s.old)) }
    ensures bytes { s.new
        ≡ cycled_of (dma_read tc (record_in s.old)) s.old }
    ensures back { HoldsRecord s.new (dma_read tc (record_in s.old)).controller }
{
    let f = load_fifo(s);
    cycled(s, Reply::Byte(f.handed()), f.taken(tc))
}

// The host gives a byte.
#[tactic(auto, using(pack::proofs::PutLaws::record_loaded, pack::proofs::CycleLaws::writing_told, pack::proofs::CycleLaws::writing_cycle), unfolding(crate::specs::Calls::cycled_of, fdc::specs::Answer::answer_of, fdc::specs::Record::with_fifo))]
pub(crate) fn write_cycle(s: &mut [u8], byte: u8, tc: bool) -> u32
    requires { (is_record s.old ≡ true) × (writing_in s.old ≡ true) }
    ensures word { result ≡ word_of (dma_write byte tc (record_in s.old)) }
    ensures bytes { s.new
        ≡ cycled_of (dma_write byte tc (record_in s.old)) s.old }
    ensures back { HoldsRecord s.new (dma_write byte tc (record_in s.old)).controller }
{
    let next = load_fifo(s).given(efifo(s), tc, byte);
    cycled(s, Reply::Done, next)
}
