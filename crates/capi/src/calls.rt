// The calls of document 01 for firmware, and many ticks at once. No bytes trap: those that are no record are refused.
ghost use Rattle.std.specs.Prelude.{true, false, MatchOption, ◌≡◌, ◌≤◌, length};
ghost use Rattle.fdc.specs.Calls.{power_on, read_port, write_port, dma_read, dma_write, note_change};
ghost use Rattle.fdc.specs.Answer.{number_in};
ghost use Rattle.fdc.specs.Record.{with_fifo};
ghost use Rattle.fdc.specs.Ticks.{tick_of};
ghost use Rattle.pack.specs.Back.{HoldsRecord};
ghost use Rattle.pack.specs.Bytes.{record_size, record_in, is_record};
ghost use Rattle.many_ticks.specs.Run.{many_ticks};
ghost use Rattle.capi.specs.Calls.{
  set_in,
  written_back,
  word_back,
  bytes_from,
  cycled_of,
  cycle_from,
  HoldsFrom,
  power_word,
  power_bytes,
  image_from,
  long_from,
  first_from,
  second_from,
};
ghost use Rattle.capi.specs.Word.{word_of};

use crate::cycle::{read_cycle, write_cycle};
use crate::word::{long_word, word};
use fdc::answer::{Answer, Reply};
use fdc::record::Controller;
use many_ticks::run::ticks;
use pack::cycle::{reading, writing};
use pack::places::RECORD_SIZE;
use pack::put::{store, store_fifo};
use pack::take::{is_record, load};

// The word that C gets for bytes that are no record (the C interface).
pub(crate) const NO_RECORD: u32 = 0x400;

// The record in the bytes lent.
#[tactic(auto, using(pack::proofs::PutLaws::record_loaded))]
pub(crate) fn record(s: &[u8]) -> Option<Controller>
    ensures { MatchOption result (is_record s.now ≡ false)
        (λ c. (is_record s.now ≡ true) × (c ≡ record_in s.now)) }
{
    if is_record(s) { Some(load(s)) } else { None }
}

// A refusal leaves the bytes as they are.
#[tactic(auto, using(pack::proofs::PutLaws::record_long), unfolding(crate::specs::Calls::written_back))]
fn finish(s: &mut [u8], answer: Answer) -> u32
    ensures word { result ≡ word_of answer }
    ensures bytes { s.new ≡ written_back answer s.old }
    ensures back { HoldsFrom s.old answer s.new }
{
    if !matches!(answer.reply, Reply::Refused(_)) {
        store(s, answer.controller);
    }
    word(answer)
}

// After a cycle the FIFO alone is written. Not one with `finish`: each stores another part, and its clauses say which;
// the word is all that they share.
#[tactic(auto, unfolding(crate::specs::Calls::cycled_of))]
fn finish_cycle(s: &mut [u8], answer: Answer) -> u32
    ensures word { result ≡ word_of answer }
    ensures bytes { s.new ≡ cycled_of answer s.old }
    ensures back { is_record s.old ≡ true → number_in answer.reply ≡ 0
        → HoldsRecord s.new (with_fifo answer.controller.fifo (record_in s.old)) }
{
    if !matches!(answer.reply, Reply::Refused(_)) {
        store_fifo(s, answer.controller.fifo);
    }
    word(answer)
}

#[unsafe(no_mangle)]
pub extern "C" fn bel_record_size() -> u32
    ensures { result ≡ record_size }
{
    RECORD_SIZE as u32
}

#[unsafe(no_mangle)]
#[tactic(auto, unfolding(crate::specs::Calls::power_word, pack::specs::Bytes::stored_of))]
pub extern "C" fn bel_power_on(s: &mut [u8], head0: u8, head1: u8) -> u32
    ensures word { result ≡ power_word s.old (power_on head0 head1) }
    ensures bytes { s.new ≡ power_bytes s.old (power_on head0 head1) }
    ensures back { record_size ≤ length s.old
        → HoldsRecord s.new (power_on head0 head1).controller }
{
    if s.len() < RECORD_SIZE {
        return NO_RECORD;
    }
    let answer = Controller::power_on(head0, head1);
    store(s, answer.controller);
    word(answer)
}

#[unsafe(no_mangle)]
#[tactic(auto, unfolding(crate::specs::Calls::word_back, crate::specs::Calls::bytes_from))]
pub extern "C" fn bel_read_port(s: &mut [u8], offset: u8) -> u32
    ensures word { result ≡ word_back s.old (read_port offset (record_in s.old)) }
    ensures bytes { s.new
        ≡ bytes_from s.old (read_port offset (record_in s.old)) }
    ensures back { HoldsFrom s.old (read_port offset (record_in s.old))
        s.new }
{
    let Some(c) = record(s) else {
        return NO_RECORD;
    };
    finish(s, c.read_port(offset))
}

#[unsafe(no_mangle)]
#[tactic(auto, unfolding(crate::specs::Calls::word_back, crate::specs::Calls::bytes_from))]
pub extern "C" fn bel_write_port(s: &mut [u8], offset: u8, byte: u8) -> u32
    ensures word { result
        ≡ word_back s.old (write_port offset byte (record_in s.old)) }
    ensures bytes { s.new
        ≡ bytes_from s.old (write_port offset byte (record_in s.old)) }
    ensures back { HoldsFrom s.old (write_port offset byte (record_in s.old))
        s.new }
{
    let Some(c) = record(s) else {
        return NO_RECORD;
    };
    finish(s, c.write_port(offset, byte))
}

// To the host; tc is 0 or not. The record is read whole only where the cycle is not one of a transfer at work.
#[unsafe(no_mangle)]
#[tactic(auto, using(pack::proofs::CycleLaws::read_keeps, pack::proofs::PutLaws::record_loaded), unfolding(crate::specs::Calls::word_back, crate::specs::Calls::cycle_from))]
pub extern "C" fn bel_dma_read(s: &mut [u8], tc: u8) -> u32
    ensures word { result
        ≡ word_back s.old (dma_read (set_in tc) (record_in s.old)) }
    ensures bytes { s.new
        ≡ cycle_from s.old (dma_read (set_in tc) (record_in s.old)) }
    ensures back { HoldsFrom s.old (dma_read (set_in tc) (record_in s.old))
        s.new }
{
    if !is_record(s) {
        return NO_RECORD;
    }
    if reading(s) {
        return read_cycle(s, tc != 0);
    }
    let answer = load(s).dma_read(tc != 0);
    finish_cycle(s, answer)
}

// From the host.
#[unsafe(no_mangle)]
#[tactic(auto, using(pack::proofs::CycleLaws::write_keeps, pack::proofs::PutLaws::record_loaded), unfolding(crate::specs::Calls::word_back, crate::specs::Calls::cycle_from))]
pub extern "C" fn bel_dma_write(s: &mut [u8], byte: u8, tc: u8) -> u32
    ensures word { result
        ≡ word_back s.old (dma_write byte (set_in tc) (record_in s.old)) }
    ensures bytes { s.new
        ≡ cycle_from s.old (dma_write byte (set_in tc) (record_in s.old)) }
    ensures back { HoldsFrom s.old (dma_write byte (set_in tc) (record_in s.old))
        s.new }
{
    if !is_record(s) {
        return NO_RECORD;
    }
    if writing(s) {
        return write_cycle(s, byte, tc != 0);
    }
    let answer = load(s).dma_write(byte, tc != 0);
    finish_cycle(s, answer)
}

#[unsafe(no_mangle)]
#[tactic(auto, unfolding(crate::specs::Calls::word_back, crate::specs::Calls::bytes_from))]
pub extern "C" fn bel_note_change(s: &mut [u8], drive: u8) -> u32
    ensures word { result ≡ word_back s.old (note_change drive (record_in s.old)) }
    ensures bytes { s.new
        ≡ bytes_from s.old (note_change drive (record_in s.old)) }
    ensures back { HoldsFrom s.old (note_change drive (record_in s.old))
        s.new }
{
    let Some(c) = record(s) else {
        return NO_RECORD;
    };
    finish(s, c.note_change(drive))
}

// One byte time, over the two images.
#[unsafe(no_mangle)]
#[tactic(auto, unfolding(crate::specs::Calls::word_back, crate::specs::Calls::bytes_from, crate::specs::Calls::image_from))]
pub extern "C" fn bel_tick(s: &mut [u8], image0: &mut [u8], image1: &mut [u8]) -> u32
    ensures word { result
        ≡ word_back s.old
        (tick_of image0.old image1.old (record_in s.old)) }
    ensures bytes { s.new
        ≡ bytes_from s.old
        (tick_of image0.old image1.old (record_in s.old)) }
    ensures back { HoldsFrom s.old
        (tick_of image0.old image1.old (record_in s.old))
        s.new }
    ensures first { image0.new
        ≡ image_from 0 s.old image0.old image1.old image0.old }
    ensures second { image1.new
        ≡ image_from 1 s.old image0.old image1.old image1.old }
{
    let Some(c) = record(s) else {
        return NO_RECORD;
    };
    finish(s, c.tick(image0, image1))
}

// Up to n ticks, with one reading and one writing of the record.
#[unsafe(no_mangle)]
#[tactic(auto, unfolding(crate::specs::Calls::long_from, crate::specs::Calls::bytes_from, crate::specs::Calls::first_from, crate::specs::Calls::second_from))]
pub extern "C" fn bel_ticks(s: &mut [u8], image0: &mut [u8], image1: &mut [u8], n: u32) -> u64
    ensures word { result
        ≡ long_from n s.old image0.old image1.old }
    ensures bytes { s.new
        ≡ bytes_from s.old
        (many_ticks n image0.old image1.old (record_in s.old)).answer }
    ensures back { HoldsFrom s.old
        (many_ticks n image0.old image1.old (record_in s.old)).answer
        s.new }
    ensures first { image0.new
        ≡ first_from n s.old image0.old image1.old }
    ensures second { image1.new
        ≡ second_from n s.old image0.old image1.old }
{
    let Some(c) = record(s) else {
        return long_word(NO_RECORD, 0);
    };
    let ran = ticks(c, image0, image1, n);
    long_word(finish(s, ran.answer), ran.made)
}
