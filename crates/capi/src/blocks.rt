// The block service for firmware, and the maker of blank disks (02 2026-01). A refusal is known before anything is
// called, stepped or stored. A read's export and a write's stay two: both are the C interface.
ghost use Rattle.std.specs.Prelude.{◌≡◌, ◌≤◌, length};
ghost use Rattle.blank.specs.Blank.{size_of_disk, made_of, image_of};
ghost use Rattle.block.specs.Box.{box_of};
ghost use Rattle.block.specs.Place.{blocks_in};
ghost use Rattle.block.specs.Request.{read_block, write_block};
ghost use Rattle.pack.specs.Back.{HoldsRecord};
ghost use Rattle.pack.specs.Bytes.{record_size, stored_of};
ghost use Rattle.capi.specs.Blocks.{
  denied_number,
  number_in,
  refusal_on,
  block_refusal,
  block_word,
  told_word,
  good_in,
  status_in,
  box_in,
  refusal_in,
  block_read,
  block_write,
  HoldsServed,
};

use crate::calls::{NO_RECORD, record};
use crate::word::line;
use blank::disk::{make_blank, size_of_disk};
use block::place::{blocks_in, bytes_in};
use block::request::{Refusal, Reply, Served, read_block, write_block};
use fdc::record::Controller;
use image::disk::Header;
use image::lent::pick;
use pack::put::store;

// Why a block call is refused: as the service would, or for a status slice under seven.
#[derive(Clone, Copy, Debug, PartialEq, Eq)]
enum Denied {
    Service(Refusal),
    NoRoom,
}

// The document's number.
impl From<Denied> for u8 {
    ghost from_gives = { λ denied number. number ≡ denied_number denied };

    fn from(denied: Denied) -> u8 {
        match denied {
            Denied::Service(refusal) => u8::from(refusal),
            Denied::NoRoom => 3,
        }
    }
}

// The service's tests again, as `refusal_on` and `block_refusal` say them. Handed out by the service they would be no
// plainer: a public function there with a contract of its own, and a lemma back to these two, which have 3 after them.
#[tactic(auto, unfolding(crate::specs::Blocks::refusal_on))]
fn refusal_on(img: &[u8], block: u32, bytes: usize, room: usize) -> Result<(), Denied>
    ensures { number_in result ≡ refusal_on img.now block bytes room }
{
    if blocks_in(img) <= block {
        return Err(Denied::Service(Refusal::NoSuchBlock));
    }
    if bytes != bytes_in(img) as usize {
        return Err(Denied::Service(Refusal::WrongSize));
    }
    if room < 7 {
        return Err(Denied::NoRoom);
    }
    Ok(())
}

// Its parameters are those that the exports are lent.
#[tactic(auto, unfolding(crate::specs::Blocks::block_refusal))]
fn block_refusal<'a>(
    c: Controller,
    a: &'a [u8],
    b: &'a [u8],
    drive: u8,
    block: u32,
    bytes: usize,
    room: usize,
) -> Result<(), Denied>
    ensures { number_in result
        ≡ block_refusal drive block bytes room (box_of c a.now b.now) }
{
    if !c.valid() {
        return Err(Denied::Service(Refusal::DamagedRecord));
    }
    refusal_on(pick(drive, a, b), block, bytes, room)
}

// The word of a call that was served, and whether its block is good, or of one that was refused.
#[tactic(auto, unfolding(crate::specs::Blocks::block_word))]
fn block_word(good: Result<bool, Denied>, c: Controller) -> u32
    ensures { result ≡ told_word good c }
{
    let told = match good {
        Ok(good) => line(good, 1),
        Err(denied) => 0x100 * u32::from(u8::from(denied)),
    };
    told + line(c.int(), 0x10000) + line(c.drq(), 0x20000)
}

// The status bytes put; whether the block is good.
fn tell(s: &mut [u8], reply: Reply) -> bool
    requires { 7 ≤ length s.old }
    ensures good { result ≡ good_in reply }
    ensures status { s.new ≡ status_in reply s.old }
{
    match reply {
        Reply::Refused(_) => false,
        Reply::Ended(e) | Reply::RanOut(e) => {
            s[..7].copy_from_slice(&<[u8; 7]>::from(e));
            e.st0 < 0x40
        }
    }
}

fn finish_block(s: &mut [u8], status: &mut [u8], served: Served) -> u32
    requires { 7 ≤ length status.old }
    ensures word { result ≡ block_word (good_in served.reply) 0 served.controller }
    ensures bytes { s.new ≡ stored_of served.controller s.old }
    ensures back { record_size ≤ length s.old
        → HoldsRecord s.new served.controller }
    ensures status { status.new ≡ status_in served.reply status.old }
{
    store(s, served.controller);
    let good = tell(status, served.reply);
    block_word(Ok(good), served.controller)
}

#[unsafe(no_mangle)]
pub extern "C" fn bel_blocks(image: &[u8]) -> u32
    ensures { result ≡ blocks_in image.now }
{
    blocks_in(image)
}

#[unsafe(no_mangle)]
#[tactic(auto, using(pack::proofs::PutLaws::record_long, crate::proofs::BlocksLaws::room_enough, crate::proofs::BlocksLaws::record_in_lem, crate::proofs::BlocksLaws::refused_holds, crate::proofs::BlocksLaws::read_served, crate::proofs::BlocksLaws::read_refused, crate::proofs::BlocksLaws::read_no_record))]
pub extern "C" fn bel_block_read(
    s: &mut [u8],
    image0: &mut [u8],
    image1: &mut [u8],
    drive: u8,
    block: u32,
    out: &mut [u8],
    status: &mut [u8],
) -> u32
    ensures word { result
        ≡ (block_read drive block s.old image0.old image1.old
        out.old status.old).word }
    ensures bytes { s.new
        ≡ (block_read drive block s.old image0.old image1.old
        out.old status.old).bytes }
    ensures back { HoldsServed s.old
        (refusal_in drive block s.old image0.old image1.old out.old
        status.old)
        (read_block drive block (box_in s.old image0.old image1.old)
        out.old).box.controller
        s.new }
    ensures first { image0.new
        ≡ (block_read drive block s.old image0.old image1.old
        out.old status.old).first }
    ensures second { image1.new
        ≡ (block_read drive block s.old image0.old image1.old
        out.old status.old).second }
    ensures out { out.new
        ≡ (block_read drive block s.old image0.old image1.old
        out.old status.old).block }
    ensures status { status.new
        ≡ (block_read drive block s.old image0.old image1.old
        out.old status.old).status }
{
    let Some(c) = record(s) else {
        return NO_RECORD;
    };
    match block_refusal(c, image0, image1, drive, block, out.len(), status.len()) {
        Err(denied) => block_word(Err(denied), c),
        Ok(()) => {
            let served = read_block(c, image0, image1, drive, block, out);
            finish_block(s, status, served)
        }
    }
}

#[unsafe(no_mangle)]
#[tactic(auto, using(pack::proofs::PutLaws::record_long, crate::proofs::BlocksLaws::room_enough, crate::proofs::BlocksLaws::record_in_lem, crate::proofs::BlocksLaws::refused_holds, crate::proofs::BlocksLaws::write_served, crate::proofs::BlocksLaws::write_refused, crate::proofs::BlocksLaws::write_no_record))]
pub extern "C" fn bel_block_write(
    s: &mut [u8],
    image0: &mut [u8],
    image1: &mut [u8],
    drive: u8,
    block: u32,
    bytes: &[u8],
    status: &mut [u8],
) -> u32
    ensures word { result
        ≡ (block_write drive block s.old image0.old image1.old
        bytes.now status.old).word }
    ensures bytes { s.new
        ≡ (block_write drive block s.old image0.old image1.old
        bytes.now status.old).bytes }
    ensures back { HoldsServed s.old
        (refusal_in drive block s.old image0.old image1.old bytes.now
        status.old)
        (write_block drive block (box_in s.old image0.old image1.old)
        bytes.now).box.controller
        s.new }
    ensures first { image0.new
        ≡ (block_write drive block s.old image0.old image1.old
        bytes.now status.old).first }
    ensures second { image1.new
        ≡ (block_write drive block s.old image0.old image1.old
        bytes.now status.old).second }
    ensures status { status.new
        ≡ (block_write drive block s.old image0.old image1.old
        bytes.now status.old).status }
{
    let Some(c) = record(s) else {
        return NO_RECORD;
    };
    match block_refusal(c, image0, image1, drive, block, bytes.len(), status.len()) {
        Err(denied) => block_word(Err(denied), c),
        Ok(()) => {
            let served = write_block(c, image0, image1, drive, block, bytes);
            finish_block(s, status, served)
        }
    }
}

#[unsafe(no_mangle)]
pub extern "C" fn bel_image_size(cylinders: u8, heads: u8, slots: u8, n: u8) -> u32
    ensures { result ≡ size_of_disk cylinders heads slots n }
{
    size_of_disk(cylinders, heads, slots, n)
}

#[unsafe(no_mangle)]
pub extern "C" fn bel_image_blank(
    image: &mut [u8],
    cylinders: u8,
    heads: u8,
    slots: u8,
    n: u8,
    protect: u8,
    fill: u8,
) -> u32
    ensures value { result ≡ made_of (length image.old) cylinders heads slots n protect }
    ensures image_after { image.new ≡ image_of image.old cylinders heads slots n protect fill }
{
    let header = Header {
        cylinders,
        heads,
        slots,
        n,
        protect,
    };
    make_blank(image, header, fill)
}
