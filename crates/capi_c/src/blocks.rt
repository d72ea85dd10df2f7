// The block service, and the maker of blank disks (02 2026-01).
ghost use Rattle.std.specs.Prelude.{◌≡◌, length};
ghost use Rattle.blank.specs.Blank.{size_of_disk, made_of, image_of};
ghost use Rattle.block.specs.Place.{blocks_in};
ghost use Rattle.block.specs.Request.{read_block, write_block};
ghost use Rattle.capi.specs.Blocks.{box_in, refusal_in, block_read, block_write, HoldsServed};

#[unsafe(no_mangle)]
pub extern "C" fn bel_blocks(image: &[u8]) -> u32
    ensures { result ≡ blocks_in image.now }
{
    capi::blocks::bel_blocks(image)
}

#[unsafe(no_mangle)]
pub extern "C" fn bel_block_read(
    s: &mut [u8],
    image0: &mut [u8],
    image1: &mut [u8],
    drive: u8,
    block: u32,
    out: &mut [u8],
    status: &mut [u8],
) -> u32
    ensures word { result
        ≡ (block_read drive block s.old image0.old image1.old
        out.old status.old).word }
    ensures bytes { s.new
        ≡ (block_read drive block s.old image0.old image1.old
        out.old status.old).bytes }
    ensures back { HoldsServed s.old
        (refusal_in drive block s.old image0.old image1.old out.old
        status.old)
        (read_block drive block (box_in s.old image0.old image1.old)
        out.old).box.controller
        s.new }
    ensures first { image0.new
        ≡ (block_read drive block s.old image0.old image1.old
        out.old status.old).first }
    ensures second { image1.new
        ≡ (block_read drive block s.old image0.old image1.old
        out.old status.old).second }
    ensures out { out.new
        ≡ (block_read drive block s.old image0.old image1.old
        out.old status.old).block }
    ensures status { status.new
        ≡ (block_read drive block s.old image0.old image1.old
        out.old status.old).status }
{
    capi::blocks::bel_block_read(s, image0, image1, drive, block, out, status)
}

#[unsafe(no_mangle)]
pub extern "C" fn bel_block_write(
    s: &mut [u8],
    image0: &mut [u8],
    image1: &mut [u8],
    drive: u8,
    block: u32,
    bytes: &[u8],
    status: &mut [u8],
) -> u32
    ensures word { result
        ≡ (block_write drive block s.old image0.old image1.old
        bytes.now status.old).word }
    ensures bytes { s.new
        ≡ (block_write drive block s.old image0.old image1.old
        bytes.now status.old).bytes }
    ensures back { HoldsServed s.old
        (refusal_in drive block s.old image0.old image1.old bytes.now
        status.old)
        (write_block drive block (box_in s.old image0.old image1.old)
        bytes.now).box.controller
        s.new }
    ensures first { image0.new
        ≡ (block_write drive block s.old image0.old image1.old
        bytes.now status.old).first }
    ensures second { image1.new
        ≡ (block_write drive block s.old image0.old image1.old
        bytes.now status.old).second }
    ensures status { status.new
        ≡ (block_write drive block s.old image0.old image1.old
        bytes.now status.old).status }
{
    capi::blocks::bel_block_write(s, image0, image1, drive, block, bytes, status)
}

#[unsafe(no_mangle)]
pub extern "C" fn bel_image_size(cylinders: u8, heads: u8, slots: u8, n: u8) -> u32
    ensures { result ≡ size_of_disk cylinders heads slots n }
{
    capi::blocks::bel_image_size(cylinders, heads, slots, n)
}

#[unsafe(no_mangle)]
pub extern "C" fn bel_image_blank(
    image: &mut [u8],
    cylinders: u8,
    heads: u8,
    slots: u8,
    n: u8,
    protect: u8,
    fill: u8,
) -> u32
    ensures value { result ≡ made_of (length image.old) cylinders heads slots n protect }
    ensures image_after { image.new ≡ image_of image.old cylinders heads slots n protect fill }
{
    capi::blocks::bel_image_blank(image, cylinders, heads, slots, n, protect, fill)
}
