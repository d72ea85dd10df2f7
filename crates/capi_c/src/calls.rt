// The calls of document 01, and many ticks at once. No bytes trap: those that are no record are refused.
ghost use Rattle.std.specs.Prelude.{◌≡◌, ◌≤◌, length};
ghost use Rattle.fdc.specs.Calls.{power_on, read_port, write_port, dma_read, dma_write, note_change};
ghost use Rattle.fdc.specs.Ticks.{tick_of};
ghost use Rattle.pack.specs.Back.{HoldsRecord};
ghost use Rattle.pack.specs.Bytes.{record_size, record_in};
ghost use Rattle.many_ticks.specs.Run.{many_ticks};
ghost use Rattle.capi.specs.Calls.{
  set_in,
  word_back,
  bytes_from,
  cycle_from,
  HoldsFrom,
  power_word,
  power_bytes,
  image_from,
  long_from,
  first_from,
  second_from,
};

#[unsafe(no_mangle)]
pub extern "C" fn bel_record_size() -> u32
    ensures { result ≡ record_size }
{
    capi::calls::bel_record_size()
}

#[unsafe(no_mangle)]
pub extern "C" fn bel_power_on(s: &mut [u8], head0: u8, head1: u8) -> u32
    ensures word { result ≡ power_word s.old (power_on head0 head1) }
    ensures bytes { s.new ≡ power_bytes s.old (power_on head0 head1) }
    ensures back { record_size ≤ length s.old
        → HoldsRecord s.new (power_on head0 head1).controller }
{
    capi::calls::bel_power_on(s, head0, head1)
}

#[unsafe(no_mangle)]
pub extern "C" fn bel_read_port(s: &mut [u8], offset: u8) -> u32
    ensures word { result ≡ word_back s.old (read_port offset (record_in s.old)) }
    ensures bytes { s.new
        ≡ bytes_from s.old (read_port offset (record_in s.old)) }
    ensures back { HoldsFrom s.old (read_port offset (record_in s.old))
        s.new }
{
    capi::calls::bel_read_port(s, offset)
}

#[unsafe(no_mangle)]
pub extern "C" fn bel_write_port(s: &mut [u8], offset: u8, byte: u8) -> u32
    ensures word { result
        ≡ word_back s.old (write_port offset byte (record_in s.old)) }
    ensures bytes { s.new
        ≡ bytes_from s.old (write_port offset byte (record_in s.old)) }
    ensures back { HoldsFrom s.old (write_port offset byte (record_in s.old))
        s.new }
{
    capi::calls::bel_write_port(s, offset, byte)
}

// To the host; tc is 0 or not.
#[unsafe(no_mangle)]
pub extern "C" fn bel_dma_read(s: &mut [u8], tc: u8) -> u32
    ensures word { result
        ≡ word_back s.old (dma_read (set_in tc) (record_in s.old)) }
    ensures bytes { s.new
        ≡ cycle_from s.old (dma_read (set_in tc) (record_in s.old)) }
    ensures back { HoldsFrom s.old (dma_read (set_in tc) (record_in s.old))
        s.new }
{
    capi::calls::bel_dma_read(s, tc)
}

// From the host.
#[unsafe(no_mangle)]
pub extern "C" fn bel_dma_write(s: &mut [u8], byte: u8, tc: u8) -> u32
    ensures word { result
        ≡ word_back s.old (dma_write byte (set_in tc) (record_in s.old)) }
    ensures bytes { s.new
        ≡ cycle_from s.old (dma_write byte (set_in tc) (record_in s.old)) }
    ensures back { HoldsFrom s.old (dma_write byte (set_in tc) (record_in s.old))
        s.new }
{
    capi::calls::bel_dma_write(s, byte, tc)
}

#[unsafe(no_mangle)]
pub extern "C" fn bel_note_change(s: &mut [u8], drive: u8) -> u32
    ensures word { result ≡ word_back s.old (note_change drive (record_in s.old)) }
    ensures bytes { s.new
        ≡ bytes_from s.old (note_change drive (record_in s.old)) }
    ensures back { HoldsFrom s.old (note_change drive (record_in s.old))
        s.new }
{
    capi::calls::bel_note_change(s, drive)
}

// One byte time, over the two images.
#[unsafe(no_mangle)]
pub extern "C" fn bel_tick(s: &mut [u8], image0: &mut [u8], image1: &mut [u8]) -> u32
    ensures word { result
        ≡ word_back s.old
        (tick_of image0.old image1.old (record_in s.old)) }
    ensures bytes { s.new
        ≡ bytes_from s.old
        (tick_of image0.old image1.old (record_in s.old)) }
    ensures back { HoldsFrom s.old
        (tick_of image0.old image1.old (record_in s.old))
        s.new }
    ensures first { image0.new
        ≡ image_from 0 s.old image0.old image1.old image0.old }
    ensures second { image1.new
        ≡ image_from 1 s.old image0.old image1.old image1.old }
{
    capi::calls::bel_tick(s, image0, image1)
}

// Up to n ticks, with one reading and one writing of the record.
#[unsafe(no_mangle)]
pub extern "C" fn bel_ticks(s: &mut [u8], image0: &mut [u8], image1: &mut [u8], n: u32) -> u64
    ensures word { result
        ≡ long_from n s.old image0.old image1.old }
    ensures bytes { s.new
        ≡ bytes_from s.old
        (many_ticks n image0.old image1.old (record_in s.old)).answer }
    ensures back { HoldsFrom s.old
        (many_ticks n image0.old image1.old (record_in s.old)).answer
        s.new }
    ensures first { image0.new
        ≡ first_from n s.old image0.old image1.old }
    ensures second { image1.new
        ≡ second_from n s.old image0.old image1.old }
{
    capi::calls::bel_ticks(s, image0, image1, n)
}
