// Decimal numbers below 1,000,000,000: tick counts and head positions.
ghost use Rattle.std.specs.Prelude.{◌≡◌, Some};
ghost use Rattle.script.specs.Decimal.{digit_after, count_from, decimal_in, head_in};

use log_lines::words::Word;

// A digit more.
#[tactic(auto, unfolding(crate::specs::Decimal::digit_after))]
fn digit_after(value: u32, byte: u8) -> Option<u32>
    ensures { result ≡ digit_after value byte }
{
    match byte {
        b'0'..=b'9' if value <= 99_999_999 => Some(value * 10 + u32::from(byte - b'0')),
        _ => None,
    }
}

// The number that digits say. No digits say 0.
#[tactic(auto, using(crate::proofs::DecimalLaws::count_none, crate::proofs::DecimalLaws::count_step, crate::proofs::DecimalLaws::count_end))]
fn count_of(t: &[u8]) -> Option<u32>
    ensures { result ≡ count_from (Some 0) t.now }
{
    let mut value = 0;
    for byte in t {
        value = digit_after(value, *byte)?;
    }
    Some(value)
}

#[tactic(auto, unfolding(crate::specs::Decimal::decimal_in))]
pub fn decimal_in(s: &[u8], word: Word) -> Option<u32>
    ensures { result ≡ decimal_in s.now word }
{
    if word.length() == 0 {
        return None;
    }
    count_of(s.get(word.start..word.stop)?)
}

// A head position: whether it is one is for power-on to say, as long as it fits a byte.
#[tactic(auto, unfolding(crate::specs::Decimal::head_by))]
pub fn head_in(s: &[u8], word: Word) -> Option<u8>
    ensures { result ≡ head_in s.now word }
{
    u8::try_from(decimal_in(s, word)?).ok()
}
