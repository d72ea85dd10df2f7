// Hexadecimal bytes: one or two digits, letters of either case; written with letters of upper case.
ghost use Rattle.std.specs.Prelude.{◌≡◌};
ghost use Rattle.log_lines.specs.Hex.{hex_of, letter_of, hex_number, hex_in};
ghost use Rattle.log_lines.specs.Words.{word_from};

use crate::words::{Word, Words, byte_at};

// A digit's value; none where the byte is no digit.
#[tactic(auto, unfolding(crate::specs::Hex::hex_of))]
pub fn digit(byte: u8) -> Option<u8>
    ensures { result ≡ hex_of byte }
{
    match byte {
        b'0'..=b'9' => Some(byte - b'0'),
        b'A'..=b'F' => Some(byte - b'A' + 10),
        b'a'..=b'f' => Some(byte - b'a' + 10),
        _ => None,
    }
}

// The digit of a byte's lower half.
#[tactic(auto, unfolding(crate::specs::Hex::letter_of))]
pub fn letter(value: u8) -> u8
    ensures { result ≡ letter_of value }
{
    match value % 16 {
        low @ 0..=9 => b'0' + low,
        low => b'A' + (low - 10),
    }
}

// What a word of one or two digits says; any other word says no number.
#[tactic(auto, unfolding(crate::specs::Hex::hex_in, crate::specs::Hex::hex_number, crate::specs::Hex::hex_of))]
pub fn number_in(s: &[u8], word: Word) -> Option<u8>
    ensures { result ≡ hex_in s.now word }
{
    let first = byte_at(s, word.start);
    match word.length() {
        1 => digit(first),
        2 => Some(digit(first)? * 16 + digit(byte_at(s, word.start + 1))?),
        _ => None,
    }
}

impl<'a> Words<'a> {
    // The number that the next word says, which is passed.
    pub fn number(&mut self) -> Option<u8>
        ensures number { result ≡ hex_in self.old.text.now (word_from self.old.text.now self.old.at) }
        ensures text { self.new.text ≡ self.old.text }
        ensures at { self.new.at ≡ (word_from self.old.text.now self.old.at).stop }
    {
        number_in(self.text, self.word())
    }
}
