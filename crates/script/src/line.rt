// A line of a log: the call that it says, or what was expected where it says none. `log_lines::line` has the same names
// for its smaller language; why they are two stands there.
ghost use Rattle.std.specs.Prelude.{◌≡◌, Some};
ghost use Rattle.log_lines.specs.Hex.{hex_in};
ghost use Rattle.log_lines.specs.Words.{word_from};
ghost use Rattle.script.specs.Line.{
  pair_in,
  flag_in,
  arrow_from,
  script_read,
  script_write,
  take_from,
  give_from,
  change_from,
  ticks_from,
  power_from,
  letter_call,
  script_call,
  script_line,
  script_gathered,
  script_expected_text,
};

use crate::decimal::{decimal_in, head_in};
use log_lines::gather::Gathered;
use log_lines::line::text_length;
use log_lines::words::{Word, Words, byte_at, letter_in, says_nothing};
use std::fmt;

#[derive(Clone, Copy, Debug, PartialEq, Eq)]
pub enum Expected {
    Call,
    Head,
    Offset,
    Byte,
    // 0 or 1.
    Tc,
    Drive,
    Count,
    // Nothing more.
    End,
    // A line that fits its buffer.
    Shorter,
}

impl fmt::Display for Expected {
    ghost output = { λ e. Some (script_expected_text e) };

    fn fmt<W: fmt::Write>(&self, f: &mut fmt::Formatter<W>) -> fmt::Result {
        f.write_str(match self {
            Expected::Call => "a call: p, w, r, dr, dw, c or t",
            Expected::Head => "a head position, a decimal number up to 255",
            Expected::Offset => "an offset, a hexadecimal byte",
            Expected::Byte => "a value, a hexadecimal byte",
            Expected::Tc => "TC, 0 or 1",
            Expected::Drive => "a drive, a hexadecimal byte",
            Expected::Count => "a count of ticks, a decimal number up to 999999999",
            Expected::End => "the end of the line",
            Expected::Shorter => "a line of at most 255 bytes",
        })
    }
}

#[derive(Clone, Copy, Debug, PartialEq, Eq)]
pub enum Line {
    // A blank line, or a comment.
    Nothing,
    // The heads of drives 0 and 1.
    Power(u8, u8),
    Read(u8),
    // The offset, then the value that was recorded.
    Recorded(u8, u8),
    // The offset, then the byte.
    Write(u8, u8),
    // A DMA read, by whether TC is on.
    Take(bool),
    // A DMA write.
    Give(u8, bool),
    // The drive whose disk was changed.
    Change(u8),
    Ticks(u32),
}

// The two bytes of a word of two; of any other word none.
#[tactic(auto, unfolding(crate::specs::Line::pair_in))]
fn pair_in(t: &[u8], word: Word) -> Option<(u8, u8)>
    ensures { result ≡ pair_in t.now word }
{
    match word.length() {
        2 => Some((byte_at(t, word.start), byte_at(t, word.start + 1))),
        _ => None,
    }
}

// The flag that the next word says, 0 or 1.
fn flag(words: &mut Words<'_>) -> Option<bool>
    ensures flag { result ≡ flag_in (hex_in words.old.text.now (word_from words.old.text.now words.old.at)) }
    ensures text { words.new.text ≡ words.old.text }
    ensures at { words.new.at ≡ (word_from words.old.text.now words.old.at).stop }
{
    match words.number() {
        Some(0) => Some(false),
        Some(1) => Some(true),
        _ => None,
    }
}

// What follows the offset of a read: nothing, or the value that was recorded.
#[tactic(auto, unfolding(crate::specs::Line::arrow_from, crate::specs::Line::recorded_from, crate::specs::Line::script_ended))]
fn arrow_from(words: Words<'_>, offset: u8) -> Result<Line, Expected>
    ensures { result ≡ arrow_from words.entry.text.now words.entry.at offset }
{
    let mut ahead = words;
    let word = ahead.word();
    if pair_in(words.text, word) == Some((b'-', b'>')) {
        let byte = ahead.number().ok_or(Expected::Byte)?;
        return ahead.over(Line::Recorded(offset, byte), Expected::End);
    }
    words.over(Line::Read(offset), Expected::End)
}

// What follows `r`.
#[tactic(auto, unfolding(crate::specs::Line::script_read))]
fn read_from(mut words: Words<'_>) -> Result<Line, Expected>
    ensures { result ≡ script_read words.entry.text.now words.entry.at }
{
    let offset = words.number().ok_or(Expected::Offset)?;
    arrow_from(words, offset)
}

// What follows `w`.
#[tactic(auto, unfolding(crate::specs::Line::script_write, crate::specs::Line::script_byte, crate::specs::Line::script_ended))]
fn write_from(mut words: Words<'_>) -> Result<Line, Expected>
    ensures { result ≡ script_write words.entry.text.now words.entry.at }
{
    let offset = words.number().ok_or(Expected::Offset)?;
    let byte = words.number().ok_or(Expected::Byte)?;
    words.over(Line::Write(offset, byte), Expected::End)
}

// What follows `dr`.
#[tactic(auto, unfolding(crate::specs::Line::take_from, crate::specs::Line::take_at_of, crate::specs::Line::script_ended))]
fn take_from(mut words: Words<'_>) -> Result<Line, Expected>
    ensures { result ≡ take_from words.entry.text.now words.entry.at }
{
    let tc = flag(&mut words).ok_or(Expected::Tc)?;
    words.over(Line::Take(tc), Expected::End)
}

// What follows `dw`.
#[tactic(auto, unfolding(crate::specs::Line::give_from, crate::specs::Line::tc_from, crate::specs::Line::give_at, crate::specs::Line::script_ended))]
fn give_from(mut words: Words<'_>) -> Result<Line, Expected>
    ensures { result ≡ give_from words.entry.text.now words.entry.at }
{
    let byte = words.number().ok_or(Expected::Byte)?;
    let tc = flag(&mut words).ok_or(Expected::Tc)?;
    words.over(Line::Give(byte, tc), Expected::End)
}

// What follows `c`.
#[tactic(auto, unfolding(crate::specs::Line::change_from, crate::specs::Line::script_ended))]
fn change_from(mut words: Words<'_>) -> Result<Line, Expected>
    ensures { result ≡ change_from words.entry.text.now words.entry.at }
{
    let drive = words.number().ok_or(Expected::Drive)?;
    words.over(Line::Change(drive), Expected::End)
}

// What follows `t`.
#[tactic(auto, unfolding(crate::specs::Line::ticks_from, crate::specs::Line::script_ended))]
fn ticks_from(mut words: Words<'_>) -> Result<Line, Expected>
    ensures { result ≡ ticks_from words.entry.text.now words.entry.at }
{
    let count = decimal_in(words.text, words.word()).ok_or(Expected::Count)?;
    words.over(Line::Ticks(count), Expected::End)
}

// What follows `p`.
#[tactic(auto, unfolding(crate::specs::Line::power_from, crate::specs::Line::head_from, crate::specs::Line::script_ended))]
fn power_from(mut words: Words<'_>) -> Result<Line, Expected>
    ensures { result ≡ power_from words.entry.text.now words.entry.at }
{
    let head0 = head_in(words.text, words.word()).ok_or(Expected::Head)?;
    let head1 = head_in(words.text, words.word()).ok_or(Expected::Head)?;
    words.over(Line::Power(head0, head1), Expected::End)
}

// A call whose word is one letter.
#[tactic(auto, unfolding(crate::specs::Line::letter_call))]
fn letter_call(words: Words<'_>, letter: Option<u8>) -> Result<Line, Expected>
    ensures { result ≡ letter_call words.entry.text.now words.entry.at letter }
{
    match letter {
        Some(b'r') => read_from(words),
        Some(b'w') => write_from(words),
        Some(b't') => ticks_from(words),
        Some(b'p') => power_from(words),
        Some(b'c') => change_from(words),
        _ => Err(Expected::Call),
    }
}

#[tactic(auto, unfolding(crate::specs::Line::script_call))]
fn call_in(t: &[u8]) -> Result<Line, Expected>
    ensures { result ≡ script_call t.now }
{
    let mut words = Words::new(t);
    let word = words.word();
    if says_nothing(t, word) {
        return Ok(Line::Nothing);
    }
    match pair_in(t, word) {
        Some((b'd', b'r')) => take_from(words),
        Some((b'd', b'w')) => give_from(words),
        _ => letter_call(words, letter_in(t, word)),
    }
}

// A line, without its line end.
#[tactic(auto, unfolding(crate::specs::Line::script_line))]
pub fn line_of(s: &[u8]) -> Result<Line, Expected>
    ensures { result ≡ script_line s.now }
{
    call_in(&s[..text_length(s)])
}

// The line whose bytes were gathered.
#[tactic(auto, unfolding(crate::specs::Line::script_within))]
pub fn gathered_line(gathered: Gathered) -> Result<Line, Expected>
    ensures { result ≡ script_gathered gathered }
{
    line_of(gathered.bytes().ok_or(Expected::Shorter)?)
}
