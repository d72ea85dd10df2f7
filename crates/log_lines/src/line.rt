// A line of a log: the call that it says, or what was expected where it says none. `script::line` has the same names
// for a language of its own: `script_read` and `read_from` differ in what follows `r`, and the definitions of each
// answer in its own Line and Expected, with words of its own. What both do alike they share: `Words`, `Gathered`,
// `text_length`.
ghost use Rattle.std.specs.Prelude.{◌≡◌, ◌≤◌, length, Some};
ghost use Rattle.log_lines.specs.Line.{expected_text, read_from, write_from, call_in, text_length, line_of};

use crate::words::{Words, letter_in, says_nothing};
use std::fmt;

#[derive(Clone, Copy, Debug, PartialEq, Eq)]
pub enum Expected {
    // `w` or `r`.
    Call,
    Offset,
    Byte,
    // Nothing more.
    End,
    // A line that fits its buffer.
    Shorter,
}

impl fmt::Display for Expected {
    ghost output = { λ e. Some (expected_text e) };

    fn fmt<W: fmt::Write>(&self, f: &mut fmt::Formatter<W>) -> fmt::Result {
        f.write_str(match self {
            Expected::Call => "a call, w or r",
            Expected::Offset => "an offset, a hexadecimal byte",
            Expected::Byte => "a value, a hexadecimal byte",
            Expected::End => "the end of the line",
            Expected::Shorter => "a line of at most 255 bytes",
        })
    }
}

#[derive(Clone, Copy, Debug, PartialEq, Eq)]
pub enum Line {
    // A blank line, or a comment.
    Nothing,
    Read(u8),
    // The offset, then the byte.
    Write(u8, u8),
}

// What follows `r`.
#[tactic(auto, unfolding(crate::specs::Line::read_from, crate::specs::Line::ended_at))]
fn read_from(mut words: Words<'_>) -> Result<Line, Expected>
    ensures { result ≡ read_from words.entry.text.now words.entry.at }
{
    let offset = words.number().ok_or(Expected::Offset)?;
    words.over(Line::Read(offset), Expected::End)
}

// What follows `w`.
#[tactic(auto, unfolding(crate::specs::Line::write_from, crate::specs::Line::byte_from, crate::specs::Line::ended_at))]
fn write_from(mut words: Words<'_>) -> Result<Line, Expected>
    ensures { result ≡ write_from words.entry.text.now words.entry.at }
{
    let offset = words.number().ok_or(Expected::Offset)?;
    let byte = words.number().ok_or(Expected::Byte)?;
    words.over(Line::Write(offset, byte), Expected::End)
}

#[tactic(auto, unfolding(crate::specs::Line::call_in))]
fn call_in(t: &[u8]) -> Result<Line, Expected>
    ensures { result ≡ call_in t.now }
{
    let mut words = Words::new(t);
    let word = words.word();
    if says_nothing(t, word) {
        return Ok(Line::Nothing);
    }
    match letter_in(t, word) {
        Some(b'r') => read_from(words),
        Some(b'w') => write_from(words),
        _ => Err(Expected::Call),
    }
}

// A line's length without the CR that may end it.
#[tactic(auto, unfolding(crate::specs::Line::text_length))]
pub fn text_length(s: &[u8]) -> usize
    ensures value { result ≡ text_length s.now }
    ensures upper_bound { result ≤ length s.now }
{
    match s.split_last() {
        Some((b'\r', text)) => text.len(),
        _ => s.len(),
    }
}

// A line, without its line end.
#[tactic(auto, unfolding(crate::specs::Line::line_of))]
pub fn line_of(s: &[u8]) -> Result<Line, Expected>
    ensures { result ≡ line_of s.now }
{
    call_in(&s[..text_length(s)])
}
