// A line as its bytes come in, one at a time, from an input of any length.
ghost use Rattle.std.specs.Prelude.{◌≡◌, ◌≤◌, ◌↔◌, take, IfSome, IsNone};
ghost use Rattle.log_lines.specs.Gather.{no_text, added_to, gathered_line};

use crate::line::{Expected, Line, line_of};

// The first `length` bytes of `text`. A line is at most 255 bytes long: the 256th only tells that there were more.
// An array with a length beside it, since memory is fixed: no heap.
#[derive(Clone, Copy)]
pub struct Gathered {
    pub text: [u8; 256],
    pub length: usize,
}

impl Gathered {
    pub fn new() -> Gathered
        ensures { result ≡ no_text }
    {
        Gathered {
            text: [0; 256],
            length: 0,
        }
    }

    // What no longer fits is dropped.
    #[tactic(auto, unfolding(crate::specs::Gather::added_to))]
    pub fn add(mut self, byte: u8) -> Gathered
        ensures { result ≡ added_to byte self }
    {
        if self.length < 256 {
            self.text[self.length] = byte;
            self.length += 1;
        }
        self
    }

    // The bytes that were added; none where they are more than a line has.
    pub fn bytes(&self) -> Option<&[u8]>
        ensures long { IsNone result ↔ (256 ≤ self.now.length) }
        ensures bytes { IfSome result (λ s. s.now ≡ take self.now.length self.now.text) }
    {
        if self.length <= 255 {
            return Some(&self.text[..self.length]);
        }
        None
    }

    // The line whose bytes were added.
    #[tactic(auto, unfolding(crate::specs::Gather::line_within))]
    pub fn line(self) -> Result<Line, Expected>
        ensures { result ≡ gathered_line self }
    {
        line_of(self.bytes().ok_or(Expected::Shorter)?)
    }
}
