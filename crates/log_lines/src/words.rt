// The words of a line, by their places in a slice: a word ends at a space, a tab or the slice's end.
ghost use Rattle.std.specs.Prelude.{◌≡◌, ◌≤◌, ◌+◌, length, take_while, get_or, drop};
ghost use Rattle.std.specs.Bool.{beq};
ghost use Rattle.log_lines.specs.Words.{is_blank, run, word_length, word_from, letter_in, says_nothing, over};

// From `start` up to, and without, `stop`. An empty word is none. No Option, and places with the text beside them and
// no slice: so `word_from`, `word_length`, `letter_in`, `hex_in` and `decimal_in` have it, and of their functions
// CONTRACTS names `word_from`, `number_in` and `decimal_in`.
#[derive(Clone, Copy, Debug, PartialEq, Eq)]
pub struct Word {
    pub start: usize,
    pub stop: usize,
}

// Past the end a byte is 0, which no call has in it; `letter_in` and `hex_in` say it by `get_or`. It stands in
// `image::bytes` too: neither crate stands on the other, and one below both would hold nothing but this call of core's.
pub fn byte_at(s: &[u8], i: usize) -> u8
    ensures { result ≡ get_or s.now i 0 }
{
    s.get(i).copied().unwrap_or(0)
}

pub fn is_blank(byte: u8) -> bool
    ensures { result ≡ is_blank byte }
{
    matches!(byte, b' ' | b'\t')
}

// With how many blanks a slice begins, or with how many other bytes. A flag and no closure: `run` has it so.
fn taken(s: &[u8], blank: bool) -> usize
    ensures value { result ≡ length (take_while (λ b. beq (is_blank b) blank) s.now) }
    ensures upper_bound { result ≤ length s.now }
{
    s.iter()
        .take_while(|byte| is_blank(**byte) == blank)
        .count()
}

#[tactic(auto, using(crate::proofs::WordLaws::run_taken))]
fn run(s: &[u8], blank: bool) -> usize
    ensures value { result ≡ run blank s.now }
    ensures upper_bound { result ≤ length s.now }
{
    taken(s, blank)
}

// Where those that stand from a place on end. The slice is cut there, so that its bytes before it are not passed again.
#[tactic(auto, using(std::proofs::lemmas::List::drop_min))]
fn skip(s: &[u8], at: usize, blank: bool) -> usize
    ensures { result ≡ at + run blank (drop at s.now) }
{
    at + run(&s[at.min(s.len())..], blank)
}

// The first word from a place on.
#[tactic(auto, unfolding(crate::specs::Words::word_from))]
pub fn word_from(s: &[u8], at: usize) -> Word
    ensures { result ≡ word_from s.now at }
{
    let start = skip(s, at, true);
    let stop = skip(s, start, false);
    Word { start, stop }
}

impl Word {
    pub fn length(self) -> usize
        ensures { result ≡ word_length self }
    {
        self.stop.saturating_sub(self.start)
    }
}

// The one byte of a word of one; of any other word none.
#[tactic(auto, unfolding(crate::specs::Words::letter_in))]
pub fn letter_in(s: &[u8], word: Word) -> Option<u8>
    ensures { result ≡ letter_in s.now word }
{
    match word.length() {
        1 => Some(byte_at(s, word.start)),
        _ => None,
    }
}

// Whether the line that the word begins is blank, or a comment.
pub fn says_nothing(s: &[u8], word: Word) -> bool
    ensures { result ≡ says_nothing s.now word }
{
    word.length() == 0 || byte_at(s, word.start) == b'#'
}

// A line's words from a place on. That the text stays is said by each function that passes a word: a ghost field speaks
// of one value and not of the one before.
#[derive(Clone, Copy)]
pub struct Words<'a> {
    pub text: &'a [u8],
    pub at: usize,
}

impl<'a> Words<'a> {
    pub fn new(text: &'a [u8]) -> Words<'a>
        ensures text { result.text ≡ text.entry }
        ensures at { result.at ≡ 0 }
    {
        Words { text, at: 0 }
    }

    // The next word, which is passed.
    pub fn word(&mut self) -> Word
        ensures word { result ≡ word_from self.old.text.now self.old.at }
        ensures text { self.new.text ≡ self.old.text }
        ensures at { self.new.at ≡ result.stop }
    {
        let word = word_from(self.text, self.at);
        self.at = word.stop;
        word
    }

    // That line, of whichever log, where no word follows.
    pub fn over<L: Drop, E: Drop>(self, line: L, otherwise: E) -> Result<L, E>
        ensures { result ≡ over self.entry.text.now self.entry.at line otherwise }
    {
        if word_from(self.text, self.at).length() == 0 {
            Ok(line)
        } else {
            Err(otherwise)
        }
    }
}
