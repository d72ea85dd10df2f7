// What the judge answers (02 2026-04), and the fault of a run of bytes.
ghost use Rattle.std.specs.Prelude.{◌≡◌, length, ◌≤◌, Some};
ghost use Rattle.judging.specs.Verdict.{bytes_fault, number_of, words_of};

use image::bytes::byte_at;
use std::fmt;

// What a fault is in, with its number (02 2026-04).
#[derive(Clone, Copy, Debug, PartialEq, Eq)]
pub enum Kind {
    Header = 1,
    Length = 2,
    // a track's tag or length
    Track = 3,
    // a track's cylinder or side byte
    Place = 4,
    // a mark above 5
    Mark = 5,
    // an address twice on a track
    Twice = 6,
    // the end field
    End = 7,
}

// The case's own number, as it is written there.
impl From<Kind> for u8 {
    ghost from_gives = { λ kind number. number ≡ number_of kind };

    fn from(kind: Kind) -> u8 {
        kind as u8
    }
}

impl fmt::Display for Kind {
    ghost output = { λ kind. Some (words_of kind) };

    fn fmt<W: fmt::Write>(&self, f: &mut fmt::Formatter<W>) -> fmt::Result {
        f.write_str(match self {
            Kind::Header => "header",
            Kind::Length => "length",
            Kind::Track => "track tag or length",
            Kind::Place => "cylinder or side byte",
            Kind::Mark => "mark above 5",
            Kind::Twice => "address twice",
            Kind::End => "end field",
        })
    }
}

// Its kind, and its byte's offset in the file.
#[derive(Clone, Copy, Debug, PartialEq, Eq)]
pub struct Fault {
    pub kind: Kind,
    pub at: usize,
}

// The first of these bytes that the image does not have from `at` on.
#[tactic(auto, using(crate::proofs::VerdictLaws::first_none, crate::proofs::VerdictLaws::first_more, crate::proofs::VerdictLaws::first_there))]
pub(crate) fn bytes_fault(s: &[u8], kind: Kind, at: usize, bytes: &[u8]) -> Result<(), Fault>
    requires at_bound { at ≤ 17129734408 }
    requires bytes_len_bound { length bytes.now ≤ 8 }
    ensures { result ≡ bytes_fault s.now kind at bytes.now }
{
    for (i, byte) in bytes.iter().enumerate() {
        let at = at + i;
        if byte_at(s, at) != *byte {
            return Err(Fault { kind, at });
        }
    }
    Ok(())
}
