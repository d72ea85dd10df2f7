// The command codes: which command each of the 256 is, and how many bytes it has (01 Commands).
ghost use Rattle.std.specs.Prelude.{◌≡◌};
ghost use Rattle.chip.specs.Commands.{kind_of, entry_of, table_line, kind_number, kind_numbered, mt_of, sk_of};

use crate::table::CODES;

#[derive(Clone, Copy, Debug, PartialEq, Eq)]
pub enum Kind {
    Unknown,
    ReadData,
    ReadDeleted,
    WriteData,
    WriteDeleted,
    ReadId,
    Format,
    Recalibrate,
    SenseInterrupt,
    Specify,
    SenseDrive,
    Seek,
    Version,
    Configure,
}

#[derive(Clone, Copy, Debug, PartialEq, Eq)]
pub struct Entry {
    pub kind: Kind,
    pub bytes: u8,
}

// The number that stands for a kind in the table and in the record. Written out and no cast of the case: a kind put in
// between must not move the numbers of a record's bytes.
impl From<Kind> for u8 {
    ghost from_gives = { λ kind number. number ≡ kind_number kind };

    fn from(kind: Kind) -> u8 {
        match kind {
            Kind::Unknown => 0,
            Kind::ReadData => 1,
            Kind::ReadDeleted => 2,
            Kind::WriteData => 3,
            Kind::WriteDeleted => 4,
            Kind::ReadId => 5,
            Kind::Format => 6,
            Kind::Recalibrate => 7,
            Kind::SenseInterrupt => 8,
            Kind::Specify => 9,
            Kind::SenseDrive => 10,
            Kind::Seek => 11,
            Kind::Version => 12,
            Kind::Configure => 13,
        }
    }
}

// Any other number is that of no known kind.
impl From<u8> for Kind {
    ghost from_gives = { λ number kind. kind ≡ kind_numbered number };

    #[tactic(auto, unfolding(crate::specs::Commands::kind_numbered))]
    fn from(number: u8) -> Kind {
        match number {
            1 => Kind::ReadData,
            2 => Kind::ReadDeleted,
            3 => Kind::WriteData,
            4 => Kind::WriteDeleted,
            5 => Kind::ReadId,
            6 => Kind::Format,
            7 => Kind::Recalibrate,
            8 => Kind::SenseInterrupt,
            9 => Kind::Specify,
            10 => Kind::SenseDrive,
            11 => Kind::Seek,
            12 => Kind::Version,
            13 => Kind::Configure,
            _ => Kind::Unknown,
        }
    }
}

fn line_at(code: u8) -> u8
    ensures { result ≡ table_line (kind_of code) }
{
    CODES[usize::from(code)]
}

#[tactic(auto, using(crate::proofs::CodeLaws::line_read), unfolding(crate::specs::Commands::entry_of))]
pub fn entry_at(code: u8) -> Entry
    ensures { result ≡ entry_of code }
{
    let line = line_at(code);
    Entry {
        kind: Kind::from(line / 10),
        bytes: line % 10,
    }
}

// MT and SK: a function for each, as docs/CONTRACTS.md names them with the document's bits.
pub fn mt_of(code: u8) -> bool
    ensures { result ≡ mt_of code }
{
    code / 0x80 % 2 == 1
}

pub fn sk_of(code: u8) -> bool
    ensures { result ≡ sk_of code }
{
    code / 0x20 % 2 == 1
}
