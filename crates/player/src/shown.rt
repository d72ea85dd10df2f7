// What is printed of an answer, and how it stands to a value that was recorded.
ghost use Rattle.std.specs.Prelude.{◌≡◌};
ghost use Rattle.player.specs.Shown.{flag_text, text_of, answer_text, mark_text, refused_in, differs_from};

use fdc::answer::Reply;
use log_lines::hex::letter;

fn flag_text(on: bool) -> u8
    ensures { result ≡ flag_text on }
{
    b'0' + u8::from(on)
}

fn text_of(first: u8, second: u8, int: bool, drq: bool) -> [u8; 7]
    ensures { result ≡ text_of first second int drq }
{
    [
        b' ',
        first,
        second,
        b' ',
        flag_text(int),
        b' ',
        flag_text(drq),
    ]
}

// The value, INT and DRQ. Bytes and no Display, and three parameters: `answer_text` says which seven they are, for any
// reply with any lines.
#[tactic(auto, unfolding(crate::specs::Shown::answer_text))]
pub fn answer_text(reply: Reply, int: bool, drq: bool) -> [u8; 7]
    ensures { result ≡ answer_text reply int drq }
{
    match reply {
        Reply::Done => text_of(b'-', b'-', int, drq),
        Reply::Byte(byte) => text_of(letter(byte / 16), letter(byte), int, drq),
        Reply::Refused(refusal) => text_of(b'R', letter(u8::from(refusal)), int, drq),
    }
}

// What stands behind an answer that is not the one recorded. Bytes and no Display: `mark_text` says which six they are.
pub fn mark_text(recorded: u8) -> [u8; 6]
    ensures { result ≡ mark_text recorded }
{
    [
        b' ',
        b'!',
        b'=',
        b' ',
        letter(recorded / 16),
        letter(recorded),
    ]
}

pub fn refused(reply: Reply) -> bool
    ensures { result ≡ refused_in reply }
{
    matches!(reply, Reply::Refused(_))
}

// A reply that is no byte differs from every byte.
pub fn differs(reply: Reply, recorded: u8) -> bool
    ensures { result ≡ differs_from recorded reply }
{
    !matches!(reply, Reply::Byte(byte) if byte == recorded)
}
