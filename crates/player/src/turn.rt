// The call that a line says, made on the box and its images.
ghost use Rattle.std.specs.Prelude.{◌≡◌};
ghost use Rattle.player.specs.Turn.{turn_ticks, called_turn};

use fdc::answer::{Answer, Reply};
use fdc::record::Controller;
use script::line::{Expected, Line};

// That many ticks, each handed the record and the images that the one before left. The answer is the last one's; where
// there is none, nothing is read and the lines are as they stand.
#[tactic(auto, using(crate::proofs::TurnLaws::image_length, crate::proofs::TurnLaws::one_of, crate::proofs::TurnLaws::none_left))]
pub fn ticks(controller: Controller, a: &mut [u8], b: &mut [u8], n: u32) -> Answer
    ensures answer { result ≡ (turn_ticks n a.old b.old controller).answer }
    ensures first { a.new ≡ (turn_ticks n a.old b.old controller).first }
    ensures second { b.new ≡ (turn_ticks n a.old b.old controller).second }
{
    let mut answer = controller.answer(Reply::Done);
    for _ in 0..n {
        answer = answer.controller.tick(a, b);
    }
    answer
}

// A line that says no call changes nothing, be it blank or malformed.
#[tactic(auto, unfolding(crate::specs::Turn::called_turn))]
pub fn called(
    controller: Controller,
    said: Result<Line, Expected>,
    a: &mut [u8],
    b: &mut [u8],
) -> Answer
    ensures answer { result ≡ (called_turn said a.old b.old controller).answer }
    ensures first { a.new ≡ (called_turn said a.old b.old controller).first }
    ensures second { b.new ≡ (called_turn said a.old b.old controller).second }
{
    let Ok(line) = said else {
        return controller.answer(Reply::Done);
    };
    match line {
        Line::Nothing => controller.answer(Reply::Done),
        Line::Power(head0, head1) => Controller::power_on(head0, head1),
        Line::Read(offset) | Line::Recorded(offset, _) => controller.read_port(offset),
        Line::Write(offset, byte) => controller.write_port(offset, byte),
        Line::Take(tc) => controller.dma_read(tc),
        Line::Give(byte, tc) => controller.dma_write(byte, tc),
        Line::Change(drive) => controller.note_change(drive),
        Line::Ticks(n) => ticks(controller, a, b, n),
    }
}
