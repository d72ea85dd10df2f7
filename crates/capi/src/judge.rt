// The judge for firmware (02 2026-04).
ghost use Rattle.std.specs.Prelude.{◌≡◌};
ghost use Rattle.judging.specs.Judge.{judge_of};
ghost use Rattle.capi.specs.Judge.{verdict_word};

use crate::word::long_word;
use judging::judge::judge;

#[unsafe(no_mangle)]
#[tactic(auto, using(judging::proofs::ExactLaws::offset_low))]
pub extern "C" fn bel_judge(image: &[u8]) -> u64
    ensures { result ≡ verdict_word (judge_of image.now) }
{
    match judge(image) {
        Ok(()) => 0,
        Err(f) => long_word(u32::from(u8::from(f.kind)), f.at as u32),
    }
}
