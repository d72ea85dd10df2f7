// The judge (02 2026-04).
ghost use Rattle.std.specs.Prelude.{◌≡◌};
ghost use Rattle.judging.specs.Judge.{judge_of};
ghost use Rattle.capi.specs.Judge.{verdict_word};

#[unsafe(no_mangle)]
pub extern "C" fn bel_judge(image: &[u8]) -> u64
    ensures { result ≡ verdict_word (judge_of image.now) }
{
    capi::judge::bel_judge(image)
}
