// Ticks between two steps (01 Stepping, 02 2026-03).
ghost use Rattle.std.specs.Prelude.{◌≡◌, ◌/◌};
ghost use Rattle.chip.specs.Stepping.{step_ticks};

// SRT is the upper half of Specify's first byte, so every byte has an answer and nothing is asked of the caller.
pub fn step_ticks(specify: u8) -> u16
    ensures { result ≡ step_ticks (specify / 16) }
{
    let srt = u16::from(specify / 16);
    // 62.5 x (16 - SRT), rounded up: SRT 3 has 62.5 x 13 = 812.5, so 813. specs/Stepping has all sixteen.
    (125 * (16 - srt) + 1) / 2
}
