// The direction of a transfer as a byte of the record, and read back. They are no From of Pass, which is the crate
// sectors': the numbers are the record's bytes (the C interface), and `pass_number` and `pass_numbered` here say them.
ghost use Rattle.std.specs.Prelude.{◌≡◌};
ghost use Rattle.pack.specs.Bytes.{pass_number, pass_numbered};

use sectors::order::Pass;

pub fn pass_number(pass: Pass) -> u8
    ensures { result ≡ pass_number pass }
{
    match pass {
        Pass::Read => 0,
        Pass::Write => 1,
    }
}

#[tactic(auto, unfolding(crate::specs::Bytes::pass_numbered))]
pub fn pass_numbered(n: u8) -> Pass
    ensures { result ≡ pass_numbered n }
{
    if n == 0 { Pass::Read } else { Pass::Write }
}
