// Which bytes of an image differ from its file's: only these are written back.
ghost use Rattle.std.specs.Prelude.{◌≡◌, ◌≤◌, ◌+◌, length, take_while, zip, eqb, drop};
ghost use Rattle.std.specs.Bool.{beq};
ghost use Rattle.script.specs.Change.{stretch};

// With how many pairs of equal bytes two slices begin, or with how many of different ones. A flag and no closure:
// `stretch` has it so.
fn taken(old: &[u8], new: &[u8], equal: bool) -> usize
    ensures value { result ≡ length (take_while (λ p. beq (eqb p.0 p.1) equal) (zip old.now new.now)) }
    ensures upper_bound { result ≤ length old.now }
{
    old.iter()
        .zip(new)
        .take_while(|p| (*p.0 == *p.1) == equal)
        .count()
}

#[tactic(auto, using(crate::proofs::StretchLaws::stretch_taken))]
fn stretch(old: &[u8], new: &[u8], equal: bool) -> usize
    ensures value { result ≡ stretch equal old.now new.now }
    ensures upper_bound { result ≤ length old.now }
{
    taken(old, new, equal)
}

// Where the bytes that are equal in both end, from a place on, or those that differ. Past the shorter one nothing is
// either. The slices are cut there, so that their bytes before it are not passed again.
#[tactic(auto, using(std::proofs::lemmas::List::drop_min))]
pub fn stretch_end(old: &[u8], new: &[u8], at: usize, equal: bool) -> usize
    ensures { result ≡ at + stretch equal (drop at old.now) (drop at new.now) }
{
    at + stretch(&old[at.min(old.len())..], &new[at.min(new.len())..], equal)
}
