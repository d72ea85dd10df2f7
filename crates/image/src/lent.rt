// The two images that a tick is lent (01 Calls): that of the drive named is picked, and at most one byte of it stored.
ghost use Rattle.std.specs.Prelude.{◌≡◌};
ghost use Rattle.image.specs.Lent.{pick_of, stored_in, stored_as};

// 01 Form pick. A drive that is neither 0 nor 1 has an empty part for its image.
pub fn pick<'a>(drive: u8, a: &'a [u8], b: &'a [u8]) -> &'a [u8]
    ensures { result.now ≡ pick_of drive a.now b.now }
{
    match drive {
        0 => a,
        1 => b,
        _ => &a[0..0],
    }
}

// A byte that a tick puts into the image picked. A tick that puts none has no store.
#[derive(Clone, Copy, Debug, PartialEq, Eq)]
pub struct Put {
    pub at: usize,
    pub byte: u8,
}

// An offset past the end stores nothing.
pub fn apply(effect: Option<Put>, s: &mut [u8])
    ensures { s.new ≡ stored_in effect s.old }
{
    if let Some(put) = effect {
        if put.at < s.len() {
            s[put.at] = put.byte;
        }
    }
}

// The effect on the image of the drive named; the other stays.
pub fn store(drive: u8, effect: Option<Put>, a: &mut [u8], b: &mut [u8])
    ensures first { a.new ≡ stored_as drive 0 effect a.old }
    ensures second { b.new ≡ stored_as drive 1 effect b.old }
{
    match drive {
        0 => apply(effect, a),
        1 => apply(effect, b),
        _ => {}
    }
}
