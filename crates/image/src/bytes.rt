// A byte of a lent slice, for any index: nothing is asked of the caller.
ghost use Rattle.std.specs.Prelude.{◌≡◌, get_or};

// Past the end a byte is 0.
pub fn byte_at(s: &[u8], i: usize) -> u8
    ensures { result ≡ get_or s.now i 0 }
{
    s.get(i).copied().unwrap_or(0)
}
