// Bytes and numbers written into a lent buffer, one behind the other.
#![tactic(auto)]

ghost use Rattle.std.specs.Prelude.{◌∷◌, [], ◌+◌, ◌<◌, ◌≤◌, length};
ghost use Rattle.file_format.specs.Bytes.{bytes2, bytes4};
ghost use Rattle.file_writing.specs.Writing.{Wrote};

// One byte at a place; answers the next place.
pub fn put(out: &mut [u8], at: usize, b: u8) -> usize
    requires { at < length out.old }
    ensures { Wrote out.old at (b ∷ []) out.new result }
{
    out[at] = b;
    at + 1
}

// Bytes from a place on; answers the next place.
pub fn put_bytes(out: &mut [u8], at: usize, bytes: &[u8]) -> usize
    requires { at + length bytes.now ≤ length out.old }
    ensures { Wrote out.old at bytes.now out.new result }
{
    let end = at + bytes.len();
    out[at..end].copy_from_slice(bytes);
    end
}

// A number in two bytes, big-endian.
pub fn put_half(out: &mut [u8], at: usize, half: u16) -> usize
    requires { at + 2 ≤ length out.old }
    ensures { Wrote out.old at (bytes2 half) out.new result }
{
    put_bytes(out, at, &half.to_be_bytes())
}

// A number in four bytes, big-endian.
pub fn put_word(out: &mut [u8], at: usize, word: u32) -> usize
    requires { at + 4 ≤ length out.old }
    ensures { Wrote out.old at (bytes4 word) out.new result }
{
    put_bytes(out, at, &word.to_be_bytes())
}
