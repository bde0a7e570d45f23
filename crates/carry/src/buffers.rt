// The buffers of a run, zeros at first. The contracts give their lengths, which lending them as slices needs.
ghost use Rattle.std.specs.Prelude.{◌≡◌, IfOk, length, vec_len};

use std::alloc::{AllocError, Global};

// For a sheet, with a byte more, which tells that it is too long.
pub const SHEET: usize = 32769;

// For the answers to any sheet: 24 bytes for each of 32,768.
pub const ANSWERS: usize = 786432;

// For the text of any session: 80 + 41 * 2,048 + 2 * 2,048 + 5 * 8,192 bytes.
pub const TEXT: usize = 129104;

// For a file: eight times the longest text, so that its refusal can be told, with a byte more, which tells that it is longer.
pub const OLD: usize = 1048577;

pub fn zeros<const N: usize>() -> [u8; N]
    ensures { N ≡ length result }
{
    [0; N]
}

// The same from the allocator, for the longer ones.
pub fn allocated<const N: usize>(alloc: Global) -> Result<Vec<u8>, AllocError>
    ensures { IfOk result (λ buffer. N ≡ vec_len buffer) }
{
    Vec::from_elem(alloc, 0, N)
}
