// Writing the lines of a saved text: fields and rows, written or only counted.
ghost use Rattle.std.specs.Prelude.{◌≡◌, ℕ, ◌+◌, ◌<◌, ◌≤◌, length};
ghost use Rattle.forms.specs.Spelling.{hex, hex_byte, reason_text};
ghost use Rattle.forms.specs.Written.{Wrote};
ghost use Rattle.saved_text.specs.Puts.{row_text, first_text, max_row};

use crate::number::Number;
use forms::letters::{DASH, FIRST};
use forms::text::{NEWLINE, TAB, digit_count, put_number};
use lit::NONE;

// The bytes of the hexadecimal digits. A table is looked at: sixteen choices between two ranges were packed into one register, which took longer.
static HEX_BYTES: [u8; 16] = [
    b'0', b'1', b'2', b'3', b'4', b'5', b'6', b'7', b'8', b'9', b'a', b'b', b'c', b'd', b'e', b'f',
];

// The byte of a hexadecimal digit.
fn hex_byte(d: u8) -> u8
    requires { d < 16 }
    ensures { result ≡ hex_byte d }
{
    HEX_BYTES[d as usize]
}

// Writes 64 bits as 16 hexadecimal digits from a place on, the last one first, and gives the place behind them.
pub fn put_bits(out: &mut [u8], at: usize, v: u64) -> usize
    requires { at + 16 ≤ length out.old }
    ensures { Wrote at (hex 16 v) out.old out.new result }
{
    let mut left = v;
    for i in 0..16 {
        out[at + (15 - i)] = hex_byte((left % 16) as u8);
        left /= 16;
    }
    at + 16
}

// Writes a reason from a place on, the dash for NONE, and gives the place behind it.
pub fn put_reason(out: &mut [u8], at: usize, v: u32) -> usize
    requires { at + length (reason_text v) ≤ length out.old }
    ensures { Wrote at (reason_text v) out.old out.new result }
{
    if v == NONE {
        out[at] = DASH;
        return at + 1;
    }
    put_number(out, at, v as u64)
}

// How many bytes a reason takes.
pub fn reason_length(v: u32) -> usize
    ensures { result ≡ length (reason_text v) }
{
    if v == NONE {
        return 1;
    }
    digit_count(v as u64)
}

// How many bytes a line with these numbers takes.
pub fn row_length<N: Number>(kind: N::Kind, numbers: &[N]) -> usize
    requires { length numbers.now ≤ max_row }
    ensures { (letter : ℕ) → result ≡ length (row_text letter (N.kind_of kind) (N.values numbers.now)) }
{
    let mut k = 2;
    for v in numbers {
        k += 1 + v.length(kind);
    }
    k
}

// Writes a line with this letter and these numbers from a place on, and gives the place behind it.
pub fn put_row<N: Number>(
    out: &mut [u8],
    at: usize,
    letter: u8,
    kind: N::Kind,
    numbers: &[N],
) -> usize
    requires { at + length (row_text letter (N.kind_of kind) (N.values numbers.now)) ≤ length out.old }
    ensures { Wrote at (row_text letter (N.kind_of kind) (N.values numbers.now)) out.old out.new result }
{
    out[at] = letter;
    let mut end = at + 1;
    for v in numbers {
        out[end] = TAB;
        end = v.put(out, end + 1, kind);
    }
    out[end] = NEWLINE;
    end + 1
}

// Writes bytes from a place on, and gives the place behind them. It is a loop, and no copy_from_slice, which would have a host's archive need memmove
// beside memset and memcpy.
fn put_bytes(out: &mut [u8], at: usize, word: &[u8]) -> usize
    requires { at + length word.now ≤ length out.old }
    ensures { Wrote at word.now out.old out.new result }
{
    for (i, byte) in word.iter().enumerate() {
        out[at + i] = *byte;
    }
    at + word.len()
}

// Writes the first line, with N and the word of the mode, from a place on, and gives the place behind it.
pub fn put_first(out: &mut [u8], at: usize, n: u32, word: &[u8]) -> usize
    requires { at + length (first_text n word.now) ≤ length out.old }
    ensures { Wrote at (first_text n word.now) out.old out.new result }
{
    out[at] = FIRST;
    out[at + 1] = TAB;
    let mut end = put_number(out, at + 2, n as u64);
    out[end] = TAB;
    end = put_bytes(out, end + 1, word);
    out[end] = NEWLINE;
    end + 1
}
