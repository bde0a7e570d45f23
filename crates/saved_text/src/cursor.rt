// Reading the lines of a saved text byte by byte: a field ends at the first byte that cannot go on with it, and a tab or a newline has to stand there.
ghost use Rattle.std.specs.Prelude.{◌≡◌, ◌≤◌, length, set};
ghost use Rattle.saved_text.specs.Saved.{bits, reason};
ghost use Rattle.saved_text.specs.Numbers.{word_kind, long_kind};
ghost use Rattle.saved_text.specs.Cursor.{FieldRead, Small, RowRead};

use crate::number::{Long, Number, Word};
use forms::letters::DASH;
use forms::text::{Field, NEWLINE, TAB, digits_at, pattern};
use lit::NONE;

// How many numbers a line has, the greatest of them, or 0, and the place behind the line's newline.
#[derive(Clone, Copy)]
pub struct Numbers {
    pub count: usize,
    pub greatest: u64,
    pub behind: usize,
}

// The field at a place: a number below NONE in decimal, or the dash for NONE.
fn reason_at(text: &[u8], at: usize) -> Option<Field>
    requires { at ≤ length text.now }
    ensures { FieldRead reason text.now at result }
{
    if at < text.len() && text[at] == DASH {
        return Some(Field {
            value: NONE as u64,
            end: at + 1,
        });
    }
    digits_at(text, at, NONE as u64 - 1)
}

// The field at a place: 64 bits as 16 hexadecimal digits.
fn bits_at(text: &[u8], at: usize) -> Option<Field>
    requires { at ≤ length text.now }
    ensures { FieldRead bits text.now at result }
{
    if text.len() - at < 16 {
        return None;
    }
    let value = pattern(&text[at..at + 16])?;
    Some(Field {
        value,
        end: at + 16,
    })
}

// The word at a place.
pub fn word_at(text: &[u8], at: usize, kind: Word) -> Option<Field>
    requires { at ≤ length text.now }
    ensures { FieldRead (word_kind kind) text.now at result × Small result }
{
    match kind {
        Word::UpTo(top) => digits_at(text, at, top as u64),
        Word::Reason => reason_at(text, at),
    }
}

// And the long number.
pub fn long_at(text: &[u8], at: usize, kind: Long) -> Option<Field>
    requires { at ≤ length text.now }
    ensures { FieldRead (long_kind kind) text.now at result }
{
    match kind {
        Long::Number => digits_at(text, at, u64::MAX),
        Long::Bits => bits_at(text, at),
    }
}

// Stores a number at a place of out, if out has it.
pub fn keep<N: Number>(out: &mut [N], at: usize, v: N)
    ensures { N.values out.new ≡ set (N.values out.old) at (N.value v) }
{
    if at < out.len() {
        out[at] = v;
    }
}

// The numbers of the line with this letter that stands at a place of a text, in out as far as it has room.
#[inline(always)]
pub fn read_row<N: Number>(
    text: &[u8],
    at: usize,
    letter: u8,
    kind: N::Kind,
    out: &mut [N],
) -> Option<Numbers>
    requires { at ≤ length text.now }
    ensures { RowRead letter (N.kind_of kind) text.now at result (N.values out.new) }
{
    if at == text.len() || text[at] != letter {
        return None;
    }
    let mut count = 0;
    let mut greatest = 0;
    let mut i = at + 1;
    // a while: a field ends where it is read, no range has these places
    while i < text.len() && text[i] == TAB {
        let (v, end) = N::read(text, i + 1, kind)?;
        keep(out, count, v);
        greatest = v.wide().max(greatest);
        count += 1;
        i = end;
    }
    if i == text.len() || text[i] != NEWLINE {
        return None;
    }
    Some(Numbers {
        count,
        greatest,
        behind: i + 1,
    })
}
