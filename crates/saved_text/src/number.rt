// The numbers of a saved text's lines as code has them: words of 32 bits and long numbers of 64, and how each is written.
ghost use Rattle.std.specs.Prelude.{◌≡◌, ◌+◌, ◌≤◌, ℕ, List, map, length};
ghost use Rattle.forms.specs.Written.{Wrote};
ghost use Rattle.saved_text.specs.Saved as saved;
ghost use Rattle.saved_text.specs.Saved.{field_text};
ghost use Rattle.saved_text.specs.Numbers.{word_kind, long_kind, as_they_are};
ghost use Rattle.saved_text.specs.Cursor.{FieldRead, as_field};

use crate::cursor::{long_at, word_at};
use crate::writing::{put_bits, put_reason, reason_length};
use forms::text::{digit_count, put_number};

// How words are written: in decimal up to the greatest that may stand there, or as reasons.
#[derive(Clone, Copy)]
pub enum Word {
    UpTo(u32),
    Reason,
}

// And long numbers: in decimal, or as the bits of a double.
#[derive(Clone, Copy)]
pub enum Long {
    Number,
    Bits,
}

// A word or a long number.
pub trait Number: Copy {
    // How it is written.
    type Kind: Copy;

    ghost kind_of: { Self.Kind → saved.Kind };

    // its value, and those of a list
    ghost value: { Self → ℕ };

    ghost values: { List Self → List ℕ };

    // The number at a place of a text, and the place behind it.
    fn read(text: &[u8], at: usize, kind: Self::Kind) -> Option<(Self, usize)>
        requires { at ≤ length text.now }
        ensures { FieldRead (kind_of kind) text.now at (as_field value result) };

    // Writes it from a place on, and gives the place behind it.
    fn put(self, out: &mut [u8], at: usize, kind: Self::Kind) -> usize
        requires { at + length (field_text (kind_of kind) (value self)) ≤ length out.old }
        ensures { Wrote at (field_text (kind_of kind) (value self)) out.old out.new result };

    // How many bytes it takes.
    fn length(self, kind: Self::Kind) -> usize
        ensures { result ≡ length (field_text (kind_of kind) (value self)) };

    // Its value in 64 bits.
    fn wide(self) -> u64
        ensures { result ≡ value self };

    ghost each: { (l : List Self) → values l ≡ map value l };
}

impl Number for u32 {
    type Kind = Word;

    ghost kind_of = { word_kind };

    ghost value = { λ v. v };

    ghost values = { λ l. l };

    fn read(text: &[u8], at: usize, kind: Word) -> Option<(u32, usize)> {
        let field = word_at(text, at, kind)?;
        Some((field.value as u32, field.end))
    }

    fn put(self, out: &mut [u8], at: usize, kind: Word) -> usize {
        match kind {
            Word::UpTo(_) => put_number(out, at, self as u64),
            Word::Reason => put_reason(out, at, self),
        }
    }

    fn length(self, kind: Word) -> usize {
        match kind {
            Word::UpTo(_) => digit_count(self as u64),
            Word::Reason => reason_length(self),
        }
    }

    fn wide(self) -> u64 {
        self as u64
    }

    ghost each = { as_they_are };
}

impl Number for u64 {
    type Kind = Long;

    ghost kind_of = { long_kind };

    ghost value = { λ v. v };

    ghost values = { λ l. l };

    fn read(text: &[u8], at: usize, kind: Long) -> Option<(u64, usize)> {
        let field = long_at(text, at, kind)?;
        Some((field.value, field.end))
    }

    fn put(self, out: &mut [u8], at: usize, kind: Long) -> usize {
        match kind {
            Long::Number => put_number(out, at, self),
            Long::Bits => put_bits(out, at, self),
        }
    }

    fn length(self, kind: Long) -> usize {
        match kind {
            Long::Number => digit_count(self),
            Long::Bits => 16,
        }
    }

    fn wide(self) -> u64 {
        self
    }

    ghost each = { as_they_are };
}
