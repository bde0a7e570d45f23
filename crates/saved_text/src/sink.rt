// Where a text goes line by line: a buffer that it is written to, or a count of its bytes.
ghost use Rattle.std.specs.Prelude.{◌≤◌, ℕ, List, length};
ghost use Rattle.laws.specs.Each.{Each};
ghost use Rattle.saved_text.specs.Saved.{Fits};
ghost use Rattle.saved_text.specs.Puts.{row_text, first_text, max_row};
ghost use Rattle.saved_text.specs.Sinks.{SinkLaws, Counted, Countable, count_laws, Written, Writable, buffer_laws};

use crate::number::Number;
use crate::writing::{put_first, put_row, row_length};
use forms::text::digit_count;

pub trait Sink {
    // what it is once some bytes have gone to it, and that it has room for them
    ghost puts: { Self → List ℕ → Self → Type 0 };

    ghost room: { Self → List ℕ → Type 0 };

    // The line with this letter and these numbers.
    fn row<N: Number>(&mut self, letter: u8, kind: N::Kind, numbers: &[N])
        requires { Each (Fits (N.kind_of kind)) (N.values numbers.now) × (length (N.values numbers.now) ≤ max_row) × room self.old (row_text letter (N.kind_of kind) (N.values numbers.now)) }
        ensures { puts self.old (row_text letter (N.kind_of kind) (N.values numbers.now)) self.new };

    // The first line, with N and the word of the mode.
    fn first(&mut self, n: u32, word: &[u8])
        requires { room self.old (first_text n word.now) }
        ensures { puts self.old (first_text n word.now) self.new };

    ghost laws: { SinkLaws puts room };
}

// A count of bytes.
#[derive(Drop)]
pub struct Count {
    pub bytes: usize,
}

impl Sink for Count {
    ghost puts = { Counted };

    ghost room = { Countable };

    fn row<N: Number>(&mut self, letter: u8, kind: N::Kind, numbers: &[N]) {
        self.bytes += row_length(kind, numbers);
    }

    fn first(&mut self, n: u32, word: &[u8]) {
        self.bytes += 4 + digit_count(n as u64) + word.len();
    }

    ghost laws = { count_laws };
}

// A buffer, which is written from a place on.
#[derive(Drop)]
pub struct Buffer<'a> {
    pub out: &'a mut [u8],
    pub at: usize,
}

impl Sink for Buffer<'_> {
    ghost puts = { Written };

    ghost room = { Writable };

    fn row<N: Number>(&mut self, letter: u8, kind: N::Kind, numbers: &[N]) {
        self.at = put_row(self.out, self.at, letter, kind, numbers);
    }

    fn first(&mut self, n: u32, word: &[u8]) {
        self.at = put_first(self.out, self.at, n, word);
    }

    ghost laws = { buffer_laws };
}
