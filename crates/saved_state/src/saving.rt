// Writing the lines of a saved text that both modes share: the first line, the clauses and the trail. They go to a buffer or a count.
ghost use Rattle.std.specs.Prelude.{◌≡◌, ◌≤◌, length, take};
ghost use Rattle.laws.specs.Each.{Each};
ghost use Rattle.lit.specs.Numbers.{max_vars, max_clauses, max_literals};
ghost use Rattle.formula.specs.Clauses.{clauses};
ghost use Rattle.formula.specs.Good.{GoodShape};
ghost use Rattle.saved_text.specs.Saved.{Fits, clause_form, Row};
ghost use Rattle.saved_text.specs.Numbers.{word_kind};
ghost use Rattle.saved_text.specs.Puts.{row_text, max_row};
ghost use Rattle.saved_state.specs.Written as spec;
ghost use Rattle.saved_state.specs.Loops.{Codes};
ghost use Rattle.saved_state.specs.Pieces as pieces;
ghost use Rattle.saved_state.specs.Pieces.{clauses_text, trail_text, front_text, TrailLines};

use crate::writing::along;
use forms::letters::CLAUSE;
use formula::Clauses;
use lit::{MAX_CLAUSES, MAX_LITERALS, MAX_VARS, NONE};
use saved_text::letters::{CURR, LEVELS, REASONS, TRAIL};
use saved_text::number::Word;
use saved_text::sink::Sink;
use trail::TrailView;

// How many variables, and for a reader how many clauses and literals, a scratch has room for: setting up a long one costs more than a short text.
pub const FEW: usize = 64;

pub const FEW_CLAUSES: usize = 64;

pub const FEW_LITERALS: usize = 256;

pub const MORE: usize = 512;

pub const MORE_CLAUSES: usize = 512;

pub const MORE_LITERALS: usize = 2048;

// And the longest, for as many as there may be: of variables a cache line more, so that the arrays do not all begin at the same place of the cache.
pub const ALL: usize = MAX_VARS as usize + 16;

pub const ALL_CLAUSES: usize = MAX_CLAUSES as usize;

pub const ALL_LITERALS: usize = MAX_LITERALS as usize;

// How long a text is at most.
pub fn longest(n: u32, clauses: usize, literals: usize) -> usize
    requires { (n ≤ max_vars) × (clauses ≤ max_clauses) × (literals ≤ max_literals) }
    ensures { result ≡ pieces.longest n clauses literals }
{
    80 + 41 * n as usize + 2 * clauses + 5 * literals
}

// The line of each clause.
fn put_clauses<S: Sink>(sink: &mut S, list: Clauses<'_>)
    requires { GoodShape list.lits.now list.ends.now × Each (Row clause_form) (clauses list.lits.now list.ends.now) × S.room sink.old (clauses_text list.lits.now list.ends.now) }
    ensures { S.puts sink.old (clauses_text list.entry.lits.now list.entry.ends.now) sink.new }
{
    for i in 0..list.ends.len() as u32 {
        sink.row(CLAUSE, Word::UpTo(NONE), list.clause(i));
    }
}

// The line of what a table holds for the variable of each literal on the trail.
fn put_along<S: Sink>(
    sink: &mut S,
    letter: u8,
    kind: Word,
    codes: &[u32],
    table: &[u32],
    scratch: &mut [u32],
)
    requires scratch_len { (length scratch.old ≡ length codes.now) × (length codes.now ≤ max_row) × Codes (length table.now) codes.now }
    requires each { Each (Fits (word_kind kind)) (spec.along codes.now table.now) × S.room sink.old (row_text letter (word_kind kind) (spec.along codes.now table.now)) }
    ensures { S.puts sink.old (row_text letter (word_kind kind) (spec.along codes.now table.now)) sink.new }
{
    along(codes, table, scratch);
    sink.row(letter, kind, scratch);
}

// The lines of the trail: its literals, their levels and reasons, and curr_i.
fn put_trail<S: Sink>(
    sink: &mut S,
    codes: &[u32],
    levels: &[u32],
    reasons: &[u32],
    curr: u32,
    scratch: &mut [u32],
)
    requires { (length scratch.old ≡ length codes.now) × TrailLines codes.now levels.now reasons.now × S.room sink.old (trail_text codes.now levels.now reasons.now curr) }
    ensures { S.puts sink.old (trail_text codes.now levels.now reasons.now curr) sink.new }
{
    let one = [curr];
    sink.row(TRAIL, Word::UpTo(NONE), codes);
    put_along(sink, LEVELS, Word::UpTo(NONE), codes, levels, scratch);
    put_along(sink, REASONS, Word::Reason, codes, reasons, scratch);
    sink.row(CURR, Word::UpTo(NONE), &one);
}

// The lines up to those of the chooser; the word is that of the mode. The scratch has room for the trail's literals.
pub fn put_front<S: Sink>(
    sink: &mut S,
    n: u32,
    word: &[u8],
    list: Clauses<'_>,
    t: TrailView<'_>,
    scratch: &mut [u32],
)
    requires good_shape { GoodShape list.lits.now list.ends.now × Each (Row clause_form) (clauses list.lits.now list.ends.now) }
    requires lines { (t.at.len ≤ length t.codes.now) × (length scratch.old ≡ t.at.len) × TrailLines (take t.at.len t.codes.now) t.levels.now t.reasons.now }
    requires room { S.room sink.old (front_text n word.now list.lits.now list.ends.now (take t.at.len t.codes.now) t.levels.now t.reasons.now t.at.curr_i) }
    ensures { let at = t.entry.at in
        S.puts sink.old (front_text n word.now list.entry.lits.now list.entry.ends.now (take at.len t.entry.codes.now) t.entry.levels.now t.entry.reasons.now at.curr_i) sink.new }
{
    sink.first(n, word);
    put_clauses(sink, list);
    put_trail(
        sink,
        &t.codes[..t.at.len as usize],
        t.levels,
        t.reasons,
        t.at.curr_i,
        scratch,
    );
}
