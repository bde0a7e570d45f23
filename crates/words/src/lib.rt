// Calls and answers in words: three words to a call, two to an answer.
#![tactic(auto)]

ghost use Rattle.std.specs.Prelude.{◌≡◌, ◌+◌, ◌*◌, ◌≤◌, leb, length, set, ◌&&◌};
ghost use Rattle.std.specs.Float.{binary64};
ghost use Rattle.std.specs.Float.Ieee.{of_bits};
ghost use Rattle.lit.specs.Numbers as number;
ghost use Rattle.forms.specs.Kinds.{kind_in};
ghost use Rattle.words.specs.Words.{high_half, kind_call, words_fit};
ghost use Rattle.words.specs.Read.{said_call, fits_in, WordsRead};

use forms::table::Kind;
use forms::{Asked, with_number};
use lit::MAX_GROUP;
use session::Call;

// The high half of a pattern counts so many.
const HIGH_HALF: u64 = 4294967296;

// The double of a pattern's halves.
fn double(high: u32, low: u32) -> f64
    ensures { result ≡ of_bits binary64 (high * high_half + low) }
{
    forms::text::double(high as u64 * HIGH_HALF + low as u64)
}

// Whether a group has not too many variables, and these stand in a slice of so many.
fn within(len: usize, from: u32, count: u32) -> bool
    ensures { result ≡ leb count number.max_group && leb (from + count) len }
{
    count <= MAX_GROUP && from as usize + count as usize <= len
}

// The call of a kind and two words: a group's variables stand in the lent slice, and a word that a call does not take is 0.
fn read_kind(vars: &[u32], kind: Kind, a: u32, b: u32) -> Option<Asked>
    ensures is { said_call vars.now a b result ≡ kind_call vars.now (kind_in kind) a b }
    ensures within { fits_in vars.now a b result }
{
    match kind {
        Kind::Enqueues => Some(Asked::Is(Call::Enqueue(a, b))),
        Kind::SetsDecay => Some(Asked::Is(Call::SetDecay(double(a, b)))),
        Kind::MovesGroup => within(vars.len(), a, b).then_some(Asked::Group),
        Kind::Decays => (a == 0 && b == 0).then_some(Asked::Is(Call::Decay)),
        _ => {
            if b != 0 {
                return None;
            }
            with_number(kind, a).map(Asked::Is)
        }
    }
}

// The call of three words.
pub fn read_words(vars: &[u32], letter: u32, a: u32, b: u32) -> Option<Asked>
    ensures { WordsRead vars.now letter a b result }
{
    let Ok(letter) = u8::try_from(letter) else {
        return None;
    };
    read_kind(vars, Kind::of(letter), a, b)
}

// Writes the i-th answer.
pub fn put(i: usize, answers: &mut [u32], status: u32, reply: u32)
    requires { i * 2 + 2 ≤ length answers.old }
    ensures { answers.new ≡ set (set answers.old (i * 2) status) (i * 2 + 1) reply }
{
    answers[i * 2] = status;
    answers[i * 2 + 1] = reply;
}

// Whether there are two words of answers for each three of the calls.
pub fn words_fit(calls: usize, answers: usize) -> bool
    ensures { result ≡ words_fit calls answers }
{
    let k = calls / 3;
    calls == k * 3 && answers == k * 2
}
