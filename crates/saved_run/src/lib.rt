// What a run with a saved session comes to: how much it has written, or the refusal of the whole run; and the sizes of its arrays.
#![tactic(auto)]

ghost use Rattle.std.specs.Prelude.{◌≡◌, true, ◌≤◌, Ok, is_ok};
ghost use Rattle.lit.specs.Numbers as number;
ghost use Rattle.lit.specs.Refusals.{status_of};
ghost use Rattle.saved_state.specs.Judging.{clauses_fit};
ghost use Rattle.saved_run.specs.Carried.{refusal_of};

use lit::{MAX_CLAUSES, MAX_LITERALS, MAX_VARS, Refusal};
use saved_state::judging::Loaded;
use saved_state::saving::longest;

// How many bytes a run has written: of answers, and of the text of its session.
#[derive(Clone, Copy)]
pub struct Both {
    pub answers: usize,
    pub text: usize,
}

// How many variables the shorter arrays of a session have room for: setting up long ones costs more than a short run.
pub const LEAST: usize = 32;

pub const FEW: usize = 128;

// And the longest, for as many as there may be: a cache line more, so that the arrays do not all begin at the same place of the cache.
pub const ALL: usize = MAX_VARS as usize + 16;

pub const ALL_CLAUSES: usize = MAX_CLAUSES as usize;

pub const ALL_LITERALS: usize = MAX_LITERALS as usize;

// A short text has at most so many bytes, and a tiny one. A literal takes two at least, and so does a clause.
pub const TINY: usize = 1024;

pub const TINY_CLAUSES: usize = TINY / 2;

pub const SHORT: usize = 4096;

pub const SHORT_CLAUSES: usize = SHORT / 2;

// What was loaded of a text over n variables is let on with room for the text of its session, or refused.
pub fn admit<S: Copy>(n: u32, l: Loaded<S>, space: usize) -> Result<S, Refusal>
    requires { (n ≤ number.max_vars) × (clauses_fit l.state ≡ true → (l.clauses ≤ number.max_clauses) × (l.literals ≤ number.max_literals)) }
    ensures refusal { status_of result ≡ refusal_of n l.clauses l.literals (clauses_fit l.state) (is_ok l.state) space }
    ensures state { (s : S) → result ≡ Ok s → l.state ≡ Ok s }
{
    let state = match l.state {
        Ok(state) => state,
        Err(unfit) => return Err(unfit.refusal()),
    };
    if space < longest(n, l.clauses, l.literals) {
        return Err(Refusal::ShortBuffer);
    }
    Ok(state)
}
