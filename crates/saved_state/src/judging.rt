// Judging what was read of a saved text: its clauses, whether trail and chooser have room, and the refusal.
ghost use Rattle.std.specs.Prelude.{◌≡◌, ◌*◌, ◌≤◌, Ok, is_ok};
ghost use Rattle.lit.specs.Numbers.{max_vars};
ghost use Rattle.lit.specs.Refusals.{refusal_number, status_of};
ghost use Rattle.session.specs.Mode.{clause_lengths};
ghost use Rattle.session.specs.Checks.{state_refusal};
ghost use Rattle.saved_text.specs.Reading.{read_text};
ghost use Rattle.saved_state.specs.Judging as spec;

use lit::{MAX_CLAUSES, MAX_LITERALS, Refusal};
use saved_text::form::{Clauses, read_form};

// Whether so many numbers, the greatest of which is known, are all below a limit.
pub fn below(count: usize, greatest: u64, limit: u64) -> bool
    ensures { result ≡ spec.below count greatest limit }
{
    count == 0 || greatest < limit
}

// Whether the clauses that were read make a good clause list over n variables.
pub fn clauses_good(n: u32, c: Clauses) -> bool
    ensures { result ≡ spec.clauses_good n c.count c.literals c.greatest }
{
    c.count <= MAX_CLAUSES as usize
        && c.literals <= MAX_LITERALS as usize
        && below(c.literals, c.greatest, n as u64 * 2)
}

// Whether n variables have room for the codes of a trail and the variables of a line, and all of them are among the n.
pub fn fitting(n: u32, codes: usize, code: u64, members: usize, member: u64) -> bool
    ensures { result ≡ spec.fitting n codes code members member }
{
    codes <= n as usize
        && members <= n as usize
        && below(codes, code, n as u64 * 2)
        && below(members, member, n as u64)
}

// What makes the session that a text says none: its clauses, or its state.
#[derive(Clone, Copy, PartialEq, Eq, Debug)]
pub enum Unfit {
    Clauses,
    State,
}

impl Unfit {
    // The refusal for it.
    pub fn refusal(self) -> Refusal
        ensures { refusal_number result ≡ spec.unfit_number self }
    {
        match self {
            Unfit::Clauses => Refusal::BadClauses,
            Unfit::State => Refusal::BadState,
        }
    }
}

// What a text that has its form says: how many clauses and literals, and the small states of its session, if it is one.
#[derive(Clone, Copy)]
pub struct Loaded<S> {
    pub clauses: usize,
    pub literals: usize,
    pub state: Result<S, Unfit>,
}

impl<S: Copy> Loaded<S> {
    // The state, or the refusal of what was read into memory of n places for each variable: of the lengths of the lent clause list, of the clauses, or of the state.
    pub fn verdict(self, n: u32, lits: &[u32], ends: &[u32]) -> Result<S, Refusal>
        requires { n ≤ max_vars }
        ensures status { status_of result ≡ state_refusal n (clause_lengths self.literals self.clauses lits.now ends.now) (spec.clauses_fit self.state) (is_ok self.state) }
        ensures state_is { (s : S) → result ≡ Ok s → self.state ≡ Ok s }
    {
        if lits.len() != self.literals || ends.len() != self.clauses {
            return Err(Refusal::BadLength);
        }
        match self.state {
            Ok(s) => Ok(s),
            Err(unfit) => Err(unfit.refusal()),
        }
    }
}

// The refusal of a text that is refused for its form, or else for this.
pub fn form_or(text: &[u8], e: Refusal) -> Refusal
    ensures { refusal_number result ≡ spec.form_or (read_text text.now) (refusal_number e) }
{
    match read_form(text) {
        Some(_) => e,
        None => Refusal::BadSaved,
    }
}
