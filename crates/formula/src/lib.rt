// The clause list, from clause.rs and formula.rs: a flat slice of literal codes and a slice of clause ends.
#![tactic(auto)]

ghost use Rattle.std.specs.Prelude.{◌≡◌, ◌<◌, length};
ghost use Rattle.formula.specs.Clauses as spec;

use lit::{MAX_CLAUSES, MAX_LITERALS};

pub mod checks;

// Whether the ends of clauses never fall and the last is the number of literals.
fn check_ends(ends: &[u32], literals: u32) -> bool
    ensures { result ≡ spec.ends_ok ends.now literals }
{
    let mut from = 0;
    for end in ends {
        if *end < from {
            return false;
        }
        from = *end;
    }
    from == literals
}

// Whether the variable of each literal is one of n.
fn check_lits(n: u32, codes: &[u32]) -> bool
    ensures { result ≡ spec.vars_below n codes.now }
{
    codes.iter().all(|code| lit::check_lit_invariant(*code, n))
}

// Whether a clause with these codes can be added to a good list that has so many clauses and literals.
#[tactic(auto, unfolding(crate::specs::Clauses::clause_fits))]
pub fn clause_fits(n: u32, clauses: u32, literals: u32, codes: &[u32]) -> bool
    ensures { result ≡ spec.clause_fits n clauses literals codes.now }
{
    if clauses >= MAX_CLAUSES {
        return false;
    }
    if literals as usize + codes.len() > MAX_LITERALS as usize {
        return false;
    }
    check_lits(n, codes)
}

// Where clause i starts.
#[tactic(auto, using(crate::specs::Good::start_later))]
fn start(ends: &[u32], i: u32) -> u32
    requires { i < length ends.now }
    ensures { result ≡ spec.start ends.now i }
{
    if i == 0 { 0 } else { ends[(i - 1) as usize] }
}

// The literals of clause i, lent for as long as the list's literals are; the ends are only looked at.
pub fn clause<'a>(lits: &'a [u32], ends: &[u32], i: u32) -> &'a [u32]
    requires { spec.ClauseAt lits.now ends.now i }
    ensures { result.now ≡ spec.clause lits.now ends.now i }
{
    let from = start(ends, i) as usize;
    let to = ends[i as usize] as usize;
    &lits[from..to]
}

// A clause list: the codes of all clauses, one after the other, and where each clause ends.
#[derive(Clone, Copy)]
pub struct Clauses<'a> {
    pub lits: &'a [u32],
    pub ends: &'a [u32],
}

impl<'a> Clauses<'a> {
    // Whether the slices are a list of clauses, with variables left aside.
    #[tactic(auto, unfolding(crate::specs::Clauses::list_ok))]
    pub fn check_list(self) -> bool
        ensures { result ≡ spec.list_ok self.entry.lits.now self.entry.ends.now }
    {
        if self.ends.len() > MAX_CLAUSES as usize {
            return false;
        }
        if self.lits.len() > MAX_LITERALS as usize {
            return false;
        }
        check_ends(self.ends, self.lits.len() as u32)
    }

    // Whether the slices are a list of clauses over n variables.
    #[tactic(auto, unfolding(crate::specs::Clauses::clauses_ok))]
    pub fn check_clauses(self, n: u32) -> bool
        ensures { result ≡ spec.clauses_ok n self.entry.lits.now self.entry.ends.now }
    {
        self.check_list() && check_lits(n, self.lits)
    }

    // The literals of clause i.
    #[inline(always)]
    pub fn clause(self, i: u32) -> &'a [u32]
        requires { spec.ClauseAt self.lits.now self.ends.now i }
        ensures { result.now ≡ spec.clause self.entry.lits.now self.entry.ends.now i }
    {
        clause(self.lits, self.ends, i)
    }
}
