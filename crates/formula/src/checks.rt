// The three checks of clause.rs and formula.rs that a caller can ask for, over a clause list.
ghost use Rattle.std.specs.Prelude.{◌≡◌, ◌+◌, ◌≤◌, ◌<◌, length, OnOk};
ghost use Rattle.formula.specs.Clauses as spec;
ghost use Rattle.formula.specs.Good.{GoodShape};
ghost use Rattle.formula.specs.Checks as checks;
ghost use Rattle.formula.specs.Marks.{Unmarked};
ghost use Rattle.lit.specs.Numbers.{max_vars};

use crate::Clauses;
use lit::{MAX_VARS, Refusal};

// What a check says of a formula. The assignment in the source's Sat is always empty here, and is left out.
#[derive(Clone, Copy, PartialEq, Eq, Debug)]
pub enum SatResult {
    Err,
    Sat,
    Unsat,
    Unknown,
}

// Whether the literal at place i has another variable than each one before it.
fn new_at(codes: &[u32], i: usize) -> bool
    requires { i < length codes.now }
    ensures { result ≡ checks.new_at codes.now i }
{
    let v = lit::index(codes[i]);
    // `all` was tried: its proof did not close
    for code in &codes[..i] {
        if v == lit::index(*code) {
            return false;
        }
    }
    true
}

// Whether no variable stands twice in the clause, in either polarity.
#[tactic(auto, using(laws::specs::Every::every_next, laws::specs::Every::every_not), unfolding(crate::specs::Checks::no_duplicates, laws::specs::Every::every))]
fn distinct(codes: &[u32]) -> bool
    ensures { result ≡ checks.no_duplicates codes.now }
{
    for i in 0..codes.len() {
        if !new_at(codes, i) {
            return false;
        }
    }
    true
}

// Whether the clause is over n variables and none stands twice. Each variable that it meets gets the clause's mark.
fn check_clause(n: u32, codes: &[u32], marks: &mut [u32], mark: u32) -> bool
    requires { Unmarked n mark marks.old }
    ensures { (result ≡ checks.check_clause_invariant n codes.now) × Unmarked n (mark + 1) marks.new }
{
    for code in codes {
        let v = lit::index(*code);
        if v >= n {
            return false;
        }
        if marks[v as usize] == mark {
            return false;
        }
        marks[v as usize] = mark;
    }
    true
}

// Err or Unsat, by the first clause that fails its check or is empty; else Unknown.
fn check_each(n: u32, list: Clauses) -> SatResult
    requires { GoodShape list.lits.now list.ends.now × (n ≤ max_vars) }
    ensures { result ≡ checks.check_each n (spec.clauses list.entry.lits.now list.entry.ends.now) }
{
    let mut marks = [0u32; MAX_VARS as usize];
    for i in 0..list.ends.len() as u32 {
        let codes = list.clause(i);
        if !check_clause(n, codes, &mut marks, i + 1) {
            return SatResult::Err;
        }
        if codes.len() == 0 {
            return SatResult::Unsat;
        }
    }
    SatResult::Unknown
}

// What is known of a formula before any search.
#[tactic(auto, using(crate::specs::Reading::length_clauses), unfolding(crate::specs::Checks::check_formula_invariant))]
fn check_formula(n: u32, list: Clauses) -> SatResult
    requires { GoodShape list.lits.now list.ends.now × (n ≤ max_vars) }
    ensures { result ≡ checks.check_formula_invariant n (spec.clauses list.entry.lits.now list.entry.ends.now) }
{
    if list.ends.len() == 0 {
        return SatResult::Sat;
    }
    if n == 0 {
        return SatResult::Err;
    }
    check_each(n, list)
}

// Whether the list has so many literals and clauses and is one, with variables left aside; or the refusal.
#[tactic(auto, unfolding(crate::specs::Checks::check_counts))]
fn check_counts(list: Clauses, literals: u32, clauses: u32) -> Result<(), Refusal>
    ensures refused { result ≡ checks.check_counts list.entry.lits.now list.entry.ends.now literals clauses }
    ensures good { OnOk result (GoodShape list.entry.lits.now list.entry.ends.now) }
{
    if list.lits.len() != literals as usize {
        return Err(Refusal::BadLength);
    }
    if list.ends.len() != clauses as usize {
        return Err(Refusal::BadLength);
    }
    if !list.check_list() {
        return Err(Refusal::BadClauses);
    }
    Ok(())
}

// Whether there may be n variables.
#[tactic(auto, unfolding(crate::specs::Checks::check_vars))]
fn check_vars(n: u32) -> Result<(), Refusal>
    ensures refused { result ≡ checks.check_vars n }
    ensures few { OnOk result (n ≤ max_vars) }
{
    if n > MAX_VARS {
        Err(Refusal::ManyVars)
    } else {
        Ok(())
    }
}

// Whether no variable stands twice in a clause of so many literals.
#[tactic(auto, unfolding(crate::specs::Checks::no_duplicates_call))]
pub fn no_duplicates(codes: &[u32], count: u32) -> Result<bool, Refusal>
    ensures { result ≡ checks.no_duplicates_call codes.now count }
{
    let ends = [count];
    let list = Clauses {
        lits: codes,
        ends: &ends,
    };
    check_counts(list, count, 1)?;
    Ok(distinct(codes))
}

// Whether a clause of so many literals is over n variables and none stands twice.
#[tactic(auto, unfolding(crate::specs::Checks::check_clause_invariant_call))]
pub fn check_clause_invariant(n: u32, codes: &[u32], count: u32) -> Result<bool, Refusal>
    ensures { result ≡ checks.check_clause_invariant_call n codes.now count }
{
    check_vars(n)?;
    let ends = [count];
    let list = Clauses {
        lits: codes,
        ends: &ends,
    };
    check_counts(list, count, 1)?;
    let mut marks = [0u32; MAX_VARS as usize];
    Ok(check_clause(n, codes, &mut marks, 1))
}

// What is known of a formula of so many literals and clauses before any search.
#[tactic(auto, unfolding(crate::specs::Checks::check_formula_invariant_call))]
pub fn check_formula_invariant(
    n: u32,
    list: Clauses,
    literals: u32,
    clauses: u32,
) -> Result<SatResult, Refusal>
    ensures { result ≡ checks.check_formula_invariant_call n list.entry.lits.now list.entry.ends.now literals clauses }
{
    check_vars(n)?;
    check_counts(list, literals, clauses)?;
    Ok(check_formula(n, list))
}
