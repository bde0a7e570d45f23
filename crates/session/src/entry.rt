// What the entry points of both modes share: the tests of lent memory that do not look at a chooser.
ghost use Rattle.std.specs.Prelude.{◌≡◌};
ghost use Rattle.formula.specs.Clauses.{clauses_ok};
ghost use Rattle.lit.specs.Refusals.{status_of};
ghost use Rattle.trail.specs.Memory.{view_in};
ghost use Rattle.session.specs.Checks.{size_refusal};
ghost use Rattle.session.specs.Mode.{trail_lengths, clause_lengths, scratch_lengths, scratch_ok};

use crate::Call;
use formula::Clauses;
use lit::{MAX_VARS, Refusal};
use trail::TrailView;

// Whether the trail's slices have length n.
pub fn trail_lengths(n: usize, t: TrailView<'_>) -> bool
    ensures { result ≡ trail_lengths n (view_in t.entry) }
{
    t.values.len() == n
        && (t.levels.len() == n
            && (t.reasons.len() == n && (t.codes.len() == n && t.opened.len() == n)))
}

// Whether the clause slices have the stated counts.
pub fn clause_lengths(literals: u32, clauses: u32, list: Clauses<'_>) -> bool
    ensures { result ≡ clause_lengths literals clauses list.entry.lits.now list.entry.ends.now }
{
    list.lits.len() == literals as usize && list.ends.len() == clauses as usize
}

// Whether two scratch slices, of lengths a and b, have length k.
pub fn scratch_lengths(k: usize, a: usize, b: usize) -> bool
    ensures { result ≡ scratch_lengths k a b }
{
    a == k && b == k
}

// Whether the scratch of a call has its lengths: for a group of k variables they are k, and for any other call it is not looked at.
pub fn scratch_ok(call: Call, k: usize, a: usize, b: usize) -> bool
    ensures { result ≡ scratch_ok call k a b }
{
    match call {
        Call::Group => scratch_lengths(k, a, b),
        _ => true,
    }
}

// The refusal of the number of variables, of the lengths or of the clause list, if there is one.
#[tactic(auto, unfolding(crate::specs::Entry::sizes_checked, book::specs::Session::need))]
pub fn size_refusal(n: u32, lengths: bool, list: Clauses<'_>) -> Result<(), Refusal>
    ensures { status_of result ≡ size_refusal n lengths (clauses_ok n list.entry.lits.now list.entry.ends.now) }
{
    if n > MAX_VARS {
        return Err(Refusal::ManyVars);
    }
    if !lengths {
        return Err(Refusal::BadLength);
    }
    if !list.check_clauses(n) {
        return Err(Refusal::BadClauses);
    }
    Ok(())
}
