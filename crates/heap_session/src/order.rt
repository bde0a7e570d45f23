// The calls of heap mode that only move the heap's order or change its members and switches. The trail stays, whatever it is.
ghost use Rattle.std.specs.Prelude.{◌≡◌, List, ℕ, ◌<◌, length, get_or};
ghost use Rattle.lit.specs.Refusals.{status_of};
ghost use Rattle.formula.specs.Good.{GoodClauses};
ghost use Rattle.trail.specs.Trail.{Trail};
ghost use Rattle.trail.specs.Memory.{trail_in};
ghost use Rattle.trail.specs.Good.{IsReason};
ghost use Rattle.vsids.specs.Memory.{vsids_in, SameSlices};
ghost use Rattle.choosers.specs.Heap.{heap_ops};
ghost use Rattle.book.specs.Calls as book;
ghost use Rattle.book.specs.Session.{Session};
ghost use Rattle.session.specs.Entry.{reply_of};
ghost use Rattle.heap_session.specs.Memory.{Answers};
ghost use Rattle.heap_session.specs.Held.{both};
ghost use Rattle.heap_session.specs.Good.{ForValues, ForSwitches};

use formula::Clauses;
use lit::{NONE, Refusal};
use vsids::Vsids;

// A group changes nothing: its variables are tested.
#[tactic(auto, unfolding(book::specs::Session::call, book::specs::Session::need, book::specs::Session::tuned))]
pub fn group(n: u32, vars: &[u32]) -> Result<Option<u32>, Refusal>
    ensures { (m : ℕ) (lits ends : List ℕ) (s : Session n m (heap_ops n lits ends)) →
        Answers n m lits ends (book.group vars.now) s (status_of result) (reply_of result) s }
{
    if !session::vars_below(n, vars) {
        return Err(Refusal::NoVariable);
    }
    Ok(None)
}

// Adds the step to a variable's activity.
#[tactic(auto, unfolding(book::specs::Session::call, book::specs::Session::need, book::specs::Session::tuned))]
pub fn bump(n: u32, h: &mut Vsids<'_>, v: u32) -> Result<Option<u32>, Refusal>
    requires { ForSwitches n (vsids_in h.old) }
    ensures answered { (m : ℕ) (lits ends : List ℕ) (t : Trail) →
        let with = both n m lits ends t in
        Answers n m lits ends (book.bump v) (with (vsids_in h.old)) (status_of result) (reply_of result) (with (vsids_in h.new)) }
    ensures same_slices { SameSlices h.old h.new }
{
    if v >= n {
        return Err(Refusal::NoVariable);
    }
    h.bump_variable(v);
    Ok(None)
}

// Lets the step grow by the decay, unless it would be too large.
#[tactic(auto, unfolding(book::specs::Session::call, book::specs::Session::need, book::specs::Session::tuned))]
pub fn decay(h: &mut Vsids<'_>) -> Result<Option<u32>, Refusal>
    ensures answered { (n m : ℕ) (lits ends : List ℕ) (t : Trail) →
        let with = both n m lits ends t in
        Answers n m lits ends book.decay (with (vsids_in h.old)) (status_of result) (reply_of result) (with (vsids_in h.new)) }
    ensures same_slices { SameSlices h.old h.new }
{
    if h.at.step.large_step() {
        return Err(Refusal::LargeStep);
    }
    h.decay_var_inc();
    Ok(None)
}

// Sets the decay to one from 0.5 to 1.
#[tactic(auto, unfolding(book::specs::Session::call, book::specs::Session::need, book::specs::Session::tuned))]
pub fn set_decay(h: &mut Vsids<'_>, decay: f64) -> Result<Option<u32>, Refusal>
    ensures answered { (n m : ℕ) (lits ends : List ℕ) (t : Trail) →
        let with = both n m lits ends t in
        Answers n m lits ends (book.set_decay decay) (with (vsids_in h.old)) (status_of result) (reply_of result) (with (vsids_in h.new)) }
    ensures same_slices { SameSlices h.old h.new }
{
    if !activity::good_decay(decay) {
        return Err(Refusal::BadDecay);
    }
    h.set_var_decay(decay);
    Ok(None)
}

// Makes a switched-on variable a member of the heap.
#[tactic(auto, unfolding(book::specs::Session::call, book::specs::Session::need))]
pub fn insert(n: u32, h: &mut Vsids<'_>, v: u32) -> Result<Option<u32>, Refusal>
    requires { ForValues n (vsids_in h.old) }
    ensures answered { (m : ℕ) (lits ends : List ℕ) (t : Trail) →
        let with = both n m lits ends t in
        Answers n m lits ends (book.insert v) (with (vsids_in h.old)) (status_of result) (reply_of result) (with (vsids_in h.new)) }
    ensures same_slices { SameSlices h.old h.new }
{
    if v >= n {
        return Err(Refusal::NoVariable);
    }
    h.insert(v);
    Ok(None)
}

// Switches a variable off: it is never chosen again.
#[tactic(auto, unfolding(book::specs::Session::call, book::specs::Session::need, book::specs::Session::tuned))]
pub fn switch_off(n: u32, h: &mut Vsids<'_>, v: u32) -> Result<Option<u32>, Refusal>
    requires { length h.old.decision.now ≡ n }
    ensures answered { (m : ℕ) (lits ends : List ℕ) (t : Trail) →
        let with = both n m lits ends t in
        Answers n m lits ends (book.switch_off v) (with (vsids_in h.old)) (status_of result) (reply_of result) (with (vsids_in h.new)) }
    ensures same_slices { SameSlices h.old h.new }
{
    if v >= n {
        return Err(Refusal::NoVariable);
    }
    h.turn_off_decision_for_idx(v);
    Ok(None)
}

// Bumps the variables of the literals but the first in the clause that is a variable's reason, if it has one.
pub fn bump_reason(
    n: u32,
    list: Clauses<'_>,
    t: &trail::Trail<'_>,
    h: &mut Vsids<'_>,
    v: u32,
) -> Result<Option<u32>, Refusal>
    requires good_clauses { GoodClauses n list.lits.now list.ends.now
        × ((length t.now.reasons.now ≡ n) × ((v : ℕ) → v < n → IsReason (length list.ends.now) (get_or t.now.reasons.now v 0))) }
    requires for_switches { ForSwitches n (vsids_in h.old) }
    ensures answered { (m : ℕ) → let lits = list.entry.lits.now in let ends = list.entry.ends.now in
        let with = both n m lits ends (trail_in t.now) in
        Answers n m lits ends (book.bump_reason v) (with (vsids_in h.old)) (status_of result) (reply_of result) (with (vsids_in h.new)) }
    ensures same_slices { SameSlices h.old h.new }
{
    if v >= n {
        return Err(Refusal::NoVariable);
    }
    let reason = t.reasons[v as usize];
    if reason != NONE {
        h.bump_reason_literals(list.clause(reason));
    }
    Ok(None)
}
