// The calls that change the trail, as they act on it alone. A chooser that does not follow the trail leaves it at that.
ghost use Rattle.std.specs.Prelude.{◌≡◌, ◌&&◌, ℕ, ◌≤◌, ◌<◌, length, get_or, eqb};
ghost use Rattle.lit.specs.Numbers as number;
ghost use Rattle.lit.specs.Lits as lits;
ghost use Rattle.lit.specs.Refusals.{status_of};
ghost use Rattle.trail.specs.Memory.{trail_in, SameSlices, Sized};
ghost use Rattle.trail.specs.Good.{GoodTrail};
ghost use Rattle.book.specs.Session as session;
ghost use Rattle.session.specs.Entry.{Answered, reply_of};
ghost use Rattle.session.specs.OnTrail.{enqueue_on, learn_unit_on, go_back_on};

use crate::good_reason;
use lit::Refusal;
use trail::Trail;

// The refusal of an enqueue, if there is one.
#[tactic(auto, unfolding(crate::specs::OnTrail::enqueue_on, book::specs::Session::need))]
fn enqueue_refusal(n: u32, m: u32, t: &Trail<'_>, code: u32, reason: u32) -> Result<(), Refusal>
    requires { length t.now.values.now ≡ n }
    ensures { status_of result ≡ session.status (enqueue_on n m code reason (trail_in t.now)) }
{
    if lit::index(code) >= n {
        return Err(Refusal::NoVariable);
    }
    if !good_reason(m, reason) {
        return Err(Refusal::BadReason);
    }
    if lit::lit_set(code, t.values) {
        return Err(Refusal::Assigned);
    }
    Ok(())
}

// Puts a literal with a reason on the trail.
pub fn enqueue(
    n: u32,
    m: u32,
    t: &mut Trail<'_>,
    code: u32,
    reason: u32,
) -> Result<Option<u32>, Refusal>
    requires { (n ≤ number.max_vars) × GoodTrail n m (trail_in t.old) }
    ensures answered { let before = trail_in t.old in
        Answered (enqueue_on n m code reason before) before (status_of result) (reply_of result) (trail_in t.new) }
    ensures same_slices { SameSlices t.old t.new }
{
    enqueue_refusal(n, m, t, code, reason)?;
    t.enq_assignment(code, reason);
    Ok(None)
}

// Whether the literal's variable is assigned at level 0, and so stays assigned when the trail goes back there.
fn at_level_zero(t: &Trail<'_>, code: u32) -> bool
    requires { (lits.index code < length t.now.values.now) × (lits.index code < length t.now.levels.now) }
    ensures { let v = lits.index code in
        result ≡ (lits.is_assigned t.now.values.now v && eqb (get_or t.now.levels.now v 0) 0) }
{
    let v = lit::index(code) as usize;
    lit::lit_set(code, t.values) && t.levels[v] == 0
}

// The refusal of a learn-unit, if there is one.
#[tactic(auto, unfolding(crate::specs::OnTrail::learn_unit_on, book::specs::Session::need))]
pub fn unit_refusal(n: u32, t: &Trail<'_>, code: u32) -> Result<(), Refusal>
    requires { (length t.now.values.now ≡ n) × (length t.now.levels.now ≡ n) }
    ensures { (m : ℕ) → GoodTrail n m (trail_in t.now) → status_of result ≡ session.status (learn_unit_on n code (trail_in t.now)) }
{
    if lit::index(code) >= n {
        return Err(Refusal::NoVariable);
    }
    if at_level_zero(t, code) {
        return Err(Refusal::Assigned);
    }
    Ok(())
}

// Goes back to level 0 and puts a literal on the trail there.
pub fn learn_unit(n: u32, t: &mut Trail<'_>, code: u32) -> Result<Option<u32>, Refusal>
    requires { (n ≤ number.max_vars) × ((m : ℕ) × GoodTrail n m (trail_in t.old)) }
    ensures answered { let before = trail_in t.old in
        Answered (learn_unit_on n code before) before (status_of result) (reply_of result) (trail_in t.new) }
    ensures same_slices { SameSlices t.old t.new }
{
    unit_refusal(n, t, code)?;
    t.learn_unit(code);
    Ok(None)
}

// Goes back to a level if it is below the present one, and says how many variables became unassigned.
#[tactic(auto, unfolding(crate::specs::OnTrail::go_back_on))]
pub fn go_back(t: &mut Trail<'_>, level: u32) -> u32
    requires { let n = length t.old.values.now in
        (n ≤ number.max_vars) × ((m : ℕ) × GoodTrail n m (trail_in t.old)) }
    ensures answered { let before = trail_in t.old in
        Answered (go_back_on level before) before 0 result (trail_in t.new) }
    ensures same_slices { SameSlices t.old t.new }
{
    let before = t.at.len;
    t.backtrack_safe(level);
    before - t.at.len
}
