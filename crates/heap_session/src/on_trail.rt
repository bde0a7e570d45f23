// The calls of heap mode that change the trail and the heap with it: a decide, going back and a learnt unit.
ghost use Rattle.std.specs.Prelude.{◌≡◌, List, ℕ, ◌≤◌, ◌<◌, length, get_or};
ghost use Rattle.lit.specs.Lits as lits;
ghost use Rattle.lit.specs.Refusals.{status_of};
ghost use Rattle.trail.specs.Memory.{trail_in};
ghost use Rattle.trail.specs.Memory as trail;
ghost use Rattle.trail.specs.Undone.{between};
ghost use Rattle.vsids.specs.Memory.{vsids_in};
ghost use Rattle.vsids.specs.Memory as vsids;
ghost use Rattle.choosers.specs.Heap.{heap_ops};
ghost use Rattle.book.specs.Calls as book;
ghost use Rattle.book.specs.Session.{went_back};
ghost use Rattle.session.specs.Entry.{reply_of};
ghost use Rattle.heap_session.specs.Memory.{Answers, insert_all};
ghost use Rattle.heap_session.specs.Held.{both};
ghost use Rattle.heap_session.specs.Good.{ForValues, Steady};

use lit::{NONE, Refusal};
use session::on_trail::unit_refusal;
use trail::Trail;
use vsids::Vsids;

// Offers the variables of the trail's places from `from` up to `to` to the heap, last first.
fn offer_undone(h: &mut Vsids<'_>, codes: &[u32], from: u32, to: u32)
    requires for_values { ForValues (length h.old.activity.now) (vsids_in h.old) }
    requires from_le_to { (from ≤ to) × ((to ≤ length codes.now) × ((i : ℕ) → i < to → lits.index (get_or codes.now i 0) < length h.old.activity.now)) }
    ensures offered { vsids_in h.new ≡ insert_all (between codes.now from to) (vsids_in h.old) }
    ensures same_slices { vsids.SameSlices h.old h.new }
{
    for i in (from..to).rev() {
        h.insert(lit::index(codes[i as usize]));
    }
}

// Takes the open variable of the highest activity and puts its literal with the polarity on the trail as a decision.
pub fn decide(t: &mut Trail<'_>, h: &mut Vsids<'_>, p: u32) -> Result<Option<u32>, Refusal>
    requires { Steady (length t.old.values.now) (trail_in t.old) (vsids_in h.old) }
    ensures answered { (n m : ℕ) (lits ends : List ℕ) →
        let with = both n m lits ends in
        Answers n m lits ends (book.decide p) (with (trail_in t.old) (vsids_in h.old)) (status_of result) (reply_of result) (with (trail_in t.new) (vsids_in h.new)) }
    ensures same_trail { trail.SameSlices t.old t.new }
    ensures same_heap { vsids.SameSlices h.old h.new }
{
    if p >= 2 {
        return Err(Refusal::BadPolarity);
    }
    match h.get_next(t.view().values) {
        Some(v) => {
            t.enq_decision(v, p as u8);
            Ok(Some(v))
        }
        None => Ok(None),
    }
}

// Goes back to a level if it is below the present one; the variables that become unassigned are offered to the heap. Taken into its callers, or else each call of
// a session would set up a trail and a heap in memory for it.
#[inline(always)]
fn went_back(t: &mut Trail<'_>, h: &mut Vsids<'_>, level: u32)
    requires { Steady (length t.old.values.now) (trail_in t.old) (vsids_in h.old) }
    ensures went_back { (n m : ℕ) (lits ends : List ℕ) →
        let with = both n m lits ends in
        with (trail_in t.new) (vsids_in h.new) ≡ went_back n m (heap_ops n lits ends) level (with (trail_in t.old) (vsids_in h.old)) }
    ensures same_trail { trail.SameSlices t.old t.new }
    ensures same_heap { vsids.SameSlices h.old h.new }
{
    if level < t.at.level {
        let shown = t.view();
        offer_undone(h, shown.codes, shown.opened[level as usize], shown.at.len);
        t.backtrack_to(level);
    }
}

// Goes back to a level, and says how many variables became unassigned.
pub fn go_back(t: &mut Trail<'_>, h: &mut Vsids<'_>, level: u32) -> u32
    requires { Steady (length t.old.values.now) (trail_in t.old) (vsids_in h.old) }
    ensures answered { (n m : ℕ) (lits ends : List ℕ) →
        let with = both n m lits ends in
        Answers n m lits ends (book.go_back level) (with (trail_in t.old) (vsids_in h.old)) 0 result (with (trail_in t.new) (vsids_in h.new)) }
    ensures same_trail { trail.SameSlices t.old t.new }
    ensures same_heap { vsids.SameSlices h.old h.new }
{
    let before = t.at.len;
    went_back(t, h, level);
    before - t.at.len
}

// Goes back to level 0 and puts a literal on the trail there.
pub fn learn_unit(
    n: u32,
    t: &mut Trail<'_>,
    h: &mut Vsids<'_>,
    code: u32,
) -> Result<Option<u32>, Refusal>
    requires { Steady n (trail_in t.old) (vsids_in h.old) }
    ensures answered { (m : ℕ) (lits ends : List ℕ) →
        let with = both n m lits ends in
        Answers n m lits ends (book.learn_unit code) (with (trail_in t.old) (vsids_in h.old)) (status_of result) (reply_of result) (with (trail_in t.new) (vsids_in h.new)) }
    ensures same_trail { trail.SameSlices t.old t.new }
    ensures same_heap { vsids.SameSlices h.old h.new }
{
    unit_refusal(n, t, code)?;
    went_back(t, h, 0);
    t.enq_assignment(code, NONE);
    Ok(None)
}
