// The heap chooser: JigSAT's `VSIDS` over lent slices, with the count of members and the step by value.
#![tactic(auto)]

ghost use Rattle.std.specs.Prelude.{◌≡◌, List, false, ℕ, ◌<◌, ◌≤◌, Float, length, get_or, replicate};
ghost use Rattle.lit.specs.Numbers.{max_vars, switched_on};
ghost use Rattle.lit.specs.Lits.{index};
ghost use Rattle.activity.specs.Doubles.{zero_activity};
ghost use Rattle.heap.specs.Heap.{places_of, in_heap};
ghost use Rattle.heap.specs.Room.{Room, Placed};
ghost use Rattle.vsids.specs.Vsids as spec;
ghost use Rattle.vsids.specs.Vsids.{places, vsids_of};
ghost use Rattle.vsids.specs.View.{vsids_seen, AreDoubles};
ghost use Rattle.vsids.specs.Memory.{vsids_in, SameSlices, found_of};
ghost use Rattle.vsids.specs.declared.VsidsState.{VsidsState};

use activity::{LIMIT, Step, ZERO_ACTIVITY};
use heap::Places;
use heap_check::VsidsView;
use lit::{OFF, ON, UNASSIGNED};

pub mod heap_check;

// How many members the heap has, and the step.
#[derive(Clone, Copy)]
pub struct VsidsState {
    pub len: u32,
    pub step: Step,
}

// A chooser: for each variable its activity, the members and their positions, for each variable its switch, and the small state.
#[derive(Drop)]
pub struct Vsids<'a> {
    pub activity: &'a mut [f64],
    pub heap: &'a mut [u32],
    pub indices: &'a mut [u32],
    pub decision: &'a mut [u8],
    pub at: VsidsState,
}

// All variables as members in the order of their numbers, and the fresh step: a fresh chooser, where activities and switches are fresh.
#[tactic(auto, using(crate::proofs::Loops::made))]
pub fn all_members(heap: &mut [u32], indices: &mut [u32]) -> VsidsState
    requires { (length heap.old ≤ max_vars) × (length indices.old ≡ length heap.old) }
    ensures { vsids_of (replicate (length heap.old) zero_activity) heap.new indices.new (replicate (length heap.old) switched_on) result ≡ spec.new (length heap.old) }
{
    let n = heap.len();
    let mut places = Places { heap, indices };
    places.in_order();
    VsidsState {
        len: n as u32,
        step: Step::fresh(),
    }
}

// Whether a variable is switched on and unassigned.
#[tactic(auto, unfolding(crate::specs::Vsids::is_open))]
pub fn is_open(values: &[u8], decision: &[u8], v: u32) -> bool
    requires { (v < length values.now) × (v < length decision.now) }
    ensures { result ≡ spec.is_open values.now decision.now v }
{
    decision[v as usize] == ON && values[v as usize] >= UNASSIGNED
}

// Takes members off the top, drops those that are off or assigned, and answers the first other one, with the state left.
pub fn get_next(
    values: &[u8],
    activity: &[f64],
    heap: &mut [u32],
    indices: &mut [u32],
    decision: &[u8],
    s: VsidsState,
) -> (Option<u32>, VsidsState)
    requires room { Room (length activity.now) s.len (places_of heap.old indices.old) }
    requires values_len { (length values.now ≡ length activity.now) × (length decision.now ≡ length activity.now) }
    ensures { let before = vsids_of activity.now heap.old indices.old decision.now s
        in let after = vsids_of activity.now heap.new indices.new decision.now result.1
        in found_of result.0 after ≡ spec.get_next values.now before }
{
    let step = s.step;
    let mut len = s.len;
    let mut places = Places { heap, indices };
    // a while: it goes on until a member is open
    while len > 0 {
        let v = places.remove_min(activity, len);
        len -= 1;
        if is_open(values, decision, v) {
            return (Some(v), VsidsState { len, step });
        }
    }
    (None, VsidsState { len, step })
}

// Adds the step to the activity of var with one rounding, and hands the step back. Strictly above 1e100 every activity and the step are scaled.
#[tactic(auto, unfolding(crate::specs::Vsids::add_step, crate::specs::Vsids::rescale, crate::specs::Vsids::scaled_all))]
fn add_step(activity: &mut [f64], step: Step, var: u32) -> Step
    requires { var < length activity.old }
    ensures { (k : ℕ) (h p d : List ℕ) → vsids_of activity.new h p d (record { len = k; step = result })
        ≡ spec.rescale var (spec.add_step var (vsids_of activity.old h p d (record { len = k; step = step }))) }
{
    activity[var as usize] = activity[var as usize] + step.inc;
    if activity[var as usize] > LIMIT {
        activity::scale_all(activity);
        return step.scaled();
    }
    step
}

// Raises the activity of var by the step, and moves var up if it is a member.
#[tactic(auto, unfolding(crate::specs::Vsids::bump_variable, crate::specs::Vsids::move_up))]
pub fn bump_variable(
    activity: &mut [f64],
    heap: &mut [u32],
    indices: &mut [u32],
    s: VsidsState,
    var: u32,
) -> VsidsState
    requires room { Room (length activity.old) s.len (places_of heap.old indices.old) }
    requires placed { Placed (length activity.old) s.len indices.old }
    requires var_in_bounds { var < length activity.old }
    ensures { (d : List ℕ) → let before = vsids_of activity.old heap.old indices.old d s
        in let after = vsids_of activity.new heap.new indices.new d result
        in after ≡ spec.bump_variable var before }
{
    let len = s.len;
    let step = add_step(activity, s.step, var);
    let mut places = Places { heap, indices };
    if places.in_heap(var) {
        places.decrease(activity, var);
    }
    VsidsState { len, step }
}

// Bumps the variable of each literal of a reason clause but the first, in order.
pub fn bump_reason_literals(
    activity: &mut [f64],
    heap: &mut [u32],
    indices: &mut [u32],
    s: VsidsState,
    clause: &[u32],
) -> VsidsState
    requires room { Room (length activity.old) s.len (places_of heap.old indices.old) }
    requires placed { Placed (length activity.old) s.len indices.old }
    requires by_index { (i : ℕ) → i < length clause.now → index (get_or clause.now i 0) < length activity.old }
    ensures { (d : List ℕ) → let before = vsids_of activity.old heap.old indices.old d s
        in let after = vsids_of activity.new heap.new indices.new d result
        in after ≡ spec.bump_reason_literals clause.now before }
{
    let mut state = s;
    // by index: `skip(1)` does not promise which items come
    for i in 1..clause.len() {
        state = bump_variable(activity, heap, indices, state, lit::index(clause[i]));
    }
    state
}

// Makes var a member if it is none and is switched on.
#[tactic(auto, unfolding(crate::specs::Vsids::insert))]
pub fn insert(
    activity: &[f64],
    heap: &mut [u32],
    indices: &mut [u32],
    decision: &[u8],
    s: VsidsState,
    var: u32,
) -> VsidsState
    requires room { Room (length activity.now) s.len (places_of heap.old indices.old) }
    requires var_in_bounds { (var < length activity.now) × (length decision.now ≡ length activity.now) }
    requires len_in_bounds { in_heap indices.old var ≡ false → s.len < length activity.now }
    ensures { let before = vsids_of activity.now heap.old indices.old decision.now s
        in let after = vsids_of activity.now heap.new indices.new decision.now result
        in after ≡ spec.insert var before }
{
    let step = s.step;
    let mut len = s.len;
    let mut places = Places { heap, indices };
    if !places.in_heap(var) && decision[var as usize] == ON {
        places.insert(activity, len, var);
        len += 1;
    }
    VsidsState { len, step }
}

// Switches var off: it is never chosen again.
#[tactic(auto, unfolding(crate::specs::Vsids::turn_off))]
pub fn turn_off_decision_for_idx(decision: &mut [u8], var: u32)
    requires { var < length decision.old }
    ensures { (a : List Float) (h p : List ℕ) (s : VsidsState) → vsids_of a h p decision.new s ≡ spec.turn_off var (vsids_of a h p decision.old s) }
{
    decision[var as usize] = OFF;
}

// Multiplies the step by the rounded quotient 1 / decay.
pub fn decay_var_inc(s: VsidsState) -> VsidsState
    ensures { (a : List Float) (h p d : List ℕ) → vsids_of a h p d result ≡ spec.decay_var_inc (vsids_of a h p d s) }
{
    VsidsState {
        len: s.len,
        step: s.step.decayed(),
    }
}

// Sets the decay.
pub fn set_var_decay(s: VsidsState, decay: f64) -> VsidsState
    ensures { (a : List Float) (h p d : List ℕ) → vsids_of a h p d result ≡ spec.set_var_decay decay (vsids_of a h p d s) }
{
    VsidsState {
        len: s.len,
        step: s.step.with_decay(decay),
    }
}

// Says of a slice what its type does.
pub fn as_doubles(activity: &[f64])
    ensures { AreDoubles activity.now }
{}

impl Vsids<'_> {
    // A fresh chooser: activities 0, all variables members and switched on, the fresh step. Where all activities are equal, members in
    // order of their numbers are a heap.
    pub fn make_fresh(&mut self)
        requires activity_len_bound { length self.old.activity.now ≤ max_vars }
        requires heap_len { let n = length self.old.activity.now in
            (length self.old.heap.now ≡ n) × ((length self.old.indices.now ≡ n) × (length self.old.decision.now ≡ n)) }
        ensures fresh { vsids_in self.new ≡ spec.new (length self.old.activity.now) }
        ensures same_slices { SameSlices self.old self.new }
    {
        self.activity.fill(ZERO_ACTIVITY);
        self.decision.fill(ON);
        self.at = all_members(self.heap, self.indices);
    }

    // The chooser, to be read only.
    pub fn view(&self) -> VsidsView<'_>
        ensures seen { vsids_seen result ≡ vsids_in self.now }
        ensures doubles { AreDoubles self.now.activity.now }
    {
        as_doubles(self.activity);
        VsidsView {
            activity: self.activity,
            heap: self.heap,
            indices: self.indices,
            decision: self.decision,
            at: self.at,
        }
    }

    // Takes members off the top, drops those that are off or assigned, and answers the first other one.
    #[inline(always)]
    pub fn get_next(&mut self, values: &[u8]) -> Option<u32>
        requires room { Room (length self.old.activity.now) self.old.at.len (places (vsids_in self.old)) }
        requires values_len { (length values.now ≡ length self.old.activity.now) × (length self.old.decision.now ≡ length self.old.activity.now) }
        ensures found { found_of result (vsids_in self.new) ≡ spec.get_next values.now (vsids_in self.old) }
        ensures same_slices { SameSlices self.old self.new }
    {
        let at = self.at;
        let activity = &mut *self.activity;
        let decision = &mut *self.decision;
        let (next, left) = get_next(values, activity, self.heap, self.indices, decision, at);
        self.at = left;
        next
    }

    // Raises the activity of var by the step, and moves var up if it is a member.
    #[inline(always)]
    pub fn bump_variable(&mut self, var: u32)
        requires room { Room (length self.old.activity.now) self.old.at.len (places (vsids_in self.old)) }
        requires placed { Placed (length self.old.activity.now) self.old.at.len self.old.indices.now }
        requires var_in_bounds { var < length self.old.activity.now }
        ensures bumped { vsids_in self.new ≡ spec.bump_variable var (vsids_in self.old) }
        ensures same_slices { SameSlices self.old self.new }
    {
        self.at = bump_variable(self.activity, self.heap, self.indices, self.at, var);
    }

    // Bumps the variable of each literal of a reason clause but the first, in order.
    #[inline(always)]
    pub fn bump_reason_literals(&mut self, clause: &[u32])
        requires room { Room (length self.old.activity.now) self.old.at.len (places (vsids_in self.old)) }
        requires placed { Placed (length self.old.activity.now) self.old.at.len self.old.indices.now }
        requires by_index { (i : ℕ) → i < length clause.now → index (get_or clause.now i 0) < length self.old.activity.now }
        ensures bumped { vsids_in self.new ≡ spec.bump_reason_literals clause.now (vsids_in self.old) }
        ensures same_slices { SameSlices self.old self.new }
    {
        self.at = bump_reason_literals(self.activity, self.heap, self.indices, self.at, clause);
    }

    // Makes var a member if it is none and is switched on.
    #[inline(always)]
    pub fn insert(&mut self, var: u32)
        requires room { Room (length self.old.activity.now) self.old.at.len (places (vsids_in self.old)) }
        requires var_in_bounds { (var < length self.old.activity.now) × (length self.old.decision.now ≡ length self.old.activity.now) }
        requires len_in_bounds { in_heap self.old.indices.now var ≡ false → self.old.at.len < length self.old.activity.now }
        ensures inserted { vsids_in self.new ≡ spec.insert var (vsids_in self.old) }
        ensures same_slices { SameSlices self.old self.new }
    {
        let at = self.at;
        let activity = &mut *self.activity;
        let decision = &mut *self.decision;
        self.at = insert(activity, self.heap, self.indices, decision, at, var);
    }

    // Switches var off: it is never chosen again.
    #[inline(always)]
    pub fn turn_off_decision_for_idx(&mut self, var: u32)
        requires { var < length self.old.decision.now }
        ensures switched { vsids_in self.new ≡ spec.turn_off var (vsids_in self.old) }
        ensures same_slices { SameSlices self.old self.new }
    {
        turn_off_decision_for_idx(self.decision, var);
    }

    // Multiplies the step by the rounded quotient 1 / decay.
    #[inline(always)]
    pub fn decay_var_inc(&mut self)
        ensures decayed { vsids_in self.new ≡ spec.decay_var_inc (vsids_in self.old) }
        ensures same_slices { SameSlices self.old self.new }
    {
        self.at = decay_var_inc(self.at);
    }

    // Sets the decay.
    #[inline(always)]
    pub fn set_var_decay(&mut self, decay: f64)
        ensures set { vsids_in self.new ≡ spec.set_var_decay decay (vsids_in self.old) }
        ensures same_slices { SameSlices self.old self.new }
    {
        self.at = set_var_decay(self.at, decay);
    }
}
