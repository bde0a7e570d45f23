// Going back on the trail of trail.rs, over lent slices and as methods that hand the trail over; and the learnt unit.
ghost use Rattle.std.specs.Prelude.{◌≡◌, ℕ, ◌-◌, ◌≤◌, ◌<◌, List, length};
ghost use Rattle.lit.specs.Lits as lits;
ghost use Rattle.trail.specs.Trail as spec;
ghost use Rattle.trail.specs.Memory.{trail_of, trail_in, SameSlices, Room, RoomFor, Levelled};

use crate::{Trail, TrailState};
use lit::{NONE, UNASSIGNED};

// Takes the last literal off the trail: its variable becomes unassigned and has no reason. Its level stays, unread.
fn backstep(
    values: &mut [u8],
    levels: &[u32],
    reasons: &mut [u32],
    trail: &mut [u32],
    opened: &[u32],
    s: TrailState,
) -> TrailState
    requires room { Room (length values.old) (trail_of values.old levels.now reasons.old trail.old opened.now s) }
    requires len_nonzero { 0 < s.len }
    ensures { let before = trail_of values.old levels.now reasons.old trail.old opened.now s
        in let after = trail_of values.new levels.now reasons.new trail.new opened.now result
        in after ≡ spec.backstep before }
{
    let at = (s.len - 1) as usize;
    let v = lit::index(trail[at]) as usize;
    values[v] = UNASSIGNED;
    reasons[v] = NONE;
    trail[at] = NONE;
    TrailState {
        len: s.len - 1,
        ..s
    }
}

// Takes the last k literals off the trail.
fn backsteps(
    values: &mut [u8],
    levels: &[u32],
    reasons: &mut [u32],
    trail: &mut [u32],
    opened: &[u32],
    s: TrailState,
    k: u32,
) -> TrailState
    requires room { Room (length values.old) (trail_of values.old levels.now reasons.old trail.old opened.now s) }
    requires k_le_len { k ≤ s.len }
    ensures { let before = trail_of values.old levels.now reasons.old trail.old opened.now s
        in let after = trail_of values.new levels.now reasons.new trail.new opened.now result
        in after ≡ spec.backsteps k before }
{
    let mut t = s;
    for _ in 0..k {
        t = backstep(values, levels, reasons, trail, opened, t);
    }
    t
}

// Closes the levels above l.
fn close_levels(opened: &mut [u32], s: TrailState, l: u32) -> TrailState
    requires { (s.level ≤ length opened.old) × (l ≤ s.level) }
    ensures { (values levels reasons trail : List ℕ) → trail_of values levels reasons trail opened.new result
        ≡ spec.close_levels (s.level - l) (trail_of values levels reasons trail opened.old s) }
{
    opened[l as usize..s.level as usize].fill(NONE);
    TrailState { level: l, ..s }
}

// Goes back to a level below the present one. The literals that this undoes are those of the trail from place opened[level]
// on: a chooser is to be offered them first, from the last one down.
pub fn backtrack_to(
    values: &mut [u8],
    levels: &[u32],
    reasons: &mut [u32],
    trail: &mut [u32],
    opened: &mut [u32],
    s: TrailState,
    level: u32,
) -> TrailState
    requires levelled { Levelled (length values.old) (trail_of values.old levels.now reasons.old trail.old opened.old s) }
    requires level_lt_level { level < s.level }
    ensures { let before = trail_of values.old levels.now reasons.old trail.old opened.old s
        in let after = trail_of values.new levels.now reasons.new trail.new opened.new result
        in after ≡ spec.backtrack_to level before }
{
    let how_many = s.len - opened[level as usize];
    let t = backsteps(values, levels, reasons, trail, opened, s, how_many);
    let u = close_levels(opened, t, level);
    TrailState { curr_i: u.len, ..u }
}

// Goes back to a level if it is below the present one.
#[inline]
pub fn backtrack_safe(
    values: &mut [u8],
    levels: &[u32],
    reasons: &mut [u32],
    trail: &mut [u32],
    opened: &mut [u32],
    s: TrailState,
    level: u32,
) -> TrailState
    requires { Levelled (length values.old) (trail_of values.old levels.now reasons.old trail.old opened.old s) }
    ensures { let before = trail_of values.old levels.now reasons.old trail.old opened.old s
        in let after = trail_of values.new levels.now reasons.new trail.new opened.new result
        in after ≡ spec.backtrack_safe level before }
{
    if level < s.level {
        return backtrack_to(values, levels, reasons, trail, opened, s, level);
    }
    s
}

impl Trail<'_> {
    // Goes back to a level below the present one. The literals that this undoes are those of the trail from place opened[level]
    // on: a chooser is to be offered them first, from the last one down.
    #[inline(always)]
    pub fn backtrack_to(&mut self, level: u32)
        requires levelled { Levelled (length self.old.values.now) (trail_in self.old) }
        requires level_lt_level { level < self.old.at.level }
        ensures went_back { trail_in self.new ≡ spec.backtrack_to level (trail_in self.old) }
        ensures same_slices { SameSlices self.old self.new }
    {
        let at = self.at;
        let levels = &mut *self.levels;
        self.at = backtrack_to(
            self.values,
            levels,
            self.reasons,
            self.codes,
            self.opened,
            at,
            level,
        );
    }

    // Goes back to a level if it is below the present one.
    #[inline(always)]
    pub fn backtrack_safe(&mut self, level: u32)
        requires { Levelled (length self.old.values.now) (trail_in self.old) }
        ensures went_back { trail_in self.new ≡ spec.backtrack_safe level (trail_in self.old) }
        ensures same_slices { SameSlices self.old self.new }
    {
        let at = self.at;
        let levels = &mut *self.levels;
        self.at = backtrack_safe(
            self.values,
            levels,
            self.reasons,
            self.codes,
            self.opened,
            at,
            level,
        );
    }

    // Goes back to level 0 and puts a literal on the trail there, without a reason.
    pub fn learn_unit(&mut self, code: u32)
        requires levelled { Levelled (length self.old.values.now) (trail_in self.old) }
        requires room_for { RoomFor (length self.old.values.now) (lits.index code) (spec.backtrack_safe 0 (trail_in self.old)) }
        ensures learnt { trail_in self.new ≡ spec.learn_unit code (trail_in self.old) }
        ensures same_slices { SameSlices self.old self.new }
    {
        self.backtrack_safe(0);
        self.enq_assignment(code, NONE);
    }
}
