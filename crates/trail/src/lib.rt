// The trail of trail.rs: steps, going back. Over lent slices of length N: for each variable its value, level and reason; the literals on the
// trail; and for each opened level the trail's length before its decision. Unused places hold NONE.
// A slice that a function over slices leaves alone is passed as `&`, so that its contract names the whole trail. The method of the same name hands the trail over.
#![tactic(auto)]

ghost use Rattle.std.specs.Prelude.{◌≡◌, ◌<◌, length};
ghost use Rattle.lit.specs.Lits as lits;
ghost use Rattle.trail.specs.Trail as spec;
ghost use Rattle.trail.specs.Memory.{trail_of, trail_in, view_in, SameSlices, Sized, RoomFor};

use lit::NONE;

pub mod back;

// How many places of the trail and of the opened levels are in use, and `curr_i`.
#[derive(Clone, Copy, Default)]
pub struct TrailState {
    pub len: u32,
    pub level: u32,
    pub curr_i: u32,
}

// The trail in lent slices.
#[derive(Drop)]
pub struct Trail<'a> {
    pub values: &'a mut [u8],
    pub levels: &'a mut [u32],
    pub reasons: &'a mut [u32],
    // the literals
    pub codes: &'a mut [u32],
    pub opened: &'a mut [u32],
    pub at: TrailState,
}

// The same, to be read only.
#[derive(Clone, Copy)]
pub struct TrailView<'a> {
    pub values: &'a [u8],
    pub levels: &'a [u32],
    pub reasons: &'a [u32],
    pub codes: &'a [u32],
    pub opened: &'a [u32],
    pub at: TrailState,
}

impl Trail<'_> {
    // The trail, to be read only.
    pub fn view(&self) -> TrailView<'_>
        ensures { view_in result ≡ trail_in self.now }
    {
        TrailView {
            values: self.values,
            levels: self.levels,
            reasons: self.reasons,
            codes: self.codes,
            opened: self.opened,
            at: self.at,
        }
    }

    // A fresh trail: nothing is assigned, no level is open.
    pub fn make_fresh(&mut self)
        requires { Sized (length self.old.values.now) (trail_in self.old) }
        ensures fresh { trail_in self.new ≡ spec.fresh_trail (length self.old.values.now) }
        ensures same_slices { SameSlices self.old self.new }
    {
        lit::new_assignments(self.values);
        self.levels.fill(NONE);
        self.reasons.fill(NONE);
        self.codes.fill(NONE);
        self.opened.fill(NONE);
        self.at = TrailState::default();
    }

    // Puts a literal on the trail at the present level, with a reason: a clause number or NONE.
    #[inline(always)]
    pub fn enq_assignment(&mut self, code: u32, reason: u32)
        requires { RoomFor (length self.old.values.now) (lits.index code) (trail_in self.old) }
        ensures enqueued { trail_in self.new ≡ spec.enq_assignment code reason (trail_in self.old) }
        ensures same_slices { SameSlices self.old self.new }
    {
        let at = self.at;
        let opened = &mut *self.opened;
        self.at = enq_assignment(
            self.values,
            self.levels,
            self.reasons,
            self.codes,
            opened,
            at,
            code,
            reason,
        );
    }

    // Opens a level and puts the literal of a variable with a polarity on the trail as its decision.
    #[inline(always)]
    pub fn enq_decision(&mut self, v: u32, p: u8)
        requires room_for { RoomFor (length self.old.values.now) v (trail_in self.old) }
        requires level_in_bounds { (self.old.at.level < length self.old.values.now) × (p < 2) }
        ensures decided { trail_in self.new ≡ spec.enq_decision v p (trail_in self.old) }
        ensures same_slices { SameSlices self.old self.new }
    {
        let at = self.at;
        let reasons = &mut *self.reasons;
        self.at = enq_decision(
            self.values,
            self.levels,
            reasons,
            self.codes,
            self.opened,
            at,
            v,
            p,
        );
    }
}

// Puts a literal on the trail at the present level, with a reason: a clause number or NONE.
#[inline]
pub fn enq_assignment(
    values: &mut [u8],
    levels: &mut [u32],
    reasons: &mut [u32],
    trail: &mut [u32],
    opened: &[u32],
    s: TrailState,
    code: u32,
    reason: u32,
) -> TrailState
    requires { RoomFor (length values.old) (lits.index code) (trail_of values.old levels.old reasons.old trail.old opened.now s) }
    ensures { let before = trail_of values.old levels.old reasons.old trail.old opened.now s
        in let after = trail_of values.new levels.new reasons.new trail.new opened.now result
        in after ≡ spec.enq_assignment code reason before }
{
    let v = lit::index(code) as usize;
    let at = s.len as usize;
    reasons[v] = reason;
    levels[v] = s.level;
    lit::set_assignment(values, code);
    trail[at] = code;
    TrailState {
        len: s.len + 1,
        ..s
    }
}

// Opens a level and puts the literal of a variable with a polarity on the trail as its decision.
#[inline]
pub fn enq_decision(
    values: &mut [u8],
    levels: &mut [u32],
    reasons: &[u32],
    trail: &mut [u32],
    opened: &mut [u32],
    s: TrailState,
    v: u32,
    p: u8,
) -> TrailState
    requires room_for { RoomFor (length values.old) v (trail_of values.old levels.old reasons.now trail.old opened.old s) }
    requires level_in_bounds { (s.level < length values.old) × (p < 2) }
    ensures { let before = trail_of values.old levels.old reasons.now trail.old opened.old s
        in let after = trail_of values.new levels.new reasons.now trail.new opened.new result
        in after ≡ spec.enq_decision v p before }
{
    let i = v as usize;
    let at = s.len as usize;
    let open = s.level as usize;
    opened[open] = s.len;
    levels[i] = s.level + 1;
    values[i] = p;
    trail[at] = lit::new(v, p);
    TrailState {
        len: s.len + 1,
        level: s.level + 1,
        ..s
    }
}
