// The check of a lent heap of the heap chooser.
ghost use Rattle.std.specs.Prelude.{◌≡◌, ℕ, ◌<◌, ◌≤◌, length, get_or};
ghost use Rattle.laws.specs.Every.{every};
ghost use Rattle.lit.specs.Numbers.{max_vars};
ghost use Rattle.heap.specs.Heap.{comes_first};
ghost use Rattle.vsids.specs.Vsids.{places};
ghost use Rattle.vsids.specs.View.{vsids_seen, EqualLengths};
ghost use Rattle.vsids.specs.Check as check;
ghost use Rattle.vsids.specs.Untouched as untouched;
ghost use Rattle.vsids.specs.Outside as outside;
ghost use Rattle.vsids.specs.Check.{SameLengths};

use crate::VsidsState;
use activity::{MAX_ACTIVITY, ZERO_ACTIVITY};
use lit::{NONE, OFF, ON, UNASSIGNED};

// A chooser to look at: its four slices and its small state.
#[derive(Clone, Copy)]
pub struct VsidsView<'a> {
    pub activity: &'a [f64],
    pub heap: &'a [u32],
    pub indices: &'a [u32],
    pub decision: &'a [u8],
    pub at: VsidsState,
}

// Whether every activity is at most `hi`, without sign and no NaN.
fn activities_within(hi: f64, activity: &[f64]) -> bool
    ensures { result ≡ every (untouched.activity_within hi activity.now) (length activity.now) }
{
    let mut outside = 0u64;
    for a in activity {
        if !activity::within(hi, *a) {
            outside += 1;
        }
    }
    outside == 0
}

// Whether every element is the number of its place.
fn in_order(a: &[u32]) -> bool
    requires { length a.now ≤ max_vars }
    ensures { result ≡ every (untouched.own_place a.now) (length a.now) }
{
    let mut moved = 0u32;
    for (i, x) in a.iter().enumerate() {
        if *x != i as u32 {
            moved += 1;
        }
    }
    moved == 0
}

// No value of a byte reaches it.
const ABOVE_BYTES: u32 = 256;

impl VsidsView<'_> {
    // Whether place i, which is in use, is good: it holds a variable whose position it is, and which does not come before its parent.
    #[tactic(auto, unfolding(crate::specs::Check::member_ok))]
    fn member_ok(self, i: usize) -> bool
        requires lengths { EqualLengths self }
        requires i_in_bounds { i < length self.heap.now }
        requires by_index { (j : ℕ) → j < i → get_or self.heap.now j 0 < length self.activity.now }
        ensures { let h = vsids_seen self.entry in result ≡ check.member_ok (length h.activity) (comes_first h.activity) (places h) i }
    {
        let x = self.heap[i];
        if self.activity.len() <= x as usize {
            return false;
        }
        if self.indices[x as usize] != i as u32 {
            return false;
        }
        !heap::rises(self.activity, self.heap, x, i)
    }

    // Whether every place in use is good.
    fn members_ok(self) -> bool
        requires lengths { EqualLengths self }
        requires len_in_bounds { self.at.len ≤ length self.activity.now }
        ensures { let h = vsids_seen self.entry in result ≡ every (check.member_ok (length h.activity) (comes_first h.activity) (places h)) h.len }
    {
        for i in 0..self.at.len as usize {
            if !self.member_ok(i) {
                return false;
            }
        }
        true
    }

    // Whether every place is good: those in use, and the others hold NONE.
    fn places_ok(self) -> bool
        requires lengths { EqualLengths self }
        requires len_in_bounds { self.at.len ≤ length self.activity.now }
        ensures { let h = vsids_seen self.entry in result ≡ every (check.place_ok (length h.activity) h.len (comes_first h.activity) (places h)) (length h.activity) }
    {
        self.members_ok() && lit::unused_ok(self.heap, self.at.len)
    }

    // Whether every switch is on or off.
    fn switches_ok(self) -> bool
        ensures { result ≡ every (check.switch_ok self.entry.decision.now) (length self.entry.decision.now) }
    {
        let mut most = OFF;
        for d in self.decision {
            if *d > most {
                most = *d;
            }
        }
        most < 2
    }

    // Whether all variables are members in the order of their numbers and no activity is above 0, as in a fresh session.
    #[tactic(auto, unfolding(crate::specs::Untouched::untouched))]
    fn untouched(self) -> bool
        requires { (length self.heap.now ≤ max_vars) × (length self.indices.now ≤ max_vars) }
        ensures { let h = vsids_seen self.entry in result ≡ untouched.untouched h.len h.activity h.heap h.indices }
    {
        self.at.len as usize == self.activity.len()
            && activities_within(ZERO_ACTIVITY, self.activity)
            && in_order(self.heap)
            && in_order(self.indices)
    }

    // Whether the variable has a position, or is not open: unless it is off or has one, its value is to lie below 2.
    #[tactic(auto, unfolding(crate::specs::Vsids::is_open))]
    fn settled(self, values: &[u8], v: usize) -> bool
        requires { (v < length values.now) × ((v < length self.indices.now) × (v < length self.decision.now)) }
        ensures { result ≡ outside.settled_at values.now self.entry.indices.now self.entry.decision.now v }
    {
        let outside = if self.indices[v] == NONE {
            UNASSIGNED as u32
        } else {
            ABOVE_BYTES
        };
        let bar = if self.decision[v] == ON {
            outside
        } else {
            ABOVE_BYTES
        };
        (values[v] as u32) < bar
    }

    // Whether as many variables have no position as are no members, and none of them is open.
    fn outside_ok(self, values: &[u8]) -> bool
        requires { (length self.indices.now ≤ max_vars) × ((length values.now ≡ length self.indices.now) × (length self.decision.now ≡ length self.indices.now)) }
        ensures { let h = vsids_seen self.entry in result ≡ outside.outside_ok values.now h.indices h.decision h.len }
    {
        let mut outside = 0u32;
        let mut open = 0u32;
        for (v, place) in self.indices.iter().enumerate() {
            if *place == NONE {
                outside += 1;
            }
            if !self.settled(values, v) {
                open += 1;
            }
        }
        open == 0 && outside as usize + self.at.len as usize == self.indices.len()
    }

    // Whether lent memory is a good heap for these values. With a good step and good switches an untouched heap is good. Of another the
    // members are found at their positions, so it is left to see that nobody else has one.
    pub fn check(self, values: &[u8]) -> bool
        requires { SameLengths (length self.activity.now) values.now self.heap.now self.indices.now self.decision.now }
        ensures { result ≡ check.check_heap (length self.entry.activity.now) values.now (vsids_seen self.entry) }
    {
        if self.activity.len() < self.at.len as usize {
            return false;
        }
        if !self.at.step.good_step() {
            return false;
        }
        if !self.switches_ok() {
            return false;
        }
        if self.untouched() {
            return true;
        }
        self.places_ok()
            && activities_within(MAX_ACTIVITY, self.activity)
            && self.outside_ok(values)
    }
}
