// The calls in heap mode: the trail and the heap of VSIDS over lent slices, by subject.
#![tactic(auto)]

ghost use Rattle.std.specs.Prelude.{◌≡◌, length};
ghost use Rattle.lit.specs.Numbers as number;
ghost use Rattle.lit.specs.Refusals.{status_of};
ghost use Rattle.trail.specs.Trail.{fresh_trail};
ghost use Rattle.trail.specs.Memory.{view_in, Sized};
ghost use Rattle.vsids.specs.Vsids.{new};
ghost use Rattle.vsids.specs.View.{vsids_seen, AreDoubles};
ghost use Rattle.vsids.specs.Check.{SameLengths};
ghost use Rattle.session.specs.Entry.{reply_of};
ghost use Rattle.heap_session.specs.Memory.{answer};
ghost use Rattle.heap_session.specs.Held.{trail_held, vsids_held, SameSlices};

use lit::{NONE, Refusal};
use trail::{Trail, TrailState, TrailView};
use vsids::heap_check::VsidsView;
use vsids::{Vsids, VsidsState};

pub mod on_trail;
pub mod order;
pub mod step;

// The small states of the trail and of the heap.
#[derive(Clone, Copy)]
pub struct HeapState {
    pub trail: TrailState,
    pub vsids: VsidsState,
}

// A session: the lent slices of the trail and of the heap, and the small states.
#[derive(Drop)]
pub struct HeapSession<'a> {
    pub values: &'a mut [u8],
    pub levels: &'a mut [u32],
    pub reasons: &'a mut [u32],
    pub trail: &'a mut [u32],
    pub opened: &'a mut [u32],
    pub activity: &'a mut [f64],
    pub heap: &'a mut [u32],
    pub indices: &'a mut [u32],
    pub decision: &'a mut [u8],
    pub at: HeapState,
}

// The same, to be read only.
#[derive(Clone, Copy)]
pub struct HeapView<'a> {
    pub trail: TrailView<'a>,
    pub vsids: VsidsView<'a>,
}

impl HeapSession<'_> {
    // A fresh session: nothing is assigned, and every variable is a member with activity 0.
    pub fn make_fresh(&mut self)
        requires lengths { Sized (length self.old.values.now) (trail_held self.old) }
        requires same_lengths { SameLengths (length self.old.activity.now) self.old.values.now self.old.heap.now self.old.indices.now self.old.decision.now }
        ensures trail { trail_held self.new ≡ fresh_trail (length self.old.values.now) }
        ensures vsids { vsids_held self.new ≡ new (length self.old.activity.now) }
        ensures same_slices { SameSlices self.old self.new }
    {
        let mut trail = Trail {
            values: self.values,
            levels: self.levels,
            reasons: self.reasons,
            codes: self.trail,
            opened: self.opened,
            at: self.at.trail,
        };
        let mut vsids = Vsids {
            activity: self.activity,
            heap: self.heap,
            indices: self.indices,
            decision: self.decision,
            at: self.at.vsids,
        };
        trail.make_fresh();
        vsids.make_fresh();
        self.at = HeapState {
            trail: trail.at,
            vsids: vsids.at,
        };
    }

    // The session, to be read only.
    pub fn view(&self) -> HeapView<'_>
        ensures trail { view_in result.trail ≡ trail_held self.now }
        ensures vsids { vsids_seen result.vsids ≡ vsids_held self.now }
        ensures doubles { AreDoubles self.now.activity.now }
    {
        vsids::as_doubles(self.activity);
        let trail = TrailView {
            values: self.values,
            levels: self.levels,
            reasons: self.reasons,
            codes: self.trail,
            opened: self.opened,
            at: self.at.trail,
        };
        let vsids = VsidsView {
            activity: self.activity,
            heap: self.heap,
            indices: self.indices,
            decision: self.decision,
            at: self.at.vsids,
        };
        HeapView { trail, vsids }
    }
}

// What a call answers in numbers, as hosts in C have it: 0 or the refusal, the reply or NONE, and the small states to go on with.
#[derive(Clone, Copy)]
pub struct HeapAnswer {
    pub status: u32,
    pub reply: u32,
    pub state: HeapState,
}

impl HeapAnswer {
    // What a call gave, in numbers.
    pub fn of(given: Result<Option<u32>, Refusal>, s: HeapState) -> HeapAnswer
        ensures { result ≡ answer (status_of given) (reply_of given) s }
    {
        match given {
            Ok(Some(reply)) => accept(reply, s),
            Ok(None) => accept(NONE, s),
            Err(e) => refuse(e.number(), s),
        }
    }
}

// Status 0 with a reply.
pub fn accept(reply: u32, s: HeapState) -> HeapAnswer
    ensures { result ≡ answer 0 reply s }
{
    HeapAnswer {
        status: 0,
        reply: reply,
        state: s,
    }
}

// A refusal, with reply NONE.
pub fn refuse(status: u32, s: HeapState) -> HeapAnswer
    ensures { result ≡ answer status number.NONE s }
{
    HeapAnswer {
        status: status,
        reply: NONE,
        state: s,
    }
}
