// A session in heap mode: the trail and the heap of VSIDS over lent slices, and the eleven calls on it.
ghost use Rattle.std.specs.Prelude.{◌≡◌, length};
ghost use Rattle.lit.specs.Refusals.{status_of};
ghost use Rattle.trail.specs.Memory.{trail_in, view_in, Sized};
ghost use Rattle.trail.specs.Memory as trail;
ghost use Rattle.vsids.specs.Memory.{vsids_in};
ghost use Rattle.vsids.specs.Memory as vsids;
ghost use Rattle.vsids.specs.View.{vsids_seen};
ghost use Rattle.vsids.specs.Check.{SameLengths};
ghost use Rattle.session.specs.Calls.{call_of};
ghost use Rattle.session.specs.Entry.{reply_of};
ghost use Rattle.heap_session.specs.Memory.{Answers};
ghost use Rattle.heap_session.specs.Held.{both, trail_held, vsids_held, session_in, SameSlices};
ghost use Rattle.heap_session.specs.Good.{GoodSession};
ghost use Rattle.heap_session.specs.Check.{state_ok};

use crate::{HeapSession, HeapState, HeapView, on_trail, order};
use formula::Clauses;
use lit::Refusal;
use session::Call;
use trail::Trail;
use vsids::Vsids;

// A call on a good trail and a good heap.
fn step_on(
    n: u32,
    m: u32,
    list: Clauses<'_>,
    t: &mut Trail<'_>,
    h: &mut Vsids<'_>,
    call: Call,
    vars: &[u32],
) -> Result<Option<u32>, Refusal>
    requires { GoodSession n m list.lits.now list.ends.now (trail_in t.old) (vsids_in h.old) }
    ensures answered { let lits = list.entry.lits.now in let ends = list.entry.ends.now in
        let with = both n m lits ends in
        Answers n m lits ends (call_of call vars.now) (with (trail_in t.old) (vsids_in h.old)) (status_of result) (reply_of result) (with (trail_in t.new) (vsids_in h.new)) }
    ensures same_trail { trail.SameSlices t.old t.new }
    ensures same_heap { vsids.SameSlices h.old h.new }
{
    match call {
        Call::Bump(v) => order::bump(n, h, v),
        Call::Decay => order::decay(h),
        Call::SetDecay(d) => order::set_decay(h, d),
        Call::Insert(v) => order::insert(n, h, v),
        Call::SwitchOff(v) => order::switch_off(n, h, v),
        Call::Decide(p) => on_trail::decide(t, h, p),
        Call::Enqueue(code, reason) => session::on_trail::enqueue(n, m, t, code, reason),
        Call::LearnUnit(code) => on_trail::learn_unit(n, t, h, code),
        Call::GoBack(level) => Ok(Some(on_trail::go_back(t, h, level))),
        Call::BumpReason(v) => order::bump_reason(n, list, t, h, v),
        Call::Group => order::group(n, vars),
    }
}

impl HeapSession<'_> {
    // A call on a good session.
    pub fn step(
        &mut self,
        n: u32,
        m: u32,
        list: Clauses<'_>,
        call: Call,
        vars: &[u32],
    ) -> Result<Option<u32>, Refusal>
        requires { GoodSession n m list.lits.now list.ends.now (trail_held self.old) (vsids_held self.old) }
        ensures answered { let lits = list.entry.lits.now in let ends = list.entry.ends.now in
            let held = session_in n m lits ends in
            Answers n m lits ends (call_of call vars.now) (held self.old) (status_of result) (reply_of result) (held self.new) }
        ensures same_slices { SameSlices self.old self.new }
    {
        let mut trail = Trail {
            values: self.values,
            levels: self.levels,
            reasons: self.reasons,
            codes: self.trail,
            opened: self.opened,
            at: self.at.trail,
        };
        let mut vsids = Vsids {
            activity: self.activity,
            heap: self.heap,
            indices: self.indices,
            decision: self.decision,
            at: self.at.vsids,
        };
        let given = step_on(n, m, list, &mut trail, &mut vsids, call, vars);
        self.at = HeapState {
            trail: trail.at,
            vsids: vsids.at,
        };
        given
    }
}

impl HeapView<'_> {
    // Whether the trail and the heap are good.
    #[tactic(auto, unfolding(crate::specs::Check::state_ok))]
    pub fn check(self, m: u32) -> bool
        requires lengths { Sized (length self.trail.values.now) (view_in self.trail) }
        requires same_lengths { SameLengths (length self.vsids.activity.now) self.trail.values.now self.vsids.heap.now self.vsids.indices.now self.vsids.decision.now }
        ensures { result ≡ state_ok m (view_in self.entry.trail) (vsids_seen self.entry.vsids) }
    {
        trail_check::check_trail(m, self.trail) && self.vsids.check(self.trail.values)
    }
}
