// The eleven calls on a session in list mode.
ghost use Rattle.std.specs.Prelude.{◌≡◌, List, ℕ};
ghost use Rattle.lit.specs.Refusals.{status_of};
ghost use Rattle.trail.specs.Memory as on_trail;
ghost use Rattle.trail.specs.Memory.{trail_in};
ghost use Rattle.vmtf.specs.Vmtf as on_list;
ghost use Rattle.vmtf.specs.Vmtf.{vmtf_in};
ghost use Rattle.session.specs.Calls.{call_of};
ghost use Rattle.session.specs.Asked.{asks};
ghost use Rattle.session.specs.Entered.{RightScratch};
ghost use Rattle.list_session.specs.Memory.{held, trail_held, vmtf_held, session_in, SameSlices, Answers, cleared};
ghost use Rattle.list_session.specs.Good.{GoodSession};
ghost use Rattle.list_session.specs.Scratch.{clears};

use crate::{ListSession, ListState, decide, group, tested};
use activity::good_decay;
use lit::Refusal;
use session::{Call, on_trail};
use trail::Trail;
use vmtf::Vmtf;

// A call on a good trail and a good list. The stamps and the order are a group's scratch.
fn step_on(
    n: u32,
    m: u32,
    trail: &mut Trail<'_>,
    vmtf: &mut Vmtf<'_>,
    call: Call,
    vars: &[u32],
    stamps: &mut [u64],
    order: &mut [u32],
) -> Result<Option<u32>, Refusal>
    requires good { GoodSession n m (trail_in trail.old) (vmtf_in vmtf.old) }
    requires right_scratch { RightScratch (asks call vars.now stamps.old order.old) }
    ensures answered { (lits : List ℕ) →
        let before = held n m lits (trail_in trail.old) (vmtf_in vmtf.old) in
        let after = held n m lits (trail_in trail.new) (vmtf_in vmtf.new) in
        Answers n m lits (call_of call vars.now) before result after }
    ensures scratch { let used = clears call (status_of result) in
        (stamps.new ≡ cleared used stamps.old) × (order.new ≡ cleared used order.old) }
    ensures same_trail { on_trail.SameSlices trail.old trail.new }
    ensures same_list { on_list.SameSlices vmtf.old vmtf.new }
{
    match call {
        Call::Bump(v) => tested(v < n, Refusal::NoVariable),
        Call::Decay => Ok(None),
        Call::SetDecay(d) => tested(good_decay(d), Refusal::BadDecay),
        Call::Insert(v) => tested(v < n, Refusal::NoVariable),
        Call::SwitchOff(v) => tested(v < n, Refusal::NoVariable),
        Call::Decide(p) => decide(trail, vmtf, p),
        Call::Enqueue(code, reason) => on_trail::enqueue(n, m, trail, code, reason),
        Call::LearnUnit(code) => on_trail::learn_unit(n, trail, code),
        Call::GoBack(level) => Ok(Some(on_trail::go_back(trail, level))),
        Call::BumpReason(v) => tested(v < n, Refusal::NoVariable),
        Call::Group => group(n, vmtf, vars, stamps, order),
    }
}

impl ListSession<'_> {
    // A call on a good session. Taken into its callers: a reply that goes through memory is stored byte by byte and read back as one word.
    #[inline(always)]
    pub fn step(
        &mut self,
        n: u32,
        m: u32,
        call: Call,
        vars: &[u32],
        stamps: &mut [u64],
        order: &mut [u32],
    ) -> Result<Option<u32>, Refusal>
        requires good { GoodSession n m (trail_held self.old) (vmtf_held self.old) }
        requires right_scratch { RightScratch (asks call vars.now stamps.old order.old) }
        ensures answered { (lits : List ℕ) →
            Answers n m lits (call_of call vars.now) (session_in n m lits self.old) result (session_in n m lits self.new) }
        ensures scratch { let used = clears call (status_of result) in
            (stamps.new ≡ cleared used stamps.old) × (order.new ≡ cleared used order.old) }
        ensures same_slices { SameSlices self.old self.new }
    {
        let mut trail = Trail {
            values: self.values,
            levels: self.levels,
            reasons: self.reasons,
            codes: self.trail,
            opened: self.opened,
            at: self.at.trail,
        };
        let mut vmtf = Vmtf {
            next: self.next,
            prev: self.prev,
            ts: self.ts,
            at: self.at.vmtf,
        };
        let given = step_on(n, m, &mut trail, &mut vmtf, call, vars, stamps, order);
        self.at = ListState {
            trail: trail.at,
            vmtf: vmtf.at,
        };
        given
    }
}
