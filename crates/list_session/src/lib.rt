// A session in list mode: the trail and the move-to-front list over lent slices, and the eleven calls on it, each with what it answers.
#![tactic(auto)]

ghost use Rattle.std.specs.Prelude.{◌≡◌, cond, List, ℕ, ◌≤◌, length, eqb, replicate};
ghost use Rattle.lit.specs.Numbers as number;
ghost use Rattle.lit.specs.Refusals.{refusal_number, status_of};
ghost use Rattle.trail.specs.Trail.{Trail as TrailIs, fresh_trail};
ghost use Rattle.trail.specs.Memory as on_trail;
ghost use Rattle.trail.specs.Memory.{trail_in, view_in, Sized};
ghost use Rattle.vmtf.specs.Vmtf as on_list;
ghost use Rattle.vmtf.specs.Vmtf.{vmtf_in, vmtf_seen, new, Even, Literals, Fresh};
ghost use Rattle.vmtf.specs.Good.{InOrder};
ghost use Rattle.book.specs.Calls as book;
ghost use Rattle.session.specs.Entry.{reply_of};
ghost use Rattle.list_session.specs.Memory.{held, trail_held, vmtf_held, session_in, SameSlices, answer, Answers, cleared};
ghost use Rattle.list_session.specs.Good.{Choosable};
ghost use Rattle.list_session.specs.Check.{state_ok};

use lit::{MAX_GROUP, NONE, Refusal};
use move_to_front::creation::make_fresh;
use trail::{Trail, TrailState, TrailView};
use vmtf::{Vmtf, VmtfState, VmtfView};

pub mod step;

// The small states of the trail and of the list.
#[derive(Clone, Copy, Default)]
pub struct ListState {
    pub trail: TrailState,
    pub vmtf: VmtfState,
}

// A session: the lent slices of the trail and of the list, and the small states. It holds them side by side, and not a trail and a list, since a
// function that lends slices to a struct in a struct cannot say what they hold afterwards.
#[derive(Drop)]
pub struct ListSession<'a> {
    pub values: &'a mut [u8],
    pub levels: &'a mut [u32],
    pub reasons: &'a mut [u32],
    // the literals
    pub trail: &'a mut [u32],
    pub opened: &'a mut [u32],
    pub next: &'a mut [u32],
    pub prev: &'a mut [u32],
    pub ts: &'a mut [u64],
    pub at: ListState,
}

// The session, to look at.
#[derive(Clone, Copy)]
pub struct ListView<'a> {
    pub trail: TrailView<'a>,
    pub vmtf: VmtfView<'a>,
}

// What a call answers in numbers, as hosts in C have it: 0 or the refusal, the reply or NONE, and the small states to go on with.
#[derive(Clone, Copy)]
pub struct ListAnswer {
    pub status: u32,
    pub reply: u32,
    pub state: ListState,
}

// Status 0 with a reply.
pub fn accept(reply: u32, s: ListState) -> ListAnswer
    ensures { result ≡ answer 0 reply s }
{
    ListAnswer {
        status: 0,
        reply,
        state: s,
    }
}

// A refusal, with reply NONE.
pub fn refuse(status: u32, s: ListState) -> ListAnswer
    ensures { result ≡ answer status number.NONE s }
{
    ListAnswer {
        status,
        reply: NONE,
        state: s,
    }
}

impl ListAnswer {
    // What a call gave, in numbers.
    pub fn of(given: Result<Option<u32>, Refusal>, s: ListState) -> ListAnswer
        ensures { result ≡ answer (status_of given) (reply_of given) s }
    {
        match given {
            Ok(reply) => accept(reply.unwrap_or(NONE), s),
            Err(refusal) => refuse(refusal.number(), s),
        }
    }
}

// A call that changes nothing: refused unless its argument passed the test.
pub fn tested(ok: bool, refusal: Refusal) -> Result<Option<u32>, Refusal>
    ensures status { status_of result ≡ cond ok 0 (refusal_number refusal) }
    ensures reply { reply_of result ≡ number.NONE }
{
    if ok { Ok(None) } else { Err(refusal) }
}

// Takes the first unassigned variable from search on and puts its literal with the polarity on the trail as a decision.
pub fn decide(trail: &mut Trail<'_>, vmtf: &mut Vmtf<'_>, p: u32) -> Result<Option<u32>, Refusal>
    requires { Choosable (length trail.old.values.now) (trail_in trail.old) vmtf.old.next.now vmtf.old.at }
    ensures answered { (n m : ℕ) (lits : List ℕ) →
        let before = held n m lits (trail_in trail.old) (vmtf_in vmtf.old) in
        let after = held n m lits (trail_in trail.new) (vmtf_in vmtf.new) in
        Answers n m lits (book.decide p) before result after }
    ensures same_trail { on_trail.SameSlices trail.old trail.new }
    ensures same_list { on_list.SameSlices vmtf.old vmtf.new }
{
    if p >= 2 {
        return Err(Refusal::BadPolarity);
    }
    match vmtf.get_next(trail.view().values)? {
        Some(v) => {
            trail.enq_decision(v, p as u8);
            Ok(Some(v))
        }
        None => Ok(None),
    }
}

// How many variables the scratch of a group has room for: setting up long arrays costs more than a short group. `MANY` is enough for any.
const LEAST: usize = 8;

const FEW: usize = 64;

const SOME: usize = 512;

const MANY: usize = MAX_GROUP as usize;

// Moves a group to the front of the list. The stamps and the order are scratch.
pub fn group(
    n: u32,
    vmtf: &mut Vmtf<'_>,
    vars: &[u32],
    stamps: &mut [u64],
    order: &mut [u32],
) -> Result<Option<u32>, Refusal>
    requires in_order { InOrder n (vmtf_in vmtf.old) }
    requires stamps_len { (length stamps.old ≡ length vars.now) × (length order.old ≡ length vars.now) }
    ensures answered { (m : ℕ) (lits : List ℕ) (t : TrailIs) →
        Answers n m lits (book.group vars.now) (held n m lits t (vmtf_in vmtf.old)) result (held n m lits t (vmtf_in vmtf.new)) }
    ensures scratch { let used = eqb (status_of result) 0 in
        (stamps.new ≡ cleared used stamps.old) × (order.new ≡ cleared used order.old) }
    ensures same_list { on_list.SameSlices vmtf.old vmtf.new }
{
    if !session::vars_below(n, vars) {
        return Err(Refusal::NoVariable);
    }
    move_to_front::bump_vec_of_vars(vmtf, vars, stamps, order);
    Ok(None)
}

// The same with scratch of its own that has room for the group.
fn group_in<const ROOM: usize>(
    n: u32,
    vmtf: &mut Vmtf<'_>,
    vars: &[u32],
) -> Result<Option<u32>, Refusal>
    requires in_order { InOrder n (vmtf_in vmtf.old) }
    requires vars_len_bound { (length vars.now ≤ ROOM) × (ROOM ≤ number.max_group) }
    ensures answered { (m : ℕ) (lits : List ℕ) (t : TrailIs) →
        Answers n m lits (book.group vars.now) (held n m lits t (vmtf_in vmtf.old)) result (held n m lits t (vmtf_in vmtf.new)) }
    ensures same_list { on_list.SameSlices vmtf.old vmtf.new }
{
    let k = vars.len();
    let mut stamps = [0u64; ROOM];
    let mut order = [NONE; ROOM];
    group(n, vmtf, vars, &mut stamps[..k], &mut order[..k])
}

// The same with as much scratch as the group needs.
pub fn group_unaided(n: u32, vmtf: &mut Vmtf<'_>, vars: &[u32]) -> Result<Option<u32>, Refusal>
    requires in_order { InOrder n (vmtf_in vmtf.old) }
    requires vars_len_bound { length vars.now ≤ number.max_group }
    ensures answered { (m : ℕ) (lits : List ℕ) (t : TrailIs) →
        Answers n m lits (book.group vars.now) (held n m lits t (vmtf_in vmtf.old)) result (held n m lits t (vmtf_in vmtf.new)) }
    ensures same_list { on_list.SameSlices vmtf.old vmtf.new }
{
    if vars.len() <= LEAST {
        return group_in::<LEAST>(n, vmtf, vars);
    }
    if vars.len() <= FEW {
        return group_in::<FEW>(n, vmtf, vars);
    }
    if vars.len() <= SOME {
        return group_in::<SOME>(n, vmtf, vars);
    }
    group_in::<MANY>(n, vmtf, vars)
}

// A fresh trail and a fresh list; before, the levels and the reasons are scratch.
fn make_both(trail: &mut Trail<'_>, vmtf: &mut Vmtf<'_>, lits: &[u32])
    requires trail { Sized (length vmtf.old.next.now) (trail_in trail.old) }
    requires even { Even (vmtf_in vmtf.old) }
    requires literals { (length vmtf.old.next.now ≤ number.max_vars) × Literals (length vmtf.old.next.now) lits.now }
    ensures trail { trail_in trail.new ≡ fresh_trail (length vmtf.old.next.now) }
    ensures list { vmtf_in vmtf.new ≡ new (length vmtf.old.next.now) lits.now }
    ensures same_trail { on_trail.SameSlices trail.old trail.new }
    ensures same_list { on_list.SameSlices vmtf.old vmtf.new }
{
    make_fresh(vmtf, lits, trail.levels, trail.reasons);
    trail.make_fresh();
}

impl ListSession<'_> {
    pub fn view(&self) -> ListView<'_>
        ensures trail { view_in result.trail ≡ trail_held self.now }
        ensures list { vmtf_seen result.vmtf ≡ vmtf_held self.now }
    {
        let trail = TrailView {
            values: self.values,
            levels: self.levels,
            reasons: self.reasons,
            codes: self.trail,
            opened: self.opened,
            at: self.at.trail,
        };
        let vmtf = VmtfView {
            next: self.next,
            prev: self.prev,
            ts: self.ts,
            at: self.at.vmtf,
        };
        ListView { trail, vmtf }
    }

    // A fresh session: nothing is assigned, and the list has the variables of the most literals first. The counts and the indexes are scratch.
    pub fn make_fresh(&mut self, lits: &[u32], counts: &mut [u32], indexes: &mut [u32])
        requires trail { Sized (length self.old.values.now) (trail_held self.old) }
        requires literals { Literals (length self.old.next.now) lits.now }
        requires fresh { Fresh (length self.old.next.now) self.old.prev.now self.old.ts.now counts.old indexes.old }
        ensures trail { trail_held self.new ≡ fresh_trail (length self.old.values.now) }
        ensures list { vmtf_held self.new ≡ new (length self.old.next.now) lits.now }
        ensures zeros { let zeros : List ℕ = replicate (length self.old.next.now) 0 in
            (counts.new ≡ zeros) × (indexes.new ≡ zeros) }
        ensures same_slices { SameSlices self.old self.new }
    {
        let mut trail = Trail {
            values: self.values,
            levels: self.levels,
            reasons: self.reasons,
            codes: self.trail,
            opened: self.opened,
            at: self.at.trail,
        };
        let mut vmtf = Vmtf {
            next: self.next,
            prev: self.prev,
            ts: self.ts,
            at: self.at.vmtf,
        };
        trail.make_fresh();
        make_fresh(&mut vmtf, lits, counts, indexes);
        self.at = ListState {
            trail: trail.at,
            vmtf: vmtf.at,
        };
    }

    // The same with the levels and the reasons as scratch, before they are made fresh.
    pub fn make_fresh_unaided(&mut self, lits: &[u32])
        requires trail { Sized (length self.old.next.now) (trail_held self.old) }
        requires even { Even (vmtf_held self.old) }
        requires literals { (length self.old.next.now ≤ number.max_vars) × Literals (length self.old.next.now) lits.now }
        ensures trail { trail_held self.new ≡ fresh_trail (length self.old.next.now) }
        ensures list { vmtf_held self.new ≡ new (length self.old.next.now) lits.now }
        ensures same_slices { SameSlices self.old self.new }
    {
        let mut trail = Trail {
            values: self.values,
            levels: self.levels,
            reasons: self.reasons,
            codes: self.trail,
            opened: self.opened,
            at: self.at.trail,
        };
        let mut vmtf = Vmtf {
            next: self.next,
            prev: self.prev,
            ts: self.ts,
            at: self.at.vmtf,
        };
        make_both(&mut trail, &mut vmtf, lits);
        self.at = ListState {
            trail: trail.at,
            vmtf: vmtf.at,
        };
    }

    pub fn group_unaided(&mut self, n: u32, vars: &[u32]) -> Result<Option<u32>, Refusal>
        requires in_order { InOrder n (vmtf_held self.old) }
        requires vars_len_bound { length vars.now ≤ number.max_group }
        ensures answered { (m : ℕ) (lits : List ℕ) →
            Answers n m lits (book.group vars.now) (session_in n m lits self.old) result (session_in n m lits self.new) }
        ensures same_slices { SameSlices self.old self.new }
    {
        let mut vmtf = Vmtf {
            next: self.next,
            prev: self.prev,
            ts: self.ts,
            at: self.at.vmtf,
        };
        let given = group_unaided(n, &mut vmtf, vars);
        self.at.vmtf = vmtf.at;
        given
    }
}

impl ListView<'_> {
    // Whether the trail and the list are good.
    pub fn check(self, m: u32) -> bool
        requires lengths { Sized (length self.trail.values.now) (view_in self.trail) }
        requires small { length self.trail.values.now ≤ number.max_vars }
        requires even { Even (vmtf_seen self.vmtf) }
        ensures { result ≡ state_ok m (view_in self.entry.trail) (vmtf_seen self.entry.vmtf) }
    {
        trail_check::check_trail(m, self.trail) && self.vmtf.check()
    }
}
