// The entry points in heap mode: a session's calls, and its creation. They check the memory that was lent, and ask nothing of their callers.
#![tactic(auto)]

ghost use Rattle.std.specs.Prelude.{◌≡◌};
ghost use Rattle.formula.specs.Clauses.{clauses_ok};
ghost use Rattle.lit.specs.Refusals.{status_of};
ghost use Rattle.vsids.specs.View.{vsids_seen};
ghost use Rattle.session.specs.Asked.{asks};
ghost use Rattle.session.specs.Checks.{state_refusal};
ghost use Rattle.session.specs.Entry.{Answered, reply_of};
ghost use Rattle.session.specs.Mode.{lengths_ok};
ghost use Rattle.heap_session.specs.Check.{state_ok};
ghost use Rattle.heap_session.specs.Held.{session_in, SameSlices};
ghost use Rattle.heap_session.specs.Memory.{session_of};
ghost use Rattle.heap_session.specs.Seen.{session_seen};
ghost use Rattle.heap_entry.specs.Entry.{heap_lengths, heap_mode, entered};

use formula::Clauses;
use heap_session::{HeapAnswer, HeapSession, HeapState, HeapView};
use lit::Refusal;
use session::Call;
use vsids::heap_check::VsidsView;

pub mod creation;

// Whether the heap's slices have length n.
pub fn heap_lengths(n: usize, h: VsidsView<'_>) -> bool
    ensures { result ≡ heap_lengths n (vsids_seen h.entry) }
{
    h.activity.len() == n && (h.heap.len() == n && (h.indices.len() == n && h.decision.len() == n))
}

// Whether all that was lent has its length; of the scratch it is known.
#[tactic(auto, unfolding(session::specs::Mode::lengths_ok))]
pub fn lengths_ok(
    n: u32,
    literals: u32,
    clauses: u32,
    list: Clauses<'_>,
    lent: HeapView<'_>,
    scratch: bool,
) -> bool
    ensures { let lits = list.entry.lits.now in let ends = list.entry.ends.now in
        let mode = heap_mode n clauses lits ends in
        result ≡ lengths_ok n clauses mode lits literals ends (session_seen n clauses lits ends lent.entry) scratch }
{
    session::entry::trail_lengths(n as usize, lent.trail)
        && (heap_lengths(n as usize, lent.vsids)
            && (session::entry::clause_lengths(literals, clauses, list) && scratch))
}

// The refusal of a session that was lent, if there is one.
pub fn refusal(
    n: u32,
    literals: u32,
    clauses: u32,
    list: Clauses<'_>,
    lent: HeapView<'_>,
    scratch: bool,
) -> Result<(), Refusal>
    ensures { let lits = list.entry.lits.now in let ends = list.entry.ends.now in
        let shown = session_seen n clauses lits ends lent.entry in
        let mode = heap_mode n clauses lits ends in
        let lengths = lengths_ok n clauses mode lits literals ends shown scratch in
        status_of result ≡ state_refusal n lengths (clauses_ok n lits ends) (state_ok clauses shown.trail shown.chooser) }
{
    let lengths = lengths_ok(n, literals, clauses, list, lent, scratch);
    session::entry::size_refusal(n, lengths, list)?;
    if !lent.check(clauses) {
        return Err(Refusal::BadState);
    }
    Ok(())
}

// A call on a session that was lent: the first refusal that fits, or what the call answers. The stamps and the order are a group's scratch,
// which this mode only measures.
pub fn enter_session(
    n: u32,
    literals: u32,
    clauses: u32,
    list: Clauses<'_>,
    session: &mut HeapSession<'_>,
    call: Call,
    vars: &[u32],
    stamps: &[u64],
    order: &[u32],
) -> Result<Option<u32>, Refusal>
    ensures answered { let lits = list.entry.lits.now in let ends = list.entry.ends.now in
        let held = session_in n clauses lits ends in
        let before = held session.old in
        let asked = asks call vars.now stamps.now order.now in
        Answered (entered n clauses lits literals ends asked before) before (status_of result) (reply_of result) (held session.new) }
    ensures same_slices { SameSlices session.old session.new }
{
    let scratch = session::entry::scratch_ok(call, vars.len(), stamps.len(), order.len());
    refusal(n, literals, clauses, list, session.view(), scratch)?;
    session.step(n, clauses, list, call, vars)
}

// The same on flat slices.
pub fn enter<'a>(
    n: u32,
    literals: u32,
    clauses: u32,
    lits: &[u32],
    ends: &[u32],
    values: &'a mut [u8],
    levels: &'a mut [u32],
    reasons: &'a mut [u32],
    trail: &'a mut [u32],
    opened: &'a mut [u32],
    activity: &'a mut [f64],
    heap: &'a mut [u32],
    indices: &'a mut [u32],
    decision: &'a mut [u8],
    s: HeapState,
    call: Call,
    vars: &[u32],
    stamps: &[u64],
    order: &[u32],
) -> HeapAnswer
    ensures { let before = session_of n clauses lits.now ends.now
        values.old levels.old reasons.old trail.old opened.old
        activity.old heap.old indices.old decision.old s in
        let after = session_of n clauses lits.now ends.now
        values.new levels.new reasons.new trail.new opened.new
        activity.new heap.new indices.new decision.new result.state in
        let asked = asks call vars.now stamps.now order.now in
        Answered (entered n clauses lits.now literals ends.now asked before) before result.status result.reply after }
{
    let mut session = HeapSession {
        values,
        levels,
        reasons,
        trail,
        opened,
        activity,
        heap,
        indices,
        decision,
        at: s,
    };
    let list = Clauses { lits, ends };
    let given = enter_session(
        n,
        literals,
        clauses,
        list,
        &mut session,
        call,
        vars,
        stamps,
        order,
    );
    HeapAnswer::of(given, session.at)
}
