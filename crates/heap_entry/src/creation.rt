// The entry point that makes a session in heap mode. It checks the memory that was lent, and asks nothing of its callers.
ghost use Rattle.std.specs.Prelude.{◌≡◌};
ghost use Rattle.lit.specs.Refusals.{status_of};
ghost use Rattle.session.specs.Entry.{Answered, reply_of};
ghost use Rattle.heap_session.specs.Held.{session_in, SameSlices};
ghost use Rattle.heap_session.specs.Memory.{session_of};
ghost use Rattle.heap_entry.specs.Entry.{made, blank};

use crate::lengths_ok;
use activity::Step;
use formula::Clauses;
use heap_session::{HeapAnswer, HeapSession, HeapState};
use lit::Refusal;
use trail::TrailState;
use vsids::VsidsState;

// The small states that come back where no session was made.
pub fn blank_state() -> HeapState
    ensures { result ≡ blank }
{
    HeapState {
        trail: TrailState::default(),
        vsids: VsidsState {
            len: 0,
            step: Step::fresh(),
        },
    }
}

// A fresh session in what was lent: nothing is assigned, and every variable is a member with activity 0. Or the first refusal that fits.
pub fn fresh_session(
    n: u32,
    literals: u32,
    clauses: u32,
    list: Clauses<'_>,
    session: &mut HeapSession<'_>,
) -> Result<Option<u32>, Refusal>
    ensures answered { let lits = list.entry.lits.now in let ends = list.entry.ends.now in
        let held = session_in n clauses lits ends in
        let before = held session.old in
        Answered (made n clauses lits literals ends before) before (status_of result) (reply_of result) (held session.new) }
    ensures same_slices { SameSlices session.old session.new }
{
    let lengths = lengths_ok(n, literals, clauses, list, session.view(), true);
    session::entry::size_refusal(n, lengths, list)?;
    session.make_fresh();
    Ok(None)
}

// The same in flat slices.
pub fn fresh<'a>(
    n: u32,
    literals: u32,
    clauses: u32,
    lits: &[u32],
    ends: &[u32],
    values: &'a mut [u8],
    levels: &'a mut [u32],
    reasons: &'a mut [u32],
    trail: &'a mut [u32],
    opened: &'a mut [u32],
    activity: &'a mut [f64],
    heap: &'a mut [u32],
    indices: &'a mut [u32],
    decision: &'a mut [u8],
) -> HeapAnswer
    ensures { let before = session_of n clauses lits.now ends.now
        values.old levels.old reasons.old trail.old opened.old
        activity.old heap.old indices.old decision.old blank in
        let after = session_of n clauses lits.now ends.now
        values.new levels.new reasons.new trail.new opened.new
        activity.new heap.new indices.new decision.new result.state in
        Answered (made n clauses lits.now literals ends.now before) before result.status result.reply after }
{
    let mut session = HeapSession {
        values,
        levels,
        reasons,
        trail,
        opened,
        activity,
        heap,
        indices,
        decision,
        at: blank_state(),
    };
    let list = Clauses { lits, ends };
    let given = fresh_session(n, literals, clauses, list, &mut session);
    HeapAnswer::of(given, session.at)
}
