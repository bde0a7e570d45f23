// Lists of calls in heap mode, on flat slices.
#![tactic(auto)]

ghost use Rattle.std.specs.Prelude.{length};
ghost use Rattle.session.specs.Entry.{Answered};
ghost use Rattle.heap_session.specs.Memory.{session_of};
ghost use Rattle.heap_calls.specs.Lists.{entered_words};

use formula::Clauses;
use heap_session::{HeapAnswer, HeapSession, HeapState};

// A list of calls in words on a session that was lent, which is checked once.
pub fn enter<'a>(
    n: u32,
    literals: u32,
    clauses: u32,
    lits: &[u32],
    ends: &[u32],
    values: &'a mut [u8],
    levels: &'a mut [u32],
    reasons: &'a mut [u32],
    trail: &'a mut [u32],
    opened: &'a mut [u32],
    activity: &'a mut [f64],
    heap: &'a mut [u32],
    indices: &'a mut [u32],
    decision: &'a mut [u8],
    s: HeapState,
    vars: &[u32],
    calls: &[u32],
    answers: &mut [u32],
) -> HeapAnswer
    ensures { let before = session_of n clauses lits.now ends.now
        values.old levels.old reasons.old trail.old opened.old
        activity.old heap.old indices.old decision.old s in
        let after = session_of n clauses lits.now ends.now
        values.new levels.new reasons.new trail.new opened.new
        activity.new heap.new indices.new decision.new result.state in
        let out = answers.old in
        let wanted = entered_words n clauses lits.now literals ends.now vars.now calls.now (length out) before in
        Answered wanted (before, out) result.status result.reply (after, answers.new) }
{
    let mut session = HeapSession {
        values,
        levels,
        reasons,
        trail,
        opened,
        activity,
        heap,
        indices,
        decision,
        at: s,
    };
    let list = Clauses { lits, ends };
    let given = calls::enter(
        n,
        literals,
        clauses,
        list,
        &mut session,
        vars,
        calls,
        answers,
    );
    HeapAnswer::of(given, session.at)
}
