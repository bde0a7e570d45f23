// The entries of a session in heap mode that hosts in C and Rust link: slices go as pointer and length, the small states as numbers that are written back.
ghost use Rattle.std.specs.Prelude.{length};
ghost use Rattle.lit.specs.Numbers as number;
ghost use Rattle.session.specs.Entry.{Answered};
ghost use Rattle.heap_session.specs.Memory.{session_of};
ghost use Rattle.heap_entry.specs.Entry.{made};
ghost use Rattle.heap_calls.specs.Lists.{entered_words};
ghost use Rattle.native.specs.Small.{heap_state};

use crate::small::HeapNumbers;

// A fresh session in heap mode in memory that a host lends. Refused, nothing changes.
pub fn sigvort_heap_fresh(
    n: u32,
    literals: u32,
    clauses: u32,
    lits: &[u32],
    ends: &[u32],
    values: &mut [u8],
    levels: &mut [u32],
    reasons: &mut [u32],
    trail: &mut [u32],
    opened: &mut [u32],
    activity: &mut [f64],
    heap: &mut [u32],
    indices: &mut [u32],
    decision: &mut [u8],
    len: &mut u32,
    level: &mut u32,
    curr_i: &mut u32,
    members: &mut u32,
    inc: &mut f64,
    decay: &mut f64,
) -> u32
    ensures { let before = session_of n clauses lits.now ends.now
        values.old levels.old reasons.old trail.old opened.old
        activity.old heap.old indices.old decision.old (heap_state len.old level.old curr_i.old members.old inc.old decay.old) in
        let after = session_of n clauses lits.now ends.now
        values.new levels.new reasons.new trail.new opened.new
        activity.new heap.new indices.new decision.new (heap_state len.new level.new curr_i.new members.new inc.new decay.new) in
        Answered (made n clauses lits.now literals ends.now before) before result number.NONE after }
{
    let mut numbers = HeapNumbers {
        len,
        level,
        curr_i,
        members,
        inc,
        decay,
    };
    let a = heap_entry::creation::fresh(
        n, literals, clauses, lits, ends, values, levels, reasons, trail, opened, activity, heap,
        indices, decision,
    );
    if a.status == 0 {
        numbers.set(a.state);
    }
    a.status
}

// A list of calls in heap mode on memory that a host lends. Refused, nothing changes.
pub fn sigvort_heap_calls(
    n: u32,
    literals: u32,
    clauses: u32,
    lits: &[u32],
    ends: &[u32],
    values: &mut [u8],
    levels: &mut [u32],
    reasons: &mut [u32],
    trail: &mut [u32],
    opened: &mut [u32],
    activity: &mut [f64],
    heap: &mut [u32],
    indices: &mut [u32],
    decision: &mut [u8],
    len: &mut u32,
    level: &mut u32,
    curr_i: &mut u32,
    members: &mut u32,
    inc: &mut f64,
    decay: &mut f64,
    vars: &[u32],
    calls: &[u32],
    answers: &mut [u32],
) -> u32
    ensures { let before = session_of n clauses lits.now ends.now
        values.old levels.old reasons.old trail.old opened.old
        activity.old heap.old indices.old decision.old (heap_state len.old level.old curr_i.old members.old inc.old decay.old) in
        let after = session_of n clauses lits.now ends.now
        values.new levels.new reasons.new trail.new opened.new
        activity.new heap.new indices.new decision.new (heap_state len.new level.new curr_i.new members.new inc.new decay.new) in
        let out = answers.old in
        let wanted = entered_words n clauses lits.now literals ends.now vars.now calls.now (length out) before in
        Answered wanted (before, out) result number.NONE (after, answers.new) }
{
    let mut numbers = HeapNumbers {
        len,
        level,
        curr_i,
        members,
        inc,
        decay,
    };
    let a = heap_calls::enter(
        n,
        literals,
        clauses,
        lits,
        ends,
        values,
        levels,
        reasons,
        trail,
        opened,
        activity,
        heap,
        indices,
        decision,
        numbers.state(),
        vars,
        calls,
        answers,
    );
    if a.status == 0 {
        numbers.set(a.state);
    }
    a.status
}
