// The entries of a session in list mode that hosts in C and Rust link: slices go as pointer and length, the small states as numbers that are written back.
ghost use Rattle.std.specs.Prelude.{length};
ghost use Rattle.lit.specs.Numbers as number;
ghost use Rattle.session.specs.Entry.{Answered};
ghost use Rattle.list_session.specs.Memory.{session_of};
ghost use Rattle.list_entry.specs.Entry.{made_unaided};
ghost use Rattle.list_calls.specs.Lists.{entered_words};
ghost use Rattle.native.specs.Small.{list_state};

use crate::small::ListNumbers;

// A fresh session in list mode in memory that a host lends. Refused, nothing changes.
pub fn sigvort_list_fresh(
    n: u32,
    literals: u32,
    clauses: u32,
    lits: &[u32],
    ends: &[u32],
    values: &mut [u8],
    levels: &mut [u32],
    reasons: &mut [u32],
    trail: &mut [u32],
    opened: &mut [u32],
    next: &mut [u32],
    prev: &mut [u32],
    ts: &mut [u64],
    len: &mut u32,
    level: &mut u32,
    curr_i: &mut u32,
    start: &mut u32,
    search: &mut u32,
    timestamp: &mut u64,
) -> u32
    ensures { let before = session_of n clauses lits.now
        values.old levels.old reasons.old trail.old opened.old
        next.old prev.old ts.old (list_state len.old level.old curr_i.old start.old search.old timestamp.old) in
        let after = session_of n clauses lits.now
        values.new levels.new reasons.new trail.new opened.new
        next.new prev.new ts.new (list_state len.new level.new curr_i.new start.new search.new timestamp.new) in
        Answered (made_unaided n clauses lits.now literals ends.now before) before result number.NONE after }
{
    let mut numbers = ListNumbers {
        len,
        level,
        curr_i,
        start,
        search,
        timestamp,
    };
    let a = list_entry::creation::fresh_unaided(
        n, literals, clauses, lits, ends, values, levels, reasons, trail, opened, next, prev, ts,
    );
    if a.status == 0 {
        numbers.set(a.state);
    }
    a.status
}

// A list of calls in list mode on memory that a host lends. Refused, nothing changes.
pub fn sigvort_list_calls(
    n: u32,
    literals: u32,
    clauses: u32,
    lits: &[u32],
    ends: &[u32],
    values: &mut [u8],
    levels: &mut [u32],
    reasons: &mut [u32],
    trail: &mut [u32],
    opened: &mut [u32],
    next: &mut [u32],
    prev: &mut [u32],
    ts: &mut [u64],
    len: &mut u32,
    level: &mut u32,
    curr_i: &mut u32,
    start: &mut u32,
    search: &mut u32,
    timestamp: &mut u64,
    vars: &[u32],
    calls: &[u32],
    answers: &mut [u32],
) -> u32
    ensures { let before = session_of n clauses lits.now
        values.old levels.old reasons.old trail.old opened.old
        next.old prev.old ts.old (list_state len.old level.old curr_i.old start.old search.old timestamp.old) in
        let after = session_of n clauses lits.now
        values.new levels.new reasons.new trail.new opened.new
        next.new prev.new ts.new (list_state len.new level.new curr_i.new start.new search.new timestamp.new) in
        let out = answers.old in
        let wanted = entered_words n clauses lits.now literals ends.now vars.now calls.now (length out) before in
        Answered wanted (before, out) result number.NONE (after, answers.new) }
{
    let mut numbers = ListNumbers {
        len,
        level,
        curr_i,
        start,
        search,
        timestamp,
    };
    let a = list_calls::enter(
        n,
        literals,
        clauses,
        lits,
        ends,
        values,
        levels,
        reasons,
        trail,
        opened,
        next,
        prev,
        ts,
        numbers.state(),
        vars,
        calls,
        answers,
    );
    if a.status == 0 {
        numbers.set(a.state);
    }
    a.status
}
