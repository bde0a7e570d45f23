// Lists of calls in list mode, on flat slices.
#![tactic(auto)]

ghost use Rattle.std.specs.Prelude.{length};
ghost use Rattle.session.specs.Entry.{Answered};
ghost use Rattle.list_session.specs.Memory.{session_of};
ghost use Rattle.list_calls.specs.Lists.{entered_words};

use formula::Clauses;
use list_session::{ListAnswer, ListSession, ListState};

// A list of calls in words on a session that was lent, which is checked once.
pub fn enter<'a>(
    n: u32,
    literals: u32,
    clauses: u32,
    lits: &[u32],
    ends: &[u32],
    values: &'a mut [u8],
    levels: &'a mut [u32],
    reasons: &'a mut [u32],
    trail: &'a mut [u32],
    opened: &'a mut [u32],
    next: &'a mut [u32],
    prev: &'a mut [u32],
    ts: &'a mut [u64],
    s: ListState,
    vars: &[u32],
    calls: &[u32],
    answers: &mut [u32],
) -> ListAnswer
    ensures { let before = session_of n clauses lits.now
        values.old levels.old reasons.old trail.old opened.old
        next.old prev.old ts.old s in
        let after = session_of n clauses lits.now
        values.new levels.new reasons.new trail.new opened.new
        next.new prev.new ts.new result.state in
        let out = answers.old in
        let wanted = entered_words n clauses lits.now literals ends.now vars.now calls.now (length out) before in
        Answered wanted (before, out) result.status result.reply (after, answers.new) }
{
    let mut session = ListSession {
        values,
        levels,
        reasons,
        trail,
        opened,
        next,
        prev,
        ts,
        at: s,
    };
    let list = Clauses { lits, ends };
    let given = calls::enter(
        n,
        literals,
        clauses,
        list,
        &mut session,
        vars,
        calls,
        answers,
    );
    ListAnswer::of(given, session.at)
}
