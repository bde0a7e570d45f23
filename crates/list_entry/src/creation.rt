// The entry point that makes a session in list mode. It checks the memory that was lent, and asks nothing of its callers.
ghost use Rattle.std.specs.Prelude.{◌≡◌, eqb};
ghost use Rattle.lit.specs.Refusals.{status_of};
ghost use Rattle.session.specs.Entry.{Answered, reply_of};
ghost use Rattle.list_session.specs.Memory.{session_of, session_in, SameSlices, cleared};
ghost use Rattle.list_entry.specs.Entry.{made, made_unaided, blank};

use crate::lengths_ok;
use formula::Clauses;
use list_session::{ListAnswer, ListSession, ListState};
use lit::{NONE, Refusal};
use trail::TrailState;
use vmtf::VmtfState;

// The small states that come back where no session was made.
pub fn blank_state() -> ListState
    ensures { result ≡ blank }
{
    ListState {
        trail: TrailState::default(),
        vmtf: VmtfState {
            start: NONE,
            search: NONE,
            timestamp: 0,
        },
    }
}

// A fresh session in what was lent: nothing is assigned, and the list has the variables of the most literals first. Or the first refusal that
// fits. The counts and the indexes are scratch.
pub fn fresh_session(
    n: u32,
    literals: u32,
    clauses: u32,
    list: Clauses<'_>,
    session: &mut ListSession<'_>,
    counts: &mut [u32],
    indexes: &mut [u32],
) -> Result<Option<u32>, Refusal>
    ensures answered { let lits = list.entry.lits.now in let ends = list.entry.ends.now in
        let held = session_in n clauses lits in
        let before = held session.old in
        let wanted = made n clauses lits literals ends counts.old indexes.old before in
        Answered wanted before (status_of result) (reply_of result) (held session.new) }
    ensures scratch { let used = eqb (status_of result) 0 in
        (counts.new ≡ cleared used counts.old) × (indexes.new ≡ cleared used indexes.old) }
    ensures same_slices { SameSlices session.old session.new }
{
    let scratch = session::entry::scratch_lengths(n as usize, counts.len(), indexes.len());
    let lengths = lengths_ok(n, literals, clauses, list, session.view(), scratch);
    session::entry::size_refusal(n, lengths, list)?;
    session.make_fresh(list.lits, counts, indexes);
    Ok(None)
}

// The same in flat slices.
pub fn fresh<'a>(
    n: u32,
    literals: u32,
    clauses: u32,
    lits: &[u32],
    ends: &[u32],
    values: &'a mut [u8],
    levels: &'a mut [u32],
    reasons: &'a mut [u32],
    trail: &'a mut [u32],
    opened: &'a mut [u32],
    next: &'a mut [u32],
    prev: &'a mut [u32],
    ts: &'a mut [u64],
    counts: &mut [u32],
    indexes: &mut [u32],
) -> ListAnswer
    ensures fact { let before = session_of n clauses lits.now
        values.old levels.old reasons.old trail.old opened.old
        next.old prev.old ts.old blank in
        let after = session_of n clauses lits.now
        values.new levels.new reasons.new trail.new opened.new
        next.new prev.new ts.new result.state in
        let wanted = made n clauses lits.now literals ends.now counts.old indexes.old before in
        Answered wanted before result.status result.reply after }
    ensures fact_2 { let used = eqb result.status 0 in
        (counts.new ≡ cleared used counts.old) × (indexes.new ≡ cleared used indexes.old) }
{
    let mut session = ListSession {
        values,
        levels,
        reasons,
        trail,
        opened,
        next,
        prev,
        ts,
        at: blank_state(),
    };
    let list = Clauses { lits, ends };
    let given = fresh_session(n, literals, clauses, list, &mut session, counts, indexes);
    ListAnswer::of(given, session.at)
}

// A fresh session without scratch beside it.
pub fn fresh_session_unaided(
    n: u32,
    literals: u32,
    clauses: u32,
    list: Clauses<'_>,
    session: &mut ListSession<'_>,
) -> Result<Option<u32>, Refusal>
    ensures answered { let lits = list.entry.lits.now in let ends = list.entry.ends.now in
        let held = session_in n clauses lits in
        let before = held session.old in
        Answered (made_unaided n clauses lits literals ends before) before (status_of result) (reply_of result) (held session.new) }
    ensures same_slices { SameSlices session.old session.new }
{
    let lengths = lengths_ok(n, literals, clauses, list, session.view(), true);
    session::entry::size_refusal(n, lengths, list)?;
    session.make_fresh_unaided(list.lits);
    Ok(None)
}

// The same in flat slices.
pub fn fresh_unaided<'a>(
    n: u32,
    literals: u32,
    clauses: u32,
    lits: &[u32],
    ends: &[u32],
    values: &'a mut [u8],
    levels: &'a mut [u32],
    reasons: &'a mut [u32],
    trail: &'a mut [u32],
    opened: &'a mut [u32],
    next: &'a mut [u32],
    prev: &'a mut [u32],
    ts: &'a mut [u64],
) -> ListAnswer
    ensures { let before = session_of n clauses lits.now
        values.old levels.old reasons.old trail.old opened.old
        next.old prev.old ts.old blank in
        let after = session_of n clauses lits.now
        values.new levels.new reasons.new trail.new opened.new
        next.new prev.new ts.new result.state in
        Answered (made_unaided n clauses lits.now literals ends.now before) before result.status result.reply after }
{
    let mut session = ListSession {
        values,
        levels,
        reasons,
        trail,
        opened,
        next,
        prev,
        ts,
        at: blank_state(),
    };
    let list = Clauses { lits, ends };
    let given = fresh_session_unaided(n, literals, clauses, list, &mut session);
    ListAnswer::of(given, session.at)
}
