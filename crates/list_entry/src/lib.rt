// The entry points in list mode: a session's calls, and its creation. They check the memory that was lent, and ask nothing of their callers.
#![tactic(auto)]

ghost use Rattle.std.specs.Prelude.{◌≡◌};
ghost use Rattle.formula.specs.Clauses.{clauses_ok};
ghost use Rattle.lit.specs.Refusals.{status_of};
ghost use Rattle.vmtf.specs.Vmtf.{vmtf_seen};
ghost use Rattle.session.specs.Asked.{asks};
ghost use Rattle.session.specs.Checks.{state_refusal};
ghost use Rattle.session.specs.Entry.{Answered, reply_of};
ghost use Rattle.session.specs.Mode.{lengths_ok};
ghost use Rattle.list_session.specs.Check.{state_ok};
ghost use Rattle.list_session.specs.Memory.{session_of, session_in, session_seen, SameSlices, cleared};
ghost use Rattle.list_session.specs.Scratch.{clears};
ghost use Rattle.list_entry.specs.Entry.{list_lengths, list_mode, entered};

use formula::Clauses;
use list_session::{ListAnswer, ListSession, ListState, ListView};
use lit::Refusal;
use session::Call;
use vmtf::VmtfView;

pub mod creation;

// Whether the list's slices have length n.
pub fn list_lengths(n: usize, l: VmtfView<'_>) -> bool
    ensures { result ≡ list_lengths n (vmtf_seen l.entry) }
{
    l.next.len() == n && (l.prev.len() == n && l.ts.len() == n)
}

// Whether all that was lent has its length; of the scratch it is known.
#[tactic(auto, unfolding(session::specs::Mode::lengths_ok))]
pub fn lengths_ok(
    n: u32,
    literals: u32,
    clauses: u32,
    list: Clauses<'_>,
    lent: ListView<'_>,
    scratch: bool,
) -> bool
    ensures { let lits = list.entry.lits.now in let ends = list.entry.ends.now in
        let mode = list_mode n clauses lits in
        result ≡ lengths_ok n clauses mode lits literals ends (session_seen n clauses lits lent.entry) scratch }
{
    session::entry::trail_lengths(n as usize, lent.trail)
        && (list_lengths(n as usize, lent.vmtf)
            && (session::entry::clause_lengths(literals, clauses, list) && scratch))
}

// The refusal of a session that was lent, if there is one.
pub fn refusal(
    n: u32,
    literals: u32,
    clauses: u32,
    list: Clauses<'_>,
    lent: ListView<'_>,
    scratch: bool,
) -> Result<(), Refusal>
    ensures { let lits = list.entry.lits.now in let ends = list.entry.ends.now in
        let shown = session_seen n clauses lits lent.entry in
        let mode = list_mode n clauses lits in
        let lengths = lengths_ok n clauses mode lits literals ends shown scratch in
        status_of result ≡ state_refusal n lengths (clauses_ok n lits ends) (state_ok clauses shown.trail shown.chooser) }
{
    let lengths = lengths_ok(n, literals, clauses, list, lent, scratch);
    session::entry::size_refusal(n, lengths, list)?;
    if !lent.check(clauses) {
        return Err(Refusal::BadState);
    }
    Ok(())
}

// A call on a session that was lent: the first refusal that fits, or what the call answers. The stamps and the order are a group's scratch.
pub fn enter_session(
    n: u32,
    literals: u32,
    clauses: u32,
    list: Clauses<'_>,
    session: &mut ListSession<'_>,
    call: Call,
    vars: &[u32],
    stamps: &mut [u64],
    order: &mut [u32],
) -> Result<Option<u32>, Refusal>
    ensures answered { let lits = list.entry.lits.now in let ends = list.entry.ends.now in
        let held = session_in n clauses lits in
        let before = held session.old in
        let asked = asks call vars.now stamps.old order.old in
        Answered (entered n clauses lits literals ends asked before) before (status_of result) (reply_of result) (held session.new) }
    ensures scratch { let used = clears call (status_of result) in
        (stamps.new ≡ cleared used stamps.old) × (order.new ≡ cleared used order.old) }
    ensures same_slices { SameSlices session.old session.new }
{
    let scratch = session::entry::scratch_ok(call, vars.len(), stamps.len(), order.len());
    refusal(n, literals, clauses, list, session.view(), scratch)?;
    session.step(n, clauses, call, vars, stamps, order)
}

// The same on flat slices.
pub fn enter<'a>(
    n: u32,
    literals: u32,
    clauses: u32,
    lits: &[u32],
    ends: &[u32],
    values: &'a mut [u8],
    levels: &'a mut [u32],
    reasons: &'a mut [u32],
    trail: &'a mut [u32],
    opened: &'a mut [u32],
    next: &'a mut [u32],
    prev: &'a mut [u32],
    ts: &'a mut [u64],
    s: ListState,
    call: Call,
    vars: &[u32],
    stamps: &mut [u64],
    order: &mut [u32],
) -> ListAnswer
    ensures fact { let before = session_of n clauses lits.now
        values.old levels.old reasons.old trail.old opened.old
        next.old prev.old ts.old s in
        let after = session_of n clauses lits.now
        values.new levels.new reasons.new trail.new opened.new
        next.new prev.new ts.new result.state in
        let asked = asks call vars.now stamps.old order.old in
        Answered (entered n clauses lits.now literals ends.now asked before) before result.status result.reply after }
    ensures fact_2 { let used = clears call result.status in
        (stamps.new ≡ cleared used stamps.old) × (order.new ≡ cleared used order.old) }
{
    let mut session = ListSession {
        values,
        levels,
        reasons,
        trail,
        opened,
        next,
        prev,
        ts,
        at: s,
    };
    let list = Clauses { lits, ends };
    let given = enter_session(
        n,
        literals,
        clauses,
        list,
        &mut session,
        call,
        vars,
        stamps,
        order,
    );
    ListAnswer::of(given, session.at)
}
