// The entry points over nodes: those of list mode with the list as a lent slice of nodes. They check the memory that was lent, and ask nothing of their callers.
#![tactic(auto)]

ghost use Rattle.std.specs.Prelude.{◌≡◌};
ghost use Rattle.node_entry.specs.Nodes.{nexts, prevs, tss};
ghost use Rattle.session.specs.Asked.{asks};
ghost use Rattle.session.specs.Entry.{Answered};
ghost use Rattle.list_session.specs.Memory.{session_of, cleared};
ghost use Rattle.list_session.specs.Scratch.{clears};
ghost use Rattle.list_entry.specs.Entry.{entered};

use crate::nodes::{Node, ROOM, gather, room_for, scatter};
use list_session::{ListAnswer, ListState};
use session::Call;

pub mod creation;
pub mod nodes;

// A call on a session that was lent. The stamps and the order are a group's scratch.
pub fn enter(
    n: u32,
    literals: u32,
    clauses: u32,
    lits: &[u32],
    ends: &[u32],
    values: &mut [u8],
    levels: &mut [u32],
    reasons: &mut [u32],
    trail: &mut [u32],
    opened: &mut [u32],
    nodes: &mut [Node],
    s: ListState,
    call: Call,
    vars: &[u32],
    stamps: &mut [u64],
    order: &mut [u32],
) -> ListAnswer
    ensures fact { let before = session_of n clauses lits.now values.old levels.old reasons.old trail.old opened.old (nexts nodes.old) (prevs nodes.old) (tss nodes.old) s in
        let after = session_of n clauses lits.now values.new levels.new reasons.new trail.new opened.new (nexts nodes.new) (prevs nodes.new) (tss nodes.new) result.state in
        let asked = asks call vars.now stamps.old order.old in
        Answered (entered n clauses lits.now literals ends.now asked before) before result.status result.reply after }
    ensures fact_2 { let used = clears call result.status in
        (stamps.new ≡ cleared used stamps.old) × (order.new ≡ cleared used order.old) }
{
    let k = room_for(nodes.len());
    let mut next = [0u32; ROOM];
    let mut prev = [0u32; ROOM];
    let mut ts = [0u64; ROOM];
    gather(nodes, &mut next[..k], &mut prev[..k], &mut ts[..k]);
    let r = list_entry::enter(
        n,
        literals,
        clauses,
        lits,
        ends,
        values,
        levels,
        reasons,
        trail,
        opened,
        &mut next[..k],
        &mut prev[..k],
        &mut ts[..k],
        s,
        call,
        vars,
        stamps,
        order,
    );
    scatter(nodes, &next[..k], &prev[..k], &ts[..k]);
    r
}
