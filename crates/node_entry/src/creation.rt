// The entry point that makes a session in list mode, with the list as a lent slice of nodes. It checks the memory that was lent, and asks nothing of its callers.
ghost use Rattle.std.specs.Prelude.{◌≡◌, eqb};
ghost use Rattle.node_entry.specs.Nodes.{nexts, prevs, tss};
ghost use Rattle.session.specs.Entry.{Answered};
ghost use Rattle.list_session.specs.Memory.{session_of, cleared};
ghost use Rattle.list_entry.specs.Entry.{made, blank};

use crate::nodes::{Node, ROOM, gather, room_for, scatter};
use list_session::ListAnswer;

// A fresh session in slices that were lent: nothing is assigned, and the list has the variables of the most literals first. The counts
// and the indexes are scratch.
pub fn fresh(
    n: u32,
    literals: u32,
    clauses: u32,
    lits: &[u32],
    ends: &[u32],
    values: &mut [u8],
    levels: &mut [u32],
    reasons: &mut [u32],
    trail: &mut [u32],
    opened: &mut [u32],
    nodes: &mut [Node],
    counts: &mut [u32],
    indexes: &mut [u32],
) -> ListAnswer
    ensures fact { let before = session_of n clauses lits.now values.old levels.old reasons.old trail.old opened.old (nexts nodes.old) (prevs nodes.old) (tss nodes.old) blank in
        let after = session_of n clauses lits.now values.new levels.new reasons.new trail.new opened.new (nexts nodes.new) (prevs nodes.new) (tss nodes.new) result.state in
        Answered (made n clauses lits.now literals ends.now counts.old indexes.old before) before result.status result.reply after }
    ensures fact_2 { let used = eqb result.status 0 in
        (counts.new ≡ cleared used counts.old) × (indexes.new ≡ cleared used indexes.old) }
{
    let k = room_for(nodes.len());
    let mut next = [0u32; ROOM];
    let mut prev = [0u32; ROOM];
    let mut ts = [0u64; ROOM];
    gather(nodes, &mut next[..k], &mut prev[..k], &mut ts[..k]);
    let r = list_entry::creation::fresh(
        n,
        literals,
        clauses,
        lits,
        ends,
        values,
        levels,
        reasons,
        trail,
        opened,
        &mut next[..k],
        &mut prev[..k],
        &mut ts[..k],
        counts,
        indexes,
    );
    scatter(nodes, &next[..k], &prev[..k], &ts[..k]);
    r
}
