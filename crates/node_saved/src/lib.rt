// Saved sessions over nodes: those of list mode with the list as a lent slice of nodes. The entry points ask nothing of their callers.
#![tactic(auto)]

ghost use Rattle.lit.specs.Refusals.{status_of};
ghost use Rattle.session.specs.Entry.{Answered};
ghost use Rattle.list_session.specs.Memory.{session_of};
ghost use Rattle.list_entry.specs.Entry.{list_mode, blank};
ghost use Rattle.node_entry.specs.Nodes.{nexts, prevs, tss};
ghost use Rattle.saved_state.specs.Written.{saved_list};
ghost use Rattle.saved_state.specs.Entry as entry;
ghost use Rattle.list_saved.specs.Reader.{list_reader, memory_of};

use list_session::{ListAnswer, ListState};
use lit::Refusal;
use node_entry::nodes::{Node, ROOM, gather, room_for, scatter};

// Writes the text of a session that was lent, from the buffer's front on, and gives its length.
pub fn save(
    n: u32,
    literals: u32,
    clauses: u32,
    lits: &[u32],
    ends: &[u32],
    values: &[u8],
    levels: &[u32],
    reasons: &[u32],
    trail: &[u32],
    opened: &[u32],
    nodes: &[Node],
    s: ListState,
    text: &mut [u8],
) -> Result<u32, Refusal>
    ensures { let before = session_of n clauses lits.now values.now levels.now reasons.now trail.now opened.now (nexts nodes.now) (prevs nodes.now) (tss nodes.now) s in
        let mode = list_mode n clauses lits.now in
        let wanted = entry.wrote n clauses mode lits.now literals ends.now (λ u. saved_list n lits.now ends.now u.trail u.chooser) before text.old in
        Answered wanted text.old (status_of result) (entry.count_of result) text.new }
{
    let k = room_for(nodes.len());
    let mut next = [0u32; ROOM];
    let mut prev = [0u32; ROOM];
    let mut ts = [0u64; ROOM];
    gather(nodes, &mut next[..k], &mut prev[..k], &mut ts[..k]);
    list_saved::save(
        n,
        literals,
        clauses,
        lits,
        ends,
        values,
        levels,
        reasons,
        trail,
        opened,
        &next[..k],
        &prev[..k],
        &ts[..k],
        s,
        text,
    )
}

// Reads a saved text into memory that was lent, and gives the small states. Refused, nothing changes.
pub fn read(
    text: &[u8],
    lits: &mut [u32],
    ends: &mut [u32],
    values: &mut [u8],
    levels: &mut [u32],
    reasons: &mut [u32],
    trail: &mut [u32],
    opened: &mut [u32],
    nodes: &mut [Node],
) -> ListAnswer
    ensures { let before = memory_of lits.old ends.old values.old levels.old reasons.old trail.old opened.old (nexts nodes.old) (prevs nodes.old) (tss nodes.old) blank in
        let after = memory_of lits.new ends.new values.new levels.new reasons.new trail.new opened.new (nexts nodes.new) (prevs nodes.new) (tss nodes.new) result.state in
        Answered (entry.read list_reader text.now before) before result.status result.reply after }
{
    let k = room_for(nodes.len());
    let mut next = [0u32; ROOM];
    let mut prev = [0u32; ROOM];
    let mut ts = [0u64; ROOM];
    gather(nodes, &mut next[..k], &mut prev[..k], &mut ts[..k]);
    let r = list_saved::reading::read(
        text,
        lits,
        ends,
        values,
        levels,
        reasons,
        trail,
        opened,
        &mut next[..k],
        &mut prev[..k],
        &mut ts[..k],
    );
    scatter(nodes, &next[..k], &prev[..k], &ts[..k]);
    r
}
