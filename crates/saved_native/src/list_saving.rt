// The entry of a saved session in list mode that hosts in C and Rust link.
ghost use Rattle.list_session.specs.Memory.{session_of};
ghost use Rattle.list_entry.specs.Entry.{list_mode};
ghost use Rattle.saved_state.specs.Written.{saved_list};
ghost use Rattle.saved_state.specs.Entry.{wrote};
ghost use Rattle.native.specs.Small.{list_state};
ghost use Rattle.saved_native.specs.Told.{Told};

use list_session::ListState;
use trail::TrailState;
use vmtf::VmtfState;

// Writes the text of a session in list mode that a host lends. Refused, neither the text nor its count changes.
pub fn sigvort_list_save(
    n: u32,
    literals: u32,
    clauses: u32,
    lits: &[u32],
    ends: &[u32],
    values: &[u8],
    levels: &[u32],
    reasons: &[u32],
    trail: &[u32],
    opened: &[u32],
    next: &[u32],
    prev: &[u32],
    ts: &[u64],
    len: u32,
    level: u32,
    curr_i: u32,
    start: u32,
    search: u32,
    timestamp: u64,
    text: &mut [u8],
    written: &mut u32,
) -> u32
    ensures { let before = session_of n clauses lits.now
        values.now levels.now reasons.now trail.now opened.now
        next.now prev.now ts.now (list_state len level curr_i start search timestamp) in
        let mode = list_mode n clauses lits.now in
        let x = wrote n clauses mode lits.now literals ends.now (λ u. saved_list n lits.now ends.now u.trail u.chooser) before text.old in
        Told x text.old written.old result text.new written.new }
{
    let saved = list_saved::save(
        n,
        literals,
        clauses,
        lits,
        ends,
        values,
        levels,
        reasons,
        trail,
        opened,
        next,
        prev,
        ts,
        ListState {
            trail: TrailState { len, level, curr_i },
            vmtf: VmtfState {
                start,
                search,
                timestamp,
            },
        },
        text,
    );
    match saved {
        Ok(length) => {
            *written = length;
            0
        }
        Err(refusal) => refusal.number(),
    }
}
