// The entry of a saved session in heap mode that hosts in C and Rust link.
ghost use Rattle.heap_session.specs.Memory.{session_of};
ghost use Rattle.heap_entry.specs.Entry.{heap_mode};
ghost use Rattle.saved_state.specs.Written.{saved_heap};
ghost use Rattle.saved_state.specs.Entry.{wrote};
ghost use Rattle.native.specs.Small.{heap_state};
ghost use Rattle.saved_native.specs.Told.{Told};

use activity::Step;
use heap_session::HeapState;
use trail::TrailState;
use vsids::VsidsState;

// Writes the text of a session in heap mode that a host lends. Refused, neither the text nor its count changes.
pub fn sigvort_heap_save(
    n: u32,
    literals: u32,
    clauses: u32,
    lits: &[u32],
    ends: &[u32],
    values: &[u8],
    levels: &[u32],
    reasons: &[u32],
    trail: &[u32],
    opened: &[u32],
    activity: &[f64],
    heap: &[u32],
    indices: &[u32],
    decision: &[u8],
    len: u32,
    level: u32,
    curr_i: u32,
    members: u32,
    inc: f64,
    decay: f64,
    text: &mut [u8],
    written: &mut u32,
) -> u32
    ensures { let before = session_of n clauses lits.now ends.now
        values.now levels.now reasons.now trail.now opened.now
        activity.now heap.now indices.now decision.now (heap_state len level curr_i members inc decay) in
        let mode = heap_mode n clauses lits.now ends.now in
        let x = wrote n clauses mode lits.now literals ends.now (λ u. saved_heap n lits.now ends.now u.trail u.chooser) before text.old in
        Told x text.old written.old result text.new written.new }
{
    let saved = heap_saved::save(
        n,
        literals,
        clauses,
        lits,
        ends,
        values,
        levels,
        reasons,
        trail,
        opened,
        activity,
        heap,
        indices,
        decision,
        HeapState {
            trail: TrailState { len, level, curr_i },
            vsids: VsidsState {
                len: members,
                step: Step { inc, decay },
            },
        },
        text,
    );
    match saved {
        Ok(length) => {
            *written = length;
            0
        }
        Err(refusal) => refusal.number(),
    }
}
