// Saved sessions in heap mode: a session that was lent is written as text. The entry points ask nothing of their callers.
#![tactic(auto)]

ghost use Rattle.lit.specs.Refusals.{status_of};
ghost use Rattle.session.specs.Entry.{Answered};
ghost use Rattle.heap_session.specs.Memory.{session_of};
ghost use Rattle.heap_entry.specs.Entry.{heap_mode};
ghost use Rattle.saved_state.specs.Written.{saved_heap};
ghost use Rattle.saved_state.specs.Entry.{wrote, count_of};

use crate::saving::{put_text, text_fits};
use formula::Clauses;
use heap_entry::refusal;
use heap_session::{HeapState, HeapView};
use lit::Refusal;
use trail::TrailView;
use vsids::heap_check::VsidsView;

pub mod loading;
pub mod reading;
pub mod saving;

// Writes the text of a session that was lent, from the buffer's front on, and gives its length.
pub fn save<'a>(
    n: u32,
    literals: u32,
    clauses: u32,
    lits: &[u32],
    ends: &[u32],
    values: &'a [u8],
    levels: &'a [u32],
    reasons: &'a [u32],
    trail: &'a [u32],
    opened: &'a [u32],
    activity: &'a [f64],
    heap: &'a [u32],
    indices: &'a [u32],
    decision: &'a [u8],
    s: HeapState,
    text: &mut [u8],
) -> Result<u32, Refusal>
    ensures { let before = session_of n clauses lits.now ends.now
        values.now levels.now reasons.now trail.now opened.now
        activity.now heap.now indices.now decision.now s in
        let mode = heap_mode n clauses lits.now ends.now in
        let wanted = wrote n clauses mode lits.now literals ends.now
        (λ u. saved_heap n lits.now ends.now u.trail u.chooser) before text.old in
        Answered wanted text.old (status_of result) (count_of result) text.new }
{
    let list = Clauses { lits, ends };
    let lent = HeapView {
        trail: TrailView {
            values,
            levels,
            reasons,
            codes: trail,
            opened,
            at: s.trail,
        },
        vsids: VsidsView {
            activity,
            heap,
            indices,
            decision,
            at: s.vsids,
        },
    };
    refusal(n, literals, clauses, list, lent, true)?;
    if !text_fits(text.len(), n, list, lent) {
        return Err(Refusal::ShortBuffer);
    }
    Ok(put_text(text, n, list, lent) as u32)
}
