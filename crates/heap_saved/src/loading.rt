// Loading a saved session in heap mode: its text is read in one pass into memory of the caller's own, whose contents do not matter before, nor where the text is refused.
ghost use Rattle.std.specs.Prelude.{◌≡◌, false, ◌≤◌, length, take, Some};
ghost use Rattle.lit.specs.Numbers.{NONE as none, max_vars};
ghost use Rattle.trail.specs.Memory.{Lengths, Sized};
ghost use Rattle.heap_session.specs.Held.{trail_held, vsids_held, SameSlices};
ghost use Rattle.saved_text.specs.Saved.{Saved};
ghost use Rattle.saved_text.specs.Reading.{read_text};
ghost use Rattle.saved_text.specs.Form.{OpensWith, opened as opening};
ghost use Rattle.saved_state.specs.Said.{trail_said, heap_said};
ghost use Rattle.heap_saved.specs.Loading.{Ready, Loads, loaded_with};

use heap_entry::creation::blank_state;
use heap_session::{HeapSession, HeapState};
use saved_state::judging::{Loaded, Unfit, clauses_good, fitting};
use saved_state::memory::{set_heap, set_trail};
use saved_text::form::{Clauses, HeapRows, HeapText, TrailRows, heap_text};
use trail::Trail;
use vsids::Vsids;

// The trail and the heap of rows that were read; the codes and the members stand in front in their slices.
fn restore(
    t: TrailRows,
    h: HeapRows,
    level_row: &[u32],
    reason_row: &[u32],
    switch_row: &[u32],
    bits: &[u64],
    session: &mut HeapSession<'_>,
)
    requires lengths { Sized (length session.old.values.now) (trail_held session.old) }
    requires heap_len { (length session.old.heap.now ≡ length session.old.values.now) × (length session.old.activity.now ≡ length session.old.values.now) × (length session.old.indices.now ≡ length session.old.values.now) × (length session.old.decision.now ≡ length session.old.values.now) }
    requires level_row_len { (length level_row.now ≡ length session.old.values.now) × (length reason_row.now ≡ length session.old.values.now) × (length switch_row.now ≡ length session.old.values.now) × (length bits.now ≡ length session.old.values.now) }
    requires ready { (s : Saved) × Ready s (length session.old.values.now) t h session.old.trail.now level_row.now reason_row.now session.old.heap.now bits.now switch_row.now }
    ensures restored { (s : Saved) → Ready s (length session.old.values.now) t h session.old.trail.now level_row.now reason_row.now session.old.heap.now bits.now switch_row.now →
        (trail_held session.new ≡ trail_said s) × (vsids_held session.new ≡ heap_said s) }
    ensures same_slices { SameSlices session.old session.new }
    ensures same_lengths { (length session.new.values.now ≡ length session.old.values.now) × Sized (length session.old.values.now) (trail_held session.new) × (length session.new.heap.now ≡ length session.old.heap.now) × (length session.new.activity.now ≡ length session.old.activity.now) × (length session.new.indices.now ≡ length session.old.indices.now) × (length session.new.decision.now ≡ length session.old.decision.now) }
{
    let mut trail = Trail {
        values: session.values,
        levels: session.levels,
        reasons: session.reasons,
        codes: session.trail,
        opened: session.opened,
        at: session.at.trail,
    };
    let mut vsids = Vsids {
        activity: session.activity,
        heap: session.heap,
        indices: session.indices,
        decision: session.decision,
        at: session.at.vsids,
    };
    let k = t.count;
    set_trail(&mut trail, k, t.curr, &level_row[..k], &reason_row[..k]);
    set_heap(&mut vsids, h.count, bits, switch_row, h.inc, h.decay);
    session.at = HeapState {
        trail: trail.at,
        vsids: vsids.at,
    };
}

// What a text with these clauses says: their counts, and the small states or why there are none.
fn loaded_with(c: Clauses, state: Result<HeapState, Unfit>) -> Option<Loaded<HeapState>>
    ensures { result ≡ Some (loaded_with c state) }
{
    Some(Loaded {
        clauses: c.count,
        literals: c.literals,
        state,
    })
}

// Loads what stands behind the first line of a text that opens n variables.
pub fn load_session(
    text: &[u8],
    at: usize,
    n: u32,
    lits: &mut [u32],
    ends: &mut [u32],
    session: &mut HeapSession<'_>,
    level_row: &mut [u32],
    reason_row: &mut [u32],
    switch_row: &mut [u32],
    bits: &mut [u64],
) -> Option<Loaded<HeapState>>
    requires opens_with { OpensWith text.now at (opening n false) × (n ≤ max_vars) × (length lits.old ≤ none) }
    requires lengths { Sized n (trail_held session.old) }
    requires heap_len { (length session.old.heap.now ≡ n) × (length session.old.activity.now ≡ n) × (length session.old.indices.now ≡ n) × (length session.old.decision.now ≡ n) }
    requires level_row_len { (length level_row.old ≡ n) × (length reason_row.old ≡ n) × (length switch_row.old ≡ n) × (length bits.old ≡ n) }
    ensures loads { Loads (read_text text.now) result lits.new ends.new
        session.new.values.now session.new.levels.now session.new.reasons.now session.new.trail.now session.new.opened.now
        session.new.activity.now session.new.heap.now session.new.indices.now session.new.decision.now }
    ensures same_slices { SameSlices session.old session.new }
    ensures same_lengths { Sized n (trail_held session.new) × (length session.new.heap.now ≡ n) × (length session.new.activity.now ≡ n) × (length session.new.indices.now ≡ n) × (length session.new.decision.now ≡ n) }
{
    let HeapText {
        clauses: c,
        trail: t,
        heap: h,
    } = heap_text(
        text,
        at,
        n,
        lits,
        ends,
        session.trail,
        level_row,
        reason_row,
        session.heap,
        bits,
        switch_row,
    )?;
    if !clauses_good(n, c) {
        return loaded_with(c, Err(Unfit::Clauses));
    }
    if !fitting(n, t.count, t.greatest, h.count, h.greatest) {
        return loaded_with(c, Err(Unfit::State));
    }
    restore(t, h, level_row, reason_row, switch_row, bits, session);
    if !session.view().check(c.count as u32) {
        return loaded_with(c, Err(Unfit::State));
    }
    loaded_with(c, Ok(session.at))
}

// The same in flat slices.
pub fn load<'a>(
    text: &[u8],
    at: usize,
    n: u32,
    lits: &mut [u32],
    ends: &mut [u32],
    values: &'a mut [u8],
    levels: &'a mut [u32],
    reasons: &'a mut [u32],
    trail: &'a mut [u32],
    opened: &'a mut [u32],
    activity: &'a mut [f64],
    heap: &'a mut [u32],
    indices: &'a mut [u32],
    decision: &'a mut [u8],
    level_row: &mut [u32],
    reason_row: &mut [u32],
    switch_row: &mut [u32],
    bits: &mut [u64],
) -> Option<Loaded<HeapState>>
    requires opens_with { OpensWith text.now at (opening n false) × (n ≤ max_vars) × (length lits.old ≤ none) }
    requires lengths { Lengths n values.old levels.old reasons.old trail.old opened.old }
    requires heap_len { (length heap.old ≡ n) × (length activity.old ≡ n) × (length indices.old ≡ n) × (length decision.old ≡ n) }
    requires level_row_len { (length level_row.old ≡ n) × (length reason_row.old ≡ n) × (length switch_row.old ≡ n) × (length bits.old ≡ n) }
    ensures { Loads (read_text text.now) result lits.new ends.new
        values.new levels.new reasons.new trail.new opened.new
        activity.new heap.new indices.new decision.new }
{
    let mut session = HeapSession {
        values,
        levels,
        reasons,
        trail,
        opened,
        activity,
        heap,
        indices,
        decision,
        at: blank_state(),
    };
    load_session(
        text,
        at,
        n,
        lits,
        ends,
        &mut session,
        level_row,
        reason_row,
        switch_row,
        bits,
    )
}

// The same in the fronts of slices that have room for n variables.
pub fn load_front(
    text: &[u8],
    at: usize,
    n: u32,
    lits: &mut [u32],
    ends: &mut [u32],
    values: &mut [u8],
    levels: &mut [u32],
    reasons: &mut [u32],
    trail: &mut [u32],
    opened: &mut [u32],
    activity: &mut [f64],
    heap: &mut [u32],
    indices: &mut [u32],
    decision: &mut [u8],
    level_row: &mut [u32],
    reason_row: &mut [u32],
    switch_row: &mut [u32],
    bits: &mut [u64],
) -> Option<Loaded<HeapState>>
    requires opens_with { OpensWith text.now at (opening n false) × (n ≤ max_vars) × (length lits.old ≤ none) }
    requires n_in_bounds { (n ≤ length values.old) × (n ≤ length levels.old) × (n ≤ length reasons.old) × (n ≤ length trail.old) × (n ≤ length opened.old) }
    requires n_in_bounds_2 { (n ≤ length activity.old) × (n ≤ length heap.old) × (n ≤ length indices.old) × (n ≤ length decision.old) }
    requires n_in_bounds_3 { (n ≤ length level_row.old) × (n ≤ length reason_row.old) × (n ≤ length switch_row.old) × (n ≤ length bits.old) }
    ensures { Loads (read_text text.now) result lits.new ends.new
        (take n values.new) (take n levels.new) (take n reasons.new) (take n trail.new) (take n opened.new)
        (take n activity.new) (take n heap.new) (take n indices.new) (take n decision.new) }
{
    let k = n as usize;
    load(
        text,
        at,
        n,
        lits,
        ends,
        &mut values[..k],
        &mut levels[..k],
        &mut reasons[..k],
        &mut trail[..k],
        &mut opened[..k],
        &mut activity[..k],
        &mut heap[..k],
        &mut indices[..k],
        &mut decision[..k],
        &mut level_row[..k],
        &mut reason_row[..k],
        &mut switch_row[..k],
        &mut bits[..k],
    )
}
