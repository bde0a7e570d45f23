// Reading a saved session in heap mode into memory that was lent: the text is loaded into memory of its own, and copied once nothing refuses it.
ghost use Rattle.std.specs.Prelude.{◌≡◌, false, List, ℕ, ◌+◌, ◌≤◌, length, take, Some};
ghost use Rattle.lit.specs.Numbers.{max_vars, max_clauses, max_literals};
ghost use Rattle.trail.specs.Memory.{Lengths};
ghost use Rattle.session.specs.Entry.{Answered};
ghost use Rattle.heap_entry.specs.Entry.{blank};
ghost use Rattle.saved_text.specs.Reading.{read_text};
ghost use Rattle.saved_text.specs.Form.{OpensWith, opened as opening};
ghost use Rattle.saved_state.specs.Entry as entry;
ghost use Rattle.heap_saved.specs.Loading.{Loads};
ghost use Rattle.heap_saved.specs.Reader.{heap_reader, memory_of};

use crate::loading::load_front;
use activity::ZERO_ACTIVITY;
use forms::Mode;
use heap_entry::creation::blank_state;
use heap_entry::heap_lengths;
use heap_session::{HeapAnswer, HeapState, accept, refuse};
use lit::{BAD_SAVED, MAX_VARS, NONE, Refusal};
use saved_state::copying::{copy_clauses, copy_front, copy_trail};
use saved_state::judging::{Loaded, form_or};
use saved_state::saving::{
    ALL, ALL_CLAUSES, ALL_LITERALS, FEW, FEW_CLAUSES, FEW_LITERALS, MORE, MORE_CLAUSES,
    MORE_LITERALS,
};
use saved_text::form::{Opened, opening};
use session::entry::trail_lengths;
use trail::TrailView;
use vsids::heap_check::VsidsView;

// Copies the lists of a heap from the fronts of slices.
fn copy_heap(
    src_activity: &[f64],
    src_heap: &[u32],
    src_indices: &[u32],
    src_decision: &[u8],
    activity: &mut [f64],
    heap: &mut [u32],
    indices: &mut [u32],
    decision: &mut [u8],
)
    requires { (length activity.old ≤ length src_activity.now) × (length heap.old ≤ length src_heap.now) × (length indices.old ≤ length src_indices.now) × (length decision.old ≤ length src_decision.now) }
    ensures { (activity.new ≡ take (length activity.old) src_activity.now) × (heap.new ≡ take (length heap.old) src_heap.now) × (indices.new ≡ take (length indices.old) src_indices.now) × (decision.new ≡ take (length decision.old) src_decision.now) }
{
    copy_front(src_activity, activity);
    copy_front(src_heap, heap);
    copy_front(src_indices, indices);
    copy_front(src_decision, decision);
}

// What was loaded of a text over n variables is refused, or copied into memory that was lent.
fn settle(
    n: u32,
    l: Loaded<HeapState>,
    own_lits: &[u32],
    own_ends: &[u32],
    own_values: &[u8],
    own_levels: &[u32],
    own_reasons: &[u32],
    own_trail: &[u32],
    own_opened: &[u32],
    own_activity: &[f64],
    own_heap: &[u32],
    own_indices: &[u32],
    own_decision: &[u8],
    lits: &mut [u32],
    ends: &mut [u32],
    values: &mut [u8],
    levels: &mut [u32],
    reasons: &mut [u32],
    trail: &mut [u32],
    opened: &mut [u32],
    activity: &mut [f64],
    heap: &mut [u32],
    indices: &mut [u32],
    decision: &mut [u8],
) -> HeapAnswer
    requires n_le_max_vars { (n ≤ max_vars) × (length lits.old ≤ max_literals → length lits.old ≤ length own_lits.now) × (length ends.old ≤ max_clauses → length ends.old ≤ length own_ends.now) }
    requires n_in_bounds { (n ≤ length own_values.now) × (n ≤ length own_levels.now) × (n ≤ length own_reasons.now) × (n ≤ length own_trail.now) × (n ≤ length own_opened.now) }
    requires n_in_bounds_2 { (n ≤ length own_activity.now) × (n ≤ length own_heap.now) × (n ≤ length own_indices.now) × (n ≤ length own_decision.now) }
    requires lengths { Lengths n values.old levels.old reasons.old trail.old opened.old }
    requires activity_len { (length activity.old ≡ n) × (length heap.old ≡ n) × (length indices.old ≡ n) × (length decision.old ≡ n) }
    requires by_index { (text : List ℕ) × (at : ℕ) × OpensWith text at (opening n false) × Loads (read_text text) (Some l) own_lits.now own_ends.now (take n own_values.now) (take n own_levels.now) (take n own_reasons.now) (take n own_trail.now) (take n own_opened.now) (take n own_activity.now) (take n own_heap.now) (take n own_indices.now) (take n own_decision.now) }
    ensures { let before = memory_of lits.old ends.old values.old levels.old reasons.old trail.old opened.old activity.old heap.old indices.old decision.old blank in
        let after = memory_of lits.new ends.new values.new levels.new reasons.new trail.new opened.new activity.new heap.new indices.new decision.new result.state in
        ((text : List ℕ) (at : ℕ) → OpensWith text at (opening n false) → Loads (read_text text) (Some l) own_lits.now own_ends.now (take n own_values.now) (take n own_levels.now) (take n own_reasons.now) (take n own_trail.now) (take n own_opened.now) (take n own_activity.now) (take n own_heap.now) (take n own_indices.now) (take n own_decision.now)
        → Answered (entry.read heap_reader text before) before result.status result.reply after) }
{
    let state = match l.verdict(n, lits, ends) {
        Ok(state) => state,
        Err(e) => return refuse(e.number(), blank_state()),
    };
    copy_clauses(own_lits, own_ends, lits, ends);
    copy_trail(
        own_values,
        own_levels,
        own_reasons,
        own_trail,
        own_opened,
        values,
        levels,
        reasons,
        trail,
        opened,
    );
    copy_heap(
        own_activity,
        own_heap,
        own_indices,
        own_decision,
        activity,
        heap,
        indices,
        decision,
    );
    accept(NONE, state)
}

// Reads a text that opens n variables by way of arrays with room for VARS variables, CLAUSES clauses and LITERALS literals.
fn read_in<const VARS: usize, const CLAUSES: usize, const LITERALS: usize>(
    text: &[u8],
    at: usize,
    n: u32,
    lits: &mut [u32],
    ends: &mut [u32],
    values: &mut [u8],
    levels: &mut [u32],
    reasons: &mut [u32],
    trail: &mut [u32],
    opened: &mut [u32],
    activity: &mut [f64],
    heap: &mut [u32],
    indices: &mut [u32],
    decision: &mut [u8],
) -> HeapAnswer
    requires opens_with { OpensWith text.now at (opening n false) }
    requires sizes { (VARS ≤ max_vars + 16) × (CLAUSES ≤ max_clauses) × (LITERALS ≤ max_literals) }
    requires vars { (n ≤ max_vars) × (n ≤ VARS) }
    requires clauses { length ends.old ≤ max_clauses → length ends.old ≤ CLAUSES }
    requires literals { length lits.old ≤ max_literals → length lits.old ≤ LITERALS }
    requires lengths { Lengths n values.old levels.old reasons.old trail.old opened.old }
    requires activity_len { (length activity.old ≡ n) × (length heap.old ≡ n) × (length indices.old ≡ n) × (length decision.old ≡ n) }
    ensures { let before = memory_of lits.old ends.old values.old levels.old reasons.old trail.old opened.old activity.old heap.old indices.old decision.old blank in
        let after = memory_of lits.new ends.new values.new levels.new reasons.new trail.new opened.new activity.new heap.new indices.new decision.new result.state in
        Answered (entry.read heap_reader text.now before) before result.status result.reply after }
{
    let mut own_lits = [0u32; LITERALS];
    let mut own_ends = [0u32; CLAUSES];
    let mut own_values = [0u8; VARS];
    let mut own_levels = [0u32; VARS];
    let mut own_reasons = [0u32; VARS];
    let mut own_trail = [0u32; VARS];
    let mut own_opened = [0u32; VARS];
    let mut own_activity = [ZERO_ACTIVITY; VARS];
    let mut own_heap = [0u32; VARS];
    let mut own_indices = [0u32; VARS];
    let mut own_decision = [0u8; VARS];
    let mut level_row = [0u32; VARS];
    let mut reason_row = [0u32; VARS];
    let mut switch_row = [0u32; VARS];
    let mut bits = [0u64; VARS];
    let Some(l) = load_front(
        text,
        at,
        n,
        &mut own_lits,
        &mut own_ends,
        &mut own_values,
        &mut own_levels,
        &mut own_reasons,
        &mut own_trail,
        &mut own_opened,
        &mut own_activity,
        &mut own_heap,
        &mut own_indices,
        &mut own_decision,
        &mut level_row,
        &mut reason_row,
        &mut switch_row,
        &mut bits,
    ) else {
        return refuse(BAD_SAVED, blank_state());
    };
    settle(
        n,
        l,
        &own_lits,
        &own_ends,
        &own_values,
        &own_levels,
        &own_reasons,
        &own_trail,
        &own_opened,
        &own_activity,
        &own_heap,
        &own_indices,
        &own_decision,
        lits,
        ends,
        values,
        levels,
        reasons,
        trail,
        opened,
        activity,
        heap,
        indices,
        decision,
    )
}

// Reads a text that opens n variables.
fn read_opened(
    text: &[u8],
    at: usize,
    n: u32,
    lits: &mut [u32],
    ends: &mut [u32],
    values: &mut [u8],
    levels: &mut [u32],
    reasons: &mut [u32],
    trail: &mut [u32],
    opened: &mut [u32],
    activity: &mut [f64],
    heap: &mut [u32],
    indices: &mut [u32],
    decision: &mut [u8],
) -> HeapAnswer
    requires { OpensWith text.now at (opening n false) }
    ensures { let before = memory_of lits.old ends.old values.old levels.old reasons.old trail.old opened.old activity.old heap.old indices.old decision.old blank in
        let after = memory_of lits.new ends.new values.new levels.new reasons.new trail.new opened.new activity.new heap.new indices.new decision.new result.state in
        Answered (entry.read heap_reader text.now before) before result.status result.reply after }
{
    if n > MAX_VARS {
        return refuse(form_or(text, Refusal::ManyVars).number(), blank_state());
    }
    let t = TrailView {
        values,
        levels,
        reasons,
        codes: trail,
        opened,
        at: blank_state().trail,
    };
    if !trail_lengths(n as usize, t) {
        return refuse(form_or(text, Refusal::BadLength).number(), blank_state());
    }
    let h = VsidsView {
        activity,
        heap,
        indices,
        decision,
        at: blank_state().vsids,
    };
    if !heap_lengths(n as usize, h) {
        return refuse(form_or(text, Refusal::BadLength).number(), blank_state());
    }
    if n as usize <= FEW && lits.len() <= FEW_LITERALS && ends.len() <= FEW_CLAUSES {
        return read_in::<FEW, FEW_CLAUSES, FEW_LITERALS>(
            text, at, n, lits, ends, values, levels, reasons, trail, opened, activity, heap,
            indices, decision,
        );
    }
    if n as usize <= MORE && lits.len() <= MORE_LITERALS && ends.len() <= MORE_CLAUSES {
        return read_in::<MORE, MORE_CLAUSES, MORE_LITERALS>(
            text, at, n, lits, ends, values, levels, reasons, trail, opened, activity, heap,
            indices, decision,
        );
    }
    read_in::<ALL, ALL_CLAUSES, ALL_LITERALS>(
        text, at, n, lits, ends, values, levels, reasons, trail, opened, activity, heap, indices,
        decision,
    )
}

// Reads a saved text into memory that was lent, and gives the small states. Refused, nothing changes.
pub fn read(
    text: &[u8],
    lits: &mut [u32],
    ends: &mut [u32],
    values: &mut [u8],
    levels: &mut [u32],
    reasons: &mut [u32],
    trail: &mut [u32],
    opened: &mut [u32],
    activity: &mut [f64],
    heap: &mut [u32],
    indices: &mut [u32],
    decision: &mut [u8],
) -> HeapAnswer
    ensures { let before = memory_of lits.old ends.old values.old levels.old reasons.old trail.old opened.old activity.old heap.old indices.old decision.old blank in
        let after = memory_of lits.new ends.new values.new levels.new reasons.new trail.new opened.new activity.new heap.new indices.new decision.new result.state in
        Answered (entry.read heap_reader text.now before) before result.status result.reply after }
{
    let Some(Opened { mode, n, at }) = opening(text) else {
        return refuse(BAD_SAVED, blank_state());
    };
    match mode {
        Mode::Heap => read_opened(
            text, at, n, lits, ends, values, levels, reasons, trail, opened, activity, heap,
            indices, decision,
        ),
        Mode::List => refuse(BAD_SAVED, blank_state()),
    }
}
