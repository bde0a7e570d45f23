// Saved sessions in heap mode: written as text and read.
ghost use Rattle.heap_session.specs.Memory.{session_of};
ghost use Rattle.heap_entry.specs.Entry.{heap_mode};
ghost use Rattle.saved_state.specs.Written.{saved_heap};
ghost use Rattle.saved_state.specs.Entry.{wrote};
ghost use Rattle.native.specs.Small.{heap_state};
ghost use Rattle.saved_native.specs.Told.{Told};
ghost use Rattle.session.specs.Entry.{Answered};
ghost use Rattle.heap_saved.specs.Reader.{heap_reader, memory_of};
ghost use Rattle.lit.specs.Numbers as number;
ghost use Rattle.saved_state.specs.Entry as entry;

// Writes the text of a session in heap mode that a host lends. Refused, neither the text nor its count changes.
#[unsafe(no_mangle)]
pub extern "C" fn sigvort_heap_save(
    n: u32,
    literals: u32,
    clauses: u32,
    lits: &[u32],
    ends: &[u32],
    values: &[u8],
    levels: &[u32],
    reasons: &[u32],
    trail: &[u32],
    opened: &[u32],
    activity: &[f64],
    heap: &[u32],
    indices: &[u32],
    decision: &[u8],
    len: u32,
    level: u32,
    curr_i: u32,
    members: u32,
    inc: f64,
    decay: f64,
    text: &mut [u8],
    written: &mut u32,
) -> u32
    ensures { let before = session_of n clauses lits.now ends.now
        values.now levels.now reasons.now trail.now opened.now
        activity.now heap.now indices.now decision.now (heap_state len level curr_i members inc decay) in
        let mode = heap_mode n clauses lits.now ends.now in
        let x = wrote n clauses mode lits.now literals ends.now (λ u. saved_heap n lits.now ends.now u.trail u.chooser) before text.old in
        Told x text.old written.old result text.new written.new }
{
    saved_native::heap_saving::sigvort_heap_save(
        n, literals, clauses, lits, ends, values, levels, reasons, trail, opened, activity, heap,
        indices, decision, len, level, curr_i, members, inc, decay, text, written,
    )
}

// Reads a saved text of heap mode into memory that a host lends, with the clause list. Refused, nothing changes.
#[unsafe(no_mangle)]
pub extern "C" fn sigvort_heap_read(
    text: &[u8],
    lits: &mut [u32],
    ends: &mut [u32],
    values: &mut [u8],
    levels: &mut [u32],
    reasons: &mut [u32],
    trail: &mut [u32],
    opened: &mut [u32],
    activity: &mut [f64],
    heap: &mut [u32],
    indices: &mut [u32],
    decision: &mut [u8],
    len: &mut u32,
    level: &mut u32,
    curr_i: &mut u32,
    members: &mut u32,
    inc: &mut f64,
    decay: &mut f64,
) -> u32
    ensures { let before = memory_of lits.old ends.old values.old levels.old reasons.old trail.old opened.old activity.old heap.old indices.old decision.old (heap_state len.old level.old curr_i.old members.old inc.old decay.old) in
        let after = memory_of lits.new ends.new values.new levels.new reasons.new trail.new opened.new activity.new heap.new indices.new decision.new (heap_state len.new level.new curr_i.new members.new inc.new decay.new) in
        Answered (entry.read heap_reader text.now before) before result number.NONE after }
{
    saved_native::heap_reading::sigvort_heap_read(
        text, lits, ends, values, levels, reasons, trail, opened, activity, heap, indices,
        decision, len, level, curr_i, members, inc, decay,
    )
}
