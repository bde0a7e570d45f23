// The entry that reads a saved session in heap mode, for hosts in C and Rust.
ghost use Rattle.lit.specs.Numbers as number;
ghost use Rattle.session.specs.Entry.{Answered};
ghost use Rattle.saved_state.specs.Entry as entry;
ghost use Rattle.heap_saved.specs.Reader.{heap_reader, memory_of};
ghost use Rattle.native.specs.Small.{heap_state};

use native::small::HeapNumbers;

// Reads a saved text of heap mode into memory that a host lends, with the clause list. Refused, nothing changes.
pub fn sigvort_heap_read(
    text: &[u8],
    lits: &mut [u32],
    ends: &mut [u32],
    values: &mut [u8],
    levels: &mut [u32],
    reasons: &mut [u32],
    trail: &mut [u32],
    opened: &mut [u32],
    activity: &mut [f64],
    heap: &mut [u32],
    indices: &mut [u32],
    decision: &mut [u8],
    len: &mut u32,
    level: &mut u32,
    curr_i: &mut u32,
    members: &mut u32,
    inc: &mut f64,
    decay: &mut f64,
) -> u32
    ensures { let before = memory_of lits.old ends.old values.old levels.old reasons.old trail.old opened.old activity.old heap.old indices.old decision.old (heap_state len.old level.old curr_i.old members.old inc.old decay.old) in
        let after = memory_of lits.new ends.new values.new levels.new reasons.new trail.new opened.new activity.new heap.new indices.new decision.new (heap_state len.new level.new curr_i.new members.new inc.new decay.new) in
        Answered (entry.read heap_reader text.now before) before result number.NONE after }
{
    let mut numbers = HeapNumbers {
        len,
        level,
        curr_i,
        members,
        inc,
        decay,
    };
    let a = heap_saved::reading::read(
        text, lits, ends, values, levels, reasons, trail, opened, activity, heap, indices, decision,
    );
    if a.status == 0 {
        numbers.set(a.state);
    }
    a.status
}
