// The entry that reads a saved session in list mode, for hosts in C and Rust.
ghost use Rattle.lit.specs.Numbers as number;
ghost use Rattle.session.specs.Entry.{Answered};
ghost use Rattle.saved_state.specs.Entry as entry;
ghost use Rattle.list_saved.specs.Reader.{list_reader, memory_of};
ghost use Rattle.native.specs.Small.{list_state};

use native::small::ListNumbers;

// Reads a saved text of list mode into memory that a host lends, with the clause list. Refused, nothing changes.
pub fn sigvort_list_read(
    text: &[u8],
    lits: &mut [u32],
    ends: &mut [u32],
    values: &mut [u8],
    levels: &mut [u32],
    reasons: &mut [u32],
    trail: &mut [u32],
    opened: &mut [u32],
    next: &mut [u32],
    prev: &mut [u32],
    ts: &mut [u64],
    len: &mut u32,
    level: &mut u32,
    curr_i: &mut u32,
    start: &mut u32,
    search: &mut u32,
    timestamp: &mut u64,
) -> u32
    ensures { let before = memory_of lits.old ends.old values.old levels.old reasons.old trail.old opened.old next.old prev.old ts.old (list_state len.old level.old curr_i.old start.old search.old timestamp.old) in
        let after = memory_of lits.new ends.new values.new levels.new reasons.new trail.new opened.new next.new prev.new ts.new (list_state len.new level.new curr_i.new start.new search.new timestamp.new) in
        Answered (entry.read list_reader text.now before) before result number.NONE after }
{
    let mut numbers = ListNumbers {
        len,
        level,
        curr_i,
        start,
        search,
        timestamp,
    };
    let a = list_saved::reading::read(
        text, lits, ends, values, levels, reasons, trail, opened, next, prev, ts,
    );
    if a.status == 0 {
        numbers.set(a.state);
    }
    a.status
}
