// Saved sessions in list mode: written as text and read.
ghost use Rattle.list_session.specs.Memory.{session_of};
ghost use Rattle.list_entry.specs.Entry.{list_mode};
ghost use Rattle.saved_state.specs.Written.{saved_list};
ghost use Rattle.saved_state.specs.Entry.{wrote};
ghost use Rattle.native.specs.Small.{list_state};
ghost use Rattle.saved_native.specs.Told.{Told};
ghost use Rattle.session.specs.Entry.{Answered};
ghost use Rattle.list_saved.specs.Reader.{list_reader, memory_of};
ghost use Rattle.lit.specs.Numbers as number;
ghost use Rattle.saved_state.specs.Entry as entry;

// Writes the text of a session in list mode that a host lends. Refused, neither the text nor its count changes.
#[unsafe(no_mangle)]
pub extern "C" fn sigvort_list_save(
    n: u32,
    literals: u32,
    clauses: u32,
    lits: &[u32],
    ends: &[u32],
    values: &[u8],
    levels: &[u32],
    reasons: &[u32],
    trail: &[u32],
    opened: &[u32],
    next: &[u32],
    prev: &[u32],
    ts: &[u64],
    len: u32,
    level: u32,
    curr_i: u32,
    start: u32,
    search: u32,
    timestamp: u64,
    text: &mut [u8],
    written: &mut u32,
) -> u32
    ensures { let before = session_of n clauses lits.now
        values.now levels.now reasons.now trail.now opened.now
        next.now prev.now ts.now (list_state len level curr_i start search timestamp) in
        let mode = list_mode n clauses lits.now in
        let x = wrote n clauses mode lits.now literals ends.now (λ u. saved_list n lits.now ends.now u.trail u.chooser) before text.old in
        Told x text.old written.old result text.new written.new }
{
    saved_native::list_saving::sigvort_list_save(
        n, literals, clauses, lits, ends, values, levels, reasons, trail, opened, next, prev, ts,
        len, level, curr_i, start, search, timestamp, text, written,
    )
}

// Reads a saved text of list mode into memory that a host lends, with the clause list. Refused, nothing changes.
#[unsafe(no_mangle)]
pub extern "C" fn sigvort_list_read(
    text: &[u8],
    lits: &mut [u32],
    ends: &mut [u32],
    values: &mut [u8],
    levels: &mut [u32],
    reasons: &mut [u32],
    trail: &mut [u32],
    opened: &mut [u32],
    next: &mut [u32],
    prev: &mut [u32],
    ts: &mut [u64],
    len: &mut u32,
    level: &mut u32,
    curr_i: &mut u32,
    start: &mut u32,
    search: &mut u32,
    timestamp: &mut u64,
) -> u32
    ensures { let before = memory_of lits.old ends.old values.old levels.old reasons.old trail.old opened.old next.old prev.old ts.old (list_state len.old level.old curr_i.old start.old search.old timestamp.old) in
        let after = memory_of lits.new ends.new values.new levels.new reasons.new trail.new opened.new next.new prev.new ts.new (list_state len.new level.new curr_i.new start.new search.new timestamp.new) in
        Answered (entry.read list_reader text.now before) before result number.NONE after }
{
    saved_native::list_reading::sigvort_list_read(
        text, lits, ends, values, levels, reasons, trail, opened, next, prev, ts, len, level,
        curr_i, start, search, timestamp,
    )
}
