// The form of a saved text, for any number of variables, clauses and literals; and its counts.
ghost use Rattle.std.specs.Prelude.{◌≡◌, cond, [], ◌∷◌, ◌≤◌, leb, length, set};
ghost use Rattle.laws.specs.Options.{as_code};
ghost use Rattle.lit.specs.Numbers.{NONE as none};
ghost use Rattle.forms.specs.Forms.{vsids, vmtf};
ghost use Rattle.saved_text.specs.Saved.{form};
ghost use Rattle.saved_text.specs.Reading.{read_text};
ghost use Rattle.saved_text.specs.Form.{PastRows, TrailRead, HeapRead, ListRead, trail_rest, heap_rest, list_rest, SectionRead, StateRead, BehindRead, OpensWith, OpeningRead, HeapTold, ListTold, the_mode, opens, formed_of};

use crate::cursor::{keep, read_row};
use crate::letters::{
    ACTIVITIES, CURR, LEVELS, MEMBERS, ORDER, REASONS, SEARCH, STAMPS, STEP, SWITCHES, TIMESTAMP,
    TRAIL,
};
use crate::number::{Long, Number, Word};
use forms::Mode;
use forms::letters::CLAUSE;
use forms::text::NEWLINE;
use lit::NONE;

// A switch is 0 or 1.
pub const ON: u32 = 1;

// The lines of a trail: how many codes, the greatest of them, or 0, `curr_i`, and the place behind them.
#[derive(Clone, Copy)]
pub struct TrailRows {
    pub count: usize,
    pub greatest: u64,
    pub curr: u32,
    pub behind: usize,
}

// The lines of a heap: how many members, the greatest of them, or 0, the bits of step and decay, and the place behind them.
#[derive(Clone, Copy)]
pub struct HeapRows {
    pub count: usize,
    pub greatest: u64,
    pub inc: u64,
    pub decay: u64,
    pub behind: usize,
}

// The lines of a list: the greatest variable in its order, or 0, the timestamp, where the search starts, and the place behind them.
#[derive(Clone, Copy)]
pub struct ListRows {
    pub greatest: u64,
    pub timestamp: u64,
    pub search: u32,
    pub behind: usize,
}

// The clauses of a text: how many, their literals, the greatest code, or 0, and the place behind them.
#[derive(Clone, Copy)]
pub struct Clauses {
    pub count: usize,
    pub literals: usize,
    pub greatest: u64,
    pub behind: usize,
}

// The counts of a text: its mode and number of variables, the place of its clauses, and the clauses.
#[derive(Clone, Copy)]
pub struct Counts {
    pub mode: Mode,
    pub n: u32,
    pub first: usize,
    pub clauses: Clauses,
}

// The first line of a text: its mode and number of variables, and the place behind it.
#[derive(Clone, Copy)]
pub struct Opened {
    pub mode: Mode,
    pub n: u32,
    pub at: usize,
}

// What a text of either mode says behind its first line: its clauses, its trail, and the heap or the list.
#[derive(Clone, Copy)]
pub struct HeapText {
    pub clauses: Clauses,
    pub trail: TrailRows,
    pub heap: HeapRows,
}

#[derive(Clone, Copy)]
pub struct ListText {
    pub clauses: Clauses,
    pub trail: TrailRows,
    pub list: ListRows,
}

// The place behind a line with so many numbers, which stand in out as far as it has room.
fn past_row<N: Number>(
    text: &[u8],
    at: usize,
    letter: u8,
    kind: N::Kind,
    count: usize,
    out: &mut [N],
) -> Option<usize>
    requires { at ≤ length text.now }
    ensures { PastRows (form letter (N.kind_of kind) count ∷ []) text.now at result (N.values out.new ∷ []) }
{
    let numbers = read_row(text, at, letter, kind, out)?;
    if numbers.count != count {
        return None;
    }
    Some(numbers.behind)
}

// The place behind the lines of the levels and reasons of so many codes, and of `curr_i`.
fn past_trail(
    text: &[u8],
    at: usize,
    count: usize,
    level_row: &mut [u32],
    reason_row: &mut [u32],
    curr: &mut [u32],
) -> Option<usize>
    requires { at ≤ length text.now }
    ensures { PastRows (trail_rest count) text.now at result (level_row.new ∷ reason_row.new ∷ curr.new ∷ []) }
{
    let levels = past_row(text, at, LEVELS, Word::UpTo(NONE), count, level_row)?;
    let reasons = past_row(text, levels, REASONS, Word::Reason, count, reason_row)?;
    past_row(text, reasons, CURR, Word::UpTo(NONE), 1, curr)
}

// The place behind the lines of activities and switches of n variables, and of step and decay.
fn past_heap(
    text: &[u8],
    at: usize,
    n: usize,
    bits: &mut [u64],
    switch_row: &mut [u32],
    step: &mut [u64],
) -> Option<usize>
    requires { at ≤ length text.now }
    ensures { PastRows (heap_rest n) text.now at result (bits.new ∷ switch_row.new ∷ step.new ∷ []) }
{
    let activities = past_row(text, at, ACTIVITIES, Long::Bits, n, bits)?;
    let switches = past_row(text, activities, SWITCHES, Word::UpTo(ON), n, switch_row)?;
    past_row(text, switches, STEP, Long::Bits, 2, step)
}

// The place behind the lines of the stamps of n variables, of the timestamp and of the place to search.
fn past_list(
    text: &[u8],
    at: usize,
    n: usize,
    stamp_row: &mut [u64],
    timestamp: &mut [u64],
    search: &mut [u32],
) -> Option<usize>
    requires { at ≤ length text.now }
    ensures { PastRows (list_rest n) text.now at result (stamp_row.new ∷ timestamp.new ∷ search.new ∷ []) }
{
    let stamps = past_row(text, at, STAMPS, Long::Number, n, stamp_row)?;
    let behind = past_row(text, stamps, TIMESTAMP, Long::Number, 1, timestamp)?;
    past_row(text, behind, SEARCH, Word::Reason, 1, search)
}

// The lines of a trail, in slices as far as these have room.
pub fn trail_rows(
    text: &[u8],
    at: usize,
    trail: &mut [u32],
    level_row: &mut [u32],
    reason_row: &mut [u32],
) -> Option<TrailRows>
    requires { at ≤ length text.now }
    ensures { TrailRead text.now at result trail.new level_row.new reason_row.new }
{
    let codes = read_row(text, at, TRAIL, Word::UpTo(NONE), trail)?;
    let mut curr = [0u32; 1];
    let behind = past_trail(
        text,
        codes.behind,
        codes.count,
        level_row,
        reason_row,
        &mut curr,
    )?;
    Some(TrailRows {
        count: codes.count,
        greatest: codes.greatest,
        curr: curr[0],
        behind,
    })
}

// The lines of a heap over n variables.
pub fn heap_rows(
    text: &[u8],
    at: usize,
    n: usize,
    members: &mut [u32],
    bits: &mut [u64],
    switch_row: &mut [u32],
) -> Option<HeapRows>
    requires { at ≤ length text.now }
    ensures { HeapRead n text.now at result members.new bits.new switch_row.new }
{
    let numbers = read_row(text, at, MEMBERS, Word::UpTo(NONE), members)?;
    let mut step = [0u64; 2];
    let behind = past_heap(text, numbers.behind, n, bits, switch_row, &mut step)?;
    Some(HeapRows {
        count: numbers.count,
        greatest: numbers.greatest,
        inc: step[0],
        decay: step[1],
        behind,
    })
}

// The lines of a list over n variables.
pub fn list_rows(
    text: &[u8],
    at: usize,
    n: usize,
    order: &mut [u32],
    stamp_row: &mut [u64],
) -> Option<ListRows>
    requires { at ≤ length text.now }
    ensures { ListRead n text.now at result order.new stamp_row.new }
{
    let numbers = read_row(text, at, ORDER, Word::UpTo(NONE), order)?;
    if numbers.count != n {
        return None;
    }
    let mut timestamp = [0u64; 1];
    let mut search = [0u32; 1];
    let behind = past_list(
        text,
        numbers.behind,
        n,
        stamp_row,
        &mut timestamp,
        &mut search,
    )?;
    Some(ListRows {
        greatest: numbers.greatest,
        timestamp: timestamp[0],
        search: search[0],
        behind,
    })
}

// The place behind all lines from the trail's on.
fn past_state(text: &[u8], at: usize, mode: Mode, n: u32) -> Option<usize>
    requires { at ≤ length text.now }
    ensures { StateRead (opens n (the_mode mode)) text.now at result }
{
    let mut row = [0u32; 0];
    let mut row2 = [0u32; 0];
    let mut row3 = [0u32; 0];
    let mut longs = [0u64; 0];
    let trail = trail_rows(text, at, &mut row, &mut row2, &mut row3)?;
    match mode {
        Mode::Heap => {
            let heap = heap_rows(
                text,
                trail.behind,
                n as usize,
                &mut row,
                &mut longs,
                &mut row2,
            )?;
            Some(heap.behind)
        }
        Mode::List => {
            let list = list_rows(text, trail.behind, n as usize, &mut row, &mut longs)?;
            Some(list.behind)
        }
    }
}

// Stores the end of a clause at its place, if the literals up to it have room.
fn put_end(ends: &mut [u32], at: usize, literals: usize, room: usize)
    requires { room ≤ none }
    ensures { ends.new ≡ cond (leb literals room) (set ends.old at literals) ends.old }
{
    if literals <= room {
        keep(ends, at, literals as u32);
    }
}

// The clauses from a place on, up to the first line that does not begin as theirs do; their codes and ends as far as there is room.
pub fn clause_section(
    text: &[u8],
    from: usize,
    lits: &mut [u32],
    ends: &mut [u32],
) -> Option<Clauses>
    requires { (from ≤ length text.now) × (length lits.old ≤ none) }
    ensures { SectionRead text.now from result lits.new ends.new }
{
    let mut count = 0;
    let mut literals = 0;
    let mut greatest = 0;
    let mut at = from;
    // a while: a line ends where it is read, no range has these places
    while at < text.len() && text[at] == CLAUSE {
        let start = literals.min(lits.len());
        let clause = read_row(text, at, CLAUSE, Word::UpTo(NONE), &mut lits[start..])?;
        literals += clause.count;
        put_end(ends, count, literals, lits.len());
        count += 1;
        greatest = clause.greatest.max(greatest);
        at = clause.behind;
    }
    Some(Clauses {
        count,
        literals,
        greatest,
        behind: at,
    })
}

// The form of what stands behind the first line.
fn behind_first(text: &[u8], opened: Opened) -> Option<Counts>
    requires { opened.at ≤ length text.now }
    ensures { BehindRead (opens opened.n (the_mode opened.mode)) text.now opened.at result }
{
    let mut lits = [0u32; 0];
    let mut ends = [0u32; 0];
    let clauses = clause_section(text, opened.at, &mut lits, &mut ends)?;
    let end = past_state(text, clauses.behind, opened.mode, opened.n)?;
    if end != text.len() {
        return None;
    }
    Some(Counts {
        mode: opened.mode,
        n: opened.n,
        first: opened.at,
        clauses,
    })
}

// The first line of a text.
pub fn opening(text: &[u8]) -> Option<Opened>
    ensures { OpeningRead text.now result }
{
    let end = forms::text::find(text, NEWLINE);
    if end == text.len() {
        return None;
    }
    let first = forms::read_first(&text[..end])?;
    Some(Opened {
        mode: first.mode,
        n: first.vars,
        at: end + 1,
    })
}

// The form of a text, and its counts.
pub fn read_form(text: &[u8]) -> Option<Counts>
    ensures { result ≡ formed_of (read_text text.now) }
{
    let first = opening(text)?;
    behind_first(text, first)
}

// What a text of heap mode over n variables says behind its first line, in slices as far as these have room. They stay flat: a struct of them would be made for one call.
pub fn heap_text(
    text: &[u8],
    at: usize,
    n: u32,
    lits: &mut [u32],
    ends: &mut [u32],
    trail: &mut [u32],
    level_row: &mut [u32],
    reason_row: &mut [u32],
    members: &mut [u32],
    bits: &mut [u64],
    switch_row: &mut [u32],
) -> Option<HeapText>
    requires { OpensWith text.now at (opens n vsids) × (length lits.old ≤ none) }
    ensures { HeapTold (read_text text.now) result lits.new ends.new trail.new level_row.new reason_row.new members.new bits.new switch_row.new }
{
    let clauses = clause_section(text, at, lits, ends)?;
    let trail = trail_rows(text, clauses.behind, trail, level_row, reason_row)?;
    let heap = heap_rows(text, trail.behind, n as usize, members, bits, switch_row)?;
    if heap.behind != text.len() {
        return None;
    }
    Some(HeapText {
        clauses,
        trail,
        heap,
    })
}

// The same of list mode.
pub fn list_text(
    text: &[u8],
    at: usize,
    n: u32,
    lits: &mut [u32],
    ends: &mut [u32],
    trail: &mut [u32],
    level_row: &mut [u32],
    reason_row: &mut [u32],
    order: &mut [u32],
    stamp_row: &mut [u64],
) -> Option<ListText>
    requires { OpensWith text.now at (opens n vmtf) × (length lits.old ≤ none) }
    ensures { ListTold n (read_text text.now) result lits.new ends.new trail.new level_row.new reason_row.new order.new stamp_row.new }
{
    let clauses = clause_section(text, at, lits, ends)?;
    let trail = trail_rows(text, clauses.behind, trail, level_row, reason_row)?;
    let list = list_rows(text, trail.behind, n as usize, order, stamp_row)?;
    if list.behind != text.len() {
        return None;
    }
    Some(ListText {
        clauses,
        trail,
        list,
    })
}
