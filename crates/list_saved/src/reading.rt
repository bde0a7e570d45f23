// Reading a saved session in list mode into memory that was lent: the text is loaded into memory of its own, and copied once nothing refuses it.
ghost use Rattle.std.specs.Prelude.{◌≡◌, true, List, ℕ, ◌+◌, ◌≤◌, length, take, Some};
ghost use Rattle.lit.specs.Numbers.{max_vars, max_clauses, max_literals};
ghost use Rattle.trail.specs.Memory.{Lengths};
ghost use Rattle.session.specs.Entry.{Answered};
ghost use Rattle.list_entry.specs.Entry.{blank};
ghost use Rattle.saved_text.specs.Reading.{read_text};
ghost use Rattle.saved_text.specs.Form.{OpensWith, opened as opening};
ghost use Rattle.saved_state.specs.Entry as entry;
ghost use Rattle.list_saved.specs.Loading.{Loads};
ghost use Rattle.list_saved.specs.Reader.{list_reader, memory_of};

use crate::loading::load_front;
use forms::Mode;
use list_entry::creation::blank_state;
use list_entry::list_lengths;
use list_session::{ListAnswer, ListState, accept, refuse};
use lit::{BAD_SAVED, MAX_VARS, NONE, Refusal};
use saved_state::copying::{copy_clauses, copy_front, copy_trail};
use saved_state::judging::{Loaded, form_or};
use saved_state::saving::{
    ALL, ALL_CLAUSES, ALL_LITERALS, FEW, FEW_CLAUSES, FEW_LITERALS, MORE, MORE_CLAUSES,
    MORE_LITERALS,
};
use saved_text::form::{Opened, opening};
use session::entry::trail_lengths;
use trail::TrailView;
use vmtf::VmtfView;

// Copies the links and the stamps of a list from the fronts of slices.
fn copy_list(
    src_next: &[u32],
    src_prev: &[u32],
    src_ts: &[u64],
    next: &mut [u32],
    prev: &mut [u32],
    ts: &mut [u64],
)
    requires { (length next.old ≤ length src_next.now) × (length prev.old ≤ length src_prev.now) × (length ts.old ≤ length src_ts.now) }
    ensures { (next.new ≡ take (length next.old) src_next.now) × (prev.new ≡ take (length prev.old) src_prev.now) × (ts.new ≡ take (length ts.old) src_ts.now) }
{
    copy_front(src_next, next);
    copy_front(src_prev, prev);
    copy_front(src_ts, ts);
}

// What was loaded of a text over n variables is refused, or copied into memory that was lent.
fn settle(
    n: u32,
    l: Loaded<ListState>,
    own_lits: &[u32],
    own_ends: &[u32],
    own_values: &[u8],
    own_levels: &[u32],
    own_reasons: &[u32],
    own_trail: &[u32],
    own_opened: &[u32],
    own_next: &[u32],
    own_prev: &[u32],
    own_ts: &[u64],
    lits: &mut [u32],
    ends: &mut [u32],
    values: &mut [u8],
    levels: &mut [u32],
    reasons: &mut [u32],
    trail: &mut [u32],
    opened: &mut [u32],
    next: &mut [u32],
    prev: &mut [u32],
    ts: &mut [u64],
) -> ListAnswer
    requires n_le_max_vars { (n ≤ max_vars) × (length lits.old ≤ max_literals → length lits.old ≤ length own_lits.now) × (length ends.old ≤ max_clauses → length ends.old ≤ length own_ends.now) }
    requires n_in_bounds { (n ≤ length own_values.now) × (n ≤ length own_levels.now) × (n ≤ length own_reasons.now) × (n ≤ length own_trail.now) × (n ≤ length own_opened.now) }
    requires n_in_bounds_2 { (n ≤ length own_next.now) × (n ≤ length own_prev.now) × (n ≤ length own_ts.now) }
    requires lengths { Lengths n values.old levels.old reasons.old trail.old opened.old }
    requires next_len { (length next.old ≡ n) × (length prev.old ≡ n) × (length ts.old ≡ n) }
    requires by_index { (text : List ℕ) × (at : ℕ) × OpensWith text at (opening n true) × Loads (read_text text) (Some l) own_lits.now own_ends.now (take n own_values.now) (take n own_levels.now) (take n own_reasons.now) (take n own_trail.now) (take n own_opened.now) (take n own_next.now) (take n own_prev.now) (take n own_ts.now) }
    ensures { let before = memory_of lits.old ends.old values.old levels.old reasons.old trail.old opened.old next.old prev.old ts.old blank in
        let after = memory_of lits.new ends.new values.new levels.new reasons.new trail.new opened.new next.new prev.new ts.new result.state in
        ((text : List ℕ) (at : ℕ) → OpensWith text at (opening n true) → Loads (read_text text) (Some l) own_lits.now own_ends.now (take n own_values.now) (take n own_levels.now) (take n own_reasons.now) (take n own_trail.now) (take n own_opened.now) (take n own_next.now) (take n own_prev.now) (take n own_ts.now)
        → Answered (entry.read list_reader text before) before result.status result.reply after) }
{
    let state = match l.verdict(n, lits, ends) {
        Ok(state) => state,
        Err(e) => return refuse(e.number(), blank_state()),
    };
    copy_clauses(own_lits, own_ends, lits, ends);
    copy_trail(
        own_values,
        own_levels,
        own_reasons,
        own_trail,
        own_opened,
        values,
        levels,
        reasons,
        trail,
        opened,
    );
    copy_list(own_next, own_prev, own_ts, next, prev, ts);
    accept(NONE, state)
}

// Reads a text that opens n variables by way of arrays with room for VARS variables, CLAUSES clauses and LITERALS literals.
fn read_in<const VARS: usize, const CLAUSES: usize, const LITERALS: usize>(
    text: &[u8],
    at: usize,
    n: u32,
    lits: &mut [u32],
    ends: &mut [u32],
    values: &mut [u8],
    levels: &mut [u32],
    reasons: &mut [u32],
    trail: &mut [u32],
    opened: &mut [u32],
    next: &mut [u32],
    prev: &mut [u32],
    ts: &mut [u64],
) -> ListAnswer
    requires opens_with { OpensWith text.now at (opening n true) }
    requires sizes { (VARS ≤ max_vars + 16) × (CLAUSES ≤ max_clauses) × (LITERALS ≤ max_literals) }
    requires vars { (n ≤ max_vars) × (n ≤ VARS) }
    requires clauses { length ends.old ≤ max_clauses → length ends.old ≤ CLAUSES }
    requires literals { length lits.old ≤ max_literals → length lits.old ≤ LITERALS }
    requires lengths { Lengths n values.old levels.old reasons.old trail.old opened.old }
    requires next_len { (length next.old ≡ n) × (length prev.old ≡ n) × (length ts.old ≡ n) }
    ensures { let before = memory_of lits.old ends.old values.old levels.old reasons.old trail.old opened.old next.old prev.old ts.old blank in
        let after = memory_of lits.new ends.new values.new levels.new reasons.new trail.new opened.new next.new prev.new ts.new result.state in
        Answered (entry.read list_reader text.now before) before result.status result.reply after }
{
    let mut own_lits = [0u32; LITERALS];
    let mut own_ends = [0u32; CLAUSES];
    let mut own_values = [0u8; VARS];
    let mut own_levels = [0u32; VARS];
    let mut own_reasons = [0u32; VARS];
    let mut own_trail = [0u32; VARS];
    let mut own_opened = [0u32; VARS];
    let mut own_next = [0u32; VARS];
    let mut own_prev = [0u32; VARS];
    let mut own_ts = [0u64; VARS];
    let mut level_row = [0u32; VARS];
    let mut reason_row = [0u32; VARS];
    let mut order = [0u32; VARS];
    let mut stamp_row = [0u64; VARS];
    let Some(l) = load_front(
        text,
        at,
        n,
        &mut own_lits,
        &mut own_ends,
        &mut own_values,
        &mut own_levels,
        &mut own_reasons,
        &mut own_trail,
        &mut own_opened,
        &mut own_next,
        &mut own_prev,
        &mut own_ts,
        &mut level_row,
        &mut reason_row,
        &mut order,
        &mut stamp_row,
    ) else {
        return refuse(BAD_SAVED, blank_state());
    };
    settle(
        n,
        l,
        &own_lits,
        &own_ends,
        &own_values,
        &own_levels,
        &own_reasons,
        &own_trail,
        &own_opened,
        &own_next,
        &own_prev,
        &own_ts,
        lits,
        ends,
        values,
        levels,
        reasons,
        trail,
        opened,
        next,
        prev,
        ts,
    )
}

// Reads a text that opens n variables.
fn read_opened(
    text: &[u8],
    at: usize,
    n: u32,
    lits: &mut [u32],
    ends: &mut [u32],
    values: &mut [u8],
    levels: &mut [u32],
    reasons: &mut [u32],
    trail: &mut [u32],
    opened: &mut [u32],
    next: &mut [u32],
    prev: &mut [u32],
    ts: &mut [u64],
) -> ListAnswer
    requires { OpensWith text.now at (opening n true) }
    ensures { let before = memory_of lits.old ends.old values.old levels.old reasons.old trail.old opened.old next.old prev.old ts.old blank in
        let after = memory_of lits.new ends.new values.new levels.new reasons.new trail.new opened.new next.new prev.new ts.new result.state in
        Answered (entry.read list_reader text.now before) before result.status result.reply after }
{
    if n > MAX_VARS {
        return refuse(form_or(text, Refusal::ManyVars).number(), blank_state());
    }
    let t = TrailView {
        values,
        levels,
        reasons,
        codes: trail,
        opened,
        at: blank_state().trail,
    };
    if !trail_lengths(n as usize, t) {
        return refuse(form_or(text, Refusal::BadLength).number(), blank_state());
    }
    let l = VmtfView {
        next,
        prev,
        ts,
        at: blank_state().vmtf,
    };
    if !list_lengths(n as usize, l) {
        return refuse(form_or(text, Refusal::BadLength).number(), blank_state());
    }
    if n as usize <= FEW && lits.len() <= FEW_LITERALS && ends.len() <= FEW_CLAUSES {
        return read_in::<FEW, FEW_CLAUSES, FEW_LITERALS>(
            text, at, n, lits, ends, values, levels, reasons, trail, opened, next, prev, ts,
        );
    }
    if n as usize <= MORE && lits.len() <= MORE_LITERALS && ends.len() <= MORE_CLAUSES {
        return read_in::<MORE, MORE_CLAUSES, MORE_LITERALS>(
            text, at, n, lits, ends, values, levels, reasons, trail, opened, next, prev, ts,
        );
    }
    read_in::<ALL, ALL_CLAUSES, ALL_LITERALS>(
        text, at, n, lits, ends, values, levels, reasons, trail, opened, next, prev, ts,
    )
}

// Reads a saved text into memory that was lent, and gives the small states. Refused, nothing changes.
pub fn read(
    text: &[u8],
    lits: &mut [u32],
    ends: &mut [u32],
    values: &mut [u8],
    levels: &mut [u32],
    reasons: &mut [u32],
    trail: &mut [u32],
    opened: &mut [u32],
    next: &mut [u32],
    prev: &mut [u32],
    ts: &mut [u64],
) -> ListAnswer
    ensures { let before = memory_of lits.old ends.old values.old levels.old reasons.old trail.old opened.old next.old prev.old ts.old blank in
        let after = memory_of lits.new ends.new values.new levels.new reasons.new trail.new opened.new next.new prev.new ts.new result.state in
        Answered (entry.read list_reader text.now before) before result.status result.reply after }
{
    let Some(Opened { mode, n, at }) = opening(text) else {
        return refuse(BAD_SAVED, blank_state());
    };
    match mode {
        Mode::List => read_opened(
            text, at, n, lits, ends, values, levels, reasons, trail, opened, next, prev, ts,
        ),
        Mode::Heap => refuse(BAD_SAVED, blank_state()),
    }
}
