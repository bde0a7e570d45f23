// Loading a saved session in list mode: its text is read in one pass into memory of the caller's own, whose contents do not matter before, nor where the text is refused.
ghost use Rattle.std.specs.Prelude.{◌≡◌, true, ◌≤◌, length, take, Some};
ghost use Rattle.lit.specs.Numbers.{NONE as none, max_vars};
ghost use Rattle.trail.specs.Memory.{Lengths, Sized};
ghost use Rattle.list_session.specs.Memory.{trail_held, vmtf_held, SameSlices};
ghost use Rattle.saved_text.specs.Saved.{Saved};
ghost use Rattle.saved_text.specs.Reading.{read_text};
ghost use Rattle.saved_text.specs.Form.{OpensWith, opened as opening};
ghost use Rattle.saved_state.specs.Said.{trail_said, list_said};
ghost use Rattle.list_saved.specs.Loading.{Ready, Loads, loaded_with};

use list_session::{ListSession, ListState};
use saved_state::judging::{Loaded, Unfit, clauses_good, fitting};
use saved_state::memory::{set_list, set_trail};
use saved_text::form::{Clauses, ListRows, ListText, TrailRows, list_text};
use trail::Trail;
use vmtf::Vmtf;

// The trail and the list of rows that were read; the codes stand in front in their slice.
fn restore(
    t: TrailRows,
    h: ListRows,
    level_row: &[u32],
    reason_row: &[u32],
    order: &[u32],
    stamp_row: &[u64],
    session: &mut ListSession<'_>,
)
    requires lengths { Sized (length session.old.values.now) (trail_held session.old) }
    requires next_len { (length session.old.next.now ≡ length session.old.values.now) × (length session.old.prev.now ≡ length session.old.values.now) × (length session.old.ts.now ≡ length session.old.values.now) }
    requires level_row_len { (length level_row.now ≡ length session.old.values.now) × (length reason_row.now ≡ length session.old.values.now) × (length order.now ≡ length session.old.values.now) × (length stamp_row.now ≡ length session.old.values.now) }
    requires ready { (s : Saved) × Ready s (length session.old.values.now) t h session.old.trail.now level_row.now reason_row.now order.now stamp_row.now }
    ensures restored { (s : Saved) → Ready s (length session.old.values.now) t h session.old.trail.now level_row.now reason_row.now order.now stamp_row.now →
        (trail_held session.new ≡ trail_said s) × (vmtf_held session.new ≡ list_said s) }
    ensures same_slices { SameSlices session.old session.new }
    ensures same_lengths { (length session.new.values.now ≡ length session.old.values.now) × Sized (length session.old.values.now) (trail_held session.new) × (length session.new.next.now ≡ length session.old.next.now) × (length session.new.prev.now ≡ length session.old.prev.now) × (length session.new.ts.now ≡ length session.old.ts.now) }
{
    let mut trail = Trail {
        values: session.values,
        levels: session.levels,
        reasons: session.reasons,
        codes: session.trail,
        opened: session.opened,
        at: session.at.trail,
    };
    let mut list = Vmtf {
        next: session.next,
        prev: session.prev,
        ts: session.ts,
        at: session.at.vmtf,
    };
    let k = t.count;
    set_trail(&mut trail, k, t.curr, &level_row[..k], &reason_row[..k]);
    set_list(&mut list, order, stamp_row, h.timestamp, h.search);
    session.at = ListState {
        trail: trail.at,
        vmtf: list.at,
    };
}

// What a text with these clauses says: their counts, and the small states or why there are none.
fn loaded_with(c: Clauses, state: Result<ListState, Unfit>) -> Option<Loaded<ListState>>
    ensures { result ≡ Some (loaded_with c state) }
{
    Some(Loaded {
        clauses: c.count,
        literals: c.literals,
        state,
    })
}

// Loads what stands behind the first line of a text that opens n variables.
pub fn load_session(
    text: &[u8],
    at: usize,
    n: u32,
    lits: &mut [u32],
    ends: &mut [u32],
    session: &mut ListSession<'_>,
    level_row: &mut [u32],
    reason_row: &mut [u32],
    order: &mut [u32],
    stamp_row: &mut [u64],
) -> Option<Loaded<ListState>>
    requires opens_with { OpensWith text.now at (opening n true) × (n ≤ max_vars) × (length lits.old ≤ none) }
    requires lengths { Sized n (trail_held session.old) }
    requires next_len { (length session.old.next.now ≡ n) × (length session.old.prev.now ≡ n) × (length session.old.ts.now ≡ n) }
    requires level_row_len { (length level_row.old ≡ n) × (length reason_row.old ≡ n) × (length order.old ≡ n) × (length stamp_row.old ≡ n) }
    ensures loads { Loads (read_text text.now) result lits.new ends.new
        session.new.values.now session.new.levels.now session.new.reasons.now session.new.trail.now session.new.opened.now
        session.new.next.now session.new.prev.now session.new.ts.now }
    ensures same_slices { SameSlices session.old session.new }
    ensures same_lengths { Sized n (trail_held session.new) × (length session.new.next.now ≡ n) × (length session.new.prev.now ≡ n) × (length session.new.ts.now ≡ n) }
{
    let ListText {
        clauses: c,
        trail: t,
        list: h,
    } = list_text(
        text,
        at,
        n,
        lits,
        ends,
        session.trail,
        level_row,
        reason_row,
        order,
        stamp_row,
    )?;
    if !clauses_good(n, c) {
        return loaded_with(c, Err(Unfit::Clauses));
    }
    if !fitting(n, t.count, t.greatest, n as usize, h.greatest) {
        return loaded_with(c, Err(Unfit::State));
    }
    restore(t, h, level_row, reason_row, order, stamp_row, session);
    if !session.view().check(c.count as u32) {
        return loaded_with(c, Err(Unfit::State));
    }
    loaded_with(c, Ok(session.at))
}

// The same in flat slices.
pub fn load<'a>(
    text: &[u8],
    at: usize,
    n: u32,
    lits: &mut [u32],
    ends: &mut [u32],
    values: &'a mut [u8],
    levels: &'a mut [u32],
    reasons: &'a mut [u32],
    trail: &'a mut [u32],
    opened: &'a mut [u32],
    next: &'a mut [u32],
    prev: &'a mut [u32],
    ts: &'a mut [u64],
    level_row: &mut [u32],
    reason_row: &mut [u32],
    order: &mut [u32],
    stamp_row: &mut [u64],
) -> Option<Loaded<ListState>>
    requires opens_with { OpensWith text.now at (opening n true) × (n ≤ max_vars) × (length lits.old ≤ none) }
    requires lengths { Lengths n values.old levels.old reasons.old trail.old opened.old }
    requires next_len { (length next.old ≡ n) × (length prev.old ≡ n) × (length ts.old ≡ n) }
    requires level_row_len { (length level_row.old ≡ n) × (length reason_row.old ≡ n) × (length order.old ≡ n) × (length stamp_row.old ≡ n) }
    ensures { Loads (read_text text.now) result lits.new ends.new
        values.new levels.new reasons.new trail.new opened.new
        next.new prev.new ts.new }
{
    let mut session = ListSession {
        values,
        levels,
        reasons,
        trail,
        opened,
        next,
        prev,
        ts,
        at: ListState::default(),
    };
    load_session(
        text,
        at,
        n,
        lits,
        ends,
        &mut session,
        level_row,
        reason_row,
        order,
        stamp_row,
    )
}

// The same in the fronts of slices that have room for n variables.
pub fn load_front(
    text: &[u8],
    at: usize,
    n: u32,
    lits: &mut [u32],
    ends: &mut [u32],
    values: &mut [u8],
    levels: &mut [u32],
    reasons: &mut [u32],
    trail: &mut [u32],
    opened: &mut [u32],
    next: &mut [u32],
    prev: &mut [u32],
    ts: &mut [u64],
    level_row: &mut [u32],
    reason_row: &mut [u32],
    order: &mut [u32],
    stamp_row: &mut [u64],
) -> Option<Loaded<ListState>>
    requires opens_with { OpensWith text.now at (opening n true) × (n ≤ max_vars) × (length lits.old ≤ none) }
    requires n_in_bounds { (n ≤ length values.old) × (n ≤ length levels.old) × (n ≤ length reasons.old) × (n ≤ length trail.old) × (n ≤ length opened.old) }
    requires n_in_bounds_2 { (n ≤ length next.old) × (n ≤ length prev.old) × (n ≤ length ts.old) }
    requires n_in_bounds_3 { (n ≤ length level_row.old) × (n ≤ length reason_row.old) × (n ≤ length order.old) × (n ≤ length stamp_row.old) }
    ensures { Loads (read_text text.now) result lits.new ends.new
        (take n values.new) (take n levels.new) (take n reasons.new) (take n trail.new) (take n opened.new)
        (take n next.new) (take n prev.new) (take n ts.new) }
{
    let k = n as usize;
    load(
        text,
        at,
        n,
        lits,
        ends,
        &mut values[..k],
        &mut levels[..k],
        &mut reasons[..k],
        &mut trail[..k],
        &mut opened[..k],
        &mut next[..k],
        &mut prev[..k],
        &mut ts[..k],
        &mut level_row[..k],
        &mut reason_row[..k],
        &mut order[..k],
        &mut stamp_row[..k],
    )
}
