// A sheet of calls on a saved session in list mode: its text is loaded into memory of the run's own, its calls are done, and it is saved.
ghost use Rattle.std.specs.Prelude.{true, List, map, ℕ, ◌+◌, ◌*◌, ◌≤◌, length};
ghost use Rattle.lit.specs.Numbers as number;
ghost use Rattle.forms.specs.Text as text-spec;
ghost use Rattle.forms.specs.Forms.{call_in};
ghost use Rattle.saved_text.specs.Form.{OpensWith, opened as opening};
ghost use Rattle.sheet.specs.Running.{Room, Holds};
ghost use Rattle.sheet.specs.Opening.{at_first};
ghost use Rattle.saved_sheet.specs.Sheets.{held_in, carried_on};
ghost use Rattle.saved_run.specs.Outcomes.{Comes};
ghost use Rattle.list_desk.specs.Loading.{Text};

use crate::run::list_done;
use formula::Clauses;
use list_saved::loading::load_front;
use list_session::{ListSession, ListState};
use lit::{MAX_VARS, NONE, Refusal, UNASSIGNED};
use saved_run::{
    ALL, ALL_CLAUSES, ALL_LITERALS, Both, FEW, LEAST, SHORT, SHORT_CLAUSES, TINY, TINY_CLAUSES,
    admit,
};
use saved_state::judging::{Loaded, form_or};
use sheet::Place;

// Does the calls of a sheet on the session that was loaded of a text into the fronts of slices, and saves it, unless it is refused or its text may have no room.
fn list_loaded(
    sheet: &[u8],
    out: &mut [u8],
    text: &mut [u8],
    n: u32,
    lits: &[u32],
    ends: &[u32],
    values: &mut [u8],
    levels: &mut [u32],
    reasons: &mut [u32],
    trail: &mut [u32],
    opened: &mut [u32],
    next: &mut [u32],
    prev: &mut [u32],
    ts: &mut [u64],
    count: u32,
    x: Option<Loaded<ListState>>,
) -> Result<Both, Refusal>
    requires room { Room sheet.now (at_first count) out.old × (n ≤ number.max_vars) }
    requires n_in_bounds { (n ≤ length values.old) × (n ≤ length levels.old) × (n ≤ length reasons.old) × (n ≤ length trail.old) × (n ≤ length opened.old) }
    requires n_in_bounds_2 { (n ≤ length next.old) × (n ≤ length prev.old) × (n ≤ length ts.old) }
    requires by_index { (old : List ℕ) × (at : ℕ) × Text old at n x lits.now ends.now values.old levels.old reasons.old trail.old opened.old next.old prev.old ts.old }
    ensures { (old : List ℕ) (at : ℕ) → Text old at n x lits.now ends.now values.old levels.old reasons.old trail.old opened.old next.old prev.old ts.old →
        let y = carried_on (length text.old) (map call_in (text-spec.lines sheet.now)) (held_in old) in
        Comes y out.old text.old result out.new text.new }
{
    let Some(l) = x else {
        return Err(Refusal::BadSaved);
    };
    let state = admit(n, l, text.len())?;
    let list = Clauses {
        lits: &lits[..l.literals],
        ends: &ends[..l.clauses],
    };
    let v = n as usize;
    let mut session = ListSession {
        values: &mut values[..v],
        levels: &mut levels[..v],
        reasons: &mut reasons[..v],
        trail: &mut trail[..v],
        opened: &mut opened[..v],
        next: &mut next[..v],
        prev: &mut prev[..v],
        ts: &mut ts[..v],
        at: state,
    };
    let first = Place {
        from: 0,
        left: count,
        line: 1,
        at: 0,
    };
    Ok(list_done(sheet, out, text, n, list, &mut session, first))
}

// Loads a text that opens n variables into slices that have room for them, and does the calls of a sheet on its session.
fn list_slices(
    old: &[u8],
    at: usize,
    n: u32,
    sheet: &[u8],
    out: &mut [u8],
    text: &mut [u8],
    count: u32,
    lits: &mut [u32],
    ends: &mut [u32],
    values: &mut [u8],
    levels: &mut [u32],
    reasons: &mut [u32],
    trail: &mut [u32],
    opened: &mut [u32],
    next: &mut [u32],
    prev: &mut [u32],
    ts: &mut [u64],
    level_row: &mut [u32],
    reason_row: &mut [u32],
    order: &mut [u32],
    stamp_row: &mut [u64],
) -> Result<Both, Refusal>
    requires room { Room sheet.now (at_first count) out.old × OpensWith old.now at (opening n true) × (n ≤ number.max_vars) × Holds old.now lits.old ends.old × (length lits.old ≤ number.NONE) }
    requires n_in_bounds { (n ≤ length values.old) × (n ≤ length levels.old) × (n ≤ length reasons.old) × (n ≤ length trail.old) × (n ≤ length opened.old) }
    requires n_in_bounds_2 { (n ≤ length next.old) × (n ≤ length prev.old) × (n ≤ length ts.old) }
    requires n_in_bounds_3 { (n ≤ length level_row.old) × (n ≤ length reason_row.old) × (n ≤ length order.old) × (n ≤ length stamp_row.old) }
    ensures { let x = carried_on (length text.old) (map call_in (text-spec.lines sheet.now)) (held_in old.now) in Comes x out.old text.old result out.new text.new }
{
    let x = load_front(
        old, at, n, lits, ends, values, levels, reasons, trail, opened, next, prev, ts, level_row,
        reason_row, order, stamp_row,
    );
    list_loaded(
        sheet, out, text, n, lits, ends, values, levels, reasons, trail, opened, next, prev, ts,
        count, x,
    )
}

// The same in arrays of its own, which have room for VARS variables, CLAUSES clauses and LITERALS literals.
fn in_own_arrays<const VARS: usize, const CLAUSES: usize, const LITERALS: usize>(
    old: &[u8],
    at: usize,
    n: u32,
    sheet: &[u8],
    out: &mut [u8],
    text: &mut [u8],
    count: u32,
) -> Result<Both, Refusal>
    requires sizes { (VARS ≤ number.max_vars + 16) × (CLAUSES ≤ number.max_clauses) × (LITERALS ≤ number.max_literals) }
    requires room { Room sheet.now (at_first count) out.old × OpensWith old.now at (opening n true) }
    requires vars { (n ≤ number.max_vars) × (n ≤ VARS) }
    requires clauses { (k : ℕ) → k ≤ number.max_clauses → 2 * k ≤ length old.now → k ≤ CLAUSES }
    requires literals { (k : ℕ) → k ≤ number.max_literals → 2 * k ≤ length old.now → k ≤ LITERALS }
    ensures { let x = carried_on (length text.old) (map call_in (text-spec.lines sheet.now)) (held_in old.now) in Comes x out.old text.old result out.new text.new }
{
    let mut lits = [0u32; LITERALS];
    let mut ends = [0u32; CLAUSES];
    let mut values = [UNASSIGNED; VARS];
    let mut levels = [NONE; VARS];
    let mut reasons = [NONE; VARS];
    let mut trail = [NONE; VARS];
    let mut opened = [NONE; VARS];
    let mut next = [NONE; VARS];
    let mut prev = [NONE; VARS];
    let mut ts = [0u64; VARS];
    let mut level_row = [NONE; VARS];
    let mut reason_row = [NONE; VARS];
    let mut order = [NONE; VARS];
    let mut stamp_row = [0u64; VARS];
    list_slices(
        old,
        at,
        n,
        sheet,
        out,
        text,
        count,
        &mut lits,
        &mut ends,
        &mut values,
        &mut levels,
        &mut reasons,
        &mut trail,
        &mut opened,
        &mut next,
        &mut prev,
        &mut ts,
        &mut level_row,
        &mut reason_row,
        &mut order,
        &mut stamp_row,
    )
}

// Does the calls of a sheet of so many lines on the session of a text in list mode that opens n variables.
pub fn list_on(
    old: &[u8],
    at: usize,
    n: u32,
    sheet: &[u8],
    out: &mut [u8],
    text: &mut [u8],
    count: u32,
) -> Result<Both, Refusal>
    requires { Room sheet.now (at_first count) out.old × OpensWith old.now at (opening n true) }
    ensures { let x = carried_on (length text.old) (map call_in (text-spec.lines sheet.now)) (held_in old.now) in Comes x out.old text.old result out.new text.new }
{
    if n > MAX_VARS {
        return Err(form_or(old, Refusal::ManyVars));
    }
    if n as usize <= LEAST && old.len() <= TINY {
        return in_own_arrays::<LEAST, TINY_CLAUSES, TINY_CLAUSES>(
            old, at, n, sheet, out, text, count,
        );
    }
    if n as usize <= FEW && old.len() <= SHORT {
        return in_own_arrays::<FEW, SHORT_CLAUSES, SHORT_CLAUSES>(
            old, at, n, sheet, out, text, count,
        );
    }
    in_own_arrays::<ALL, ALL_CLAUSES, ALL_LITERALS>(old, at, n, sheet, out, text, count)
}
