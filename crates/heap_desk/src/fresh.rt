// A new session in heap mode on a sheet, once the clause lines are read: it is made fresh and checked once, its lines are done, and it is saved.
ghost use Rattle.std.specs.Prelude.{◌≡◌, ◌+◌, ◌≤◌, length};
ghost use Rattle.lit.specs.Numbers as number;
ghost use Rattle.formula.specs.Good.{GoodClauses};
ghost use Rattle.trail.specs.Trail.{fresh_trail};
ghost use Rattle.vsids.specs.Vsids.{new};
ghost use Rattle.heap_session.specs.Held.{trail_held, vsids_held};
ghost use Rattle.forms.specs.Forms.{vsids};
ghost use Rattle.sheet.specs.Stages as spec;
ghost use Rattle.sheet.specs.Running.{Room};
ghost use Rattle.saved_sheet.specs.Sheets.{text_room};
ghost use Rattle.saved_run.specs.Ends.{Saves};

use crate::run::heap_done;
use activity::ZERO_ACTIVITY;
use formula::Clauses;
use heap_session::{HeapSession, HeapState};
use lit::{NONE, ON, UNASSIGNED};
use saved_run::{ALL, Both, FEW};
use sheet::Place;
use trail::TrailState;
use vsids::all_members;

// Does the lines of a session from a fresh one on, and saves it.
fn heap_fresh(
    sheet: &[u8],
    out: &mut [u8],
    text: &mut [u8],
    n: u32,
    list: Clauses<'_>,
    session: &mut HeapSession<'_>,
    p: Place,
) -> Both
    requires room { Room sheet.now p out.old × (n ≤ number.max_vars) × GoodClauses n list.lits.now list.ends.now × (text_room n (length list.ends.now) (length list.lits.now) ≤ length text.old) }
    requires fresh { (trail_held session.old ≡ fresh_trail n) × (vsids_held session.old ≡ new n) }
    ensures { Saves sheet.now p (spec.opened vsids n list.entry.lits.now list.entry.ends.now) out.old text.old result out.new text.new }
{
    if !session.view().check(list.ends.len() as u32) {
        return Both {
            answers: p.at,
            text: 0,
        };
    }
    heap_done(sheet, out, text, n, list, session, p)
}

// The same in arrays of its own, which have room for VARS variables.
fn in_own_arrays<const VARS: usize>(
    sheet: &[u8],
    out: &mut [u8],
    text: &mut [u8],
    n: u32,
    list: Clauses<'_>,
    p: Place,
) -> Both
    requires sizes { VARS ≤ number.max_vars + 16 }
    requires vars { (n ≤ number.max_vars) × (n ≤ VARS) }
    requires room { Room sheet.now p out.old × GoodClauses n list.lits.now list.ends.now × (text_room n (length list.ends.now) (length list.lits.now) ≤ length text.old) }
    ensures { Saves sheet.now p (spec.opened vsids n list.entry.lits.now list.entry.ends.now) out.old text.old result out.new text.new }
{
    let mut values = [UNASSIGNED; VARS];
    let mut levels = [NONE; VARS];
    let mut reasons = [NONE; VARS];
    let mut codes = [NONE; VARS];
    let mut opened = [NONE; VARS];
    let mut activity = [ZERO_ACTIVITY; VARS];
    let mut heap = [NONE; VARS];
    let mut indices = [NONE; VARS];
    let mut decision = [ON; VARS];
    let k = n as usize;
    let members = &mut heap[..k];
    let places = &mut indices[..k];
    let at = all_members(members, places);
    let mut session = HeapSession {
        values: &mut values[..k],
        levels: &mut levels[..k],
        reasons: &mut reasons[..k],
        trail: &mut codes[..k],
        opened: &mut opened[..k],
        activity: &mut activity[..k],
        heap: members,
        indices: places,
        decision: &mut decision[..k],
        at: HeapState {
            trail: TrailState::default(),
            vsids: at,
        },
    };
    heap_fresh(sheet, out, text, n, list, &mut session, p)
}

// Does the lines of a new session from a place on, and saves it.
pub fn heap_new(
    sheet: &[u8],
    out: &mut [u8],
    text: &mut [u8],
    n: u32,
    list: Clauses<'_>,
    p: Place,
) -> Both
    requires { Room sheet.now p out.old × (n ≤ number.max_vars) × GoodClauses n list.lits.now list.ends.now × (text_room n (length list.ends.now) (length list.lits.now) ≤ length text.old) }
    ensures { Saves sheet.now p (spec.opened vsids n list.entry.lits.now list.entry.ends.now) out.old text.old result out.new text.new }
{
    if n as usize <= FEW {
        return in_own_arrays::<FEW>(sheet, out, text, n, list, p);
    }
    in_own_arrays::<ALL>(sheet, out, text, n, list, p)
}
