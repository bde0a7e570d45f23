// The lines of a session in heap mode on a sheet, once the clause lines are read: the session is made fresh and checked once, and its lines are done.
#![tactic(auto)]

ghost use Rattle.std.specs.Prelude.{◌≡◌, ◌+◌, ◌≤◌, length};
ghost use Rattle.lit.specs.Numbers as number;
ghost use Rattle.formula.specs.Good.{GoodClauses};
ghost use Rattle.trail.specs.Trail.{fresh_trail};
ghost use Rattle.vsids.specs.Vsids.{new};
ghost use Rattle.heap_session.specs.Held.{vsids_held, trail_held, SameSlices};
ghost use Rattle.forms.specs.Forms.{vsids};
ghost use Rattle.sheet.specs.Stages as spec;
ghost use Rattle.sheet.specs.Running.{Room, Ended};
ghost use Rattle.heap_sheet.specs.Sizes as size;

use activity::ZERO_ACTIVITY;
use formula::Clauses;
use heap_session::{HeapSession, HeapState};
use lit::{MAX_VARS, NONE, ON, UNASSIGNED};
use sheet::Place;
use trail::TrailState;
use vsids::all_members;

// Does the lines of a session from a fresh one on and answers them, and gives the place behind the answers.
fn from_fresh(
    sheet: &[u8],
    out: &mut [u8],
    n: u32,
    list: Clauses<'_>,
    session: &mut HeapSession<'_>,
    p: Place,
) -> usize
    requires room { Room sheet.now p out.old × (n ≤ number.max_vars) × GoodClauses n list.lits.now list.ends.now }
    requires fresh { (trail_held session.old ≡ fresh_trail n) × (vsids_held session.old ≡ new n) }
    ensures ended { Ended sheet.now p (spec.opened vsids n list.entry.lits.now list.entry.ends.now) out.old result out.new }
    ensures same_slices { SameSlices session.old session.new }
{
    if !session.view().check(list.ends.len() as u32) {
        return p.at;
    }
    lines::lines(sheet, out, n, list, session, p).at
}

// The same in arrays of its own, which have room for VARS variables. The positions are the heap's.
fn in_own_arrays<const VARS: usize>(
    sheet: &[u8],
    out: &mut [u8],
    positions: &mut [u32],
    n: u32,
    list: Clauses<'_>,
    p: Place,
) -> usize
    requires sizes { VARS ≤ number.max_vars + 16 }
    requires room { Room sheet.now p out.old × (n ≤ number.max_vars) × (n ≤ VARS) × GoodClauses n list.lits.now list.ends.now × (n ≤ length positions.old) }
    ensures { Ended sheet.now p (spec.opened vsids n list.entry.lits.now list.entry.ends.now) out.old result out.new }
{
    let mut values = [UNASSIGNED; VARS];
    let mut levels = [NONE; VARS];
    let mut reasons = [NONE; VARS];
    let mut codes = [NONE; VARS];
    let mut opened = [NONE; VARS];
    let mut activity = [ZERO_ACTIVITY; VARS];
    let mut heap = [NONE; VARS];
    let mut decision = [ON; VARS];
    let k = n as usize;
    let members = &mut heap[..k];
    let indices = &mut positions[..k];
    let at = all_members(members, indices);
    let mut session = HeapSession {
        values: &mut values[..k],
        levels: &mut levels[..k],
        reasons: &mut reasons[..k],
        trail: &mut codes[..k],
        opened: &mut opened[..k],
        activity: &mut activity[..k],
        heap: members,
        indices,
        decision: &mut decision[..k],
        at: HeapState {
            trail: TrailState::default(),
            vsids: at,
        },
    };
    from_fresh(sheet, out, n, list, &mut session, p)
}

// How many variables the shorter arrays of a session have room for: setting up long ones costs more than a short run.
const LEAST: usize = 128;

pub const FEW: usize = 384;

const MANY: usize = 1344;

// And the longest, for as many as there may be: a cache line more, so that the arrays do not all begin at the same place of the cache.
const ALL: usize = MAX_VARS as usize + 16;

// Does the lines from a place on in a session of few variables, and gives the place behind their answers. Without a line no session is made.
// The positions are the heap's.
pub fn answer_few(
    sheet: &[u8],
    out: &mut [u8],
    positions: &mut [u32],
    n: u32,
    list: Clauses<'_>,
    p: Place,
) -> usize
    requires { Room sheet.now p out.old × (n ≤ size.few) × GoodClauses n list.lits.now list.ends.now × (n ≤ length positions.old) }
    ensures { Ended sheet.now p (spec.opened vsids n list.entry.lits.now list.entry.ends.now) out.old result out.new }
{
    if p.left == 0 {
        return p.at;
    }
    if n as usize <= LEAST {
        return in_own_arrays::<LEAST>(sheet, out, positions, n, list, p);
    }
    in_own_arrays::<FEW>(sheet, out, positions, n, list, p)
}

// The same with any number of variables.
pub fn answer_lines(
    sheet: &[u8],
    out: &mut [u8],
    positions: &mut [u32],
    n: u32,
    list: Clauses<'_>,
    p: Place,
) -> usize
    requires { Room sheet.now p out.old × (n ≤ number.max_vars) × GoodClauses n list.lits.now list.ends.now × (n ≤ length positions.old) }
    ensures { Ended sheet.now p (spec.opened vsids n list.entry.lits.now list.entry.ends.now) out.old result out.new }
{
    if p.left == 0 {
        return p.at;
    }
    if n as usize <= MANY {
        return in_own_arrays::<MANY>(sheet, out, positions, n, list, p);
    }
    in_own_arrays::<ALL>(sheet, out, positions, n, list, p)
}
