// The lines of a session in list mode on a sheet, once the clause lines are read: the session is made fresh and checked once, and its lines are done.
#![tactic(auto)]

ghost use Rattle.std.specs.Prelude.{◌≡◌, ◌+◌, ◌≤◌, length};
ghost use Rattle.lit.specs.Numbers as number;
ghost use Rattle.formula.specs.Good.{GoodClauses};
ghost use Rattle.trail.specs.Trail.{fresh_trail};
ghost use Rattle.trail.specs.Memory.{Lengths};
ghost use Rattle.vmtf.specs.Vmtf.{Literals, new};
ghost use Rattle.list_session.specs.Memory.{trail_held, vmtf_held};
ghost use Rattle.forms.specs.Forms.{vmtf};
ghost use Rattle.sheet.specs.Stages as spec;
ghost use Rattle.sheet.specs.Running.{Room, Ended};
ghost use Rattle.list_sheet.specs.Sizes as size;

use formula::Clauses;
use list_session::{ListSession, ListState};
use lit::{MAX_VARS, NONE, UNASSIGNED};
use sheet::Place;

pub mod line;
pub mod run;

// Makes a fresh session in slices of length n, over clauses with these literals. The levels and the reasons serve as scratch.
pub fn start<'a>(
    n: u32,
    lits: &[u32],
    values: &'a mut [u8],
    levels: &'a mut [u32],
    reasons: &'a mut [u32],
    codes: &'a mut [u32],
    opened: &'a mut [u32],
    next: &'a mut [u32],
    prev: &'a mut [u32],
    ts: &'a mut [u64],
) -> ListSession<'a>
    requires lengths { Lengths n values.old levels.old reasons.old codes.old opened.old × (length next.old ≡ n) × (length prev.old ≡ n) × (length ts.old ≡ n) }
    requires n_le_max_vars { (n ≤ number.max_vars) × Literals n lits.now }
    ensures trail { trail_held result ≡ fresh_trail n }
    ensures list { vmtf_held result ≡ new n lits.now }
    ensures lent { (result.values.ghost_name ≡ values.entry.ghost_name) × (result.levels.ghost_name ≡ levels.entry.ghost_name) × (result.reasons.ghost_name ≡ reasons.entry.ghost_name)
        × (result.trail.ghost_name ≡ codes.entry.ghost_name) × (result.opened.ghost_name ≡ opened.entry.ghost_name) × (result.next.ghost_name ≡ next.entry.ghost_name)
        × (result.prev.ghost_name ≡ prev.entry.ghost_name) × (result.ts.ghost_name ≡ ts.entry.ghost_name) }
{
    let mut session = ListSession {
        values,
        levels,
        reasons,
        trail: codes,
        opened,
        next,
        prev,
        ts,
        at: ListState::default(),
    };
    session.make_fresh_unaided(lits);
    session
}

// Does the lines of a session from a fresh one on and answers them, and gives the place behind the answers.
fn from_fresh(
    sheet: &[u8],
    out: &mut [u8],
    n: u32,
    list: Clauses<'_>,
    session: &mut ListSession<'_>,
    p: Place,
) -> usize
    requires room { Room sheet.now p out.old × (n ≤ number.max_vars) × GoodClauses n list.lits.now list.ends.now }
    requires fresh { (trail_held session.old ≡ fresh_trail n) × (vmtf_held session.old ≡ new n list.lits.now) }
    ensures { Ended sheet.now p (spec.opened vmtf n list.entry.lits.now list.entry.ends.now) out.old result out.new }
{
    if !session.view().check(list.ends.len() as u32) {
        return p.at;
    }
    lines::lines(sheet, out, n, list, session, p).at
}

// The same in arrays of its own, which have room for VARS variables.
fn in_own_arrays<const VARS: usize>(
    sheet: &[u8],
    out: &mut [u8],
    n: u32,
    list: Clauses<'_>,
    p: Place,
) -> usize
    requires sizes { VARS ≤ number.max_vars + 16 }
    requires room { Room sheet.now p out.old × (n ≤ number.max_vars) × (n ≤ VARS) × GoodClauses n list.lits.now list.ends.now }
    ensures { Ended sheet.now p (spec.opened vmtf n list.entry.lits.now list.entry.ends.now) out.old result out.new }
{
    let mut values = [UNASSIGNED; VARS];
    let mut levels = [NONE; VARS];
    let mut reasons = [NONE; VARS];
    let mut codes = [NONE; VARS];
    let mut opened = [NONE; VARS];
    let mut next = [NONE; VARS];
    let mut prev = [NONE; VARS];
    let mut ts = [0u64; VARS];
    let k = n as usize;
    let mut session = start(
        n,
        list.lits,
        &mut values[..k],
        &mut levels[..k],
        &mut reasons[..k],
        &mut codes[..k],
        &mut opened[..k],
        &mut next[..k],
        &mut prev[..k],
        &mut ts[..k],
    );
    from_fresh(sheet, out, n, list, &mut session, p)
}

// How many variables the shorter arrays of a session have room for: setting up long ones costs more than a short run.
const FEWEST: usize = 32;

pub const FEW: usize = 128;

// And the longest, for as many as there may be: a cache line more, so that the arrays do not all begin at the same place of the cache.
const ALL: usize = MAX_VARS as usize + 16;

// Does the lines from a place on in a session of few variables, and gives the place behind their answers. Without a line no session is made.
pub fn answer_few(sheet: &[u8], out: &mut [u8], n: u32, list: Clauses<'_>, p: Place) -> usize
    requires { Room sheet.now p out.old × (n ≤ size.few) × GoodClauses n list.lits.now list.ends.now }
    ensures { Ended sheet.now p (spec.opened vmtf n list.entry.lits.now list.entry.ends.now) out.old result out.new }
{
    if p.left == 0 {
        return p.at;
    }
    if n as usize <= FEWEST {
        return in_own_arrays::<FEWEST>(sheet, out, n, list, p);
    }
    in_own_arrays::<FEW>(sheet, out, n, list, p)
}

// The same with any number of variables.
pub fn answer_lines(sheet: &[u8], out: &mut [u8], n: u32, list: Clauses<'_>, p: Place) -> usize
    requires { Room sheet.now p out.old × (n ≤ number.max_vars) × GoodClauses n list.lits.now list.ends.now }
    ensures { Ended sheet.now p (spec.opened vmtf n list.entry.lits.now list.entry.ends.now) out.old result out.new }
{
    if p.left == 0 {
        return p.at;
    }
    in_own_arrays::<ALL>(sheet, out, n, list, p)
}
