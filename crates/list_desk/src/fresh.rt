// A new session in list mode on a sheet, once the clause lines are read: it is made fresh and checked once, its lines are done, and it is saved.
ghost use Rattle.std.specs.Prelude.{◌≡◌, ◌+◌, ◌≤◌, length};
ghost use Rattle.lit.specs.Numbers as number;
ghost use Rattle.formula.specs.Good.{GoodClauses};
ghost use Rattle.trail.specs.Trail.{fresh_trail};
ghost use Rattle.vmtf.specs.Vmtf.{new};
ghost use Rattle.list_session.specs.Memory.{trail_held, vmtf_held};
ghost use Rattle.forms.specs.Forms.{vmtf};
ghost use Rattle.sheet.specs.Stages as spec;
ghost use Rattle.sheet.specs.Running.{Room};
ghost use Rattle.saved_sheet.specs.Sheets.{text_room};
ghost use Rattle.saved_run.specs.Ends.{Saves};

use crate::run::list_done;
use formula::Clauses;
use list_session::ListSession;
use list_sheet::start;
use lit::{NONE, UNASSIGNED};
use saved_run::{ALL, Both, FEW};
use sheet::Place;

// Does the lines of a session from a fresh one on, and saves it.
fn list_fresh(
    sheet: &[u8],
    out: &mut [u8],
    text: &mut [u8],
    n: u32,
    list: Clauses<'_>,
    session: &mut ListSession<'_>,
    p: Place,
) -> Both
    requires room { Room sheet.now p out.old × (n ≤ number.max_vars) × GoodClauses n list.lits.now list.ends.now × (text_room n (length list.ends.now) (length list.lits.now) ≤ length text.old) }
    requires fresh { (trail_held session.old ≡ fresh_trail n) × (vmtf_held session.old ≡ new n list.lits.now) }
    ensures { Saves sheet.now p (spec.opened vmtf n list.entry.lits.now list.entry.ends.now) out.old text.old result out.new text.new }
{
    if !session.view().check(list.ends.len() as u32) {
        return Both {
            answers: p.at,
            text: 0,
        };
    }
    list_done(sheet, out, text, n, list, session, p)
}

// The same in arrays of its own, which have room for VARS variables.
fn in_own_arrays<const VARS: usize>(
    sheet: &[u8],
    out: &mut [u8],
    text: &mut [u8],
    n: u32,
    list: Clauses<'_>,
    p: Place,
) -> Both
    requires sizes { VARS ≤ number.max_vars + 16 }
    requires vars { (n ≤ number.max_vars) × (n ≤ VARS) }
    requires room { Room sheet.now p out.old × GoodClauses n list.lits.now list.ends.now × (text_room n (length list.ends.now) (length list.lits.now) ≤ length text.old) }
    ensures { Saves sheet.now p (spec.opened vmtf n list.entry.lits.now list.entry.ends.now) out.old text.old result out.new text.new }
{
    let mut values = [UNASSIGNED; VARS];
    let mut levels = [NONE; VARS];
    let mut reasons = [NONE; VARS];
    let mut codes = [NONE; VARS];
    let mut opened = [NONE; VARS];
    let mut next = [NONE; VARS];
    let mut prev = [NONE; VARS];
    let mut ts = [0u64; VARS];
    let k = n as usize;
    let mut session = start(
        n,
        list.lits,
        &mut values[..k],
        &mut levels[..k],
        &mut reasons[..k],
        &mut codes[..k],
        &mut opened[..k],
        &mut next[..k],
        &mut prev[..k],
        &mut ts[..k],
    );
    list_fresh(sheet, out, text, n, list, &mut session, p)
}

// Does the lines of a new session from a place on, and saves it.
pub fn list_new(
    sheet: &[u8],
    out: &mut [u8],
    text: &mut [u8],
    n: u32,
    list: Clauses<'_>,
    p: Place,
) -> Both
    requires { Room sheet.now p out.old × (n ≤ number.max_vars) × GoodClauses n list.lits.now list.ends.now × (text_room n (length list.ends.now) (length list.lits.now) ≤ length text.old) }
    ensures { Saves sheet.now p (spec.opened vmtf n list.entry.lits.now list.entry.ends.now) out.old text.old result out.new text.new }
{
    if n as usize <= FEW {
        return in_own_arrays::<FEW>(sheet, out, text, n, list, p);
    }
    in_own_arrays::<ALL>(sheet, out, text, n, list, p)
}
