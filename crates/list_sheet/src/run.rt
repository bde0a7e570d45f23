// The lines of a session in list mode on flat slices, done and answered in turn.
ghost use Rattle.std.specs.Prelude.{◌≡◌, List, ℕ, ◌≤◌, length};
ghost use Rattle.lit.specs.Numbers as number;
ghost use Rattle.trail.specs.Memory.{trail_of};
ghost use Rattle.vmtf.specs.Vmtf.{vmtf_of};
ghost use Rattle.list_session.specs.Memory.{session_of};
ghost use Rattle.list_session.specs.Good.{GoodSession};
ghost use Rattle.sheet.specs.Running.{Room};
ghost use Rattle.list_sheet.specs.Lines.{ListAlong};

use crate::line::ListPlace;
use formula::Clauses;
use list_session::ListSession;

// Does the lines that are left and answers them, and gives where the run stands behind the last. No literals are lent: list mode does not look at them, so
// this holds for any.
pub fn list_lines<'a>(
    sheet: &[u8],
    out: &mut [u8],
    n: u32,
    ends: &[u32],
    values: &'a mut [u8],
    levels: &'a mut [u32],
    reasons: &'a mut [u32],
    trail: &'a mut [u32],
    opened: &'a mut [u32],
    next: &'a mut [u32],
    prev: &'a mut [u32],
    ts: &'a mut [u64],
    s: ListPlace,
) -> ListPlace
    requires room { Room sheet.now s.place out.old × (length ends.now ≤ number.max_clauses) }
    requires good_session { GoodSession n (length ends.now) (trail_of values.old levels.old reasons.old trail.old opened.old s.state.trail) (vmtf_of next.old prev.old ts.old s.state.vmtf) }
    ensures left_value { result.place.left ≡ 0 }
    ensures by_index { (lits : List ℕ) →
        let before = session_of n (length ends.now) lits values.old levels.old reasons.old trail.old opened.old next.old prev.old ts.old s.state in
        let after = session_of n (length ends.now) lits values.new levels.new reasons.new trail.new opened.new next.new prev.new ts.new result.state in
        ListAlong n lits ends.now sheet.now s.place before out.old result.place after out.new }
{
    let mut session = ListSession {
        values,
        levels,
        reasons,
        trail,
        opened,
        next,
        prev,
        ts,
        at: s.state,
    };
    let list = Clauses { lits: &[], ends };
    let place = lines::lines(sheet, out, n, list, &mut session, s.place);
    ListPlace {
        place,
        state: session.at,
    }
}
