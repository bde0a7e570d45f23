// Saved sessions in list mode: a session that was lent is written as text. The entry points ask nothing of their callers.
#![tactic(auto)]

ghost use Rattle.lit.specs.Refusals.{status_of};
ghost use Rattle.session.specs.Entry.{Answered};
ghost use Rattle.list_session.specs.Memory.{session_of};
ghost use Rattle.list_entry.specs.Entry.{list_mode};
ghost use Rattle.saved_state.specs.Written.{saved_list};
ghost use Rattle.saved_state.specs.Entry.{wrote, count_of};

use crate::saving::{put_text, text_fits};
use formula::Clauses;
use list_entry::refusal;
use list_session::{ListState, ListView};
use lit::Refusal;
use trail::TrailView;
use vmtf::VmtfView;

pub mod loading;
pub mod reading;
pub mod saving;

// Writes the text of a session that was lent, from the buffer's front on, and gives its length.
pub fn save<'a>(
    n: u32,
    literals: u32,
    clauses: u32,
    lits: &[u32],
    ends: &[u32],
    values: &'a [u8],
    levels: &'a [u32],
    reasons: &'a [u32],
    trail: &'a [u32],
    opened: &'a [u32],
    next: &'a [u32],
    prev: &'a [u32],
    ts: &'a [u64],
    s: ListState,
    text: &mut [u8],
) -> Result<u32, Refusal>
    ensures { let before = session_of n clauses lits.now
        values.now levels.now reasons.now trail.now opened.now
        next.now prev.now ts.now s in
        let mode = list_mode n clauses lits.now in
        let wanted = wrote n clauses mode lits.now literals ends.now
        (λ u. saved_list n lits.now ends.now u.trail u.chooser) before text.old in
        Answered wanted text.old (status_of result) (count_of result) text.new }
{
    let list = Clauses { lits, ends };
    let lent = ListView {
        trail: TrailView {
            values,
            levels,
            reasons,
            codes: trail,
            opened,
            at: s.trail,
        },
        vmtf: VmtfView {
            next,
            prev,
            ts,
            at: s.vmtf,
        },
    };
    refusal(n, literals, clauses, list, lent, true)?;
    if !text_fits(text.len(), n, list, lent) {
        return Err(Refusal::ShortBuffer);
    }
    Ok(put_text(text, n, list, lent) as u32)
}
