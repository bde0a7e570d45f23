// The tests that the trail's check asks of one place, one variable or one row, for memory that was lent.
ghost use Rattle.std.specs.Prelude.{◌≡◌, false, ◌≤◌, ◌<◌, length, get_or};
ghost use Rattle.lit.specs.Lits as lits;
ghost use Rattle.trail_check.specs.Check as spec;

use lit::{NONE, UNASSIGNED};
use trail::TrailView;

// Whether the counts lie within the variables, and `curr_i` on the trail.
#[tactic(auto, unfolding(crate::specs::Check::counts_ok))]
pub fn counts_ok(t: TrailView<'_>) -> bool
    ensures { result ≡ spec.counts_ok (length t.entry.values.now) t.entry.at.len t.entry.at.level t.entry.at.curr_i }
{
    let n = t.values.len();
    t.at.len as usize <= n && (t.at.level as usize <= n && t.at.curr_i <= t.at.len)
}

// Whether every value is 0, 1 or 2.
#[tactic(auto, using(laws::specs::Every::every_next, laws::specs::Every::every_not), unfolding(crate::specs::Check::values_ok, laws::specs::Every::every))]
pub fn values_ok(values: &[u8]) -> bool
    ensures { result ≡ spec.values_ok values.now }
{
    let mut ok = true;
    for value in values {
        if *value > UNASSIGNED {
            ok = false;
        }
    }
    ok
}

// Whether the variable's reason is NONE, or a clause number and the variable assigned.
pub fn reason_ok(m: u32, t: TrailView<'_>, v: usize) -> bool
    requires { (v < length t.values.now) × (v < length t.reasons.now) }
    ensures { result ≡ spec.reason_ok m t.entry.values.now t.entry.reasons.now v }
{
    t.reasons[v] == NONE || (t.reasons[v] < m && t.values[v] < UNASSIGNED)
}

// Whether the opened level lies below the trail length and above the one before it.
pub fn level_ok(t: TrailView<'_>, k: usize) -> bool
    requires { k < length t.opened.now }
    ensures { result ≡ spec.level_ok t.entry.opened.now t.entry.at.len k }
{
    t.opened[k] < t.at.len && (k == 0 || t.opened[k - 1] < t.opened[k])
}

// Whether the literal is of a variable, holds, and its variable is not marked.
pub fn literal_ok(values: &[u8], marks: &[bool], code: u32) -> bool
    requires { length values.now ≤ length marks.now }
    ensures { result ≡ spec.literal_ok values.now code (get_or marks.now (lits.index code) false) }
{
    let v = lit::index(code) as usize;
    v < values.len() && (lit::lit_sat(code, values) && !marks[v])
}

// Whether the variable is unassigned or marked: its value is at least 2, or any if it is marked.
pub fn covered(values: &[u8], marks: &[bool], v: usize) -> bool
    requires { (v < length values.now) × (v < length marks.now) }
    ensures { result ≡ spec.covered_at values.now marks.now v }
{
    let least = if marks[v] { 0 } else { UNASSIGNED };
    values[v] >= least
}
