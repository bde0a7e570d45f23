// The check of a lent trail: nothing is known of it but the slices' lengths.
#![tactic(auto)]

ghost use Rattle.std.specs.Prelude.{◌≡◌, true, ◌&&◌, ℕ, ◌≤◌, ◌<◌, length, get_or};
ghost use Rattle.lit.specs.Numbers as number;
ghost use Rattle.lit.specs.Lits as lits;
ghost use Rattle.lit.specs.Unused.{unused_ok};
ghost use Rattle.trail_check.specs.Check as spec;
ghost use Rattle.trail_check.specs.Check.{Marked};
ghost use Rattle.trail.specs.Memory.{view_in, Sized};

use crate::facts::{counts_ok, covered, level_ok, literal_ok, reason_ok, values_ok};
use lit::unused_ok;
use trail::TrailView;

pub mod facts;

// Whether every variable's reason is NONE, or a clause number and the variable assigned.
#[tactic(auto, using(laws::specs::Every::every_next, laws::specs::Every::every_not), unfolding(crate::specs::Check::reasons_ok, laws::specs::Every::every))]
fn reasons_ok(m: u32, t: TrailView<'_>) -> bool
    requires { length t.reasons.now ≡ length t.values.now }
    ensures { result ≡ spec.reasons_ok m t.entry.values.now t.entry.reasons.now }
{
    for v in 0..t.values.len() {
        if !reason_ok(m, t, v) {
            return false;
        }
    }
    true
}

// Whether every opened level in use lies below the trail length and above the one before it.
#[tactic(auto, using(laws::specs::Every::every_next, laws::specs::Every::every_not), unfolding(crate::specs::Check::opened_ok, laws::specs::Every::every))]
fn opened_ok(t: TrailView<'_>) -> bool
    requires { t.at.level ≤ length t.opened.now }
    ensures { result ≡ spec.opened_ok t.entry.opened.now t.entry.at.level t.entry.at.len }
{
    for k in 0..t.at.level {
        if !level_ok(t, k as usize) {
            return false;
        }
    }
    true
}

// Whether every literal of the trail is of a variable, holds, and is the first of its variable. Marks the variables passed.
fn places_ok(t: TrailView<'_>, marks: &mut [bool]) -> bool
    requires len_in_bounds { t.at.len ≤ length t.codes.now }
    requires marked { Marked t.codes.now 0 (length t.values.now) marks.old }
    ensures value { result ≡ spec.places_ok t.entry.values.now t.entry.codes.now t.entry.at.len }
    ensures marked_2 { result ≡ true → Marked t.entry.codes.now t.entry.at.len (length t.entry.values.now) marks.new }
{
    for i in 0..t.at.len {
        let code = t.codes[i as usize];
        if !literal_ok(t.values, marks, code) {
            return false;
        }
        marks[lit::index(code) as usize] = true;
    }
    true
}

// Whether every variable is unassigned or marked.
#[tactic(auto, using(laws::specs::Every::every_next, laws::specs::Every::every_not), unfolding(crate::specs::Check::covered_ok, laws::specs::Every::every))]
fn covered_ok(values: &[u8], marks: &[bool]) -> bool
    requires { length values.now ≤ length marks.now }
    ensures { result ≡ spec.covered_ok values.now marks.now }
{
    let mut ok = true;
    for v in 0..values.len() {
        if !covered(values, marks, v) {
            ok = false;
        }
    }
    ok
}

// Whether the trail holds literals of variables that hold, each assigned variable once. No variable is marked.
fn check_marked(t: TrailView<'_>, marks: &mut [bool]) -> bool
    requires len_in_bounds { t.at.len ≤ length t.codes.now }
    requires marked { Marked t.codes.now 0 (length t.values.now) marks.old }
    ensures { let held = t.entry.values.now in
        let codes = t.entry.codes.now in
        result ≡ (spec.places_ok held codes t.entry.at.len && spec.held_ok held codes t.entry.at.len) }
{
    places_ok(t, marks) && covered_ok(t.values, marks)
}

// At most so many variables are few: a short array of marks is enough for them.
const FEW: usize = 64;

// The same, with marks set up for it.
fn check_places(t: TrailView<'_>) -> bool
    requires { (length t.values.now ≤ number.max_vars) × (t.at.len ≤ length t.codes.now) }
    ensures { let held = t.entry.values.now in
        let codes = t.entry.codes.now in
        result ≡ (spec.places_ok held codes t.entry.at.len && spec.held_ok held codes t.entry.at.len) }
{
    if t.values.len() <= FEW {
        let mut few = [false; FEW];
        return check_marked(t, &mut few);
    }
    let mut marks = [false; lit::MAX_VARS as usize];
    check_marked(t, &mut marks)
}

// Whether the trail variables from place `from` up to `to` have level l.
fn row_ok(t: TrailView<'_>, from: u32, to: u32, l: u32) -> bool
    requires to_in_bounds { to ≤ length t.codes.now }
    requires by_index { (i : ℕ) → i < to → lits.index (get_or t.codes.now i 0) < length t.levels.now }
    ensures { result ≡ spec.row_ok t.entry.levels.now t.entry.codes.now from to l }
{
    for i in from..to {
        let v = lit::index(t.codes[i as usize]) as usize;
        if t.levels[v] != l {
            return false;
        }
    }
    true
}

// Whether every trail variable has the level of its place: row by row, from where a level was opened up to the next.
fn levels_ok(t: TrailView<'_>) -> bool
    requires len_in_bounds { (t.at.len ≤ length t.codes.now) × (t.at.level ≤ length t.opened.now) }
    requires by_index { (i : ℕ) → i < t.at.len → lits.index (get_or t.codes.now i 0) < length t.levels.now }
    requires len_value { spec.opened_ok t.opened.now t.at.level t.at.len ≡ true }
    ensures { result ≡ spec.levels_ok t.entry.levels.now t.entry.codes.now t.entry.opened.now t.entry.at.level t.entry.at.len }
{
    let mut from = 0;
    for l in 0..t.at.level {
        let to = t.opened[l as usize];
        if !row_ok(t, from, to, l) {
            return false;
        }
        from = to;
    }
    row_ok(t, from, t.at.len, t.at.level)
}

// Whether every variable has a good value and a good reason. Where no variable has a reason, every reason is good.
fn check_variables(m: u32, t: TrailView<'_>) -> bool
    requires { length t.reasons.now ≡ length t.values.now }
    ensures { let held = t.entry.values.now in
        result ≡ (spec.values_ok held && spec.reasons_ok m held t.entry.reasons.now) }
{
    values_ok(t.values) && (unused_ok(t.reasons, 0) || reasons_ok(m, t))
}

// Whether the places of the trail and of the opened levels that are not in use hold NONE.
fn check_unused(t: TrailView<'_>) -> bool
    requires { (t.at.len ≤ length t.codes.now) × (t.at.level ≤ length t.opened.now) }
    ensures { result ≡ (unused_ok t.entry.codes.now t.entry.at.len && unused_ok t.entry.opened.now t.entry.at.level) }
{
    unused_ok(t.codes, t.at.len) && unused_ok(t.opened, t.at.level)
}

// Whether the opened levels rise within the trail, and the trail variables' levels follow them.
fn check_levels(t: TrailView<'_>) -> bool
    requires len_in_bounds { (t.at.len ≤ length t.codes.now) × (t.at.level ≤ length t.opened.now) }
    requires by_index { (i : ℕ) → i < t.at.len → lits.index (get_or t.codes.now i 0) < length t.levels.now }
    ensures { let places = t.entry.opened.now in
        result ≡ (spec.opened_ok places t.entry.at.level t.entry.at.len && spec.levels_ok t.entry.levels.now t.entry.codes.now places t.entry.at.level t.entry.at.len) }
{
    opened_ok(t) && levels_ok(t)
}

// Whether the memory is a good trail over so many variables as it has values, and m clauses.
#[tactic(auto, unfolding(crate::specs::Check::trail_ok))]
pub fn check_trail(m: u32, t: TrailView<'_>) -> bool
    requires lengths { Sized (length t.values.now) (view_in t) }
    requires values_len_bound { length t.values.now ≤ number.max_vars }
    ensures { result ≡ spec.trail_ok m (view_in t.entry) }
{
    counts_ok(t)
        && (check_variables(m, t) && (check_unused(t) && (check_places(t) && check_levels(t))))
}
