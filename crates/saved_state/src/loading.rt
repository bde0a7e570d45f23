// A session's memory, from the numbers of a saved text's lines. What was in the slices before does not matter.
ghost use Rattle.std.specs.Prelude.{◌≡◌, [], ◌∷◌, ◌++◌, map, ℕ, ◌+◌, ◌<◌, ◌≤◌, length, get_or, take, drop, replicate};
ghost use Rattle.std.specs.Float.{binary64};
ghost use Rattle.std.specs.Float.Ieee.{of_bits};
ghost use Rattle.laws.specs.InPlace.{up_to};
ghost use Rattle.lit.specs.Numbers.{NONE as none, unassigned};
ghost use Rattle.lit.specs.Lits.{index, polarity};
ghost use Rattle.vmtf.specs.Vmtf.{Vars};
ghost use Rattle.saved_state.specs.Said.{padded, stores, openings};
ghost use Rattle.saved_state.specs.Loops.{Codes};

use forms::text::double;
use lit::{NONE, UNASSIGNED};

// Marks the places from k on as unused.
pub fn pad(out: &mut [u32], k: usize)
    requires { k ≤ length out.old }
    ensures { out.new ≡ padded (length out.old) (take k out.old) }
{
    out[k..].fill(NONE);
}

// Makes the literals on the trail hold, and leaves every other variable unassigned.
pub fn set_values(codes: &[u32], values: &mut [u8])
    requires { Codes (length values.old) codes.now }
    ensures { let literals = codes.now in
        values.new ≡ stores (replicate (length values.old) unassigned) (map index literals) (map polarity literals) }
{
    values.fill(UNASSIGNED);
    for code in codes {
        values[lit::index(*code) as usize] = lit::polarity(*code);
    }
}

// Stores the numbers along the trail, levels or reasons, by their variables; every other variable has none.
pub fn store(codes: &[u32], numbers: &[u32], out: &mut [u32])
    requires { (length numbers.now ≡ length codes.now) × Codes (length out.old) codes.now }
    ensures { out.new ≡ stores (replicate (length out.old) none) (map index codes.now) numbers.now }
{
    out.fill(NONE);
    for (i, code) in codes.iter().enumerate() {
        out[lit::index(*code) as usize] = numbers[i];
    }
}

// The places along the trail at which the level rises, and how many they are: the opened levels.
pub fn open_levels(levels: &[u32], opened: &mut [u32]) -> u32
    requires { (length levels.now ≤ length opened.old) × (length opened.old ≤ none) }
    ensures { let places = openings 0 0 levels.now in
        (opened.new ≡ padded (length opened.old) places) × (result ≡ length places) }
{
    opened.fill(NONE);
    let mut level = 0;
    let mut count = 0;
    for (i, next) in levels.iter().enumerate() {
        if level < *next {
            opened[count] = i as u32;
            count += 1;
        }
        level = *next;
    }
    count as u32
}

// The place of each member of the heap; a variable that is no member has none.
pub fn positions(members: &[u32], indices: &mut [u32])
    requires { (length members.now ≤ none) × Vars (length indices.old) members.now }
    ensures { let variables = members.now in
        indices.new ≡ stores (replicate (length indices.old) none) variables (up_to (length variables)) }
{
    indices.fill(NONE);
    for (i, member) in members.iter().enumerate() {
        indices[*member as usize] = i as u32;
    }
}

// The activities of these bits.
pub fn doubles(bits: &[u64], activity: &mut [f64])
    requires { length activity.old ≡ length bits.now }
    ensures { activity.new ≡ map (of_bits binary64) bits.now }
{
    for (i, pattern) in bits.iter().enumerate() {
        activity[i] = double(*pattern);
    }
}

// The switches of these numbers.
pub fn switches(row: &[u32], decision: &mut [u8])
    requires decision_len { length decision.old ≡ length row.now }
    requires by_index { (v : ℕ) → v < length row.now → get_or row.now v 0 < 256 }
    ensures { decision.new ≡ row.now }
{
    for (i, switch) in row.iter().enumerate() {
        decision[i] = *switch as u8;
    }
}

// The variable at a place of an order, or NONE.
pub fn variable(order: &[u32], i: usize) -> u32
    ensures { result ≡ get_or order.now i none }
{
    match order.get(i) {
        Some(v) => *v,
        None => NONE,
    }
}

// Links the variables of the order, each to the ones beside it.
pub fn links(order: &[u32], next: &mut [u32], prev: &mut [u32])
    requires { (length prev.old ≡ length next.old) × Vars (length next.old) order.now }
    ensures { let variables = order.now in
        let unlinked = replicate (length next.old) none in
        (next.new ≡ stores unlinked variables (drop 1 variables ++ none ∷ [])) × (prev.new ≡ stores unlinked variables (none ∷ variables)) }
{
    next.fill(NONE);
    prev.fill(NONE);
    let mut before = NONE;
    for (i, v) in order.iter().enumerate() {
        next[*v as usize] = variable(order, i + 1);
        prev[*v as usize] = before;
        before = *v;
    }
}

// Stores the stamps along the order by their variables; every other variable has the stamp 0.
pub fn stamps(order: &[u32], stamps: &[u64], ts: &mut [u64])
    requires { (length stamps.now ≡ length order.now) × Vars (length ts.old) order.now }
    ensures { ts.new ≡ stores (replicate (length ts.old) 0) order.now stamps.now }
{
    ts.fill(0);
    for (i, v) in order.iter().enumerate() {
        ts[*v as usize] = stamps[i];
    }
}
