// The numbers of a saved text's lines, from a session's memory.
ghost use Rattle.std.specs.Prelude.{◌≡◌, not, map, ℕ, ◌<◌, T, length, get_or};
ghost use Rattle.std.specs.Float.{nan, binary64};
ghost use Rattle.std.specs.Float.Ieee.{is_nan, to_bits};
ghost use Rattle.vmtf.specs.Vmtf.{from, Ends, Vars};
ghost use Rattle.saved_state.specs.Written as spec;
ghost use Rattle.saved_state.specs.Loops.{Codes};

// What a table holds for the variable of each literal on the trail, in the trail's order: levels, reasons.
pub fn along(codes: &[u32], table: &[u32], out: &mut [u32])
    requires { (length out.old ≡ length codes.now) × Codes (length table.now) codes.now }
    ensures { out.new ≡ spec.along codes.now table.now }
{
    for (i, code) in codes.iter().enumerate() {
        out[i] = table[lit::index(*code) as usize];
    }
}

// The variables of the list, from the front to its end, along the next links.
pub fn order_of(next: &[u32], start: u32, out: &mut [u32])
    requires { Ends next.now start × (length (from next.now (length next.now) start) ≡ length out.old) }
    ensures { out.new ≡ from next.now (length next.now) start }
{
    let mut curr = start;
    for place in out.iter_mut() {
        *place = curr;
        curr = next[curr as usize];
    }
}

// The stamps of the variables, in the list's order.
pub fn stamps_of(order: &[u32], ts: &[u64], out: &mut [u64])
    requires { (length out.old ≡ length order.now) × Vars (length ts.now) order.now }
    ensures { out.new ≡ map (λ v. get_or ts.now v 0) order.now }
{
    for (i, v) in order.iter().enumerate() {
        out[i] = ts[*v as usize];
    }
}

// The switches of the variables as numbers.
pub fn widened(switches: &[u8], out: &mut [u32])
    requires { length out.old ≡ length switches.now }
    ensures { out.new ≡ switches.now }
{
    for (i, switch) in switches.iter().enumerate() {
        out[i] = *switch as u32;
    }
}

// The bits of the activities, none of which is a NaN.
pub fn patterns(activity: &[f64], out: &mut [u64])
    requires out_len { length out.old ≡ length activity.now }
    requires by_index { (v : ℕ) → v < length activity.now → T (not (is_nan (get_or activity.now v nan))) }
    ensures { out.new ≡ map (to_bits binary64) activity.now }
{
    for (i, a) in activity.iter().enumerate() {
        out[i] = a.to_bits();
    }
}
