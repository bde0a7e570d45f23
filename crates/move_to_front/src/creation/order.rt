// The order by which the list is made, in lent scratch: all variables by their literals.
ghost use Rattle.std.specs.Prelude.{◌≡◌, ◌≤◌, length, replicate};
ghost use Rattle.laws.specs.InPlace.{up_to};
ghost use Rattle.lit.specs.Numbers.{NONE as none};
ghost use Rattle.vmtf.specs.Vmtf as spec;
ghost use Rattle.vmtf.specs.Vmtf.{Literals};

use lit::index;
use util::sort_reverse;

// Writes the variables in the order of their numbers.
fn number(s: &mut [u32])
    requires { length s.old ≤ none }
    ensures { s.new ≡ up_to (length s.old) }
{
    for (i, v) in s.iter_mut().enumerate() {
        *v = i as u32;
    }
}

// Counts the literals of each variable, of both polarities.
fn count_lits(codes: &[u32], counts: &mut [u32])
    requires literals { Literals (length counts.old) codes.now }
    requires counts_value { counts.old ≡ replicate (length counts.old) 0 }
    ensures { counts.new ≡ spec.count_lits counts.old codes.now }
{
    for &code in codes {
        counts[index(code) as usize] += 1;
    }
}

// The variables in the most literals first. The counts are scratch.
pub(crate) fn lit_order(codes: &[u32], counts: &mut [u32], indexes: &mut [u32])
    requires literals { Literals (length counts.old) codes.now }
    requires counts_len_bound { (length counts.old ≤ none) × (length indexes.old ≡ length counts.old) }
    ensures { indexes.new ≡ spec.lit_order (length counts.old) codes.now }
{
    counts.fill(0);
    count_lits(codes, counts);
    number(indexes);
    sort_reverse(counts, indexes);
}
