// How the move-to-front list of a fresh session is made: all variables, linked and stamped in the order of their literals.
mod order;

ghost use Rattle.std.specs.Prelude.{◌≡◌, List, ℕ, length, get_or, replicate};
ghost use Rattle.lit.specs.Numbers.{NONE as none};
ghost use Rattle.vmtf.specs.Vmtf as spec;
ghost use Rattle.vmtf.specs.Vmtf.{vmtf_in, SameSlices, Even, Ordering, Literals, Fresh};

use lit::NONE;
use order::lit_order;
use vmtf::{Vmtf, VmtfState};

// The variable at a place of the order, or NONE past its end.
fn var_at(order: &[u32], i: usize) -> u32
    ensures { result ≡ get_or order.now i none }
{
    order.get(i).copied().unwrap_or(NONE)
}

// Links the variables in the order and stamps them, the last with 1.
fn link(list: &mut Vmtf<'_>, order: &[u32])
    requires ordering { Ordering (length list.old.next.now) order.now }
    requires even { Even (vmtf_in list.old) }
    ensures linked { vmtf_in list.new ≡ spec.link_from none order.now (vmtf_in list.old) }
    ensures same_slices { SameSlices list.old list.new }
{
    let mut before = NONE;
    for (i, &v) in order.iter().enumerate() {
        list.next[v as usize] = var_at(order, i + 1);
        list.prev[v as usize] = before;
        list.ts[v as usize] = (order.len() - i) as u64;
        before = v;
    }
}

// Makes the list of the variables in the order.
fn make_linked_list(list: &mut Vmtf<'_>, order: &[u32])
    requires ordering { Ordering (length list.old.next.now) order.now }
    requires even { Even (vmtf_in list.old) }
    ensures made { vmtf_in list.new ≡ spec.make_linked_list order.now }
    ensures same_slices { SameSlices list.old list.new }
{
    list.next.fill(NONE);
    list.prev.fill(NONE);
    list.ts.fill(0);
    let start = var_at(order, 0);
    list.at = VmtfState {
        start,
        search: start,
        timestamp: order.len() as u64 + 1,
    };
    link(list, order);
}

// Makes the list of a fresh session. The counts and the indexes are scratch.
pub fn make_fresh(list: &mut Vmtf<'_>, codes: &[u32], counts: &mut [u32], indexes: &mut [u32])
    requires literals { Literals (length list.old.next.now) codes.now }
    requires fresh { Fresh (length list.old.next.now) list.old.prev.now list.old.ts.now counts.old indexes.old }
    ensures made { vmtf_in list.new ≡ spec.new (length list.old.next.now) codes.now }
    ensures same_slices { SameSlices list.old list.new }
    ensures zeros { let zeros : List ℕ = replicate (length list.old.next.now) 0 in
        (counts.new ≡ zeros) × (indexes.new ≡ zeros) }
{
    lit_order(codes, counts, indexes);
    make_linked_list(list, indexes);
    counts.fill(0);
    indexes.fill(0);
}
