// The trail, the heap and the list of a saved session, set from the numbers of its lines.
ghost use Rattle.std.specs.Prelude.{◌≡◌, ℕ, ◌<◌, ◌≤◌, length, get_or, take};
ghost use Rattle.lit.specs.Numbers.{NONE as none};
ghost use Rattle.trail.specs.Memory as trail;
ghost use Rattle.trail.specs.Memory.{trail_in, Sized};
ghost use Rattle.vsids.specs.Memory as vsids;
ghost use Rattle.vsids.specs.Memory.{vsids_in};
ghost use Rattle.vmtf.specs.Vmtf as vmtf;
ghost use Rattle.vmtf.specs.Vmtf.{vmtf_in, Vars};
ghost use Rattle.saved_state.specs.Said.{trail_from, heap_from, list_from};
ghost use Rattle.saved_state.specs.Loops.{Codes};

use crate::loading::{
    doubles, links, open_levels, pad, positions, set_values, stamps, store, switches, variable,
};
use activity::Step;
use forms::text::double;
use trail::{Trail, TrailState};
use vmtf::{Vmtf, VmtfState};
use vsids::{Vsids, VsidsState};

// The trail of the k codes in its front, with their levels and reasons.
pub fn set_trail(t: &mut Trail<'_>, k: usize, curr: u32, level_row: &[u32], reason_row: &[u32])
    requires lengths { Sized (length t.old.values.now) (trail_in t.old) × (length t.old.values.now ≤ none) }
    requires k_in_bounds { (k ≤ length t.old.values.now) × Codes (length t.old.values.now) (take k t.old.codes.now) × (length level_row.now ≡ k) × (length reason_row.now ≡ k) }
    ensures set { trail_in t.new ≡ trail_from (length t.old.values.now) (take k t.old.codes.now) level_row.now reason_row.now curr }
    ensures same_slices { trail.SameSlices t.old t.new }
    ensures same_lengths { Sized (length t.old.values.now) (trail_in t.new) }
{
    let values: &mut [u8] = t.values;
    let levels: &mut [u32] = t.levels;
    let reasons: &mut [u32] = t.reasons;
    let codes: &mut [u32] = t.codes;
    set_values(&codes[..k], values);
    store(&codes[..k], level_row, levels);
    store(&codes[..k], reason_row, reasons);
    pad(codes, k);
    let level = open_levels(level_row, t.opened);
    t.at = TrailState {
        len: k as u32,
        level,
        curr_i: curr,
    };
}

// The heap of the k members in its front, with the activities' bits and the switches.
pub fn set_heap(h: &mut Vsids<'_>, k: usize, bits: &[u64], switch_row: &[u32], inc: u64, decay: u64)
    requires activity_len { (length h.old.activity.now ≡ length h.old.heap.now) × (length h.old.indices.now ≡ length h.old.heap.now) × (length h.old.decision.now ≡ length h.old.heap.now) × (length h.old.heap.now ≤ none) }
    requires k_in_bounds { (k ≤ length h.old.heap.now) × Vars (length h.old.heap.now) (take k h.old.heap.now) × (length bits.now ≡ length h.old.heap.now) × (length switch_row.now ≡ length h.old.heap.now) }
    requires by_index { (v : ℕ) → v < length switch_row.now → get_or switch_row.now v 0 < 256 }
    ensures set { vsids_in h.new ≡ heap_from (length h.old.heap.now) (take k h.old.heap.now) bits.now switch_row.now inc decay }
    ensures same_slices { vsids.SameSlices h.old h.new }
    ensures same_lengths { (length h.new.activity.now ≡ length h.old.heap.now) × (length h.new.heap.now ≡ length h.old.heap.now) × (length h.new.indices.now ≡ length h.old.heap.now) × (length h.new.decision.now ≡ length h.old.heap.now) }
{
    doubles(bits, h.activity);
    switches(switch_row, h.decision);
    let heap: &mut [u32] = h.heap;
    let indices: &mut [u32] = h.indices;
    positions(&heap[..k], indices);
    pad(heap, k);
    h.at = VsidsState {
        len: k as u32,
        step: Step {
            inc: double(inc),
            decay: double(decay),
        },
    };
}

// The list in this order, with these stamps.
pub fn set_list(list: &mut Vmtf<'_>, order: &[u32], stamp_row: &[u64], timestamp: u64, search: u32)
    requires { (length list.old.prev.now ≡ length list.old.next.now) × (length list.old.ts.now ≡ length list.old.next.now) × Vars (length list.old.next.now) order.now × (length stamp_row.now ≡ length order.now) }
    ensures set { vmtf_in list.new ≡ list_from (length list.old.next.now) order.now stamp_row.now timestamp search }
    ensures same_slices { vmtf.SameSlices list.old list.new }
    ensures same_lengths { (length list.new.next.now ≡ length list.old.next.now) × (length list.new.prev.now ≡ length list.old.next.now) × (length list.new.ts.now ≡ length list.old.next.now) }
{
    links(order, list.next, list.prev);
    stamps(order, stamp_row, list.ts);
    list.at = VmtfState {
        start: variable(order, 0),
        search,
        timestamp,
    };
}
