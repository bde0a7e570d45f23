// How the list is made and moved: the moves of variables to the front of the move-to-front list, one by one and as a group.
#![tactic(auto)]

mod order;

ghost use Rattle.std.specs.Prelude.{◌≡◌, ◌≢◌, List, ℕ, ◌<◌, length, replicate};
ghost use Rattle.vmtf.specs.Vmtf as spec;
ghost use Rattle.vmtf.specs.Vmtf.{vmtf_in, SameSlices, Links, Safe, Vars, Group};

use lit::NONE;
use order::group_order;
use vmtf::Vmtf;

pub mod creation;

// Stamps the variables from the front on along the next links, as many as there are down to 1.
fn renumber(list: &mut Vmtf<'_>)
    requires { Links (length list.old.ts.now) list.old.next.now list.old.at.start }
    ensures renumbered { let before = vmtf_in list.old in
        let ts = spec.renumber before.next (length before.next) before.start before.ts in
        vmtf_in list.new ≡ spec.with_stamps ts before.timestamp before }
    ensures same_slices { SameSlices list.old list.new }
{
    let mut curr = list.at.start;
    for score in (0..list.next.len() + 1).rev() {
        if curr == NONE {
            return;
        }
        list.ts[curr as usize] = score as u64;
        curr = list.next[curr as usize];
    }
}

// Stamps the whole list anew, so that stamps are small again. It leaves the links before a variable, whatever they are.
fn rescore(list: &mut Vmtf<'_>)
    requires { Links (length list.old.ts.now) list.old.next.now list.old.at.start }
    ensures rescored { vmtf_in list.new ≡ spec.rescore (vmtf_in list.old) }
    ensures same_slices { SameSlices list.old list.new }
{
    renumber(list);
    list.at.timestamp = list.next.len() as u64 + 1;
}

// Takes v, which is not at the front, out of the links and puts it before the front, with the next stamp.
fn relink(list: &mut Vmtf<'_>, v: u32)
    requires safe { Safe (length list.old.next.now) (vmtf_in list.old) }
    requires v_in_bounds { (v < length list.old.next.now) × (v ≢ list.old.at.start) }
    ensures relinked { vmtf_in list.new ≡ spec.relink v (vmtf_in list.old) }
    ensures same_slices { SameSlices list.old list.new }
{
    let start = list.at.start;
    let before = list.prev[v as usize];
    let after = list.next[v as usize];
    list.prev[v as usize] = NONE;
    list.next[v as usize] = start;
    list.ts[v as usize] = list.at.timestamp;
    list.prev[start as usize] = v;
    list.next[before as usize] = after;
    if after != NONE {
        list.prev[after as usize] = before;
    }
    list.at.start = v;
}

// The next timestamp; after the largest stamp the list is stamped anew.
fn tick(list: &mut Vmtf<'_>)
    requires { Links (length list.old.ts.now) list.old.next.now list.old.at.start }
    ensures ticked { vmtf_in list.new ≡ spec.tick (vmtf_in list.old) }
    ensures same_slices { SameSlices list.old list.new }
{
    if list.at.timestamp == u64::MAX {
        rescore(list);
    } else {
        list.at.timestamp += 1;
    }
}

// Moves a variable to the front with a new stamp, unless it is there.
fn move_to_front(list: &mut Vmtf<'_>, tomove: u32)
    requires safe { Safe (length list.old.next.now) (vmtf_in list.old) }
    requires tomove_in_bounds { tomove < length list.old.next.now }
    ensures moved { vmtf_in list.new ≡ spec.move_to_front tomove (vmtf_in list.old) }
    ensures same_slices { SameSlices list.old list.new }
{
    if tomove != list.at.start {
        relink(list, tomove);
        tick(list);
    }
}

// Moves variables to the front, one after the other.
fn move_all(list: &mut Vmtf<'_>, vars: &[u32])
    requires safe { Safe (length list.old.next.now) (vmtf_in list.old) }
    requires vars { Vars (length list.old.next.now) vars.now }
    ensures moved { vmtf_in list.new ≡ spec.move_all vars.now (vmtf_in list.old) }
    ensures same_slices { SameSlices list.old list.new }
{
    for &v in vars {
        move_to_front(list, v);
    }
}

// Moves a group to the front, in rising order of the stamps that its variables have at entry. The stamps and the order are scratch.
pub fn bump_vec_of_vars(list: &mut Vmtf<'_>, vars: &[u32], stamps: &mut [u64], order: &mut [u32])
    requires safe { Safe (length list.old.next.now) (vmtf_in list.old) }
    requires group { Group vars.now list.old.ts.now stamps.old order.old }
    ensures moved { vmtf_in list.new ≡ spec.bump_vec_of_vars vars.now (vmtf_in list.old) }
    ensures same_slices { SameSlices list.old list.new }
    ensures zeros { let zeros : List ℕ = replicate (length vars.now) 0 in
        (stamps.new ≡ zeros) × (order.new ≡ zeros) }
{
    group_order(list, vars, stamps, order);
    move_all(list, order);
    stamps.fill(0);
    order.fill(0);
}
