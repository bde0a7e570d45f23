// The order by which a group is moved, in lent scratch: its variables by their stamps.
ghost use Rattle.std.specs.Prelude.{◌≡◌, length};
ghost use Rattle.vmtf.specs.Vmtf as spec;
ghost use Rattle.vmtf.specs.Vmtf.{Vars, Group};

use group_sort::sort_by_stamp;
use vmtf::Vmtf;

// Copies a group and puts each variable's stamp beside it.
fn read_stamps(list: &Vmtf<'_>, vars: &[u32], stamps: &mut [u64], order: &mut [u32])
    requires vars { Vars (length list.now.ts.now) vars.now }
    requires stamps_len { (length stamps.old ≡ length vars.now) × (length order.old ≡ length vars.now) }
    ensures { (stamps.new ≡ spec.stamps_of list.now.ts.now vars.now) × (order.new ≡ vars.now) }
{
    for (i, &v) in vars.iter().enumerate() {
        stamps[i] = list.ts[v as usize];
        order[i] = v;
    }
}

// The variables of a group, rising by their stamps.
pub(crate) fn group_order(list: &Vmtf<'_>, vars: &[u32], stamps: &mut [u64], order: &mut [u32])
    requires { Group vars.now list.now.ts.now stamps.old order.old }
    ensures { order.new ≡ spec.by_stamp list.now.ts.now vars.now }
{
    read_stamps(list, vars, stamps, order);
    sort_by_stamp(stamps, order);
}
