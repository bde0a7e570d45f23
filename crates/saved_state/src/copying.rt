// Copying a clause list or a trail into memory that was lent.
ghost use Rattle.std.specs.Prelude.{◌≡◌, ◌≤◌, length, take};

// Copies as much as out has room for from the front of a slice. It is a loop, and no copy_from_slice, which would have a host's archive need memmove
// beside memset and memcpy.
pub fn copy_front<T: Copy>(src: &[T], out: &mut [T])
    requires { length out.old ≤ length src.now }
    ensures { out.new ≡ take (length out.old) src.now }
{
    let front = &src[..out.len()];
    for (i, value) in front.iter().enumerate() {
        out[i] = *value;
    }
}

// Copies a clause list from the fronts of slices.
pub fn copy_clauses(src_lits: &[u32], src_ends: &[u32], lits: &mut [u32], ends: &mut [u32])
    requires { (length lits.old ≤ length src_lits.now) × (length ends.old ≤ length src_ends.now) }
    ensures { (lits.new ≡ take (length lits.old) src_lits.now) × (ends.new ≡ take (length ends.old) src_ends.now) }
{
    copy_front(src_lits, lits);
    copy_front(src_ends, ends);
}

// Copies the lists of a trail from the fronts of slices. They stay flat: a struct of them would be made for this one call.
pub fn copy_trail(
    src_values: &[u8],
    src_levels: &[u32],
    src_reasons: &[u32],
    src_trail: &[u32],
    src_opened: &[u32],
    values: &mut [u8],
    levels: &mut [u32],
    reasons: &mut [u32],
    trail: &mut [u32],
    opened: &mut [u32],
)
    requires { (length values.old ≤ length src_values.now) × (length levels.old ≤ length src_levels.now) × (length reasons.old ≤ length src_reasons.now) × (length trail.old ≤ length src_trail.now) × (length opened.old ≤ length src_opened.now) }
    ensures { (values.new ≡ take (length values.old) src_values.now) × (levels.new ≡ take (length levels.old) src_levels.now) × (reasons.new ≡ take (length reasons.old) src_reasons.now) × (trail.new ≡ take (length trail.old) src_trail.now) × (opened.new ≡ take (length opened.old) src_opened.now) }
{
    copy_front(src_values, values);
    copy_front(src_levels, levels);
    copy_front(src_reasons, reasons);
    copy_front(src_trail, trail);
    copy_front(src_opened, opened);
}
