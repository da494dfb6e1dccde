// Parts in order inside a slice, given by their boundaries, for both editions.
ghost use Rattle.std.specs.Prelude.{◌≡◌, suc, ◌+◌, ◌<◌, length, get_or, drop};
ghost use Rattle.share_format.specs.Bounds.{in_order, part_of};
ghost use Rattle.share_format.specs.Facts.{PartInside};

// Whether each part has at least its least size. The boundaries are compared as they stand; only those that are in
// order are used as places in the slice.
pub fn in_order(bounds: &[u64], least: &[u64]) -> bool
    requires { length bounds.now ≡ suc (length least.now) }
    ensures { result
        ≡ in_order least.now (get_or bounds.now 0 0) (drop 1 bounds.now) }
{
    for (i, &m) in least.iter().enumerate() {
        let a = bounds[i];
        let b = bounds[i + 1];
        if b < a {
            return false;
        }
        if b - a < m {
            return false;
        }
    }
    true
}

// Part i, from boundary i to boundary i + 1.
pub fn part(s: &[u8], bounds: [u64; 8], i: usize) -> &[u8]
    requires { (i < 7) × PartInside bounds (length s.now) i }
    ensures bytes { result.now ≡ part_of i bounds s.now }
    ensures place { result.ref_ptr ≡ (s.entry.ref_ptr.0, s.entry.ref_ptr.1 + get_or bounds i 0) }
{
    let a = bounds[i] as usize;
    let e = bounds[i + 1] as usize;
    &s[a..e]
}
