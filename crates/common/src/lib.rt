// The common part of two settled sets, by the locations of their tiles along the quadtree.
#![tactic(auto)]

ghost use Rattle.std.specs.Prelude.{◌+◌, ◌≤◌, length};
ghost use Rattle.quadtree.specs.Locations.{Runs};
ghost use Rattle.common.specs.Common.{Common};

// The tiles of either list that lie in a tile of the other, by their locations. The answer says how many they are.
pub fn common(a: &[u64], b: &[u64], out: &mut [u64]) -> usize
    requires { Runs a.now × Runs b.now × (length a.now + length b.now ≤ length out.old) }
    ensures { Common a.now b.now out.new result }
{
    let mut i = 0;
    let mut j = 0;
    let mut n = 0;
    // Each turn finds out which of the two lists goes on, so neither is gone over by a `for`, nor the two by `zip`.
    while i < a.len() && j < b.len() {
        let p = a[i];
        let q = b[j];
        let l = quadtree::low_bit(p);
        let m = quadtree::low_bit(q);
        if p + l <= q - m {
            i += 1;
        } else if q + m <= p - l {
            j += 1;
        } else if l <= m {
            out[n] = p;
            n += 1;
            i += 1;
        } else {
            out[n] = q;
            n += 1;
            j += 1;
        }
    }
    n
}
