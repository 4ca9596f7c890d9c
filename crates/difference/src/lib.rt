// What is left of the tiles of one settled list when those of another are taken away, by their locations along the quadtree.
#![tactic(auto)]

ghost use Rattle.std.specs.Prelude.{◌≡◌, map, ◌+◌, ◌*◌, ◌^◌, ◌≤◌, ◌<◌, length, set};
ghost use Rattle.std.proofs.lemmas.List.Edits.{sets};
ghost use Rattle.quadtree.specs.Numbers.{location_of};
ghost use Rattle.quadtree.specs.Locations.{end_of, tiles, Runs};
ghost use Rattle.difference.specs.Left.{left_at, four_at, without};
ghost use Rattle.difference.specs.Walk.{Behind, AtTile, AtFour, Clear, Walked};

// The walk along the quadtree: the tiles taken away and the next of them, where the locations of what is left go, and how many are left
// so far.
#[derive(Drop)]
struct Walk<'a> {
    gone: &'a [u64],
    out: &'a mut [u64],
    next: usize,
    count: usize,
}

// The locations of what is left are written as far as there is room. With no room the answer is how many there are.
pub fn left(kept: &[u64], gone: &[u64], out: &mut [u64]) -> usize
    requires { Runs kept.now × Runs gone.now }
    ensures value { result ≡ length (without kept.now gone.now) }
    ensures out_after { out.new ≡ sets out.old 0 (map location_of (without kept.now gone.now)) }
{
    let mut walk = Walk {
        gone,
        out,
        next: 0,
        count: 0,
    };
    for k in kept {
        walk.tile(*k, quadtree::low_bit(*k));
    }
    walk.count
}

impl<'a> Walk<'a> {
    // A tile is kept, dropped, or handed to its four children. Half its run is `low` long.
    #[cycle(four_tile)]
    fn tile(&mut self, k: u64, low: u64)
        requires { AtTile self.old.gone.now k low self.old.next self.old.count }
        ensures same_reference { self.new.out.ghost_name ≡ self.old.out.ghost_name }
        ensures same_gone { self.new.gone ≡ self.old.gone }
        ensures walked { Walked (left_at self.old.gone.now k) self.old.gone.now (k + low) self.old.count self.old.out.now
            self.new.out.now self.new.next self.new.count }
    {
        self.pass(k - low);
        if self.clear(k + low) {
            self.keep(k);
            return;
        }
        if quadtree::low_bit(self.gone[self.next]) < low {
            self.four(k, low / 4);
        }
    }

    // The four children, in the quadtree's order. Half a child's run is `quarter` long. Most of them are kept, and are not worth a call
    // of `tile`.
    #[cycle(four_tile)]
    fn four(&mut self, k: u64, quarter: u64)
        requires { AtFour self.old.gone.now k quarter self.old.next self.old.count }
        ensures same_reference { self.new.out.ghost_name ≡ self.old.out.ghost_name }
        ensures same_gone { self.new.gone ≡ self.old.gone }
        ensures walked { Walked (four_at self.old.gone.now k) self.old.gone.now (k + 4 * quarter) self.old.count self.old.out.now
            self.new.out.now self.new.next self.new.count }
    {
        for i in 0..4 {
            let child = k - 3 * quarter + 2 * i * quarter;
            if self.clear(child + quarter) {
                self.keep(child);
            } else {
                self.tile(child, quarter);
            }
        }
    }

    // Whether the tiles taken away, from the next one on, start at `end` or after it.
    fn clear(&self, end: u64) -> bool
        requires { Runs self.now.gone.now × (self.now.next ≤ length self.now.gone.now) }
        ensures { Clear result self.now.gone.now self.now.next end }
    {
        match self.gone.get(self.next) {
            None => true,
            Some(g) => end <= *g - quadtree::low_bit(*g),
        }
    }

    // The tiles taken away that end at `start` or before it are passed.
    fn pass(&mut self, start: u64)
        requires runs { Runs self.old.gone.now }
        requires behind { Behind self.old.gone.now start self.old.next }
        ensures same_reference { self.new.out.ghost_name ≡ self.old.out.ghost_name }
        ensures same { (self.new.gone ≡ self.old.gone) × (self.new.out.now ≡ self.old.out.now) × (self.new.count ≡ self.old.count) }
        ensures behind { Behind self.old.gone.now start self.new.next
            × (self.new.next < length self.old.gone.now → start < end_of (tiles self.old.gone.now self.new.next)) }
    {
        // The index is what is looked for; `position` would count from the next one on, and need a proof of the sum in a closure.
        for next in self.next..self.gone.len() {
            let g = self.gone[next];
            if start < g + quadtree::low_bit(g) {
                self.next = next;
                return;
            }
        }
        self.next = self.gone.len();
    }

    // One tile more is left.
    fn keep(&mut self, k: u64)
        requires { self.old.count < 2 ^ 63 }
        ensures same_reference { self.new.out.ghost_name ≡ self.old.out.ghost_name }
        ensures same { (self.new.gone ≡ self.old.gone) × (self.new.next ≡ self.old.next) }
        ensures kept { (self.new.count ≡ self.old.count + 1) × (self.new.out.now ≡ set self.old.out.now self.old.count k) }
    {
        // This test closes with no answer; `get_mut` in its place would read no shorter, and needs one.
        if self.count < self.out.len() {
            self.out[self.count] = k;
        }
        self.count += 1;
    }
}
