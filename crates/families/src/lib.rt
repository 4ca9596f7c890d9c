// One pass over sorted Morton codes: four siblings that stand together become their parent.
#![tactic(auto)]

ghost use Rattle.std.specs.Prelude.{◌≡◌, ◌<◌, ◌≤◌, length, take, drop, get_or};
ghost use Rattle.families.specs.Join.{four_from, join_of, first_morton};
ghost use Rattle.families.specs.Pass.{Passed, Merges, Still};
ghost use Rattle.quadtree.specs.Lists.{TileNumber, TileNumbers};
ghost use Rattle.quadtree.specs.Numbers.{morton_of};
ghost use Rattle.sort.specs.Sort.{By};

use constants::MAX_ZOOM;
use quadtree::Key;

// What a pass leaves at the front, and whether it joined anything. The count is read in both cases, so this is no `Option`.
#[derive(Clone, Copy, Debug, PartialEq, Eq)]
pub struct Joined {
    pub count: usize,
    pub changed: bool,
}

// One pass of merging at minimum zoom m, from the Morton codes of a set to the merged set as a list.
pub fn merged(codes: &mut [u64], out: &mut [u64], m: u8) -> Joined
    requires { TileNumbers morton_of codes.old × (length codes.old ≡ length out.old) }
    ensures { Merges m codes.old out.new result }
{
    sort::sort_into(codes, out);
    let joined = pass(out, m);
    let count = tile_list::finish(out, joined.count, codes, Key::Morton);
    Joined { count, ..joined }
}

// One pass over Morton codes in order.
pub fn pass(codes: &mut [u64], m: u8) -> Joined
    requires { TileNumbers morton_of codes.old × By (λ n. n) codes.old }
    ensures { Passed m codes.old codes.new result }
{
    let once = sort::once(codes);
    let count = join(&mut codes[..once], first_morton(m));
    Joined {
        count,
        changed: count < once,
    }
}

// Passes of merging over the first `count` Morton codes until nothing changes. Each pass takes a zoom, so there are no more than MAX_ZOOM.
pub fn passes(codes: &mut [u64], count: usize, scratch: &mut [u64], m: u8) -> usize
    requires count_in_bounds { (count ≤ length codes.old) × (length codes.old ≡ length scratch.old) }
    requires tile_numbers { TileNumbers morton_of (take count codes.old) }
    ensures { Still m (take count codes.old) codes.new result }
{
    // `count` stays beside `codes`: the contract is public and fixed, and speaks of all of `codes` at the end.
    let mut left = count;
    for _ in 0..MAX_ZOOM {
        let joined = sorted_pass(&mut codes[..left], &mut scratch[..left], m);
        left = joined.count;
        if !joined.changed {
            return left;
        }
    }
    left
}

// One pass over Morton codes in any order.
fn sorted_pass(codes: &mut [u64], scratch: &mut [u64], m: u8) -> Joined
    requires { TileNumbers morton_of codes.old × (length codes.old ≡ length scratch.old) }
    ensures { Passed m codes.old codes.new result }
{
    sort::sort(codes, scratch);
    pass(codes, m)
}

// The least Morton code of a zoom above m.
fn first_morton(m: u8) -> u64
    ensures { result ≡ first_morton m }
{
    bits::wide_pow2(2 * (m.min(MAX_ZOOM) + 1))
}

// Families of Morton codes from `from` on are joined. What is left stands at the front, and the answer says how many numbers it is.
fn join(codes: &mut [u64], from: u64) -> usize
    requires { TileNumbers morton_of codes.old × (1 < from) }
    ensures { (result ≤ length codes.new) × (take result codes.new ≡ join_of from codes.old) }
{
    let mut count = 0;
    let mut i = 0;
    // A family is passed at one step, so this is no `for`.
    while i < codes.len() {
        let q = codes[i];
        if starts_with_family(&codes[i..], from) {
            codes[count] = q / 4;
            i += 4;
        } else {
            codes[count] = q;
            i += 1;
        }
        count += 1;
    }
    count
}

// Whether a family stands first: its first tile is left by the first digit, and the codes rise, so the first and the fourth decide.
fn starts_with_family(codes: &[u64], from: u64) -> bool
    requires { TileNumber morton_of (get_or codes.now 0 0) × (1 < from) }
    ensures { result ≡ four_from from codes.now }
{
    let [first, _, _, fourth, ..] = codes else {
        return false;
    };
    if *first < from {
        return false;
    }
    if child_digit::of_morton(*first) != b'0' {
        return false;
    }
    *first + 3 == *fourth
}
