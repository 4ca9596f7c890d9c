// What is done with lists once there is scratch for it: the entries are tested and turned to locations, and handed to what knows
// locations only and refuses nothing.
#![tactic(auto)]

ghost use Rattle.std.specs.Prelude.{◌≡◌, true, [], ◌+◌, ◌*◌, ◌≤◌, ltb, length, take, drop};
ghost use Rattle.constants.specs.Limits.{max_entries};
ghost use Rattle.errors.specs.Cases.{check_number};
ghost use Rattle.overlay.specs.Overlay.{TwoSets};
ghost use Rattle.quadtree.specs.Lists.{sort_key, TileNumbers};
ghost use Rattle.work.specs.Steps.{InScratch, Simplifies, KeyedBoth, SettledBoth, Located, Overlays};
ghost use Rattle.work.specs.Work.{outcome_of, few_of, told_left, sorted_by, overlay_places};
ghost use Rattle.work.specs.declared.Work.TheVariants.{Simplified, Tested, Overlaid};

use errors::Refusal;
use quadtree::Key;

// What leaves fewer tiles of one list. An enum, since the promises and theorems of `outcome_of` speak of its cases.
#[derive(Clone, Copy, Debug, PartialEq, Eq)]
pub enum Simplification {
    Merge,
    SimplifyV1,
    Simplify,
}

// What is made of two settled lists. An enum, since the promises and theorems of `outcome_of` speak of its cases.
#[derive(Clone, Copy, Debug, PartialEq, Eq)]
pub enum Overlay {
    Union,
    Common,
    Difference,
}

// What is done with lists. Only an overlay has a second one; for the others it is empty.
// An enum and no closure, since the promises and theorems of `outcome_of` speak of its cases.
#[derive(Clone, Copy, Debug, PartialEq, Eq)]
pub enum Work {
    Simplified(Simplification),
    Tested,
    Overlaid(Overlay),
}

// What a work says where nothing is refused.
#[derive(Clone, Copy, Debug, PartialEq, Eq)]
pub struct Outcome {
    // How many entries the answer has.
    pub count: usize,
    // Whether a merge joined anything, or the tested list is settled.
    pub yes: bool,
}

// `b` and `m` stand beside the work and not in its cases: the promise `outcome_of` takes them so, whichever the work is.
// What is done with lists of entries. Nothing is written to the lent memory before the last refusal is decided.
pub fn work_in(
    a: &[u64],
    b: &[u64],
    work: Work,
    m: u8,
    out: &mut [u64],
    keys: &mut [u64],
    spare: &mut [u64],
) -> Result<Outcome, Refusal>
    requires { InScratch a.now b.now (length keys.old) }
    ensures { told_left result out.new ≡ outcome_of work m a.now b.now out.old }
{
    let n = a.len();
    match work {
        Work::Simplified(which) => simplified(a, which, m, out, &mut keys[..n]),
        Work::Tested => tested(a, &mut keys[..n], spare),
        Work::Overlaid(which) => overlaid(a, b, which, out, keys, spare),
    }
}

fn simplified(
    a: &[u64],
    which: Simplification,
    m: u8,
    out: &mut [u64],
    keys: &mut [u64],
) -> Result<Outcome, Refusal>
    requires { (length a.now ≡ length keys.old) × (length a.now ≤ max_entries) }
    ensures { told_left result out.new ≡ few_of (Simplified which) m a.now [] out.old }
{
    if !quadtree::keys(a, keys, sorted_by(which)) {
        return Err(Refusal::NoTile);
    }
    let n = a.len();
    if out.len() < n {
        return Err(Refusal::Memory);
    }
    Ok(write_simplified(keys, which, m, &mut out[..n]))
}

// The number of its tiles that a list is sorted by.
fn sorted_by(which: Simplification) -> Key
    ensures { result ≡ sorted_by which }
{
    match which {
        Simplification::Merge => Key::Morton,
        Simplification::SimplifyV1 | Simplification::Simplify => Key::Location,
    }
}

fn write_simplified(keys: &mut [u64], which: Simplification, m: u8, out: &mut [u64]) -> Outcome
    requires tile_numbers { TileNumbers (sort_key (sorted_by which)) keys.old × (length keys.old ≡ length out.old) }
    requires keys_len_bound { length keys.old ≤ max_entries }
    ensures { Simplifies which m keys.old out.new result }
{
    match which {
        Simplification::Merge => {
            let joined = families::merged(keys, out, m);
            Outcome {
                count: joined.count,
                yes: joined.changed,
            }
        }
        Simplification::SimplifyV1 => Outcome {
            count: ancestors::simplified_v1(keys, out, m),
            yes: false,
        },
        Simplification::Simplify => Outcome {
            count: settle::simplified(keys, out, m),
            yes: false,
        },
    }
}

// Whether the list is settled.
fn tested(a: &[u64], keys: &mut [u64], spare: &mut [u64]) -> Result<Outcome, Refusal>
    requires { length a.now ≡ length keys.old }
    ensures { told_left result [] ≡ few_of Tested 0 a.now [] [] }
{
    if !quadtree::keys(a, keys, Key::Location) {
        return Err(Refusal::NoTile);
    }
    Ok(Outcome {
        count: 0,
        yes: settled::settled(a, keys, spare),
    })
}

fn overlaid(
    a: &[u64],
    b: &[u64],
    which: Overlay,
    out: &mut [u64],
    keys: &mut [u64],
    spare: &mut [u64],
) -> Result<Outcome, Refusal>
    requires { InScratch a.now b.now (length keys.old) }
    ensures { told_left result out.new ≡ few_of (Overlaid which) 0 a.now b.now out.old }
{
    let n = a.len();
    let both = n + b.len();
    located(a, b, &mut keys[..both], spare)?;
    if out.len() < places(which, &keys[..both], n, out.len()) {
        return Err(Refusal::Memory);
    }
    Ok(Outcome {
        count: write_overlay(which, keys, n, both, out),
        yes: false,
    })
}

// The locations of both lists' tiles, each list's in order, or the refusal of the two.
fn located(a: &[u64], b: &[u64], keys: &mut [u64], spare: &mut [u64]) -> Result<(), Refusal>
    requires { length a.now + length b.now ≡ length keys.old }
    ensures { Located a.now b.now keys.new (check_number result) }
{
    if !keyed(a, b, keys) {
        return Err(Refusal::NoTile);
    }
    if !both_settled(a, b, keys, spare) {
        return Err(Refusal::NotSettled);
    }
    Ok(())
}

// The locations of both lists' tiles, one list's behind the other's, or that a number of the two is no tile's.
fn keyed(a: &[u64], b: &[u64], keys: &mut [u64]) -> bool
    requires { length a.now + length b.now ≡ length keys.old }
    ensures { KeyedBoth a.now b.now keys.new result }
{
    let n = a.len();
    if !quadtree::keys(a, &mut keys[..n], Key::Location) {
        return false;
    }
    quadtree::keys(b, &mut keys[n..], Key::Location)
}

// Whether both lists are settled; then the locations of each stand in order.
fn both_settled(a: &[u64], b: &[u64], keys: &mut [u64], spare: &mut [u64]) -> bool
    requires { (length a.now + length b.now ≡ length keys.old) × KeyedBoth a.now b.now keys.old true }
    ensures { SettledBoth a.now b.now keys.new result }
{
    let n = a.len();
    if !settled::settled(a, &mut keys[..n], spare) {
        return false;
    }
    settled::settled(b, &mut keys[n..], spare)
}

// The places that are asked for, or more where there is room for more.
fn places(which: Overlay, locations: &[u64], n: usize, room: usize) -> usize
    requires { TwoSets locations.now n × (length locations.now ≤ 2 * max_entries) }
    ensures { ltb room result ≡ ltb room (overlay_places which (take n locations.now) (drop n locations.now)) }
{
    match which {
        Overlay::Union | Overlay::Common => locations.len(),
        Overlay::Difference => overlay::left_places(locations, n, room),
    }
}

fn write_overlay(which: Overlay, keys: &mut [u64], n: usize, both: usize, out: &mut [u64]) -> usize
    requires both_in_bounds { (both ≤ length keys.old) × TwoSets (take both keys.old) n }
    requires keys_in_bounds { overlay_places which (take n (take both keys.old)) (drop n (take both keys.old)) ≤ length out.old }
    ensures { Overlays which (take n (take both keys.old)) (drop n (take both keys.old)) out.old
        out.new result }
{
    match which {
        Overlay::Union => overlay::union(keys, n, both, &mut out[..both]),
        Overlay::Common => overlay::common_part(keys, n, both, &mut out[..both]),
        Overlay::Difference => overlay::difference(keys, n, both, out),
    }
}
