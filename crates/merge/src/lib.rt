// The functions of merge.rs on lists of tiles in lent memory: one pass of merging, and both settlings.
#![tactic(auto)]

ghost use Rattle.std.specs.Prelude.{◌≡◌, [], unwrap_or};
ghost use Rattle.errors.specs.Cases.{left};
ghost use Rattle.merge.specs.Merge.{merged_left, merge_of, simplify_v1_of, simplify_of};
ghost use Rattle.work.specs.Work.{count_of, outcome_of};
ghost use Rattle.work.specs.declared.Work.TheVariants.{Simplified};

use errors::Refusal;
use work::{Simplification, Work};

// How many entries the answer has, and whether four siblings became their parent anywhere.
#[derive(Clone, Copy, Debug, PartialEq, Eq)]
pub struct Merged {
    pub count: usize,
    pub changed: bool,
}

// One pass: tiles of zoom above the minimum in groups of four siblings become the parent.
pub fn merge(list: &[u64], minzoom: Option<u8>, out: &mut [u64]) -> Result<Merged, Refusal>
    ensures { merged_left result out.new ≡ merge_of list.now (unwrap_or minzoom 0) out.old }
{
    let m = minzoom.unwrap_or(0);
    let done = boundary::run(
        list,
        &list[..0],
        Work::Simplified(Simplification::Merge),
        m,
        out,
    )?;
    Ok(Merged {
        count: done.count,
        changed: done.yes,
    })
}

// A tile of a zoom z above the minimum m is dropped where the list holds an ancestor of it of zoom z - 1 - m or less; then passes of
// merging until nothing changes.
pub fn simplify_v1(list: &[u64], minzoom: Option<u8>, out: &mut [u64]) -> Result<usize, Refusal>
    ensures { left result out.new ≡ simplify_v1_of list.now (unwrap_or minzoom 0) out.old }
{
    let m = minzoom.unwrap_or(0);
    simplified(list, Simplification::SimplifyV1, m, out)
}

// Tiles under a listed ancestor are dropped; then families whose parent's zoom is at least the minimum become the parent, until none
// is left. At minimum zoom 0 the answer is settled. What it is above that, where no tile listed has a lesser zoom, the crate `floor`
// shows.
pub fn simplify(list: &[u64], minzoom: Option<u8>, out: &mut [u64]) -> Result<usize, Refusal>
    ensures { left result out.new ≡ simplify_of list.now (unwrap_or minzoom 0) out.old }
{
    let m = minzoom.unwrap_or(0);
    simplified(list, Simplification::Simplify, m, out)
}

// How many entries a simplification leaves, and these at the front of `out`.
fn simplified(list: &[u64], which: Simplification, m: u8, out: &mut [u64]) -> Result<usize, Refusal>
    ensures { left result out.new ≡ count_of (outcome_of (Simplified which) m list.now [] out.old) }
{
    Ok(boundary::run(list, &list[..0], Work::Simplified(which), m, out)?.count)
}
