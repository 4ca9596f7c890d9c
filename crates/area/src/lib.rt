// Union, common part and difference of two settled lists in lent memory, and whether a list is settled.
#![tactic(auto)]

ghost use Rattle.std.specs.Prelude.{◌≡◌};
ghost use Rattle.area.specs.Area.{union_of, common_of, difference_of};
ghost use Rattle.errors.specs.Cases.{bool_case, left};
ghost use Rattle.settled.specs.Answers.{is_settled_of};
ghost use Rattle.work.specs.Work.{count_of, outcome_of};
ghost use Rattle.work.specs.declared.Work.TheVariants.{Overlaid};

use errors::Refusal;
use work::{Overlay, Work};

// The ground of either list.
pub fn union(a: &[u64], b: &[u64], out: &mut [u64]) -> Result<usize, Refusal>
    ensures { left result out.new ≡ union_of a.now b.now out.old }
{
    overlaid(a, b, Overlay::Union, out)
}

// The ground of both lists.
pub fn common_part(a: &[u64], b: &[u64], out: &mut [u64]) -> Result<usize, Refusal>
    ensures { left result out.new ≡ common_of a.now b.now out.old }
{
    overlaid(a, b, Overlay::Common, out)
}

// The ground of the first list that is not the second's.
pub fn difference(a: &[u64], b: &[u64], out: &mut [u64]) -> Result<usize, Refusal>
    ensures { left result out.new ≡ difference_of a.now b.now out.old }
{
    overlaid(a, b, Overlay::Difference, out)
}

// How many entries an overlay of two lists has, and these at the front of `out`.
fn overlaid(a: &[u64], b: &[u64], which: Overlay, out: &mut [u64]) -> Result<usize, Refusal>
    ensures { left result out.new ≡ count_of (outcome_of (Overlaid which) 0 a.now b.now out.old) }
{
    Ok(boundary::run(a, b, Work::Overlaid(which), 0, out)?.count)
}

// Whether a list is settled: strictly in order, no tile beside its own ancestor, no four siblings together.
pub fn is_settled(list: &[u64]) -> Result<bool, Refusal>
    ensures { bool_case result ≡ is_settled_of list.now }
{
    let mut none = [0u64; 1];
    let done = boundary::run(list, &list[..0], Work::Tested, 0, &mut none)?;
    Ok(done.yes)
}
