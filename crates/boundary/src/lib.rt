// The boundary of the calls on lists: it owns the scratch. Entries come in and go out; what works in the scratch knows the locations of
// their tiles.
#![tactic(auto)]

ghost use Rattle.std.specs.Prelude.{◌≡◌, ◌+◌, ◌*◌, ◌^◌, ◌<◌, ◌≤◌};
ghost use Rattle.constants.specs.Limits.{max_entries};
ghost use Rattle.work.specs.Steps.{InScratch};
ghost use Rattle.work.specs.Work.{outcome_of, told_left};

use constants::MAX_ENTRIES;
use errors::Refusal;
use work::{Outcome, Work};

// The scratch has to be cleared, so it is not much longer than the lists. A rung of N takes two lists of N entries, or one of 2 * N: it
// has keys for both, and N spare places to sort them by.
const TINY: usize = 16;

const TINY_KEYS: usize = 2 * TINY;

const SHORT: usize = 128;

const SHORT_KEYS: usize = 2 * SHORT;

const MEDIUM: usize = 1024;

const MEDIUM_KEYS: usize = 2 * MEDIUM;

const LONG: usize = 4096;

const LONG_KEYS: usize = 2 * LONG;

const LONGER: usize = 32768;

const LONGER_KEYS: usize = 2 * LONGER;

const LONGEST_KEYS: usize = 2 * MAX_ENTRIES;

#[derive(Clone, Copy)]
enum Rung {
    Short,
    Medium,
    Long,
    Longer,
    Longest,
}

// What the work says, and the answer's entries at the front of `out`.
// The work is an enum and no closure: the promise `outcome_of` and its theorems speak of its cases.
pub fn run(a: &[u64], b: &[u64], work: Work, m: u8, out: &mut [u64]) -> Result<Outcome, Refusal>
    ensures { told_left result out.new ≡ outcome_of work m a.now b.now out.old }
{
    if a.len() > MAX_ENTRIES {
        return Err(Refusal::TooMany);
    }
    if b.len() > MAX_ENTRIES {
        return Err(Refusal::TooMany);
    }
    let need = need(work, a.len(), b.len());
    if need <= TINY {
        // So few entries are sorted in place, and there is no spare memory to be cleared.
        return in_scratch::<TINY_KEYS, 0>(a, b, work, m, out);
    }
    climb(a, b, work, m, out, need, Rung::Short)
}

// The rung that lists of n and k entries need at least. Both lists of an overlay are sorted, each by way of the spare part.
fn need(work: Work, n: usize, k: usize) -> usize
    requires { (n ≤ max_entries) × (k ≤ max_entries) }
    ensures { (n + k ≤ 2 * result) × (result ≤ max_entries) }
{
    match work {
        Work::Simplified(_) => (n + k).div_ceil(2),
        Work::Tested | Work::Overlaid(_) => n.max(k),
    }
}

// From rung to rung until the scratch is long enough. Each scratch stands in an instance of `in_scratch` of its own. The compiler joins
// such a function to its caller, but not to a caller that calls itself: so a shorter list does not pay for the stack of a longer one.
fn climb(
    a: &[u64],
    b: &[u64],
    work: Work,
    m: u8,
    out: &mut [u64],
    need: usize,
    rung: Rung,
) -> Result<Outcome, Refusal>
    requires { InScratch a.now b.now (2 * need) }
    ensures { told_left result out.new ≡ outcome_of work m a.now b.now out.old }
{
    match rung {
        Rung::Short => {
            if need <= SHORT {
                return in_scratch::<SHORT_KEYS, SHORT>(a, b, work, m, out);
            }
            climb(a, b, work, m, out, need, Rung::Medium)
        }
        Rung::Medium => {
            if need <= MEDIUM {
                return in_scratch::<MEDIUM_KEYS, MEDIUM>(a, b, work, m, out);
            }
            climb(a, b, work, m, out, need, Rung::Long)
        }
        Rung::Long => {
            if need <= LONG {
                return in_scratch::<LONG_KEYS, LONG>(a, b, work, m, out);
            }
            climb(a, b, work, m, out, need, Rung::Longer)
        }
        Rung::Longer => {
            if need <= LONGER {
                return in_scratch::<LONGER_KEYS, LONGER>(a, b, work, m, out);
            }
            climb(a, b, work, m, out, need, Rung::Longest)
        }
        Rung::Longest => in_scratch::<LONGEST_KEYS, MAX_ENTRIES>(a, b, work, m, out),
    }
}

// The work with keys for both lists, and with spare places.
fn in_scratch<const KEYS: usize, const SPARE: usize>(
    a: &[u64],
    b: &[u64],
    work: Work,
    m: u8,
    out: &mut [u64],
) -> Result<Outcome, Refusal>
    requires fits { InScratch a.now b.now KEYS }
    requires small { (KEYS < 2 ^ 32) × (SPARE < 2 ^ 32) }
    ensures { told_left result out.new ≡ outcome_of work m a.now b.now out.old }
{
    // Fixed memory, and so the rungs: nothing is taken from the heap, which is a rule of the project.
    let mut keys = [0u64; KEYS];
    let mut spare = [0u64; SPARE];
    work::work_in(a, b, work, m, out, &mut keys, &mut spare)
}
