// Areas, which the Rust does not have: the calls on settled lists. Settled means in the order of nori_cmp, each tile once, no
// tile beside its own ancestor, no four siblings together: no shorter list covers the same ground, and no other settled one.
ghost use Rattle.std.specs.Prelude.{◌≡◌};
ghost use Rattle.area.specs.Area.{common_of, difference_of, union_of};
ghost use Rattle.c_give.specs.Exported.{answered, as_byte, answered_in};
ghost use Rattle.settled.specs.Answers.{is_settled_of};

// The settled list of the ground in either list. out needs a place for each entry of both; those that the answer leaves
// are set to 0.
// Refused: 6, 7, 11, 12.
#[unsafe(no_mangle)]
pub extern "C" fn nori_union(a: &[u64], b: &[u64], out: &mut [u64], count: &mut u64) -> u8
    ensures { answered_in result count.new out.new ≡ union_of a.now b.now out.old }
{
    c_merge::union(a, b, out, count)
}

// The settled list of the ground in both lists. out needs a place for each entry of both; those that the answer leaves
// are set to 0.
// Refused: 6, 7, 11, 12.
#[unsafe(no_mangle)]
pub extern "C" fn nori_common_part(a: &[u64], b: &[u64], out: &mut [u64], count: &mut u64) -> u8
    ensures { answered_in result count.new out.new ≡ common_of a.now b.now out.old }
{
    c_merge::common_part(a, b, out, count)
}

// The settled list of the ground in a and not in b, which may have more entries than both lists together: at most one for each
// of a, and 3 * NORI_MAX_ZOOM for each of b. With so many places it is made a little faster.
// Refused: 6, 7, 11, 12.
#[unsafe(no_mangle)]
pub extern "C" fn nori_difference(a: &[u64], b: &[u64], out: &mut [u64], count: &mut u64) -> u8
    ensures { answered_in result count.new out.new
        ≡ difference_of a.now b.now out.old }
{
    c_merge::difference(a, b, out, count)
}

// Whether a list is settled.
// Refused: 6, 7.
#[unsafe(no_mangle)]
pub extern "C" fn nori_is_settled(list: &[u64], settled: &mut u8) -> u8
    ensures { answered result settled.new ≡ as_byte (is_settled_of list.now) }
{
    c_merge::is_settled(list, settled)
}
