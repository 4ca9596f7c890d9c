// Lists of tiles in any order, repeats read as one: the calls of merge.rs. The answer is in the order of nori_cmp. out needs a
// place for each entry of the list; those that the answer leaves are set to 0. The minimum zoom is any byte, the Rust's None is 0.
ghost use Rattle.std.specs.Prelude.{◌≡◌};
ghost use Rattle.c_give.specs.Exported.{answered_in};
ghost use Rattle.c_merge.specs.Merged.{given_merge, in_numbers};
ghost use Rattle.merge.specs.Merge.{merge_of, simplify_of, simplify_v1_of};

// One pass: each four siblings of a zoom above minzoom become their parent. changed says whether any did.
// Refused: 6, 7, 12.
#[unsafe(no_mangle)]
pub extern "C" fn nori_merge(
    list: &[u64],
    minzoom: u8,
    out: &mut [u64],
    count: &mut u64,
    changed: &mut u8,
) -> u8
    ensures { given_merge result count.new changed.new out.new
        ≡ in_numbers (merge_of list.now minzoom out.old) }
{
    c_merge::merge(list, minzoom, out, count, changed)
}

// Drops each tile of a zoom z above minzoom that has a listed ancestor of zoom 0 to z - 1 - minzoom, then merges by
// nori_merge until nothing changes.
// Refused: 6, 7, 12.
#[unsafe(no_mangle)]
pub extern "C" fn nori_simplify_v1(
    list: &[u64],
    minzoom: u8,
    out: &mut [u64],
    count: &mut u64,
) -> u8
    ensures { answered_in result count.new out.new ≡ simplify_v1_of list.now minzoom out.old }
{
    c_merge::simplify_v1(list, minzoom, out, count)
}

// Drops each tile that has a listed ancestor, then merges four siblings wherever their parent's zoom is at least minzoom.
// At 0 the answer is settled. Where every tile listed has zoom minzoom or more, equal ground gives equal lists, and no
// list of tiles of zoom minzoom or more that covers just that ground is shorter.
// Refused: 6, 7, 12.
#[unsafe(no_mangle)]
pub extern "C" fn nori_simplify(list: &[u64], minzoom: u8, out: &mut [u64], count: &mut u64) -> u8
    ensures { answered_in result count.new out.new ≡ simplify_of list.now minzoom out.old }
{
    c_merge::simplify(list, minzoom, out, count)
}
