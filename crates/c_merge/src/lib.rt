// What the exported calls of merge.rs and on areas do: each asks the library and hands the answer on in numbers.
#![tactic(auto)]

ghost use Rattle.std.specs.Prelude.{◌≡◌};
ghost use Rattle.area.specs.Area.{common_of, difference_of, union_of};
ghost use Rattle.c_give.specs.Exported.{answered, as_byte, answered_in};
ghost use Rattle.c_merge.specs.Merged.{given_merge, in_numbers};
ghost use Rattle.merge.specs.Merge.{merge_of, simplify_of, simplify_v1_of};
ghost use Rattle.settled.specs.Answers.{is_settled_of};

use merge::Merged;

pub fn merge(list: &[u64], minzoom: u8, out: &mut [u64], count: &mut u64, changed: &mut u8) -> u8
    ensures { given_merge result count.new changed.new out.new
        ≡ in_numbers (merge_of list.now minzoom out.old) }
{
    let none = Merged {
        count: 0,
        changed: false,
    };
    let answer = merge::merge(list, Some(minzoom), out);
    let (number, merged) = c_give::apart(answer, none);
    *count = merged.count as u64;
    *changed = merged.changed as u8;
    number
}

pub fn simplify_v1(list: &[u64], minzoom: u8, out: &mut [u64], count: &mut u64) -> u8
    ensures { answered_in result count.new out.new ≡ simplify_v1_of list.now minzoom out.old }
{
    let answer = merge::simplify_v1(list, Some(minzoom), out);
    c_give::count(answer, count)
}

pub fn simplify(list: &[u64], minzoom: u8, out: &mut [u64], count: &mut u64) -> u8
    ensures { answered_in result count.new out.new ≡ simplify_of list.now minzoom out.old }
{
    let answer = merge::simplify(list, Some(minzoom), out);
    c_give::count(answer, count)
}

pub fn union(a: &[u64], b: &[u64], out: &mut [u64], count: &mut u64) -> u8
    ensures { answered_in result count.new out.new ≡ union_of a.now b.now out.old }
{
    let answer = area::union(a, b, out);
    c_give::count(answer, count)
}

pub fn common_part(a: &[u64], b: &[u64], out: &mut [u64], count: &mut u64) -> u8
    ensures { answered_in result count.new out.new ≡ common_of a.now b.now out.old }
{
    let answer = area::common_part(a, b, out);
    c_give::count(answer, count)
}

pub fn difference(a: &[u64], b: &[u64], out: &mut [u64], count: &mut u64) -> u8
    ensures { answered_in result count.new out.new
        ≡ difference_of a.now b.now out.old }
{
    let answer = area::difference(a, b, out);
    c_give::count(answer, count)
}

pub fn is_settled(list: &[u64], settled: &mut u8) -> u8
    ensures { answered result settled.new ≡ as_byte (is_settled_of list.now) }
{
    c_give::told(area::is_settled(list), settled)
}
