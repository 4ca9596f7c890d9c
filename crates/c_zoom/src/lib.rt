// What the exported calls of zoom.rs do: each asks the crate `zoom` or `zoom_ranges` and hands the answer on in numbers.
#![tactic(auto)]

ghost use Rattle.std.specs.Prelude.{◌≡◌, suc, ◌-◌, ◌^◌};
ghost use Rattle.std.specs.Int.Bits.{bit_and};
ghost use Rattle.c_give.specs.Exported.{answered, answered_in, never};
ghost use Rattle.c_zoom.specs.Ranges.{given_two};
ghost use Rattle.errors.specs.Answer.{written};
ghost use Rattle.zoom.specs.Zooms.{and_zoom, max_xY, range_set, zoom_bit, zoom_bit_rev, zoom_set_case, zooms_of, zooms_of_rev, zvec_set, zvec_set_rev};
ghost use Rattle.zoom_bits.specs.Bits.{last_zoom};
ghost use Rattle.zoom_ranges.specs.Ranges.{range_of, ranges_of};

use errors::Refusal;
use zoom::ZoomSet;
use zoom_ranges::ZoomRange;

pub fn zoom_max_xy(zoom: u8, max: &mut u32) -> u8
    ensures { answered result max.new ≡ max_xY zoom }
{
    c_give::value(zoom::zoom_max_xy(zoom), 0, max)
}

pub fn zset2zvec(zset: u32, out: &mut [u8], count: &mut u64) -> u8
    ensures { answered_in result count.new out.new ≡ written 0 (zooms_of zset) out.old }
{
    let answer = zoom::zset2zvec(zset, out);
    c_give::count(answer, count)
}

pub fn zset2zvec_rev(zset: u32, out: &mut [u8], count: &mut u64) -> u8
    ensures { answered_in result count.new out.new ≡ written 0 (zooms_of_rev zset) out.old }
{
    let answer = zoom::zset2zvec_rev(zset, out);
    c_give::count(answer, count)
}

pub fn zvec2zset(zvec: &[u8], zset: &mut u32) -> u8
    ensures { answered result zset.new ≡ zvec_set zvec.now }
{
    c_give::value(zoom::zvec2zset(zvec), 0, zset)
}

pub fn zvec2zset_rev(zvec: &[u8], zset: &mut u32) -> u8
    ensures { answered result zset.new ≡ zvec_set_rev zvec.now }
{
    c_give::value(zoom::zvec2zset_rev(zvec), 0, zset)
}

pub fn zoom_ranges(zset: u32, lows: &mut [u8], highs: &mut [u8], count: &mut u64) -> u8
    ensures { given_two result count.new lows.new highs.new
        ≡ ranges_of zset lows.old highs.old }
{
    let answer = zoom_ranges::zoom_ranges(zset, lows, highs);
    c_give::count(answer, count)
}

pub fn zset_all(zset: &mut u32) -> u8
    ensures { answered result zset.new ≡ never (2 ^ suc last_zoom - 1) }
{
    *zset = ZoomSet::all().number();
    0
}

pub fn zset_and(a: u32, b: u32, zset: &mut u32) -> u8
    ensures { answered result zset.new ≡ never (bit_and a b) }
{
    let one = ZoomSet::new(a);
    let other = ZoomSet::new(b);
    *zset = one.and(other).number();
    0
}

pub fn zset_and_zoom(a: u32, zoom: u8, zset: &mut u32) -> u8
    ensures { answered result zset.new ≡ and_zoom a zoom }
{
    let set = ZoomSet::new(a);
    give_set(set.and_zoom(zoom), zset)
}

pub fn zset_from_zoom(zoom: u8, zset: &mut u32) -> u8
    ensures { answered result zset.new ≡ zoom_bit zoom }
{
    give_set(ZoomSet::from_zoom(zoom), zset)
}

pub fn zoom_set(min: u8, max: u8, zset: &mut u32) -> u8
    ensures { answered result zset.new ≡ range_set (range_of min max) }
{
    give_set(zoom::zoom_set(ZoomRange { min, max }), zset)
}

pub fn zoom_bit_rev(zoom: u8, bit: &mut u32) -> u8
    ensures { answered result bit.new ≡ zoom_bit_rev zoom }
{
    c_give::value(zoom::zoom_bit_rev(zoom), 0, bit)
}

pub fn zoom_range_from_max(max: u8, low: &mut u8, high: &mut u8) -> u8
    ensures { answered result (range_of low.new high.new) ≡ never (range_of 0 max) }
{
    give_range(ZoomRange::from_max(max), low, high)
}

pub fn zoom_range_from_min(min: u8, low: &mut u8, high: &mut u8) -> u8
    ensures { answered result (range_of low.new high.new) ≡ never (range_of min last_zoom) }
{
    give_range(ZoomRange::from_min(min), low, high)
}

pub fn zoom_range_default(low: &mut u8, high: &mut u8) -> u8
    ensures { answered result (range_of low.new high.new) ≡ never (range_of 0 last_zoom) }
{
    give_range(ZoomRange::default(), low, high)
}

fn give_range(range: ZoomRange, low: &mut u8, high: &mut u8) -> u8
    ensures { answered result (range_of low.new high.new) ≡ never range }
{
    *low = range.min;
    *high = range.max;
    0
}

fn give_set(answer: Result<ZoomSet, Refusal>, zset: &mut u32) -> u8
    ensures { answered result zset.new ≡ zoom_set_case answer }
{
    let (number, set) = c_give::apart(answer, ZoomSet::new(0));
    *zset = set.number();
    number
}
