// Zooms, sets of them and ranges: the calls of zoom.rs. A set is a number whose bit i is zoom i; its zooms, and those of lists and
// ranges, go to 30.
ghost use Rattle.std.specs.Prelude.{◌≡◌, suc, ◌-◌, ◌^◌};
ghost use Rattle.std.specs.Int.Bits.{bit_and};
ghost use Rattle.c_give.specs.Exported.{answered, answered_in, never};
ghost use Rattle.c_zoom.specs.Ranges.{given_two};
ghost use Rattle.errors.specs.Answer.{written};
ghost use Rattle.zoom.specs.Zooms.{and_zoom, max_xY, range_set, zoom_bit, zoom_bit_rev, zooms_of, zooms_of_rev, zvec_set, zvec_set_rev};
ghost use Rattle.zoom_bits.specs.Bits.{last_zoom};
ghost use Rattle.zoom_ranges.specs.Ranges.{range_of, ranges_of};

// The last column, and the last row, of a zoom: 2^zoom - 1.
// Refused: 1.
#[unsafe(no_mangle)]
pub extern "C" fn nori_zoom_max_xy(zoom: u8, max: &mut u32) -> u8
    ensures { answered result max.new ≡ max_xY zoom }
{
    c_zoom::zoom_max_xy(zoom, max)
}

// The zooms of a set, rising. A set with bit 31 is read the other way round: zoom i is bit 30 - i.
// Refused: 12.
#[unsafe(no_mangle)]
pub extern "C" fn nori_zset2zvec(zset: u32, out: &mut [u8], count: &mut u64) -> u8
    ensures { answered_in result count.new out.new ≡ written 0 (zooms_of zset) out.old }
{
    c_zoom::zset2zvec(zset, out, count)
}

// The zooms of a set that is read the other way round whatever its bit 31 is, rising.
// Refused: 12.
#[unsafe(no_mangle)]
pub extern "C" fn nori_zset2zvec_rev(zset: u32, out: &mut [u8], count: &mut u64) -> u8
    ensures { answered_in result count.new out.new ≡ written 0 (zooms_of_rev zset) out.old }
{
    c_zoom::zset2zvec_rev(zset, out, count)
}

// The set of the listed zooms.
// Refused: 1, 6.
#[unsafe(no_mangle)]
pub extern "C" fn nori_zvec2zset(zvec: &[u8], zset: &mut u32) -> u8
    ensures { answered result zset.new ≡ zvec_set zvec.now }
{
    c_zoom::zvec2zset(zvec, zset)
}

// The number of the listed zooms whose bit 31 - i is zoom i.
// Refused: 1, 6.
#[unsafe(no_mangle)]
pub extern "C" fn nori_zvec2zset_rev(zvec: &[u8], zset: &mut u32) -> u8
    ensures { answered result zset.new ≡ zvec_set_rev zvec.now }
{
    c_zoom::zvec2zset_rev(zvec, zset)
}

// The maximal runs of the zooms 0 to 30 of a set, rising, at most 16: the lowest zoom of each run in lows, the highest in highs. Bit 31 of
// the set is no zoom, and turns nothing round here.
// Refused: 12.
#[unsafe(no_mangle)]
pub extern "C" fn nori_zoom_ranges(
    zset: u32,
    lows: &mut [u8],
    highs: &mut [u8],
    count: &mut u64,
) -> u8
    ensures { given_two result count.new lows.new highs.new
        ≡ ranges_of zset lows.old highs.old }
{
    c_zoom::zoom_ranges(zset, lows, highs, count)
}

// The set of all zooms, 0 to 30.
// Never refused.
#[unsafe(no_mangle)]
pub extern "C" fn nori_zset_all(zset: &mut u32) -> u8
    ensures { answered result zset.new ≡ never (2 ^ suc last_zoom - 1) }
{
    c_zoom::zset_all(zset)
}

// The same as nori_zvec2zset.
// Refused: 1, 6.
#[unsafe(no_mangle)]
pub extern "C" fn nori_zset_from_zooms(zooms: &[u8], zset: &mut u32) -> u8
    ensures { answered result zset.new ≡ zvec_set zooms.now }
{
    c_zoom::zvec2zset(zooms, zset)
}

// The same as nori_zset2zvec.
// Refused: 12.
#[unsafe(no_mangle)]
pub extern "C" fn nori_zset_to_zooms(zset: u32, out: &mut [u8], count: &mut u64) -> u8
    ensures { answered_in result count.new out.new ≡ written 0 (zooms_of zset) out.old }
{
    c_zoom::zset2zvec(zset, out, count)
}

// The same as nori_zoom_ranges.
// Refused: 12.
#[unsafe(no_mangle)]
pub extern "C" fn nori_zset_zoom_ranges(
    zset: u32,
    lows: &mut [u8],
    highs: &mut [u8],
    count: &mut u64,
) -> u8
    ensures { given_two result count.new lows.new highs.new
        ≡ ranges_of zset lows.old highs.old }
{
    c_zoom::zoom_ranges(zset, lows, highs, count)
}

// The bits that both sets have.
// Never refused.
#[unsafe(no_mangle)]
pub extern "C" fn nori_zset_and(a: u32, b: u32, zset: &mut u32) -> u8
    ensures { answered result zset.new ≡ never (bit_and a b) }
{
    c_zoom::zset_and(a, b, zset)
}

// The bits that a set and a number both have.
// Never refused.
#[unsafe(no_mangle)]
pub extern "C" fn nori_zset_and_bits(a: u32, bits: u32, zset: &mut u32) -> u8
    ensures { answered result zset.new ≡ never (bit_and a bits) }
{
    c_zoom::zset_and(a, bits, zset)
}

// What a set has of the bit that nori_zoom_bit_rev gives, as in the Rust.
// Refused: 1.
#[unsafe(no_mangle)]
pub extern "C" fn nori_zset_and_zoom(a: u32, zoom: u8, zset: &mut u32) -> u8
    ensures { answered result zset.new ≡ and_zoom a zoom }
{
    c_zoom::zset_and_zoom(a, zoom, zset)
}

// The set of one zoom.
// Refused: 1.
#[unsafe(no_mangle)]
pub extern "C" fn nori_zset_from_zoom(zoom: u8, zset: &mut u32) -> u8
    ensures { answered result zset.new ≡ zoom_bit zoom }
{
    c_zoom::zset_from_zoom(zoom, zset)
}

// The set of all zooms of a range: empty where min is above max.
// Refused: 1.
#[unsafe(no_mangle)]
pub extern "C" fn nori_zoom_set(min: u8, max: u8, zset: &mut u32) -> u8
    ensures { answered result zset.new ≡ range_set (range_of min max) }
{
    c_zoom::zoom_set(min, max, zset)
}

// The bit of one zoom in numbers of nori_zvec2zset_rev: 2^(31 - zoom).
// Refused: 1.
#[unsafe(no_mangle)]
pub extern "C" fn nori_zoom_bit_rev(zoom: u8, bit: &mut u32) -> u8
    ensures { answered result bit.new ≡ zoom_bit_rev zoom }
{
    c_zoom::zoom_bit_rev(zoom, bit)
}

// The range from 0 to max.
// Never refused.
#[unsafe(no_mangle)]
pub extern "C" fn nori_zoom_range_from_max(max: u8, low: &mut u8, high: &mut u8) -> u8
    ensures { answered result (range_of low.new high.new) ≡ never (range_of 0 max) }
{
    c_zoom::zoom_range_from_max(max, low, high)
}

// The range from min to 30.
// Never refused.
#[unsafe(no_mangle)]
pub extern "C" fn nori_zoom_range_from_min(min: u8, low: &mut u8, high: &mut u8) -> u8
    ensures { answered result (range_of low.new high.new) ≡ never (range_of min last_zoom) }
{
    c_zoom::zoom_range_from_min(min, low, high)
}

// The range from 0 to 30.
// Never refused.
#[unsafe(no_mangle)]
pub extern "C" fn nori_zoom_range_default(low: &mut u8, high: &mut u8) -> u8
    ensures { answered result (range_of low.new high.new) ≡ never (range_of 0 last_zoom) }
{
    c_zoom::zoom_range_default(low, high)
}
