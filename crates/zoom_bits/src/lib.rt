// Sets of zooms as the bits of a number: what they have, how many, turned round, and lists of zooms there and back.
#![tactic(auto)]

ghost use Rattle.std.specs.Prelude.{◌≡◌, false, ◌++◌, suc, ◌≤◌, ◌<◌, length, drop};
ghost use Rattle.errors.specs.Answer.{written};
ghost use Rattle.errors.specs.Cases.{left};
ghost use Rattle.zoom_bits.specs.Bits.{last_zoom, turn_bit, has_bit, those, set_of, between, down_from, any_deeper, set_of_zooms};

use errors::Refusal;

// The deepest zoom of a set or a list. The map's own limit is another one.
pub const LAST_ZOOM: u8 = 30;

// The bit of a set that says that it is read the other way round.
pub const TURN_BIT: u8 = 31;

// Whether a set has a bit.
#[tactic(auto, unfolding(crate::specs::Bits::has_bit))]
pub fn has(set: u32, bit: u8) -> bool
    requires { bit < 32 }
    ensures { result ≡ has_bit set bit }
{
    (set >> bit) % 2 == 1
}

// The bits of a set counted down from `top`.
pub fn reversed(set: u32, top: u8) -> u32
    requires { top ≤ turn_bit }
    ensures { result ≡ set_of (down_from top set) (suc top) }
{
    let mut r = 0;
    for i in 0..=top {
        if has(set, top - i) {
            r += bits::pow2(i);
        }
    }
    r
}

// The bits of the zooms from the lowest to the highest.
pub fn span(low: u8, high: u8) -> u32
    requires { (low ≤ high) × (high ≤ last_zoom) }
    ensures { result ≡ set_of (between low high) (suc last_zoom) }
{
    bits::pow2(high + 1) - bits::pow2(low)
}

// How many zooms a set has.
#[tactic(auto, using(crate::specs::Passing::count_bits))]
pub fn count_zooms(set: u32) -> usize
    ensures { result ≡ length (those (has_bit set) (suc last_zoom)) }
{
    u32::count_ones(set % 0x8000_0000) as usize
}

// The zooms of a set that is not turned round.
pub fn zooms_into(set: u32, out: &mut [u8]) -> Result<usize, Refusal>
    ensures { left result out.new ≡ written 0 (those (has_bit set) (suc last_zoom)) out.old }
{
    let count = count_zooms(set);
    if out.len() < count {
        return Err(Refusal::Memory);
    }
    fill(set, out);
    Ok(count)
}

// The zooms whose bits a set has, in the front of the list.
pub fn fill(set: u32, out: &mut [u8])
    requires { length (those (has_bit set) (suc last_zoom)) ≤ length out.old }
    ensures { out.new ≡ those (has_bit set) (suc last_zoom)
        ++ drop (length (those (has_bit set) (suc last_zoom))) out.old }
{
    let mut k = 0;
    for z in 0..=LAST_ZOOM {
        if has(set, z) {
            out[k] = z;
            k += 1;
        }
    }
}

// Whether a listed zoom is too deep for a set.
#[tactic(auto, unfolding(crate::specs::Bits::any_deeper))]
pub fn any_deeper(zvec: &[u8]) -> bool
    ensures { result ≡ any_deeper zvec.now }
{
    zvec.iter().any(|z| *z > LAST_ZOOM)
}

// The bits of the listed zooms.
pub fn union(zvec: &[u8]) -> u32
    requires { any_deeper zvec.now ≡ false }
    ensures { result ≡ set_of_zooms zvec.now }
{
    let mut set = 0;
    for z in zvec {
        set |= bits::pow2(*z);
    }
    set
}
