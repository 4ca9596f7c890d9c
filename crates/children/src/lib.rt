// The descendants of a tile at a deeper zoom, as list entries: clockwise in each family, or in the order of the quadkey's digits.
#![tactic(auto)]

ghost use Rattle.std.specs.Prelude.{Bool, true, false, ◌≡◌, ◌+◌, ◌-◌, ◌^◌, ◌<◌, ◌≤◌, length, unwrap_or};
ghost use Rattle.constants.specs.Limits.{max_zoom};
ghost use Rattle.errors.specs.Cases.{left};
ghost use Rattle.tile.specs.OnMap.{OnMap};
ghost use Rattle.children.specs.Children.{clockwise, z_order, family_of, descendants, children_of};
ghost use Rattle.ids.specs.Entry.{entries_of};

use constants::MAX_ZOOM;
use errors::Refusal;

// The order within a family. It is a type, so that the compiler makes a `fill` for each order. A const parameter would say it more shortly,
// but of a function that has one and calls itself this kit takes no answer for the call.
trait Family {
    // Whether it is clockwise.
    ghost order: { Bool };

    // The quadkey digits of the four children, in order.
    fn digits() -> [u32; 4]
        ensures { result ≡ family_of order };
}

struct ZOrder;

impl Family for ZOrder {
    ghost order = { false };

    fn digits() -> [u32; 4] {
        [0, 1, 2, 3]
    }
}

struct Clockwise;

impl Family for Clockwise {
    ghost order = { true };

    fn digits() -> [u32; 4] {
        [0, 1, 3, 2]
    }
}

// Each family clockwise: the digits 0, 1, 3, 2. A target zoom of z or less gives the tile itself; None is z + 1.
pub fn children(x: u32, y: u32, z: u8, zoom: Option<u8>, out: &mut [u64]) -> Result<usize, Refusal>
    ensures { left result out.new ≡ children_of clockwise x y z (unwrap_or zoom (z + 1)) out.old }
{
    descend::<Clockwise>(x, y, z, zoom, out)
}

// The same as `children`, each family by digits 0, 1, 2, 3.
pub fn children_zorder(
    x: u32,
    y: u32,
    z: u8,
    zoom: Option<u8>,
    out: &mut [u64],
) -> Result<usize, Refusal>
    ensures { left result out.new ≡ children_of z_order x y z (unwrap_or zoom (z + 1)) out.old }
{
    descend::<ZOrder>(x, y, z, zoom, out)
}

// The four children of a tile, by digits 0, 1, 2, 3.
pub fn children1_zorder(x: u32, y: u32, z: u8, out: &mut [u64]) -> Result<usize, Refusal>
    ensures { left result out.new ≡ children_of z_order x y z (z + 1) out.old }
{
    descend::<ZOrder>(x, y, z, None, out)
}

fn descend<F: Family>(
    x: u32,
    y: u32,
    z: u8,
    zoom: Option<u8>,
    out: &mut [u64],
) -> Result<usize, Refusal>
    ensures { left result out.new ≡ children_of (family_of F.order) x y z (unwrap_or zoom (z + 1)) out.old }
{
    if z > MAX_ZOOM {
        return Err(Refusal::Zoom);
    }
    let target = zoom.unwrap_or(z + 1);
    if target > MAX_ZOOM {
        return Err(Refusal::Zoom);
    }
    tile::check(x, y, z)?;
    let depth = target.saturating_sub(z);
    let n = places(depth);
    if out.len() < n {
        return Err(Refusal::Memory);
    }
    fill::<F>(x, y, z, depth, &mut out[..n]);
    Ok(n)
}

// How many tiles a tile has so many zooms down.
fn places(depth: u8) -> usize
    requires { depth ≤ 31 }
    ensures { result ≡ 4 ^ depth }
{
    bits::wide_pow2(2 * depth) as usize
}

// The descendants `depth` zooms down fill the list; each child's fill one quarter of it.
fn fill<F: Family>(x: u32, y: u32, z: u8, depth: u8, out: &mut [u64])
    requires on_map { OnMap x y z }
    requires depth_bound { z + depth ≤ max_zoom }
    requires out_len { length out.old ≡ 4 ^ depth }
    ensures { out.new ≡ entries_of (descendants (family_of F.order) depth x y z) }
{
    if depth == 0 {
        out[0] = ids::entry(x, y, z);
        return;
    }
    let quarter = out.len() / 4;
    for (k, digit) in F::digits().iter().enumerate() {
        let start = k * quarter;
        fill::<F>(
            2 * x + digit % 2,
            2 * y + digit / 2,
            z + 1,
            depth - 1,
            &mut out[start..start + quarter],
        );
    }
}
