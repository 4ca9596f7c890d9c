// The other three tiles of a tile's family, as list entries.
#![tactic(auto)]

ghost use Rattle.std.specs.Prelude.{◌≡◌};
ghost use Rattle.errors.specs.Cases.{left};
ghost use Rattle.siblings.specs.Siblings.{other, siblings_written};

use errors::Refusal;

// The other three children of the tile's parent: beside it, above or below it, and across.
pub fn siblings(x: u32, y: u32, z: u8, out: &mut [u64]) -> Result<usize, Refusal>
    ensures { left result out.new ≡ siblings_written x y z out.old }
{
    tile::check(x, y, z)?;
    if z == 0 {
        return Err(Refusal::NoRelative);
    }
    if out.len() < 3 {
        return Err(Refusal::Memory);
    }
    out[0] = ids::entry(beside(x), y, z);
    out[1] = ids::entry(x, beside(y), z);
    out[2] = ids::entry(beside(x), beside(y), z);
    Ok(3)
}

// The other column, or row, of a family.
fn beside(n: u32) -> u32
    ensures { result ≡ other n }
{
    if n % 2 == 0 { n + 1 } else { n - 1 }
}
