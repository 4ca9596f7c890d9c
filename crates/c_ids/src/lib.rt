// What the exported calls of fns.rs on the numbers that stand for tiles do: each asks the crate `ids` and hands the answer on in numbers.
#![tactic(auto)]

ghost use Rattle.std.specs.Prelude.{◌≡◌};
ghost use Rattle.c_give.specs.Exported.{answered};
ghost use Rattle.c_ids.specs.OffsetZoom.{offset_zoom_at};
ghost use Rattle.errors.specs.Answer.{answer};
ghost use Rattle.errors.specs.Cases.{number_case};
ghost use Rattle.ids.specs.Entry.{entry_of, entry_tile_of};
ghost use Rattle.ids.specs.Id.{from_id_of, to_id_of};
ghost use Rattle.ids.specs.Rmid.{from_rmid_of, offset_zoom_of, to_rmid_of};
ghost use Rattle.tile.specs.OnMap.{tile_at, tile_refusal};

use errors::Refusal;
use ids::OffsetZoom;

pub fn to_id(x: u32, y: u32, z: u8, id: &mut u64) -> u8
    ensures { answered result id.new ≡ to_id_of x y z }
{
    c_give::value(ids::to_id(x, y, z), 0, id)
}

pub fn from_id(id: u64, tx: &mut u32, ty: &mut u32, tz: &mut u8) -> u8
    ensures { answered result (tile_at tx.new ty.new tz.new) ≡ from_id_of id }
{
    c_give::tile(ids::from_id(id), tx, ty, tz)
}

pub fn entry(x: u32, y: u32, z: u8, entry: &mut u64) -> u8
    ensures { answered result entry.new ≡ answer (tile_refusal x y z) 0 (entry_of x y z) }
{
    c_give::value(entry_of(x, y, z), 0, entry)
}

fn entry_of(x: u32, y: u32, z: u8) -> Result<u64, Refusal>
    ensures { number_case result ≡ answer (tile_refusal x y z) 0 (entry_of x y z) }
{
    tile::check(x, y, z)?;
    Ok(ids::entry(x, y, z))
}

pub fn entry_tile(entry: u64, tx: &mut u32, ty: &mut u32, tz: &mut u8) -> u8
    ensures { answered result (tile_at tx.new ty.new tz.new) ≡ entry_tile_of entry }
{
    c_give::tile(ids::entry_tile(entry), tx, ty, tz)
}

pub fn xyz2rmid(x: u32, y: u32, z: u8, rmid: &mut u64) -> u8
    ensures { answered result rmid.new ≡ to_rmid_of x y z }
{
    c_give::value(ids::xyz2rmid(x, y, z), 0, rmid)
}

pub fn rmid2xyz(rmid: u64, tx: &mut u32, ty: &mut u32, tz: &mut u8) -> u8
    ensures { answered result (tile_at tx.new ty.new tz.new) ≡ from_rmid_of rmid }
{
    c_give::tile(ids::rmid2xyz(rmid), tx, ty, tz)
}

pub fn int_2_offset_zoom(rmid: u64, offset: &mut u64, zoom: &mut u8) -> u8
    ensures { answered result (offset_zoom_at offset.new zoom.new) ≡ offset_zoom_of rmid }
{
    let none = OffsetZoom { offset: 0, zoom: 0 };
    let (number, at) = c_give::apart(ids::int_2_offset_zoom(rmid), none);
    *offset = at.offset;
    *zoom = at.zoom;
    number
}
