// What the exported calls on a reader of keys do: each asks `key_reader` and hands the answer on in numbers.
#![tactic(auto)]

ghost use Rattle.std.specs.Prelude.{◌≡◌};
ghost use Rattle.c_give.specs.Exported.{answered};
ghost use Rattle.c_key_reader.specs.Numbers.{fed_numbers, numbers_at, told_numbers};
ghost use Rattle.tile.specs.OnMap.{tile_at};

use errors::Refusal;
use key_reader::KeyReader;

pub fn feed(byte: u8, x: &mut u32, y: &mut u32, count: &mut u8, bad: &mut u8) -> u8
    ensures { answered result (numbers_at x.new y.new count.new bad.new)
        ≡ fed_numbers (numbers_at x.old y.old count.old bad.old) byte }
{
    if *bad > 1 {
        return errors::number(Refusal::NoState);
    }
    let mut reader = KeyReader {
        x: *x,
        y: *y,
        count: *count,
        bad: *bad == 1,
    };
    // Of a feed that is refused nothing is written, not even what stands there.
    match reader.feed(byte) {
        Ok(()) => {
            *x = reader.x;
            *y = reader.y;
            *count = reader.count;
            *bad = reader.bad as u8;
            0
        }
        Err(why) => errors::number(why),
    }
}

pub fn tile(x: u32, y: u32, count: u8, bad: u8, tx: &mut u32, ty: &mut u32, tz: &mut u8) -> u8
    ensures { answered result (tile_at tx.new ty.new tz.new)
        ≡ told_numbers (numbers_at x y count bad) }
{
    if bad > 1 {
        return c_give::tile(Err(Refusal::NoState), tx, ty, tz);
    }
    let reader = KeyReader {
        x,
        y,
        count,
        bad: bad == 1,
    };
    c_give::tile(reader.tile(), tx, ty, tz)
}
