// A key read in one pass: a reader that is fed its bytes one by one, and tells at any time what they are as a whole key.
#![tactic(auto)]

ghost use Rattle.std.specs.Prelude.{◌≡◌, true, false, not, ◌&&◌, [], ◌++◌, ◌+◌, ◌≤◌, eqb, length};
ghost use Rattle.constants.specs.Limits.{max_zoom};
ghost use Rattle.errors.specs.Answer.{◌when◌};
ghost use Rattle.errors.specs.Cases.{check_number};
ghost use Rattle.quadkey.specs.Key.{key_tile};
ghost use Rattle.tile.specs.OnMap.{OnMap, tile_case};
ghost use Rattle.key_reader.specs.Reader.{feed_case, fed_of, is_reader, left_by, reader_after, reader_at, told_of};

use constants::MAX_ZOOM;
use errors::Refusal;
use quadkey::is_quadkey_byte;
use tile::Tile;

// What is kept of the bytes so far, and none of them: the column and row that they spell, and their count. Where one is no digit, `bad` and
// the count; where they are more than the longest key has, a count of one more, whatever they were.
#[derive(Clone, Copy, Debug, PartialEq, Eq)]
pub struct KeyReader {
    pub x: u32,
    pub y: u32,
    pub count: u8,
    pub bad: bool,
}

impl KeyReader {
    // The reader before the first byte.
    pub fn start() -> KeyReader
        ensures { result ≡ reader_after [] }
    {
        blank(0, false)
    }

    // One byte more. A reader that is refused stays as it was.
    pub fn feed(&mut self, byte: u8) -> Result<(), Refusal>
        ensures { feed_case result self.new ≡ fed_of self.old byte }
    {
        self.check()?;
        *self = self.after(&[byte]);
        Ok(())
    }

    // What the bytes so far are as a whole key: the tile, or the refusal.
    pub fn tile(self) -> Result<Tile, Refusal>
        ensures { tile_case result ≡ told_of self }
    {
        self.check()?;
        self.told()
    }

    // Whether the reader is refused: no bytes leave it.
    fn check(self) -> Result<(), Refusal>
        ensures { check_number result ≡ 16 when not (is_reader self) }
    {
        if !self.is_reader() {
            return Err(Refusal::NoState);
        }
        Ok(())
    }

    // Whether some bytes leave this reader.
    fn is_reader(self) -> bool
        ensures { result ≡ is_reader self }
    {
        let count = self.count;
        if self.bad {
            if count > MAX_ZOOM {
                return false;
            }
            return 0 < count && self.is_blank();
        }
        if count > MAX_ZOOM {
            return count == MAX_ZOOM + 1 && self.is_blank();
        }
        tile::check(self.x, self.y, count).is_ok()
    }

    fn is_blank(self) -> bool
        ensures { result ≡ eqb self.x 0 && eqb self.y 0 }
    {
        self.x == 0 && self.y == 0
    }

    // The same of a reader that bytes have left: 16 is not tested again.
    fn told(self) -> Result<Tile, Refusal>
        requires { is_reader self ≡ true }
        ensures { tile_case result ≡ key_tile (left_by self) }
    {
        if self.count > MAX_ZOOM {
            return Err(Refusal::KeyLength);
        }
        if self.bad {
            return Err(Refusal::KeyByte);
        }
        Ok(Tile {
            x: self.x,
            y: self.y,
            z: self.count,
        })
    }

    // The reader after some bytes more: too many are so for ever, and a bad byte stays one.
    fn after(self, bytes: &[u8]) -> KeyReader
        requires { is_reader self ≡ true }
        ensures { result ≡ reader_after (left_by self ++ bytes.now) }
    {
        let count = self.count;
        if count > MAX_ZOOM {
            return self;
        }
        if bytes.len() > (MAX_ZOOM - count) as usize {
            return blank(MAX_ZOOM + 1, false);
        }
        if self.bad {
            return blank(count + bytes.len() as u8, true);
        }
        self.spell(bytes)
    }

    // The same where nothing is wrong so far and there is room for all of the bytes: each is read, tested and turned into x and y once.
    fn spell(self, bytes: &[u8]) -> KeyReader
        requires on_map { OnMap self.x self.y self.count }
        requires bad_value { self.bad ≡ false }
        requires bytes_bound { self.count + length bytes.now ≤ max_zoom }
        ensures { result ≡ reader_after (left_by self ++ bytes.now) }
    {
        let count = self.count + bytes.len() as u8;
        let mut x = self.x;
        let mut y = self.y;
        for byte in bytes {
            if !is_quadkey_byte(*byte) {
                return blank(count, true);
            }
            let digit = u32::from(*byte - b'0');
            x = 2 * x + digit % 2;
            y = 2 * y + digit / 2 % 2;
        }
        KeyReader {
            x,
            y,
            count,
            bad: false,
        }
    }
}

// A reader that keeps no column and row.
fn blank(count: u8, bad: bool) -> KeyReader
    ensures { result ≡ reader_at 0 0 count bad }
{
    KeyReader {
        x: 0,
        y: 0,
        count,
        bad,
    }
}

// The tile of a key: the reader, fed with it, tells.
pub fn quadkey2xyz(key: &[u8]) -> Result<Tile, Refusal>
    ensures { tile_case result ≡ key_tile key.now }
{
    KeyReader::start().after(key).told()
}
