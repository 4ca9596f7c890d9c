// Zoom 30: its keys by the rule of the page "Bing Maps Tile System", and its numbers by document 02.
use std::io;
use tile::Tile;
use vectors_lines::shown::{Answer, Key, Place};
use vectors_lines::tally::Lines;

const ZOOM: u8 = 30;
// 2^30 - 1
const LAST: u32 = 1073741823;

// Each digit is the bit of x, and twice that of y, from the highest of the 30 on.
pub fn keys<R: Print + Alloc>(lines: &mut Lines<'_, R>) -> io::Result<()> {
    lines.source(
        "Bing Maps Tile System, Tile Coordinates and Quadkeys: the bits of y and x by turns, in base 4",
    )?;
    for (x, y, key) in [
        (0, 0, "000000000000000000000000000000"),
        (LAST, 0, "111111111111111111111111111111"),
        (0, LAST, "222222222222222222222222222222"),
        (LAST, LAST, "333333333333333333333333333333"),
        (3, 5, "000000000000000000000000000213"),
        // Every second bit of x, and those between them of y.
        (0x2aaa_aaaa, 0x1555_5555, "121212121212121212121212121212"),
    ] {
        let t = Tile { x, y, z: ZOOM };
        let gives = Answer(key_reader::quadkey2xyz(key.as_bytes()).map(Place));
        lines.told(format_args!("tile of quadkey {key}"), Place(t), gives)?;
        lines.told("quadkey of that tile", key, Key(t))?;
    }
    Ok(())
}

pub fn numbers<R: Print + Alloc>(lines: &mut Lines<'_, R>) -> io::Result<()> {
    lines.source(
        "Document 02, K11: number limits move to (4^31 - 1)/3, but to_id and from_id refuse zoom 30 by 1 and 7",
    )?;
    let rmid = Answer(ids::xyz2rmid(LAST, LAST, ZOOM));
    lines.told(
        "rmid of the last tile of zoom 30",
        "1537228672809129300",
        rmid,
    )?;
    for (rmid, says) in [
        (1537228672809129300, "(1073741823,1073741823,30)"),
        (1537228672809129301, "refusal 7"),
    ] {
        let gives = Answer(ids::rmid2xyz(rmid).map(Place));
        lines.told(format_args!("tile of rmid {rmid}"), says, gives)?;
    }
    let id = Answer(ids::to_id(0, 0, ZOOM));
    lines.told("id of the first tile of zoom 30", "refusal 1", id)?;
    let gives = Answer(ids::from_id(30).map(Place));
    lines.told("tile of id 30", "refusal 7", gives)
}
