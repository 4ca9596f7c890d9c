// Prints the plates of document 01 that are proved, each worked out by the library. `vectors` checks the others.
#![tactic(auto)]

use errors::Refusal;
use std::fmt::Display;
use std::io;
use tile::Tile;
use tile_zbox::TileZBox;
use vectors_lines::shown::{Answer, Key, KeyOf, Place, PlaceOf};

fn main(rt: HostRuntime) -> io::Result<()> {
    key_and_numbers(&rt, "(3,5,3)", Tile { x: 3, y: 5, z: 3 })?;
    key_and_numbers(&rt, "root", Tile { x: 0, y: 0, z: 0 })?;
    ancestors(&rt)?;
    beside(&rt)?;
    kept(&rt)?;
    empty(&rt)?;
    all_of_zoom(&rt, 16)?;
    zooms(&rt)
}

fn key_and_numbers(rt: &impl Print, name: &str, t: Tile) -> io::Result<()> {
    let Tile { x, y, z } = t;
    let key = Key(t);
    let id = Answer(ids::to_id(x, y, z));
    let rmid = Answer(ids::xyz2rmid(x, y, z));
    println!(rt; "{name}: key {key}, id {id}, rmid {rmid}")
}

fn ancestors(rt: &impl Print) -> io::Result<()> {
    let parent = above(None);
    let second = above(Some(2));
    let third = above(Some(3));
    println!(rt; "parent of (3,5,3): {parent}; n = 2: {second}; n = 3: {third}")
}

// The tile alone: the plate says nothing of the steps' digits.
fn above(n: Option<u8>) -> Answer<Place> {
    Answer(fns::parent(3, 5, 3, n).map(|up| Place(up.tile)))
}

fn beside(rt: &impl Print) -> io::Result<()> {
    let mut list = [0; 8];
    print!(rt; "siblings of (3,5,3):")?;
    let answer = siblings::siblings(3, 5, 3, &mut list);
    each(rt, written(answer, &list), PlaceOf)?;
    print!(rt; "\nneighbours of (3,0,2):")?;
    let answer = neighbors::neighbors(3, 0, 2, &mut list);
    each(rt, written(answer, &list), PlaceOf)?;
    println!(rt)
}

#[tactic(auto, unfolding(constants::specs::Limits::max_zoom))]
fn tile_and_child() -> [u64; 2] {
    [ids::entry(0, 0, 1), ids::entry(0, 0, 2)]
}

// A tile and its first child, with the tile's own zoom as the minimum.
fn kept(rt: &impl Print) -> io::Result<()> {
    let tiles = tile_and_child();
    print!(rt; "keys")?;
    each(rt, &tiles, KeyOf)?;
    let mut list = [0; 2];
    print!(rt; " at minimum zoom 1: simplify_v1 keeps")?;
    let answer = merge::simplify_v1(&tiles, Some(1), &mut list);
    each(rt, written(answer, &list), KeyOf)?;
    print!(rt; ", simplify")?;
    let answer = merge::simplify(&tiles, Some(1), &mut list);
    each(rt, written(answer, &list), KeyOf)?;
    println!(rt)
}

fn empty(rt: &impl Print) -> io::Result<()> {
    let count = Answer(merge::simplify(&[], None, &mut []));
    println!(rt; "the empty list settles to {count}")
}

fn all_of_zoom(rt: &impl Print, z: u8) -> io::Result<()> {
    let tiles = Answer(tiles_of_zoom(z));
    println!(rt; "box of all zoom {z}: {tiles}")
}

fn tiles_of_zoom(z: u8) -> Result<u64, Refusal> {
    TileZBox::from_tile(0, 0, 0)?.zoom_depth(z)?.length()
}

fn zooms(rt: &impl Print) -> io::Result<()> {
    let set = Answer(zoom::zvec2zset(&[0, 5]));
    println!(rt; "zooms 0, 5: set {set}")?;
    let mut list = [0; 31];
    let answer = zoom::zset2zvec(0xc000_0000, &mut list);
    print!(rt; "set with bits 31 and 30: zoom")?;
    each(rt, written(answer, &list), |n| n)?;
    let mut lows = [0; 16];
    let mut highs = [0; 16];
    let answer = zoom_ranges::zoom_ranges(23, &mut lows, &mut highs);
    print!(rt; "\nzooms 0, 1, 2, 4: ranges from")?;
    each(rt, written(answer, &lows), |n| n)?;
    print!(rt; " to")?;
    each(rt, written(answer, &highs), |n| n)?;
    println!(rt)
}

// Prints each of a list, with a space before it.
fn each<T: Copy, D: Display + Drop, F: Fn(T) -> D>(
    rt: &impl Print,
    list: &[T],
    shown: F,
) -> io::Result<()>
    requires { F.IsAlwaysCallable shown }
{
    for item in list {
        print!(rt; " {}", shown(*item))?;
    }
    Ok(())
}

// What a call left in lent memory, none where it is refused.
fn written<T>(answer: Result<usize, Refusal>, list: &[T]) -> &[T] {
    answer.ok().and_then(|n| list.get(..n)).unwrap_or(&[])
}
