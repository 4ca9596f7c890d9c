// The area of a form line: its lists settled, joined, shared and taken away as the form says.
#![tactic(auto)]

ghost use Rattle.std.specs.Prelude.{◌≡◌, ◌≤◌, length};
ghost use Rattle.constants.specs.Limits.{max_line, form_places};
ghost use Rattle.errors.specs.Answer.{written as the-written-Answer};
ghost use Rattle.errors.specs.Cases.{left};
ghost use Rattle.form_area.specs.Area.{area_written, is_dash, key_of_run, operated};
ghost use Rattle.form_area.specs.Entries.{OneEntered};
ghost use Rattle.form_area.specs.Promised.{Spelled, PairSpelled, KeysSpelled, OfForm, OfPair, OfKeys, AllEntered, LeftLength};
ghost use Rattle.quadkey.specs.Key.{key_tile};
ghost use Rattle.tile.specs.OnMap.{tile_case};

use constants::FORM_PLACES;
use errors::Refusal;
use form::{Verb, Word};
use tile::Tile;

// The form's settled list, in lent memory.
pub fn area(line: &[u8], out: &mut [u64]) -> Result<usize, Refusal>
    ensures { left result out.new ≡ area_written line.now out.old }
{
    form::check(line)?;
    // A list of as many places as a form may need, and a count: no heap is a rule of the project.
    let mut list = [0u64; FORM_PLACES];
    let n = value(line, &mut list)?;
    written(&list[..n], out)
}

fn written(list: &[u64], out: &mut [u64]) -> Result<usize, Refusal>
    ensures { left result out.new ≡ the-written-Answer 0 list.now out.old }
{
    let n = list.len();
    if out.len() < n {
        return Err(Refusal::Memory);
    }
    out[..n].copy_from_slice(list);
    Ok(n)
}

// The settled list of the form that takes all of the line.
#[cycle(pair_value)]
fn value(line: &[u8], list: &mut [u64]) -> Result<usize, Refusal>
    requires line_len_bound { length line.now ≤ max_line }
    requires spelled { Spelled line.now }
    requires list_len { length list.old ≡ form_places }
    ensures { OfForm line.now result list.new }
{
    match form::word_at(line) {
        Some(Word::Tiles) => tiles(&line[form::TILES_FRONT..], list),
        Some(Word::Pair(verb)) => pair(verb, &line[form::pair_front(verb)..], list),
        None => Err(Refusal::NoForm),
    }
}

// Of two forms, which are written with a space between them and the closing bracket behind them.
#[cycle(pair_value)]
fn pair(verb: Verb, body: &[u8], list: &mut [u64]) -> Result<usize, Refusal>
    requires body_len_bound { length body.now ≤ max_line }
    requires pair_spelled { PairSpelled body.now }
    requires list_len { length list.old ≡ form_places }
    ensures { OfPair verb body.now result list.new }
{
    let n = left_length(body);
    let mut a = [0u64; FORM_PLACES];
    let mut b = [0u64; FORM_PLACES];
    let i = value(&body[..n], &mut a)?;
    let j = value(&body[n + 1..body.len() - 1], &mut b)?;
    operate(verb, &a[..i], &b[..j], list)
}

// How many bytes the left one of two forms takes.
fn left_length(body: &[u8]) -> usize
    requires { PairSpelled body.now }
    ensures { LeftLength body.now result }
{
    form::form_end(body).unwrap_or(0)
}

fn operate(verb: Verb, a: &[u64], b: &[u64], list: &mut [u64]) -> Result<usize, Refusal>
    ensures { left result list.new ≡ operated verb a.now b.now list.old }
{
    match verb {
        Verb::Plus => area::union(a, b, list),
        Verb::Both => area::common_part(a, b, list),
        Verb::Minus => area::difference(a, b, list),
    }
}

// The settled list of keys, which are written with a space before each and the closing bracket behind them.
fn tiles(body: &[u8], list: &mut [u64]) -> Result<usize, Refusal>
    requires body_len_bound { length body.now ≤ max_line }
    requires keys_spelled { KeysSpelled body.now }
    requires list_len { length list.old ≡ form_places }
    ensures { OfKeys body.now result list.new }
{
    let mut entries = [0u64; FORM_PLACES];
    let n = enter(body, &mut entries)?;
    if n > FORM_PLACES {
        return Err(Refusal::Memory);
    }
    merge::simplify(&entries[..n], Some(0), list)
}

// The entries of the keys, as far as there are places, and how many keys there are.
fn enter(body: &[u8], entries: &mut [u64]) -> Result<usize, Refusal>
    requires { KeysSpelled body.now }
    ensures { AllEntered body.now result entries.new }
{
    // A `while`: a key's length decides the next place. `n` also counts the keys that have no place, so it is no index of `entries`.
    let mut at = 0;
    let mut n = 0;
    while let Some(length) = form::key_length(body, at) {
        let next = at + length;
        keep(&body[at + 1..next], n, entries)?;
        n += 1;
        at = next;
    }
    Ok(n)
}

// The entry of the n-th key goes to its place, if there is one.
fn keep(run: &[u8], n: usize, entries: &mut [u64]) -> Result<(), Refusal>
    ensures { OneEntered result run.now n entries.old entries.new }
{
    let t = tile_of(run)?;
    if n < entries.len() {
        entries[n] = ids::entry(t.x, t.y, t.z);
    }
    Ok(())
}

// The tile of a key. `-` stands for the empty key.
fn tile_of(run: &[u8]) -> Result<Tile, Refusal>
    ensures { tile_case result ≡ key_tile (key_of_run run.now) }
{
    if is_dash(run) {
        return key_reader::quadkey2xyz(b"");
    }
    key_reader::quadkey2xyz(run)
}

fn is_dash(run: &[u8]) -> bool
    ensures { result ≡ is_dash run.now }
{
    matches!(run, [b'-'])
}
