// Replays keys fed byte by byte, and readers that a caller fills himself. Prints each line whose answer is not what the list says.
#![tactic(auto)]

use key_reader::KeyReader;
use replay::calls::{Played, Player};
use replay::parse::Call;
use replay::{answers, args, calls};
use std::io;

// Places enough for the bytes of every line.
const ROOM: usize = 512;

fn main(rt: HostRuntime) -> io::Result<()> {
    calls::replay(&rt, &mut Keys)
}

#[derive(Drop)]
struct Keys;

impl Player for Keys {
    fn play(&mut self, call: Call<'_>) -> io::Result<Played> {
        Ok(Played::from(replayed(call) == Some(true)))
    }
}

// Whether the call answers what the list says; None where it is no call of a reader.
fn replayed(call: Call<'_>) -> Option<bool> {
    let Call { name, given, want } = call;
    match (name, given) {
        (b"fed", _) => fed(given, want),
        (b"feed", &[x, y, count, bad, byte]) => {
            let byte = u8::try_from(byte).ok()?;
            Some(feed(filled(x, y, count, bad)?, byte, want))
        }
        (b"tile", &[x, y, count, bad]) => {
            let reader = filled(x, y, count, bad)?;
            Some(answers::same_tile(reader.tile(), want))
        }
        _ => None,
    }
}

// A key as one list of bytes, and what its reader tells before the first and after each: as often as there are numbers given.
fn fed(given: &[u64], want: &[u64]) -> Option<bool> {
    if want.len() % 4 != 0 || want.len() / 4 != given.len() {
        return None;
    }
    let mut room = [0; ROOM];
    let key = args::bytes(given, &mut room)?;
    let mut reader = KeyReader::start();
    let mut said = want.chunks_exact(4);
    for (i, byte) in key.iter().enumerate() {
        if !tells(reader, &key[..i], said.next()?) {
            return None;
        }
        reader.feed(*byte).ok()?;
    }
    Some(tells(reader, key, said.next()?))
}

// Whether the reader after these bytes, and the same bytes read as a whole key, tell what the list says.
fn tells(reader: KeyReader, bytes: &[u8], want: &[u64]) -> bool {
    answers::same_tile(reader.tile(), want)
        && answers::same_tile(key_reader::quadkey2xyz(bytes), want)
}

// The refusal's number, 0 for none, then the reader: a refused one is not zeros.
fn feed(mut reader: KeyReader, byte: u8, want: &[u64]) -> bool {
    let number = errors::check_number(reader.feed(byte));
    let KeyReader { x, y, count, bad } = reader;
    let told = [
        u64::from(number),
        u64::from(x),
        u64::from(y),
        u64::from(count),
        u64::from(bad),
    ];
    want == told.as_slice()
}

// The reader that a caller filled: x, y, count, and whether it is bad.
fn filled(x: u64, y: u64, count: u64, bad: u64) -> Option<KeyReader> {
    if bad > 1 {
        return None;
    }
    Some(KeyReader {
        x: u32::try_from(x).ok()?,
        y: u32::try_from(y).ok()?,
        count: u8::try_from(count).ok()?,
        bad: bad == 1,
    })
}
