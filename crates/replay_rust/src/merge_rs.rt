// Replays the calls of merge.rs.
use errors::Refusal;
use merge::Merged;
use replay::answers::Lent;
use replay::parse::Call;
use replay::{answers, args};

// Places enough for every list.
const ROOM: usize = 512;

// Whether the call answers what the list says; None where it is no call of this file. The arguments are the minimum zoom, how many places
// are lent, and the tiles.
pub fn replayed(call: Call<'_>) -> Option<bool> {
    let Call { name, given, want } = call;
    let [zoom, places, rest @ ..] = given else {
        return None;
    };
    let zoom = args::option(*zoom)?;
    let tiles = args::one_list(rest)?;
    let n = tiles.len();
    let mut room = [u64::BLANK; ROOM];
    let out = room.get_mut(..usize::try_from(*places).ok()?)?;
    let answer = match name {
        b"merge" => return Some(same_merged(merge::merge(tiles, zoom, out), n, out, want)),
        b"simplify" => merge::simplify(tiles, zoom, out),
        b"simplify_v1" => merge::simplify_v1(tiles, zoom, out),
        _ => return None,
    };
    Some(answers::same_list(answer, n, out, want))
}

// The answer of a call on a list of n tiles.
fn same_merged(answer: Result<Merged, Refusal>, n: usize, out: &[u64], want: &[u64]) -> bool {
    match answer {
        Ok(Merged { changed, count }) => {
            let values = [u64::from(changed), count as u64];
            match answers::behind(&values, count, want) {
                Some(entries) => answers::holds(out, entries, n),
                None => false,
            }
        }
        Err(why) => answers::refused(why, 2, want) && answers::holds(out, &[], 0),
    }
}
