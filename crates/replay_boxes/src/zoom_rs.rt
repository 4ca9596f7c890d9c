// Replays the calls of zoom.rs.
use errors::Refusal;
use replay::answers::Lent;
use replay::parse::Call;
use replay::{answers, args};
use zoom::ZoomSet;

// Places enough for the zooms of every line.
const ROOM: usize = 512;
// Places enough for the zooms of every set.
const PLACES: usize = 64;

// Whether the call answers what the list says; None where it is no call of this file.
pub fn replayed(call: Call<'_>) -> Option<bool> {
    let Call { name, given, want } = call;
    match (name, given) {
        (b"all", []) => Some(same_set(Ok(ZoomSet::all()), want)),
        (b"zoom_max_xy", &[zoom]) => {
            let zoom = u8::try_from(zoom).ok()?;
            Some(answers::same_number(zoom::zoom_max_xy(zoom), want))
        }
        (b"zvec2zset", _) => of_zooms(given, want),
        (b"zvec2zset_rev", _) => of_zooms_rev(given, want),
        _ => of_sets(name, given, want),
    }
}

fn of_zooms(given: &[u64], want: &[u64]) -> Option<bool> {
    let mut room = [0; ROOM];
    let zooms = args::bytes(given, &mut room)?;
    let same = answers::same_number(zoom::zvec2zset(zooms), want);
    Some(same && same_set(ZoomSet::from_zooms(zooms), want))
}

fn of_zooms_rev(given: &[u64], want: &[u64]) -> Option<bool> {
    let mut room = [0; ROOM];
    let zooms = args::bytes(given, &mut room)?;
    Some(answers::same_number(zoom::zvec2zset_rev(zooms), want))
}

fn of_sets(name: &[u8], given: &[u64], want: &[u64]) -> Option<bool> {
    match given {
        &[zset] => of_set(name, u32::try_from(zset).ok()?, want),
        &[zset, other] => {
            let set = ZoomSet::new(u32::try_from(zset).ok()?);
            common(name, set, u32::try_from(other).ok()?, want)
        }
        _ => None,
    }
}

fn of_set(name: &[u8], zset: u32, want: &[u64]) -> Option<bool> {
    let set = ZoomSet::new(zset);
    match name {
        b"zset2zvec" => {
            let same = answers::same_bytes(|out| zoom::zset2zvec(zset, out), want);
            Some(same && answers::same_bytes(|out| set.to_zooms(out), want))
        }
        b"zset2zvec_rev" => {
            let same = answers::same_bytes(|out| zoom::zset2zvec_rev(zset, out), want);
            Some(same)
        }
        b"zoom_ranges" => {
            let same = same_ranges(
                |lows, highs| zoom_ranges::zoom_ranges(zset, lows, highs),
                want,
            )?;
            Some(same && same_ranges(|lows, highs| set.zoom_ranges(lows, highs), want)?)
        }
        _ => None,
    }
}

// The list says the count, then all lowest zooms, then all highest ones. There is memory enough, and nothing else is refused.
fn same_ranges<F: Fn(&mut [u8], &mut [u8]) -> Result<usize, Refusal>>(
    ranges: F,
    want: &[u64],
) -> Option<bool>
    requires { F.IsAlwaysCallable ranges }
{
    let mut lows = [u8::BLANK; PLACES];
    let mut highs = [u8::BLANK; PLACES];
    let n = ranges(&mut lows, &mut highs).ok()?;
    let said = answers::behind(&[n as u64], n.checked_mul(2)?, want)?;
    let (low, high) = said.split_at_checked(n)?;
    Some(answers::holds(&lows, low, 0) && answers::holds(&highs, high, 0))
}

fn common(name: &[u8], set: ZoomSet, other: u32, want: &[u64]) -> Option<bool> {
    match name {
        b"and" => {
            let same = same_set(Ok(set.and(ZoomSet::new(other))), want);
            Some(same && same_set(Ok(set.and_bits(other)), want))
        }
        b"and_zoom" => Some(same_set(set.and_zoom(u8::try_from(other).ok()?), want)),
        _ => None,
    }
}

fn same_set(answer: Result<ZoomSet, Refusal>, want: &[u64]) -> bool {
    answers::same_number(answer.map(|set| set.number()), want)
}
