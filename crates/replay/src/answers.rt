// Whether a call answered what the list says: the refusal's number, 0 for none, then the values, which are zeros where it is refused.
use crate::entries;
use errors::Refusal;
use tile::{Next, Tile};

// What can be lent to a call to write a list into, and what it is filled with before the call.
pub trait Lent: Copy {
    const BLANK: Self;

    fn number(self) -> u64;
}

// No zoom and no digit, and not 0.
impl Lent for u8 {
    const BLANK: u8 = 191;

    fn number(self) -> u64 {
        u64::from(self)
    }
}

impl Lent for u64 {
    const BLANK: u64 = entries::BLANK;

    fn number(self) -> u64 {
        self
    }
}

// Whether the list says that the call is accepted, with these values.
pub fn accepted(values: &[u64], want: &[u64]) -> bool {
    match want {
        [0, said @ ..] => said == values,
        _ => false,
    }
}

// Whether the list says that the call is refused so, and that its value is so many zeros.
pub fn refused(why: Refusal, values: usize, want: &[u64]) -> bool {
    match want {
        [number, said @ ..] => {
            *number == u64::from(errors::number(why))
                && said.len() == values
                && said.iter().all(|n| *n == 0)
        }
        [] => false,
    }
}

// The answer of a check, held to the line of a call that has a value too: only the number is compared.
pub fn same_check(answer: Result<(), Refusal>, want: &[u64]) -> bool {
    match want {
        [number, ..] => *number == u64::from(errors::check_number(answer)),
        [] => false,
    }
}

// The answer of a call that gives so many values.
pub fn same<const N: usize>(answer: Result<[u64; N], Refusal>, want: &[u64]) -> bool {
    match answer {
        Ok(values) => accepted(&values, want),
        Err(why) => refused(why, N, want),
    }
}

// The answer of a call that gives one number, or says yes or no.
pub fn same_number<T: Into<u64>>(answer: Result<T, Refusal>, want: &[u64]) -> bool {
    same(answer.map(|n| [n.into()]), want)
}

pub fn same_tile(answer: Result<Tile, Refusal>, want: &[u64]) -> bool {
    same(
        answer.map(|t| [u64::from(t.x), u64::from(t.y), u64::from(t.z)]),
        want,
    )
}

// The entries behind these values, if the list says that the call is accepted, with these and so many entries.
pub fn behind<'a>(values: &[u64], count: usize, want: &'a [u64]) -> Option<&'a [u64]> {
    match want {
        [0, said @ ..] => said
            .strip_prefix(values)
            .filter(|entries| entries.len() == count),
        _ => None,
    }
}

// Whether a call that wrote a list into lent memory, all blank before, gave the count and left there the entries that the list says. It
// sets the places up to the n-th, those behind its entries to 0; with n = 0 it sets none behind them.
pub fn same_list<T: Lent>(
    answer: Result<usize, Refusal>,
    n: usize,
    out: &[T],
    want: &[u64],
) -> bool {
    match answer {
        Ok(count) => match behind(&[count as u64], count, want) {
            Some(entries) => holds(out, entries, n),
            None => false,
        },
        Err(why) => refused(why, 1, want) && holds(out, &[], 0),
    }
}

// The answer of a call that writes bytes, of which the list has fewer than there are places.
pub fn same_bytes<F: FnOnce(&mut [u8]) -> Result<usize, Refusal>>(call: F, want: &[u64]) -> bool
    requires { F.IsAlwaysCallable call }
{
    let mut out = [u8::BLANK; 64];
    let answer = call(&mut out);
    same_list(answer, 0, &out, want)
}

// Whether the memory holds these entries, then 0 up to n places, and is blank behind them.
pub fn holds<T: Lent>(out: &[T], entries: &[u64], n: usize) -> bool {
    let Some((front, rest)) = out.split_at_checked(entries.len()) else {
        return false;
    };
    let cleared = n.saturating_sub(entries.len()).min(rest.len());
    let (zeros, blank) = rest.split_at(cleared);
    front
        .iter()
        .zip(entries)
        .all(|(held, entry)| held.number() == *entry)
        && zeros.iter().all(|held| held.number() == 0)
        && blank.iter().all(|held| held.number() == T::BLANK.number())
}

// The answer of a cursor that is run to its end: its tiles, of which the list has fewer than there are places.
pub fn same_walk<C: Drop, F: Fn(C) -> Result<Next<C>, Refusal>>(
    start: C,
    next: F,
    want: &[u64],
) -> bool
    requires { F.IsAlwaysCallable next }
{
    let mut out = [entries::BLANK; 64];
    let mut cursor = start;
    for i in 0..64 {
        match next(cursor) {
            Ok(
                Next {
                    tile: Some(t),
                    rest,
                },
            ) => {
                out[i] = entries::of_tile(t);
                cursor = rest;
            }
            Ok(Next { tile: None, .. }) => return same_list(Ok(i), 0, &out, want),
            Err(why) => return refused(why, 1, want),
        }
    }
    false
}
