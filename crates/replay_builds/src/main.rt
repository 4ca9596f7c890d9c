// Plays builds: calls on lists of their own, or on what earlier calls of the build gave. Prints each line whose answer, or the memory
// that it left, is not what the list says.
#![tactic(auto)]

use errors::Refusal;
use replay::calls::{Played, Player};
use replay::entries::BLANK;
use replay::parse::Call;
use replay::{answers, args, calls};
use std::alloc::Global;
use std::io;

// Places enough for every list.
const ROOM: usize = 512;
// Calls enough for every build.
const CALLS: usize = 12;
// Places enough for all answers of a build.
const KEPT: usize = 2048;

#[derive(Clone, Copy, Debug, PartialEq, Eq)]
enum Work {
    Simplify,
    Union,
    CommonPart,
    Difference,
}

// A call of a build: its operands, of which `simplify` has no second, and how many places are lent for its answer.
#[derive(Clone, Copy)]
struct Task<'a> {
    work: Work,
    first: &'a [u64],
    second: &'a [u64],
    places: usize,
}

// Whether a call that was made is as the list says, and how many entries it left in the lent memory.
#[derive(Clone, Copy)]
struct Made {
    same: bool,
    count: Option<usize>,
}

// What the calls of a build gave, each its list, or None, and how many places are left to keep lists.
#[derive(Drop)]
struct Build {
    alloc: Global,
    answers: Vec<Option<Vec<u64>>>,
    places: usize,
}

fn main(rt: HostRuntime) -> io::Result<()> {
    let mut build = Build {
        alloc: rt.alloc(),
        answers: Vec::new(rt.alloc()),
        places: KEPT,
    };
    calls::replay(&rt, &mut build)
}

impl Player for Build {
    fn play(&mut self, call: Call<'_>) -> io::Result<Played> {
        let Call { name, given, want } = call;
        let same = match name {
            b"build" => {
                self.answers.clear();
                self.places = KEPT;
                given.is_empty() && want.is_empty()
            }
            b"is_settled" => match args::one_list(given) {
                Some(list) => answers::same_number(area::is_settled(list), want),
                None => false,
            },
            _ => match work_of(name) {
                Some(work) => self.play_call(work, given, want)?,
                None => false,
            },
        };
        Ok(Played::from(same))
    }
}

fn work_of(name: &[u8]) -> Option<Work> {
    match name {
        b"simplify" => Some(Work::Simplify),
        b"union" => Some(Work::Union),
        b"common_part" => Some(Work::CommonPart),
        b"difference" => Some(Work::Difference),
        _ => None,
    }
}

impl Build {
    // Whether a call is as the list says. What it gave is kept as it stands in the lent memory.
    fn play_call(&mut self, work: Work, given: &[u64], want: &[u64]) -> io::Result<bool> {
        let mut room = [BLANK; ROOM];
        let Some(made) = self.made(work, given, want, &mut room) else {
            self.keep(None)?;
            return Ok(false);
        };
        let list = match made.count {
            Some(count) => room.get(..count),
            None => None,
        };
        Ok(self.keep(list)? && made.same)
    }

    // Makes a call, if that can be done.
    fn made(
        &self,
        work: Work,
        given: &[u64],
        want: &[u64],
        room: &mut [u64; ROOM],
    ) -> Option<Made> {
        let task = self.task(work, given)?;
        let out = room.get_mut(..task.places)?;
        let answer = task.answer(out);
        Some(Made {
            same: answers::same_list(answer, task.cleared(), out, want),
            count: answer.ok(),
        })
    }

    // The arguments are how many places are lent, and the operands.
    fn task<'a>(&'a self, work: Work, given: &'a [u64]) -> Option<Task<'a>> {
        let (places, line) = given.split_first()?;
        let (first, line) = self.operand(line)?;
        let (second, line) = match work {
            Work::Simplify => ([].as_slice(), line),
            _ => self.operand(line)?,
        };
        if !line.is_empty() || first.len() > ROOM || second.len() > ROOM {
            return None;
        }
        Some(Task {
            work,
            first,
            second,
            places: usize::try_from(*places).ok()?,
        })
    }

    // A list after a 0, its count first; or, after a 1, the answer of the call of that number. Then what is left of the line.
    fn operand<'a>(&'a self, line: &'a [u64]) -> Option<(&'a [u64], &'a [u64])> {
        match line {
            [0, count, rest @ ..] => rest.split_at_checked(usize::try_from(*count).ok()?),
            [1, number, rest @ ..] => Some((self.answer(*number)?, rest)),
            _ => None,
        }
    }

    fn answer(&self, number: u64) -> Option<&[u64]> {
        let call = usize::try_from(number).ok()?;
        let list = self.answers.get(call)?.as_ref()?;
        Some(list.as_slice())
    }

    // Keeps what the next call gave, or that it gave nothing. Whether there is room for it: a list that finds none is not kept.
    fn keep(&mut self, list: Option<&[u64]>) -> io::Result<bool> {
        if self.answers.len() == CALLS {
            return Ok(false);
        }
        let Some(list) = list else {
            self.answers.push(None)?;
            return Ok(true);
        };
        let Some(left) = self.places.checked_sub(list.len()) else {
            self.answers.push(None)?;
            return Ok(false);
        };
        self.answers.push(Some(list.to_vec(self.alloc)?))?;
        self.places = left;
        Ok(true)
    }
}

impl Task<'_> {
    fn answer(&self, out: &mut [u64]) -> Result<usize, Refusal> {
        let Task { first, second, .. } = *self;
        match self.work {
            Work::Simplify => merge::simplify(first, Some(0), out),
            Work::Union => area::union(first, second, out),
            Work::CommonPart => area::common_part(first, second, out),
            Work::Difference => area::difference(first, second, out),
        }
    }

    // Up to which place the call sets what is behind its answer to 0: as many as there are entries in its operands.
    fn cleared(&self) -> usize {
        match self.work {
            Work::Difference => 0,
            _ => self.first.len() + self.second.len(),
        }
    }
}
