// The calls of the list on standard input, one by one. A line that is no call and no heading is printed, and behind the last one how many
// calls there were: a list that has lost its end is noticed by that. So it is for each module, where the list names them.
use crate::parse::{self, Call};
use std::io::{self, BufRead, BufReader, Read, Write};

// The most bytes of a line, with its newline. A longer one is cut.
const LONGEST: u64 = 65536;
// Room for the numbers of a line of 8,192 bytes.
const NUMBERS: usize = 4096;

// What came of a call.
#[derive(Clone, Copy, Debug, PartialEq, Eq)]
pub enum Played {
    // Its answer is what the list says.
    Same,
    Differs,
    // It is no call, but has the name of the module that those behind it are of.
    Begins,
}

impl From<bool> for Played {
    fn from(same: bool) -> Played {
        if same { Played::Same } else { Played::Differs }
    }
}

// What makes the calls.
pub trait Player {
    fn play(&mut self, call: Call<'_>) -> io::Result<Played>;
}

// Has each call of the list made. A line whose answer is not the same is printed.
pub fn replay<R: Input + Print + AllocGlobal, P: Player>(rt: &R, player: &mut P) -> io::Result<()> {
    let mut input = BufReader::new(rt.alloc(), rt.reader())?;
    let mut line = Vec::new(rt.alloc());
    // Each line's numbers go to the front of the same room: to clear it for each would cost more than the most calls do.
    let mut room = [0; NUMBERS];
    let mut log = Log { rt, calls: 0 };
    // A list ends long before the turns do.
    for _ in 0..u64::MAX {
        line.clear();
        if input.by_ref().take(LONGEST).read_until(b'\n', &mut line)? == 0 {
            break;
        }
        log.line(&line, &mut room, player)?;
    }
    log.count()
}

// What is printed, and how many calls there were since a module began.
#[derive(Drop)]
struct Log<'a, R> {
    rt: &'a R,
    calls: u64,
}

impl<R: Print + Alloc> Log<'_, R> {
    // A line without its newline is cut off, and no call.
    fn line<P: Player>(&mut self, line: &[u8], room: &mut [u64], player: &mut P) -> io::Result<()> {
        let Some(text) = line.strip_suffix(b"\n") else {
            return self.differs(line);
        };
        if text.starts_with(b"#") {
            return Ok(());
        }
        let Some(call) = parse::parse(text, room) else {
            return self.differs(text);
        };
        if !call.want.is_empty() {
            self.calls = self.calls.wrapping_add(1);
        }
        match player.play(call)? {
            Played::Same => Ok(()),
            Played::Differs => self.differs(text),
            Played::Begins => self.begin(call.name),
        }
    }

    fn differs(&self, line: &[u8]) -> io::Result<()> {
        let mut out = io::writer(self.rt);
        out.write_all(b"differs: ")?;
        out.write_all(line)?;
        out.write_all(b"\n")
    }

    // Prints how many calls there were before a module, if any, and its name. From there on they are counted anew.
    fn begin(&mut self, name: &[u8]) -> io::Result<()> {
        if self.calls > 0 {
            self.count()?;
        }
        self.calls = 0;
        let mut out = io::writer(self.rt);
        out.write_all(name)?;
        out.write_all(b"\n")
    }

    fn count(&self) -> io::Result<()> {
        let calls = self.calls;
        println!(self.rt; "{calls} calls")
    }
}
