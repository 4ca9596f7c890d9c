// A line of a list, `NAME ARG ARG .. = NUMBER VALUE VALUE ..`, as its name and its numbers.
ghost use Rattle.std.specs.Prelude.{◌+◌, ◌≤◌, IfSome, length};

// A call: its name and arguments, and the numbers that its answer is to be. A line with none of these is no call, but begins what follows.
#[derive(Clone, Copy)]
pub struct Call<'a> {
    pub name: &'a [u8],
    pub given: &'a [u64],
    pub want: &'a [u64],
}

// The call of a line. Its numbers stand in the front of `room`.
pub fn parse<'a>(line: &'a [u8], room: &'a mut [u64]) -> Option<Call<'a>>
    ensures { IfSome result (λ call. (length call.name.now ≤ length line.now)
        × (length call.given.now + length call.want.now ≤ length room.old)) }
{
    let mut words = line.split(|byte| *byte == b' ');
    let name = words.next()?;
    let mut args = None;
    let mut numbers = 0;
    for word in words {
        match word {
            b"=" if args.is_none() => args = Some(numbers),
            _ => {
                *room.get_mut(numbers)? = number(word)?;
                numbers += 1;
            }
        }
    }
    let (given, want) = room.get(..numbers)?.split_at_checked(args?)?;
    Some(Call { name, given, want })
}

// A decimal number below 2^64. Text's `parse` would take a sign too.
fn number(word: &[u8]) -> Option<u64> {
    if word.is_empty() {
        return None;
    }
    let mut value: u64 = 0;
    for byte in word {
        if !byte.is_ascii_digit() {
            return None;
        }
        value = value.checked_mul(10)?.checked_add(u64::from(byte - b'0'))?;
    }
    Some(value)
}
