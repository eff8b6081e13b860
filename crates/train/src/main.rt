// The 23:59 train: trains with their offsets over midnight, read as the server sends them, and the queue in which they
// leave. An offset of minus one minute is -60,000,000 microseconds and stands first.
//
// Standard input holds, for each train, its name as a length-encoded string and its offset as a binary TIME value.
#![tactic(auto)]

ghost use Rattle.std.specs.Prelude.{◌≤◌, length, IfOk};

use refusal::{Refusal, number_of};
use std::io;
use std::io::{Read, Write};
use wire::{Parsed, part};

// How many bytes of the input are read, and how many trains of it, at most.
const INPUT: u64 = 4096;

const TRAINS: usize = 32;

// Why something of the input is refused, and its place.
#[derive(Clone, Copy)]
struct Refused {
    why: Refusal,
    at: usize,
}

impl Refused {
    // A line that can't be written is passed over, here and below: the queue does not depend on it.
    fn say(self, rt: &impl Print) {
        let _ = println!(rt; "refused: {} at byte {}", number_of(self.why), self.at);
    }
}

#[derive(Clone, Copy)]
struct Train<'a> {
    name: &'a [u8],
    offset: i64,
}

impl Train<'_> {
    // A name may be no UTF-8: its bytes are written.
    fn say(self, rt: &impl Print) {
        let mut out = io::writer(rt);
        let _ = write!(out, "{}\t", self.offset);
        let _ = out.write_all(self.name);
        let _ = writeln!(out);
    }
}

// The train at a place, which is refused where no i64 holds its offset, and the place behind it; none where it can't be read.
fn train_at(input: &[u8], at: usize) -> Result<Parsed<Result<Train<'_>, Refused>>, Refused> {
    let text = wire::checked_eat_lenenc_str(input, at).map_err(|why| Refused { why, at })?;
    let name = part(input, text.at, text.len);
    let at = text.at.saturating_add(text.len);
    let time = duration::read_time(input, at).map_err(|why| Refused { why, at })?;
    let value = match duration::duration_of(time.value) {
        Ok(offset) => Ok(Train { name, offset }),
        Err(why) => Err(Refused { why, at }),
    };
    Ok(Parsed {
        value,
        next: time.next,
    })
}

// The trains in the order in which they leave; of those with one offset, in the input's. What is refused is said, and ends the input
// where it can't be read.
fn load<'a>(rt: &(impl AllocGlobal + Print), input: &'a [u8]) -> io::Result<Vec<Train<'a>>>
    ensures { IfOk result (λ queue. length queue.items ≤ 32) }
{
    let mut queue = Vec::new(rt.alloc());
    let mut at = 0;
    for _ in 0..TRAINS {
        if input.len() <= at {
            break;
        }
        match train_at(input, at) {
            Ok(read) => {
                match read.value {
                    Ok(train) => queue.push(train)?,
                    Err(refused) => refused.say(rt),
                }
                at = read.next;
            }
            Err(refused) => {
                refused.say(rt);
                break;
            }
        }
    }
    queue.sort_by_key(|train| train.offset)?;
    Ok(queue)
}

fn main(rt: HostRuntime) -> io::Result<()> {
    let mut input = Vec::new(rt.alloc());
    // A read that fails is the input's end.
    let _ = rt.reader().take(INPUT).read_to_end(&mut input);
    for train in &load(&rt, &input)? {
        train.say(&rt);
    }
    Ok(())
}
