// Replays a long list of literals of both modes, good and bad, each against what the grammar says of it (host/data/literals.py, which also
// says how a line of the file is laid out): the judge's answer, the meaning and the buffer behind it, a buffer that just holds it, one that is
// a byte too short, and that a refused call changes nothing. Prints how many lines there were of each kind, and each difference.
#![tactic(auto)]

ghost use Rattle.std.specs.Prelude.{◌≤◌};

use literal::Bad;
use refusal::Refusal;
use std::alloc::{AllocError, Global};
use std::fs::File;
use std::io;
use std::io::Read;

// How many bytes of the list are read: what a longer file has behind them is not.
const LIST: u64 = 65_536;

// The longest buffer that is lent: no literal of the list means so many bytes. Of an input, or a meaning, so many are read.
const ROOM: usize = 256;

// What the buffer holds before each call.
const MARK: u8 = 0xA5;

// How many bytes a literal means; or why it is refused, and the place.
type Answer = Result<usize, (Refusal, usize)>;

fn answer(checked: Result<usize, Bad>) -> Answer {
    checked.map_err(|bad| (bad.why, bad.place))
}

// ---- a line

fn digit(c: u8) -> u8
    ensures { result ≤ 15 }
{
    match c {
        b'0'..=b'9' => c - b'0',
        b'a'..=b'f' => c - b'a' + 10,
        _ => 0,
    }
}

// A number in at most six digits: of more, the last six count.
fn number(digits: &[u8]) -> usize {
    digits.iter().fold(0usize, |n, c| {
        n.saturating_mul(10).saturating_add(usize::from(digit(*c))) % 1_000_000
    })
}

fn bytes_of(alloc: Global, hex: &[u8]) -> Result<Vec<u8>, AllocError> {
    let (pairs, _) = hex.as_chunks::<2>();
    pairs
        .iter()
        .take(ROOM)
        .map(|[high, low]| digit(*high) * 16 + digit(*low))
        .collect(alloc)
}

// A literal of a mode, and what the grammar says of it: the bytes that it means, or the place where it is none.
#[derive(Drop)]
struct Case {
    no_backslash_escape: bool,
    input: Vec<u8>,
    said: Result<Vec<u8>, usize>,
}

impl Case {
    // A line has the mode in front, the input behind it up to a space, and then the sign and what it says.
    fn of(alloc: Global, line: &[u8]) -> Result<Self, AllocError> {
        let fields = line.get(2..).unwrap_or_default();
        let end = fields.iter().position(|b| *b == b' ');
        let (input, said) = fields.split_at(end.unwrap_or(fields.len()));
        let told = said.get(3..).unwrap_or_default();
        Ok(Case {
            no_backslash_escape: line.starts_with(b"o"),
            input: bytes_of(alloc, input)?,
            said: if said.starts_with(b" =") {
                Ok(bytes_of(alloc, told)?)
            } else {
                Err(number(told))
            },
        })
    }

    // Whether the answer into a buffer of so many bytes is this one, and the buffer holds these bytes then, and behind them what it held.
    fn writes(&self, room: usize, due: Answer, meaning: &[u8]) -> bool {
        let mut space = [MARK; ROOM];
        let Some(buf) = space.get_mut(..room) else {
            return false;
        };
        let said = answer(literal::checked(buf, &self.input, self.no_backslash_escape));
        said == due
            && buf
                .strip_prefix(meaning)
                .is_some_and(|behind| [MARK; ROOM].starts_with(behind))
    }

    fn is_right(&self) -> bool {
        let counted = answer(literal::checked_len(&self.input, self.no_backslash_escape));
        match &self.said {
            Ok(meaning) => {
                let n = meaning.len();
                let no_room = Err((Refusal::NoRoom, 0));
                counted == Ok(n)
                    && self.writes(ROOM, Ok(n), meaning)
                    && self.writes(n, Ok(n), meaning)
                    && (n == 0 || self.writes(n - 1, no_room, b""))
            }
            Err(place) => {
                let bad = Err((Refusal::BadLiteral, *place));
                // 15 comes before 6: also with no room at all.
                counted == bad && self.writes(ROOM, bad, b"") && self.writes(0, bad, b"")
            }
        }
    }
}

// A line that can't be written is passed over: what is counted does not depend on it.
fn main(rt: HostRuntime) -> io::Result<()> {
    let mut list = Vec::new(rt.alloc());
    File::open(&rt, "literals.txt")?
        .take(LIST)
        .read_to_end(&mut list)?;
    let mut literals = 0usize;
    let mut other = 0usize;
    let mut good = 0usize;
    let mut differences = 0usize;
    for line in list.split_inclusive(|b| *b == b'\n') {
        let case = Case::of(rt.alloc(), line.strip_suffix(b"\n").unwrap_or(line))?;
        literals = literals.saturating_add(1);
        other = other.saturating_add(usize::from(case.no_backslash_escape));
        good = good.saturating_add(usize::from(case.said.is_ok()));
        if !case.is_right() {
            let _ = println!(rt; "differs: line {literals}");
            differences = differences.saturating_add(1);
        }
    }
    let _ = println!(rt; "literals {literals}");
    let _ = println!(rt; "of them in the other mode {other}");
    let _ = println!(rt; "good {good}");
    let _ = println!(rt; "differences {differences}");
    Ok(())
}
