// Rows, parameter lists, NULL bits and NULL counts around every limit, each against the answer that an independent decoder
// gives (host/data/rowvectors.py, which also says how the file is laid out). After a refusal the list must be as it was.
#![tactic(auto)]

use files::{half_at, read_front, tail};
use refusal::{Refusal, number_of};
use row::{Columns, Side};
use std::fs::File;
use std::io;
use wire::part;

// How many bytes of the list are read: what a longer file has behind them is not.
const LIST: u64 = 65_536;

// More cases than a file holds.
const CASES: usize = 2700;

// What the list of starts holds before each call: no start comes near it.
const MARK: usize = 0x7654_3210;

// The most columns, and four places more.
const PLACES: usize = 4100;

// The kinds of cases, each at its number.
const KINDS: [&str; 4] = ["rows", "parameter lists", "NULL bits", "NULL counts"];

// A case: its numbers stand from its place on, and the bytes that it points at in the list.
#[derive(Clone, Copy)]
struct Case<'a> {
    file: &'a [u8],
    listed: &'a [u8],
}

impl<'a> Case<'a> {
    fn of(file: &'a [u8], k: usize) -> Self {
        let listed = tail(file, k.saturating_mul(24).saturating_add(2));
        Case { file, listed }
    }

    fn half(self, at: usize) -> usize {
        usize::from(half_at(self.listed, at))
    }

    // The part whose place and length stand at two places of the case.
    fn part(self, at: usize, len: usize) -> &'a [u8] {
        part(self.file, self.half(at), self.half(len))
    }

    fn map(self) -> &'a [u8] {
        self.part(2, 4)
    }

    fn side(self) -> Side {
        if self.half(6) == 0 {
            Side::ServerSide
        } else {
            Side::ClientSide
        }
    }

    // A column, or how many there are, in four halves: what the list's end cuts off is 0, and the halves before that count.
    fn column(self) -> usize {
        let [a, b] = half_at(self.listed, 8).to_le_bytes();
        let [c, d] = half_at(self.listed, 10).to_le_bytes();
        let [e, f] = half_at(self.listed, 12).to_le_bytes();
        let [g, h] = half_at(self.listed, 14).to_le_bytes();
        u64::from_le_bytes([a, b, c, d, e, f, g, h]) as usize
    }

    // Whether an answer is the one that is listed: a value, or a refusal by its number.
    fn is_said<T: PartialEq + Copy>(self, answer: Result<T, Refusal>, value: T) -> bool {
        let status = self.half(16);
        match answer {
            Ok(got) => status == 0 && got == value,
            Err(why) => status == usize::from(number_of(why)),
        }
    }

    // Whether a list has the starts that are listed in its front, none where the case is refused, and behind them what it had.
    fn holds(self, list: &[usize]) -> bool {
        let n = if self.half(16) == 0 { self.half(8) } else { 0 };
        let starts = tail(self.file, self.half(22));
        let (front, behind) = list.split_at(n.min(list.len()));
        front.iter().enumerate().all(|(i, start)| *start
            == usize::from(half_at(starts, i.saturating_mul(2))))
            && behind.iter().all(|start| *start == MARK)
    }

    // A row or a parameter list, with the list of starts out of the front of a longer one.
    fn is_read<F: FnOnce(&[u8], &[u8], &[u8], &mut [usize]) -> Result<Columns, Refusal>>(
        self,
        read: F,
        list: &mut [usize],
    ) -> bool
        requires { F.IsAlwaysCallable read }
    {
        list.fill(MARK);
        let Some(starts) = list.get_mut(..self.half(14)) else {
            return false;
        };
        let answer = read(self.part(2, 4), self.part(6, 8), self.part(10, 12), starts);
        let columns = Columns {
            nulls: self.half(18),
            used: self.half(20),
        };
        self.is_said(answer, columns) && self.holds(list)
    }

    // Whether the case is answered as it should be, by its kind.
    fn is_right(self, list: &mut [usize]) -> bool {
        match self.half(0) {
            0 => self.is_read(row::read_row, list),
            1 => self.is_read(row::read_params, list),
            2 => {
                let bit = row::null_bit(self.map(), self.side(), self.column());
                self.is_said(bit.map(usize::from), self.half(18))
            }
            3 => {
                let count = row::null_count(self.map(), self.side(), self.column());
                self.is_said(count, self.half(18))
            }
            _ => false,
        }
    }
}

// How many cases are answered otherwise. A line that can't be written is passed over, here and in `main`: what is counted does not
// depend on it.
fn differences(rt: &impl Print, file: &[u8], n: usize) -> usize {
    let mut list = [MARK; PLACES];
    let mut differences = 0usize;
    for k in 0..n.min(CASES) {
        if !Case::of(file, k).is_right(&mut list) {
            let _ = println!(rt; "differs: case {k}");
            differences = differences.saturating_add(1);
        }
    }
    differences
}

fn main(rt: HostRuntime) -> io::Result<()> {
    let file = read_front(File::open(&rt, "vectors")?, LIST, rt.alloc())?;
    let n = usize::from(half_at(&file, 0));
    let differences = differences(&rt, &file, n);
    for (number, kind) in KINDS.iter().enumerate() {
        let count = (0..n)
            .filter(|&k| Case::of(&file, k).half(0) == number)
            .count();
        let _ = println!(rt; "{kind} {count}");
    }
    let _ = println!(rt; "differences {differences}");
    Ok(())
}
