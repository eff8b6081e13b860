// Replays session records: those of a real server's captures, and hand-made ones around the limits. Each entry of the two
// files holds a record and the answer that an independent decoder, or document 01, gives. Prints how many there were of
// each type, each difference with its place, and how many.
//
// host/data/records.py makes the files and says how an entry is laid out.
#![tactic(auto)]

ghost use Rattle.std.specs.Prelude.{◌-◌, length};
ghost use Rattle.std.specs.Iterator.{at_most};

use session::SessionStateChange;
use std::fs::File;
use std::rt::Files;
use wire::Text;

// A place in a list. Behind the list's end stand zeros, and a string that passes it is empty.
#[derive(Clone, Copy)]
struct Cursor<'a> {
    list: &'a [u8],
    at: usize,
}

impl<'a> Cursor<'a> {
    fn byte(&mut self) -> u8 {
        let b = files::byte_at(self.list, self.at);
        self.at = self.at.saturating_add(1);
        b
    }

    // A number in two bytes, low byte first.
    fn half(&mut self) -> u16 {
        u16::from_le_bytes([self.byte(), self.byte()])
    }

    // A string behind its length.
    fn string(&mut self) -> &'a [u8] {
        let n = usize::from(self.half());
        let s = wire::part(self.list, self.at, n);
        self.at = self.at.saturating_add(n);
        s
    }
}

// A record, and what is said of it.
#[derive(Clone, Copy)]
struct Entry<'a> {
    at: usize,
    kind: u8,
    // Where the cursor over the variables starts.
    start: usize,
    // The number of the refusal, or 0.
    refusal: u8,
    // The bytes that the record takes, or where the cursor ends.
    used: usize,
    // How many strings there are, or pairs of them where the record is one of variables.
    count: u8,
    body: &'a [u8],
    strings: Cursor<'a>,
}

impl<'a> Entry<'a> {
    fn agrees(&self) -> bool {
        if self.kind == 0 {
            self.variables_agree()
        } else {
            self.record_agrees()
        }
    }

    fn record_agrees(&self) -> bool {
        match session::read_record(self.body, self.kind) {
            Ok(record) => {
                self.refusal == 0 && record.used == self.used && self.change_agrees(record.change)
            }
            Err(r) => refusal::number_of(r) == self.refusal,
        }
    }

    // Whether the record says what the entry's string says, and is of the entry's type.
    fn change_agrees(&self, change: SessionStateChange) -> bool {
        let mut strings = self.strings;
        let said = strings.string();
        match (self.kind, change) {
            (2, SessionStateChange::IsTracked(true)) => said == b"1".as_slice(),
            (2, SessionStateChange::IsTracked(false)) => said == b"0".as_slice(),
            (1, SessionStateChange::Schema(text))
            | (3, SessionStateChange::Gtids(text))
            | (4, SessionStateChange::TransactionCharacteristics(text))
            | (5, SessionStateChange::TransactionState(text))
            | (6.., SessionStateChange::Unsupported(text)) => self.part(text) == said,
            _ => false,
        }
    }

    // Whether the cursor hands out the entry's pairs, and then comes to its end or to the refusal.
    fn variables_agree(&self) -> bool {
        let mut strings = self.strings;
        let mut at = self.start;
        for _ in 0..self.count {
            let Ok(Some(variable)) = session::next_variable(self.body, at) else {
                return false;
            };
            if self.part(variable.name) != strings.string()
                || self.part(variable.value) != strings.string()
            {
                return false;
            }
            at = variable.next;
        }
        at == self.used
            && match session::next_variable(self.body, at) {
                Ok(None) => self.refusal == 0,
                Ok(Some(_)) => false,
                Err(r) => refusal::number_of(r) == self.refusal,
            }
    }

    fn part(&self, text: Text) -> &'a [u8] {
        wire::part(self.body, text.at, text.len)
    }
}

// The entries from a place of a list to its end.
#[derive(Clone, Copy)]
struct Entries<'a>(Cursor<'a>);

impl<'a> Entries<'a> {
    fn of(list: &'a [u8]) -> Self {
        Entries(Cursor { list, at: 0 })
    }
}

impl<'a> Iterator for Entries<'a> {
    type Item = Entry<'a>;

    ghost remaining = { λ s. at_most (length s.0.list.now - s.0.at) };

    fn next(&mut self) -> Option<Entry<'a>> {
        let mut cursor = self.0;
        let at = cursor.at;
        if at >= cursor.list.len() {
            return None;
        }
        let kind = cursor.byte();
        let start = usize::from(cursor.half());
        let refusal = cursor.byte();
        let used = usize::from(cursor.half());
        let count = cursor.byte();
        let body = cursor.string();
        let strings = cursor;
        let each = if kind == 0 { 2 } else { 1 };
        for _ in 0..each * u16::from(count) {
            cursor.string();
        }
        // The cursor stands behind the entry's first byte; said by `max`, that shows that the walk ends.
        self.0.at = cursor.at.max(at + 1);
        Some(Entry {
            at,
            kind,
            start,
            refusal,
            used,
            count,
            body,
            strings,
        })
    }
}

// The types that a line counts together, from the least to the greatest.
const TYPES: [(&str, u8, u8); 7] = [
    ("variables", 0, 0),
    ("schema", 1, 1),
    ("tracked", 2, 2),
    ("gtids", 3, 3),
    ("characteristics", 4, 4),
    ("state", 5, 5),
    ("unsupported", 6, 255),
];

// A line that can't be written is passed over, here and below: what is counted does not depend on it.
fn line(rt: &impl Print, name: &str, n: usize) {
    let _ = println!(rt; "  {name:<17}{n}");
}

fn replay(rt: &impl Print, list: &[u8]) {
    for (name, least, most) in TYPES {
        let n = Entries::of(list)
            .filter(|entry| (least..=most).contains(&entry.kind))
            .count();
        line(rt, name, n);
    }
    let mut differences: usize = 0;
    for entry in Entries::of(list) {
        if !entry.agrees() {
            let _ = println!(rt; "differs: the entry at {}", entry.at);
            differences = differences.saturating_add(1);
        }
    }
    line(rt, "differences", differences);
}

// Of a file that is longer than the buffer, or whose reading fails, what was read by then is replayed.
fn replay_file(rt: &(impl Files + Print), path: &str) {
    let Ok(mut input) = File::open(rt, path) else {
        let _ = println!(rt; "  no such file");
        return;
    };
    let mut buf = [0; 65536];
    let (n, _) = files::read_full(&mut input, &mut buf);
    replay(rt, &buf[..n]);
}

fn main(rt: HostRuntime) {
    let _ = println!(rt; "records of the captures");
    replay_file(&rt, "records.bin");
    let _ = println!(rt; "records around the limits");
    replay_file(&rt, "limits.bin");
}
