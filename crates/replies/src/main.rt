// Replays OK, ERR and EOF packets: those of a real server's captures, and hand-made ones cut at every length. Each entry of the
// two files holds a packet and the answer that an independent decoder, or the request's rules, give. Each is read, its records are
// walked and read, and where the writer should make the same bytes it is written again. Prints how many there were of each,
// each difference with its place, and how many.
//
// host/data/replies.py makes the files and says how an entry is laid out.
#![tactic(auto)]

ghost use Rattle.std.specs.Prelude.{◌-◌, length};
ghost use Rattle.std.specs.Iterator.{at_most};

use answer::{EofPacket, ErrPacket, Handed, OkPacket, Packet};
use refusal::Refusal;
use session::SessionStateChange;
use std::fs::File;
use std::rt::Files;
use wire::Text;

// A place in a list. Behind the list's end stand zeros, and a string that passes it is empty.
#[derive(Clone, Copy)]
struct Cursor<'a> {
    list: &'a [u8],
    at: usize,
}

impl<'a> Cursor<'a> {
    fn byte(&mut self) -> u8 {
        let b = files::byte_at(self.list, self.at);
        self.at = self.at.saturating_add(1);
        b
    }

    // A number in two bytes, low byte first.
    fn half(&mut self) -> u16 {
        u16::from_le_bytes([self.byte(), self.byte()])
    }

    // A number in eight bytes; 0 where the list has no eight.
    fn long(&mut self) -> u64 {
        let n = files::long_at(self.list, self.at);
        self.at = self.at.saturating_add(8);
        n
    }

    // A string behind its length.
    fn string(&mut self) -> &'a [u8] {
        let n = usize::from(self.half());
        let s = wire::part(self.list, self.at, n);
        self.at = self.at.saturating_add(n);
        s
    }

    fn record(&mut self) -> Listed<'a> {
        let kind = self.byte();
        let count = self.byte();
        let body = self.string();
        let strings = *self;
        for _ in 0..count {
            self.string();
        }
        Listed {
            kind,
            count,
            body,
            strings,
        }
    }
}

// A record as the list has it: its type, the part of the packet that is handed on, and what that says, a string, or names and values
// in turn.
#[derive(Clone, Copy)]
struct Listed<'a> {
    kind: u8,
    count: u8,
    body: &'a [u8],
    strings: Cursor<'a>,
}

impl<'a> Listed<'a> {
    // Whether a record that was handed on is this one: type, part, and what the reader says of it.
    fn agrees(&self, packet: &[u8], handed: Handed) -> bool {
        handed.kind == self.kind
            && wire::part(packet, handed.at, handed.len) == self.body
            && answer::read_handed(packet, handed).is_ok_and(|record| self.change_agrees(
                record.change,
            ))
    }

    fn change_agrees(&self, change: SessionStateChange) -> bool {
        let mut strings = self.strings;
        match change {
            SessionStateChange::SystemVariables => self.variables_agree(),
            SessionStateChange::IsTracked(true) => strings.string() == b"1".as_slice(),
            SessionStateChange::IsTracked(false) => strings.string() == b"0".as_slice(),
            SessionStateChange::Schema(text)
            | SessionStateChange::Gtids(text)
            | SessionStateChange::TransactionCharacteristics(text)
            | SessionStateChange::TransactionState(text)
            | SessionStateChange::Unsupported(text) => self.part(text) == strings.string(),
        }
    }

    // Whether the cursor hands out the record's names and values, and then comes to its end.
    fn variables_agree(&self) -> bool {
        let mut strings = self.strings;
        let mut at = 0;
        for _ in 0..self.count / 2 {
            let Ok(Some(variable)) = session::next_variable(self.body, at) else {
                return false;
            };
            if self.part(variable.name) != strings.string()
                || self.part(variable.value) != strings.string()
            {
                return false;
            }
            at = variable.next;
        }
        matches!(session::next_variable(self.body, at), Ok(None))
    }

    fn part(&self, text: Text) -> &'a [u8] {
        wire::part(self.body, text.at, text.len)
    }
}

// A packet, and what is said of it.
#[derive(Clone, Copy)]
struct Entry<'a> {
    at: usize,
    tracking: bool,
    // The number of the refusal, or 0.
    refusal: u8,
    header: u8,
    affected_rows: u64,
    last_insert_id: u64,
    // Or an ERR packet's code.
    status: u16,
    warnings: u16,
    used: usize,
    // Whether the writer makes just these bytes.
    written: bool,
    // How many records there are.
    count: u8,
    packet: &'a [u8],
    message: &'a [u8],
    // An OK packet's records, or an ERR packet's state.
    extra: &'a [u8],
    records: Cursor<'a>,
}

impl<'a> Entry<'a> {
    fn agrees(&self) -> bool {
        match answer::read_answer(self.packet, self.tracking) {
            Ok(answered) => {
                self.refusal == 0
                    && answered.used == self.used
                    && self.packet_agrees(answered.packet)
            }
            Err(r) => refusal::number_of(r) == self.refusal,
        }
    }

    fn packet_agrees(&self, packet: Packet) -> bool {
        match (self.header, packet) {
            (0x00, Packet::Ok(ok)) => self.ok_agrees(ok),
            (0xFF, Packet::Err(err)) => self.err_agrees(err),
            (0xFE, Packet::Eof(eof)) => self.eof_agrees(eof),
            _ => false,
        }
    }

    fn ok_agrees(&self, ok: OkPacket) -> bool {
        let message = self.part(ok.message);
        let records = self.part(ok.records);
        let put = |dst: &mut [u8]| {
            answer::put_ok(
                dst,
                0,
                ok.affected_rows,
                ok.last_insert_id,
                ok.status,
                ok.warnings,
                message,
                records,
                self.tracking,
            )
        };
        ok.affected_rows == self.affected_rows
            && ok.last_insert_id == self.last_insert_id
            && ok.status == self.status
            && ok.warnings == self.warnings
            && message == self.message
            && records == self.extra
            && (!self.written || self.is_put_by(put))
            && self.records_agree(ok.records)
    }

    fn err_agrees(&self, err: ErrPacket) -> bool {
        let message = self.part(err.message);
        let state = self.part(err.state);
        err.code == self.status
            && message == self.message
            && state == self.extra
            && self.is_put_by(|dst| answer::put_err(dst, 0, err.code, state, message))
    }

    fn eof_agrees(&self, eof: EofPacket) -> bool {
        eof.status == self.status
            && eof.warnings == self.warnings
            && (!self.written
                || self.is_put_by(|dst| answer::put_eof(dst, 0, eof.warnings, eof.status)))
    }

    // Whether the walk over an OK packet's records hands on the listed ones, and then comes to its end.
    fn records_agree(&self, records: Text) -> bool {
        let end = records.at.saturating_add(records.len);
        let mut listed = self.records;
        let mut at = records.at;
        for _ in 0..self.count {
            let Ok(Some(handed)) = answer::next_record(self.packet, at, end) else {
                return false;
            };
            if !listed.record().agrees(self.packet, handed) {
                return false;
            }
            at = handed.next;
        }
        matches!(answer::next_record(self.packet, at, end), Ok(None))
    }

    // Whether a writer makes the packet.
    fn is_put_by<F: FnOnce(&mut [u8]) -> Result<usize, Refusal>>(&self, put: F) -> bool
        requires { F.IsAlwaysCallable put }
    {
        let mut buf = [0; 2048];
        put(&mut buf).is_ok_and(|n| wire::part(&buf, 0, n) == self.packet)
    }

    fn part(&self, text: Text) -> &'a [u8] {
        wire::part(self.packet, text.at, text.len)
    }
}

// The entries from a place of a list to its end.
#[derive(Clone, Copy)]
struct Entries<'a>(Cursor<'a>);

impl<'a> Entries<'a> {
    fn of(list: &'a [u8]) -> Self {
        Entries(Cursor { list, at: 0 })
    }
}

impl<'a> Iterator for Entries<'a> {
    type Item = Entry<'a>;

    ghost remaining = { λ s. at_most (length s.0.list.now - s.0.at) };

    fn next(&mut self) -> Option<Entry<'a>> {
        let mut cursor = self.0;
        let at = cursor.at;
        if at >= cursor.list.len() {
            return None;
        }
        let tracking = cursor.byte() == 1;
        let refusal = cursor.byte();
        let header = cursor.byte();
        let affected_rows = cursor.long();
        let last_insert_id = cursor.long();
        let status = cursor.half();
        let warnings = cursor.half();
        let used = usize::from(cursor.half());
        let written = cursor.byte() == 1;
        let count = cursor.byte();
        let packet = cursor.string();
        let message = cursor.string();
        let extra = cursor.string();
        let records = cursor;
        for _ in 0..count {
            cursor.record();
        }
        // The cursor stands behind the entry's first byte; said by `max`, that shows that the walk ends.
        self.0.at = cursor.at.max(at + 1);
        Some(Entry {
            at,
            tracking,
            refusal,
            header,
            affected_rows,
            last_insert_id,
            status,
            warnings,
            used,
            written,
            count,
            packet,
            message,
            extra,
            records,
        })
    }
}

// A line that can't be written is passed over, here and below: what is counted does not depend on it.
fn line(rt: &impl Print, name: &str, n: usize) {
    let _ = println!(rt; "  {name:<13}{n}");
}

fn replay(rt: &impl Print, list: &[u8]) {
    for (name, header) in [("ok", 0x00), ("err", 0xFF), ("eof", 0xFE)] {
        let n = Entries::of(list)
            .filter(|entry| entry.refusal == 0 && entry.header == header)
            .count();
        line(rt, name, n);
    }
    let records = Entries::of(list).fold(
        0usize,
        |n, entry| n.saturating_add(usize::from(entry.count)),
    );
    line(rt, "records", records);
    for (name, refusal) in [("refused 8", 8), ("refused 9", 9), ("refused 14", 14)] {
        let n = Entries::of(list)
            .filter(|entry| entry.refusal == refusal)
            .count();
        line(rt, name, n);
    }
    let mut differences: usize = 0;
    for entry in Entries::of(list) {
        if !entry.agrees() {
            let _ = println!(rt; "differs: the entry at {}", entry.at);
            differences = differences.saturating_add(1);
        }
    }
    line(rt, "differences", differences);
}

// Of a file that is longer than the buffer, or whose reading fails, what was read by then is replayed.
fn replay_file(rt: &(impl Files + Print), path: &str) {
    let Ok(mut input) = File::open(rt, path) else {
        let _ = println!(rt; "  no such file");
        return;
    };
    let mut buf = [0; 65536];
    let (n, _) = files::read_full(&mut input, &mut buf);
    replay(rt, &buf[..n]);
}

fn main(rt: HostRuntime) {
    let _ = println!(rt; "packets of the captures");
    replay_file(&rt, "replies.bin");
    let _ = println!(rt; "packets cut at every length");
    replay_file(&rt, "limits.bin");
}
