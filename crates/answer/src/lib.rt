// OK, ERR and EOF packets of protocol 4.1, as MySQL's document gives them: what a server answers to a command.
//
// A packet is lent whole, and what is not a number is answered as a part of it, place and length. The session records of an OK
// packet are such a part too: a cursor walks it, and hands each record on, to the reader of room `session`, as a part that starts
// where the record's bytes do.
#![tactic(auto)]

ghost use Rattle.refusal.specs.Said.{said_of};
ghost use Rattle.std.specs.Prelude.{◌≡◌, ◌+◌, ◌≤◌, length};
ghost use Rattle.wire.specs.Le.{le_at};
ghost use Rattle.wire.specs.Room.{Wrote};
ghost use Rattle.answer.specs.Answer.{tracks, tracked_texts, texts_at, ok_rest, ok_at, err_at, eof_at, answer_at};
ghost use Rattle.answer.specs.Written.{words, ok_head, text_bytes, ok_bytes, err_head, err_bytes, WroteErr, eof_bytes, holds_length, body_on_wire, record_on_wire};
ghost use Rattle.answer.specs.Records.{next_said, next_in, next_at, handed_of, handed_record};

use refusal::Refusal;
use session::Record;
use wire::{Text, inner};

#[derive(Clone, Copy, PartialEq, Eq)]
pub struct OkPacket {
    pub affected_rows: u64,
    pub last_insert_id: u64,
    pub status: u16,
    pub warnings: u16,
    pub message: Text,
    // Empty, behind the message, where there are none.
    pub records: Text,
}

#[derive(Clone, Copy, PartialEq, Eq)]
pub struct ErrPacket {
    pub code: u16,
    pub state: Text,
    pub message: Text,
}

#[derive(Clone, Copy, PartialEq, Eq)]
pub struct EofPacket {
    pub warnings: u16,
    pub status: u16,
}

#[derive(Clone, Copy, PartialEq, Eq)]
pub enum Packet {
    Ok(OkPacket),
    Err(ErrPacket),
    Eof(EofPacket),
}

// A packet that was read, and how many of its bytes that took.
#[derive(Clone, Copy, PartialEq, Eq)]
pub struct Answered {
    pub packet: Packet,
    pub used: usize,
}

// A record's type, the part of the packet that `read_handed` reads, and the place of the next record.
#[derive(Clone, Copy, PartialEq, Eq)]
pub struct Handed {
    pub kind: u8,
    pub at: usize,
    pub len: usize,
    pub next: usize,
}

// What stands behind the numbers of an OK packet.
#[derive(Clone, Copy)]
pub struct Texts {
    pub message: Text,
    pub records: Text,
}

// ---- reading

// The number in the two bytes at a place.
fn word(s: &[u8], at: usize) -> u16
    requires { at + 2 ≤ length s.now }
    ensures { result ≡ le_at s.now at 2 }
{
    inner::le(s, at, 2) as u16
}

// Whether the status has the bit that announces session records, 0x4000.
fn announces(status: u16) -> bool
    ensures { result ≡ tracks status }
{
    status & 0x4000 != 0
}

// Message and records, each behind its length; without the bit there are no records.
#[tactic(auto, using(session::specs::RecordLaws::text_in))]
fn read_tracked(s: &[u8], at: usize, more: bool) -> Result<Texts, Refusal>
    ensures { said_of result ≡ tracked_texts s.now at more }
{
    let message = wire::checked_eat_lenenc_str(s, at)?;
    let end = message.at + message.len;
    if more {
        let records = wire::checked_eat_lenenc_str(s, end)?;
        return Ok(Texts { message, records });
    }
    let records = Text { at: end, len: 0 };
    Ok(Texts { message, records })
}

// Without tracking the message runs to the end. With it, where nothing is left there is no message, which is the same part.
#[tactic(auto, unfolding(crate::specs::Answer::texts_at))]
fn read_texts(s: &[u8], at: usize, tracking: bool, more: bool) -> Result<Texts, Refusal>
    requires { at ≤ length s.now }
    ensures { said_of result ≡ texts_at s.now at tracking more }
{
    let end = s.len();
    if tracking && at < end {
        return read_tracked(s, at, more);
    }
    let message = Text { at, len: end - at };
    let records = Text { at: end, len: 0 };
    Ok(Texts { message, records })
}

// An OK packet from its status on.
#[tactic(auto, using(crate::specs::AnswerLaws::ok_cases))]
fn read_ok_rest(
    s: &[u8],
    tracking: bool,
    rows: u64,
    id: u64,
    at: usize,
) -> Result<Answered, Refusal>
    ensures { said_of result ≡ ok_rest s.now tracking rows id at }
{
    if !inner::has(s, at, 4) {
        return Err(Refusal::Short);
    }
    let status = word(s, at);
    let warnings = word(s, at + 2);
    let texts = read_texts(s, at + 4, tracking, announces(status))?;
    let packet = Packet::Ok(OkPacket {
        affected_rows: rows,
        last_insert_id: id,
        status,
        warnings,
        message: texts.message,
        records: texts.records,
    });
    let used = texts.records.at + texts.records.len;
    Ok(Answered { packet, used })
}

#[tactic(auto, unfolding(crate::specs::Answer::ok_at))]
fn read_ok(s: &[u8], tracking: bool) -> Result<Answered, Refusal>
    ensures { said_of result ≡ ok_at s.now tracking }
{
    let rows = wire::checked_eat_lenenc_int(s, 1)?;
    let id = wire::checked_eat_lenenc_int(s, rows.next)?;
    read_ok_rest(s, tracking, rows.value, id.value, id.next)
}

#[tactic(auto, using(crate::specs::AnswerLaws::err_cases))]
fn read_err(s: &[u8]) -> Result<Answered, Refusal>
    ensures { said_of result ≡ err_at s.now }
{
    let mark = *s.get(3).ok_or(Refusal::Short)?;
    if mark != b'#' {
        return Err(Refusal::BadPacket);
    }
    if s.len() < 9 {
        return Err(Refusal::Short);
    }
    let packet = Packet::Err(ErrPacket {
        code: word(s, 1),
        state: Text { at: 4, len: 5 },
        message: Text {
            at: 9,
            len: s.len() - 9,
        },
    });
    Ok(Answered {
        packet,
        used: s.len(),
    })
}

#[tactic(auto, using(crate::specs::AnswerLaws::eof_cases))]
fn read_eof(s: &[u8]) -> Result<Answered, Refusal>
    ensures { said_of result ≡ eof_at s.now }
{
    if s.len() < 5 {
        return Err(Refusal::Short);
    }
    let packet = Packet::Eof(EofPacket {
        warnings: word(s, 1),
        status: word(s, 3),
    });
    Ok(Answered { packet, used: 5 })
}

// A packet by its header byte; `tracking` says whether session tracking was agreed at the login.
#[tactic(auto, unfolding(crate::specs::Answer::answer_at))]
pub fn read_answer(packet: &[u8], tracking: bool) -> Result<Answered, Refusal>
    ensures { said_of result ≡ answer_at packet.now tracking }
{
    match *packet.first().ok_or(Refusal::Short)? {
        0x00 => read_ok(packet, tracking),
        0xFF => read_err(packet),
        0xFE if packet.len() < 9 => read_eof(packet),
        _ => Err(Refusal::BadPacket),
    }
}

// ---- session records, by cursor

// The part that is handed on: `from` is the place behind the type, and the body stands there behind its length. Of type 2 a body of one byte is
// handed on with its length, which is the string that the reader takes.
#[tactic(auto, unfolding(crate::specs::Records::handed_of))]
fn hand_on(kind: u8, from: usize, body: Text) -> Handed
    requires { (from ≤ body.at) × (body.at + body.len ≤ 0xFFFF_FFFF_FFFF_FFFF) }
    ensures { result ≡ handed_of kind from body.at body.len }
{
    let next = body.at + body.len;
    let at = if kind == 2 && body.len == 1 {
        from
    } else {
        body.at
    };
    Handed {
        kind,
        at,
        len: next - at,
        next,
    }
}

// The record at a place of bytes that hold nothing else to their end.
#[tactic(auto, using(crate::specs::RecordsLaws::next_cases))]
fn next_in(s: &[u8], at: usize) -> Result<Option<Handed>, Refusal>
    ensures { next_said result ≡ next_in s.now at }
{
    if at == s.len() {
        return Ok(None);
    }
    let kind = *s.get(at).ok_or(Refusal::Short)?;
    let body = wire::checked_eat_lenenc_str(s, at + 1)?;
    Ok(Some(hand_on(kind, at + 1, body)))
}

// The record at the cursor, which goes from the place of an OK packet's records to their end.
#[tactic(auto, unfolding(crate::specs::Records::next_at))]
pub fn next_record(packet: &[u8], at: usize, end: usize) -> Result<Option<Handed>, Refusal>
    ensures { next_said result ≡ next_at packet.now at end }
{
    next_in(packet.get(..end).ok_or(Refusal::Short)?, at)
}

// What the record says that was handed on. A part that nobody handed out, outside the packet, reads as an empty one.
pub fn read_handed(packet: &[u8], h: Handed) -> Result<Record, Refusal>
    ensures { said_of result ≡ handed_record packet.now h }
{
    session::read_record(wire::part(packet, h.at, h.len), h.kind)
}

// ---- writing

// Two numbers of two bytes, one behind the other.
#[tactic(auto, using(crate::specs::WrittenLaws::writing))]
fn put_words(dst: &mut [u8], at: usize, a: u16, b: u16) -> Result<usize, Refusal>
    ensures { Wrote (words a b) dst.old at result dst.new }
{
    if !inner::has(dst, at, 4) {
        return Err(Refusal::NoRoom);
    }
    let next = wire::put_u16_le(dst, at, a)?;
    wire::put_u16_le(dst, next, b)
}

// An OK packet up to its message.
#[tactic(auto, using(crate::specs::WrittenLaws::writing))]
fn put_ok_head(
    dst: &mut [u8],
    at: usize,
    rows: u64,
    id: u64,
    status: u16,
    warnings: u16,
) -> Result<usize, Refusal>
    requires { at + length (ok_head rows id status warnings) ≤ length dst.old }
    ensures { Wrote (ok_head rows id status warnings) dst.old at result dst.new }
{
    let first = wire::put_slice(dst, at, b"\x00")?;
    let second = wire::put_lenenc_int(dst, first, rows)?;
    let third = wire::put_lenenc_int(dst, second, id)?;
    put_words(dst, third, status, warnings)
}

// The message, and the records if they are announced: two strings, as a name and a value are.
fn put_texts(
    dst: &mut [u8],
    at: usize,
    tracking: bool,
    more: bool,
    message: &[u8],
    records: &[u8],
) -> Result<usize, Refusal>
    ensures { Wrote (text_bytes tracking more message.now records.now) dst.old at result dst.new }
{
    match (tracking, more) {
        (true, true) => session::put_variable(dst, at, message, records),
        (true, false) => wire::put_lenenc_str(dst, at, message),
        (false, _) => wire::put_slice(dst, at, message),
    }
}

// An OK packet. Its end is written first: whether that fits is known only then, and a refusal must change no byte.
#[tactic(auto, using(crate::specs::WrittenLaws::writing))]
pub fn put_ok(
    dst: &mut [u8],
    at: usize,
    rows: u64,
    id: u64,
    status: u16,
    warnings: u16,
    message: &[u8],
    records: &[u8],
    tracking: bool,
) -> Result<usize, Refusal>
    ensures { Wrote (ok_bytes rows id status warnings message.now records.now tracking)
        dst.old at result dst.new }
{
    let head = 5 + wire::lenenc_int_len(rows) + wire::lenenc_int_len(id);
    if !inner::has(dst, at, head) {
        return Err(Refusal::NoRoom);
    }
    let end = put_texts(
        dst,
        at + head,
        tracking,
        announces(status),
        message,
        records,
    )?;
    put_ok_head(dst, at, rows, id, status, warnings)?;
    Ok(end)
}

// An ERR packet up to its message.
#[tactic(auto, using(crate::specs::WrittenLaws::writing))]
fn put_err_head(dst: &mut [u8], at: usize, code: u16, state: &[u8]) -> Result<usize, Refusal>
    requires { at + length (err_head code state.now) ≤ length dst.old }
    ensures { Wrote (err_head code state.now) dst.old at result dst.new }
{
    let first = wire::put_slice(dst, at, b"\xFF")?;
    let second = wire::put_u16_le(dst, first, code)?;
    let third = wire::put_slice(dst, second, b"#")?;
    wire::put_slice(dst, third, state)
}

// An ERR packet, its message first. A state that is not five bytes long is 8.
#[tactic(auto, using(crate::specs::WrittenLaws::writing))]
pub fn put_err(
    dst: &mut [u8],
    at: usize,
    code: u16,
    state: &[u8],
    message: &[u8],
) -> Result<usize, Refusal>
    ensures { WroteErr code state.now message.now dst.old at result dst.new }
{
    if state.len() != 5 {
        return Err(Refusal::Short);
    }
    if !inner::has(dst, at, 9) {
        return Err(Refusal::NoRoom);
    }
    let end = wire::put_slice(dst, at + 9, message)?;
    put_err_head(dst, at, code, state)?;
    Ok(end)
}

#[tactic(auto, using(crate::specs::WrittenLaws::writing))]
pub fn put_eof(dst: &mut [u8], at: usize, warnings: u16, status: u16) -> Result<usize, Refusal>
    ensures { Wrote (eof_bytes warnings status) dst.old at result dst.new }
{
    if !inner::has(dst, at, 5) {
        return Err(Refusal::NoRoom);
    }
    let next = wire::put_slice(dst, at, b"\xFE")?;
    put_words(dst, next, warnings, status)
}

// Whether a record's bytes hold its length on the wire already: those of type 2 that are a one-byte string.
#[tactic(auto, unfolding(crate::specs::Written::holds_length))]
fn holds_length(src: &[u8], kind: u8) -> bool
    ensures { result ≡ holds_length src.now kind }
{
    kind == 2 && src.len() == 2 && src[0] == 1
}

fn put_body(dst: &mut [u8], at: usize, src: &[u8], kind: u8) -> Result<usize, Refusal>
    ensures { Wrote (body_on_wire src.now kind) dst.old at result dst.new }
{
    if holds_length(src, kind) {
        wire::put_slice(dst, at, src)
    } else {
        wire::put_lenenc_str(dst, at, src)
    }
}

// A record as servers make it: `src` holds its bytes, as the writers of room `session` make them.
#[tactic(auto, using(crate::specs::WrittenLaws::writing))]
pub fn put_record(dst: &mut [u8], at: usize, src: &[u8], kind: u8) -> Result<usize, Refusal>
    ensures { Wrote (record_on_wire src.now kind) dst.old at result dst.new }
{
    if !inner::has(dst, at, 1) {
        return Err(Refusal::NoRoom);
    }
    let end = put_body(dst, at + 1, src, kind)?;
    wire::put_u8(dst, at, kind)?;
    Ok(end)
}
