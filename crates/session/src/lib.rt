// Session state records, from mysql_common's packets/session_state_change.rs, its names kept.
//
// A record is a type and its bytes, lent as a slice that may start anywhere in a packet. Strings are answered as a part
// of those bytes, place and length; `wire::part` hands the part itself back. A record of variables is read one pair a
// call: the cursor is a place, 0 at first, and each answer holds the next one.
#![tactic(auto)]

ghost use Rattle.refusal.specs.Said.{said_of};
ghost use Rattle.std.specs.Prelude.{◌≡◌, length};
ghost use Rattle.session.specs.Record.{record_at, variable_at, variable_said, record_bytes, pair_bytes};
ghost use Rattle.session.specs.RecordLaws.{IsReadAs};
ghost use Rattle.wire.specs.LenEnc.{str_at};
ghost use Rattle.wire.specs.Room.{Wrote};

use refusal::Refusal;
use wire::{Text, inner};

// A name, its value, and the place of the next pair.
#[derive(Clone, Copy, PartialEq, Eq)]
pub struct SystemVariable {
    pub name: Text,
    pub value: Text,
    pub next: usize,
}

#[derive(Clone, Copy, PartialEq, Eq)]
pub enum SessionStateChange {
    // Handed out pair by pair, by `next_variable`.
    SystemVariables,
    Schema(Text),
    IsTracked(bool),
    Gtids(Text),
    TransactionCharacteristics(Text),
    TransactionState(Text),
    Unsupported(Text),
}

// What a record says, and how many of its bytes that took.
#[derive(Clone, Copy, PartialEq, Eq)]
pub struct Record {
    pub change: SessionStateChange,
    pub used: usize,
}

// A record of one string, and what its type makes of that. Bytes behind the string are left unread.
#[tactic(auto, using(crate::specs::RecordLaws::text_in))]
fn read_string<F: FnOnce(Text) -> SessionStateChange>(
    s: &[u8],
    change: F,
) -> Result<Record, Refusal>
    requires { F.IsAlwaysCallable change }
    ensures { IsReadAs (F.post change) (str_at s.now 0) result }
{
    let text = wire::checked_eat_lenenc_str(s, 0)?;
    Ok(Record {
        change: change(text),
        used: text.at + text.len,
    })
}

// A record's bytes by its type; a type that the document does not name is kept as unsupported.
#[tactic(auto, unfolding(crate::specs::Record::record_at))]
pub fn read_record(s: &[u8], kind: u8) -> Result<Record, Refusal>
    ensures { said_of result ≡ record_at s.now kind }
{
    let used = s.len();
    let whole = Text { at: 0, len: used };
    match kind {
        0 => Ok(Record {
            change: SessionStateChange::SystemVariables,
            used: 0,
        }),
        1 => read_string(s, SessionStateChange::Schema),
        2 => read_string(s, |flag| {
            SessionStateChange::IsTracked(wire::part(s, flag.at, flag.len) == b"1".as_slice())
        }),
        3 => Ok(Record {
            change: SessionStateChange::Gtids(whole),
            used,
        }),
        4 => read_string(s, SessionStateChange::TransactionCharacteristics),
        5 => read_string(s, SessionStateChange::TransactionState),
        _ => Ok(Record {
            change: SessionStateChange::Unsupported(whole),
            used,
        }),
    }
}

// The pair at the cursor. A refusal leaves the cursor to the caller as it was; past the end no name can be read, so that
// is 8 as well.
#[tactic(auto, using(crate::specs::RecordLaws::cursor))]
pub fn next_variable(s: &[u8], at: usize) -> Result<Option<SystemVariable>, Refusal>
    ensures { variable_said result ≡ variable_at s.now at }
{
    if at == s.len() {
        return Ok(None);
    }
    let name = wire::checked_eat_lenenc_str(s, at)?;
    let value = wire::checked_eat_lenenc_str(s, name.at + name.len)?;
    let next = value.at + value.len;
    Ok(Some(SystemVariable { name, value, next }))
}

// A record's bytes, as `read_record` takes them. Strings are parts of `src`; variables are written by `put_variable`.
pub fn put_record(
    dst: &mut [u8],
    at: usize,
    src: &[u8],
    change: SessionStateChange,
) -> Result<usize, Refusal>
    ensures { Wrote (record_bytes src.now change) dst.old at result dst.new }
{
    match change {
        SessionStateChange::SystemVariables => wire::put_slice(dst, at, b""),
        SessionStateChange::IsTracked(true) => wire::put_slice(dst, at, b"\x011"),
        SessionStateChange::IsTracked(false) => wire::put_slice(dst, at, b"\x010"),
        SessionStateChange::Schema(text)
        | SessionStateChange::TransactionCharacteristics(text)
        | SessionStateChange::TransactionState(text) => {
            wire::put_lenenc_str(dst, at, wire::part(src, text.at, text.len))
        }
        SessionStateChange::Gtids(text) | SessionStateChange::Unsupported(text) => {
            wire::put_slice(dst, at, wire::part(src, text.at, text.len))
        }
    }
}

// A name and its value. The room for both is tested before the first byte is written, so that a refusal changes none.
pub fn put_variable(dst: &mut [u8], at: usize, name: &[u8], value: &[u8]) -> Result<usize, Refusal>
    ensures { Wrote (pair_bytes name.now value.now) dst.old at result dst.new }
{
    let first = wire::lenenc_str_len(name);
    if !inner::has(dst, at, first) || !inner::has(dst, at + first, wire::lenenc_str_len(value)) {
        return Err(Refusal::NoRoom);
    }
    let next = wire::put_lenenc_str(dst, at, name)?;
    wire::put_lenenc_str(dst, next, value)
}
