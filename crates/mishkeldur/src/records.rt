// Quoting and session records.
ghost use Rattle.std.specs.Prelude.{◌≡◌, length};
ghost use Rattle.wire.specs.Room.{length_of};
ghost use Rattle.escape.specs.Quote.{quoted};
ghost use Rattle.session.specs.Record.{record_at, variable_at, record_bytes, pair_bytes};
ghost use Rattle.mishkeldur.specs.Face.{status, holds, flag, Puts};
ghost use Rattle.mishkeldur.specs.Values.{text_place, text_len, tracked_no, change_of, found_no, of_pair};

use crate::{flag, give};
use refusal::number_of;
use session::SessionStateChange;
use wire::Text;

// ---- quoting

// How many bytes `mk_escaped` writes.
#[unsafe(no_mangle)]
pub extern "C" fn mk_escaped_len(input: &[u8], no_backslash_escape: u8, len: &mut usize) -> u8
    ensures { (result ≡ status (length_of (quoted (flag no_backslash_escape) input.now)))
        × (len.new ≡ holds (length_of (quoted (flag no_backslash_escape) input.now)) (λ n. n) len.old) }
{
    give(escape::escaped_len(input, flag(no_backslash_escape)), len)
}

// The bytes quoted for SQL, by the server's mode NO_BACKSLASH_ESCAPES.
#[unsafe(no_mangle)]
pub extern "C" fn mk_escaped(
    dst: &mut [u8],
    at: usize,
    input: &[u8],
    no_backslash_escape: u8,
    next: &mut usize,
) -> u8
    ensures { Puts (quoted (flag no_backslash_escape) input.now)
        dst.old at next.old result dst.new next.new }
{
    give(
        escape::escaped(dst, at, input, flag(no_backslash_escape)),
        next,
    )
}

// ---- session records

// A record by its type: a string's place and length, or whether it is tracked, and how many bytes that took. What its
// type has not stays.
#[unsafe(no_mangle)]
pub extern "C" fn mk_read_record(
    s: &[u8],
    kind: u8,
    place: &mut usize,
    len: &mut usize,
    tracked: &mut u8,
    used: &mut usize,
) -> u8
    ensures { (result ≡ status (record_at s.now kind))
        × (place.new ≡ holds (record_at s.now kind) (λ x. text_place x.change place.old) place.old)
        × (len.new ≡ holds (record_at s.now kind) (λ x. text_len x.change len.old) len.old)
        × (tracked.new ≡ holds (record_at s.now kind) (λ x. tracked_no x.change tracked.old) tracked.old)
        × (used.new ≡ holds (record_at s.now kind) (λ x. x.used) used.old) }
{
    let record = match session::read_record(s, kind) {
        Ok(record) => record,
        Err(r) => return number_of(r),
    };
    *used = record.used;
    match record.change {
        SessionStateChange::SystemVariables => {}
        SessionStateChange::IsTracked(b) => *tracked = u8::from(b),
        SessionStateChange::Schema(t)
        | SessionStateChange::Gtids(t)
        | SessionStateChange::TransactionCharacteristics(t)
        | SessionStateChange::TransactionState(t)
        | SessionStateChange::Unsupported(t) => {
            *place = t.at;
            *len = t.len;
        }
    }
    0
}

// The pair of variables at the cursor: found 1, its name and value, and the next cursor; or found 0 at the end, and the
// others stay.
#[unsafe(no_mangle)]
pub extern "C" fn mk_next_variable(
    s: &[u8],
    at: usize,
    found: &mut u8,
    name_at: &mut usize,
    name_len: &mut usize,
    value_at: &mut usize,
    value_len: &mut usize,
    next: &mut usize,
) -> u8
    ensures { (result ≡ status (variable_at s.now at))
        × (found.new ≡ holds (variable_at s.now at) (λ x. found_no x) found.old)
        × (name_at.new ≡ holds (variable_at s.now at) (λ x. of_pair x (λ v. v.name.at) name_at.old) name_at.old)
        × (name_len.new ≡ holds (variable_at s.now at)
        (λ x. of_pair x (λ v. v.name.len) name_len.old) name_len.old)
        × (value_at.new ≡ holds (variable_at s.now at)
        (λ x. of_pair x (λ v. v.value.at) value_at.old) value_at.old)
        × (value_len.new ≡ holds (variable_at s.now at)
        (λ x. of_pair x (λ v. v.value.len) value_len.old) value_len.old)
        × (next.new ≡ holds (variable_at s.now at) (λ x. of_pair x (λ v. v.next) next.old) next.old) }
{
    match session::next_variable(s, at) {
        Ok(None) => {
            *found = 0;
            0
        }
        Ok(Some(v)) => {
            *found = 1;
            *name_at = v.name.at;
            *name_len = v.name.len;
            *value_at = v.value.at;
            *value_len = v.value.len;
            *next = v.next;
            0
        }
        Err(r) => number_of(r),
    }
}

// What a type, a text and a flag make: the text is all of the bytes lent.
#[tactic(auto, unfolding(crate::specs::Values::change_of))]
fn change_of(kind: u8, len: usize, tracked: bool) -> SessionStateChange
    ensures { result ≡ change_of kind len tracked }
{
    let whole = Text { at: 0, len };
    match kind {
        0 => SessionStateChange::SystemVariables,
        1 => SessionStateChange::Schema(whole),
        2 => SessionStateChange::IsTracked(tracked),
        3 => SessionStateChange::Gtids(whole),
        4 => SessionStateChange::TransactionCharacteristics(whole),
        5 => SessionStateChange::TransactionState(whole),
        _ => SessionStateChange::Unsupported(whole),
    }
}

// A record's bytes by its type. One of variables has none by itself: `mk_put_variable` writes its pairs.
#[unsafe(no_mangle)]
pub extern "C" fn mk_put_record(
    dst: &mut [u8],
    at: usize,
    kind: u8,
    text: &[u8],
    is_tracked: u8,
    next: &mut usize,
) -> u8
    ensures { Puts (record_bytes text.now (change_of kind (length text.now) (flag is_tracked)))
        dst.old at next.old result dst.new next.new }
{
    let change = change_of(kind, text.len(), flag(is_tracked));
    give(session::put_record(dst, at, text, change), next)
}

// A name and its value, in a record of variables.
#[unsafe(no_mangle)]
pub extern "C" fn mk_put_variable(
    dst: &mut [u8],
    at: usize,
    name: &[u8],
    value: &[u8],
    next: &mut usize,
) -> u8
    ensures { Puts (pair_bytes name.now value.now)
        dst.old at next.old result dst.new next.new }
{
    give(session::put_variable(dst, at, name, value), next)
}
