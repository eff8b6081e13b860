// OK, ERR and EOF packets.
ghost use Rattle.std.specs.Prelude.{◌≡◌};
ghost use Rattle.wire.specs.Room.{patch};
ghost use Rattle.answer.specs.Answer.{answer_at};
ghost use Rattle.answer.specs.Records.{next_at};
ghost use Rattle.answer.specs.Written.{ok_bytes, eof_bytes, record_on_wire};
ghost use Rattle.mishkeldur.specs.Face.{status, holds, flag, Puts};
ghost use Rattle.mishkeldur.specs.Answers.{answer_numbers, packet_numbers, listed, found_record, of_record, PutsErr};

use crate::{flag, give};
use answer::Packet;
use refusal::{Refusal, number_of};

// How many numbers a packet is.
const NUMBERS: usize = 11;

// ---- reading

// A packet's eleven numbers.
fn numbers_of(packet: Packet, used: usize) -> [u64; NUMBERS]
    ensures { result ≡ packet_numbers packet used }
{
    let used = used as u64;
    match packet {
        Packet::Ok(p) => [
            0x00,
            used,
            u64::from(p.status),
            u64::from(p.warnings),
            p.affected_rows,
            p.last_insert_id,
            0,
            p.message.at as u64,
            p.message.len as u64,
            p.records.at as u64,
            p.records.len as u64,
        ],
        Packet::Err(p) => [
            0xFF,
            used,
            0,
            0,
            0,
            0,
            u64::from(p.code),
            p.message.at as u64,
            p.message.len as u64,
            p.state.at as u64,
            p.state.len as u64,
        ],
        Packet::Eof(p) => [
            0xFE,
            used,
            u64::from(p.status),
            u64::from(p.warnings),
            0,
            0,
            0,
            0,
            0,
            0,
            0,
        ],
    }
}

// A packet by its header byte, as the eleven numbers at the front of the list; `tracking` says whether session tracking was agreed.
#[tactic(auto, using(crate::proofs::AnswerLaws::front_filled))]
#[unsafe(no_mangle)]
pub extern "C" fn mk_read_answer(packet: &[u8], tracking: u8, out: &mut [u64]) -> u8
    ensures { (result ≡ status (listed out.old (answer_at packet.now (flag tracking))))
        × (out.new ≡ holds (listed out.old (answer_at packet.now (flag tracking)))
        (λ a. patch out.old 0 (answer_numbers a)) out.old) }
{
    if out.len() < NUMBERS {
        return number_of(Refusal::NoRoom);
    }
    match answer::read_answer(packet, flag(tracking)) {
        Ok(a) => {
            out[..NUMBERS].copy_from_slice(&numbers_of(a.packet, a.used));
            0
        }
        Err(r) => number_of(r),
    }
}

// The session record at the cursor, between the place of an OK packet's records and their end: found 1, its type, the part that
// `mk_read_record` takes, and the next cursor; or found 0 at the end, and the others stay.
#[unsafe(no_mangle)]
pub extern "C" fn mk_next_record(
    packet: &[u8],
    at: usize,
    end: usize,
    found: &mut u8,
    kind: &mut u8,
    place: &mut usize,
    len: &mut usize,
    next: &mut usize,
) -> u8
    ensures { (result ≡ status (next_at packet.now at end))
        × (found.new ≡ holds (next_at packet.now at end) (λ x. found_record x) found.old)
        × (kind.new ≡ holds (next_at packet.now at end) (λ x. of_record x (λ h. h.kind) kind.old) kind.old)
        × (place.new ≡ holds (next_at packet.now at end) (λ x. of_record x (λ h. h.at) place.old) place.old)
        × (len.new ≡ holds (next_at packet.now at end) (λ x. of_record x (λ h. h.len) len.old) len.old)
        × (next.new ≡ holds (next_at packet.now at end) (λ x. of_record x (λ h. h.next) next.old) next.old) }
{
    match answer::next_record(packet, at, end) {
        Ok(None) => {
            *found = 0;
            0
        }
        Ok(Some(h)) => {
            *found = 1;
            *kind = h.kind;
            *place = h.at;
            *len = h.len;
            *next = h.next;
            0
        }
        Err(r) => number_of(r),
    }
}

// ---- writing

// An OK packet. Under tracking its message has a length, and with the status bit 0x4000 the records follow behind theirs.
#[unsafe(no_mangle)]
pub extern "C" fn mk_put_ok(
    dst: &mut [u8],
    at: usize,
    rows: u64,
    id: u64,
    status: u16,
    warnings: u16,
    message: &[u8],
    records: &[u8],
    tracking: u8,
    next: &mut usize,
) -> u8
    ensures { Puts (ok_bytes rows id status warnings message.now records.now (flag tracking))
        dst.old at next.old result dst.new next.new }
{
    give(
        answer::put_ok(
            dst,
            at,
            rows,
            id,
            status,
            warnings,
            message,
            records,
            flag(tracking),
        ),
        next,
    )
}

// An ERR packet.
#[unsafe(no_mangle)]
pub extern "C" fn mk_put_err(
    dst: &mut [u8],
    at: usize,
    code: u16,
    state: &[u8],
    message: &[u8],
    next: &mut usize,
) -> u8
    ensures { PutsErr code state.now message.now
        dst.old at next.old result dst.new next.new }
{
    give(answer::put_err(dst, at, code, state, message), next)
}

// An EOF packet.
#[unsafe(no_mangle)]
pub extern "C" fn mk_put_eof(
    dst: &mut [u8],
    at: usize,
    warnings: u16,
    status: u16,
    next: &mut usize,
) -> u8
    ensures { Puts (eof_bytes warnings status) dst.old at next.old result dst.new next.new }
{
    give(answer::put_eof(dst, at, warnings, status), next)
}

// A record with its type and length, as an OK packet carries it; `body` is as the writers of records make it.
#[unsafe(no_mangle)]
pub extern "C" fn mk_put_typed_record(
    dst: &mut [u8],
    at: usize,
    kind: u8,
    body: &[u8],
    next: &mut usize,
) -> u8
    ensures { Puts (record_on_wire body.now kind)
        dst.old at next.old result dst.new next.new }
{
    give(answer::put_record(dst, at, body, kind), next)
}
