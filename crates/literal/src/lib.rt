// Other programs' quotes: is this one single-quoted SQL literal, and which bytes does it mean? docs/LITERALS.md has the grammar, in both
// of the server's modes.
//
// `checked_len` judges and counts; `checked` writes the meaning besides, to the front of a lent buffer. What is no literal is refused with 15,
// bad literal, and the place of the first byte that no literal could continue with, or the end; a buffer that is too short with 6 and place 0. A
// refused call changes no byte, so one walk judges, and only then a second one writes. Neither stops at bytes that stand for themselves.
#![tactic(auto)]

ghost use Rattle.std.specs.Prelude.{◌≡◌, Bool, false, ◌+◌, ◌≤◌, ◌<◌, length, drop, get_or};
ghost use Rattle.escape.specs.Quote.{quote, backslash};
ghost use Rattle.escape.specs.QuoteLaws.{first_of};
ghost use Rattle.wire.specs.Room.{patch};
ghost use Rattle.escape.specs.Meaning.{escape_means};
ghost use Rattle.literal.specs.Checked.{checked, counted, means, refused, said, Meant};
ghost use Rattle.literal.specs.RunLaws.{clean, clean_run, escape_byte};
ghost use Rattle.literal.specs.JudgeLaws.{Turned};
ghost use Rattle.literal.specs.WriteLaws.{meaning_of, rest, Sound, Written};

use refusal::Refusal;
use std::ops::ControlFlow::{self, Break, Continue};
use wire::inner;

// Why bytes are refused, and at which place of the input.
#[derive(Clone, Copy, PartialEq, Eq)]
pub struct Bad {
    pub why: Refusal,
    pub place: usize,
}

// A place of the input, and how many bytes are meant up to there: at that place of the buffer the meaning goes on.
#[derive(Clone, Copy)]
struct Spot {
    at: usize,
    count: usize,
}

// What the judge finds from a spot on: the one behind an item, or the end of the walk.
type Turn = ControlFlow<Result<usize, Bad>, Spot>;

// ---- bytes and escapes

// The byte beside the quote that stands not for itself: in the mode without escapes there is no other.
fn other_of(no_backslash_escape: bool) -> u8
    ensures { result ≡ first_of no_backslash_escape }
{
    if no_backslash_escape { 0x27 } else { 0x5C }
}

#[tactic(auto, unfolding(crate::specs::RunLaws::clean))]
fn is_clean(b: u8, other: u8) -> bool
    ensures { result ≡ clean other b }
{
    b != 0x27 && b != other
}

// How many bytes stand for themselves, before the first that does not.
fn clean_len(bytes: &[u8], other: u8) -> usize
    ensures { (result ≡ clean_run other bytes.now) × (result ≤ length bytes.now) }
{
    bytes
        .iter()
        .position(|b| !is_clean(*b, other))
        .unwrap_or(bytes.len())
}

// How many bytes from a place on stand for themselves. The two calls say one thing: where a quote alone is special, the first has a loop of its
// own with one test a byte, and clean text is read faster.
fn run_len(input: &[u8], at: usize, no_backslash_escape: bool) -> usize
    requires { at ≤ length input.now }
    ensures { (result ≡ clean_run (first_of no_backslash_escape) (drop at input.now)) × (at + result ≤ length input.now) }
{
    let other = other_of(no_backslash_escape);
    if other == 0x27 {
        return clean_len(&input[at..], 0x27);
    }
    clean_len(&input[at..], other)
}

// How many bytes a backslash and this byte mean: two where the backslash stays.
#[tactic(auto, using(crate::specs::RunLaws::escape_one), unfolding(escape::specs::Meaning::escape_means))]
fn escape_len(c: u8) -> usize
    ensures { result ≡ length (escape_means c) }
{
    match c {
        0x25 | 0x5F => 2,
        _ => 1,
    }
}

// The byte that a backslash and this byte mean, where it is one.
#[tactic(auto, unfolding(crate::specs::RunLaws::escape_byte))]
fn escape_byte(c: u8) -> u8
    ensures { result ≡ escape_byte c }
{
    match c {
        0x30 => 0x00,
        0x62 => 0x08,
        0x6E => 0x0A,
        0x72 => 0x0D,
        0x74 => 0x09,
        0x5A => 0x1A,
        _ => c,
    }
}

// ---- the judge

fn no_literal(place: usize) -> Result<usize, Bad>
    ensures { said result ≡ refused 15 place }
{
    Err(Bad {
        why: Refusal::BadLiteral,
        place,
    })
}

// At a quote: as the last byte it closes the literal, before another it stands for one, and no other byte may follow it.
#[tactic(auto, using(crate::proofs::Runs::turns))]
fn at_quote(input: &[u8], spot: Spot) -> Turn
    requires { (spot.at < length input.now) × (get_or input.now spot.at 0 ≡ quote) × (spot.count ≤ spot.at) }
    ensures { (m : Bool) → Turned m input.now spot result }
{
    let behind = spot.at + 1;
    if behind == input.len() {
        return Break(Ok(spot.count));
    }
    if input[behind] != 0x27 {
        return Break(no_literal(behind));
    }
    Continue(Spot {
        at: behind + 1,
        count: spot.count + 1,
    })
}

// At a backslash that escapes: any byte may follow it.
#[tactic(auto, using(crate::proofs::Runs::turns))]
fn at_backslash(input: &[u8], spot: Spot) -> Turn
    requires { (spot.at < length input.now) × (get_or input.now spot.at 0 ≡ backslash) × (spot.count ≤ spot.at) }
    ensures { Turned false input.now spot result }
{
    let next = spot.at + 1;
    if next == input.len() {
        return Break(no_literal(next));
    }
    let more = escape_len(input[next]);
    Continue(Spot {
        at: next + 1,
        count: spot.count + more,
    })
}

// A run of bytes that stand for themselves, and what follows it.
#[tactic(auto, using(crate::proofs::Runs::turns))]
fn judge_turn(input: &[u8], spot: Spot, no_backslash_escape: bool) -> Turn
    requires { (spot.at ≤ length input.now) × (spot.count ≤ spot.at) }
    ensures { Turned no_backslash_escape input.now spot result }
{
    let run = run_len(input, spot.at, no_backslash_escape);
    let end = Spot {
        at: spot.at + run,
        count: spot.count + run,
    };
    if end.at == input.len() {
        return Break(no_literal(end.at));
    }
    if input[end.at] == 0x27 {
        at_quote(input, end)
    } else {
        at_backslash(input, end)
    }
}

// How many bytes a literal means, in the server's mode NO_BACKSLASH_ESCAPES or the other.
#[tactic(auto, using(crate::proofs::Runs::turns))]
pub fn checked_len(input: &[u8], no_backslash_escape: bool) -> Result<usize, Bad>
    ensures { said result ≡ counted (checked no_backslash_escape input.now) }
{
    if !input.starts_with(b"'") {
        return no_literal(0);
    }
    let mut spot = Spot { at: 1, count: 0 };
    loop {
        match judge_turn(input, spot, no_backslash_escape) {
            Continue(next) => spot = next,
            Break(answer) => return answer,
        }
    }
}

// ---- the writer, for what the judge has found to be a literal

// What a backslash and this byte mean, and the place behind it.
#[tactic(auto, using(crate::specs::RunLaws::escape_two, crate::specs::RunLaws::escape_not_two, wire::specs::RoomLaws::patch_one, wire::specs::RoomLaws::patch_two))]
fn put_escape(dst: &mut [u8], at: usize, c: u8) -> usize
    requires { at + length (escape_means c) ≤ length dst.old }
    ensures { (result ≡ at + length (escape_means c)) × (dst.new ≡ patch dst.old at (escape_means c)) }
{
    if escape_len(c) == 2 {
        dst[at] = 0x5C;
        dst[at + 1] = c;
        at + 2
    } else {
        dst[at] = escape_byte(c);
        at + 1
    }
}

// A run of bytes that stand for themselves, in one go, and what follows it: the closing quote, where this stops; or two bytes, of which the
// second says what they mean, since a doubled quote means what a quote behind a backslash does.
fn put_turn(dst: &mut [u8], input: &[u8], spot: Spot, no_backslash_escape: bool) -> Spot
    requires { (spot.at + 1 < length input.now) × Sound no_backslash_escape input.now spot.at
        × (spot.count + length (rest no_backslash_escape input.now spot.at) ≤ length dst.old) }
    ensures { Written no_backslash_escape input.now dst.old spot dst.new result }
{
    let run = run_len(input, spot.at, no_backslash_escape);
    let end = spot.at + run;
    inner::copy(dst, spot.count, &input[spot.at..end]);
    let count = spot.count + run;
    let second = end + 1;
    if second == input.len() {
        return Spot { at: end, count };
    }
    Spot {
        at: second + 1,
        count: put_escape(dst, count, input[second]),
    }
}

// The bytes that a literal means, at the buffer's front.
#[tactic(auto, using(crate::proofs::Runs::writes))]
fn put_meaning(dst: &mut [u8], input: &[u8], no_backslash_escape: bool)
    requires { (checked no_backslash_escape input.now ≡ means (meaning_of (checked no_backslash_escape input.now)))
        × (length (meaning_of (checked no_backslash_escape input.now)) ≤ length dst.old) }
    ensures { dst.new ≡ patch dst.old 0 (meaning_of (checked no_backslash_escape input.now)) }
{
    let last = input.len() - 1;
    let mut spot = Spot { at: 1, count: 0 };
    // A turn goes on by a run and an item, however long they are.
    while spot.at < last {
        spot = put_turn(dst, input, spot, no_backslash_escape);
    }
}

// How many bytes a literal means, and these bytes at the front of the buffer. What lies behind them there stays.
pub fn checked(dst: &mut [u8], input: &[u8], no_backslash_escape: bool) -> Result<usize, Bad>
    ensures { Meant (checked no_backslash_escape input.now) dst.old result dst.new }
{
    let n = checked_len(input, no_backslash_escape)?;
    if dst.len() < n {
        return Err(Bad {
            why: Refusal::NoRoom,
            place: 0,
        });
    }
    put_meaning(dst, input, no_backslash_escape);
    Ok(n)
}
