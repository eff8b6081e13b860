// Quoting of bytes for SQL text, from `escaped` of mysql_common's value/mod.rs, its name and flag kept.
//
// `escaped_len` answers how many bytes the quoted form takes, and `escaped` writes it into a lent buffer at a place: all
// of it, or nothing and 6 (no room). It works byte by byte, so backslash mode is safe in character sets in which no byte
// of a longer character is 0x5C, 0x27 or 0x22: utf8mb4, latin1, ascii and binary are; gbk, sjis and big5 are not.
#![tactic(auto)]

ghost use Rattle.refusal.specs.Said.{said_of};
ghost use Rattle.std.specs.Prelude.{◌≡◌, ◌+◌, ◌≤◌, ◌<◌, Bool, [], ◌∷◌, length, drop, leb, eqb, not, true, false};
ghost use Rattle.escape.specs.Quote.{quoted, behind, becomes, body};
ghost use Rattle.escape.specs.QuoteLaws.{first_of, second_of, unless_zero, more_of, mores};
ghost use Rattle.escape.specs.Turns.{Slots, Marks, Leading, Came, lead_of};
ghost use Rattle.wire.specs.Room.{Wrote, patch, length_of};

use refusal::Refusal;
use wire::inner;

// What stands behind the backslash, for each byte, and a point where it stands for itself.
const ALL: [u8; 256] = *b"0.........n..r............Z.......\"....'........................\
    ............................\\...................................\
    ................................................................\
    ................................................................";

// The byte behind the backslash, unless a byte stands for itself.
#[tactic(auto, unfolding(crate::specs::Quote::behind))]
fn escape_of(b: u8) -> Option<u8>
    ensures { result ≡ unless_zero (behind b) }
{
    match b {
        0x00 => Some(0x30),
        0x0A => Some(0x6E),
        0x0D => Some(0x72),
        0x1A => Some(0x5A),
        0x5C => Some(0x5C),
        0x27 => Some(0x27),
        0x22 => Some(0x22),
        _ => None,
    }
}

// The second of the two bytes that a byte becomes, unless it stands for itself.
#[tactic(auto, unfolding(crate::specs::QuoteLaws::second_of))]
fn second_of(b: u8, no_backslash_escape: bool) -> Option<u8>
    ensures { result ≡ unless_zero (second_of no_backslash_escape b) }
{
    if no_backslash_escape {
        (b == 0x27).then_some(0x27)
    } else {
        escape_of(b)
    }
}

// The first of the two bytes.
fn first_of(no_backslash_escape: bool) -> u8
    ensures { result ≡ first_of no_backslash_escape }
{
    if no_backslash_escape { 0x27 } else { 0x5C }
}

// How many bytes become two, for fewer than 8: so few go by branches faster than by anything that has to be set up.
#[tactic(auto, using(crate::proofs::PutLaws::mores_step, crate::proofs::PutLaws::mores_taken, crate::proofs::PutLaws::more_is), unfolding(crate::specs::QuoteLaws::mores))]
fn mores_few(input: &[u8], no_backslash_escape: bool) -> usize
    ensures { result ≡ mores no_backslash_escape input.now }
{
    let mut n = 0;
    for &b in input {
        n += usize::from(second_of(b, no_backslash_escape).is_some());
    }
    n
}

// How many bytes a byte takes beside the first, 0 or 1. As a sum of comparisons: of that the compiler makes one test of many bytes.
#[tactic(auto, using(crate::proofs::PutLaws::marks_are, crate::proofs::PutLaws::doubles_are, crate::proofs::PutLaws::more_most))]
fn more_of(b: u8, no_backslash_escape: bool) -> u8
    ensures { (result ≡ more_of no_backslash_escape b) × (result ≤ 1) }
{
    if no_backslash_escape {
        return u8::from(b == 0x27);
    }
    u8::from(b == 0x00)
        + u8::from(b == 0x0A)
        + u8::from(b == 0x0D)
        + u8::from(b == 0x1A)
        + u8::from(b == 0x5C)
        + u8::from(b == 0x27)
        + u8::from(b == 0x22)
}

// How many bytes of a part become two.
#[tactic(auto, using(crate::proofs::PutLaws::mores_step, crate::proofs::PutLaws::mores_taken), unfolding(crate::specs::QuoteLaws::mores))]
fn mores_in(part: &[u8], no_backslash_escape: bool) -> u8
    requires { length part.now ≤ 64 }
    ensures { result ≡ mores no_backslash_escape part.now }
{
    let mut n = 0;
    for &b in part {
        n += more_of(b, no_backslash_escape);
    }
    n
}

// Whether no byte becomes two, by parts of K, each one test; the last may overlap the one before it.
#[tactic(auto, using(crate::proofs::PutLaws::counts))]
fn clean_by<const K: usize>(input: &[u8], no_backslash_escape: bool) -> bool
    requires { (0 < K) × (K ≤ 64) × (K ≤ length input.now) }
    ensures { result ≡ eqb (mores no_backslash_escape input.now) 0 }
{
    let (parts, rest) = input.as_chunks::<K>();
    for part in parts {
        if mores_in(part, no_backslash_escape) != 0 {
            return false;
        }
    }
    rest.is_empty() || mores_in(&input[input.len() - K..], no_backslash_escape) == 0
}

// The same, by parts as wide as the input allows.
fn clean(input: &[u8], no_backslash_escape: bool) -> bool
    requires { 8 ≤ length input.now }
    ensures { result ≡ eqb (mores no_backslash_escape input.now) 0 }
{
    if input.len() < 16 {
        return clean_by::<8>(input, no_backslash_escape);
    }
    if input.len() < 64 {
        return clean_by::<16>(input, no_backslash_escape);
    }
    clean_by::<64>(input, no_backslash_escape)
}

// How many bytes become two.
#[tactic(auto, using(crate::proofs::PutLaws::counts))]
fn mores(input: &[u8], no_backslash_escape: bool) -> usize
    ensures { result ≡ mores no_backslash_escape input.now }
{
    if input.len() < 8 {
        return mores_few(input, no_backslash_escape);
    }
    let (parts, rest) = input.as_chunks::<64>();
    let mut n = 0;
    for part in parts {
        n += usize::from(mores_in(part, no_backslash_escape));
    }
    n + usize::from(mores_in(rest, no_backslash_escape))
}

// How many bytes `escaped` writes.
pub fn escaped_len(input: &[u8], no_backslash_escape: bool) -> Result<usize, Refusal>
    ensures { said_of result ≡ length_of (quoted no_backslash_escape input.now) }
{
    let n = input
        .len()
        .checked_add(mores(input, no_backslash_escape))
        .ok_or(Refusal::NoRoom)?;
    n.checked_add(2).ok_or(Refusal::NoRoom)
}

// ---- bytes, one by one

// A way to write what a byte becomes, and the place behind it.
trait Put {
    // The mode NO_BACKSLASH_ESCAPES, or the other.
    ghost mode: { Self → Bool };

    fn put(&self, dst: &mut [u8], at: usize, b: u8) -> usize
        requires { (at + 2 ≤ length dst.old) × (at + length (becomes (mode self.now) b) + 1 ≤ length dst.old) }
        ensures { Leading (mode self.now) (b ∷ []) dst.old at result dst.new };
}

// The bytes of src, where something has to follow.
#[tactic(auto, using(crate::proofs::PutLaws::bytes))]
fn put_each<P: Put>(dst: &mut [u8], at: usize, src: &[u8], by: &P) -> usize
    requires { at + length (body (P.mode by.now) src.now) + 1 ≤ length dst.old }
    ensures { Leading (P.mode by.now) src.now dst.old at result dst.new }
{
    let mut next = at;
    for &b in src {
        next = by.put(dst, next, b);
    }
    next
}

// By branches, in the mode that is given: for few bytes, or where only quotes are doubled.
#[derive(Clone, Copy)]
struct Branches(bool);

impl Put for Branches {
    ghost mode = { λ s. s.0 };

    fn put(&self, dst: &mut [u8], at: usize, b: u8) -> usize {
        match second_of(b, self.0) {
            None => {
                dst[at] = b;
                at + 1
            }
            Some(second) => {
                dst[at] = first_of(self.0);
                dst[at + 1] = second;
                at + 2
            }
        }
    }
}

// The first byte of what a byte becomes in backslash mode, and how many there are.
fn lead_of(b: u8, escapes: bool) -> (u8, usize)
    ensures { result ≡ lead_of b escapes }
{
    if escapes { (0x5C, 2) } else { (b, 1) }
}

// What a byte becomes with a backslash or without, by what would stand behind that. Both bytes are written always: branches would be guessed
// wrong time and again. If it is one byte only, the second place is written again by what follows, at least the closing quote.
fn put_pair(dst: &mut [u8], at: usize, b: u8, second: u8, escapes: bool) -> usize
    requires { (at + 2 ≤ length dst.old) × (escapes ≡ not (eqb (behind b) 0)) × (escapes ≡ true → second ≡ behind b) }
    ensures { Leading false (b ∷ []) dst.old at result dst.new }
{
    let (first, count) = lead_of(b, escapes);
    dst[at] = first;
    dst[at + 1] = second;
    at + count
}

// By a short list of marks: no two of those that get a backslash share a slot.
#[derive(Clone, Copy)]
struct Short<'a> {
    marks: &'a [u8],
    ghost right: { Slots marks.now },
}

impl<'a> Put for Short<'a> {
    ghost mode = { λ _. false };

    fn put(&self, dst: &mut [u8], at: usize, b: u8) -> usize {
        let slot = b as usize % 32;
        put_pair(dst, at, b, self.marks[slot + 32], self.marks[slot] == b)
    }
}

// By a list of all bytes, which takes longer to make and less to look at: for long inputs.
#[derive(Clone, Copy)]
struct Long<'a> {
    marks: &'a [u8],
    ghost right: { Marks marks.now },
}

impl<'a> Put for Long<'a> {
    ghost mode = { λ _. false };

    fn put(&self, dst: &mut [u8], at: usize, b: u8) -> usize {
        let mark = self.marks[b as usize];
        put_pair(dst, at, b, mark, mark != 0x2E)
    }
}

// ---- the whole

// Whether there is room for the quoted form. Room for twice the bytes and the two quotes is always enough, and spares the
// counting.
#[tactic(auto, using(crate::proofs::PutLaws::sizes))]
fn fits(dst: &[u8], at: usize, input: &[u8], no_backslash_escape: bool) -> bool
    ensures { result ≡ leb (at + length (quoted no_backslash_escape input.now)) (length dst.now) }
{
    if dst.len() < at {
        return false;
    }
    if input.len() < (dst.len() - at) / 2 {
        return true;
    }
    escaped_len(input, no_backslash_escape).is_ok_and(|n| inner::has(dst, at, n))
}

// How far a writer has come: the place in the buffer, and the byte of the input that comes next.
#[derive(Clone, Copy)]
struct Step {
    next: usize,
    from: usize,
}

// An input without a quote is copied: to look for one costs little beside what it may save.
#[tactic(auto, using(crate::proofs::PutLaws::copies))]
fn put_doubled(dst: &mut [u8], at: usize, input: &[u8]) -> usize
    requires { (8 ≤ length input.now) × (at + length (body true input.now) + 1 ≤ length dst.old) }
    ensures { Leading true input.now dst.old at result dst.new }
{
    if clean(input, true) {
        inner::copy(dst, at, input);
        return at + input.len();
    }
    put_each(dst, at, input, &Branches(true))
}

// Of a fixed length, and by way of a value, a copy is a load and a store.
fn copy_sixteen(dst: &mut [u8], at: usize, src: &[u8])
    requires { (length src.now ≡ 16) × (at + 16 ≤ length dst.old) }
    ensures { dst.new ≡ patch dst.old at src.now }
{
    let mut bytes = [0; 16];
    bytes.copy_from_slice(src);
    dst[at..at + 16].copy_from_slice(&bytes);
}

// In backslash mode long inputs are tested 16 bytes at a time, and these copied where all of them stand for themselves. Else 128 go one by
// one before it is tried again, so that an input full of quotes loses little.
#[tactic(auto, using(crate::proofs::PutLaws::copies))]
fn turn(dst: &mut [u8], step: Step, input: &[u8], all: &Long) -> Step
    requires { (step.from < length input.now) × (step.next + length (body false (drop step.from input.now)) + 1 ≤ length dst.old) }
    ensures { Came false input.now dst.old step result dst.new }
{
    let Step { next, from } = step;
    if input.len() - from < 128 {
        return Step {
            next: put_each(dst, next, &input[from..], all),
            from: input.len(),
        };
    }
    if mores_in(&input[from..from + 16], false) == 0 {
        copy_sixteen(dst, next, &input[from..from + 16]);
        return Step {
            next: next + 16,
            from: from + 16,
        };
    }
    Step {
        next: put_each(dst, next, &input[from..from + 128], all),
        from: from + 128,
    }
}

#[tactic(auto, using(crate::proofs::PutLaws::bytes))]
fn put_turns(dst: &mut [u8], at: usize, input: &[u8], all: &Long) -> usize
    requires { at + length (body false input.now) + 1 ≤ length dst.old }
    ensures { Leading false input.now dst.old at result dst.new }
{
    let mut step = Step { next: at, from: 0 };
    // A turn goes on by 16 bytes or by 128.
    while step.from < input.len() {
        step = turn(dst, step, input, all);
    }
    step.next
}

// What the bytes become, and the place where the closing quote belongs.
fn put_body(dst: &mut [u8], at: usize, input: &[u8], no_backslash_escape: bool) -> usize
    requires { at + length (body no_backslash_escape input.now) + 1 ≤ length dst.old }
    ensures { Leading no_backslash_escape input.now dst.old at result dst.new }
{
    if input.len() < 8 {
        return put_each(dst, at, input, &Branches(no_backslash_escape));
    }
    if no_backslash_escape {
        return put_doubled(dst, at, input);
    }
    if input.len() < 128 {
        return put_short(dst, at, input);
    }
    put_all(dst, at, input)
}

// An input that is not too short is copied if all its bytes stand for themselves.
#[tactic(auto, using(crate::proofs::PutLaws::copies))]
fn put_short(dst: &mut [u8], at: usize, input: &[u8]) -> usize
    requires { at + length (body false input.now) + 1 ≤ length dst.old }
    ensures { Leading false input.now dst.old at result dst.new }
{
    if 16 <= input.len() && clean(input, false) {
        inner::copy(dst, at, input);
        return at + input.len();
    }
    put_marked(dst, at, input)
}

// Each makes its list once, and where it is needed alone: a function makes it before all else, so it is not made beside a test that may spare it.
fn put_marked(dst: &mut [u8], at: usize, input: &[u8]) -> usize
    requires { at + length (body false input.now) + 1 ≤ length dst.old }
    ensures { Leading false input.now dst.old at result dst.new }
{
    // The bytes that get a backslash, each at its slot, with quotes at the others; and what then stands behind it.
    let marks = b"\x00'\"'''''''\x0A''\x0D''''''''''''\x1A'\\'''0'\"'''''''n''r''''''''''''Z'\\'''";
    put_each(dst, at, input, &Short { marks })
}

fn put_all(dst: &mut [u8], at: usize, input: &[u8]) -> usize
    requires { at + length (body false input.now) + 1 ≤ length dst.old }
    ensures { Leading false input.now dst.old at result dst.new }
{
    let marks = ALL;
    put_turns(dst, at, input, &Long { marks: &marks })
}

// The quoted form, where there is room for it, and the place behind it.
#[tactic(auto, using(crate::proofs::PutLaws::closed))]
fn put_quoted(dst: &mut [u8], at: usize, input: &[u8], no_backslash_escape: bool) -> usize
    requires { at + length (quoted no_backslash_escape input.now) ≤ length dst.old }
    ensures { (result ≡ at + length (quoted no_backslash_escape input.now))
        × (dst.new ≡ patch dst.old at (quoted no_backslash_escape input.now)) }
{
    dst[at] = 0x27;
    let next = put_body(dst, at + 1, input, no_backslash_escape);
    dst[next] = 0x27;
    next + 1
}

// The bytes quoted for SQL, depending on the `no_backslash_escape` flag: the server's mode NO_BACKSLASH_ESCAPES.
pub fn escaped(
    dst: &mut [u8],
    at: usize,
    input: &[u8],
    no_backslash_escape: bool,
) -> Result<usize, Refusal>
    ensures { Wrote (quoted no_backslash_escape input.now) dst.old at result dst.new }
{
    if !fits(dst, at, input, no_backslash_escape) {
        return Err(Refusal::NoRoom);
    }
    Ok(put_quoted(dst, at, input, no_backslash_escape))
}
