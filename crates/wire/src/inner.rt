// What other rooms build on and no host calls: these lean on a test that their caller has made, and have a `requires`.
// `has` is that test.
ghost use Rattle.std.specs.Prelude.{◌≡◌, ◌+◌, ◌*◌, ◌≤◌, ◌<◌, ◌^◌, length, take, drop, leb};
ghost use Rattle.wire.specs.Le.{le_of, le_at, le_bytes};
ghost use Rattle.wire.specs.Room.{patch};
ghost use Rattle.wire.specs.Fields.{since, just};

// Whether there are k bytes from a place on. Tested by differences, so that no sum wraps.
pub fn has(s: &[u8], at: usize, k: usize) -> bool
    ensures { result ≡ leb (at + k) (length s.now) }
{
    at <= s.len() && k <= s.len() - at
}

#[tactic(auto, using(crate::specs::LeLaws::le_eight))]
fn number(bytes: [u8; 8]) -> u64
    ensures { result ≡ le_of bytes }
{
    u64::from_le_bytes(bytes)
}

// The number in the k bytes at a place. Of a fixed k the compiler makes one load or two.
#[tactic(auto, using(crate::specs::LeLaws::le_padded, crate::specs::LeLaws::le_zeros, crate::specs::LeLaws::le_at_less), unfolding(crate::specs::Le::le_of))]
pub fn le(s: &[u8], at: usize, k: usize) -> u64
    requires { (k ≤ 8) × (at + k ≤ length s.now) }
    ensures { (result ≡ le_at s.now at k) × (result < 2 ^ (8 * k)) }
{
    let mut bytes = [0; 8];
    bytes[..k].copy_from_slice(&s[at..at + k]);
    number(bytes)
}

// A number as k bytes from a place on.
pub fn put_le(dst: &mut [u8], at: usize, k: usize, v: u64)
    requires { at + k ≤ length dst.old }
    ensures { dst.new ≡ patch dst.old at (le_bytes k v) }
{
    let mut rest = v;
    for i in 0..k {
        dst[at + i] = (rest % 256) as u8;
        rest /= 256;
    }
}

// Byte by byte, which the compiler makes into as wide steps as the machine has. The library's copy of any length would call memmove, and the
// archive for C wants nothing from outside.
fn run(dst: &mut [u8], at: usize, src: &[u8])
    requires { at + length src.now ≤ length dst.old }
    ensures { dst.new ≡ patch dst.old at src.now }
{
    for i in 0..src.len() {
        dst[at + i] = src[i];
    }
}

// N bytes of src to their place in a copy of all of it: of a fixed length that is a load and a store.
fn word<const N: usize>(dst: &mut [u8], at: usize, src: &[u8], j: usize)
    requires { (j + N ≤ length src.now) × (at + length src.now ≤ length dst.old) }
    ensures { dst.new ≡ patch dst.old (at + j) (take N (drop j src.now)) }
{
    let to = at + j;
    dst[to..to + N].copy_from_slice(&src[j..j + N]);
}

// More than 32 bytes. The first and the last go as words, and what lies between in wide steps from a multiple of 16 on: a store that
// straddles two lines of the cache costs twice, behind a header of four bytes each would, and a buffer's front is most often at such
// a multiple.
fn wide(dst: &mut [u8], at: usize, src: &[u8])
    requires { (32 < length src.now) × (at + length src.now ≤ length dst.old) }
    ensures { dst.new ≡ patch dst.old at src.now }
{
    let n = src.len();
    let lead = 16 - at % 16;
    let end = lead + (n - lead) / 32 * 32;
    word::<16>(dst, at, src, 0);
    run(dst, at + lead, &src[lead..end]);
    word::<16>(dst, at, src, n - 32);
    word::<16>(dst, at, src, n - 16);
}

// The bytes of src from a place on, in words that may overlap: so but for a few no byte goes by itself.
pub fn copy(dst: &mut [u8], at: usize, src: &[u8])
    requires { at + length src.now ≤ length dst.old }
    ensures { dst.new ≡ patch dst.old at src.now }
{
    let n = src.len();
    if n < 8 {
        run(dst, at, src);
    } else if n <= 16 {
        word::<8>(dst, at, src, 0);
        word::<8>(dst, at, src, n - 8);
    } else if n <= 32 {
        word::<16>(dst, at, src, 0);
        word::<16>(dst, at, src, n - 16);
    } else {
        wide(dst, at, src);
    }
}

// A field of a date or time: k bytes at a place if there are so many bytes or more, else 0.
#[tactic(auto, unfolding(crate::specs::Fields::since))]
pub fn field_since(b: &[u8], least: usize, at: usize, k: usize) -> u64
    requires { (k ≤ 8) × (at + k ≤ least) }
    ensures { (result ≡ since least b.now at k) × (result < 2 ^ (8 * k)) }
{
    if least <= b.len() { le(b, at, k) } else { 0 }
}

// The same, if there are exactly so many bytes.
#[tactic(auto, unfolding(crate::specs::Fields::just))]
pub fn field_just(b: &[u8], size: usize, at: usize, k: usize) -> u64
    requires { (k ≤ 8) × (at + k ≤ size) }
    ensures { (result ≡ just size b.now at k) × (result < 2 ^ (8 * k)) }
{
    if b.len() == size { le(b, at, k) } else { 0 }
}
