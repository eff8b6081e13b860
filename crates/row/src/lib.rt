// Binary rows and lists of parameters: which columns are NULL, and where each value starts.
//
// `read_row` and `read_params` walk over the values twice: the first walk tests them, the second writes each column's
// start to the lent list, so that a refusal leaves the list as it was. A start counts from the row's first byte, and
// `value::deserialize_bin` reads the value there. `null_bit` and `null_count` look at a bitmap by itself.
#![tactic(auto)]

ghost use Rattle.refusal.specs.Said.{said_of};
ghost use Rattle.std.specs.Prelude.{◌≡◌, ◌+◌, ◌-◌, ◌≤◌, ◌<◌, ◌/◌, ◌%◌, ◌^◌, length};
ghost use Rattle.std.specs.Int.Count.{ones};
ghost use Rattle.value.specs.Kinds.{kind_of};
ghost use Rattle.value.specs.Steps.{step_of};
ghost use Rattle.row.specs.Nulls.{offset_of, null_bit, null_count, map_size, null_at, count_at};
ghost use Rattle.row.specs.Walk.{col_at, walk_all, Passed};
ghost use Rattle.row.specs.Row.{Rowed, lists_at, values_of, row_of, params_of};

use refusal::Refusal;

// Who wrote a bitmap, after the Rust's `SerializationSide`: a row comes from the server, parameters from the client.
#[derive(Clone, Copy)]
pub enum Side {
    ServerSide,
    ClientSide,
}

// How many of a row's columns are NULL, and how many bytes it takes.
#[derive(Clone, Copy, PartialEq, Eq)]
pub struct Columns {
    pub nulls: usize,
    pub used: usize,
}

// ---- the bitmap

// `BIT_OFFSET`: the bit of column 0.
pub fn bit_offset(side: Side) -> usize
    ensures { result ≡ offset_of side }
{
    match side {
        Side::ServerSide => 2,
        Side::ClientSide => 0,
    }
}

// Whether column i is NULL; 8 where the bitmap ends before its bit. The column is split first, so that no sum wraps.
#[tactic(auto, unfolding(crate::specs::Nulls::null_bit, crate::specs::Nulls::null_at))]
pub fn null_bit(map: &[u8], side: Side, i: usize) -> Result<bool, Refusal>
    ensures { said_of result ≡ null_at map.now side i }
{
    let bit = i % 8 + bit_offset(side);
    let byte = map.get(i / 8 + bit / 8).ok_or(Refusal::Short)?;
    Ok((*byte >> (bit % 8)) & 1 == 1)
}

// How many of the w bits of a byte from bit lo on are set.
fn ones_in(b: u8, lo: usize, w: usize) -> usize
    requires { lo + w ≤ 8 }
    ensures { result ≡ ones (b / 2 ^ lo % 2 ^ w) }
{
    let bits = b as u32 >> lo;
    (bits & ((1 << w) - 1)).count_ones() as usize
}

// How many bytes the bitmap of n columns takes.
fn map_size(n: usize, off: usize) -> usize
    requires { (n ≤ 4096) × (off ≤ 2) }
    ensures { result ≡ map_size n off }
{
    (n + off + 7) / 8
}

// How many of the first n columns are NULL, byte by byte: the first byte has them from bit off on, and the last up to where they end.
fn count_nulls(map: &[u8], off: usize, n: usize) -> usize
    requires { (off ≤ 2) × (n ≤ 4096) × (map_size n off ≤ length map.now) }
    ensures { result ≡ null_count map.now off n }
{
    let mut count = 0;
    for k in 0..map_size(n, off) {
        let low = if k == 0 { off } else { 0 };
        let high = (n + off - 8 * k).min(8);
        count += ones_in(map[k], low, high - low);
    }
    count
}

// How many of the first n columns are NULL; 13 for 0 or more than 4,096 columns, and 8 where the bitmap is too short.
#[tactic(auto, using(crate::proofs::BitLaws::offset_few), unfolding(crate::specs::Nulls::count_at))]
pub fn null_count(map: &[u8], side: Side, n: usize) -> Result<usize, Refusal>
    ensures { said_of result ≡ count_at map.now side n }
{
    if n == 0 || 4096 < n {
        return Err(Refusal::BadColumns);
    }
    let off = bit_offset(side);
    if map.len() < map_size(n, off) {
        return Err(Refusal::Short);
    }
    Ok(count_nulls(map, off, n))
}

// ---- the columns

// The step over a column's values by the code of its type, after `step_of`: 0 to 16 stand at the front, 242 and 245 to 255 at the end. Looked
// up, since a walk with the jump of a `match` in it takes longer.
static STEPS: [u8; 256] =
    *b"\x0A\x01\x02\x04\x04\x08\x00\x09\x08\x04\x09\x09\x09\x02\x09\x0A\x0A\x0B\x0B\x0B\x0B\x0B\x0B\x0B\x0B\x0B\x0B\x0B\x0B\x0B\x0B\x0B\
    \x0B\x0B\x0B\x0B\x0B\x0B\x0B\x0B\x0B\x0B\x0B\x0B\x0B\x0B\x0B\x0B\x0B\x0B\x0B\x0B\x0B\x0B\x0B\x0B\x0B\x0B\x0B\x0B\x0B\x0B\x0B\x0B\
    \x0B\x0B\x0B\x0B\x0B\x0B\x0B\x0B\x0B\x0B\x0B\x0B\x0B\x0B\x0B\x0B\x0B\x0B\x0B\x0B\x0B\x0B\x0B\x0B\x0B\x0B\x0B\x0B\x0B\x0B\x0B\x0B\
    \x0B\x0B\x0B\x0B\x0B\x0B\x0B\x0B\x0B\x0B\x0B\x0B\x0B\x0B\x0B\x0B\x0B\x0B\x0B\x0B\x0B\x0B\x0B\x0B\x0B\x0B\x0B\x0B\x0B\x0B\x0B\x0B\
    \x0B\x0B\x0B\x0B\x0B\x0B\x0B\x0B\x0B\x0B\x0B\x0B\x0B\x0B\x0B\x0B\x0B\x0B\x0B\x0B\x0B\x0B\x0B\x0B\x0B\x0B\x0B\x0B\x0B\x0B\x0B\x0B\
    \x0B\x0B\x0B\x0B\x0B\x0B\x0B\x0B\x0B\x0B\x0B\x0B\x0B\x0B\x0B\x0B\x0B\x0B\x0B\x0B\x0B\x0B\x0B\x0B\x0B\x0B\x0B\x0B\x0B\x0B\x0B\x0B\
    \x0B\x0B\x0B\x0B\x0B\x0B\x0B\x0B\x0B\x0B\x0B\x0B\x0B\x0B\x0B\x0B\x0B\x0B\x0B\x0B\x0B\x0B\x0B\x0B\x0B\x0B\x0B\x0B\x0B\x0B\x0B\x0B\
    \x0B\x0B\x0B\x0B\x0B\x0B\x0B\x0B\x0B\x0B\x0B\x0B\x0B\x0B\x0B\x0B\x0B\x0B\x0A\x0B\x0B\x0A\x0A\x0A\x0A\x0A\x0A\x0A\x0A\x0A\x0A\x0A";

fn step_of(t: u8) -> u8
    ensures { result ≡ step_of (kind_of t) }
{
    STEPS[t as usize]
}

// The columns' values in a row or a parameter list: the bytes that they stand in, the bitmap with its offset, and the types.
#[derive(Clone, Copy)]
struct Values<'a> {
    bytes: &'a [u8],
    map: &'a [u8],
    off: usize,
    types: &'a [u8],
    ghost offset: { off ≤ 2 },
    ghost few: { length types.now ≤ 4096 },
    ghost mapped: { map_size (length types.now) off ≤ length map.now },
}

impl Values<'_> {
    // 1 if column i has a value, and 0 if it is NULL.
    #[tactic(auto, unfolding(crate::specs::Nulls::null_bit))]
    fn has_value(&self, i: usize) -> usize
        requires { i < length self.now.types.now }
        ensures { result ≡ 1 - null_bit self.now.map.now self.now.off i }
    {
        let bit = i + self.off;
        1 - ((self.map[bit / 8] >> (bit % 8)) & 1) as usize
    }

    // Where column i ends if it starts at a place within the bytes: a NULL takes no bytes, and its type doesn't matter. A value of a fixed
    // size is multiplied away, since which columns are NULL can't be foretold, and a branch on it would be guessed wrong time and again. The hint
    // puts the body into both walks: with a call for each column they take a quarter longer.
    #[inline(always)]
    fn column(&self, i: usize, at: usize) -> Result<usize, Refusal>
        requires { (i < length self.now.types.now) × (at ≤ length self.now.bytes.now) }
        ensures { said_of result ≡ col_at self.now.bytes.now self.now.map.now self.now.off self.now.types.now i at }
    {
        let there = self.has_value(i);
        let step = step_of(self.types[i]);
        if step <= 8 {
            let size = step as usize * there;
            if self.bytes.len() - at < size {
                return Err(Refusal::Short);
            }
            return Ok(at + size);
        }
        if there == 0 {
            return Ok(at);
        }
        value::inner::skip_led(self.bytes, at, step)
    }

    // Where the last column ends, or the first refusal.
    fn end(&self, from: usize) -> Result<usize, Refusal>
        requires { from ≤ length self.now.bytes.now }
        ensures { said_of result ≡ (walk_all self.now.bytes.now self.now.map.now self.now.off self.now.types.now from).ends }
    {
        let mut at = from;
        for i in 0..self.types.len() {
            at = self.column(i, at)?;
        }
        Ok(at)
    }

    // The same, and each column's start is written to the list.
    fn list(&self, from: usize, starts: &mut [usize]) -> Result<usize, Refusal>
        requires { (from ≤ length self.now.bytes.now) × (length self.now.types.now ≤ length starts.old) }
        ensures { Passed (walk_all self.now.bytes.now self.now.map.now self.now.off self.now.types.now from) starts.old result starts.new }
    {
        let mut at = from;
        for i in 0..self.types.len() {
            starts[i] = at;
            at = self.column(i, at)?;
        }
        Ok(at)
    }
}

// A bitmap at a place and the columns' values behind it: the first pass tests them, the second writes their starts.
fn read_values(
    bytes: &[u8],
    lead: usize,
    off: usize,
    types: &[u8],
    starts: &mut [usize],
) -> Result<Columns, Refusal>
    requires { (lead ≤ length bytes.now) × (off ≤ 2) × (length types.now ≤ 4096) × (length types.now ≤ length starts.old) }
    ensures { Rowed (values_of bytes.now lead off types.now starts.old) result starts.new }
{
    let n = types.len();
    let size = map_size(n, off);
    if bytes.len() - lead < size {
        return Err(Refusal::Short);
    }
    let from = lead + size;
    let map = &bytes[lead..from];
    let values = Values {
        bytes,
        map,
        off,
        types,
    };
    values.end(from)?;
    let used = values.list(from, starts)?;
    let nulls = count_nulls(map, off, n);
    Ok(Columns { nulls, used })
}

// How many columns the lists are for; 13 for 0 or more than 4,096 or where types and signs differ, and 6 for too few starts.
#[tactic(auto, unfolding(crate::specs::Row::lists_at))]
fn listed_columns(types: usize, signs: usize, starts: usize) -> Result<usize, Refusal>
    ensures { said_of result ≡ lists_at types signs starts }
{
    if types == 0 || 4096 < types || types != signs {
        return Err(Refusal::BadColumns);
    }
    if starts < types {
        return Err(Refusal::NoRoom);
    }
    Ok(types)
}

// A binary row: the NULL count and the bytes used, and each column's start in the list.
pub fn read_row(
    row: &[u8],
    types: &[u8],
    signs: &[u8],
    starts: &mut [usize],
) -> Result<Columns, Refusal>
    ensures { Rowed (row_of row.now types.now signs.now starts.old) result starts.new }
{
    listed_columns(types.len(), signs.len(), starts.len())?;
    let lead = row.first().ok_or(Refusal::Short)?;
    if *lead != 0 {
        return Err(Refusal::BadRow);
    }
    read_values(row, 1, bit_offset(Side::ServerSide), types, starts)
}

// The values of a parameter list: no byte in front.
pub fn read_params(
    list: &[u8],
    types: &[u8],
    signs: &[u8],
    starts: &mut [usize],
) -> Result<Columns, Refusal>
    ensures { Rowed (params_of list.now types.now signs.now starts.old) result starts.new }
{
    listed_columns(types.len(), signs.len(), starts.len())?;
    read_values(list, 0, bit_offset(Side::ClientSide), types, starts)
}
