// Walks over the blocks of a set, from the top block down (config/bitchunks.rs).
#![tactic(auto)]

ghost use Rattle.std.specs.Prelude.{◌≡◌, cond, ◌&&◌, ◌⊎◌, List, ℕ, suc, ◌+◌, ◌-◌, ◌*◌, ◌%◌, ◌^◌, ◌<◌, ◌≤◌, ⊤, eqb, leb, length, take, drop};
ghost use Rattle.std.specs.Int.Bits.{bit_or};
ghost use Rattle.sets.specs.Sets.{Set, apart, members, onward};
ghost use Rattle.sets.specs.Configurations.{blocks_for};
ghost use Rattle.sets.specs.Filter.{Holds, exact_count, last_entry};
ghost use Rattle.sets.specs.Masks.{kept};
ghost use Rattle.sets.specs.Row.{little};
ghost use Rattle.bitchunks.specs.Walk.{bits_at, merged, Ahead, BlocksOf, Bounded, Next, PartsOf, Passed, Reached};
ghost use Rattle.bitchunks.specs.Xor.{NextApart};
ghost use Rattle.bitchunks.specs.Rows.{Fitting, blocks, entries, row_set, width_bytes};
ghost use Rattle.bitchunks.specs.Ones.{Gives, NextKept, rest};
ghost use Rattle.bitchunks.specs.Counts.{FirstOf, LimitedTo};

mod block_mask;

pub use block_mask::{BlockMask, repeat_mask};

// How far a walk has come: the top entries passed, and the number of blocks still ahead.
#[derive(Clone, Copy)]
pub struct Cursor {
    pub passed: usize,
    pub end: usize,
}

// How far two walks have come together.
#[derive(Clone, Copy)]
pub struct Cursors {
    pub passed: usize,
    pub passed2: usize,
    pub end: usize,
}

impl Cursors {
    pub fn start(end: usize) -> Cursors
        ensures { (result.passed ≡ 0) × (result.passed2 ≡ 0) × (result.end ≡ end) }
    {
        Cursors {
            passed: 0,
            passed2: 0,
            end,
        }
    }
}

// The members still to be given: those in the blocks ahead of the cursor, and the places set in `block`, what is left of the block
// past which it stands.
#[derive(Clone, Copy)]
pub struct Ones {
    pub block: u64,
    pub cursor: Cursor,
}

impl Ones {
    pub fn start(end: usize) -> Ones
        ensures { (result.block ≡ 0) × (result.cursor.passed ≡ 0) × (result.cursor.end ≡ end) }
    {
        Ones {
            block: 0,
            cursor: Cursor { passed: 0, end },
        }
    }
}

// The bytes of a top entry in a row.
#[derive(Clone, Copy)]
pub enum Width {
    Two = 2,
    Four = 4,
}

impl Width {
    pub fn of(bytes: usize) -> Width
        requires { (bytes ≡ 2) ⊎ (bytes ≡ 4) }
        ensures { width_bytes result ≡ bytes }
    {
        match bytes {
            2 => Width::Two,
            _ => Width::Four,
        }
    }

    pub fn bytes(self) -> usize
        ensures { result ≡ width_bytes self }
    {
        self as usize
    }
}

// Where the parts of a row stand: `count` entries of a width at its beginning, and from the place `at` on n blocks, the
// lowest of them the block of the number `first`.
#[derive(Clone, Copy)]
pub struct Layout {
    pub width: Width,
    pub count: usize,
    pub at: usize,
    pub first: usize,
    pub n: usize,
}

// The limited count of a set, and its bound.
#[derive(Clone, Copy)]
pub struct Limited {
    pub count: usize,
    pub bound: usize,
}

// A block of the set, and the top entries passed with it.
#[derive(Clone, Copy)]
pub struct Merged {
    pub block: u64,
    pub passed: usize,
}

// A set that a walk can go over: top entries, and blocks that hold the rest of it. What a walk asks (`sound`, and `Ahead` of its cursor)
// stays a clause of each step: the second speaks of the set and of the cursor together, and each step hands back another cursor.
pub trait BitChunks {
    ghost set: { Self → Set };

    ghost tops: { Self → List ℕ };

    // what a walk asks
    ghost sound: { Self → Type 0 };

    // How many of the blocks below `end` may still hold a member.
    fn reach(&self, passed: usize, end: usize) -> usize
        requires { sound self.now × Ahead (tops self.now) passed end }
        ensures { Reached (set self.now) (tops self.now) passed end result };

    // The block of the number i.
    fn merge(&self, passed: usize, i: usize) -> Merged
        requires { sound self.now × Ahead (tops self.now) passed (suc i) }
        ensures { Passed (set self.now) (tops self.now) i result.block result.passed };
}

// A bound, at most `end`: no block from it up to `end` is one of the n blocks from the number `first` on.
fn bits_end(first: usize, n: usize, end: usize) -> usize
    requires { first + n < 2 ^ 64 }
    ensures { Bounded first n end result }
{
    if end <= first {
        return 0;
    }
    end.min(first + n)
}

// A block with a bucket's bit set.
fn with_bucket(block: u64, bucket: usize) -> u64
    ensures { result ≡ bit_or block (2 ^ (bucket % 64)) }
{
    block | buckets::into_block(buckets::into_bit(bucket))
}

// ---- a filter

// The blocks of a filter: its top entries, and its blocks up to the boundary.
#[derive(Clone, Copy)]
pub struct FilterBlocks<'a> {
    pub top: &'a [u32],
    pub blocks: &'a [u64],
}

impl<'a> FilterBlocks<'a> {
    // Those of a filter with this count and boundary, in its two areas.
    pub fn new(top: &'a [u32], count: usize, blocks: &'a [u64], boundary: usize) -> FilterBlocks<'a>
        requires { (count ≤ length top.now) × (boundary ≤ 2 ^ 32) × (blocks_for boundary ≤ length blocks.now) }
        ensures { PartsOf result.top.now result.blocks.now top.now count blocks.now boundary }
    {
        FilterBlocks {
            top: &top[..count],
            blocks: &blocks[..bitvec::num_blocks(boundary)],
        }
    }

    // The block of the number i, 0 where there is none.
    fn block(&self, i: usize) -> u64
        ensures { result ≡ bits_at 0 self.now.blocks.now i }
    {
        if i < self.blocks.len() {
            return self.blocks[i];
        }
        0
    }

    // The exact count.
    pub fn exact_count(&self) -> usize
        requires { (length self.now.top.now ≤ 2 ^ 32) × (64 * length self.now.blocks.now ≤ 2 ^ 32) }
        ensures { (m k count edge : ℕ) (top blocks : List ℕ) (S : Set) → 0 < m →
            PartsOf self.now.top.now self.now.blocks.now top count blocks edge →
            Holds m k top blocks count edge S → result ≡ exact_count (64 * k) S }
    {
        exact_count(self.top.len(), self.blocks)
    }

    // The limited count, by the last top entry.
    pub fn count_ones_from_msb_and_lsb(&self, last: usize, m: usize, window: usize) -> Limited
        requires { (length self.now.top.now ≤ 2 ^ 32) × (64 * length self.now.blocks.now ≤ 2 ^ 32) × (last ≤ 2 ^ 32) }
        ensures { (k count edge : ℕ) (top blocks : List ℕ) (S : Set) → 0 < m →
            PartsOf self.now.top.now self.now.blocks.now top count blocks edge →
            Holds m k top blocks count edge S → last ≡ last_entry m (64 * k) S →
            LimitedTo m (64 * k) window S result.count result.bound }
    {
        count_ones_from_msb_and_lsb(self.top.len(), last, self.blocks, m, window)
    }
}

impl<'a> BitChunks for FilterBlocks<'a> {
    ghost set = { λ s. merged s.top.now 0 s.blocks.now };

    ghost tops = { λ s. s.top.now };

    ghost sound = { λ s. ⊤ };

    fn reach(&self, passed: usize, end: usize) -> usize {
        let bits = bits_end(0, self.blocks.len(), end);
        if passed < self.top.len() {
            return bits.max(buckets::into_index(buckets::into_usize(self.top[passed])) + 1);
        }
        bits
    }

    fn merge(&self, passed: usize, i: usize) -> Merged {
        let mut block = self.block(i);
        // `past`, and not the length, which is the same: where no entry is left nothing then depends on it, and a block takes less time
        let mut past = passed;
        for at in passed..self.top.len() {
            let bucket = buckets::into_usize(self.top[at]);
            if buckets::into_index(bucket) != i {
                return Merged { block, passed: at };
            }
            block = with_bucket(block, bucket);
            past = at + 1;
        }
        Merged {
            block,
            passed: past,
        }
    }
}

// ---- a row's bytes

// The entry at a place.
pub fn row_entry(row: &[u8], width: Width, place: usize) -> usize
    requires { place * width_bytes width + width_bytes width ≤ length row.now }
    ensures { result ≡ little (take (width_bytes width) (drop (place * width_bytes width) row.now)) }
{
    match width {
        Width::Two => unaligned::read::<2>(row, 2 * place) as usize,
        Width::Four => unaligned::read::<4>(row, 4 * place) as usize,
    }
}

// The blocks of a row, read from its bytes.
#[derive(Clone, Copy)]
pub struct RowBlocks<'a> {
    pub row: &'a [u8],
    pub layout: Layout,
}

impl<'a> RowBlocks<'a> {
    // The block of the number i, 0 where the row has none.
    fn block(&self, i: usize) -> u64
        requires { Fitting self.now.layout self.now.row.now }
        ensures { result ≡ bits_at self.now.layout.first (blocks self.now.layout self.now.row.now) i }
    {
        let layout = self.layout;
        if i < layout.first {
            return 0;
        }
        if layout.first + layout.n <= i {
            return 0;
        }
        unaligned::read::<8>(self.row, layout.at + 8 * (i - layout.first))
    }
}

impl<'a> BitChunks for RowBlocks<'a> {
    ghost set = { λ s. row_set s.layout s.row.now };

    ghost tops = { λ s. entries s.layout s.row.now };

    ghost sound = { λ s. Fitting s.layout s.row.now };

    fn reach(&self, passed: usize, end: usize) -> usize {
        let layout = self.layout;
        let bits = bits_end(layout.first, layout.n, end);
        if passed < layout.count {
            return bits.max(buckets::into_index(row_entry(self.row, layout.width, passed)) + 1);
        }
        bits
    }

    fn merge(&self, passed: usize, i: usize) -> Merged {
        let layout = self.layout;
        let mut joined = self.block(i);
        // as the filter's
        let mut past = passed;
        // The filter's loop again: one for both would take the entry by a closure, whose clauses are longer than the loop.
        for at in passed..layout.count {
            let bucket = row_entry(self.row, layout.width, at);
            if buckets::into_index(bucket) != i {
                return Merged {
                    block: joined,
                    passed: at,
                };
            }
            joined = with_bucket(joined, bucket);
            past = at + 1;
        }
        Merged {
            block: joined,
            passed: past,
        }
    }
}

// ---- under a mask

// What a mask keeps of a set.
#[derive(Clone, Copy)]
pub struct Masked<W> {
    pub walk: W,
    pub mask: BlockMask,
}

impl<W: BitChunks> BitChunks for Masked<W> {
    ghost set = { λ s. kept s.mask.block s.mask.size (W.set s.walk) };

    ghost tops = { λ s. W.tops s.walk };

    ghost sound = { λ s. W.sound s.walk };

    fn reach(&self, passed: usize, end: usize) -> usize {
        self.walk.reach(passed, end)
    }

    fn merge(&self, passed: usize, i: usize) -> Merged {
        let next = self.walk.merge(passed, i);
        Merged {
            block: self.mask.masked_block(next.block, i),
            passed: next.passed,
        }
    }
}

// ---- the steps

// The next block that may hold a member, and the cursor past it, whose `end` is the block's number.
pub fn next_chunk<W: BitChunks>(walk: &W, from: Cursor) -> Option<(u64, Cursor)>
    requires { W.sound walk.now × Ahead (W.tops walk.now) from.passed from.end }
    ensures { Next (W.set walk.now) (W.tops walk.now) from.end result }
{
    let e = walk.reach(from.passed, from.end);
    if e == 0 {
        return None;
    }
    let i = e - 1;
    let next = walk.merge(from.passed, i);
    Some((
        next.block,
        Cursor {
            passed: next.passed,
            end: i,
        },
    ))
}

// The next block that holds a member, and the cursor past it: of what a mask keeps, the next block in which it keeps one.
pub fn next_masked_chunk<W: BitChunks>(walk: &W, from: Cursor) -> Option<(u64, Cursor)>
    requires { W.sound walk.now × Ahead (W.tops walk.now) from.passed from.end }
    ensures { NextKept (W.set walk.now) (W.tops walk.now) from.end result }
{
    let mut at = from;
    loop {
        let (block, next) = next_chunk(walk, at)?;
        if block != 0 {
            return Some((block, next));
        }
        at = next;
    }
}

// The next block in which one of two sets may hold a member: that of the symmetric difference, that of the first set, and the
// cursors past it.
pub fn next_xor_chunk<V: BitChunks, W: BitChunks>(
    a: &V,
    b: &W,
    from: Cursors,
) -> Option<(u64, u64, Cursors)>
    requires walks { V.sound a.now × Ahead (V.tops a.now) from.passed from.end }
    requires walks_2 { W.sound b.now × Ahead (W.tops b.now) from.passed2 from.end }
    ensures { NextApart (V.set a.now) (W.set b.now) (V.tops a.now) (W.tops b.now) from.end result }
{
    let reached = a.reach(from.passed, from.end);
    let e = reached.max(b.reach(from.passed2, from.end));
    if e == 0 {
        return None;
    }
    let i = e - 1;
    let first = a.merge(from.passed, i);
    let second = b.merge(from.passed2, i);
    Some((
        first.block ^ second.block,
        first.block,
        Cursors {
            passed: first.passed,
            passed2: second.passed,
            end: i,
        },
    ))
}

// ---- the ones

// The highest place of a block that is not 0, and what is left.
pub fn take_one(block: u64, cursor: Cursor) -> (usize, Ones)
    requires { (0 < block) × (64 * cursor.end ≤ 2 ^ 32) }
    ensures { (S : Set) (tops : List ℕ) → Ahead tops cursor.passed cursor.end →
        Gives S tops (rest S cursor.end block) (Some result) }
{
    let bit = buckets::from_block_msb(block);
    let left = Ones {
        block: block ^ buckets::into_block(bit),
        cursor,
    };
    (buckets::into_bucket(cursor.end, bit), left)
}

// The largest member that was not yet given, and those left.
pub fn next_one<W: BitChunks>(walk: &W, from: Ones) -> Option<(usize, Ones)>
    requires { W.sound walk.now × Ahead (W.tops walk.now) from.cursor.passed from.cursor.end }
    ensures { Gives (W.set walk.now) (W.tops walk.now) (rest (W.set walk.now) from.cursor.end from.block) result }
{
    if from.block != 0 {
        return Some(take_one(from.block, from.cursor));
    }
    let (block, cursor) = next_masked_chunk(walk, from.cursor)?;
    Some(take_one(block, cursor))
}

// ---- the counts

// The exact count of a filter with so many top entries and these blocks.
pub fn exact_count(count: usize, blocks: &[u64]) -> usize
    requires { (count ≤ 2 ^ 32) × (64 * length blocks.now ≤ 2 ^ 32) }
    ensures { (m k edge : ℕ) (top all : List ℕ) (S : Set) → 0 < m → BlocksOf blocks.now all edge →
        Holds m k top all count edge S → result ≡ exact_count (64 * k) S }
{
    count + bitvec::count_ones(blocks)
}

// The first block of the window under the last top entry.
fn lsb_index_lower_bound(upper: usize, window: usize) -> usize
    ensures { result ≡ upper - window }
{
    upper.saturating_sub(window)
}

// The bound that goes with a count.
fn bound_of(count: usize, m: usize, low: usize) -> usize
    requires { 64 * low < 2 ^ 64 }
    ensures { result ≡ cond (leb count m) 0 (64 * low) }
{
    if count <= m {
        return 0;
    }
    64 * low
}

// The limited count of a filter with so many top entries, this last one, and these blocks.
pub fn count_ones_from_msb_and_lsb(
    count: usize,
    last: usize,
    blocks: &[u64],
    m: usize,
    window: usize,
) -> Limited
    requires { (count ≤ 2 ^ 32) × (last ≤ 2 ^ 32) × (64 * length blocks.now ≤ 2 ^ 32) }
    ensures { (k edge : ℕ) (top all : List ℕ) (S : Set) → 0 < m → BlocksOf blocks.now all edge →
        Holds m k top all count edge S → last ≡ last_entry m (64 * k) S →
        LimitedTo m (64 * k) window S result.count result.bound }
{
    let low = lsb_index_lower_bound(bitvec::num_blocks(last), window);
    let first = low.min(blocks.len());
    let total = count + bitvec::count_ones(&blocks[first..]);
    Limited {
        count: total,
        bound: bound_of(total, m, low),
    }
}

// How many members of the symmetric difference are ahead of the cursors, in the blocks from `floor` up.
fn count_xor_ones<V: BitChunks, W: BitChunks>(a: &V, b: &W, from: Cursors, floor: usize) -> usize
    requires walks { V.sound a.now × Ahead (V.tops a.now) from.passed from.end }
    requires walks_2 { W.sound b.now × Ahead (W.tops b.now) from.passed2 from.end }
    ensures { result ≡ length (members (onward (64 * floor) (apart (V.set a.now) (W.set b.now))) (64 * from.end)) }
{
    let mut total: usize = 0;
    let mut at = from;
    while let Some((block, _, c)) = next_xor_chunk(a, b, at) {
        if c.end < floor {
            return total;
        }
        total += bitvec::ones_of(block);
        at = c;
    }
    total
}

// The exact count of the symmetric difference of two sets of k blocks.
pub fn exact_xor_count<V: BitChunks, W: BitChunks>(a: &V, b: &W, k: usize) -> usize
    requires walks { V.sound a.now × Ahead (V.tops a.now) 0 k }
    requires walks_2 { W.sound b.now × Ahead (W.tops b.now) 0 k }
    ensures { result ≡ exact_count (64 * k) (apart (V.set a.now) (W.set b.now)) }
{
    count_xor_ones(a, b, Cursors::start(k), 0)
}

// How many blocks stand up to the last of m members, which is in the block of this number: `total` members are in this block and
// above, and the last of m is the block's lowest bucket only where they are m.
fn blocks_for_last(index: usize, block: u64, total: usize, m: usize) -> usize
    requires { 64 * index ≤ 2 ^ 32 }
    ensures { result ≡ cond (eqb total m && eqb (block % 2) 1) index (index + 1) }
{
    if total == m && block % 2 == 1 {
        return index;
    }
    index + 1
}

// Walks until m members are met, in whole blocks: how many they are, how many blocks stand up to the last of the m largest, and the
// cursors. Or how many there are, where they are fewer.
fn first_xor_ones<V: BitChunks, W: BitChunks>(
    a: &V,
    b: &W,
    k: usize,
    m: usize,
) -> Result<(usize, usize, Cursors), usize>
    requires walks { V.sound a.now × Ahead (V.tops a.now) 0 k }
    requires walks_2 { W.sound b.now × Ahead (W.tops b.now) 0 k }
    requires le_m { 1 ≤ m }
    ensures { FirstOf (V.set a.now) (W.set b.now) (V.tops a.now) (W.tops b.now) k m result }
{
    let mut total: usize = 0;
    let mut at = Cursors::start(k);
    while let Some((block, _, c)) = next_xor_chunk(a, b, at) {
        total += bitvec::ones_of(block);
        if m <= total {
            return Ok((total, blocks_for_last(c.end, block, total, m), c));
        }
        at = c;
    }
    Err(total)
}

// The limited count of the symmetric difference of two sets of k blocks.
pub fn count_ones_from_bitchunks<V: BitChunks, W: BitChunks>(
    a: &V,
    b: &W,
    k: usize,
    m: usize,
    window: usize,
) -> Limited
    requires walks { V.sound a.now × Ahead (V.tops a.now) 0 k }
    requires walks_2 { W.sound b.now × Ahead (W.tops b.now) 0 k }
    requires le_m { (1 ≤ m) × (1 ≤ window) }
    ensures { LimitedTo m (64 * k) window (apart (V.set a.now) (W.set b.now)) result.count result.bound }
{
    match first_xor_ones(a, b, k, m) {
        Ok((total, upper, c)) => {
            let low = lsb_index_lower_bound(upper, window);
            let all = total + count_xor_ones(a, b, c, low);
            Limited {
                count: all,
                bound: bound_of(all, m, low),
            }
        }
        Err(total) => Limited {
            count: total,
            bound: 0,
        },
    }
}
