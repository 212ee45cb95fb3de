// Blocks of 64 bits in lent memory, as a set of buckets (diff_count/bitvec.rs), and the two steps between such blocks and a
// filter's areas, fold and split.
#![tactic(auto)]

ghost use Rattle.std.specs.Prelude.{◌≡◌, ◌+◌, ◌-◌, ◌*◌, ◌/◌, ◌^◌, ◌<◌, ◌≤◌, length, take, drop};
ghost use Rattle.std.proofs.lemmas.List.Edits.{sets};
ghost use Rattle.std.specs.Int.Count.{ones};
ghost use Rattle.sets.specs.Sets.{Below, Empty, below, onward, members, tabulate};
ghost use Rattle.sets.specs.Words.{held, block_at, flip_bit, flip_bits};
ghost use Rattle.sets.specs.Configurations.{blocks_for};
ghost use Rattle.sets.specs.Filter.{filled};
ghost use Rattle.sets.specs.Row.{bytes_of, numbers, spare_byte, bit_part};
ghost use Rattle.std.specs.List.{FoldsTo};
ghost use Rattle.bitvec.specs.Cells.{xored, Zeros};
ghost use Rattle.bitvec.specs.Parts.{Room, Lifted, SplitOf, Folded};

use std::ops::BitOr;

// A filter's record without its configuration.
#[derive(Clone, Copy)]
pub struct Tally {
    pub count: usize,
    pub boundary: usize,
}

// ---- one bit

pub fn test_bit(blocks: &[u64], bucket: usize) -> bool
    requires { bucket / 64 < length blocks.now }
    ensures { result ≡ held blocks.now bucket }
{
    let i = buckets::into_index(bucket);
    (blocks[i] >> buckets::into_bit(bucket)) % 2 == 1
}

pub fn toggle(blocks: &mut [u64], bucket: usize)
    requires { bucket / 64 < length blocks.old }
    ensures { blocks.new ≡ flip_bit blocks.old bucket }
{
    let i = buckets::into_index(bucket);
    let bit = buckets::into_bit(bucket);
    blocks[i] = blocks[i] ^ buckets::into_block(bit);
}

// The buckets listed, one after the other.
pub fn toggle_all(blocks: &mut [u64], list: &[u32])
    requires { Below (64 * length blocks.old) list.now }
    ensures { blocks.new ≡ flip_bits blocks.old list.now }
{
    for &bucket in list {
        toggle(blocks, buckets::into_usize(bucket));
    }
}

// ---- a range of blocks

// How many buckets the blocks hold.
pub fn count_ones(blocks: &[u64]) -> usize
    requires { 64 * length blocks.now ≤ 2 ^ 32 }
    ensures { result ≡ length (members (held blocks.now) (64 * length blocks.now)) }
{
    let mut total: usize = 0;
    for &block in blocks {
        total += ones_of(block);
    }
    total
}

pub fn ones_of(block: u64) -> usize
    ensures { result ≡ ones block }
{
    u64::count_ones(block) as usize
}

// Cells joined, one after the other: of numbers, 0 exactly where each is (proofs/Gathering: gathered). No early way out, so that many
// are joined at once.
pub fn or<T: Copy + Default + BitOr<T, Output = T>>(cells: &[T]) -> T
    requires { (x y : T) → T.can_bitor x y }
    ensures { (none : T) × T.is_default none × FoldsTo T.bitor_gives none cells.now result }
{
    let mut all = T::default();
    for cell in cells {
        all = all | *cell;
    }
    all
}

// A loop, and not std's `copy_from_slice`, which calls `memmove`: the archive for C calls `memcpy` and `memset` alone.
pub fn copy(to: &mut [u64], source: &[u64])
    requires { length source.now ≡ length to.old }
    ensures { to.new ≡ source.now }
{
    for i in 0..to.len() {
        to[i] = source[i];
    }
}

// The symmetric difference of two, in a third of as many blocks; by index, since a place of all three is meant.
pub fn xor(to: &mut [u64], first: &[u64], second: &[u64])
    requires { (length first.now ≡ length to.old) × (length second.now ≡ length to.old) }
    ensures { to.new ≡ xored (length to.old) first.now second.now }
{
    for i in 0..to.len() {
        to[i] = first[i] ^ second[i];
    }
}

// Clears every bucket at and above the boundary, in the first k blocks; those past them stay, which the promise says of the whole slice.
pub fn resize(blocks: &mut [u64], boundary: usize, k: usize)
    requires { (boundary ≤ 64 * k) × (k ≤ length blocks.old) }
    ensures { blocks.new ≡
        filled (tabulate k (block_at (below boundary (held blocks.old)))) k blocks.old }
{
    let mut whole = buckets::into_index(boundary);
    let bit = buckets::into_bit(boundary);
    if bit > 0 {
        blocks[whole] = blocks[whole] & buckets::into_mask(bit);
        whole += 1;
    }
    blocks[whole..k].fill(0);
}

// ---- the bit part of a row

// How many blocks hold the buckets below a boundary.
pub fn num_blocks(boundary: usize) -> usize
    requires { boundary ≤ 2 ^ 32 }
    ensures { result ≡ blocks_for boundary }
{
    boundary.div_ceil(64)
}

// The spare byte of a boundary above 0.
pub fn unoccupied_bits(boundary: usize) -> u8
    requires { 0 < boundary }
    ensures { result ≡ spare_byte boundary }
{
    (63 - (boundary - 1) % 64) as u8
}

// The blocks, in bytes.
fn write_blocks(to: &mut [u8], at: usize, blocks: &[u64])
    requires { at + 8 * length blocks.now ≤ length to.old }
    ensures { to.new ≡ sets to.old at (bytes_of 8 blocks.now) }
{
    for (i, block) in blocks.iter().enumerate() {
        unaligned::write::<8>(to, at + 8 * i, *block);
    }
}

// The bit part of the set that the blocks hold below the boundary, at a place; answers the place after it.
pub fn write(to: &mut [u8], at: usize, blocks: &[u64], boundary: usize) -> usize
    requires boundary_bound { (boundary ≤ 2 ^ 32) × (blocks_for boundary ≤ length blocks.now) }
    requires empty { Empty (held blocks.now) boundary (64 * blocks_for boundary) }
    requires blocks_in_bounds { at + length (bit_part boundary (held blocks.now)) ≤ length to.old }
    ensures { (result ≡ at + length (bit_part boundary (held blocks.now)))
        × (to.new ≡ sets to.old at (bit_part boundary (held blocks.now))) }
{
    if boundary == 0 {
        return at;
    }
    let n = num_blocks(boundary);
    to[at] = unoccupied_bits(boundary);
    write_blocks(to, at + 1, &blocks[..n]);
    at + 1 + 8 * n
}

// The n blocks whose bytes begin at a place: what `write` wrote there, behind the spare byte. By index, and with n beside the slices: a
// place in `blocks` and one eight times as far in `from` are meant, as in `count_ones_in_bytes`.
pub fn from_bytes(blocks: &mut [u64], from: &[u8], at: usize, n: usize)
    requires { (n ≤ length blocks.old) × (8 * n ≤ length from.now - at) }
    ensures { blocks.new ≡ filled (numbers 8 n (drop at from.now)) n blocks.old }
{
    for i in 0..n {
        blocks[i] = unaligned::read::<8>(from, at + 8 * i);
    }
}

// How many buckets the n blocks hold whose bytes begin at a place.
pub fn count_ones_in_bytes(from: &[u8], at: usize, n: usize) -> usize
    requires { (8 * n ≤ length from.now - at) × (64 * n ≤ 2 ^ 32) }
    ensures { result ≡ length (members (held (numbers 8 n (drop at from.now))) (64 * n)) }
{
    let mut total: usize = 0;
    for i in 0..n {
        total += ones_of(unaligned::read::<8>(from, at + 8 * i));
    }
    total
}

// ---- between blocks and a filter's areas

// Flips the top entries into the blocks: these then hold the whole set. Its promise speaks of the filter in the areas, so it takes the
// whole top area, and k, how many blocks there are.
pub fn fold(top: &[u32], count: usize, blocks: &mut [u64], k: usize)
    requires { (count ≤ length top.now) × (k ≤ length blocks.old) × Below (64 * k) (take count top.now) }
    ensures { Folded k top.now count blocks.old blocks.new }
{
    toggle_all(blocks, &top[..count]);
}

// How many blocks there are up to the last that holds a bucket.
fn occupied(blocks: &[u64]) -> usize
    ensures { (result ≤ length blocks.now) × Zeros result (length blocks.now) blocks.now }
{
    blocks
        .iter()
        .rposition(|block| *block != 0)
        .map_or(0, |last| last + 1)
}

// Takes the largest buckets out of the first n blocks into the top cells, m at most, and says how many. No index is counted: a turn takes
// a bucket, or passes on to the next block that holds one.
// `Room` stays a clause: document 01 lends the two areas apart.
pub fn lift(top: &mut [u32], blocks: &mut [u64], m: usize, n: usize) -> usize
    requires { Room m n top.old blocks.old }
    ensures { Lifted m n top.old blocks.old top.new blocks.new result }
{
    let mut count: usize = 0;
    let mut i = n;
    // what is left of the block i, so that a block is read once and not for each of its buckets
    let mut block: u64 = 0;
    while count < m {
        if block == 0 {
            i = occupied(&blocks[..i]);
            if i == 0 {
                return count;
            }
            i -= 1;
            block = blocks[i];
            continue;
        }
        let bit = buckets::from_block_msb(block);
        block = block ^ buckets::into_block(bit);
        blocks[i] = block;
        top[count] = buckets::into_bucket(i, bit) as u32;
        count += 1;
    }
    count
}

// The filter of the set that the first k blocks hold, in its two areas: at most m of the largest buckets go to the top cells. No
// bucket stands at or above the block n.
// `Room` stays a clause: document 01 lends the two areas apart.
pub fn split(top: &mut [u32], blocks: &mut [u64], m: usize, k: usize, n: usize) -> Tally
    requires room { Room m k top.old blocks.old }
    requires n_le_k { (n ≤ k) × Empty (held blocks.old) (64 * n) (64 * k) }
    ensures { SplitOf m k top.old blocks.old top.new blocks.new
        result.count result.boundary }
{
    let count = lift(top, blocks, m, n);
    top[count..m].fill(0);
    let last = m - 1;
    let boundary = buckets::into_usize(top[last]);
    Tally { count, boundary }
}
