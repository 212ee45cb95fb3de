// Order and key of filters under a mask (cmp_masked and masked_sort_key of diff_count.rs).
#![tactic(auto)]

ghost use Rattle.std.specs.Prelude.{◌≡◌, ◌*◌, ◌≤◌};
ghost use Rattle.sets.specs.Sets.{members};
ghost use Rattle.sets.specs.Masks.{order_of};
ghost use Rattle.bitchunks.specs.Walk.{Ahead};
ghost use Rattle.masked.specs.Calls.{cmp_of, key_for};
ghost use Rattle.masked.specs.Inner.{Decides, decided, key_told};

use bitchunks::{BitChunks, BlockMask, Cursors, FilterBlocks, Masked, Ones};
use diff_count::Filter;
use sizes::Refusal;
use std::cmp::Ordering;

// The highest block in which the mask keeps a difference of two sets of k blocks: what it keeps there, and the first set's block.
// Document 01 names this form, a loop that yields the block by `break`, and the `let .. else` in `pack`.
fn deciding_block<V: BitChunks, W: BitChunks>(
    a: &V,
    b: &W,
    mask: BlockMask,
    k: usize,
) -> Option<(u64, u64)>
    requires walks { V.sound a.now × Ahead (V.tops a.now) 0 k }
    requires walks_2 { W.sound b.now × Ahead (W.tops b.now) 0 k }
    ensures { Decides mask.block mask.size (V.set a.now) (W.set b.now) k result }
{
    let mut at = Cursors::start(k);
    loop {
        let Some((block, first, c)) = bitchunks::next_xor_chunk(a, b, at) else {
            break None;
        };
        let kept = mask.masked_block(block, c.end);
        if kept != 0 {
            break Some((kept, first));
        }
        at = c;
    }
}

// The order that a deciding block tells: of what the mask keeps there, the part with the highest bucket is the larger number.
pub fn order_by(found: Option<(u64, u64)>) -> Ordering
    ensures { result ≡ decided found }
{
    match found {
        Some((kept, first)) => {
            let held = kept & first;
            let other = kept ^ held;
            if other < held {
                return Ordering::Greater;
            }
            Ordering::Less
        }
        None => Ordering::Equal,
    }
}

// The order of two sets of k blocks.
pub fn order<V: BitChunks, W: BitChunks>(a: &V, b: &W, mask: BlockMask, k: usize) -> Ordering
    requires walks { V.sound a.now × Ahead (V.tops a.now) 0 k }
    requires walks_2 { W.sound b.now × Ahead (W.tops b.now) 0 k }
    ensures { result ≡ order_of (64 * k) mask.block mask.size (V.set a.now) (W.set b.now) }
{
    order_by(deciding_block(a, b, mask, k))
}

// The key of a set of k blocks, with so many bits to a slot.
fn pack<W: BitChunks>(walk: &W, k: usize, bits: usize) -> Result<u64, Refusal>
    requires walks { W.sound walk.now × Ahead (W.tops walk.now) 0 k }
    requires le_bits { (1 ≤ bits) × (bits ≤ 63) }
    ensures { result ≡ key_told bits (members (W.set walk.now) (64 * k)) }
{
    let limit: usize = 1 << bits;
    let mut key: u64 = 0;
    let mut room: usize = 64;
    let mut at = Ones::start(k);
    loop {
        let Some((p, next)) = bitchunks::next_one(walk, at) else {
            return Ok(key);
        };
        if limit <= p {
            return Err(Refusal::Slot);
        }
        // the leftover bits hold the high bits of one more
        if room < bits {
            return Ok(key + ((p as u64) >> (bits - room)));
        }
        room -= bits;
        key += (p as u64) << room;
        at = next;
    }
}

// The order of two filters under a mask.
pub fn cmp_masked(
    a: Filter,
    top: &[u32],
    blocks: &[u64],
    b: Filter,
    top2: &[u32],
    blocks2: &[u64],
    mask: u64,
    size: usize,
) -> Result<Ordering, Refusal>
    ensures { result ≡ cmp_of a top.now blocks.now b top2.now blocks2.now mask size }
{
    let s = diff_count::filters_lent(a, top, blocks, b, top2, blocks2)?;
    judge::mask(mask, size)?;
    let first = FilterBlocks::new(top, a.count, blocks, a.boundary);
    let second = FilterBlocks::new(top2, b.count, blocks2, b.boundary);
    let block_mask = bitchunks::repeat_mask(mask, size);
    Ok(order(&first, &second, block_mask, s.blocks))
}

// The sort key of a filter under a mask. Equal keys decide nothing: then ask the order.
pub fn masked_sort_key(
    f: Filter,
    top: &[u32],
    blocks: &[u64],
    mask: u64,
    size: usize,
) -> Result<u64, Refusal>
    ensures { result ≡ key_for f top.now blocks.now mask size }
{
    let s = diff_count::filter_lent(f, top, blocks)?;
    judge::mask(mask, size)?;
    let kept = Masked {
        walk: FilterBlocks::new(top, f.count, blocks, f.boundary),
        mask: bitchunks::repeat_mask(mask, size),
    };
    pack(&kept, s.blocks, s.bits)
}
