// The counts of a filter, and of the symmetric difference of two filters, for which no third areas are lent (the counting of
// diff_count.rs and config/bitchunks.rs).
#![tactic(auto)]

ghost use Rattle.std.specs.Prelude.{◌≡◌, ◌-◌, length, get_or};
ghost use Rattle.counts.specs.Counting.{exact_of, limited_of, exact_difference_of, limited_difference_of};

use bitchunks::{FilterBlocks, Limited};
use diff_count::Filter;
use sizes::Refusal;

// The last of the top entries, 0 if there is none.
fn last_entry(top: &[u32]) -> usize
    ensures { result ≡ get_or top.now (length top.now - 1) 0 }
{
    match top.last() {
        Some(&last) => buckets::into_usize(last),
        None => 0,
    }
}

// How many buckets a filter holds.
pub fn exact_count(f: Filter, top: &[u32], blocks: &[u64]) -> Result<usize, Refusal>
    ensures { result ≡ exact_of f top.now blocks.now }
{
    diff_count::filter_lent(f, top, blocks)?;
    Ok(FilterBlocks::new(top, f.count, blocks, f.boundary).exact_count())
}

// How many there are in the window under the last top entry and above it. They are all that stand at or above the bound; but M with
// bound 0 says only that the window is empty.
pub fn limited_count(f: Filter, top: &[u32], blocks: &[u64]) -> Result<Limited, Refusal>
    ensures { result ≡ limited_of f top.now blocks.now }
{
    let s = diff_count::filter_lent(f, top, blocks)?;
    let shown = FilterBlocks::new(top, f.count, blocks, f.boundary);
    let last = last_entry(shown.top);
    Ok(shown.count_ones_from_msb_and_lsb(last, s.top, s.window))
}

// How many buckets exactly one of two filters holds.
pub fn exact_difference(
    a: Filter,
    top: &[u32],
    blocks: &[u64],
    b: Filter,
    top2: &[u32],
    blocks2: &[u64],
) -> Result<usize, Refusal>
    ensures { result ≡ exact_difference_of a top.now blocks.now b top2.now blocks2.now }
{
    let s = diff_count::filters_lent(a, top, blocks, b, top2, blocks2)?;
    let first = FilterBlocks::new(top, a.count, blocks, a.boundary);
    let second = FilterBlocks::new(top2, b.count, blocks2, b.boundary);
    Ok(bitchunks::exact_xor_count(&first, &second, s.blocks))
}

// The limited count of the buckets that exactly one of two filters holds.
pub fn limited_difference(
    a: Filter,
    top: &[u32],
    blocks: &[u64],
    b: Filter,
    top2: &[u32],
    blocks2: &[u64],
) -> Result<Limited, Refusal>
    ensures { result ≡ limited_difference_of a top.now blocks.now b top2.now blocks2.now }
{
    let s = diff_count::filters_lent(a, top, blocks, b, top2, blocks2)?;
    let first = FilterBlocks::new(top, a.count, blocks, a.boundary);
    let second = FilterBlocks::new(top2, b.count, blocks2, b.boundary);
    Ok(bitchunks::count_ones_from_bitchunks(&first, &second, s.blocks, s.top, s.window))
}
