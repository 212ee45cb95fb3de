// The tests by which the calls on filters refuse, in document 01's order. None writes to what it is lent.
#![tactic(auto)]

ghost use Rattle.std.specs.Prelude.{◌≡◌, ◌*◌, ◌≤◌, length, take};
ghost use Rattle.sets.specs.Sets.{Empty, Falls, all_below};
ghost use Rattle.sets.specs.Words.{held};
ghost use Rattle.sets.specs.Filter.{is_filter};
ghost use Rattle.bitvec.specs.Parts.{Room};
ghost use Rattle.judge.specs.Judging.{Tells, TopFits, roomy, areas_of, filter_of, two_of, mask_of};

use bitvec::Tally;
use sizes::{Refusal, Sizes};

// Whether every bucket listed is below the limit. No bucket ends the loop, so that several can be compared at once.
fn cells_below(list: &[u32], limit: u32) -> bool
    ensures { result ≡ all_below limit list.now }
{
    let mut above = false;
    for &bucket in list {
        above |= bucket >= limit;
    }
    !above
}

// The same of any limit. Every cell is below one of more than 32 bits.
pub fn all_below(list: &[u32], limit: usize) -> bool
    ensures { result ≡ all_below limit list.now }
{
    match u32::try_from(limit) {
        Ok(limit) => cells_below(list, limit),
        Err(_) => true,
    }
}

// ---- 8

// Whether the cells fall, from below the limit.
fn falls(top: &[u32], limit: usize) -> bool
    ensures { Tells result (Falls limit top.now) }
{
    let mut last = limit;
    for &cell in top {
        let bucket = buckets::into_usize(cell);
        if bucket >= last {
            return false;
        }
        last = bucket;
    }
    true
}

// Whether the top area is that of a filter with so many entries.
fn top_fits(top: &[u32], count: usize, limit: usize) -> bool
    ensures { Tells result (TopFits (length top.now) limit top.now count) }
{
    if top.len() < count {
        return false;
    }
    if !falls(&top[..count], limit) {
        return false;
    }
    bitvec::or(&top[count..]) == 0
}

// Whether no bit of the blocks stands at or above the boundary.
pub fn bits_fit(blocks: &[u64], boundary: usize) -> bool
    ensures { Tells result (Empty (held blocks.now) boundary (64 * length blocks.now)) }
{
    let i = buckets::into_index(boundary);
    if blocks.len() <= i {
        return true;
    }
    let first = blocks[i] >> buckets::into_bit(boundary);
    let rest = bitvec::or(&blocks[i + 1..]);
    (first | rest) == 0
}

// Whether areas and tally are some set's filter. With its unused cells 0, the top area's last cell is the boundary, full or not;
// blocks below the boundary may be any.
// `Room` stays a clause: document 01 lends the two areas apart.
fn is_filter(top: &[u32], blocks: &[u64], tally: Tally, m: usize, k: usize) -> bool
    requires { Room m k top.now blocks.now }
    ensures { result ≡ is_filter m k top.now blocks.now tally.count tally.boundary }
{
    let boundary = tally.boundary;
    if !top_fits(&top[..m], tally.count, 64 * k) {
        return false;
    }
    let last = m - 1;
    if buckets::into_usize(top[last]) != boundary {
        return false;
    }
    bits_fit(&blocks[..k], boundary)
}

// ---- what a call is lent

// Whether slices of these lengths have room for the two areas.
fn has_room(s: Sizes, top: usize, blocks: usize) -> bool
    ensures { result ≡ roomy s top blocks }
{
    s.top <= top && s.blocks <= blocks
}

// 1, 3: the sizes, where slices of these lengths have room for the areas.
pub fn areas(config: u64, top: usize, blocks: usize) -> Result<Sizes, Refusal>
    ensures { result ≡ areas_of config top blocks }
{
    let s = sizes::sizes_of(config)?;
    if !has_room(s, top, blocks) {
        return Err(Refusal::Room);
    }
    Ok(s)
}

// 1, 3, 8: the sizes, where a filter was lent.
pub fn filter(config: u64, tally: Tally, top: &[u32], blocks: &[u64]) -> Result<Sizes, Refusal>
    ensures { result ≡ filter_of config tally top.now blocks.now }
{
    let s = areas(config, top.len(), blocks.len())?;
    if !is_filter(top, blocks, tally, s.top, s.blocks) {
        return Err(Refusal::Soundness);
    }
    Ok(s)
}

// 1, 3, 8, 9: the sizes, where two filters of one configuration were lent, beside slices of the lengths `to_top` and `to_blocks` for
// the areas of a third. A call that has no third names the first's lengths again.
pub fn two_filters(
    config: u64,
    tally: Tally,
    top: &[u32],
    blocks: &[u64],
    config2: u64,
    tally2: Tally,
    top2: &[u32],
    blocks2: &[u64],
    to_top: usize,
    to_blocks: usize,
) -> Result<Sizes, Refusal>
    ensures { result ≡ two_of config tally top.now blocks.now
        config2 tally2 top2.now blocks2.now to_top to_blocks }
{
    let s = sizes::sizes_of(config)?;
    let o = sizes::sizes_of(config2)?;
    if !has_room(s, top.len(), blocks.len()) {
        return Err(Refusal::Room);
    }
    if !has_room(o, top2.len(), blocks2.len()) {
        return Err(Refusal::Room);
    }
    if !has_room(s, to_top, to_blocks) {
        return Err(Refusal::Room);
    }
    if !is_filter(top, blocks, tally, s.top, s.blocks) {
        return Err(Refusal::Soundness);
    }
    if !is_filter(top2, blocks2, tally2, o.top, o.blocks) {
        return Err(Refusal::Soundness);
    }
    if config != config2 {
        return Err(Refusal::Likeness);
    }
    Ok(s)
}

// 6, 7
pub fn mask(mask: u64, size: usize) -> Result<(), Refusal>
    ensures { result ≡ mask_of mask size }
{
    if size < 1 {
        return Err(Refusal::MaskSize);
    }
    if 63 < size {
        return Err(Refusal::MaskSize);
    }
    if mask >> size != 0 {
        return Err(Refusal::MaskBits);
    }
    Ok(())
}
