// The manual's examples on builders, and where 01 speaks of full areas, splits and refusals. Each check tells whether the calls answer as
// written there; the program writes a letter for each, y or n.
#![tactic(auto)]

use builder::Builder;
use diff_count::Filter;
use examples::{end_line, is_filter, tell};
use sizes::Refusal;
use std::io;

// ---- building

fn collect(
    split: usize,
    list: &[u32],
    pending: &mut [u32],
    bits: &mut [u64],
) -> Result<Builder, Refusal> {
    let b = builder::new(7, split, pending, bits)?;
    b.push(pending, bits, list)
}

// Whether a builder was answered, with that split and so many pending buckets.
fn is_builder(built: Result<Builder, Refusal>, split: usize, count: usize) -> bool {
    matches!(built, Ok(b) if b.split == split && b.count == count)
}

fn build(
    split: usize,
    list: &[u32],
    top: &mut [u32],
    blocks: &mut [u64],
) -> Result<Filter, Refusal> {
    let mut pending = [0u32; 24];
    let mut bits = [0u64; 130];
    let b = collect(split, list, &mut pending, &mut bits)?;
    b.finish(&pending, &bits, top, blocks)
}

// Whether the filter of 8319, 200 and 7 comes out: 5 cancels.
fn three_are_left(split: usize) -> bool {
    let mut top = [9u32; 12];
    let mut blocks = [9u64; 130];
    let made = build(split, &[5, 8319, 7, 5, 200], &mut top, &mut blocks);
    is_filter(made, 3, 0) && top.starts_with(&[8319, 200, 7, 0]) && blocks[0] == 0
}

fn the_split_does_not_matter() -> bool {
    [0, 1, 6, 128, 8320].into_iter().all(three_are_left)
}

// ---- a full area

fn below_the_split_a_bit_flips() -> bool {
    let mut pending = [9u32; 24];
    let mut bits = [9u64; 130];
    let built = collect(128, &[3, 128, 3, 1], &mut pending, &mut bits);
    is_builder(built, 128, 1) && pending[0] == 128 && bits[0] == 2
}

// 24 buckets, all but one below 128.
fn filled(pending: &mut [u32], bits: &mut [u64]) -> Result<Builder, Refusal> {
    let low = [64u32, 65, 66, 67, 68, 69, 70, 71, 72, 73, 74, 75];
    let more = [76u32, 77, 78, 79, 80, 81, 82, 83, 84, 85, 86, 300];
    let b = collect(0, &low, pending, bits)?;
    b.push(pending, bits, &more)
}

fn a_full_area_is_compacted() -> Result<bool, Refusal> {
    let mut pending = [0u32; 24];
    let mut bits = [0u64; 130];
    let full = filled(&mut pending, &mut bits)?;
    let compacted = full.push(&mut pending, &mut bits, &[400])?;
    Ok(
        full.split == 0
            && full.count == 24
            && compacted.split == 128
            && compacted.count == 2
            && pending.starts_with(&[300, 400, 0])
            && bits.starts_with(&[0, 8388607]),
    )
}

fn doubles_cancel_and_the_split_stays() -> bool {
    let mut pending = [0u32; 24];
    let mut bits = [0u64; 130];
    let built = collect(0, &[9; 25], &mut pending, &mut bits);
    is_builder(built, 0, 1) && pending.starts_with(&[9, 0]) && bits[0] == 0
}

// 21 buckets, eleven of them the same, so that 14 are left of 24.
fn crowded(pending: &mut [u32], bits: &mut [u64]) -> Result<Builder, Refusal> {
    let ten = [
        8297u32, 8298, 8299, 8300, 8301, 8302, 8303, 8304, 8305, 8306,
    ];
    let b = collect(8200, &[8296; 11], pending, bits)?;
    b.push(pending, bits, &ten)
}

fn the_split_never_passes_the_end() -> Result<bool, Refusal> {
    let mut pending = [0u32; 24];
    let mut bits = [0u64; 130];
    let most = crowded(&mut pending, &mut bits)?;
    let compacted = most.push(&mut pending, &mut bits, &[8307, 8308, 8309, 8295])?;
    Ok(
        most.split == 8200
            && most.count == 21
            && compacted.split == 8320
            && compacted.count == 1
            && pending.starts_with(&[8295, 0]),
    )
}

// ---- raising

fn raised_to(b: Builder, pending: &[u32], bits: &[u64], to: usize) -> Result<usize, Refusal> {
    Ok(b.raise(pending, bits, to)?.split)
}

fn a_split_raised_by_hand() -> Result<bool, Refusal> {
    let mut pending = [0u32; 24];
    let mut bits = [0u64; 130];
    let b = builder::new(7, 100, &mut pending, &mut bits)?;
    Ok(
        raised_to(b, &pending, &bits, 99) == Ok(100)
            && raised_to(b, &pending, &bits, 101) == Ok(101)
            && raised_to(b, &pending, &bits, 8320) == Ok(8320)
            && raised_to(b, &pending, &bits, 8321) == Err(Refusal::Range),
    )
}

// ---- records

// The top entries of the filter that is written.
fn entries_of(b: Builder, pending: &[u32], bits: &[u64]) -> Result<usize, Refusal> {
    let mut top = [0u32; 12];
    let mut blocks = [0u64; 130];
    Ok(b.finish(pending, bits, &mut top, &mut blocks)?.count)
}

fn an_old_record_may_still_fit() -> Result<bool, Refusal> {
    let mut pending = [0u32; 24];
    let mut bits = [0u64; 130];
    let old = builder::new(7, 0, &mut pending, &mut bits)?;
    let next = old.push(&mut pending, &mut bits, &[0])?;
    Ok(entries_of(old, &pending, &bits)? == 0 && entries_of(next, &pending, &bits)? == 1)
}

// ---- refusals

fn builders_that_are_not_made() -> bool {
    let mut pending = [1u32; 24];
    let mut short = [1u32; 23];
    let mut bits = [1u64; 130];
    let unknown = builder::new(8, 9000, &mut short, &mut bits);
    let unlent = builder::new(7, 9000, &mut short, &mut bits);
    let past = builder::new(7, 8321, &mut pending, &mut bits);
    matches!(unknown, Err(Refusal::Configuration))
        && matches!(unlent, Err(Refusal::Room))
        && matches!(past, Err(Refusal::Range))
        && pending[0] == 1
        && bits[0] == 1
}

fn a_list_out_of_range_flips_none() -> bool {
    let mut pending = [0u32; 24];
    let mut bits = [0u64; 130];
    let built = collect(128, &[5, 300, 8320], &mut pending, &mut bits);
    matches!(built, Err(Refusal::Range)) && pending[0] == 0 && bits[0] == 0
}

// What a raise that changes nothing says of a builder in these areas.
fn judged(split: usize, count: usize, pending: &[u32], bits: &[u64]) -> Result<usize, Refusal> {
    let b = Builder {
        config: 7,
        split,
        count,
    };
    raised_to(b, pending, bits, 0)
}

// Bucket 8319 is among the pending ones and 64 among the bits.
fn what_is_no_builder() -> bool {
    let mut pending = [0u32; 25];
    let mut bits = [0u64; 130];
    pending[0] = 8319;
    bits[1] = 1;
    judged(65, 1, &pending, &bits) == Ok(65)
        && judged(65, 24, &pending, &bits) == Ok(65)
        && judged(65, 25, &pending, &bits) == Err(Refusal::Soundness)
        && judged(65, 0, &pending, &bits) == Err(Refusal::Soundness)
        && judged(64, 1, &pending, &bits) == Err(Refusal::Soundness)
        && judged(8321, 1, &pending, &bits) == Err(Refusal::Soundness)
}

fn a_pending_bucket_out_of_range() -> bool {
    let mut pending = [0u32; 24];
    let bits = [0u64; 130];
    pending[0] = 8320;
    judged(0, 1, &pending, &bits) == Err(Refusal::Soundness)
}

// Whether finishing is refused where an area is short, and leaves what it was lent.
fn short_targets() -> bool {
    let mut top = [1u32; 11];
    let mut blocks = [1u64; 130];
    let made = build(0, &[], &mut top, &mut blocks);
    matches!(made, Err(Refusal::Room)) && top[0] == 1 && blocks[0] == 1
}

fn main(rt: HostRuntime) -> io::Result<()> {
    let mut out = rt.stdout();
    tell(&mut out, the_split_does_not_matter())?;
    tell(&mut out, below_the_split_a_bit_flips())?;
    tell(&mut out, a_full_area_is_compacted() == Ok(true))?;
    tell(&mut out, doubles_cancel_and_the_split_stays())?;
    tell(&mut out, the_split_never_passes_the_end() == Ok(true))?;
    tell(&mut out, a_split_raised_by_hand() == Ok(true))?;
    tell(&mut out, an_old_record_may_still_fit() == Ok(true))?;
    tell(&mut out, builders_that_are_not_made())?;
    tell(&mut out, a_list_out_of_range_flips_none())?;
    tell(&mut out, what_is_no_builder())?;
    tell(&mut out, a_pending_bucket_out_of_range())?;
    tell(&mut out, short_targets())?;
    end_line(&mut out)
}
