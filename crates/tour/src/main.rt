// The manual's examples and some of 01's edges. Each check tells whether the calls answer as written there; the program writes a letter
// for each, y or n.
#![tactic(auto)]

use diff_count::Filter;
use examples::{end_line, filter_of, is_filter, tell};
use sizes::Refusal;
use std::cmp::Ordering;
use std::io;

// ---- making

fn short_slices_and_unknown_numbers() -> bool {
    let mut top = [1u32; 12];
    let mut short = [1u64; 129];
    let unlent = diff_count::empty(7, &mut top, &mut short);
    let unknown = diff_count::empty(263, &mut top, &mut short);
    matches!(unlent, Err(Refusal::Room))
        && matches!(unknown, Err(Refusal::Configuration))
        && top[0] == 1
        && short[0] == 1
}

// ---- toggling

fn toggling_twice_leaves_nothing() -> bool {
    let mut top = [0u32; 12];
    let mut blocks = [0u64; 130];
    let made = filter_of(&mut top, &mut blocks, &[5, 5]);
    is_filter(made, 0, 0) && top[0] == 0
}

fn a_bucket_out_of_range_flips_none() -> Result<bool, Refusal> {
    let mut top = [0u32; 12];
    let mut blocks = [0u64; 130];
    let f = filter_of(&mut top, &mut blocks, &[8319])?;
    let made = f.toggle(&mut top, &mut blocks, &[5, 8320]);
    Ok(matches!(made, Err(Refusal::Range)) && top.starts_with(&[8319, 0]))
}

fn an_old_record_no_longer_fits() -> Result<bool, Refusal> {
    let mut top = [0u32; 12];
    let mut blocks = [0u64; 130];
    let old = filter_of(&mut top, &mut blocks, &[8319])?;
    let refused = old.toggle(&mut top, &mut blocks, &[5, 8320]);
    let made = old.toggle(&mut top, &mut blocks, &[5]);
    let again = old.toggle(&mut top, &mut blocks, &[6]);
    Ok(
        matches!(refused, Err(Refusal::Range))
            && is_filter(made, 2, 0)
            && matches!(again, Err(Refusal::Soundness)),
    )
}

fn the_thirteenth_goes_to_the_blocks() -> Result<bool, Refusal> {
    let mut top = [0u32; 12];
    let mut blocks = [0u64; 130];
    let twelve = [12u32, 11, 10, 9, 8, 7, 6, 5, 4, 3, 2, 1];
    let f = filter_of(&mut top, &mut blocks, &twelve)?;
    let made = f.toggle(&mut top, &mut blocks, &[13]);
    Ok(
        f.boundary == 1
            && is_filter(made, 12, 2)
            && top.starts_with(&[13])
            && blocks.starts_with(&[2]),
    )
}

// ---- two filters

fn in_exactly_one_of_two() -> Result<bool, Refusal> {
    let mut top = [0u32; 12];
    let mut blocks = [0u64; 130];
    let mut top2 = [0u32; 64];
    let mut blocks2 = [0u64; 1040];
    let mut to_top = [0u32; 12];
    let mut to_blocks = [0u64; 130];
    let a = filter_of(&mut top, &mut blocks, &[5, 7])?;
    let b = filter_of(&mut top2, &mut blocks2, &[7, 9])?;
    let made = diff_count::symmetric_difference(
        a,
        &top,
        &blocks,
        b,
        &top2,
        &blocks2,
        &mut to_top,
        &mut to_blocks,
    );
    let count = counts::exact_difference(a, &top, &blocks, b, &top2, &blocks2)?;
    Ok(is_filter(made, 2, 0) && to_top.starts_with(&[9, 5]) && count == 2)
}

fn two_configurations() -> Result<bool, Refusal> {
    let mut top = [0u32; 12];
    let mut blocks = [0u64; 130];
    let mut top2 = [0u32; 64];
    let mut blocks2 = [0u64; 1040];
    let a = filter_of(&mut top, &mut blocks, &[5, 7])?;
    filter_of(&mut top2, &mut blocks2, &[7, 9])?;
    // over what the areas held
    let b = diff_count::empty(10, &mut top2, &mut blocks2)?;
    let counted = counts::exact_difference(a, &top, &blocks, b, &top2, &blocks2);
    Ok(counted == Err(Refusal::Likeness))
}

// ---- counts

// Of 8,308 to 8,319 and one bucket more.
fn limited_with(last: u32, count: usize, bound: usize) -> Result<bool, Refusal> {
    let mut top = [0u32; 12];
    let mut blocks = [0u64; 130];
    let list = [
        8319u32, 8318, 8317, 8316, 8315, 8314, 8313, 8312, 8311, 8310, 8309, 8308, last,
    ];
    let f = filter_of(&mut top, &mut blocks, &list)?;
    let limited = counts::limited_count(f, &top, &blocks)?;
    let exact = counts::exact_count(f, &top, &blocks)?;
    Ok(limited.count == count && limited.bound == bound && exact == 13)
}

// ---- masks

fn equal_keys_decide_nothing() -> Result<bool, Refusal> {
    let mut top = [0u32; 12];
    let mut blocks = [0u64; 130];
    let mut top2 = [0u32; 12];
    let mut blocks2 = [0u64; 130];
    let a = filter_of(&mut top, &mut blocks, &[5])?;
    let b = filter_of(&mut top2, &mut blocks2, &[5, 0])?;
    let key = masked::masked_sort_key(a, &top, &blocks, 1, 1)?;
    let key2 = masked::masked_sort_key(b, &top2, &blocks2, 1, 1)?;
    let order = masked::cmp_masked(a, &top, &blocks, b, &top2, &blocks2, 1, 1)?;
    Ok(key == key2 && order == Ordering::Less)
}

fn fifth_bucket_in_the_low_byte(fifth: u32, low: u64) -> Result<bool, Refusal> {
    let mut top = [0u32; 12];
    let mut blocks = [0u64; 130];
    let f = filter_of(&mut top, &mut blocks, &[400, 300, 200, 100, fifth])?;
    let key = masked::masked_sort_key(f, &top, &blocks, 1, 1)?;
    Ok(key % 256 == low)
}

fn masks_taken_and_refused() -> Result<bool, Refusal> {
    let mut top = [0u32; 12];
    let mut blocks = [0u64; 130];
    let f = diff_count::empty(7, &mut top, &mut blocks)?;
    Ok(
        masked::masked_sort_key(f, &top, &blocks, 8, 3) == Err(Refusal::MaskBits)
            && masked::masked_sort_key(f, &top, &blocks, 0, 0) == Err(Refusal::MaskSize)
            && masked::masked_sort_key(f, &top, &blocks, 0, 64) == Err(Refusal::MaskSize)
            && masked::masked_sort_key(f, &top, &blocks, 0, 63) == Ok(0),
    )
}

fn main(rt: HostRuntime) -> io::Result<()> {
    let mut out = rt.stdout();
    tell(&mut out, short_slices_and_unknown_numbers())?;
    tell(&mut out, toggling_twice_leaves_nothing())?;
    tell(&mut out, a_bucket_out_of_range_flips_none() == Ok(true))?;
    tell(&mut out, an_old_record_no_longer_fits() == Ok(true))?;
    tell(&mut out, the_thirteenth_goes_to_the_blocks() == Ok(true))?;
    tell(&mut out, in_exactly_one_of_two() == Ok(true))?;
    tell(&mut out, two_configurations() == Ok(true))?;
    tell(&mut out, limited_with(7616, 13, 7616) == Ok(true))?;
    tell(&mut out, limited_with(7615, 12, 0) == Ok(true))?;
    tell(&mut out, equal_keys_decide_nothing() == Ok(true))?;
    tell(&mut out, fifth_bucket_in_the_low_byte(64, 1) == Ok(true))?;
    tell(&mut out, fifth_bucket_in_the_low_byte(63, 0) == Ok(true))?;
    tell(&mut out, masks_taken_and_refused() == Ok(true))?;
    end_line(&mut out)
}
