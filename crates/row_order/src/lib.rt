// The order of two rows under a mask, walked in their bytes, and the greater of two rows.
#![tactic(auto)]

ghost use Rattle.std.specs.Prelude.{◌≡◌};
ghost use Rattle.row_order.specs.Calls.{cmp_rows_of, greater_of, seen};
ghost use Rattle.row_order.specs.Inner.{judged_of};

use bitchunks::{BlockMask, RowBlocks};
use sizes::Refusal;
use std::cmp::Ordering;

// The order of two rows under a mask laid over a block. The first is judged before the second. A row that is
// taken shows one set, so rows of the same bytes are equal once the first is taken.
fn order_judged(
    config: u64,
    mask: BlockMask,
    first: &[u8],
    second: &[u8],
) -> Result<Ordering, Refusal>
    ensures { result ≡ judged_of config mask.block mask.size first.now second.now }
{
    let (s, layout) = judge_row::row(config, first)?;
    if first == second {
        return Ok(Ordering::Equal);
    }
    let (_, layout2) = judge_row::row(config, second)?;
    let a = RowBlocks { row: first, layout };
    let b = RowBlocks {
        row: second,
        layout: layout2,
    };
    Ok(masked::order(&a, &b, mask, s.blocks))
}

// The order of two rows of one configuration under a mask.
pub fn cmp_rows(
    config: u64,
    mask: u64,
    size: usize,
    first: &[u8],
    second: &[u8],
) -> Result<Ordering, Refusal>
    ensures { result ≡ cmp_rows_of config mask size first.now second.now }
{
    sizes::sizes_of(config)?;
    judge::mask(mask, size)?;
    order_judged(config, bitchunks::repeat_mask(mask, size), first, second)
}

// The greater of two rows, the first if they are equal; where `cmp_rows` refuses, the first's empty beginning.
pub fn greater_row<'a>(
    config: u64,
    mask: u64,
    size: usize,
    first: &'a [u8],
    second: &'a [u8],
) -> &'a [u8]
    ensures { seen result ≡ greater_of config mask size first.entry second.entry }
{
    match cmp_rows(config, mask, size, first, second) {
        Ok(Ordering::Less) => second,
        Ok(Ordering::Equal) => first,
        Ok(Ordering::Greater) => first,
        Err(_) => &first[..0],
    }
}
