// The manual's examples on rows, and 01's edges that speak of rows. Each check tells whether the calls answer as written there; the
// program writes a letter for each, y or n.
#![tactic(auto)]

use examples::{end_line, filter_of, is_filter, tell};
use sizes::Refusal;
use std::cmp::Ordering;
use std::io;

// ---- writing

// Writes the row of the buckets listed, and tells its length.
fn row_of(list: &[u32], to: &mut [u8]) -> Result<usize, Refusal> {
    let mut top = [0u32; 12];
    let mut blocks = [0u64; 130];
    let f = filter_of(&mut top, &mut blocks, list)?;
    rows::write(f, &top, &blocks, to)
}

fn the_empty_row() -> bool {
    let mut to = [9u8; 4];
    row_of(&[], &mut to) == Ok(0) && to[0] == 9 && rows::open(7, &to[..0]) == Ok(0)
}

fn a_full_list_down_to_bucket_0_has_no_bit_part() -> bool {
    let mut to = [9u8; 40];
    let list = [11u32, 10, 9, 8, 7, 6, 5, 4, 3, 2, 1, 0];
    let length = row_of(&list, &mut to);
    let (row, rest) = to.split_at(24);
    length == Ok(24) && row[0] == 11 && rest[0] == 9 && rows::open(7, row) == Ok(12)
}

fn a_row_cut_at_24_bytes_is_refused() -> bool {
    let mut to = [9u8; 40];
    let list = [12u32, 11, 10, 9, 8, 7, 6, 5, 4, 3, 2, 1];
    let length = row_of(&list, &mut to);
    let (row, cut) = (&to[..33], &to[..24]);
    length == Ok(33) && rows::open(7, row) == Ok(12) && rows::open(7, cut) == Err(Refusal::NoSet)
}

fn a_row_cut_between_entries_is_another_row() -> bool {
    let mut to = [9u8; 40];
    let list = [12u32, 11, 10, 9, 8, 7, 6, 5, 4, 3, 2, 1];
    let length = row_of(&list, &mut to);
    length == Ok(33)
        && rows::open(7, &to[..22]) == Ok(11)
        && rows::open(7, &to[..2]) == Ok(1)
        && rows::open(7, &to[..0]) == Ok(0)
}

// The length of the row, its spare byte and the lowest byte of its blocks.
fn bit_part_is(list: &[u32], length: usize, spare: u8, low: u8) -> bool {
    let mut to = [9u8; 48];
    row_of(list, &mut to) == Ok(length) && to[24] == spare && to[25] == low
}

fn the_thirteenth_is_a_bit() -> bool {
    let thirteen = [13u32, 12, 11, 10, 9, 8, 7, 6, 5, 4, 3, 2, 1];
    let again = [13u32, 13, 12, 11, 10, 9, 8, 7, 6, 5, 4, 3, 2, 1];
    bit_part_is(&thirteen, 33, 62, 2) && bit_part_is(&again, 33, 63, 0)
}

fn boundaries_64_and_65() -> bool {
    let to_64 = [75u32, 74, 73, 72, 71, 70, 69, 68, 67, 66, 65, 64];
    let to_65 = [76u32, 75, 74, 73, 72, 71, 70, 69, 68, 67, 66, 65];
    bit_part_is(&to_64, 33, 0, 0) && bit_part_is(&to_65, 41, 63, 0)
}

// A buffer that is too short is refused, and stays as it was.
fn a_short_buffer_stays() -> bool {
    let mut to = [9u8; 3];
    row_of(&[6, 5], &mut to) == Err(Refusal::Room) && to == [9; 3]
}

// ---- reading

fn two_entries_are_read() -> bool {
    let mut top = [7u32; 12];
    let mut blocks = [7u64; 130];
    let made = rows::read(7, &[6, 0, 5, 0], &mut top, &mut blocks);
    is_filter(made, 2, 0) && top.starts_with(&[6, 5, 0]) && blocks[0] == 0
}

fn is_refused(config: u64, row: &[u8], refusal: Refusal) -> bool {
    let mut top = [7u32; 12];
    let mut blocks = [7u64; 130];
    matches!(rows::read(config, row, &mut top, &mut blocks), Err(r) if r == refusal)
}

fn rows_that_no_set_has() -> bool {
    is_refused(8, &[5, 0], Refusal::Configuration)
        && is_refused(10, &[5, 0, 0, 0], Refusal::Room)
        && is_refused(7, &[5], Refusal::RowLength)
        && is_refused(7, &[128, 32], Refusal::Range)
        && is_refused(7, &[5, 0, 6, 0], Refusal::NoSet)
}

// The range of all entries is judged before their order.
fn two_before_five() -> bool {
    is_refused(7, &[5, 0, 6, 0, 255, 255], Refusal::Range)
}

fn written_and_read_back() -> bool {
    let mut to = [0u8; 33];
    let mut top = [7u32; 12];
    let mut blocks = [7u64; 130];
    let list = [13u32, 12, 11, 10, 9, 8, 7, 6, 5, 4, 3, 2, 1];
    let length = row_of(&list, &mut to);
    let made = rows::read(7, &to, &mut top, &mut blocks);
    length == Ok(33)
        && is_filter(made, 12, 2)
        && top == [13, 12, 11, 10, 9, 8, 7, 6, 5, 4, 3, 2]
        && blocks.starts_with(&[2, 0, 0])
}

// ---- two rows

fn the_order_of_two_rows() -> bool {
    let one = [5u8, 0];
    let two = [5u8, 0, 0, 0];
    row_order::cmp_rows(7, 1, 1, &one, &two) == Ok(Ordering::Less)
        && row_order::cmp_rows(7, 0, 1, &one, &two) == Ok(Ordering::Equal)
        && row_order::cmp_rows(7, 8, 3, &[5], &[]) == Err(Refusal::MaskBits)
}

fn the_first_row_is_judged_first() -> bool {
    let twice = [5u8, 0, 5, 0];
    row_order::cmp_rows(7, 1, 1, &twice, &[5]) == Err(Refusal::NoSet)
        && row_order::cmp_rows(7, 1, 1, &[5], &twice) == Err(Refusal::RowLength)
}

fn the_greater_row_itself() -> bool {
    let one = [5u8, 0];
    let two = [5u8, 0, 0, 0];
    row_order::greater_row(7, 1, 1, &one, &two) == two.as_slice()
        && row_order::greater_row(7, 1, 1, &two, &one) == two.as_slice()
        && row_order::greater_row(7, 0, 1, &one, &two) == one.as_slice()
        && row_order::greater_row(7, 8, 3, &two, &one).is_empty()
}

// ---- stepping

// A place holds that bucket, and then comes the next place.
fn gives(row: &[u8], place: usize, bucket: u32, next: usize) -> bool {
    let step = row_reader::step_at(row, 7, place);
    step.answer == Ok(Some(bucket)) && step.place == next
}

fn ends(row: &[u8], place: usize) -> bool {
    let step = row_reader::step_at(row, 7, place);
    step.answer == Ok(None) && step.place == place
}

fn refuses(row: &[u8], config: u64, place: usize, refusal: Refusal) -> bool {
    let step = row_reader::step_at(row, config, place);
    step.answer == Err(refusal) && step.place == place
}

fn stepping_through_a_row() -> bool {
    let row = [5u8, 0, 0, 0];
    gives(&row, 0, 5, 1) && gives(&row, 1, 0, 2) && ends(&row, 2) && ends(&row, 90)
}

fn stepping_on_a_row_that_no_set_has() -> bool {
    let row = [5u8, 0, 5, 0];
    refuses(&row, 7, 1, Refusal::NoSet) && refuses(&row, 8, 1, Refusal::Configuration)
}

fn main(rt: HostRuntime) -> io::Result<()> {
    let mut out = rt.stdout();
    tell(&mut out, the_empty_row())?;
    tell(&mut out, a_full_list_down_to_bucket_0_has_no_bit_part())?;
    tell(&mut out, a_row_cut_at_24_bytes_is_refused())?;
    tell(&mut out, a_row_cut_between_entries_is_another_row())?;
    tell(&mut out, the_thirteenth_is_a_bit())?;
    tell(&mut out, boundaries_64_and_65())?;
    tell(&mut out, a_short_buffer_stays())?;
    tell(&mut out, two_entries_are_read())?;
    tell(&mut out, rows_that_no_set_has())?;
    tell(&mut out, two_before_five())?;
    tell(&mut out, written_and_read_back())?;
    tell(&mut out, the_order_of_two_rows())?;
    tell(&mut out, the_first_row_is_judged_first())?;
    tell(&mut out, the_greater_row_itself())?;
    tell(&mut out, stepping_through_a_row())?;
    tell(&mut out, stepping_on_a_row_that_no_set_has())?;
    end_line(&mut out)
}
