// A bucket's place in blocks of 64 bits (config/buckets.rs).
#![tactic(auto)]

ghost use Rattle.std.specs.Prelude.{◌≡◌, ◌+◌, ◌-◌, ◌*◌, ◌/◌, ◌%◌, ◌^◌, ◌<◌};
ghost use Rattle.sets.specs.Words.{TopDigit};

// A bucket as memory holds it.
pub fn into_usize(bucket: u32) -> usize
    ensures { result ≡ bucket }
{
    bucket as usize
}

// The number of the block that holds the bucket.
pub fn into_index(bucket: usize) -> usize
    ensures { result ≡ bucket / 64 }
{
    bucket / 64
}

// The bucket's place in its block.
pub fn into_bit(bucket: usize) -> usize
    ensures { result ≡ bucket % 64 }
{
    bucket % 64
}

// The bucket at a place of the block of this number.
pub fn into_bucket(index: usize, bit: usize) -> usize
    requires { 64 * index + bit < 2 ^ 64 }
    ensures { result ≡ 64 * index + bit }
{
    64 * index + bit
}

// The block in which this place alone is set.
pub fn into_block(bit: usize) -> u64
    requires { bit < 64 }
    ensures { result ≡ 2 ^ bit }
{
    1u64 << bit
}

// The block in which the places below this one are set.
pub fn into_mask(bit: usize) -> u64
    requires { bit < 64 }
    ensures { result ≡ 2 ^ bit - 1 }
{
    into_block(bit) - 1
}

// The highest place that is set.
pub fn from_block_msb(block: u64) -> usize
    requires { 0 < block }
    ensures { TopDigit block result }
{
    block.ilog2() as usize
}
