// A builder's pending buckets and its bits, in lent memory (diff_count.rs).
#![tactic(auto)]

ghost use Rattle.std.specs.Prelude.{◌≡◌, [], ◌∷◌, ◌+◌, ◌*◌, ◌^◌, ◌<◌, ◌≤◌, length, set};
ghost use Rattle.sets.specs.Sets.{Below};
ghost use Rattle.bitvec.specs.Parts.{Room};
ghost use Rattle.pending.specs.Stages.{Staged, Moves, Stays, Settled, held_from};

// A builder's record without its configuration.
#[derive(Clone, Copy)]
pub struct Stage {
    pub split: usize,
    // the buckets pending
    pub count: usize,
}

// How many buckets of the first k blocks are at or above the split. k beside the slice, since `settle` asks it again and again.
fn count_from(bits: &[u64], split: usize, k: usize) -> usize
    requires { (split ≤ 64 * k) × (k ≤ length bits.now) × (64 * k ≤ 2 ^ 32) }
    ensures { result ≡ held_from k bits.now split }
{
    let i = buckets::into_index(split);
    if k <= i {
        return 0;
    }
    let first = bitvec::ones_of(bits[i] >> buckets::into_bit(split));
    first + bitvec::count_ones(&bits[i + 1..k])
}

// Raises the split by whole levels, never past the last block's end, until at most m buckets of the blocks are at or above it, and
// counts these.
// The split rises by levels; no index is counted.
fn settle(bits: &[u64], split: usize, m: usize, k: usize, level: usize) -> Stage
    requires split_bound { (split ≤ 64 * k) × (k ≤ length bits.now) × (64 * k ≤ 2 ^ 32) }
    requires level_nonzero { (0 < level) × (level ≤ 2 ^ 32) }
    ensures { Settled m k level bits.now split result }
{
    let mut up = split;
    let mut count = count_from(bits, split, k);
    while m < count {
        up = (up + level).min(64 * k);
        count = count_from(bits, up, k);
    }
    Stage { split: up, count }
}

// Flips the pending buckets into the blocks, where doubles cancel; settles the split; takes what is at or above it out again, the
// largest first.
// `Staged` stays a clause: document 01 lends a builder's areas apart from its record.
fn compact(
    pending: &mut [u32],
    bits: &mut [u64],
    stage: Stage,
    m: usize,
    k: usize,
    level: usize,
) -> Stage
    requires room { Room (2 * m) k pending.old bits.old }
    requires staged { Staged m k pending.old bits.old stage }
    requires level_nonzero { (0 < level) × (level ≤ 2 ^ 32) }
    ensures { Moves m k level [] pending.old bits.old stage pending.new bits.new result
        × (result.count ≤ m) }
{
    bitvec::toggle_all(bits, &pending[..stage.count]);
    let next = settle(bits, stage.split, m, k, level);
    let count = next.count;
    // `lift` wants a place to lift to
    if 0 < count {
        bitvec::lift(pending, bits, count, k);
    }
    pending[count..2 * m].fill(0);
    next
}

// One more bucket pending, where there is room.
fn store(pending: &mut [u32], stage: Stage, bucket: usize) -> Stage
    requires { (stage.count < length pending.old) × (bucket < 2 ^ 32) }
    ensures { (pending.new ≡ set pending.old stage.count bucket)
        × (result.split ≡ stage.split) × (result.count ≡ stage.count + 1) }
{
    let count = stage.count;
    pending[count] = bucket as u32;
    Stage {
        count: count + 1,
        ..stage
    }
}

// Below the split the bit flips. Otherwise the bucket waits; a full area is compacted first.
// `Staged` stays a clause: document 01 lends a builder's areas apart from its record.
fn push_one(
    pending: &mut [u32],
    bits: &mut [u64],
    stage: Stage,
    m: usize,
    k: usize,
    level: usize,
    bucket: usize,
) -> Stage
    requires room { Room (2 * m) k pending.old bits.old }
    requires staged { Staged m k pending.old bits.old stage }
    requires level_nonzero { (0 < level) × (level ≤ 2 ^ 32) × (bucket < 64 * k) }
    ensures { Moves m k level (bucket ∷ []) pending.old bits.old stage
        pending.new bits.new result × Stays m (bucket ∷ []) stage result }
{
    if bucket < stage.split {
        bitvec::toggle(bits, bucket);
        return stage;
    }
    if stage.count < 2 * m {
        return store(pending, stage, bucket);
    }
    let room = compact(pending, bits, stage, m, k, level);
    store(pending, room, bucket)
}

// The buckets listed, one after the other.
// `Staged` stays a clause: document 01 lends a builder's areas apart from its record.
pub fn push_all(
    pending: &mut [u32],
    bits: &mut [u64],
    stage: Stage,
    m: usize,
    k: usize,
    level: usize,
    list: &[u32],
) -> Stage
    requires room { Room (2 * m) k pending.old bits.old }
    requires staged { Staged m k pending.old bits.old stage }
    requires level_nonzero { (0 < level) × (level ≤ 2 ^ 32) × Below (64 * k) list.now }
    ensures { Moves m k level list.now pending.old bits.old stage
        pending.new bits.new result × Stays m list.now stage result }
{
    let mut now = stage;
    for &bucket in list {
        now = push_one(pending, bits, now, m, k, level, buckets::into_usize(bucket));
    }
    now
}
