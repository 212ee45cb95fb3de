// The builder: a record by value beside two lent areas, for many buckets at once (diff_count.rs).
#![tactic(auto)]

ghost use Rattle.std.specs.Prelude.{◌≡◌, ◌*◌, ◌≤◌, length};
ghost use Rattle.sets.specs.Sets.{Below, flips};
ghost use Rattle.sets.specs.Words.{held};
ghost use Rattle.bitvec.specs.Parts.{Becomes, Room};
ghost use Rattle.builder.specs.Calls.{News, Pushes, raised, Finishes, stage_of};

use bitvec::Tally;
use diff_count::Filter;
use pending::Stage;
use sizes::Refusal;

#[derive(Clone, Copy)]
pub struct Builder {
    pub config: u64,
    pub split: usize,
    // the buckets pending
    pub count: usize,
}

impl From<Builder> for Stage {
    ghost from_gives = { λ b stage. stage ≡ stage_of b };

    fn from(b: Builder) -> Stage {
        Stage {
            split: b.split,
            count: b.count,
        }
    }
}

// The filter of a builder's set, in its two areas: of its pending buckets, and of the first k blocks of its bits.
// `Room` stays a clause: document 01 lends the two areas apart.
fn write_filter(
    pending: &[u32],
    bits: &[u64],
    top: &mut [u32],
    blocks: &mut [u64],
    m: usize,
    k: usize,
) -> Tally
    requires room { Room m k top.old blocks.old }
    requires k_in_bounds { (k ≤ length bits.now) × Below (64 * k) pending.now }
    ensures { Becomes m k (flips pending.now (held bits.now))
        top.old blocks.old top.new blocks.new result.count result.boundary }
{
    bitvec::copy(&mut blocks[..k], &bits[..k]);
    bitvec::toggle_all(blocks, pending);
    bitvec::split(top, blocks, m, k, k)
}

// A builder of the empty set.
pub fn new(
    config: u64,
    split: usize,
    pending: &mut [u32],
    bits: &mut [u64],
) -> Result<Builder, Refusal>
    ensures { News config split pending.old bits.old result pending.new bits.new }
{
    let s = judge_builder::areas(config, pending.len(), bits.len())?;
    if s.buckets < split {
        return Err(Refusal::Range);
    }
    pending[..2 * s.top].fill(0);
    bits[..s.blocks].fill(0);
    Ok(Builder {
        config,
        split,
        count: 0,
    })
}

impl Builder {
    // The membership of each bucket listed flips, once for each time that it is listed.
    pub fn push(
        self,
        pending: &mut [u32],
        bits: &mut [u64],
        list: &[u32],
    ) -> Result<Builder, Refusal>
        ensures { Pushes self pending.old bits.old list.now
            result pending.new bits.new }
    {
        let stage = Stage::from(self);
        let s = judge_builder::builder(self.config, stage, pending, bits)?;
        if !judge::all_below(list, s.buckets) {
            return Err(Refusal::Range);
        }
        let next = pending::push_all(pending, bits, stage, s.top, s.blocks, 1 << s.level, list);
        Ok(Builder {
            split: next.split,
            count: next.count,
            ..self
        })
    }

    // The split by hand; a value no higher than the present one changes nothing.
    pub fn raise(self, pending: &[u32], bits: &[u64], to: usize) -> Result<Builder, Refusal>
        ensures { result ≡ raised self pending.now bits.now to }
    {
        let s = judge_builder::builder(self.config, Stage::from(self), pending, bits)?;
        if s.buckets < to {
            return Err(Refusal::Range);
        }
        Ok(Builder {
            split: self.split.max(to),
            ..self
        })
    }

    // The filter of the builder's set, written to a filter's two areas, whatever these held.
    pub fn finish(
        self,
        pending: &[u32],
        bits: &[u64],
        top: &mut [u32],
        blocks: &mut [u64],
    ) -> Result<Filter, Refusal>
        ensures { Finishes self pending.now bits.now
            top.old blocks.old result top.new blocks.new }
    {
        let s = judge_builder::builder_and_target(
            self.config,
            Stage::from(self),
            pending,
            bits,
            top.len(),
            blocks.len(),
        )?;
        let made = write_filter(&pending[..self.count], bits, top, blocks, s.top, s.blocks);
        Ok(Filter::of(self.config, made))
    }
}
