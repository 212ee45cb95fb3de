// The tests by which the calls on builders refuse, in document 01's order. None writes to what it is lent.
#![tactic(auto)]

ghost use Rattle.std.specs.Prelude.{◌≡◌, ◌*◌};
ghost use Rattle.sets.specs.Filter.{is_builder};
ghost use Rattle.bitvec.specs.Parts.{Room};
ghost use Rattle.judge_builder.specs.Judging.{areas_of, builder_of, target_of};

use pending::Stage;
use sizes::{Refusal, Sizes};

// Whether cells, blocks and stage are a builder's.
// `Room` stays a clause: document 01 lends the two areas apart.
fn is_builder(pending: &[u32], bits: &[u64], stage: Stage, m: usize, k: usize) -> bool
    requires { Room (2 * m) k pending.now bits.now }
    ensures { result ≡ is_builder m (64 * k) pending.now bits.now stage.count stage.split }
{
    let count = stage.count;
    if 2 * m < count {
        return false;
    }
    if 64 * k < stage.split {
        return false;
    }
    if !judge::all_below(&pending[..count], 64 * k) {
        return false;
    }
    if bitvec::or(&pending[count..2 * m]) != 0 {
        return false;
    }
    judge::bits_fit(&bits[..k], stage.split)
}

// 1, 3: the sizes, where slices of these lengths have room for a builder's areas. For 2M cells there is room where there is for M in
// half of them.
pub fn areas(config: u64, pending: usize, bits: usize) -> Result<Sizes, Refusal>
    ensures { result ≡ areas_of config pending bits }
{
    judge::areas(config, pending / 2, bits)
}

// 1, 3, 8: the sizes, where a builder was lent.
pub fn builder(config: u64, stage: Stage, pending: &[u32], bits: &[u64]) -> Result<Sizes, Refusal>
    ensures { result ≡ builder_of config stage pending.now bits.now }
{
    let s = areas(config, pending.len(), bits.len())?;
    if !is_builder(pending, bits, stage, s.top, s.blocks) {
        return Err(Refusal::Soundness);
    }
    Ok(s)
}

// 1, 3, 8: the sizes, where a builder was lent beside slices of the lengths `top` and `blocks` for a filter's areas.
pub fn builder_and_target(
    config: u64,
    stage: Stage,
    pending: &[u32],
    bits: &[u64],
    top: usize,
    blocks: usize,
) -> Result<Sizes, Refusal>
    ensures { result ≡ target_of config stage pending.now bits.now top blocks }
{
    judge::areas(config, top, blocks)?;
    builder(config, stage, pending, bits)
}
