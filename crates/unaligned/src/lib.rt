// Numbers of N bytes at any place of a slice, lowest byte first (config/unaligned.rs). Compiled for x86-64 and inlined,
// each read of 2, 4 or 8 bytes is one load and each write one store.
#![tactic(auto)]

ghost use Rattle.std.specs.Prelude.{◌≡◌, ◌+◌, ◌≤◌, length, take, drop};
ghost use Rattle.std.proofs.lemmas.List.Edits.{sets};
ghost use Rattle.sets.specs.Row.{bytes, little};

pub fn read<const N: usize>(from: &[u8], at: usize) -> u64
    requires { (N ≤ 8) × (at + N ≤ length from.now) }
    ensures { result ≡ little (take N (drop at from.now)) }
{
    let mut word = [0u8; 8];
    word[..N].copy_from_slice(&from[at..at + N]);
    u64::from_le_bytes(word)
}

// Of the number, the lowest N bytes.
pub fn write<const N: usize>(to: &mut [u8], at: usize, v: u64)
    requires { (N ≤ 8) × (at + N ≤ length to.old) }
    ensures { to.new ≡ sets to.old at (bytes N v) }
{
    to[at..at + N].copy_from_slice(&v.to_le_bytes()[..N]);
}
