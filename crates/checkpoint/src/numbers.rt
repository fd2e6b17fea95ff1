//! Numbers at the front of bytes.

ghost use Rattle.std.specs.Prelude.{List, ℕ, Result};
ghost use Rattle.checkpoint.specs.declared.fault.CheckpointFault.{CheckpointFault as AnyFault};
ghost use Rattle.checkpoint.specs.Reading.{Gives, items_at, number_at, signed_at};

use crate::fault::CheckpointFault;
use std::alloc::Global;

#[tactic(auto, unfolding(crate::specs::Reading::number_at))]
pub fn u8_at(bytes: &[u8]) -> Result<(u8, &[u8]), CheckpointFault>
    ensures { Gives (λ x. (x.0, x.1.now)) result (number_at 1 bytes.now) }
{
    if bytes.is_empty() {
        return Err(CheckpointFault::Truncated);
    }
    let (front, rest) = bytes.split_at(1);
    Ok((front[0], rest))
}

#[tactic(auto, unfolding(crate::specs::Reading::number_at))]
pub fn u32_at(bytes: &[u8]) -> Result<(u32, &[u8]), CheckpointFault>
    ensures { Gives (λ x. (x.0, x.1.now)) result (number_at 4 bytes.now) }
{
    if bytes.len() < 4 {
        return Err(CheckpointFault::Truncated);
    }
    let (front, rest) = bytes.split_at(4);
    let number = u32::from_le_bytes([front[0], front[1], front[2], front[3]]);
    Ok((number, rest))
}

#[tactic(auto, unfolding(crate::specs::Reading::number_at))]
pub fn u64_at(bytes: &[u8]) -> Result<(u64, &[u8]), CheckpointFault>
    ensures { Gives (λ x. (x.0, x.1.now)) result (number_at 8 bytes.now) }
{
    if bytes.len() < 8 {
        return Err(CheckpointFault::Truncated);
    }
    let (front, rest) = bytes.split_at(8);
    let number = u64::from_le_bytes([
        front[0], front[1], front[2], front[3], front[4], front[5], front[6], front[7],
    ]);
    Ok((number, rest))
}

/// A kind of number in a checkpoint.
pub trait Item: Drop + Sized {
    ghost item_at: { List ℕ → Result (Self × List ℕ) AnyFault };

    /// Reads the number at the front. Returns it with the bytes behind it.
    fn read(bytes: &[u8]) -> Result<(Self, &[u8]), CheckpointFault>
        ensures { Gives (λ x. (x.0, x.1.now)) result (item_at bytes.now) };
}

impl Item for u128 {
    ghost item_at = { number_at 16 };

    #[tactic(auto, unfolding(crate::specs::Reading::number_at))]
    fn read(bytes: &[u8]) -> Result<(u128, &[u8]), CheckpointFault> {
        if bytes.len() < 16 {
            return Err(CheckpointFault::Truncated);
        }
        let (front, rest) = bytes.split_at(16);
        let number = u128::from_le_bytes([
            front[0], front[1], front[2], front[3], front[4], front[5], front[6], front[7],
            front[8], front[9], front[10], front[11], front[12], front[13], front[14], front[15],
        ]);
        Ok((number, rest))
    }
}

impl Item for i64 {
    ghost item_at = { signed_at };

    #[tactic(auto, unfolding(crate::specs::Reading::signed_at))]
    fn read(bytes: &[u8]) -> Result<(i64, &[u8]), CheckpointFault> {
        let (number, rest) = u64_at(bytes)?;
        Ok((number.cast_signed(), rest))
    }
}

/// Reads this many numbers, one after another.
pub fn items<T: Item>(
    alloc: Global,
    count: u64,
    bytes: &[u8],
) -> Result<(Vec<T>, &[u8]), CheckpointFault>
    ensures { Gives (λ x. (x.0.items, x.1.now)) result (items_at T.item_at count bytes.now) }
{
    // A number has at least eight bytes, so no more room is made than there are numbers.
    let room = (bytes.len() / 8).min(count as usize);
    let mut all = Vec::with_capacity(alloc, room)?;
    let mut rest = bytes;
    for _ in 0..count {
        let (item, after) = T::read(rest)?;
        all.push(item)?;
        rest = after;
    }
    Ok((all, rest))
}

/// Reads the eight aggregates.
pub fn aggregators(bytes: &[u8]) -> Result<([i64; 8], &[u8]), CheckpointFault>
    ensures { Gives (λ x. (x.0, x.1.now)) result (items_at signed_at 8 bytes.now) }
{
    let mut aggregators = [0; 8];
    let mut rest = bytes;
    for aggregator in 0..8usize {
        let (value, after) = i64::read(rest)?;
        aggregators[aggregator] = value;
        rest = after;
    }
    Ok((aggregators, rest))
}
