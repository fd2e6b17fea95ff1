ghost use Rattle.std.specs.Prelude.{◌≡◌, ◌<◌, [], ◌∷◌, ◌++◌, ℕ, List, map, length, replicate, slice_set, slice_index_or, IfOk, OnOk, IsTrue};
ghost use Rattle.std.specs.List.{AllByRecursion, AllZip, flat_map};
ghost use Rattle.inbox.specs.declared.letters.Letter.{Letter as AnyLetter};
ghost use Rattle.inbox.specs.Merging.{all_of, letters_sent};
ghost use Rattle.inbox.specs.inside.Blocks.{AreFiled, AreInPlace, IsMade, ids_of, none_in, slips_of};
ghost use Rattle.inbox.specs.inside.Slips.{AreInboxesOf, messages_at};

use crate::grid::Grid;
use crate::inboxes::Inbox;
use crate::letters::Letter;
use crate::slips::{Slip, Slips};
use rayon::prelude::*;
use std::alloc::{AllocError, Global};
use std::thread::Threads;

// The number of ids of a block. Their inboxes and messages fit together in a processor's caches.
pub const BLOCK: usize = 4096;

// Consecutive ids of a part, and the messages to them in the order of the letters.
#[derive(Drop)]
pub struct Block<'a> {
    ids: &'a [u64],
    slips: Slips,
}

// Splits the ids into blocks with no messages, which together have room for `room` messages.
pub fn blocks_of<'a>(
    alloc: Global,
    ids: &'a [u64],
    room: usize,
) -> Result<Vec<Block<'a>>, AllocError>
    ensures ids { IfOk result (λ blocks. flat_map ids_of blocks.items ≡ ids.now) }
    ensures none { IfOk result (λ blocks. AllByRecursion none_in (map slips_of blocks.items)) }
{
    let count = ids.len().div_ceil(BLOCK);
    let each = room / count.max(1);
    let mut blocks = Vec::with_capacity(alloc, count)?;
    let mut rest = ids;
    while !rest.is_empty() {
        let (mine, others) = rest.split_at(rest.len().min(BLOCK));
        push_block(alloc, mine, each, &mut blocks)?;
        rest = others;
    }
    Ok(blocks)
}

fn push_block<'a>(
    alloc: Global,
    ids: &'a [u64],
    room: usize,
    blocks: &mut Vec<Block<'a>>,
) -> Result<(), AllocError>
    ensures ids { OnOk result (flat_map ids_of blocks.new.items
        ≡ flat_map ids_of blocks.old.items ++ ids.now) }
    ensures none { OnOk result (AllByRecursion none_in (map slips_of blocks.old.items)
        → AllByRecursion none_in (map slips_of blocks.new.items)) }
{
    let slips = Slips::with_capacity(alloc, room)?;
    blocks.push(Block { ids, slips })?;
    Ok(())
}

// Checks that each block has the ids of its number, from its first one on.
pub fn are_in_place(grid: Grid, blocks: &[Block]) -> bool
    ensures { IsTrue result → AreInPlace grid (map ids_of blocks.now) }
{
    for index in 0..blocks.len() {
        if !grid.has_in_order(index, blocks[index].ids) {
            return false;
        }
    }
    true
}

// Files the letters, which follow those that are filed.
pub fn file_list(letters: &[Letter], grid: Grid, blocks: &mut Vec<Block>) -> Result<(), AllocError>
    ensures ids { OnOk result (map ids_of blocks.new.items ≡ map ids_of blocks.old.items) }
    ensures filed { OnOk result ((sent : List AnyLetter)
        → AreFiled grid sent (map slips_of blocks.old.items)
        → AreFiled grid (sent ++ letters.now) (map slips_of blocks.new.items)) }
{
    for letter in letters {
        file(letter.to, letter.value, grid, blocks)?;
    }
    Ok(())
}

// Files the letters of a source, which follow those that are filed, given their targets and messages.
pub fn file_sends(
    sends: &[(i64, i64)],
    grid: Grid,
    blocks: &mut Vec<Block>,
) -> Result<(), AllocError>
    ensures ids { OnOk result (map ids_of blocks.new.items ≡ map ids_of blocks.old.items) }
    ensures filed { OnOk result ((sent : List AnyLetter) (source : ℕ)
        → AreFiled grid sent (map slips_of blocks.old.items)
        → AreFiled grid (sent ++ letters_sent source sends.now) (map slips_of blocks.new.items)) }
{
    for send in sends {
        file(send.0, send.1, grid, blocks)?;
    }
    Ok(())
}

// Appends a message to this target to the block in which the target would be.
fn file(to: i64, value: i64, grid: Grid, blocks: &mut Vec<Block>) -> Result<(), AllocError>
    ensures ids { OnOk result (map ids_of blocks.new.items ≡ map ids_of blocks.old.items) }
    ensures filed { OnOk result ((sent : List AnyLetter) (letter : AnyLetter)
        → letter.to ≡ to
        → letter.value ≡ value
        → AreFiled grid sent (map slips_of blocks.old.items)
        → AreFiled grid (sent ++ letter ∷ []) (map slips_of blocks.new.items)) }
{
    match grid.spot_for(to) {
        Some(spot) => {
            if spot.block >= blocks.len() {
                return Ok(());
            }
            let slip = Slip {
                place: spot.place,
                value,
            };
            push_slip(blocks, spot.block, slip)
        }
        None => Ok(()),
    }
}

// Appends a message to the block of this number.
fn push_slip(blocks: &mut Vec<Block>, number: usize, slip: Slip) -> Result<(), AllocError>
    requires { number < length blocks.old.items }
    ensures ids { OnOk result (map ids_of blocks.new.items ≡ map ids_of blocks.old.items) }
    ensures pushed { OnOk result (map slips_of blocks.new.items
        ≡ slice_set (map slips_of blocks.old.items) number
        (slice_index_or (map slips_of blocks.old.items) number [] ++ slip ∷ [])) }
{
    let block = &mut blocks[number];
    block.slips.push(slip)?;
    Ok(())
}

// The least number of blocks that is worth a thread, since parts have threads too.
const LEAST_BLOCKS: usize = 4;

// Makes the inboxes of each block.
pub fn made_of(
    rt: &(impl Threads + Sync),
    alloc: Global,
    blocks: &[Block],
) -> Result<Vec<Vec<Inbox>>, AllocError>
    ensures { IfOk result (λ made. AllZip IsMade blocks.now made.items) }
{
    blocks
        .par_iter()
        .with_min_len(LEAST_BLOCKS)
        .map(
            |block: &Block| -> Result<Vec<Inbox>, AllocError>
                ensures { IfOk result (IsMade block.now) }
            { inboxes_of_block(alloc, block) },
        )
        .collect::<Result<Vec<Vec<Inbox>>, AllocError>>(rt, alloc)?
}

fn inboxes_of_block(alloc: Global, block: &Block) -> Result<Vec<Inbox>, AllocError>
    ensures { IfOk result (IsMade block.now) }
{
    inboxes_of(alloc, block.ids.len(), &block.slips)
}

// Makes the inboxes of a block of `count` ids from these messages.
fn inboxes_of(alloc: Global, count: usize, slips: &Slips) -> Result<Vec<Inbox>, AllocError>
    ensures { IfOk result (λ inboxes. AreInboxesOf slips.now count inboxes.items) }
{
    let mut inboxes = empty_with_room(alloc, count, slips)?;
    for index in 0..slips.len() {
        put(slips.at(index), &mut inboxes)?;
    }
    Ok(inboxes)
}

// Makes `count` empty inboxes, with room for their messages.
fn empty_with_room(alloc: Global, count: usize, slips: &Slips) -> Result<Vec<Inbox>, AllocError>
    ensures { IfOk result (λ inboxes. inboxes.items ≡ replicate count []) }
{
    let rooms = counts_of(alloc, count, slips)?;
    let mut inboxes = Vec::with_capacity(alloc, count)?;
    for room in &rooms {
        let inbox = Inbox::with_capacity(alloc, *room)?;
        inboxes.push(inbox)?;
    }
    Ok(inboxes)
}

// Counts the messages to each of `count` ids.
fn counts_of(alloc: Global, count: usize, slips: &Slips) -> Result<Vec<usize>, AllocError>
    ensures { IfOk result (λ counts. length counts.items ≡ count) }
{
    let mut counts = Vec::from_elem(alloc, 0usize, count)?;
    for index in 0..slips.len() {
        let place = usize::from(slips.at(index).place);
        if place < count {
            counts[place] = counts[place].saturating_add(1);
        }
    }
    Ok(counts)
}

// Puts a message into the inbox of its place, if there is one.
fn put(slip: Slip, inboxes: &mut [Inbox]) -> Result<(), AllocError>
    ensures one_each { length inboxes.new ≡ length inboxes.old }
    ensures put { OnOk result ((place : ℕ) → place < length inboxes.old
        → slice_index_or inboxes.new place []
        ≡ slice_index_or inboxes.old place [] ++ messages_at place (slip ∷ [])) }
{
    let place = usize::from(slip.place);
    if place >= inboxes.len() {
        return Ok(());
    }
    inboxes[place].push(slip.value)
}

// Concatenates the inboxes of all blocks.
pub fn together(alloc: Global, made: Vec<Vec<Inbox>>) -> Result<Vec<Inbox>, AllocError>
    ensures { IfOk result (λ inboxes. inboxes.items ≡ all_of made.items) }
{
    let mut inboxes = Vec::with_capacity(alloc, made.len().saturating_mul(BLOCK))?;
    for block in made {
        let mut others = block;
        inboxes.append(&mut others)?;
    }
    Ok(inboxes)
}
