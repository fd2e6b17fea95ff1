ghost use Rattle.std.specs.Prelude.{◌≡◌, ℕ, List, IfOk, IfSome};
ghost use Rattle.std.specs.Global.{Vec as AnyVec};
ghost use Rattle.std.specs.List.{AllZip};
ghost use Rattle.inbox.specs.declared.letters.Letter.{Letter as AnyLetter};
ghost use Rattle.inbox.specs.Merging.{inboxes_of};
ghost use Rattle.inbox.specs.inside.Filing.{AreInBlocks};
ghost use Rattle.inbox.specs.inside.Mail.{letters_in};

use crate::blocks::{Block, are_in_place, blocks_of, made_of, together};
use crate::grid::Grid;
use crate::inboxes::Inbox;
use crate::mail::Mail;
use crate::streams::file_by_source;
use std::alloc::{AllocError, Global};
use std::thread::Threads;

// The ids of a part by blocks, and the messages to them.
#[derive(Drop)]
pub struct PartBlocks<'a> {
    blocks: Vec<Block<'a>>,
}

// Files the letters to the ids of each part. Returns `None` where the ids of a part do not rise by one gap, or where a list or
// an outbox is not sorted by source. Room for `room` letters is made at the start.
pub fn filed_parts<'a>(
    alloc: Global,
    mail: Mail,
    room: usize,
    parts: &'a [Vec<u64>],
) -> Result<Option<Vec<PartBlocks<'a>>>, AllocError>
    ensures { IfOk result (λ found. IfSome found (λ filed.
        AllZip (AreInBlocks (letters_in mail.entry)) parts.now filed.items)) }
{
    let each = room / parts.len().max(1);
    let mut filed = Vec::with_capacity(alloc, parts.len())?;
    for ids in parts {
        let Some(part) = filed_part(alloc, mail, each, ids)? else {
            return Ok(None);
        };
        filed.push_reserved(part);
    }
    Ok(Some(filed))
}

// Files the letters to these ids, in the same way.
//
// The letters are filed by block, and then each block's inboxes are filled, so that writes stay close together in memory.
fn filed_part<'a>(
    alloc: Global,
    mail: Mail,
    room: usize,
    ids: &'a Vec<u64>,
) -> Result<Option<PartBlocks<'a>>, AllocError>
    ensures { IfOk result (λ found. IfSome found (AreInBlocks (letters_in mail.entry) ids.now)) }
{
    let grid = Grid::of(ids);
    let mut blocks = blocks_of(alloc, ids, room)?;
    if !are_in_place(grid, &blocks) {
        return Ok(None);
    }
    let all = file_by_source(alloc, mail, grid, &mut blocks)?;
    if all {
        Ok(Some(PartBlocks { blocks }))
    } else {
        Ok(None)
    }
}

// Makes the inboxes of a part's ids.
pub fn made_part(
    rt: &(impl Threads + Sync),
    alloc: Global,
    part: &PartBlocks,
) -> Result<Vec<Inbox>, AllocError>
    ensures { IfOk result (λ inboxes. (letters : List AnyLetter) (ids : AnyVec ℕ)
        (are : AreInBlocks letters ids part.now)
        → inboxes.items ≡ inboxes_of are.sent ids.items) }
{
    let made = made_of(rt, alloc, &part.blocks)?;
    together(alloc, made)
}
