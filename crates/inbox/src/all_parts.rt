ghost use Rattle.std.specs.Prelude.{◌≡◌, ◌+◌, ◌≤◌, ◌<◌, ◌^◌, ℕ, int_lt, pos, true, false, List, map, filter, length, nat_eq, slice_index_or, sum_by, vec_items, vec_len, IfOk, IfSome};
ghost use Rattle.std.specs.Global.{Vec as AnyVec};
ghost use Rattle.std.specs.List.{AllZip, IsDistinct};
ghost use Rattle.std.specs.List.Sorted.{IsStrictlySortedBy, IsPartitionPoint, IsPartitionedBy};
ghost use Rattle.inbox.specs.declared.letters.Letter.{Letter as AnyLetter};
ghost use Rattle.inbox.specs.Merging.{are_one, goes_to, all_of, sent_in, IsBySource, inboxes_of, dropped_of};
ghost use Rattle.inbox.specs.inside.Mail.{letters_in};
ghost use Rattle.inbox.specs.inside.Filing.{AreAllFiled, AreInBlocks, AreSomeOf, IsFiled, IsMadeFrom, IsMadeOf};
ghost use Rattle.inbox.specs.inside.Targets.{IsByTarget, target_cmp};
ghost use Rattle.inbox.specs.inside.Shares.{goes_into, ArePutIn, IsDelivered, IsInboxIn, IsPutIn, inboxes_in};

use crate::filing::{PartBlocks, filed_parts, made_part};
use crate::grid::Grid;
use crate::inboxes::Inbox;
use crate::letters::Letter;
use crate::mail::{Mail, item_count};
use crate::outbox::Outbox;
use crate::shares::{Share, TargetSet, shares};
use rayon::current_num_threads;
use rayon::prelude::*;
use std::alloc::{AllocError, Global};
use std::thread::Threads;

/// Makes the inboxes of all parts in threads, and counts the letters that go to no id. For each part there is a list with one
/// inbox for each of its ids, in their order.
///
/// The letters may be in any number of lists and in any order. An inbox has the messages that [`merge`](crate::merge) puts
/// into it: the values of the letters to its id, by source and in the order of sending.
///
/// Consecutive parts form a share. There is one share a part, but no more shares than processors, and at most 16. Fewer than
/// 10,000 letters and ids together are one share, which the calling thread merges. Else each share has a thread, which works
/// in three steps:
///
/// 1. It reads all letters by source. Up to 16 lists, each sorted by source already, are read side by side if it has one part,
///    and one such list if it has more. Otherwise it copies the letters that may go to an id of its parts, and sorts them.
/// 2. It files them by blocks of 4,096 ids. It files 10 bytes of each letter.
/// 3. When all threads are done with that, it makes the inboxes of each block. An inbox of more than four messages has no room
///    beyond them. Many ids of one part are shared among threads again.
///
/// Where the ids of a part do not rise by one gap, the letters of its share are sorted by target, and each id's letters are
/// looked up.
///
/// In a job, each part has the ids of its own remainder. Then a share's thread that copies letters copies those to its own
/// targets, which it finds by their remainders. Otherwise it copies all letters. Each share takes O(n log n) time for n letters
/// in all. It fails only where memory runs out.
pub fn merge_parts(
    rt: &(impl Threads + Sync),
    alloc: Global,
    lists: &[Vec<Letter>],
    ids: &[Vec<u64>],
) -> Result<(Vec<Vec<Inbox>>, u128), AllocError>
    requires apart { IsDistinct nat_eq (all_of ids.now) }
    requires distinct { IsDistinct are_one (all_of lists.now) }

    // There is exactly one such order: see `letters_can_be_ordered` and `letters_have_one_order`.
    ensures inboxes { IfOk result (λ merged. (ordered : List AnyLetter)
        → IsBySource (all_of lists.now) ordered
        → map vec_items merged.0.items ≡ map (λ part. inboxes_of ordered part.items) ids.now) }
    ensures dropped { IfOk result (λ merged.
        merged.1 ≡ dropped_of (all_of lists.now) (all_of ids.now)) }
{
    let mail = Mail::Loose(lists);
    let filed = filed_in_all(rt, alloc, mail, ids)?;
    let delivered = made_of_all(rt, alloc, filed)?;
    with_dropped(alloc, delivered, mail.count())
}

/// Makes the inboxes of all parts in threads, and counts the letters that go to no id. It returns what [`merge_parts`] returns
/// for the letters in these outboxes, in less memory: it frees the outboxes after the second step, before there are inboxes.
///
/// A share of up to four parts reads up to 16 outboxes side by side, and copies no letter, if the ids of each outbox's sources
/// rise.
pub fn merge_own_parts(
    rt: &(impl Threads + Sync),
    alloc: Global,
    outboxes: Vec<Outbox>,
    ids: &[Vec<u64>],
) -> Result<(Vec<Vec<Inbox>>, u128), AllocError>
    requires apart { IsDistinct nat_eq (all_of ids.now) }
    requires distinct { IsDistinct are_one (sent_in outboxes.items) }
    ensures inboxes { IfOk result (λ merged. (ordered : List AnyLetter)
        → IsBySource (sent_in outboxes.items) ordered
        → map vec_items merged.0.items ≡ map (λ part. inboxes_of ordered part.items) ids.now) }
    ensures dropped { IfOk result (λ merged.
        merged.1 ≡ dropped_of (sent_in outboxes.items) (all_of ids.now)) }
{
    let mail = Mail::Sent(&outboxes);
    let count = mail.count();
    let filed = filed_in_all(rt, alloc, mail, ids)?;
    drop(outboxes);
    let delivered = made_of_all(rt, alloc, filed)?;
    with_dropped(alloc, delivered, count)
}

// The inboxes of a part's ids, and the number of messages in them.
#[derive(Drop)]
struct Delivered {
    inboxes: Vec<Inbox>,
    count: u128,
}

// The least number of letters and ids together that is worth threads, or asking for the number of processors.
const LEAST_WORK: u128 = 10_000;

// Returns the number of shares that is worth its threads.
fn most_shares(rt: &impl Threads, mail: Mail, ids: &[Vec<u64>]) -> usize {
    let work = mail.count().saturating_add(item_count(ids));
    if work < LEAST_WORK {
        1
    } else {
        current_num_threads(rt)
    }
}

// Returns the room for a share's letters: an equal share and a sixteenth more, so that most shares need not grow.
fn room_for(mail: Mail, shares: usize) -> usize {
    let share = mail.len() / shares.max(1);
    share.saturating_add(share / 16)
}

// What one share has filed, of which its inboxes are made.
#[derive(Drop)]
enum Filed<'a> {
    // The ids of each part by blocks.
    InBlocks(Vec<PartBlocks<'a>>),
    ByTarget(Sorted<'a>),
}

// Letters to the ids of these parts, sorted by target.
#[derive(Drop)]
struct Sorted<'a> {
    parts: &'a [Vec<u64>],
    letters: Vec<Letter>,
}

// Files the letters of all lists: the first two steps.
fn filed_in_all<'a>(
    rt: &(impl Threads + Sync),
    alloc: Global,
    mail: Mail,
    ids: &'a [Vec<u64>],
) -> Result<Vec<Filed<'a>>, AllocError>
    requires { IsDistinct are_one (letters_in mail) }
    ensures { IfOk result (λ filed. AreAllFiled (letters_in mail.entry) ids.now filed.items) }
{
    let shares = shares(alloc, ids, most_shares(rt, mail, ids))?;
    let room = room_for(mail, shares.len());
    filed_in_shares(rt, alloc, mail, &shares, room)
}

// Files the letters to each share.
fn filed_in_shares<'a>(
    rt: &(impl Threads + Sync),
    alloc: Global,
    mail: Mail,
    shares: &[Share<'a>],
    room: usize,
) -> Result<Vec<Filed<'a>>, AllocError>
    requires { IsDistinct are_one (letters_in mail) }
    ensures { IfOk result (λ filed. AllZip (IsFiled (letters_in mail.entry)) shares.now filed.items) }
{
    // Each share is worth a thread.
    shares
        .par_iter()
        .with_min_len(1)
        .map(
            |share: &Share| -> Result<Filed, AllocError>
                requires { IsDistinct are_one (letters_in mail) }
                ensures { IfOk result (IsFiled (letters_in mail.entry) share.now) }
            { filed_in_share(alloc, mail, share, room) },
        )
        .collect::<Result<Vec<Filed<'a>>, AllocError>>(rt, alloc)?
}

// Files the letters to one share's parts. Room for `room` letters is made at the start.
fn filed_in_share<'a>(
    alloc: Global,
    mail: Mail,
    share: &Share<'a>,
    room: usize,
) -> Result<Filed<'a>, AllocError>
    requires { IsDistinct are_one (letters_in mail) }
    ensures { IfOk result (IsFiled (letters_in mail.entry) share.now) }
{
    let targets = share.targets();
    let parts = share.parts;
    if let Some(filed) = filed_in_blocks(alloc, mail, targets, room, parts)? {
        return Ok(Filed::InBlocks(filed));
    }
    let letters = by_target(alloc, mail, targets, room)?;
    Ok(Filed::ByTarget(Sorted { parts, letters }))
}

// Files the letters to these parts, whose ids are among the targets, by blocks. Returns `None` where the ids of a part do not
// rise by one gap.
fn filed_in_blocks<'a>(
    alloc: Global,
    mail: Mail,
    targets: TargetSet,
    room: usize,
    parts: &'a [Vec<u64>],
) -> Result<Option<Vec<PartBlocks<'a>>>, AllocError>
    requires { IsDistinct are_one (letters_in mail) }
    ensures { IfOk result (λ found. IfSome found (λ filed. (some : List AnyLetter)
        × AreSomeOf (letters_in mail.entry) targets some
        × AllZip (AreInBlocks some) parts.now filed.items)) }
{
    if !are_even(parts) {
        return Ok(None);
    }
    if mail.are_streams(parts.len())
        && let Some(filed) = filed_parts(alloc, mail, room, parts)?
    {
        return Ok(Some(filed));
    }
    let ordered = by_source(alloc, mail, targets, room)?;
    filed_parts(alloc, Mail::Loose(&ordered), room, parts)
}

// Makes the inboxes of all parts from what each share has filed.
fn made_of_all(
    rt: &(impl Threads + Sync),
    alloc: Global,
    filed: Vec<Filed>,
) -> Result<Vec<Delivered>, AllocError>
    ensures { IfOk result (λ all. (letters : List AnyLetter) (ids : List (AnyVec ℕ))
        → AreAllFiled letters ids filed.entry.items
        → AllZip (IsDelivered letters) ids all.items) }
{
    let by_share = made_of_shares(rt, alloc, &filed)?;
    together(alloc, by_share)
}

// Makes the inboxes of each share.
fn made_of_shares(
    rt: &(impl Threads + Sync),
    alloc: Global,
    filed: &[Filed],
) -> Result<Vec<Vec<Delivered>>, AllocError>
    ensures { IfOk result (λ all. AllZip IsMadeOf filed.now all.items) }
{
    filed
        .par_iter()
        .with_min_len(1)
        .map(
            |share: &Filed| -> Result<Vec<Delivered>, AllocError>
                ensures { IfOk result (IsMadeOf share.now) }
            { made_of_share(rt, alloc, share) },
        )
        .collect::<Result<Vec<Vec<Delivered>>, AllocError>>(rt, alloc)?
}

// Makes the inboxes of one share's parts.
fn made_of_share(
    rt: &(impl Threads + Sync),
    alloc: Global,
    filed: &Filed,
) -> Result<Vec<Delivered>, AllocError>
    ensures { IfOk result (IsMadeOf filed.now) }
{
    match filed {
        Filed::InBlocks(parts) => made_parts(rt, alloc, parts),
        Filed::ByTarget(sorted) => put_to_parts(rt, alloc, &sorted.letters, sorted.parts),
    }
}

// Makes the inboxes of each part from its blocks.
fn made_parts(
    rt: &(impl Threads + Sync),
    alloc: Global,
    parts: &[PartBlocks],
) -> Result<Vec<Delivered>, AllocError>
    ensures { IfOk result (λ all. AllZip IsMadeFrom parts.now all.items) }
{
    let mut all = Vec::with_capacity(alloc, parts.len())?;
    for part in parts {
        let inboxes = made_part(rt, alloc, part)?;
        all.push_reserved(counted(inboxes));
    }
    Ok(all)
}

fn counted(inboxes: Vec<Inbox>) -> Delivered
    ensures inboxes { result.inboxes ≡ inboxes }
    ensures count { result.count ≡ sum_by length inboxes.items }
{
    let count = message_count(&inboxes);
    Delivered { inboxes, count }
}

// Checks that the ids of each part rise by one gap.
fn are_even(parts: &[Vec<u64>]) -> bool {
    for ids in parts {
        if !Grid::of(ids).is_even(ids) {
            return false;
        }
    }
    true
}

// Makes the inboxes of each part from letters sorted by target, by looking up the letters of each id.
fn put_to_parts(
    rt: &(impl Threads + Sync),
    alloc: Global,
    letters: &[Letter],
    parts: &[Vec<u64>],
) -> Result<Vec<Delivered>, AllocError>
    ensures { IfOk result (λ all. AllZip (ArePutIn letters.now) parts.now all.items) }
{
    let mut all = Vec::with_capacity(alloc, parts.len())?;
    for ids in parts {
        let delivered = put_to(rt, alloc, letters, ids)?;
        all.push_reserved(delivered);
    }
    Ok(all)
}

// Makes the inboxes of a part from letters sorted by target.
fn put_to(
    rt: &(impl Threads + Sync),
    alloc: Global,
    letters: &[Letter],
    ids: &Vec<u64>,
) -> Result<Delivered, AllocError>
    ensures { IfOk result (IsPutIn letters.now ids.now.items) }
{
    let inboxes = inboxes_at(rt, alloc, letters, ids)?;
    let count = message_count(&inboxes);
    Ok(Delivered { inboxes, count })
}

// Copies the letters to these targets into one list, sorted by source. Room for `room` letters is made at the start.
fn by_source(
    alloc: Global,
    mail: Mail,
    targets: TargetSet,
    room: usize,
) -> Result<Vec<Vec<Letter>>, AllocError>
    requires { IsDistinct are_one (letters_in mail) }
    ensures { IfOk result (λ ordered.
        AreSomeOf (letters_in mail.entry) targets (all_of ordered.items)) }
{
    let letters = sorted_by_source(alloc, mail, targets, room)?;
    let mut ordered = Vec::with_capacity(alloc, 1)?;
    ordered.push(letters)?;
    Ok(ordered)
}

fn sorted_by_source(
    alloc: Global,
    mail: Mail,
    targets: TargetSet,
    room: usize,
) -> Result<Vec<Letter>, AllocError>
    requires { IsDistinct are_one (letters_in mail) }
    ensures { IfOk result (λ ordered.
        IsBySource (filter (goes_into targets) (letters_in mail.entry)) ordered.items) }
{
    let mut letters = mail.letters_to(alloc, targets, room)?;
    letters.sort_by_key(|letter| (letter.from, letter.seq))?;
    Ok(letters)
}

// Copies the letters to these targets, sorted by target and then by source. Room for `room` letters is made at the start.
pub fn by_target(
    alloc: Global,
    mail: Mail,
    targets: TargetSet,
    room: usize,
) -> Result<Vec<Letter>, AllocError>
    requires { IsDistinct are_one (letters_in mail) }
    ensures { IfOk result (λ letters.
        IsByTarget (filter (goes_into targets) (letters_in mail.entry)) letters.items) }
{
    let mut letters = mail.letters_to(alloc, targets, room)?;
    letters.sort()?;
    Ok(letters)
}

// The least number of ids that is worth a thread, since parts have threads too.
const LEAST_IDS: usize = 16_384;

// Makes the inboxes of these ids.
fn inboxes_at(
    rt: &(impl Threads + Sync),
    alloc: Global,
    letters: &[Letter],
    ids: &[u64],
) -> Result<Vec<Inbox>, AllocError>
    ensures { IfOk result (λ inboxes. AllZip (IsInboxIn letters.now) ids.now inboxes.items) }
{
    ids.par_iter()
        .with_min_len(LEAST_IDS)
        .map_init(
            || 0usize,
            |near: &mut usize, id: &u64| -> Result<Inbox, AllocError>
                ensures { IfOk result (IsInboxIn letters.entry.now id.now) }
            { inbox_at(alloc, letters, near, *id) },
        )
        .collect::<Result<Vec<Inbox>, AllocError>>(rt, alloc)?
}

// Makes the inbox of this id. The search begins at `near`, the end of the last id's letters.
fn inbox_at(
    alloc: Global,
    letters: &[Letter],
    near: &mut usize,
    id: u64,
) -> Result<Inbox, AllocError>
    ensures { IfOk result (IsInboxIn letters.now id) }
{
    let mine = run_to(letters, near, id);
    inbox_with(alloc, mine)
}

// Makes the inbox of these letters' messages. If they are more than four, it has no room beyond them.
pub fn inbox_with(alloc: Global, letters: &[Letter]) -> Result<Inbox, AllocError>
    ensures { IfOk result (λ inbox. inbox ≡ map (λ letter. letter.value) letters.now) }
{
    let mut inbox = Inbox::with_capacity(alloc, letters.len())?;
    for letter in letters {
        inbox.push(letter.value)?;
    }
    Ok(inbox)
}

// Finds the letters to this id among letters sorted by target, where they are next to each other.
fn run_to<'a>(letters: &'a [Letter], near: &mut usize, id: u64) -> &'a [Letter]
    ensures { IsStrictlySortedBy target_cmp letters.now
        → result.now ≡ filter (λ letter. goes_to letter id) letters.now }
{
    let start = start_from(letters, *near, id);
    let rest = &letters[start..];
    let count = count_to(rest, id);
    *near = start + count;
    &rest[..count]
}

// Counts the letters at the start that go to this id. Few letters go to most ids, so looking at each costs less than a second
// search.
fn count_to(letters: &[Letter], id: u64) -> usize
    ensures bound { result ≤ length letters.now }
    ensures own { (k : ℕ) (d : AnyLetter) → k < result
        → goes_to (slice_index_or letters.now k d) id ≡ true }
    ensures next { (d : AnyLetter) → result < length letters.now
        → goes_to (slice_index_or letters.now result d) id ≡ false }
{
    for index in 0..letters.len() {
        if i128::from(letters[index].to) != i128::from(id) {
            return index;
        }
    }
    letters.len()
}

// Checks whether a letter goes to a target below this id.
fn goes_below(letter: &Letter, id: u64) -> bool
    ensures { result ≡ int_lt letter.now.to (pos id) }
{
    i128::from(letter.to) < i128::from(id)
}

// The number of letters that are looked at one by one before a search.
const FEW: usize = 32;

// Finds the first letter to this id or a later one. It looks from `near` on if the letter before `near` goes to an earlier
// id, and else among all letters.
fn start_from(letters: &[Letter], near: usize, id: u64) -> usize
    ensures bound { result ≤ length letters.now }
    ensures found { IsStrictlySortedBy target_cmp letters.now
        → IsPartitionPoint (λ letter. int_lt letter.to (pos id) ≡ true)
        (λ letter. int_lt letter.to (pos id) ≡ false) letters.now result }
{
    if near == 0 || near > letters.len() || !goes_below(&letters[near - 1], id) {
        return first_from(letters, id);
    }
    let rest = &letters[near..];
    let ahead = few_below(rest, id);
    if ahead < FEW {
        return near + ahead;
    }
    near + first_from(rest, id)
}

// Finds the first letter that does not go below this id, where those that do come first.
fn first_from(letters: &[Letter], id: u64) -> usize
    ensures bound { result ≤ length letters.now }
    ensures found { IsPartitionedBy (λ letter. int_lt letter.to (pos id)) letters.now
        → IsPartitionPoint (λ letter. int_lt letter.to (pos id) ≡ true)
        (λ letter. int_lt letter.to (pos id) ≡ false) letters.now result }
{
    letters.partition_point(|letter| goes_below(letter, id))
}

// Counts the letters at the start that go below this id, up to `FEW`.
fn few_below(letters: &[Letter], id: u64) -> usize
    ensures bound { result ≤ length letters.now }
    ensures below { (k : ℕ) (d : AnyLetter) → k < result
        → int_lt (slice_index_or letters.now k d).to (pos id) ≡ true }
    ensures next { (d : AnyLetter) → result < 32 → result < length letters.now
        → int_lt (slice_index_or letters.now result d).to (pos id) ≡ false }
{
    let few = letters.len().min(FEW);
    for index in 0..few {
        if !goes_below(&letters[index], id) {
            return index;
        }
    }
    few
}

// Concatenates the parts of all shares.
fn together(alloc: Global, shares: Vec<Vec<Delivered>>) -> Result<Vec<Delivered>, AllocError>
    ensures { IfOk result (λ all. all.items ≡ all_of shares.items) }
{
    let mut all = Vec::new(alloc);
    for share in shares {
        let mut parts = share;
        all.append(&mut parts)?;
    }
    Ok(all)
}

// Returns the inboxes of each part, and the number of letters that are in none of them. There are `letters` of them in all.
fn with_dropped(
    alloc: Global,
    delivered: Vec<Delivered>,
    letters: u128,
) -> Result<(Vec<Vec<Inbox>>, u128), AllocError>
    requires { sum_by (λ part. part.count) delivered.items ≤ letters }
    ensures inboxes { IfOk result (λ merged. merged.0.items ≡ inboxes_in delivered.items) }
    ensures dropped { IfOk result (λ merged.
        merged.1 + sum_by (λ part. part.count) delivered.items ≡ letters) }
{
    let dropped = letters - delivered_count(&delivered);
    let parts = inboxes_in(alloc, delivered)?;
    Ok((parts, dropped))
}

// Returns the inboxes of each part.
fn inboxes_in(alloc: Global, delivered: Vec<Delivered>) -> Result<Vec<Vec<Inbox>>, AllocError>
    ensures { IfOk result (λ parts. parts.items ≡ inboxes_in delivered.items) }
{
    let mut parts = Vec::with_capacity(alloc, delivered.len())?;
    for part in delivered {
        parts.push(part.inboxes)?;
    }
    Ok(parts)
}

// Counts the messages to all parts.
fn delivered_count(parts: &[Delivered]) -> u128
    requires { sum_by (λ part. part.count) parts.now < 2 ^ 128 }
    ensures { result ≡ sum_by (λ part. part.count) parts.now }
{
    let mut count = 0u128;
    for part in parts {
        count += part.count;
    }
    count
}

// Counts the messages in these inboxes.
fn message_count(inboxes: &[Inbox]) -> u128
    ensures { result ≡ sum_by (λ inbox. length inbox) inboxes.now }
{
    let mut count = 0u128;
    for inbox in inboxes {
        count += inbox.as_slice().len() as u128;
    }
    count
}
