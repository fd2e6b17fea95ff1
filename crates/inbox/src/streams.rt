ghost use Rattle.std.specs.Prelude.{◌≡◌, ◌<◌, ◌≤◌, ◌+◌, ◌++◌, [], ℕ, List, map, length, slice_index_or, IfOk, IfNone, IfSome, OnOk, IsTrue};
ghost use Rattle.std.specs.List.{AllByRecursion, flat_map};
ghost use Rattle.std.specs.declared.cmp.Ordering.TheVariants.{Less};
ghost use Rattle.inbox.specs.declared.letters.Letter.{Letter as AnyLetter};
ghost use Rattle.inbox.specs.Merging.{IsBySource, all_of, sent_in, source_cmp};
ghost use Rattle.inbox.specs.inside.Blocks.{AreFiled, ids_of, none_in, slips_of};
ghost use Rattle.inbox.specs.inside.Mail.{letters_in};
ghost use Rattle.inbox.specs.inside.Outboxes.{unread_letters};
ghost use Rattle.inbox.specs.inside.Streams.{IsNextRun, IsTaken, all_left, left_in, run_letters};

use crate::blocks::{Block, file_list, file_sends};
use crate::grid::Grid;
use crate::letters::Letter;
use crate::mail::Mail;
use crate::outbox::{Outbox, Unread};
use std::alloc::{AllocError, Global};

// Lists of letters or outboxes, each sorted by source, that are read side by side.
#[derive(Drop)]
pub struct Streams<'a> {
    rests: Vec<Rest<'a>>,
    // The least source that may come next. It is above the sources of all letters that are taken.
    least: u128,
}

// The letters of a list or of an outbox that are not taken.
#[derive(Clone, Copy)]
pub enum Rest<'a> {
    OfList(&'a [Letter]),
    OfOutbox(Unread<'a>),
}

// Letters of one source, in the order of sending.
#[derive(Clone, Copy)]
pub enum Run<'a> {
    Letters(&'a [Letter]),
    // The source's id, and the targets and messages of its letters.
    Sends(u64, &'a [(i64, i64)]),
}

// The letters of one source, and those that are left.
#[derive(Clone, Copy)]
pub struct Taken<'a> {
    source: u64,
    run: Run<'a>,
    rest: Rest<'a>,
}

impl<'a> Rest<'a> {
    // Takes the letters of the next source, or those at their start that are sorted. Returns `None` at the end, or where the
    // next source is below `least`.
    fn first(self, least: u128) -> Option<Taken<'a>>
        ensures { IfSome result (IsTaken (left_in self.entry) least) }
    {
        match self {
            Rest::OfList(letters) => first_of_list(letters, least),
            Rest::OfOutbox(unread) => first_of_outbox(unread, least),
        }
    }

    // Returns the next source.
    fn source(self) -> Option<u64> {
        match self {
            Rest::OfList(letters) => {
                let letter = letters.first()?;
                Some(letter.from)
            }
            Rest::OfOutbox(unread) => unread.source(),
        }
    }

    // Checks that all letters are taken.
    fn is_empty(self) -> bool
        ensures { IsTrue result → left_in self.entry ≡ [] }
    {
        match self {
            Rest::OfList(letters) => letters.is_empty(),
            Rest::OfOutbox(unread) => unread.is_empty(),
        }
    }
}

fn first_of_list<'a>(letters: &'a [Letter], least: u128) -> Option<Taken<'a>>
    ensures { IfSome result (IsTaken letters.now least) }
{
    let (run, others) = letters.split_at(run_length(letters, least));
    if run.is_empty() {
        return None;
    }
    Some(Taken {
        source: run[0].from,
        run: Run::Letters(run),
        rest: Rest::OfList(others),
    })
}

fn first_of_outbox<'a>(unread: Unread<'a>, least: u128) -> Option<Taken<'a>>
    ensures { IfSome result (IsTaken (unread_letters unread.entry) least) }
{
    let batch = unread.first()?;
    if batch.sends.is_empty() || u128::from(batch.id) < least {
        return None;
    }
    Some(Taken {
        source: batch.id,
        run: Run::Sends(batch.id, batch.sends),
        rest: Rest::OfOutbox(batch.others),
    })
}

impl<'a> Streams<'a> {
    fn of(alloc: Global, mail: Mail<'a>) -> Result<Streams<'a>, AllocError>
        ensures left { IfOk result (λ streams. all_left streams ≡ letters_in mail.entry) }
        ensures least { IfOk result (λ streams. streams.least ≡ 0) }
    {
        let rests = match mail {
            Mail::Loose(lists) => rests_of_lists(alloc, lists)?,
            Mail::Sent(outboxes) => rests_of_outboxes(alloc, outboxes)?,
        };
        Ok(Streams { rests, least: 0 })
    }

    // Takes the letters of the next source, or those at their start that are sorted. Returns `None` at the end, or where the
    // next source of a list was passed already.
    fn next_run(&mut self) -> Option<Run<'a>>
        ensures next { IfSome result (λ run. IsNextRun
            (all_left self.old) self.old.least (run_letters run) (all_left self.new) self.new.least) }
        ensures kept { IfNone result (self.new ≡ self.old) }
    {
        let place = self.place_of_least();
        if place >= self.rests.len() {
            return None;
        }
        let taken = self.rests[place].first(self.least)?;
        self.least = u128::from(taken.source) + 1;
        self.rests[place] = taken.rest;
        Some(taken.run)
    }

    // Returns the place of the list or outbox whose next letter has the least source. If there is no next letter, it returns any
    // place.
    fn place_of_least(&self) -> usize {
        let mut place = 0;
        let mut least = u64::MAX;
        for index in 0..self.rests.len() {
            if let Some(source) = self.rests[index].source()
                && source <= least
            {
                place = index;
                least = source;
            }
        }
        place
    }

    // Checks that all letters are taken.
    fn are_taken(&self) -> bool
        ensures { IsTrue result → all_left self.now ≡ [] }
    {
        for rest in &self.rests {
            if !rest.is_empty() {
                return false;
            }
        }
        true
    }
}

fn rests_of_lists<'a>(alloc: Global, lists: &'a [Vec<Letter>]) -> Result<Vec<Rest<'a>>, AllocError>
    ensures { IfOk result (λ rests. flat_map left_in rests.items ≡ all_of lists.now) }
{
    let mut rests = Vec::with_capacity(alloc, lists.len())?;
    for list in lists {
        rests.push_reserved(Rest::OfList(list.as_slice()));
    }
    Ok(rests)
}

fn rests_of_outboxes<'a>(alloc: Global, outboxes: &'a [Outbox]) -> Result<Vec<Rest<'a>>, AllocError>
    ensures { IfOk result (λ rests. flat_map left_in rests.items ≡ sent_in outboxes.now) }
{
    let mut rests = Vec::with_capacity(alloc, outboxes.len())?;
    for outbox in outboxes {
        rests.push_reserved(Rest::OfOutbox(outbox.unread()));
    }
    Ok(rests)
}

// Returns the number of letters at the start that have one source, each with a greater number than the one before. It is 0
// where the source is below `least`.
fn run_length(letters: &[Letter], least: u128) -> usize
    ensures bound { result ≤ length letters.now }
    ensures late { (d : AnyLetter) → 0 < result
        → least ≤ (slice_index_or letters.now 0 d).from }
    ensures own { (k : ℕ) (d : AnyLetter) → k < result
        → (slice_index_or letters.now k d).from ≡ (slice_index_or letters.now 0 d).from }
    ensures rising { (k : ℕ) (d : AnyLetter) → k + 1 < result
        → source_cmp (slice_index_or letters.now k d) (slice_index_or letters.now (k + 1) d)
        ≡ Less }
{
    if letters.is_empty() || u128::from(letters[0].from) < least {
        return 0;
    }
    for index in 1..letters.len() {
        if !goes_on(&letters[index - 1], &letters[index]) {
            return index;
        }
    }
    letters.len()
}

// Checks that both letters have one source, which sent the first one earlier.
fn goes_on(first: &Letter, second: &Letter) -> bool
    ensures own { IsTrue result → second.now.from ≡ first.now.from }
    ensures rising { IsTrue result → source_cmp first.now second.now ≡ Less }
{
    first.from == second.from && first.seq < second.seq
}

// Files the letters by source, where each list or outbox is sorted by source already. Returns whether all are filed: where one
// is not sorted, only some are.
pub fn file_by_source(
    alloc: Global,
    mail: Mail,
    grid: Grid,
    blocks: &mut Vec<Block>,
) -> Result<bool, AllocError>
    requires { AllByRecursion none_in (map slips_of blocks.old.items) }
    ensures ids { IfOk result (λ all. map ids_of blocks.new.items ≡ map ids_of blocks.old.items) }
    ensures filed { IfOk result (λ all. IsTrue all → (sent : List AnyLetter)
        × IsBySource (letters_in mail.entry) sent
        × AreFiled grid sent (map slips_of blocks.new.items)) }
{
    let mut streams = Streams::of(alloc, mail)?;
    while let Some(run) = streams.next_run() {
        file_run(run, grid, blocks)?;
    }
    Ok(streams.are_taken())
}

// Files the letters of a run, which follow those that are filed.
fn file_run(run: Run, grid: Grid, blocks: &mut Vec<Block>) -> Result<(), AllocError>
    ensures ids { OnOk result (map ids_of blocks.new.items ≡ map ids_of blocks.old.items) }
    ensures filed { OnOk result ((sent : List AnyLetter)
        → AreFiled grid sent (map slips_of blocks.old.items)
        → AreFiled grid (sent ++ run_letters run.entry) (map slips_of blocks.new.items)) }
{
    match run {
        Run::Letters(letters) => file_list(letters, grid, blocks),
        Run::Sends(_, sends) => file_sends(sends, grid, blocks),
    }
}
