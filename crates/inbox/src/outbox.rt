ghost use Rattle.std.specs.Prelude.{◌≡◌, ◌<◌, ◌++◌, [], length, filter, IfOk, IfSome, IfNone, OnOk, OnErr, IsTrue};
ghost use Rattle.inbox.specs.Merging.{letters_sent};
ghost use Rattle.inbox.specs.inside.Outboxes.{batch_letters, unread_letters};
ghost use Rattle.inbox.specs.inside.Shares.{goes_into};

use crate::letters::Letter;
use crate::shares::TargetSet;
use std::alloc::{AllocError, Global};
use std::marker::Model;

// A vertex, and the number of letters that it sent.
#[derive(Clone, Copy)]
pub struct Source {
    id: u64,
    count: usize,
}

/// The letters that the vertices of a part sent, one vertex after another. In contracts its model is their list.
///
/// It takes 16 bytes for each letter: its target and its message. The source of a letter and its number follow from its place.
#[derive(Drop)]
pub struct Outbox {
    // Targets and messages, in the order of sending.
    sends: Vec<(i64, i64)>,
    sources: Vec<Source>,
}

impl Model for Outbox {
    ghost use Rattle.std.specs.Prelude.{◌≡◌, List, length};
    ghost use Rattle.inbox.specs.declared.letters.Letter.{Letter};
    ghost use Rattle.inbox.specs.inside.Outboxes.{count_of, letters_of};

    ghost Value = { List Letter };

    ghost view = { λ outbox. letters_of outbox.sources.items outbox.sends.items };

    ghost invariant = { λ outbox.
        count_of outbox.sources.items ≡ length outbox.sends.items };
}

impl Outbox {
    /// Makes an empty outbox. It allocates nothing.
    pub fn new(alloc: Global) -> Outbox
        ensures { result ≡ [] }
    {
        Outbox {
            sends: Vec::new(alloc),
            sources: Vec::new(alloc),
        }
    }

    /// Appends the letters of the vertex with this id: the targets and messages that it sent, in the order of sending. It fails
    /// only where memory runs out.
    pub fn send_all(&mut self, id: u64, sends: &[(i64, i64)]) -> Result<(), AllocError>
        ensures ok { OnOk result (self.new ≡ self.old ++ letters_sent id sends.now) }
        ensures err { OnErr result (self.new ≡ self.old) }
    {
        if sends.is_empty() {
            return Ok(());
        }
        self.sources.reserve(1)?;
        self.sends.extend_from_slice(sends)?;
        let count = sends.len();
        self.sources.push(Source { id, count })?;
        Ok(())
    }

    /// Returns the number of letters.
    pub fn len(&self) -> usize
        ensures { result ≡ length self.now }
    {
        self.sends.len()
    }

    /// Copies the letters. It fails only where memory runs out.
    pub fn copy(&self, alloc: Global) -> Result<Outbox, AllocError>
        ensures { IfOk result (λ copy. copy ≡ self.now) }
    {
        let sends = Vec::from_slice(alloc, &self.sends)?;
        let sources = Vec::from_slice(alloc, &self.sources)?;
        Ok(Outbox { sends, sources })
    }

    // Returns its letters, none of which is taken.
    pub(crate) fn unread(&self) -> Unread<'_>
        ensures { unread_letters result ≡ self.now }
    {
        Unread {
            sends: &self.sends,
            sources: &self.sources,
        }
    }

    // Appends those of its letters that go to these targets.
    pub(crate) fn copy_to(
        &self,
        targets: TargetSet,
        letters: &mut Vec<Letter>,
    ) -> Result<(), AllocError>
        ensures { OnOk result (letters.new.items
            ≡ letters.old.items ++ filter (goes_into targets) self.now) }
    {
        let mut unread = self.unread();
        while let Some(batch) = unread.first() {
            copy_batch(batch, targets, letters)?;
            unread = batch.others;
        }
        Ok(())
    }
}

// The letters of an outbox that are not taken.
#[derive(Clone, Copy)]
pub struct Unread<'a> {
    sends: &'a [(i64, i64)],
    sources: &'a [Source],
}

// The letters of one source, and those of the later ones.
#[derive(Clone, Copy)]
pub struct Batch<'a> {
    pub id: u64,
    pub sends: &'a [(i64, i64)],
    pub others: Unread<'a>,
}

impl<'a> Unread<'a> {
    // Takes the letters of the next source, if there is one.
    pub fn first(self) -> Option<Batch<'a>>
        ensures whole { IfSome result (λ batch.
            batch_letters batch ++ unread_letters batch.others ≡ unread_letters self.entry) }
        ensures fewer { IfSome result (λ batch.
            length batch.others.sources.now < length self.entry.sources.now) }
        ensures none { IfNone result (unread_letters self.entry ≡ []) }
    {
        let (source, sources) = self.sources.split_first()?;
        let count = source.count.min(self.sends.len());
        let (mine, sends) = self.sends.split_at(count);
        Some(Batch {
            id: source.id,
            sends: mine,
            others: Unread { sends, sources },
        })
    }

    // Checks that all letters are taken.
    pub fn is_empty(self) -> bool
        ensures { IsTrue result → unread_letters self.entry ≡ [] }
    {
        self.sources.is_empty()
    }

    // Returns the next source.
    pub fn source(self) -> Option<u64> {
        let source = self.sources.first()?;
        Some(source.id)
    }
}

// Appends those of a source's letters that go to these targets.
fn copy_batch(batch: Batch, targets: TargetSet, letters: &mut Vec<Letter>) -> Result<(), AllocError>
    ensures { OnOk result (letters.new.items
        ≡ letters.old.items ++ filter (goes_into targets) (batch_letters batch.entry)) }
{
    for (seq, send) in batch.sends.iter().enumerate() {
        let (to, value) = *send;
        let letter = Letter {
            to,
            from: batch.id,
            seq: seq as u64,
            value,
        };
        if targets.takes(&letter) {
            letters.push(letter)?;
        }
    }
    Ok(())
}
