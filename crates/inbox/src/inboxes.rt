use std::alloc::{AllocError, Global};
use std::marker::Model;

// The number of messages that fit in the inbox itself. Most vertices get no more, and more would make all states larger.
const MOST_HERE: usize = 4;

/// The messages to one vertex, in their order. In contracts its model is their list.
///
/// Up to four messages are in the inbox itself and allocate nothing, unless the inbox was made from a list.
#[derive(Drop)]
pub struct Inbox {
    held: Held,
}

// The place of the messages.
#[derive(Drop)]
enum Held {
    Here(Here),
    Apart(Vec<i64>),
}

// Messages in the inbox itself: the first `count` of these.
#[derive(Clone, Copy)]
struct Here {
    alloc: Global,
    count: usize,
    messages: [i64; 4],
}

impl Model for Inbox {
    ghost use Rattle.std.specs.Prelude.{List, ℤ};
    ghost use Rattle.inbox.specs.inside.Held.{IsHeld, messages_of};

    ghost Value = { List ℤ };

    ghost view = { λ inbox. messages_of inbox.held };

    ghost invariant = { λ inbox. IsHeld inbox.held };
}

impl Inbox {
    ghost use Rattle.std.specs.Prelude.{◌≡◌, [], ◌∷◌, ◌++◌, IfOk, OnOk, OnErr};

    /// Makes an empty inbox. It allocates nothing.
    pub fn empty(alloc: Global) -> Inbox
        ensures { result ≡ [] }
    {
        Inbox {
            held: Held::Here(Here {
                alloc,
                count: 0,
                messages: [0; 4],
            }),
        }
    }

    // Makes an empty inbox with room for `count` messages.
    pub(crate) fn with_capacity(alloc: Global, count: usize) -> Result<Inbox, AllocError>
        ensures { IfOk result (λ inbox. inbox ≡ []) }
    {
        if count <= MOST_HERE {
            return Ok(Inbox::empty(alloc));
        }
        Ok(Inbox::from(Vec::with_capacity(alloc, count)?))
    }

    /// Returns the messages.
    pub fn as_slice(&self) -> &[i64]
        ensures { result.now ≡ self.now }
    {
        match &self.held {
            Held::Here(here) => &here.messages[..here.count],
            Held::Apart(messages) => messages,
        }
    }

    /// Appends a message. It fails only where memory runs out.
    pub fn push(&mut self, message: i64) -> Result<(), AllocError>
        ensures ok { OnOk result (self.new ≡ self.old ++ message ∷ []) }
        ensures err { OnErr result (self.new ≡ self.old) }
    {
        match &mut self.held {
            Held::Here(here) => {
                if here.count < MOST_HERE {
                    here.messages[here.count] = message;
                    here.count += 1;
                    return Ok(());
                }
                let mut messages = Vec::from_slice(here.alloc, &here.messages)?;
                messages.push(message)?;
                self.held = Held::Apart(messages);
            }
            Held::Apart(messages) => messages.push(message)?,
        }
        Ok(())
    }
}

impl From<Vec<i64>> for Inbox {
    ghost use Rattle.std.specs.Prelude.{◌≡◌};

    ghost from_gives = { λ messages inbox. inbox ≡ messages.items };

    fn from(messages: Vec<i64>) -> Inbox {
        Inbox {
            held: Held::Apart(messages),
        }
    }
}
