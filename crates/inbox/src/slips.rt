use std::alloc::{AllocError, Global};
use std::marker::Model;

// A message, and the place of its target among the ids of a block.
#[derive(Clone, Copy)]
pub struct Slip {
    pub place: u16,
    pub value: i64,
}

// The messages to the ids of a block, in the order of the letters. In contracts its model is their list.
//
// Places and values are in two lists of one length, since a message then takes 10 bytes. As one `Slip` it would take 16.
#[derive(Drop)]
pub struct Slips {
    places: Vec<u16>,
    values: Vec<i64>,
}

impl Model for Slips {
    ghost use Rattle.std.specs.Prelude.{◌≡◌, List, length};
    ghost use Rattle.inbox.specs.declared.slips.Slip.{Slip as AnySlip};
    ghost use Rattle.inbox.specs.inside.Slips.{joined};

    ghost Value = { List AnySlip };

    ghost view = { λ slips. joined slips.places.items slips.values.items };

    ghost invariant = { λ slips. length slips.values.items ≡ length slips.places.items };
}

impl Slips {
    ghost use Rattle.std.specs.Prelude.{◌≡◌, ◌<◌, [], ◌∷◌, ◌++◌, length, slice_index_or, IfOk, OnOk};
    ghost use Rattle.inbox.specs.declared.slips.Slip.{Slip as AnySlip};

    // Makes an empty list with room for `count` messages.
    pub fn with_capacity(alloc: Global, count: usize) -> Result<Slips, AllocError>
        ensures { IfOk result (λ slips. slips ≡ []) }
    {
        let places = Vec::with_capacity(alloc, count)?;
        let values = Vec::with_capacity(alloc, count)?;
        Ok(Slips { places, values })
    }

    pub fn len(&self) -> usize
        ensures { result ≡ length self.now }
    {
        self.places.len()
    }

    // Returns the message at this index.
    pub fn at(&self, index: usize) -> Slip
        requires { index < length self.now }
        ensures { (d : AnySlip) → result ≡ slice_index_or self.now index d }
    {
        Slip {
            place: self.places[index],
            value: self.values[index],
        }
    }

    // Appends a message.
    pub fn push(&mut self, slip: Slip) -> Result<(), AllocError>
        ensures { OnOk result (self.new ≡ self.old ++ slip ∷ []) }
    {
        self.places.push(slip.place)?;
        if let Err(failed) = self.values.push(slip.value) {
            self.places.truncate(self.values.len());
            return Err(failed.into());
        }
        Ok(())
    }
}
