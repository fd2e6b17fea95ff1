//! Items that are repeated any number of times.

ghost use Rattle.std.specs.Prelude.{◌≡◌, ℕ, Bool, List, Option, Some};
ghost use Rattle.wat_syntax.specs.inside.Parsing.{Advances, GoesOn, MakesAny};
ghost use Rattle.wat_syntax.specs.inside.Reading.{State, repeated};
ghost use Rattle.wat_syntax.specs.inside.Tokens.{Tok};

use crate::fault::Failure;
use crate::parser::tokens::Parser;

/// An item that may be repeated any number of times.
pub trait Item {
    /// The collection to which each item is added.
    type Made;

    ghost Seen: { Type 0 };

    ghost seen: { Self.Made → Seen };

    ghost first: { Self → List Tok → Option Bool };

    ghost step: { Self → ℕ → Seen × State → Option (Seen × State) };

    /// Reports whether another item comes next.
    fn is_next(&self, parser: &Parser<'_>) -> bool
        ensures { (b : Bool) → first self.now parser.now.0 ≡ Some b → result ≡ b };

    /// Reads the item that comes next.
    fn add(&self, parser: &mut Parser<'_>, made: &mut Self::Made) -> Result<(), Failure>
        ensures { Advances parser.old parser.new result
            (MakesAny (seen made.old) (seen made.new) (step self.now)) };
}

/// Reads all items that come next.
pub fn repeated<I: Item>(
    item: &I,
    parser: &mut Parser<'_>,
    made: &mut I::Made,
) -> Result<(), Failure>
    ensures { GoesOn parser.old parser.new result (MakesAny (I.seen made.old) (I.seen made.new)
        (λ n. repeated (I.first item.now) (I.step item.now n) n)) }
{
    'each: while item.is_next(parser) {
        item.add(parser, made)?;
    }
    Ok(())
}
