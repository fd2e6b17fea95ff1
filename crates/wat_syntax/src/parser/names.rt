//! Names and their indices (Core 1.0, 6.3.5 and 6.1.3). No contract says which index a name has, only that a text without
//! names is read.

ghost use Rattle.std.specs.Prelude.{◌≡◌, true, IsOk, Ok, None};
ghost use Rattle.wat_syntax.specs.inside.ReadingModule.{nameless};

use crate::fault::{Failure, FaultKind};
use crate::keyword::Keyword;
use crate::lexer::Token;
use std::alloc::Global;
use std::collections::HashMap;

/// The names of one index space, and their indices.
#[derive(Drop)]
pub struct Space {
    numbers: HashMap<u32, u32>,
}

impl Space {
    /// Creates an empty space. It allocates nothing.
    pub fn new(alloc: Global) -> Space {
        Space {
            numbers: HashMap::new(alloc),
        }
    }

    /// Returns the index of a name, where it has one.
    pub fn find(&self, name: u32) -> Option<u32> {
        self.numbers.get(&name).copied()
    }

    /// Declares a name with this index. A name that has one already is `DuplicateName`. `left` tokens remain at the name.
    pub fn declare(&mut self, name: u32, number: usize, left: usize) -> Result<(), Failure> {
        if self.find(name).is_some() {
            return Err(Failure::Fault(FaultKind::DuplicateName, left));
        }
        let Ok(number) = u32::try_from(number) else {
            return Err(Failure::Fault(FaultKind::OverLimit, left));
        };
        self.numbers.insert(name, number)?;
        Ok(())
    }
}

/// The names of one index space, with indices in the order of declaration.
#[derive(Drop)]
struct Series {
    space: Space,
    count: usize,
}

impl Series {
    // Creates an empty series. It allocates nothing.
    fn new(alloc: Global) -> Series {
        Series {
            space: Space::new(alloc),
            count: 0,
        }
    }

    // Declares the next item. A name that occurs twice is `DuplicateName`.
    fn declare(&mut self, name: Option<u32>, left: usize) -> Result<(), Failure>
        ensures { name ≡ None → result ≡ Ok tt }
    {
        if let Some(name) = name {
            self.space.declare(name, self.count, left)?;
        }
        self.count = self.count.saturating_add(1);
        Ok(())
    }
}

/// The kind of item that a name may be for.
#[derive(Clone, Copy)]
pub enum Kind {
    Type,
    Function,
    Table,
    Memory,
    Global,
    /// A parameter or a local.
    Local,
    /// A block around an instruction.
    Label,
}

/// The names that the fields of a module declare, imports first (Core 1.0, 6.6.1).
#[derive(Drop)]
pub struct Names {
    types: Series,
    functions: Series,
    tables: Series,
    memories: Series,
    globals: Series,
}

impl Names {
    // Creates an empty set of names. It allocates nothing.
    fn new(alloc: Global) -> Names {
        Names {
            types: Series::new(alloc),
            functions: Series::new(alloc),
            tables: Series::new(alloc),
            memories: Series::new(alloc),
            globals: Series::new(alloc),
        }
    }

    /// Returns the index of the item of this kind with this name, where there is one.
    pub fn find(&self, kind: Kind, name: u32) -> Option<u32> {
        match kind {
            Kind::Type => self.types.space.find(name),
            Kind::Function => self.functions.space.find(name),
            Kind::Table => self.tables.space.find(name),
            Kind::Memory => self.memories.space.find(name),
            Kind::Global => self.globals.space.find(name),
            _ => None,
        }
    }

    // Declares the next item of this kind.
    fn declare(&mut self, kind: Keyword, name: Option<u32>, left: usize) -> Result<(), Failure>
        ensures { name ≡ None → result ≡ Ok tt }
    {
        match kind {
            Keyword::FuncType => self.types.declare(name, left),
            Keyword::Func => self.functions.declare(name, left),
            Keyword::Table => self.tables.declare(name, left),
            Keyword::Memory => self.memories.declare(name, left),
            Keyword::Global => self.globals.declare(name, left),
            _ => Ok(()),
        }
    }

    // Declares the field that starts with the first token, if one does. `depth` parentheses are open before that token.
    // The result is how many are open after it.
    fn declare_next(&mut self, depth: usize, tokens: &[Token]) -> Result<usize, Failure>
        ensures { nameless tokens.now ≡ true → IsOk result }
    {
        match tokens {
            [Token::Open, ..] => {
                if depth == 1 {
                    self.declare_field(tokens)?;
                }
                Ok(depth.saturating_add(1))
            }
            [Token::Close, ..] => Ok(depth.saturating_sub(1)),
            _ => Ok(depth),
        }
    }

    // Declares the item that this field defines or imports.
    fn declare_field(&mut self, tokens: &[Token]) -> Result<(), Failure>
        ensures { nameless tokens.now ≡ true → result ≡ Ok tt }
    {
        match tokens {
            [
                Token::Open,
                Token::Key(Keyword::Import),
                Token::Text(_),
                Token::Text(_),
                rest @ ..,
            ] => self.declare_first(rest),
            _ => self.declare_first(tokens),
        }
    }

    // Declares the item that starts here with a parenthesis and a keyword.
    fn declare_first(&mut self, tokens: &[Token]) -> Result<(), Failure>
        ensures { nameless tokens.now ≡ true → result ≡ Ok tt }
    {
        match tokens {
            [
                Token::Open,
                Token::Key(kind),
                Token::Name(name),
                behind @ ..,
            ] => { self.declare(*kind, Some(*name), behind.len().saturating_add(1)) }
            [Token::Open, Token::Key(kind), ..] => self.declare(*kind, None, tokens.len()),
            _ => Ok(()),
        }
    }
}

/// Collects the names that a module's fields declare. A name that occurs twice is `DuplicateName`. It reads no more of
/// the fields than that.
pub fn declared(alloc: Global, tokens: &[Token]) -> Result<Names, Failure>
    ensures { nameless tokens.now ≡ true → IsOk result }
{
    let mut names = Names::new(alloc);
    let mut depth = 0usize;
    for i in 0..tokens.len() {
        depth = names.declare_next(depth, &tokens[i..])?;
    }
    Ok(names)
}
