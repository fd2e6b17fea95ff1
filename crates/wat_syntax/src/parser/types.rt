//! Readers of types and their uses (Core 1.0, 6.4 and 6.6.3).

ghost use Rattle.std.specs.Prelude.{◌≡◌, ◌<◌, List, Some};
ghost use Rattle.wasm_ast.specs.declared.types.ValType.{ValType as AnyValType};
ghost use Rattle.wat_syntax.specs.inside.Parsing.{Advances, AddsAny, GivesAny, Fewer, GoesOn, NoMore, Passes, Gives, When};
ghost use Rattle.wat_syntax.specs.inside.Reading.{block_type_at, defined_type_at, func_at, global_type_at, group_at, group_first, group_step, item_step, limits_at, maximum_at, mut_first, mut_type_at, named_use_at, result_first, signature_at, signature_first, type_use_at, val_type_at, val_type_first};

use crate::fault::{Failure, FaultKind};
use crate::keyword::Keyword;
use crate::lexer::Token;
use crate::parser::items::{Item, repeated};
use crate::parser::names::{Kind, Names};
use crate::parser::tokens::Parser;
use std::alloc::Global;
use wasm_ast::{
    BlockType, FuncType, GlobalType, Limits, Mutability, Sequence, ValType, parameter_count,
};

/// The use of parameter names.
#[derive(Clone, Copy)]
pub enum ParameterNames {
    /// Names may be given, and the function's instructions may use them.
    Bound,
    /// No name may be given.
    Refused,
}

// The kind of a group: parameters or results, each of which may be in several groups.
#[derive(Clone, Copy)]
enum Group {
    Parameters(ParameterNames),
    Results,
}

// A group of this kind: several types, or a name and one type.
impl Item for Group {
    type Made = Vec<ValType>;

    ghost Seen = { List AnyValType };

    ghost seen = { λ types. types.items };

    ghost first = { group_first };

    ghost step = { λ _. group_step };

    fn is_next(&self, parser: &Parser<'_>) -> bool {
        match *self {
            Group::Parameters(_) => matches!(parser.opening(), Some(Keyword::Param)),
            Group::Results => parser.is_result(),
        }
    }

    #[tactic(auto, unfolding(crate::specs::inside::Reading::group_step, crate::specs::inside::Reading::nameless_at))]
    fn add(&self, parser: &mut Parser<'_>, types: &mut Vec<ValType>) -> Result<(), Failure> {
        parser.enter();
        let left = parser.rest.len();
        match parser.name() {
            Some(name) => parser.bind(*self, name, left, types),
            None => parser.group(types),
        }
    }
}

// A value type.
struct TypeWord;

impl Item for TypeWord {
    type Made = Vec<ValType>;

    ghost Seen = { List AnyValType };

    ghost seen = { λ types. types.items };

    ghost first = { λ _. val_type_first };

    ghost step = { λ _ _. item_step val_type_at };

    #[tactic(auto, unfolding(crate::specs::inside::Reading::val_type_first))]
    fn is_next(&self, parser: &Parser<'_>) -> bool {
        matches!(parser.rest, [Token::Key(Keyword::Type(_)), ..])
    }

    fn add(&self, parser: &mut Parser<'_>, types: &mut Vec<ValType>) -> Result<(), Failure> {
        let t = parser.val_type()?;
        types.push(t)?;
        Ok(())
    }
}

impl<'a> Parser<'a> {
    /// Reads a value type (Core 1.0, 6.4.1).
    #[tactic(auto, unfolding(crate::specs::inside::Reading::val_type_at))]
    pub fn val_type(&mut self) -> Result<ValType, Failure>
        ensures { Advances self.old self.new result (Gives val_type_at) }
    {
        match self.rest {
            [Token::Key(Keyword::Type(t)), rest @ ..] => {
                self.rest = rest;
                Ok(*t)
            }
            _ => Err(self.unexpected()),
        }
    }

    // Reports whether results come next.
    fn is_result(&self) -> bool
        ensures { result_first self.now.0 ≡ Some result }
    {
        matches!(self.opening(), Some(Keyword::Result))
    }

    /// Reads the result of a block, if it has one (Core 1.0, 6.5.2). At most `parentheses` more may open.
    #[tactic(auto, unfolding(crate::specs::inside::Reading::block_type_at))]
    pub fn block_type(&mut self, parentheses: u32) -> Result<BlockType, Failure>
        ensures { GoesOn self.old self.new result (When (0 < parentheses) (Gives block_type_at)) }
    {
        if !self.is_result() {
            return Ok(None);
        }
        if parentheses == 0 {
            return Err(self.fault(FaultKind::OverLimit));
        }
        self.enter();
        let t = self.val_type()?;
        self.closed(Some(t))
    }

    /// Reads limits (Core 1.0, 6.4.4).
    #[tactic(auto, unfolding(crate::specs::inside::Reading::limits_at))]
    pub fn limits(&mut self) -> Result<Limits, Failure>
        ensures { GoesOn self.old self.new result (Gives limits_at) }
    {
        let minimum = self.number()?;
        let maximum = self.maximum()?;
        Ok(Limits { minimum, maximum })
    }

    #[tactic(auto, unfolding(crate::specs::inside::Reading::maximum_at))]
    fn maximum(&mut self) -> Result<Option<u32>, Failure>
        ensures { GoesOn self.old self.new result (Gives maximum_at) }
    {
        match self.rest {
            [Token::Number(_), ..] => self.number().map(Some),
            [Token::OutOfRange, ..] => Err(self.fault(FaultKind::NumberRange)),
            _ => Ok(None),
        }
    }

    fn is_mut(&self) -> bool
        ensures { result ≡ mut_first self.now.0 }
    {
        matches!(self.opening(), Some(Keyword::Mut))
    }

    // Reads the inside of `(mut ..)`.
    #[tactic(auto, unfolding(crate::specs::inside::Reading::mut_type_at))]
    fn mut_type(&mut self) -> Result<GlobalType, Failure>
        ensures { GoesOn self.old self.new result (Gives mut_type_at) }
    {
        self.enter();
        let value = self.val_type()?;
        self.closed(GlobalType {
            mutability: Mutability::Variable,
            value,
        })
    }

    /// Reads the type of a global (Core 1.0, 6.4.7).
    #[tactic(auto, unfolding(crate::specs::inside::Reading::global_type_at))]
    pub fn global_type(&mut self) -> Result<GlobalType, Failure>
        ensures { GoesOn self.old self.new result (Gives global_type_at) }
    {
        if self.is_mut() {
            return self.mut_type();
        }
        self.val_type().map(|value| GlobalType {
            mutability: Mutability::Constant,
            value,
        })
    }

    /// Reports whether parameters or results come next.
    pub fn is_signature(&self) -> bool
        ensures { result ≡ signature_first self.now.0 }
    {
        matches!(self.opening(), Some(Keyword::Param | Keyword::Result))
    }

    /// Reads parameters and results, after the keyword of a type (Core 1.0, 6.4.3).
    #[tactic(auto, unfolding(crate::specs::inside::Reading::signature_at, crate::specs::inside::Reading::groups_at))]
    pub fn signature(&mut self, names: ParameterNames) -> Result<FuncType, Failure>
        ensures { GoesOn self.old self.new result (GivesAny signature_at) }
    {
        let mut parameters = Vec::new(self.alloc);
        repeated(&Group::Parameters(names), self, &mut parameters)?;
        let mut results = Vec::new(self.alloc);
        repeated(&Group::Results, self, &mut results)?;
        Ok(FuncType {
            parameters: Sequence::from(parameters),
            results: Sequence::from(results),
        })
    }

    // Declares a parameter with this name, where such a group may have one. `left` tokens remain at the name.
    fn bind(
        &mut self,
        group: Group,
        name: u32,
        left: usize,
        types: &mut Vec<ValType>,
    ) -> Result<(), Failure>
        ensures { Fewer self.old self.new result }
    {
        let Group::Parameters(ParameterNames::Bound) = group else {
            return Err(Failure::Fault(FaultKind::Syntax, left));
        };
        self.named_type(name, types.len(), left, types)
    }

    /// Declares a parameter or a local with this name and index. Reads its type and the parenthesis that closes its
    /// group, and adds the type to `types`. `left` tokens remain at the name.
    pub fn named_type(
        &mut self,
        name: u32,
        number: usize,
        left: usize,
        types: &mut Vec<ValType>,
    ) -> Result<(), Failure>
        ensures { Fewer self.old self.new result }
    {
        self.locals.declare(name, number, left)?;
        let t = self.val_type()?;
        types.push(t)?;
        self.close()
    }

    /// Reads value types and the parenthesis that closes their group. Adds the types to `types`.
    #[tactic(auto, unfolding(crate::specs::inside::Reading::group_at, crate::specs::inside::Reading::val_types_at))]
    pub fn group(&mut self, types: &mut Vec<ValType>) -> Result<(), Failure>
        ensures { Advances self.old self.new result (AddsAny types.old types.new group_at) }
    {
        repeated(&TypeWord, self, types)?;
        self.close()
    }

    /// Reads the use of a type, and returns the type's index (Core 1.0, 6.6.3). At most `parentheses` more may open.
    ///
    /// Parameters and results without an index use the first equal type. Where there is none, a new type is added
    /// after all others.
    #[tactic(auto, unfolding(crate::specs::inside::Reading::type_use_at))]
    pub fn type_use(&mut self, names: ParameterNames, parentheses: u32) -> Result<u32, Failure>
        ensures { GoesOn self.old self.new result (When (0 < parentheses) (Gives type_use_at)) }
    {
        if parentheses == 0 && self.is_open() {
            return Err(self.fault(FaultKind::OverLimit));
        }
        if self.is_type() {
            return self.named_use(names);
        }
        let t = self.signature(names)?;
        self.number_of_type(t)
    }

    // Reads the use of a type by its index or name.
    #[tactic(auto, unfolding(crate::specs::inside::Reading::named_use_at))]
    fn named_use(&mut self, names: ParameterNames) -> Result<u32, Failure>
        ensures { GoesOn self.old self.new result (Gives named_use_at) }
    {
        self.enter();
        let number = self.index(Kind::Type)?;
        self.close()?;
        if self.is_signature() {
            return self.agree(names, number);
        }
        Ok(number)
    }

    // Reads the parameters and results after the index of a type, and returns that index. Those of another type are a
    // `TypeUse` fault.
    fn agree(&mut self, names: ParameterNames, number: u32) -> Result<u32, Failure>
        ensures shrinks { NoMore self.old self.new result }
    {
        let fault = self.fault(FaultKind::TypeUse);
        let t = self.signature(names)?;
        self.equal_number(number, &t, fault)
    }

    // Returns the index where the type with this index equals this type, and this failure where it does not.
    fn equal_number(&mut self, number: u32, t: &FuncType, fault: Failure) -> Result<u32, Failure>
        ensures { self.new.0 ≡ self.old.0 }
    {
        self.read_all_types()?;
        match self.types.get(number as usize) {
            Some(named) if *named == *t => Ok(number),
            _ => Err(fault),
        }
    }

    // Returns the index of the first type that is equal to this one. Adds it where there is none.
    fn number_of_type(&mut self, t: FuncType) -> Result<u32, Failure>
        ensures shrinks { self.new.0 ≡ self.old.0 }
    {
        let number = self.number_of_equal(&t)?;
        if (number as usize) < self.types.len() {
            return Ok(number);
        }
        self.types.push(t)?;
        Ok(number)
    }

    // Returns the index of the first type that is equal to this one, or the next free index where there is none.
    fn number_of_equal(&mut self, t: &FuncType) -> Result<u32, Failure>
        ensures { self.new.0 ≡ self.old.0 }
    {
        self.read_all_types()?;
        let Ok(next) = u32::try_from(self.types.len()) else {
            return Err(self.fault(FaultKind::OverLimit));
        };
        self.equal_types.first(self.alloc, t, next)
    }

    /// Returns how many parameters the type with this index has: 0 where the index names no type.
    pub fn parameter_count(&mut self, number: u32) -> Result<usize, Failure>
        ensures { self.new.0 ≡ self.old.0 }
    {
        self.read_all_types()?;
        Ok(parameter_count(self.types.as_slice(), number))
    }

    #[tactic(auto, unfolding(crate::specs::inside::Reading::func_at))]
    fn open_func(&mut self) -> Result<(), Failure>
        ensures { Advances self.old self.new result (Passes func_at) }
    {
        match self.rest {
            [Token::Open, Token::Key(Keyword::Func), rest @ ..] => {
                self.rest = rest;
                Ok(())
            }
            _ => Err(self.unexpected()),
        }
    }

    /// Reads a type that the module defines, after its keyword and without the last parenthesis (Core 1.0, 6.6.2).
    #[tactic(auto, unfolding(crate::specs::inside::Reading::defined_type_at))]
    pub fn defined_type(&mut self) -> Result<FuncType, Failure>
        ensures { Advances self.old self.new result (GivesAny defined_type_at) }
    {
        let _name = self.name();
        self.open_func()?;
        self.forget_locals();
        let t = self.signature(ParameterNames::Bound)?;
        self.closed(t)
    }

    // Reads all types that the module defines after this point, unless that was done before. Types that uses add get
    // indices after all of them.
    fn read_all_types(&mut self) -> Result<(), Failure>
        ensures { self.new.0 ≡ self.old.0 }
    {
        if self.are_types_read {
            return Ok(());
        }
        add_defined_types(
            self.alloc,
            self.source,
            self.names,
            self.rest,
            &mut self.types,
        )?;
        self.are_types_read = true;
        self.equal_types.add(self.alloc, self.types.as_slice())
    }

    // Adds all types that are defined from here on.
    fn later_types(&mut self, types: &mut Vec<FuncType>) -> Result<(), Failure> {
        'each: while let [_, rest @ ..] = self.rest {
            if self.is_defined_type() {
                self.later_type(types)?;
            } else {
                self.rest = rest;
            }
        }
        Ok(())
    }

    // Adds the type that is defined here.
    fn later_type(&mut self, types: &mut Vec<FuncType>) -> Result<(), Failure>
        ensures { Fewer self.old self.new result }
    {
        self.enter();
        let t = self.defined_type()?;
        types.push(t)?;
        self.close()
    }

    // Reports whether a type's definition starts here, and not a use of a type.
    fn is_defined_type(&self) -> bool {
        match self.rest {
            [
                Token::Open,
                Token::Key(Keyword::FuncType),
                Token::Name(_),
                Token::Open,
                ..
            ] => true,
            [Token::Open, Token::Key(Keyword::FuncType), Token::Open, ..] => true,
            _ => false,
        }
    }
}

// Adds all types that these tokens of a module define.
fn add_defined_types(
    alloc: Global,
    source: &[u8],
    names: &Names,
    tokens: &[Token],
    types: &mut Vec<FuncType>,
) -> Result<(), Failure> {
    let mut reader = Parser::new(alloc, source, names, tokens);
    reader.later_types(types)
}
