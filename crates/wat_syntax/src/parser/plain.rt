//! Readers of instructions that contain no others, after their keywords (Core 1.0, 6.5).

ghost use Rattle.std.specs.Prelude.{◌≡◌, ◌<◌, ◌≤◌, length};
ghost use Rattle.wasm_ast.specs.declared.types.ValType.TheVariants.{I32, I64};
ghost use Rattle.wasm_ast.specs.declared.body.Instr.TheVariants as instr;
ghost use Rattle.wasm_ast.specs.declared.plain.Plain.TheVariants as leaf;
ghost use Rattle.wat_syntax.specs.inside.Parsing.{Advances, GivesAny, GoesOn, IsConstant, Shows, Gives, When};
ghost use Rattle.wat_syntax.specs.inside.ReadingCode.{alignment_at, branch_table_at, constant_at, exponent, load_at, memory_argument_at, offset_at, plain_at, store_at, variable_at};

use crate::fault::{Failure, FaultKind};
use crate::keyword::Keyword;
use crate::lexer::Token;
use crate::parser::names::Kind;
use crate::parser::tokens::Parser;
use crate::parser::types::ParameterNames;
use wasm_ast::{
    Branch, Instr, Load, Memory, MemoryArgument, Plain, Sequence, Store, ValType, Value, Variable,
};

impl<'a> Parser<'a> {
    /// Reads an instruction, after its keyword. At most `parentheses` more may open.
    #[tactic(auto, unfolding(crate::specs::inside::ReadingCode::plain_at))]
    pub fn plain(&mut self, keyword: Keyword, parentheses: u32) -> Result<Instr, Failure>
        ensures { GoesOn self.old self.new result
            (When (0 < parentheses) (GivesAny (λ n. plain_at n keyword))) }
    {
        match keyword {
            Keyword::Nop => Ok(Instr::Plain(Plain::Nop)),
            Keyword::Drop => Ok(Instr::Plain(Plain::Drop)),
            Keyword::Select => Ok(Instr::Plain(Plain::Select)),
            Keyword::Unreachable => Ok(Instr::Unreachable),
            Keyword::Return => Ok(Instr::Branch(Branch::Return)),
            Keyword::MemorySize => Ok(Instr::Plain(Plain::Memory(Memory::Size))),
            Keyword::MemoryGrow => Ok(Instr::Plain(Plain::Memory(Memory::Grow))),
            Keyword::Numeric(op) => Ok(Instr::Plain(Plain::Numeric(op))),
            Keyword::Const(t) => {
                let value = self.constant(t)?;
                Ok(Instr::Plain(Plain::Const(value)))
            }
            Keyword::Load(load) => self.load(load),
            Keyword::Store(store) => self.store(store),
            Keyword::Call => self.index(Kind::Function).map(Instr::Call),
            Keyword::CallIndirect => self
                .type_use(ParameterNames::Refused, parentheses)
                .map(Instr::CallIndirect),
            Keyword::Br => {
                let label = self.index(Kind::Label)?;
                Ok(Instr::Branch(Branch::Br(label)))
            }
            Keyword::BrIf => {
                let label = self.index(Kind::Label)?;
                Ok(Instr::Branch(Branch::BrIf(label)))
            }
            Keyword::BrTable => self.branch_table(),
            _ => self.variable(keyword),
        }
    }

    // Reads the index of a local or a global.
    fn variable(&mut self, keyword: Keyword) -> Result<Instr, Failure>
        ensures { GoesOn self.old self.new result (Gives (variable_at keyword)) }
    {
        let access = self.access(keyword)?;
        Ok(Instr::Plain(Plain::Variable(access)))
    }

    #[tactic(auto, unfolding(crate::specs::inside::ReadingCode::variable_at))]
    fn access(&mut self, keyword: Keyword) -> Result<Variable, Failure>
        ensures { GoesOn self.old self.new result
            (Shows (λ v. instr.Plain (leaf.Variable v)) (variable_at keyword)) }
    {
        match keyword {
            Keyword::LocalGet => self.index(Kind::Local).map(Variable::LocalGet),
            Keyword::LocalSet => self.index(Kind::Local).map(Variable::LocalSet),
            Keyword::LocalTee => self.index(Kind::Local).map(Variable::LocalTee),
            Keyword::GlobalGet => self.index(Kind::Global).map(Variable::GlobalGet),
            Keyword::GlobalSet => self.index(Kind::Global).map(Variable::GlobalSet),
            _ => Err(self.fault(FaultKind::Syntax)),
        }
    }

    #[tactic(auto, unfolding(crate::specs::inside::ReadingCode::load_at))]
    fn load(&mut self, load: Load) -> Result<Instr, Failure>
        ensures { GoesOn self.old self.new result (Gives (load_at load)) }
    {
        let argument = self.memory_argument(load.width())?;
        Ok(Instr::Plain(Plain::Memory(Memory::Load(load, argument))))
    }

    #[tactic(auto, unfolding(crate::specs::inside::ReadingCode::store_at))]
    fn store(&mut self, store: Store) -> Result<Instr, Failure>
        ensures { GoesOn self.old self.new result (Gives (store_at store)) }
    {
        let argument = self.memory_argument(store.width())?;
        Ok(Instr::Plain(Plain::Memory(Memory::Store(store, argument))))
    }

    // Reads the immediates of a load or a store of `width` bytes (Core 1.0, 6.5.5).
    #[tactic(auto, unfolding(crate::specs::inside::ReadingCode::memory_argument_at))]
    fn memory_argument(&mut self, width: u32) -> Result<MemoryArgument, Failure>
        ensures { GoesOn self.old self.new result (Gives (memory_argument_at width)) }
    {
        let offset = self.offset();
        let align = self.alignment(width)?;
        Ok(MemoryArgument { align, offset })
    }

    // Reads the offset, which is 0 where none is given.
    #[tactic(auto, unfolding(crate::specs::inside::ReadingCode::offset_at))]
    fn offset(&mut self) -> u32
        ensures again { (result, self.new) ≡ offset_at self.old }
        ensures shrinks { length self.new.0 ≤ length self.old.0 }
    {
        match self.rest {
            [Token::Offset(n), rest @ ..] => {
                self.rest = rest;
                *n
            }
            _ => 0,
        }
    }

    // Reads the alignment, which is the width where none is given, and returns its exponent.
    #[tactic(auto, unfolding(crate::specs::inside::ReadingCode::alignment_at))]
    fn alignment(&mut self, width: u32) -> Result<u32, Failure>
        ensures { GoesOn self.old self.new result (Gives (alignment_at width)) }
    {
        match self.rest {
            [Token::Align(n), rest @ ..] => match exponent(*n) {
                Some(e) => {
                    self.rest = rest;
                    Ok(e)
                }
                None => Err(self.fault(FaultKind::Syntax)),
            },
            _ => match exponent(width) {
                Some(e) => Ok(e),
                None => Err(self.fault(FaultKind::Syntax)),
            },
        }
    }

    // Reads a constant of this type, with or without a sign (Core 1.0, 6.5.6).
    #[tactic(auto, unfolding(crate::specs::inside::ReadingCode::constant_at))]
    fn constant(&mut self, t: ValType) -> Result<Value, Failure>
        ensures { Advances self.old self.new result (Gives (constant_at t)) }
    {
        match self.rest.split_first() {
            Some((token, rest)) => match constant(t, *token) {
                Some(value) => {
                    self.rest = rest;
                    Ok(value)
                }
                None => Err(self.no_constant()),
            },
            None => Err(self.unexpected()),
        }
    }

    // Returns the failure of a token that is not a constant.
    fn no_constant(&self) -> Failure {
        match self.rest {
            [Token::Number(_), ..] => self.fault(FaultKind::NumberRange),
            [Token::Signed(_), ..] => self.fault(FaultKind::NumberRange),
            _ => self.unexpected(),
        }
    }

    // Reads the labels of a `br_table`, of which the last is the default (Core 1.0, 6.5.2).
    #[tactic(auto, unfolding(crate::specs::inside::ReadingCode::branch_table_at))]
    fn branch_table(&mut self) -> Result<Instr, Failure>
        ensures { GoesOn self.old self.new result (GivesAny branch_table_at) }
    {
        let mut last = self.index(Kind::Label)?;
        let mut labels = Vec::new(self.alloc);
        'each: while self.is_index() {
            let next = self.index(Kind::Label)?;
            labels.push(last)?;
            last = next;
        }
        Ok(Instr::Branch(Branch::BrTable(Sequence::from(labels), last)))
    }
}

// Returns the exponent of a power of 2.
fn exponent(n: u32) -> Option<u32>
    ensures { result ≡ exponent n }
{
    for e in 0..32u32 {
        if 1u32 << e == n {
            return Some(e);
        }
    }
    None
}

// Returns the token's value as a constant of this type, where it has one.
fn constant(t: ValType, token: Token) -> Option<Value>
    ensures { IsConstant t token result }
{
    match t {
        ValType::I32 => constant_i32(token),
        ValType::I64 => constant_i64(token),
    }
}

fn constant_i32(token: Token) -> Option<Value>
    ensures { IsConstant I32 token result }
{
    match token {
        Token::Number(n) => match u32::try_from(n) {
            Ok(n) => Some(Value::I32(n)),
            Err(_) => None,
        },
        Token::Signed(z) => match i32::try_from(z) {
            Ok(z) => Some(Value::I32(z.cast_unsigned())),
            Err(_) => None,
        },
        _ => None,
    }
}

fn constant_i64(token: Token) -> Option<Value>
    ensures { IsConstant I64 token result }
{
    match token {
        Token::Number(n) => Some(Value::I64(n)),
        Token::Signed(z) => Some(Value::I64(z.cast_unsigned())),
        _ => None,
    }
}
