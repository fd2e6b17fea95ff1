//! Readers of instruction sequences, plain and folded, and of the instructions that contain them (Core 1.0, 6.5).

ghost use Rattle.std.specs.Prelude.{◌≡◌, ◌<◌};
ghost use Rattle.wat_syntax.specs.inside.Parsing.{Advances, AddsAny, GivesAny, Fewer, GoesOn, InRoom, NoMore, Passes, Shows};
ghost use Rattle.wat_syntax.specs.inside.Reading.{unnamed_at};
ghost use Rattle.wat_syntax.specs.inside.ReadingCode.{code_at, else_in, end_at, ended_in, header_at, if_in, inner_at, instr_in, instrs_at, linear_in, other_in, stops};

use crate::fault::{Failure, FaultKind};
use crate::keyword::Keyword;
use crate::lexer::Token;
use crate::parser::tokens::Parser;
use wasm_ast::{BlockType, Body, Instr};

/// The nesting that remains: how many more levels may open here.
#[derive(Clone, Copy)]
pub struct Room {
    /// The levels of blocks, loops and ifs.
    pub levels: u32,
    pub parentheses: u32,
}

impl Room {
    ghost use Rattle.std.specs.Prelude.{◌≡◌, ◌<◌, ◌-◌};

    // Returns the nesting that remains inside one more parenthesis.
    fn in_parenthesis(self) -> Room
        requires { 0 < self.parentheses }
    {
        Room {
            levels: self.levels,
            parentheses: self.parentheses - 1,
        }
    }

    // Returns the nesting that remains inside one more block.
    fn in_block(self) -> Room
        requires { 0 < self.levels }
        ensures levels { result.levels ≡ self.levels - 1 }
        ensures parentheses { result.parentheses ≡ self.parentheses }
    {
        Room {
            levels: self.levels - 1,
            parentheses: self.parentheses,
        }
    }
}

// Reports whether the next token ends a sequence.
fn is_stop(parser: &Parser<'_>) -> bool
    ensures { result ≡ stops parser.now.0 }
{
    matches!(
        parser.rest,
        [] | [Token::Close | Token::Key(Keyword::End | Keyword::Else), ..]
    )
}

/// Reads instructions up to the token that ends them.
#[tactic(auto, unfolding(crate::specs::inside::ReadingCode::code_at))]
pub fn sequence(parser: &mut Parser<'_>, room: Room) -> Result<Body, Failure>
    ensures { GoesOn parser.old parser.new result (InRoom room (GivesAny (code_at room.levels))) }
{
    let mut instrs = Vec::new(parser.alloc);
    instructions(parser, room, &mut instrs)?;
    Ok(Body::from(instrs))
}

// Adds all instructions up to the token that ends them.
#[cycle(parser)]
#[tactic(auto, unfolding(crate::specs::inside::ReadingCode::instrs_at))]
fn instructions(parser: &mut Parser<'_>, room: Room, instrs: &mut Vec<Instr>) -> Result<(), Failure>
    ensures { GoesOn parser.old parser.new result
        (InRoom room (AddsAny instrs.old instrs.new (instrs_at room.levels))) }
{
    'each: while !is_stop(parser) {
        if parser.is_open() {
            folded(parser, room, instrs)?;
        } else {
            let instr = instruction(parser, room)?;
            instrs.push(instr)?;
        }
    }
    Ok(())
}

// Reads one instruction that is not folded.
#[cycle(parser)]
#[tactic(auto, unfolding(crate::specs::inside::ReadingCode::instr_with))]
fn instruction(parser: &mut Parser<'_>, room: Room) -> Result<Instr, Failure>
    ensures { Advances parser.old parser.new result
        (InRoom room (GivesAny (instr_in room.levels))) }
{
    match parser.rest {
        [Token::Key(keyword), rest @ ..] => {
            parser.rest = rest;
            linear(parser, room, *keyword)
        }
        _ => Err(parser.unexpected()),
    }
}

// Reads an instruction that is not folded, after its keyword.
#[cycle(parser)]
#[tactic(auto, unfolding(crate::specs::inside::ReadingCode::linear_with, crate::specs::inside::ReadingCode::block_with, crate::specs::inside::ReadingCode::loop_with))]
fn linear(parser: &mut Parser<'_>, room: Room, keyword: Keyword) -> Result<Instr, Failure>
    ensures { GoesOn parser.old parser.new result
        (InRoom room (GivesAny (linear_in room.levels keyword))) }
{
    match keyword {
        Keyword::Block => {
            let (name, given) = header(parser, room)?;
            let body = ended_body(parser, room, name)?;
            Ok(Instr::Block(given, body))
        }
        Keyword::Loop => {
            let (name, given) = header(parser, room)?;
            let body = ended_body(parser, room, name)?;
            Ok(Instr::Loop(given, body))
        }
        Keyword::If => choice(parser, room),
        _ => parser.plain(keyword, room.parentheses),
    }
}

// Reads the name of a block and the type of its result, after its keyword.
#[tactic(auto, unfolding(crate::specs::inside::ReadingCode::header_at))]
fn header(parser: &mut Parser<'_>, room: Room) -> Result<(Option<u32>, BlockType), Failure>
    ensures { GoesOn parser.old parser.new result (InRoom room (Shows (λ x. x.1) header_at)) }
{
    let name = parser.name();
    let given = parser.block_type(room.parentheses)?;
    Ok((name, given))
}

// Reads the instructions in a block of this name, and its `end`.
#[cycle(parser)]
#[tactic(auto, unfolding(crate::specs::inside::ReadingCode::ended_with))]
fn ended_body(parser: &mut Parser<'_>, room: Room, name: Option<u32>) -> Result<Body, Failure>
    ensures { GoesOn parser.old parser.new result (InRoom room (GivesAny (ended_in room.levels))) }
{
    let body = inner(parser, room, name)?;
    ended(parser, name)?;
    Ok(body)
}

// Reads what follows `if`.
#[cycle(parser)]
#[tactic(auto, unfolding(crate::specs::inside::ReadingCode::if_with))]
fn choice(parser: &mut Parser<'_>, room: Room) -> Result<Instr, Failure>
    ensures { GoesOn parser.old parser.new result (InRoom room (GivesAny (if_in room.levels))) }
{
    let (name, given) = header(parser, room)?;
    let body = inner(parser, room, name)?;
    let other = other_arm(parser, room, name)?;
    Ok(Instr::If(given, body, other))
}

// Reads the arm for 0 of an `if`, and the `end`.
#[cycle(parser)]
#[tactic(auto, unfolding(crate::specs::inside::ReadingCode::other_with))]
fn other_arm(parser: &mut Parser<'_>, room: Room, name: Option<u32>) -> Result<Body, Failure>
    ensures { GoesOn parser.old parser.new result (InRoom room (GivesAny (other_in room.levels))) }
{
    let other = else_arm(parser, room, name)?;
    ended(parser, name)?;
    Ok(other)
}

// Reads the arm after `else`, which is empty where there is no `else`.
#[cycle(parser)]
#[tactic(auto, unfolding(crate::specs::inside::ReadingCode::else_with))]
fn else_arm(parser: &mut Parser<'_>, room: Room, name: Option<u32>) -> Result<Body, Failure>
    ensures { GoesOn parser.old parser.new result (InRoom room (GivesAny (else_in room.levels))) }
{
    match parser.rest {
        [Token::Key(Keyword::Else), rest @ ..] => {
            parser.rest = rest;
            same_label(parser, name)?;
            inner(parser, room, name)
        }
        _ => Ok(Body::empty(parser.alloc)),
    }
}

// Reads the `end` of a block with this name.
#[tactic(auto, unfolding(crate::specs::inside::ReadingCode::end_at))]
fn ended(parser: &mut Parser<'_>, name: Option<u32>) -> Result<(), Failure>
    ensures { Advances parser.old parser.new result (Passes end_at) }
{
    match parser.rest {
        [Token::Key(Keyword::End), rest @ ..] => {
            parser.rest = rest;
            same_label(parser, name)
        }
        _ => Err(parser.unexpected()),
    }
}

// Skips a label that repeats this one, where there is one.
#[tactic(auto, unfolding(crate::specs::inside::Reading::unnamed_at))]
fn same_label(parser: &mut Parser<'_>, name: Option<u32>) -> Result<(), Failure>
    ensures { GoesOn parser.old parser.new result (Passes unnamed_at) }
{
    match parser.rest {
        [Token::Name(again), rest @ ..] => {
            if name != Some(*again) {
                return Err(parser.fault(FaultKind::UnknownName));
            }
            parser.rest = rest;
            Ok(())
        }
        _ => Ok(()),
    }
}

// Reads the instructions in a block of this name.
#[cycle(parser)]
#[tactic(auto, unfolding(crate::specs::inside::ReadingCode::inner_at, crate::specs::inside::ReadingCode::instrs_at))]
fn inner(parser: &mut Parser<'_>, room: Room, name: Option<u32>) -> Result<Body, Failure>
    ensures { GoesOn parser.old parser.new result (InRoom room (GivesAny (inner_at room.levels))) }
{
    if room.levels == 0 {
        return Err(parser.fault(FaultKind::OverLimit));
    }
    parser.labels.push(name)?;
    let mut instrs = Vec::new(parser.alloc);
    instructions(parser, room.in_block(), &mut instrs)?;
    let _ = parser.labels.pop();
    Ok(Body::from(instrs))
}

/// Reads a folded instruction, and adds its operands and then itself to `instrs`.
#[cycle(parser)]
pub fn folded(parser: &mut Parser<'_>, room: Room, instrs: &mut Vec<Instr>) -> Result<(), Failure>
    ensures shrinks { Fewer parser.old parser.new result }
{
    if room.parentheses == 0 {
        return Err(parser.fault(FaultKind::OverLimit));
    }
    let keyword = folded_keyword(parser)?;
    let instr = unfolded(parser, room.in_parenthesis(), keyword, instrs)?;
    instrs.push(instr)?;
    parser.close()
}

// Skips the parenthesis of a folded instruction, and returns its keyword.
fn folded_keyword(parser: &mut Parser<'_>) -> Result<Keyword, Failure>
    ensures shrinks { Fewer parser.old parser.new result }
{
    let [Token::Open, inside @ ..] = parser.rest else {
        return Err(parser.unexpected());
    };
    parser.rest = inside;
    match inside {
        [Token::Key(keyword), rest @ ..] => {
            parser.rest = rest;
            Ok(*keyword)
        }
        _ => Err(parser.unexpected()),
    }
}

// Reads a folded instruction, after its keyword and without its closing parenthesis. Adds its operands to `instrs`.
#[cycle(parser)]
fn unfolded(
    parser: &mut Parser<'_>,
    room: Room,
    keyword: Keyword,
    instrs: &mut Vec<Instr>,
) -> Result<Instr, Failure>
    ensures shrinks { NoMore parser.old parser.new result }
{
    match keyword {
        Keyword::Block | Keyword::Loop => {
            let (name, given) = header(parser, room)?;
            let body = inner(parser, room, name)?;
            Ok(block_of(keyword, given, body))
        }
        Keyword::If => folded_choice(parser, room, instrs),
        _ => {
            let instr = parser.plain(keyword, room.parentheses)?;
            operands(parser, room, instrs)?;
            Ok(instr)
        }
    }
}

// Returns the loop with this body, or the block where the keyword is not that of loops.
fn block_of(keyword: Keyword, given: BlockType, body: Body) -> Instr {
    match keyword {
        Keyword::Loop => Instr::Loop(given, body),
        _ => Instr::Block(given, body),
    }
}

// Reads the operands of a folded instruction.
#[cycle(parser)]
fn operands(parser: &mut Parser<'_>, room: Room, instrs: &mut Vec<Instr>) -> Result<(), Failure>
    ensures shrinks { NoMore parser.old parser.new result }
{
    'each: while is_operand(parser) {
        folded(parser, room, instrs)?;
    }
    Ok(())
}

// Reports whether a parenthesis opens that is not that of `then`.
fn is_operand(parser: &Parser<'_>) -> bool {
    match parser.opening() {
        Some(Keyword::Then) => false,
        _ => parser.is_open(),
    }
}

// Reads a folded `if`, after its keyword. Its label is not in scope in its condition.
#[cycle(parser)]
fn folded_choice(
    parser: &mut Parser<'_>,
    room: Room,
    instrs: &mut Vec<Instr>,
) -> Result<Instr, Failure>
    ensures shrinks { NoMore parser.old parser.new result }
{
    let (name, given) = header(parser, room)?;
    operands(parser, room, instrs)?;
    if room.parentheses == 0 {
        return Err(parser.fault(FaultKind::OverLimit));
    }
    let room = room.in_parenthesis();
    let body = then_arm(parser, room, name)?;
    let other = folded_else(parser, room, name)?;
    Ok(Instr::If(given, body, other))
}

// Reads the arm in `(then ..)`.
#[cycle(parser)]
fn then_arm(parser: &mut Parser<'_>, room: Room, name: Option<u32>) -> Result<Body, Failure>
    ensures shrinks { NoMore parser.old parser.new result }
{
    match parser.opening() {
        Some(Keyword::Then) => arm(parser, room, name),
        _ => Err(parser.unexpected()),
    }
}

// Reads the arm in `(else ..)`, which is empty where there is none.
#[cycle(parser)]
fn folded_else(parser: &mut Parser<'_>, room: Room, name: Option<u32>) -> Result<Body, Failure>
    ensures shrinks { NoMore parser.old parser.new result }
{
    match parser.opening() {
        Some(Keyword::Else) => arm(parser, room, name),
        _ => Ok(Body::empty(parser.alloc)),
    }
}

// Reads the instructions in the next parenthesis, of a folded `if` of this name.
#[cycle(parser)]
fn arm(parser: &mut Parser<'_>, room: Room, name: Option<u32>) -> Result<Body, Failure>
    ensures shrinks { NoMore parser.old parser.new result }
{
    parser.enter();
    let body = inner(parser, room, name)?;
    parser.closed(body)
}
