//! The printer of instructions.

ghost use Rattle.std.specs.Prelude.{◌≡◌, ◌↔◌, ◌≤◌, ◌-◌, ◌∷◌, ◌^◌, IsTrue};
ghost use Rattle.wasm_ast.specs.Code.{end};
ghost use Rattle.wasm_ast.specs.View.{then_code};
ghost use Rattle.wasm_ast.specs.Limits.{IsMemoryWithin, IsPlainWithin, IsCodeWithin, max_align};
ghost use Rattle.wat_syntax.specs.inside.Writing.{Writes};
ghost use Rattle.wat_syntax.specs.Pieces.{counts, each, says};
ghost use Rattle.wat_syntax.specs.Instructions.{HasRoom, align_part, block_type, branch_line, code, constant_line, deeper, else_line, memory_argument, memory_line, number, offset_part, plain_line, type_use, variable_line};

use crate::keyword::Keyword;
use crate::pieces::{
    Gap, Part, write_closing, write_count, write_each, write_i32, write_i64, write_keyword,
    write_number_in, write_opening,
};
use line_text::TextBuilder;
use wasm_ast::{
    BlockType, Body, Branch, Instr, Memory, MemoryArgument, Plain, ValType, Value, Variable,
};

/// Writes a reference to a type, as `(type 0)`.
pub fn write_type_use(text: &mut TextBuilder, type_number: u32)
    ensures { Writes text.old text.new (type_use type_number) }
{
    write_number_in(text, Gap::Space, Keyword::FuncType, type_number);
}

/// Writes a number with a blank before it.
impl Part for u32 {
    type Of = u32;

    ghost pieces = { number };

    fn write(text: &mut TextBuilder, n: &u32) {
        write_count(text, *n);
    }
}

fn write_numbered(text: &mut TextBuilder, gap: Gap, keyword: Keyword, n: u32)
    ensures { Writes text.old text.new (λ more. says gap keyword ∷ counts n ∷ more) }
{
    write_keyword(text, gap, keyword);
    write_count(text, n);
}

fn write_variable(text: &mut TextBuilder, gap: Gap, op: Variable)
    ensures { Writes text.old text.new (variable_line gap op) }
{
    match op {
        Variable::LocalGet(n) => write_numbered(text, gap, Keyword::LocalGet, n),
        Variable::LocalSet(n) => write_numbered(text, gap, Keyword::LocalSet, n),
        Variable::LocalTee(n) => write_numbered(text, gap, Keyword::LocalTee, n),
        Variable::GlobalGet(n) => write_numbered(text, gap, Keyword::GlobalGet, n),
        Variable::GlobalSet(n) => write_numbered(text, gap, Keyword::GlobalSet, n),
    }
}

// Writes an offset that is not 0.
#[tactic(auto, unfolding(crate::specs::Pieces::text))]
fn write_offset_part(text: &mut TextBuilder, offset: u32)
    ensures { Writes text.old text.new (offset_part offset) }
{
    if offset != 0 {
        text.put(" offset=");
        text.show(&offset);
    }
}

// Writes an alignment, in bytes, that is not the width.
#[tactic(auto, unfolding(crate::specs::Pieces::text))]
fn write_align_part(text: &mut TextBuilder, alignment: u32, width: u32)
    ensures { Writes text.old text.new (align_part alignment width) }
{
    if alignment != width {
        text.put(" align=");
        text.show(&alignment);
    }
}

// Returns 2 to the power `align`.
fn alignment(align: u32) -> u32
    requires { align ≤ max_align }
    ensures { result ≡ 2 ^ align }
{
    1 << align
}

fn write_memory_argument(text: &mut TextBuilder, width: u32, argument: MemoryArgument)
    requires { argument.align ≤ max_align }
    ensures { Writes text.old text.new (memory_argument width argument) }
{
    write_offset_part(text, argument.offset);
    write_align_part(text, alignment(argument.align), width);
}

fn write_memory(text: &mut TextBuilder, gap: Gap, op: Memory)
    requires { IsMemoryWithin op }
    ensures { Writes text.old text.new (memory_line gap op) }
{
    match op {
        Memory::Load(load, argument) => {
            write_keyword(text, gap, Keyword::Load(load));
            write_memory_argument(text, load.width(), argument);
        }
        Memory::Store(store, argument) => {
            write_keyword(text, gap, Keyword::Store(store));
            write_memory_argument(text, store.width(), argument);
        }
        Memory::Size => write_keyword(text, gap, Keyword::MemorySize),
        Memory::Grow => write_keyword(text, gap, Keyword::MemoryGrow),
    }
}

fn write_constant(text: &mut TextBuilder, gap: Gap, value: Value)
    ensures { Writes text.old text.new (constant_line gap value) }
{
    match value {
        Value::I32(x) => {
            write_keyword(text, gap, Keyword::Const(ValType::I32));
            write_i32(text, x.cast_signed());
        }
        Value::I64(x) => {
            write_keyword(text, gap, Keyword::Const(ValType::I64));
            write_i64(text, x.cast_signed());
        }
    }
}

fn write_plain(text: &mut TextBuilder, gap: Gap, plain: Plain)
    requires { IsPlainWithin plain }
    ensures { Writes text.old text.new (plain_line gap plain) }
{
    match plain {
        Plain::Nop => write_keyword(text, gap, Keyword::Nop),
        Plain::Drop => write_keyword(text, gap, Keyword::Drop),
        Plain::Select => write_keyword(text, gap, Keyword::Select),
        Plain::Const(value) => write_constant(text, gap, value),
        Plain::Numeric(op) => write_keyword(text, gap, Keyword::Numeric(op)),
        Plain::Variable(op) => write_variable(text, gap, op),
        Plain::Memory(op) => write_memory(text, gap, op),
    }
}

#[tactic(auto, using(crate::proofs::Codes::all_held))]
fn write_branch(text: &mut TextBuilder, gap: Gap, branch: &Branch)
    ensures { Writes text.old text.new (branch_line gap branch.now) }
{
    match branch {
        Branch::Br(label) => write_numbered(text, gap, Keyword::Br, *label),
        Branch::BrIf(label) => write_numbered(text, gap, Keyword::BrIf, *label),
        Branch::BrTable(labels, default) => {
            write_keyword(text, gap, Keyword::BrTable);
            write_each::<u32>(text, labels.as_slice());
            write_count(text, *default);
        }
        Branch::Return => write_keyword(text, gap, Keyword::Return),
    }
}

fn write_block_type(text: &mut TextBuilder, given: BlockType)
    ensures { Writes text.old text.new (block_type given) }
{
    if let Some(t) = given {
        write_opening(text, Gap::Space, Keyword::Result);
        write_keyword(text, Gap::Space, Keyword::Type(t));
        write_closing(text);
    }
}

impl Gap {
    ghost use Rattle.std.specs.Prelude.{◌≡◌};
    ghost use Rattle.wat_syntax.specs.Instructions.{HasRoom, deeper};

    // Returns the gap one level further in, where instructions have lines of their own.
    fn deeper(self, levels: u32) -> Gap
        requires room { HasRoom self levels }
        requires some { 1 ≤ levels }
        ensures { result ≡ deeper self }
    {
        match self {
            Gap::Nothing => Gap::Nothing,
            Gap::Space => Gap::Space,
            Gap::Line(level) => Gap::Line(level + 1),
        }
    }
}

/// Writes instructions, each with this gap before it. At most `levels` blocks may be inside each other, and the recursion
/// goes no deeper.
#[cycle(code)]
pub fn write_code(text: &mut TextBuilder, gap: Gap, levels: u32, body: &Body)
    requires room { HasRoom gap levels }
    requires within { IsCodeWithin levels body.now }
    ensures { Writes text.old text.new (code gap body.now) }
{
    for instr in body.as_slice() {
        write_instr(text, gap, levels, instr);
    }
}

// Writes a block's keyword, its type and its instructions.
#[cycle(code)]
fn write_block(
    text: &mut TextBuilder,
    gap: Gap,
    levels: u32,
    keyword: Keyword,
    given: BlockType,
    body: &Body,
)
    requires room { HasRoom gap levels }
    requires some { 1 ≤ levels }
    requires within { IsCodeWithin (levels - 1) body.now }
    ensures { Writes text.old text.new
        (λ more. says gap keyword ∷ block_type given (code (deeper gap) body.now more)) }
{
    write_keyword(text, gap, keyword);
    write_block_type(text, given);
    write_code(text, gap.deeper(levels), levels - 1, body);
}

fn is_empty(body: &Body) -> bool
    ensures { IsTrue result ↔ (body.now ≡ end) }
{
    body.as_slice().is_empty()
}

fn write_else_word(text: &mut TextBuilder, gap: Gap, other: &Body)
    ensures { Writes text.old text.new (else_line gap other.now) }
{
    if !is_empty(other) {
        write_keyword(text, gap, Keyword::Else);
    }
}

// Writes `else` and the arm for 0 of an `if`, or nothing where the arm is empty.
#[cycle(code)]
fn write_else(text: &mut TextBuilder, gap: Gap, levels: u32, other: &Body)
    requires room { HasRoom gap levels }
    requires some { 1 ≤ levels }
    requires within { IsCodeWithin (levels - 1) other.now }
    ensures { Writes text.old text.new
        (λ more. else_line gap other.now (code (deeper gap) other.now more)) }
{
    write_else_word(text, gap, other);
    write_code(text, gap.deeper(levels), levels - 1, other);
}

#[cycle(code)]
fn write_instr(text: &mut TextBuilder, gap: Gap, levels: u32, instr: &Instr)
    requires room { HasRoom gap levels }
    requires within { IsCodeWithin levels (then_code instr.now end) }
    ensures { Writes text.old text.new (code gap (then_code instr.now end)) }
{
    match instr {
        Instr::Plain(plain) => write_plain(text, gap, *plain),
        Instr::Branch(branch) => write_branch(text, gap, branch),
        Instr::Call(function) => write_numbered(text, gap, Keyword::Call, *function),
        Instr::CallIndirect(type_number) => {
            write_keyword(text, gap, Keyword::CallIndirect);
            write_type_use(text, *type_number);
        }
        Instr::Unreachable => write_keyword(text, gap, Keyword::Unreachable),
        Instr::Block(given, body) => {
            write_block(text, gap, levels, Keyword::Block, *given, body);
            write_keyword(text, gap, Keyword::End);
        }
        Instr::Loop(given, body) => {
            write_block(text, gap, levels, Keyword::Loop, *given, body);
            write_keyword(text, gap, Keyword::End);
        }
        Instr::If(given, body, other) => {
            write_block(text, gap, levels, Keyword::If, *given, body);
            write_else(text, gap, levels, other);
            write_keyword(text, gap, Keyword::End);
        }
    }
}
