//! Tests of whether two values of the syntax are the same.

ghost use Rattle.std.specs.Prelude.{◌≡◌, ◌↔◌, IsTrue};

use crate::body::{Body, Instr};
use crate::module::{Data, Element, Export, Function, Global, Import, Module};
use crate::plain::{Branch, Plain};
use crate::sequence::{Name, Sequence};
use crate::types::{FuncType, Limits, ValType};

/// A type whose values can be compared exactly.
pub trait Same {
    ghost use Rattle.std.specs.Prelude.{◌≡◌, ◌↔◌, IsTrue};
    ghost use Rattle.std.specs.Coded.{Coded};
    ghost use Rattle.wasm_ast.specs.inside.Same.{same_by};

    ghost stored: { Coded Self };

    fn is_same(&self, other: &Self) -> bool
        ensures { IsTrue result ↔ (self.now ≡ other.now) };

    final fn equals(&self, other: &Self) -> bool
        ensures value { result ≡ same_by stored self.now other.now }
        ensures exact { IsTrue result ↔ (self.now ≡ other.now) }
    {
        self.is_same(other)
    }
}

fn are_same<T: Same>(left: &[T], right: &[T]) -> bool
    ensures { IsTrue result ↔ (left.now ≡ right.now) }
{
    for (place, item) in left.iter().enumerate() {
        let Some(other) = right.get(place) else {
            return false;
        };
        if !item.is_same(other) {
            return false;
        }
    }
    right.len() == left.len()
}

impl<T: Same> Same for Sequence<T> {
    ghost use Rattle.std.specs.Coded.{coded_list};

    ghost stored = { coded_list T.stored };

    fn is_same(&self, other: &Sequence<T>) -> bool {
        are_same(self.as_slice(), other.as_slice())
    }
}

impl Same for u8 {
    ghost use Rattle.std.specs.Coded.{coded_ℕ};

    ghost stored = { coded_ℕ };

    fn is_same(&self, other: &u8) -> bool {
        self == other
    }
}

impl Same for u32 {
    ghost use Rattle.std.specs.Coded.{coded_ℕ};

    ghost stored = { coded_ℕ };

    fn is_same(&self, other: &u32) -> bool {
        self == other
    }
}

impl Same for ValType {
    ghost use Rattle.wasm_ast.specs.contracts.types.ValType as row;

    ghost stored = { row.the_row.coded };

    fn is_same(&self, other: &ValType) -> bool {
        self == other
    }
}

impl Same for Limits {
    ghost use Rattle.wasm_ast.specs.contracts.types.Limits as row;

    ghost stored = { row.the_row.coded };

    fn is_same(&self, other: &Limits) -> bool {
        self == other
    }
}

impl Same for Plain {
    ghost use Rattle.wasm_ast.specs.contracts.plain.Plain as row;

    ghost stored = { row.the_row.coded };

    fn is_same(&self, other: &Plain) -> bool {
        self == other
    }
}

impl Same for Name {
    ghost use Rattle.wasm_ast.specs.inside.Stored.{stored_name};

    ghost stored = { stored_name };

    fn is_same(&self, other: &Name) -> bool {
        self.as_str() == other.as_str()
    }
}

impl Same for FuncType {
    ghost use Rattle.wasm_ast.specs.inside.Stored.{stored_func_type};

    ghost stored = { stored_func_type };

    fn is_same(&self, other: &FuncType) -> bool {
        self.parameters.is_same(&other.parameters) && self.results.is_same(&other.results)
    }
}

impl Same for Import {
    ghost use Rattle.wasm_ast.specs.inside.Stored.{stored_import};

    ghost stored = { stored_import };

    fn is_same(&self, other: &Import) -> bool {
        self.module.is_same(&other.module)
            && self.name.is_same(&other.name)
            && self.description == other.description
    }
}

impl Same for Function {
    ghost use Rattle.wasm_ast.specs.inside.Stored.{stored_function};

    ghost stored = { stored_function };

    fn is_same(&self, other: &Function) -> bool {
        self.type_number == other.type_number
            && self.locals.is_same(&other.locals)
            && self.body.is_same(&other.body)
    }
}

impl Same for Global {
    ghost use Rattle.wasm_ast.specs.inside.Stored.{stored_global};

    ghost stored = { stored_global };

    fn is_same(&self, other: &Global) -> bool {
        self.global_type == other.global_type && self.initial.is_same(&other.initial)
    }
}

impl Same for Export {
    ghost use Rattle.wasm_ast.specs.inside.Stored.{stored_export};

    ghost stored = { stored_export };

    fn is_same(&self, other: &Export) -> bool {
        self.name.is_same(&other.name) && self.description == other.description
    }
}

impl Same for Element {
    ghost use Rattle.wasm_ast.specs.inside.Stored.{stored_element};

    ghost stored = { stored_element };

    fn is_same(&self, other: &Element) -> bool {
        self.table == other.table
            && self.offset.is_same(&other.offset)
            && self.functions.is_same(&other.functions)
    }
}

impl Same for Data {
    ghost use Rattle.wasm_ast.specs.inside.Stored.{stored_data};

    ghost stored = { stored_data };

    fn is_same(&self, other: &Data) -> bool {
        self.memory == other.memory
            && self.offset.is_same(&other.offset)
            && self.bytes.is_same(&other.bytes)
    }
}

impl Same for Module {
    ghost use Rattle.wasm_ast.specs.inside.Stored.{stored_module};

    ghost stored = { stored_module };

    fn is_same(&self, other: &Module) -> bool {
        self.types.is_same(&other.types)
            && self.imports.is_same(&other.imports)
            && self.functions.is_same(&other.functions)
            && self.tables.is_same(&other.tables)
            && self.memories.is_same(&other.memories)
            && self.globals.is_same(&other.globals)
            && self.exports.is_same(&other.exports)
            && self.start == other.start
            && self.elements.is_same(&other.elements)
            && self.data.is_same(&other.data)
    }
}

impl Same for Branch {
    ghost use Rattle.wasm_ast.specs.inside.Stored.{stored_branch};

    ghost stored = { stored_branch };

    fn is_same(&self, other: &Branch) -> bool {
        match (self, other) {
            (Branch::Br(left), Branch::Br(right)) => left == right,
            (Branch::BrIf(left), Branch::BrIf(right)) => left == right,
            (Branch::BrTable(labels, default), Branch::BrTable(other_labels, other_default)) => {
                labels.is_same(other_labels) && default == other_default
            }
            (Branch::Return, Branch::Return) => true,
            _ => false,
        }
    }
}

impl Same for Instr {
    ghost use Rattle.wasm_ast.specs.inside.Stored.{stored_instr};

    ghost stored = { stored_instr };

    fn is_same(&self, other: &Instr) -> bool {
        are_same_instrs(self, other)
    }
}

impl Same for Body {
    ghost use Rattle.wasm_ast.specs.inside.Stored.{stored_body};

    ghost stored = { stored_body };

    fn is_same(&self, other: &Body) -> bool {
        are_same_bodies(self, other)
    }
}

#[cycle(same)]
fn are_same_bodies(left: &Body, right: &Body) -> bool
    ensures { IsTrue result ↔ (left.now ≡ right.now) }
{
    let instrs = left.as_slice();
    let others = right.as_slice();
    for (place, instr) in instrs.iter().enumerate() {
        let Some(other) = others.get(place) else {
            return false;
        };
        if !are_same_instrs(instr, other) {
            return false;
        }
    }
    // `others` has no instruction past those of `instrs`.
    others.len() <= instrs.len()
}

#[cycle(same)]
fn are_same_instrs(left: &Instr, right: &Instr) -> bool
    ensures { IsTrue result ↔ (left.now ≡ right.now) }
{
    match (left, right) {
        (Instr::Plain(left), Instr::Plain(right)) => left.is_same(right),
        (Instr::Branch(left), Instr::Branch(right)) => left.is_same(right),
        (Instr::Call(left), Instr::Call(right)) => left == right,
        (Instr::CallIndirect(left), Instr::CallIndirect(right)) => left == right,
        (Instr::Unreachable, Instr::Unreachable) => true,
        (Instr::Block(gives, body), Instr::Block(other_gives, other_body)) => {
            gives == other_gives && are_same_bodies(body, other_body)
        }
        (Instr::Loop(gives, body), Instr::Loop(other_gives, other_body)) => {
            gives == other_gives && are_same_bodies(body, other_body)
        }
        (Instr::If(gives, body, or), Instr::If(other_gives, other_body, other_or)) => {
            gives == other_gives
                && are_same_bodies(body, other_body)
                && are_same_bodies(or, other_or)
        }
        _ => false,
    }
}
