//! Copies of syntax, each equal to its original.

ghost use Rattle.std.specs.Prelude.{◌≡◌, IfOk, OnOk};
ghost use Rattle.wasm_ast.specs.inside.Copies.{with_functions_of, with_segments_of, with_spaces_of};

use crate::body::{Body, Instr};
use crate::module::{Data, Element, Export, Function, Global, Import, Module};
use crate::plain::Branch;
use crate::sequence::{Name, Sequence};
use crate::types::{FuncType, Limits, ValType};
use std::alloc::{AllocError, Global as Heap};

/// A type whose values can be copied. A copy fails only where an allocation fails.
pub trait Duplicate: Drop {
    ghost use Rattle.std.specs.Prelude.{◌≡◌, IfOk};

    fn duplicate(&self, alloc: Heap) -> Result<Self, AllocError>
        ensures { IfOk result (λ copy. copy ≡ self.now) };
}

fn duplicates<T: Duplicate>(items: &[T], alloc: Heap) -> Result<Vec<T>, AllocError>
    ensures { IfOk result (λ copies. copies.items ≡ items.now) }
{
    let mut copies = Vec::with_capacity(alloc, items.len())?;
    for item in items {
        copies.push(item.duplicate(alloc)?)?;
    }
    Ok(copies)
}

fn duplicate_pair<A: Duplicate, B: Duplicate>(
    first: &A,
    second: &B,
    alloc: Heap,
) -> Result<(A, B), AllocError>
    ensures { IfOk result (λ copies. copies ≡ (first.now, second.now)) }
{
    let first = first.duplicate(alloc)?;
    Ok((first, second.duplicate(alloc)?))
}

// Replaces a part of a copy by that of the original.
fn duplicate_onto<T: Duplicate>(part: &T, alloc: Heap, copy: &mut T) -> Result<(), AllocError>
    ensures { OnOk result (copy.new ≡ part.now) }
{
    *copy = part.duplicate(alloc)?;
    Ok(())
}

impl<T: Duplicate> Duplicate for Sequence<T> {
    fn duplicate(&self, alloc: Heap) -> Result<Sequence<T>, AllocError> {
        Ok(Sequence::from(duplicates(self.as_slice(), alloc)?))
    }
}

impl Duplicate for u8 {
    fn duplicate(&self, _alloc: Heap) -> Result<u8, AllocError> {
        Ok(*self)
    }
}

impl Duplicate for u32 {
    fn duplicate(&self, _alloc: Heap) -> Result<u32, AllocError> {
        Ok(*self)
    }
}

impl Duplicate for ValType {
    fn duplicate(&self, _alloc: Heap) -> Result<ValType, AllocError> {
        Ok(*self)
    }
}

impl Duplicate for Limits {
    fn duplicate(&self, _alloc: Heap) -> Result<Limits, AllocError> {
        Ok(*self)
    }
}

impl Duplicate for Name {
    fn duplicate(&self, alloc: Heap) -> Result<Name, AllocError> {
        Ok(Name::from(String::from_str(alloc, self.as_str())?))
    }
}

impl Duplicate for FuncType {
    fn duplicate(&self, alloc: Heap) -> Result<FuncType, AllocError> {
        let (parameters, results) = duplicate_pair(&self.parameters, &self.results, alloc)?;
        Ok(FuncType {
            parameters,
            results,
        })
    }
}

impl Duplicate for Branch {
    fn duplicate(&self, alloc: Heap) -> Result<Branch, AllocError> {
        match self {
            Branch::Br(label) => Ok(Branch::Br(*label)),
            Branch::BrIf(label) => Ok(Branch::BrIf(*label)),
            Branch::BrTable(labels, default) => {
                Ok(Branch::BrTable(labels.duplicate(alloc)?, *default))
            }
            Branch::Return => Ok(Branch::Return),
        }
    }
}

impl Duplicate for Import {
    fn duplicate(&self, alloc: Heap) -> Result<Import, AllocError> {
        let (module, name) = duplicate_pair(&self.module, &self.name, alloc)?;
        Ok(Import {
            module,
            name,
            description: self.description,
        })
    }
}

impl Duplicate for Function {
    fn duplicate(&self, alloc: Heap) -> Result<Function, AllocError> {
        let (locals, body) = duplicate_pair(&self.locals, &self.body, alloc)?;
        Ok(Function {
            type_number: self.type_number,
            locals,
            body,
        })
    }
}

impl Duplicate for Global {
    fn duplicate(&self, alloc: Heap) -> Result<Global, AllocError> {
        Ok(Global {
            global_type: self.global_type,
            initial: self.initial.duplicate(alloc)?,
        })
    }
}

impl Duplicate for Export {
    fn duplicate(&self, alloc: Heap) -> Result<Export, AllocError> {
        Ok(Export {
            name: self.name.duplicate(alloc)?,
            description: self.description,
        })
    }
}

impl Duplicate for Element {
    fn duplicate(&self, alloc: Heap) -> Result<Element, AllocError> {
        let (offset, functions) = duplicate_pair(&self.offset, &self.functions, alloc)?;
        Ok(Element {
            table: self.table,
            offset,
            functions,
        })
    }
}

impl Duplicate for Data {
    fn duplicate(&self, alloc: Heap) -> Result<Data, AllocError> {
        let (offset, bytes) = duplicate_pair(&self.offset, &self.bytes, alloc)?;
        Ok(Data {
            memory: self.memory,
            offset,
            bytes,
        })
    }
}

impl Duplicate for Module {
    fn duplicate(&self, alloc: Heap) -> Result<Module, AllocError> {
        let mut copy = Module::empty(alloc);
        duplicate_functions(self, alloc, &mut copy)?;
        duplicate_spaces(self, alloc, &mut copy)?;
        duplicate_segments(self, alloc, &mut copy)?;
        copy.start = self.start;
        Ok(copy)
    }
}

// Copies the types, the imports and the functions.
fn duplicate_functions(module: &Module, alloc: Heap, copy: &mut Module) -> Result<(), AllocError>
    ensures { OnOk result (copy.new ≡ with_functions_of copy.old «module».now) }
{
    duplicate_onto(&module.types, alloc, &mut copy.types)?;
    duplicate_onto(&module.imports, alloc, &mut copy.imports)?;
    duplicate_onto(&module.functions, alloc, &mut copy.functions)
}

// Copies the tables, the memories, the globals and the exports.
fn duplicate_spaces(module: &Module, alloc: Heap, copy: &mut Module) -> Result<(), AllocError>
    ensures { OnOk result (copy.new ≡ with_spaces_of copy.old «module».now) }
{
    duplicate_onto(&module.tables, alloc, &mut copy.tables)?;
    duplicate_onto(&module.memories, alloc, &mut copy.memories)?;
    duplicate_onto(&module.globals, alloc, &mut copy.globals)?;
    duplicate_onto(&module.exports, alloc, &mut copy.exports)
}

// Copies the element and the data segments.
fn duplicate_segments(module: &Module, alloc: Heap, copy: &mut Module) -> Result<(), AllocError>
    ensures { OnOk result (copy.new ≡ with_segments_of copy.old «module».now) }
{
    duplicate_onto(&module.elements, alloc, &mut copy.elements)?;
    duplicate_onto(&module.data, alloc, &mut copy.data)
}

impl Duplicate for Body {
    fn duplicate(&self, alloc: Heap) -> Result<Body, AllocError> {
        duplicate_body(self, alloc)
    }
}

#[cycle(duplicate)]
fn duplicate_body(body: &Body, alloc: Heap) -> Result<Body, AllocError>
    ensures { IfOk result (λ copy. copy ≡ body.now) }
{
    let instrs = body.as_slice();
    let mut copies = Vec::with_capacity(alloc, instrs.len())?;
    for instr in instrs {
        copies.push(duplicate_instr(instr, alloc)?)?;
    }
    Ok(Body::from(copies))
}

#[cycle(duplicate)]
fn duplicate_instr(instr: &Instr, alloc: Heap) -> Result<Instr, AllocError>
    ensures { IfOk result (λ copy. copy ≡ instr.now) }
{
    match instr {
        Instr::Plain(plain) => Ok(Instr::Plain(*plain)),
        Instr::Branch(branch) => Ok(Instr::Branch(branch.duplicate(alloc)?)),
        Instr::Call(function) => Ok(Instr::Call(*function)),
        Instr::CallIndirect(type_number) => Ok(Instr::CallIndirect(*type_number)),
        Instr::Unreachable => Ok(Instr::Unreachable),
        Instr::Block(gives, body) => Ok(Instr::Block(*gives, duplicate_body(body, alloc)?)),
        Instr::Loop(gives, body) => Ok(Instr::Loop(*gives, duplicate_body(body, alloc)?)),
        Instr::If(gives, body, or) => {
            let body = duplicate_body(body, alloc)?;
            Ok(Instr::If(*gives, body, duplicate_body(or, alloc)?))
        }
    }
}
