//! Modules (Core 1.0, 2.5). In the index spaces of functions, tables, memories and globals, the imports come
//! first.

use crate::body::Body;
use crate::copies::Duplicate;
use crate::sequence::{Name, Sequence};
use crate::types::{FuncType, GlobalType, Limits, ValType};
use std::alloc::{AllocError, Global as Heap};

/// The kind and the type of an import (Core 1.0, 2.5.11).
#[derive(Clone, Copy, PartialEq, Eq)]
pub enum ImportDescription {
    /// A function of the type with this index.
    Function(u32),
    Table(Limits),
    Memory(Limits),
    Global(GlobalType),
}

/// An import (Core 1.0, 2.5.11).
#[derive(Drop)]
pub struct Import {
    pub module: Name,
    pub name: Name,
    pub description: ImportDescription,
}

/// A function that the module defines (Core 1.0, 2.5.3).
#[derive(Drop)]
pub struct Function {
    /// The index of its type.
    pub type_number: u32,
    /// The locals. In the index space of locals, the parameters come before them.
    pub locals: Sequence<ValType>,
    pub body: Body,
}

/// A global that the module defines (Core 1.0, 2.5.6).
#[derive(Drop)]
pub struct Global {
    pub global_type: GlobalType,
    pub initial: Body,
}

/// The kind and the index of an export (Core 1.0, 2.5.10).
#[derive(Clone, Copy, PartialEq, Eq)]
pub enum ExportDescription {
    Function(u32),
    Table(u32),
    Memory(u32),
    Global(u32),
}

/// An export (Core 1.0, 2.5.10).
#[derive(Drop)]
pub struct Export {
    pub name: Name,
    pub description: ExportDescription,
}

/// An element segment: functions that fill a table from an offset on (Core 1.0, 2.5.7).
#[derive(Drop)]
pub struct Element {
    pub table: u32,
    pub offset: Body,
    pub functions: Sequence<u32>,
}

/// A data segment: bytes that fill a memory from an offset on (Core 1.0, 2.5.8).
#[derive(Drop)]
pub struct Data {
    pub memory: u32,
    pub offset: Body,
    pub bytes: Sequence<u8>,
}

/// A module (Core 1.0, 2.5). Tables hold functions and memories hold bytes.
pub struct Module {
    pub types: Sequence<FuncType>,
    pub imports: Sequence<Import>,
    pub functions: Sequence<Function>,
    pub tables: Sequence<Limits>,
    pub memories: Sequence<Limits>,
    pub globals: Sequence<Global>,
    pub exports: Sequence<Export>,
    pub start: Option<u32>,
    pub elements: Sequence<Element>,
    pub data: Sequence<Data>,
}

impl Drop for Module {
    fn drop(self) {
        let Module {
            types: _,
            imports: _,
            functions: _,
            tables: _,
            memories: _,
            globals: _,
            exports: _,
            start: _,
            elements: _,
            data: _,
        } = self;
    }
}

impl Module {
    ghost use Rattle.std.specs.Prelude.{◌≡◌, [], None, IfOk};
    ghost use Rattle.wasm_ast.specs.Modules.{empty_module};

    /// Creates a module with no contents. It allocates nothing.
    pub fn empty(alloc: Heap) -> Module
        ensures { result ≡ empty_module }
    {
        Module {
            types: Sequence::empty(alloc),
            imports: Sequence::empty(alloc),
            functions: Sequence::empty(alloc),
            tables: Sequence::empty(alloc),
            memories: Sequence::empty(alloc),
            globals: Sequence::empty(alloc),
            exports: Sequence::empty(alloc),
            start: None,
            elements: Sequence::empty(alloc),
            data: Sequence::empty(alloc),
        }
    }

    /// Copies the module. It fails only where an allocation fails.
    pub fn copy(&self, alloc: Heap) -> Result<Module, AllocError>
        ensures { IfOk result (λ copy. copy ≡ self.now) }
    {
        self.duplicate(alloc)
    }
}
