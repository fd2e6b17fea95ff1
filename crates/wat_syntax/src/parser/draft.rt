//! The draft of a module.

use crate::parser::names::Kind;
use std::alloc::Global as Heap;
use wasm_ast::{
    Data, Element, Export, ExportDescription, FuncType, Function, Global, Import,
    ImportDescription, Limits, Module, Sequence,
};

/// The contents of the fields that were read so far, except types.
#[derive(Drop)]
pub struct Draft {
    pub imports: Vec<Import>,
    pub functions: Vec<Function>,
    pub tables: Vec<Limits>,
    pub memories: Vec<Limits>,
    pub globals: Vec<Global>,
    pub exports: Vec<Export>,
    pub start: Option<u32>,
    pub elements: Vec<Element>,
    pub segments: Vec<Data>,
    /// The number of imports of each kind.
    pub imported: Imported,
}

/// The number of imports of each kind.
#[derive(Clone, Copy)]
pub struct Imported {
    pub functions: usize,
    pub tables: usize,
    pub memories: usize,
    pub globals: usize,
}

impl Draft {
    ghost use Rattle.std.specs.Prelude.{◌≡◌};
    ghost use Rattle.wasm_ast.specs.Modules.{empty_module};
    ghost use Rattle.wat_syntax.specs.inside.ReadingModule.{drafted, has_definition, with_types};

    /// Creates an empty draft. It allocates nothing.
    pub fn new(alloc: Heap) -> Draft
        ensures { drafted result ≡ empty_module }
    {
        Draft {
            imports: Vec::new(alloc),
            functions: Vec::new(alloc),
            tables: Vec::new(alloc),
            memories: Vec::new(alloc),
            globals: Vec::new(alloc),
            exports: Vec::new(alloc),
            start: None,
            elements: Vec::new(alloc),
            segments: Vec::new(alloc),
            imported: Imported {
                functions: 0,
                tables: 0,
                memories: 0,
                globals: 0,
            },
        }
    }

    /// Reports whether a function, table, memory or global is defined. No import may follow one.
    pub fn has_definition(&self) -> bool
        ensures { result ≡ has_definition (drafted self.now) }
    {
        !(self.functions.is_empty()
            && self.tables.is_empty()
            && self.memories.is_empty()
            && self.globals.is_empty())
    }

    /// Counts an import of this kind.
    pub fn count_import(&mut self, description: ImportDescription)
        ensures { drafted self.new ≡ drafted self.old }
    {
        let count = &mut self.imported;
        match description {
            ImportDescription::Function(_) => count.functions = count.functions.saturating_add(1),
            ImportDescription::Table(_) => count.tables = count.tables.saturating_add(1),
            ImportDescription::Memory(_) => count.memories = count.memories.saturating_add(1),
            ImportDescription::Global(_) => count.globals = count.globals.saturating_add(1),
        }
    }

    /// Returns the export of the item of this kind that is defined next, where there is one.
    pub fn next_export(&self, kind: Kind) -> Option<ExportDescription> {
        let (imported, defined) = match kind {
            Kind::Function => (self.imported.functions, self.functions.len()),
            Kind::Table => (self.imported.tables, self.tables.len()),
            Kind::Memory => (self.imported.memories, self.memories.len()),
            Kind::Global => (self.imported.globals, self.globals.len()),
            _ => return None,
        };
        let number = u32::try_from(imported.checked_add(defined)?).ok()?;
        match kind {
            Kind::Function => Some(ExportDescription::Function(number)),
            Kind::Table => Some(ExportDescription::Table(number)),
            Kind::Memory => Some(ExportDescription::Memory(number)),
            Kind::Global => Some(ExportDescription::Global(number)),
            _ => None,
        }
    }

    /// Makes a module of the draft and these types.
    pub fn into_module(self, types: Vec<FuncType>) -> Module
        ensures { result ≡ with_types (drafted self) types.items }
    {
        Module {
            types: Sequence::from(types),
            imports: Sequence::from(self.imports),
            functions: Sequence::from(self.functions),
            tables: Sequence::from(self.tables),
            memories: Sequence::from(self.memories),
            globals: Sequence::from(self.globals),
            exports: Sequence::from(self.exports),
            start: self.start,
            elements: Sequence::from(self.elements),
            data: Sequence::from(self.segments),
        }
    }
}
