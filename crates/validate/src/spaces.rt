//! The index spaces of a module (Core 1.0, 2.5.1).

ghost use Rattle.std.specs.Prelude.{◌≡◌, ◌++◌, slice_get, IfOk, OnOk};
ghost use Rattle.std.specs.Option.{option_copied};
ghost use Rattle.verified.specs.Spaces.{function_type, function_import, table_import, memory_import, global_import, imported, outer_spaces_of, with_globals};
ghost use Rattle.validate.specs.inside.Checks.{global_types, type_numbers};
ghost use Rattle.validate.specs.inside.Steps.{has_memory, has_table};

use std::alloc::{AllocError, Global as Heap};
use std::marker::Model;
use wasm_ast::{FuncType, Function, Global, GlobalType, Import, ImportDescription, Limits, Module};

/// The type of each item of the index spaces, the imports first.
pub struct IndexSpaces<'a> {
    pub types: &'a [FuncType],
    // the index of each function's type
    pub functions: Vec<u32>,
    pub tables: Vec<Limits>,
    pub memories: Vec<Limits>,
    pub globals: Vec<GlobalType>,
}

impl<'a> Drop for IndexSpaces<'a> {
    fn drop(self) {
        let IndexSpaces {
            types: _,
            functions: _,
            tables: _,
            memories: _,
            globals: _,
        } = self;
    }
}

impl<'a> Model for IndexSpaces<'a> {
    ghost use Rattle.verified.specs.Spaces.{Spaces};

    ghost Value = { Spaces };

    ghost view = { λ a. record {
      types = a.types.now;
      functions = a.functions.items;
      tables = a.tables.items;
      memories = a.memories.items;
      globals = a.globals.items;
    } };
}

impl<'a> IndexSpaces<'a> {
    /// Creates the index spaces of a module, with only its imported globals.
    pub fn outer(alloc: Heap, module: &'a Module) -> Result<IndexSpaces<'a>, AllocError>
        ensures { IfOk result (λ spaces. spaces ≡ outer_spaces_of «module».now) }
    {
        let imports = module.imports.as_slice();
        Ok(IndexSpaces {
            types: module.types.as_slice(),
            functions: function_types(alloc, imports, module.functions.as_slice())?,
            tables: tables(alloc, imports, module.tables.as_slice())?,
            memories: memories(alloc, imports, module.memories.as_slice())?,
            globals: global_types(alloc, imports)?,
        })
    }

    /// Adds the types of these globals.
    pub fn define_globals(&mut self, alloc: Heap, globals: &[Global]) -> Result<(), AllocError>
        ensures { OnOk result (self.new ≡ with_globals globals.now self.old) }
    {
        self.globals = with_types_of(alloc, self.globals.as_slice(), globals)?;
        Ok(())
    }

    /// Returns the function type with this index, where there is one.
    pub fn type_at(&self, number: u32) -> Option<&FuncType>
        ensures { option_copied result ≡ slice_get self.now.types number }
    {
        self.types.get(number as usize)
    }

    /// Returns the type of the function with this index, where both exist.
    pub fn function_type(&self, number: u32) -> Option<&FuncType>
        ensures { option_copied result ≡ function_type self.now number }
    {
        match self.functions.get(number as usize) {
            Some(type_number) => self.type_at(*type_number),
            None => None,
        }
    }

    /// Returns the type of the global with this index, where there is one.
    pub fn global_at(&self, number: u32) -> Option<GlobalType>
        ensures { result ≡ slice_get self.now.globals number }
    {
        self.globals.get(number as usize).copied()
    }

    /// Reports whether there is a memory.
    pub fn has_memory(&self) -> bool
        ensures { result ≡ has_memory self.now }
    {
        !self.memories.is_empty()
    }

    /// Reports whether there is a table.
    pub fn has_table(&self) -> bool
        ensures { result ≡ has_table self.now }
    {
        !self.tables.is_empty()
    }
}

// Lists the index of each function's type, the imports first.
fn function_types(
    alloc: Heap,
    imports: &[Import],
    functions: &[Function],
) -> Result<Vec<u32>, AllocError>
    ensures { IfOk result (λ v. v.items
        ≡ imported function_import imports.now ++ type_numbers functions.now) }
{
    let mut numbers = Vec::new(alloc);
    for import in imports {
        if let Some(number) = imported_function(import.description) {
            numbers.push(number)?;
        }
    }
    for function in functions {
        numbers.push(function.type_number)?;
    }
    Ok(numbers)
}

fn tables(alloc: Heap, imports: &[Import], defined: &[Limits]) -> Result<Vec<Limits>, AllocError>
    ensures { IfOk result (λ v. v.items ≡ imported table_import imports.now ++ defined.now) }
{
    let mut tables = Vec::new(alloc);
    for import in imports {
        if let Some(limits) = imported_table(import.description) {
            tables.push(limits)?;
        }
    }
    tables.extend_from_slice(defined)?;
    Ok(tables)
}

fn memories(alloc: Heap, imports: &[Import], defined: &[Limits]) -> Result<Vec<Limits>, AllocError>
    ensures { IfOk result (λ v. v.items ≡ imported memory_import imports.now ++ defined.now) }
{
    let mut memories = Vec::new(alloc);
    for import in imports {
        if let Some(limits) = imported_memory(import.description) {
            memories.push(limits)?;
        }
    }
    memories.extend_from_slice(defined)?;
    Ok(memories)
}

fn global_types(alloc: Heap, imports: &[Import]) -> Result<Vec<GlobalType>, AllocError>
    ensures { IfOk result (λ v. v.items ≡ imported global_import imports.now) }
{
    let mut globals = Vec::new(alloc);
    for import in imports {
        if let Some(global) = imported_global(import.description) {
            globals.push(global)?;
        }
    }
    Ok(globals)
}

// Lists these types, and after them those of the globals.
fn with_types_of(
    alloc: Heap,
    types: &[GlobalType],
    globals: &[Global],
) -> Result<Vec<GlobalType>, AllocError>
    ensures { IfOk result (λ v. v.items ≡ types.now ++ global_types globals.now) }
{
    let mut all = Vec::from_slice(alloc, types)?;
    for global in globals {
        all.push(global.global_type)?;
    }
    Ok(all)
}

fn imported_function(description: ImportDescription) -> Option<u32>
    ensures { result ≡ function_import description }
{
    match description {
        ImportDescription::Function(type_number) => Some(type_number),
        _ => None,
    }
}

fn imported_table(description: ImportDescription) -> Option<Limits>
    ensures { result ≡ table_import description }
{
    match description {
        ImportDescription::Table(limits) => Some(limits),
        _ => None,
    }
}

fn imported_memory(description: ImportDescription) -> Option<Limits>
    ensures { result ≡ memory_import description }
{
    match description {
        ImportDescription::Memory(limits) => Some(limits),
        _ => None,
    }
}

fn imported_global(description: ImportDescription) -> Option<GlobalType>
    ensures { result ≡ global_import description }
{
    match description {
        ImportDescription::Global(global) => Some(global),
        _ => None,
    }
}
