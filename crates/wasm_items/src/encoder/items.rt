//! Writers of the items of the sections (Core 1.0, 5.5), except the locals and bodies of functions.

ghost use Rattle.std.specs.Prelude.{◌≡◌, ◌++◌, OnOk};
ghost use Rattle.wasm_items.specs.Canonical.{import_bytes, import_description_bytes, global_bytes, export_bytes, export_description_bytes, element_bytes, data_bytes, type_number_bytes};

use super::instructions::{write_expression, write_numbered};
use super::parts::{Part, write_byte, write_sized, write_vector};
use super::types::write_table_type;
use leb::write_u32;
use std::alloc::AllocError;
use wasm_ast::{
    Data, Element, Export, ExportDescription, Function, Global, Import, ImportDescription,
};

/// Writes an import (Core 1.0, 5.5.5).
impl Part for Import {
    ghost spelling = { import_bytes };

    #[tactic(auto, unfolding(crate::specs::Canonical::import_bytes))]
    fn write(&self, out: &mut Vec<u8>) -> Result<(), AllocError> {
        write_sized(out, self.module.as_str().as_bytes())?;
        write_sized(out, self.name.as_str().as_bytes())?;
        write_import_description(out, self.description)
    }
}

fn write_import_description(
    out: &mut Vec<u8>,
    description: ImportDescription,
) -> Result<(), AllocError>
    ensures { OnOk result (out.new.items ≡ out.old.items ++ import_description_bytes description) }
{
    match description {
        ImportDescription::Function(type_number) => write_numbered(out, 0x00, type_number),
        ImportDescription::Table(limits) => {
            write_byte(out, 0x01)?;
            write_table_type(out, limits)
        }
        ImportDescription::Memory(limits) => {
            write_byte(out, 0x02)?;
            limits.write(out)
        }
        ImportDescription::Global(global_type) => {
            write_byte(out, 0x03)?;
            global_type.write(out)
        }
    }
}

/// Writes a global that the module defines (Core 1.0, 5.5.9).
impl Part for Global {
    ghost spelling = { global_bytes };

    #[tactic(auto, unfolding(crate::specs::Canonical::global_bytes))]
    fn write(&self, out: &mut Vec<u8>) -> Result<(), AllocError> {
        self.global_type.write(out)?;
        write_expression(out, &self.initial)
    }
}

/// Writes an export (Core 1.0, 5.5.10).
impl Part for Export {
    ghost spelling = { export_bytes };

    #[tactic(auto, unfolding(crate::specs::Canonical::export_bytes))]
    fn write(&self, out: &mut Vec<u8>) -> Result<(), AllocError> {
        write_sized(out, self.name.as_str().as_bytes())?;
        write_export_description(out, self.description)
    }
}

fn write_export_description(
    out: &mut Vec<u8>,
    description: ExportDescription,
) -> Result<(), AllocError>
    ensures { OnOk result (out.new.items ≡ out.old.items ++ export_description_bytes description) }
{
    match description {
        ExportDescription::Function(number) => write_numbered(out, 0x00, number),
        ExportDescription::Table(number) => write_numbered(out, 0x01, number),
        ExportDescription::Memory(number) => write_numbered(out, 0x02, number),
        ExportDescription::Global(number) => write_numbered(out, 0x03, number),
    }
}

/// Writes an element segment (Core 1.0, 5.5.12).
impl Part for Element {
    ghost spelling = { element_bytes };

    #[tactic(auto, unfolding(crate::specs::Canonical::element_bytes))]
    fn write(&self, out: &mut Vec<u8>) -> Result<(), AllocError> {
        write_u32(out, self.table)?;
        write_expression(out, &self.offset)?;
        write_vector(out, self.functions.as_slice())
    }
}

/// Writes a data segment (Core 1.0, 5.5.14).
impl Part for Data {
    ghost spelling = { data_bytes };

    #[tactic(auto, unfolding(crate::specs::Canonical::data_bytes))]
    fn write(&self, out: &mut Vec<u8>) -> Result<(), AllocError> {
        write_u32(out, self.memory)?;
        write_expression(out, &self.offset)?;
        write_sized(out, self.bytes.as_slice())
    }
}

/// Writes a function's entry in the function section: the index of its type (Core 1.0, 5.5.6).
impl Part for Function {
    ghost spelling = { type_number_bytes };

    #[tactic(auto, unfolding(crate::specs::Canonical::type_number_bytes))]
    fn write(&self, out: &mut Vec<u8>) -> Result<(), AllocError> {
        write_u32(out, self.type_number)
    }
}
