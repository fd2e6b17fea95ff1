//! The syntax of WebAssembly modules with integers only (Core 1.0, section 2).
#![tactic(auto)]

mod body;
mod copies;
mod equality;
mod limits;
mod module;
mod numeric;
mod plain;
mod same;
mod sequence;
mod types;

pub use body::{Body, Instr};
pub use limits::{
    MAX_ALIGN, MAX_FUNCTIONS, MAX_LABELS, MAX_LOCALS, MAX_MODULE_BYTES, MAX_NESTING,
    MAX_PARAMETERS, MAX_RESULTS, imported_function_count, parameter_count, within_limits,
};
pub use module::{
    Data, Element, Export, ExportDescription, Function, Global, Import, ImportDescription, Module,
};
pub use numeric::{Binary, Comparison, Conversion, Division, Numeric, Unary};
pub use plain::{Branch, Load, Memory, MemoryArgument, Plain, Store, Variable};
pub use sequence::{Name, Sequence};
pub use types::{BlockType, FuncType, GlobalType, Limits, Mutability, ValType, Value};
