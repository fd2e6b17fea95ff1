//! What commands and sessions read: files, modules and graphs. And the line of a refusal.
#![tactic(auto)]

mod fault;
mod file_contents;
mod files;
mod laws;
mod modules;
mod reading;
mod refusal;
mod system;

pub use fault::{CommandFault, status_of};
pub use file_contents::{Source, read_bytes, read_source, read_text, write};
pub use files::{FileFault, Files, SystemFiles};
pub use laws::means_one_module;
pub use modules::{load, module_of};
pub use reading::{load_file, read_graph, read_module};
pub use refusal::refusal_line;
pub use system::System;
