//! The commands that make one file of another: a module in the other format, one that `fit` has rewritten, a graph of edges, a
//! checkpoint of the newest version.
#![tactic(auto)]

mod graph_import;
mod importing;
mod module_files;
mod upgrading;
mod writing;

pub use importing::import_file;
pub use module_files::{assemble_file, fit_file, print_file};
pub use upgrading::upgrade_file;
