//! Import of edge lists, tables and matrices as graph files.

mod list;
mod making;
mod matrix;
mod names;
mod plan;
mod reading;
mod table;
mod vertices;
mod writing;

pub use making::{Imported, import};
pub use plan::{Format, Plan, format_of};
