//! Edge lists: the meaning of a line, and the edges of lines one after another.

mod adding;
mod edges;
mod line;

pub use edges::Edges;
pub use line::{Form, Line, edge_between, is_comment, line_of};
