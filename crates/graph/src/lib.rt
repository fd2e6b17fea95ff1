//! Graph files: directed graphs with a value at each vertex and each edge, as text. The crate reads them, cuts graphs into
//! parts, and prints the values of vertices.
//! It also reads the edges of edge lists.
#![tactic(auto)]

mod collect;
pub mod edge_list;
mod fault;
mod fault_lines;
mod graph;
mod laws;
mod line;
mod partition;
mod parts;
mod pieces;
mod place;
mod print;
mod rising;
mod spread;
mod vertex;

pub use fault::{GraphFault, PrintFault};
pub use graph::Graph;
pub use laws::means_one_graph;
pub use partition::{Identified, cut_by_id, ids_of, merge_by_id, part_of, sort_by_id};
pub use parts::{Part, join, split};
pub use print::{print_values, push_value_line};
pub use vertex::{Edge, MAX_EDGES, MAX_VERTICES, Vertex};
