//! Checkpoints: states as bytes; Keeps, the places where those bytes are kept, in memory or in the files of a folder, which are
//! replaced as a whole; and the file `job.json` beside them, which says of which job they are.
#![tactic(auto)]

mod device;
mod digest;
mod fault;
mod files;
mod folder;
mod job_id;
mod keep;
mod laws;
mod listing;
mod memory;
mod numbers;
mod reading;
mod replacing;
mod text;
mod vertices;
mod writing;

pub use device::Device;
pub use fault::CheckpointFault;
pub use files::FileKeep;
pub use folder::Folder;
pub use job_id::{JobId, digest_of};
pub use keep::{Keep, KeepFault};
pub use laws::{
    a_checkpoint_is_of_one_state, a_checkpoint_is_so_long, a_memory_keep_loads_nothing_else,
    a_seal_is_of_one_checkpoint, what_is_written_is_read,
};
pub use memory::MemoryKeep;
pub use reading::read;
pub use replacing::replace;
pub use text::{Kinship, compare, job_text};
pub use writing::write;
