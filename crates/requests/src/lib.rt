//! The requests that a command line may make: a session, or one command over files.
#![tactic(auto)]

mod machine;
mod request;

pub use request::{
    Cores, ImportRequest, JobRequest, ModuleRequest, Options, Progress, Request, RunRequest,
};
