//! The requests that the command line may make.

use job_state::Settings;

/// A request: a session, or one command.
#[derive(Clone, Copy)]
pub enum Options<'a> {
    /// A session on standard input and output.
    Session,
    /// One command over files.
    Command {
        request: Request<'a>,
        /// Whether to explain a refusal of its module on standard error.
        explains: bool,
    },
}

/// A command over files.
#[derive(Clone, Copy)]
pub enum Request<'a> {
    /// Calls the module in one file with the input in the other.
    Call {
        module: ModuleRequest<'a>,
        input: &'a str,
    },
    /// Runs a job in threads.
    Run(RunRequest<'a>),
    /// Replays a job by the steps in a file.
    Replay {
        asked: JobRequest<'a>,
        steps: &'a str,
    },
    /// Writes the checkpoint in one file to another, in the newest version.
    Upgrade {
        checkpoint: &'a str,
        newer: &'a str,
    },
    /// Writes the module in one file to another, in the binary format.
    Assemble {
        module: &'a str,
        binary: &'a str,
    },
    /// Rewrites the module in one file nearer to the bounded profile, and writes it to another, in the binary format.
    Fit {
        module: &'a str,
        binary: &'a str,
    },
    /// Prints the module in a file as text.
    Print {
        module: &'a str,
    },
    /// Prints the bounds of the calls of the module in a file.
    Verify {
        module: ModuleRequest<'a>,
    },
    /// Writes the edges in one file to another, as a graph.
    Import(ImportRequest<'a>),
}

/// The module in a file.
#[derive(Clone, Copy)]
pub struct ModuleRequest<'a> {
    pub path: &'a str,
    /// The greatest size, with calls inlined, that is not refused. `None` accepts each size that the verifier accepts.
    pub max_size: Option<u32>,
}

/// The job of the module in one file over the graph in the other.
#[derive(Clone, Copy)]
pub struct JobRequest<'a> {
    pub module: ModuleRequest<'a>,
    pub graph: &'a str,
    pub settings: Settings,
    /// Whether to print the units of each superstep too.
    pub tells_units: bool,
}

/// A job that runs in threads.
#[derive(Clone, Copy)]
pub struct RunRequest<'a> {
    pub job: JobRequest<'a>,
    /// How many of the machine's processors the job uses.
    pub cores: Cores,
    /// The folder for the job's checkpoints. `None` keeps them in memory.
    pub keep: Option<&'a str>,
    /// Whether the job begins with the newest checkpoint in that folder.
    pub resume: bool,
    /// The worker to lose, as `W:S`: worker W, with its first task in superstep S or later.
    pub lose: Option<&'a str>,
    /// Whether that worker joins again.
    pub again: bool,
    /// When to show progress, and whether to show warnings.
    pub progress: Progress,
    /// The file for a report of the run, as JSON.
    pub report: Option<&'a str>,
    /// The file for a chart of the run, as SVG.
    pub plot: Option<&'a str>,
}

/// How many of the machine's processors a job uses.
#[derive(Clone, Copy)]
pub struct Cores {
    /// Whether the job uses all of them.
    pub all: bool,
    /// Whether the words give the number of workers. It then stays.
    pub workers_given: bool,
    /// Whether the words give the number of parts. It then stays.
    pub parts_given: bool,
}

/// When to show a job's progress on standard error. `Never` hides warnings too.
#[derive(Clone, Copy)]
pub enum Progress {
    Always,
    Never,
    /// Only if standard error is a terminal.
    OnTerminal,
}

/// The edges in one file, to be written to another as a graph.
#[derive(Clone, Copy)]
pub struct ImportRequest<'a> {
    pub edges: &'a str,
    pub graph: &'a str,
    /// Whether each edge is for both directions.
    pub undirected: bool,
    /// The value of each vertex except the source.
    pub value: Option<&'a str>,
    /// The vertex whose value is 0.
    pub source: Option<&'a str>,
    /// The value of each edge, or the heading of the column with the values.
    pub weight: Option<&'a str>,
    /// Whether an edge's value is 2^32 divided by the number of edges from its source.
    pub share: bool,
    /// The file for the names of the vertices. `None`: the ends of edges are ids.
    pub names: Option<&'a str>,
}
