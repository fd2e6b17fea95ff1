//! The help of each argument. It is apart from the table of commands, since the proof of a table goes through each byte in it.

/// The help of an argument.
#[derive(Clone, Copy)]
pub enum Help {
    Module,
    Binary,
    Graph,
    Input,
    Steps,
    Checkpoint,
    Keep,
    Resume,
    Lose,
    Again,
    Parts,
    Workers,
    Every,
    Limit,
    Lease,
    Units,
    AllCores,
    Progress,
    Quiet,
    Report,
    Plot,
    MaxSize,
    Edges,
    Undirected,
    Value,
    Source,
    Weight,
    Share,
    Names,
    Explain,
}

impl Help {
    /// Returns its text.
    pub fn text(self) -> &'static str {
        match self {
            Help::Module => "The module: text where the name ends in `.wat`, else binary",
            Help::Binary => "The file to be written",
            Help::Graph => {
                "The graph, in lines such as `v 1 3` for a vertex and `e 1 2 5` for an edge"
            }
            Help::Input => "The input, in lines such as `value 34`",
            Help::Steps => {
                "The steps, in lines such as `work 0`; also `take`, `lose` and `join` with a worker, and `tick`"
            }
            Help::Checkpoint => "The checkpoint, of version 1 or 2",
            Help::Keep => {
                "Keeps checkpoints in files of this folder, which has to exist, and not in memory. Failed saves are reported on standard error when the job ends"
            }
            Help::Resume => {
                "Begins with the newest checkpoint in the folder of `--keep`. It has to be of the same module and graph"
            }
            Help::Lose => "Loses worker W once, with its first task in superstep S or later",
            Help::Again => "Has the worker that `--lose` names join again",
            Help::Parts => "How many parts the graph is cut into, from 1 to 256",
            Help::Workers => {
                "How many worker threads there are, from 1 to 64. More than there are parts have nothing to do"
            }
            Help::Every => "Saves a checkpoint at each multiple of N supersteps, from 1 to 1,000",
            Help::Limit => {
                "The superstep at which the job ends if it has not finished, from 1 to 1,000,000"
            }
            Help::Lease => {
                "How many ticks a worker may take for a task, from 1 to 1,000,000; in `run` no tick comes"
            }
            Help::Units => "Prints the units of each superstep too",
            Help::AllCores => {
                "Uses as many workers as the machine has processors, up to 64, and four times as many parts. A number given by `--workers` or `--parts` stays"
            }
            Help::Progress => "Shows progress on standard error, also where that is no terminal",
            Help::Quiet => {
                "Shows neither progress nor warnings, also on a terminal. It outweighs `--progress`"
            }
            Help::Report => "Writes a report of the run to this file, as JSON",
            Help::Plot => "Writes a chart of the run's supersteps to this file, as SVG",
            Help::MaxSize => {
                "Refuses a module whose size, with calls inlined, is greater than S. `pregel verify` prints the size"
            }
            Help::Edges => {
                "The edges: a table with a heading where the name ends in `.csv` or `.tsv`, of which the first two columns are the ends; a Matrix Market file, `pattern` or `integer`, `general` or `symmetric`, where the first line says so; else two ends on each line and a value or none, and comments that begin with `#` or `%`"
            }
            Help::Undirected => "Writes each edge in both directions",
            Help::Value => {
                "The value of every vertex, written as `--value=-1` where it is below 0; without it 0"
            }
            Help::Source => {
                "Gives this vertex the value 0, and all others -1, or that of `--value`"
            }
            Help::Weight => {
                "The value of every edge, or the heading of the column of a table that has the values; without it that of the line, or 1"
            }
            Help::Share => {
                "Gives each edge 2^32 divided by the number of edges from its source, as for PageRank"
            }
            Help::Names => {
                "Takes all ends as names, numbers them from 0 in the order in which they come, and writes a line `ID NAME` for each to this file"
            }
            Help::Explain => {
                "Explains on standard error why the module is refused: the rule, its usual causes, what to write instead, and the place"
            }
        }
    }
}
