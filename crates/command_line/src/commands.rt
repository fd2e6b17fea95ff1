//! The program's commands, with the arguments and the help of each.

ghost use Rattle.std.specs.Prelude.{◌≡◌, ◌∷◌, [], IfOk, map};
ghost use Rattle.command_line.specs.Commands.{pregel, IsCommand};
ghost use Rattle.command_line.specs.inside.Tables.{AddsCommands, AddsRules, IsArg, leaves, rule_in, shape_in};

use crate::after_help::{AfterHelp, PREGEL};
use crate::argument_help::Help;
use clap::{Arg, ArgAction, Command, value_parser};
use std::alloc::{AllocError, Global};

// An argument of a command.
#[derive(Clone, Copy)]
struct Argument {
    name: &'static str,
    kind: Kind,
    help: Help,
}

// The kinds of arguments, with the name of the value in the help. That of a setting is `N`.
#[derive(Clone, Copy)]
enum Kind {
    // A required word, known by its place.
    Positional(&'static str),
    // An option with a value.
    Option(&'static str),
    // An option with a number of 32 bits, and no default.
    Number(&'static str),
    // An option without a value.
    Flag,
    // A setting of a job: an option with a number of 32 bits, and this default.
    Setting(&'static str),
}

// A command without subcommands: a row of the table.
#[derive(Clone, Copy)]
struct Usage {
    name: &'static str,
    about: &'static str,
    after_help: AfterHelp,
    arguments: &'static [Argument],
}

const MODULE: Argument = Argument {
    name: "module",
    kind: Kind::Positional("MODULE"),
    help: Help::Module,
};

const MODULE_IN: Argument = Argument {
    name: "module",
    kind: Kind::Positional("IN"),
    help: Help::Module,
};

const BINARY: Argument = Argument {
    name: "binary",
    kind: Kind::Positional("OUT"),
    help: Help::Binary,
};

const GRAPH: Argument = Argument {
    name: "graph",
    kind: Kind::Positional("GRAPH"),
    help: Help::Graph,
};

const INPUT: Argument = Argument {
    name: "input",
    kind: Kind::Positional("INPUT"),
    help: Help::Input,
};

const STEPS: Argument = Argument {
    name: "steps",
    kind: Kind::Positional("STEPS"),
    help: Help::Steps,
};

const CHECKPOINT: Argument = Argument {
    name: "checkpoint",
    kind: Kind::Positional("IN"),
    help: Help::Checkpoint,
};

const KEEP: Argument = Argument {
    name: "keep",
    kind: Kind::Option("DIR"),
    help: Help::Keep,
};

const RESUME: Argument = Argument {
    name: "resume",
    kind: Kind::Flag,
    help: Help::Resume,
};

const LOSE: Argument = Argument {
    name: "lose",
    kind: Kind::Option("W:S"),
    help: Help::Lose,
};

const AGAIN: Argument = Argument {
    name: "again",
    kind: Kind::Flag,
    help: Help::Again,
};

const PARTS: Argument = Argument {
    name: "parts",
    kind: Kind::Setting("1"),
    help: Help::Parts,
};

const WORKERS: Argument = Argument {
    name: "workers",
    kind: Kind::Setting("1"),
    help: Help::Workers,
};

const EVERY: Argument = Argument {
    name: "every",
    kind: Kind::Setting("10"),
    help: Help::Every,
};

const LIMIT: Argument = Argument {
    name: "limit",
    kind: Kind::Setting("1000"),
    help: Help::Limit,
};

const LEASE: Argument = Argument {
    name: "lease",
    kind: Kind::Setting("1000"),
    help: Help::Lease,
};

const UNITS: Argument = Argument {
    name: "units",
    kind: Kind::Flag,
    help: Help::Units,
};

const ALL_CORES: Argument = Argument {
    name: "all-cores",
    kind: Kind::Flag,
    help: Help::AllCores,
};

const PROGRESS: Argument = Argument {
    name: "progress",
    kind: Kind::Flag,
    help: Help::Progress,
};

const QUIET: Argument = Argument {
    name: "quiet",
    kind: Kind::Flag,
    help: Help::Quiet,
};

const REPORT: Argument = Argument {
    name: "report",
    kind: Kind::Option("FILE"),
    help: Help::Report,
};

const PLOT: Argument = Argument {
    name: "plot",
    kind: Kind::Option("FILE"),
    help: Help::Plot,
};

const MAX_SIZE: Argument = Argument {
    name: "max-size",
    kind: Kind::Number("S"),
    help: Help::MaxSize,
};

const EDGES: Argument = Argument {
    name: "edges",
    kind: Kind::Positional("IN"),
    help: Help::Edges,
};

const UNDIRECTED: Argument = Argument {
    name: "undirected",
    kind: Kind::Flag,
    help: Help::Undirected,
};

const VALUE: Argument = Argument {
    name: "value",
    kind: Kind::Option("N"),
    help: Help::Value,
};

const SOURCE: Argument = Argument {
    name: "source",
    kind: Kind::Option("ID"),
    help: Help::Source,
};

const WEIGHT: Argument = Argument {
    name: "weight",
    kind: Kind::Option("N|COLUMN"),
    help: Help::Weight,
};

const SHARE: Argument = Argument {
    name: "share",
    kind: Kind::Flag,
    help: Help::Share,
};

const NAMES: Argument = Argument {
    name: "names",
    kind: Kind::Option("FILE"),
    help: Help::Names,
};

const EXPLAIN: Argument = Argument {
    name: "explain",
    kind: Kind::Flag,
    help: Help::Explain,
};

// The program's version, and the kit that proves it. `rt version` prints the kit.
const VERSION: &str = "0.3.0, proved with rattle-kit-13f logic dac8208d650f15bf";

// The commands, in the help's order.
static COMMANDS: [Usage; 10] = [
    Usage {
        name: "call",
        about: "Makes one compute call of one vertex, and prints its outcome",
        after_help: AfterHelp::Call,
        arguments: &[MODULE, INPUT, MAX_SIZE, EXPLAIN],
    },
    Usage {
        name: "run",
        about: "Runs a module's job over a graph, and prints the vertices' values",
        after_help: AfterHelp::Run,
        arguments: &[
            MODULE, GRAPH, KEEP, RESUME, LOSE, AGAIN, PARTS, WORKERS, EVERY, LIMIT, LEASE, UNITS,
            ALL_CORES, PROGRESS, QUIET, REPORT, PLOT, MAX_SIZE, EXPLAIN,
        ],
    },
    Usage {
        name: "replay",
        about: "Replays a job by steps of its workers, and prints the answer to each step",
        after_help: AfterHelp::Replay,
        arguments: &[
            MODULE, GRAPH, STEPS, PARTS, WORKERS, EVERY, LIMIT, LEASE, UNITS,
        ],
    },
    Usage {
        name: "upgrade",
        about: "Writes a checkpoint of any version as one of the newest",
        after_help: AfterHelp::Upgrade,
        arguments: &[CHECKPOINT, BINARY],
    },
    Usage {
        name: "asm",
        about: "Writes a module in WebAssembly's binary format, in the fewest bytes",
        after_help: AfterHelp::Assemble,
        arguments: &[MODULE_IN, BINARY],
    },
    Usage {
        name: "fit",
        about: "Rewrites a valid module so that `verify` may accept it, in WebAssembly's binary format",
        after_help: AfterHelp::Fit,
        arguments: &[MODULE_IN, BINARY],
    },
    Usage {
        name: "print",
        about: "Prints a module in WebAssembly's text format",
        after_help: AfterHelp::Print,
        arguments: &[MODULE_IN],
    },
    Usage {
        name: "verify",
        about: "Checks a module and prints the bounds of its calls",
        after_help: AfterHelp::Verify,
        arguments: &[MODULE, MAX_SIZE, EXPLAIN],
    },
    Usage {
        name: "graph",
        about: "Makes a graph file of edges, and prints how many vertices and edges it has; a refusal has the line, or 0 for an option",
        after_help: AfterHelp::Graph,
        arguments: &[
            EDGES, BINARY, UNDIRECTED, VALUE, SOURCE, WEIGHT, SHARE, NAMES,
        ],
    },
    Usage {
        name: "console",
        about: "Serves a session of named modules, graphs and jobs: lines of commands in, replies out",
        after_help: AfterHelp::Console,
        arguments: &[],
    },
];

// Returns the commands.
fn usages() -> &'static [Usage]
    ensures { map shape_in result.now ≡ leaves }
{
    COMMANDS.as_slice()
}

/// Makes the program's command, with its subcommands. Fails only if memory runs out.
pub fn pregel<'a>(alloc: Global) -> Result<Command<'a>, AllocError>
    ensures { IfOk result (IsCommand pregel) }
{
    let command = Command::new(alloc, "pregel")
        .bin_name("pregel")?
        .about("Runs vertex programs, each a WebAssembly module, over graphs")
        .version(VERSION)
        .after_help(PREGEL)
        .subcommand_required(true)
        .arg_required_else_help(true);
    with_commands(alloc, command, usages())
}

// Adds these commands to a command, in order.
fn with_commands<'a>(
    alloc: Global,
    mut command: Command<'a>,
    usages: &[Usage],
) -> Result<Command<'a>, AllocError>
    ensures { IfOk result (AddsCommands command.entry (map shape_in usages.now)) }
{
    for usage in usages {
        command = with_command(alloc, command, usage)?;
    }
    Ok(command)
}

// Adds this command to a command.
fn with_command<'a>(
    alloc: Global,
    command: Command<'a>,
    usage: &Usage,
) -> Result<Command<'a>, AllocError>
    ensures { IfOk result (AddsCommands command.entry (shape_in usage.now ∷ [])) }
{
    let leaf = Command::new(alloc, usage.name)
        .about(usage.about)
        .after_help(usage.after_help.text());
    let leaf = with_arguments(alloc, leaf, usage.arguments)?;
    command.subcommand(leaf)
}

// Adds these arguments to a command, in order.
fn with_arguments<'a>(
    alloc: Global,
    mut command: Command<'a>,
    arguments: &[Argument],
) -> Result<Command<'a>, AllocError>
    ensures { IfOk result (AddsRules command.entry (map rule_in arguments.now)) }
{
    for argument in arguments {
        command = command.arg(argument.arg(alloc))?;
    }
    Ok(command)
}

impl Argument {
    // Makes clap's argument.
    fn arg<'a>(self, alloc: Global) -> Arg<'a>
        ensures { IsArg (rule_in self) result }
    {
        let arg = Arg::new(alloc, self.name).help(self.help.text());
        match self.kind {
            Kind::Positional(value_name) => arg.value_name(value_name).required(true),
            Kind::Option(value_name) => arg.long(self.name).value_name(value_name),
            Kind::Number(value_name) => arg
                .long(self.name)
                .value_name(value_name)
                .value_parser(value_parser!(u32)),
            Kind::Flag => arg.long(self.name).action(ArgAction::SetTrue),
            Kind::Setting(otherwise) => arg
                .long(self.name)
                .value_name("N")
                .default_value(otherwise)
                .value_parser(value_parser!(u32)),
        }
    }
}
