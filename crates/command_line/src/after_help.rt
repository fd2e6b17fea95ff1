//! The end of each command's help, below its options: output, exit statuses, formats, limits and an example.

/// The end of the program's help.
pub(crate) const PREGEL: &str = "\
Exit statuses:
  0  an answer
  1  a refusal: a line `no ..`
  2  a mistake in the command line
  3  the job ended by a fault: a line `end fault WORD`
  4  a file or stream cannot be read or written; standard error has the reason

A module whose file's name ends in `.wat` is text, any other is binary.
`pregel help COMMAND` shows a command's options, output, formats and limits.

Example:
  pregel run examples/max.wat examples/line.txt --workers 2 --parts 4";

const CONSOLE: &str = "\
Commands, one a line, and their replies:
  module NAME PATH      ok module NAME SIZE
  graph NAME PATH       ok graph NAME VERTICES EDGES
  job NAME MODULE GRAPH PARTS WORKERS EVERY LIMIT
                        ok job NAME
  run NAME              ok run NAME finished S, or ok run NAME limit S
  status NAME           ok and the job's state as JSON
  values NAME           a line `v ID VALUE` for each vertex, then `.`
  drop module NAME      ok drop; also `drop graph NAME` and `drop job NAME`
  quit                  ok bye, and the end
A refusal is `no CODE WORD`.

Exit statuses:
  0  the session ended
  1  out of memory at the start
  2  a mistake in the command line
  4  standard input or output failed; standard error has the reason

Limits: a name has 1 to 32 letters, digits, `_` and `-`. A line has at most 4,096 bytes.

Example:
  printf 'module m examples/max.wat\\nquit\\n' | pregel console";

/// The end of a command's help.
#[derive(Clone, Copy)]
pub enum AfterHelp {
    Call,
    Run,
    Replay,
    Upgrade,
    Assemble,
    Fit,
    Print,
    Verify,
    Graph,
    Console,
}

impl AfterHelp {
    /// Returns its text. It is empty for `fit`.
    pub fn text(self) -> &'static str {
        match self {
            AfterHelp::Call => CALL,
            AfterHelp::Run => RUN,
            AfterHelp::Replay => REPLAY,
            AfterHelp::Upgrade => UPGRADE,
            AfterHelp::Assemble => ASM,
            AfterHelp::Fit => "",
            AfterHelp::Print => PRINT,
            AfterHelp::Verify => VERIFY,
            AfterHelp::Graph => GRAPH,
            AfterHelp::Console => CONSOLE,
        }
    }
}

const CALL: &str = "\
INPUT has lines of these forms. The numbers shown are the defaults:
  id 0              the vertex's ID
  superstep 0       the superstep
  count 1           how many vertices the graph has
  value 0           the vertex's value
  message VALUE     a message; none or more, in order
  edge ID VALUE     an edge; none or more, in order
  aggregate SLOT V  what aggregator 0 to 7 holds from the superstep before

Output:
  value V           the vertex's new value
  active 0|1        whether it stays active
  units U           the weight of the instructions that the call executed
  send ID VALUE     a message
  give SLOT VALUE   a contribution to an aggregator

Exit statuses:
  0  an outcome
  1  a refusal: a line `no ..`
  2  a mistake in the command line
  4  a file cannot be read or written; standard error has the reason

Limits: a module has at most 1,048,576 bytes and size 8,388,608.

Example:
  pregel call examples/max.wat input.txt";

const RUN: &str = "\
GRAPH has a line for each vertex and edge, in any order:
  v ID VALUE        a vertex and its first value
  e FROM TO VALUE   an edge in one direction
Blank lines and lines that begin with `#` are skipped.

Output:
  v ID VALUE        a vertex and its value, IDs rising
  end finished supersteps N units U dropped D
                    no vertex is active and no message is pending
  end limit supersteps N units U dropped D
                    `--limit` was reached first
  units S U         with `--units`: the units of superstep S
A unit is the weight of one instruction. D counts messages to IDs that are no vertex.

Exit statuses:
  0  values, also where `--limit` was reached first
  1  a refusal: a line `no ..`
  2  a mistake in the command line
  3  the job ended by a fault: a line `end fault WORD`
  4  a file cannot be read or written; standard error has the reason

Limits: 1,000,000 vertices and 10,000,000 edges. IDs go from 0 to 9,223,372,036,854,775,807. A module has at most \
1,048,576 bytes and size 8,388,608. `ulimit -v` bounds the memory, `--limit` the supersteps, `--max-size` a call.

Example:
  pregel run examples/max.wat examples/line.txt --all-cores";

const REPLAY: &str = "\
STEPS has a line for each step:
  take W   worker W takes a task and holds it
  work W   worker W does the task that it holds, or a new one
  lose W   worker W is lost
  join W   worker W is back
  tick     all leases grow older by one

Output: for each step `idle`, `handed PART`, `taken`, `advanced S`, `rolledback S`, `stale` or `ended`. Then the lines of \
`run`, or `open S` where the steps end before the job. After `end ..` there are:
  epoch E missed M restarts R   saves and loads that failed are M and R
  spent W U                     the units of worker W

Exit statuses:
  0  an answer
  1  a refusal: a line `no ..`
  2  a mistake in the command line
  3  the job ended by a fault: a line `end fault WORD`
  4  a file cannot be read or written; standard error has the reason

Limits: those of `run`.

Example:
  pregel replay examples/max.wat examples/line.txt examples/steps.txt --parts 3 --workers 2 --every 2";

const UPGRADE: &str = "\
Output:
  ok BYTES   OUT is written; it has so many bytes

OUT is written beside its place and then renamed, so it is whole at any time.

Exit statuses:
  0  OUT is written
  1  a refusal: a line `no ..`
  2  a mistake in the command line
  4  a file cannot be read or written; standard error has the reason

Example:
  pregel upgrade old.bin new.bin";

const ASM: &str = "\
Output:
  ok BYTES   OUT is written; it has so many bytes

OUT is written beside its place and then renamed, so it is whole at any time. The module need not be valid.

Exit statuses:
  0  OUT is written
  1  a refusal: a line `no ..`
  2  a mistake in the command line
  4  a file cannot be read or written; standard error has the reason

Limits: a module has at most 1,048,576 bytes.

Example:
  pregel asm examples/max.wat max.wasm";

const PRINT: &str = "\
The output is the module's text. The module need not be valid.

Exit statuses:
  0  the text
  1  a refusal: a line `no ..`
  2  a mistake in the command line
  4  a file cannot be read or written; standard error has the reason

Limits: a module has at most 1,048,576 bytes.

Example:
  pregel print max.wasm";

const VERIFY: &str = "\
Output:
  ok size S operands M frames F
      each call of `compute` executes at most S * (1 + messages + edges) instructions, with at most M operands and F
      nested calls, and meets no trap

Exit statuses:
  0  bounds
  1  a refusal: a line `no ..`
  2  a mistake in the command line
  4  a file cannot be read or written; standard error has the reason

Limits: a module has at most 1,048,576 bytes and size 8,388,608. `--max-size` lowers the greatest size.

Example:
  pregel verify examples/max.wat --explain";

const GRAPH: &str = "\
Output:
  ok VERTICES EDGES    OUT is written; it has so many
  no graph WORD LINE   a line of IN is refused; line 0 stands for an option

OUT is written beside its place and then renamed, so it is whole at any time. Lines of IN may end with CR LF.

Exit statuses:
  0  OUT is written
  1  a refusal: a line `no ..`
  2  a mistake in the command line
  4  a file cannot be read or written; standard error has the reason

Limits: 1,000,000 vertices and 10,000,000 edges.

Example:
  pregel graph edges.txt graph.txt --undirected";
