//! The lines around a place in the text of a module.

ghost use Rattle.std.specs.Prelude.{◌≡◌, ◌+◌, ◌<◌, ◌≤◌, ◌^◌, Contains, IfOk, IfSome, count_by, length};
ghost use Rattle.std.specs.Str.Lines.{lines};
ghost use Rattle.line_text.specs.TextBuilder.{Gains};
ghost use Rattle.explanations.specs.Listing.{IsStretch, is_marked, is_numbered, listed, listed_line, mark, next_number};
ghost use Rattle.explanations.specs.inside.Shown.{Cuts, ListsPart, texts};

use line_text::TextBuilder;
use std::alloc::{AllocError, Global};

/// The lines of the text of a module, as `print` writes it.
#[derive(Drop)]
pub struct Printed<'a> {
    pub lines: Vec<&'a str>,
    /// The indices of the lines that import functions, in order.
    pub imports: Vec<usize>,
}

/// The kind of code at a place.
#[derive(Clone, Copy)]
pub enum Sight {
    /// No code: there is no place.
    Nothing,
    /// A loop that takes a message or an edge.
    TakesItems,
    /// A function with global variables. Compilers keep a stack with them.
    HasGlobals,
    /// Any other code.
    Other,
}

// The number of lines before the place, and of all lines that are shown.
const BEFORE: usize = 5;

const SHOWN: usize = 11;

impl<'a> Printed<'a> {
    /// Splits a text into lines, and finds those that import functions. The only error is that an allocation fails.
    pub fn new(alloc: Global, text: &'a str) -> Result<Printed<'a>, AllocError>
        ensures { IfOk result (λ printed. texts printed.lines.items ≡ lines text.now) }
    {
        let lines = lines_in(alloc, text)?;
        let imports = imports_in(alloc, lines.as_slice())?;
        Ok(Printed { lines, imports })
    }

    /// Returns the line of an imported function.
    pub fn import(&self, function: u32) -> Option<&'a str>
        ensures { IfSome result (Contains self.now.lines.items) }
    {
        let at = self.imports.get(function as usize)?;
        self.lines.get(*at).copied()
    }

    /// Returns the lines of the body of a function that the module defines.
    pub fn body(&self, function: u32) -> Option<&[&'a str]>
        ensures { IfSome result (λ body. IsStretch self.now.lines.items body.now) }
    {
        let number = (function as usize).checked_sub(self.imports.len())?;
        body_in(self.lines.as_slice(), number)
    }

    /// Finds the kind of code at an instruction of a body.
    pub fn sight(&self, body: &[&str], instruction: u32) -> Sight {
        let Some(at) = place_in(body, instruction) else {
            return Sight::Other;
        };
        match behind(body, at).first() {
            Some(line) if begins_loop(line) => self.sight_of_loop(behind(body, at), depth(line)),
            _ => sight_of(body),
        }
    }

    // Finds the kind of a loop from its line on; `outside` is the number of blanks that its line begins with.
    fn sight_of_loop(&self, lines: &[&str], outside: usize) -> Sight {
        for line in behind(lines, 1) {
            if depth(line) <= outside {
                return Sight::Other;
            }
            if self.takes_item(line) {
                return Sight::TakesItems;
            }
        }
        Sight::Other
    }

    // Decides whether a line calls `next_message` or `next_edge`.
    fn takes_item(&self, line: &str) -> bool {
        match called(line) {
            Some(function) => self.import(function).is_some_and(imports_cursor),
            None => false,
        }
    }
}

// Splits a text into lines.
fn lines_in<'a>(alloc: Global, text: &'a str) -> Result<Vec<&'a str>, AllocError>
    ensures { IfOk result (λ found. texts found.items ≡ lines text.now) }
{
    text.lines().collect(alloc)
}

// Finds the lines that import functions.
fn imports_in(alloc: Global, lines: &[&str]) -> Result<Vec<usize>, AllocError> {
    let mut imports = Vec::new(alloc);
    for (at, line) in lines.iter().enumerate() {
        if imports_function(line) {
            imports.push(at)?;
        }
    }
    Ok(imports)
}

// Decides whether a line is the import of a function. What follows the last quote is not part of a name.
fn imports_function(line: &str) -> bool {
    if !line.starts_with("  (import ") {
        return false;
    }
    match line.rsplit_once('"') {
        Some((_, description)) => description.starts_with(" (func "),
        None => false,
    }
}

fn imports_cursor(line: &str) -> bool {
    line.starts_with("  (import \"pregel\" \"next_")
}

// Returns the number of the function that a line calls.
fn called(line: &str) -> Option<u32> {
    line.trim_start().strip_prefix("call ")?.parse::<u32>().ok()
}

fn begins_loop(line: &str) -> bool {
    line.trim_start().starts_with("loop")
}

// Finds the kind of code in the body of a function.
fn sight_of(body: &[&str]) -> Sight {
    for line in body {
        if uses_global(line) {
            return Sight::HasGlobals;
        }
    }
    Sight::Other
}

fn uses_global(line: &str) -> bool {
    line.trim_start().starts_with("global.")
}

// Counts the blanks that a line begins with.
fn depth(line: &str) -> usize {
    line.len().saturating_sub(line.trim_start().len())
}

// Decides whether a line of a body has an instruction, and so a number.
fn is_numbered(line: &str) -> bool
    ensures { result ≡ is_numbered line.now }
{
    let word = line.trim_start();
    !(word == "end" || word == "else")
}

// Returns the first lines, at most this many.
fn front<'a, 'b>(lines: &'b [&'a str], count: usize) -> &'b [&'a str]
    ensures { IsStretch lines.now result.now }
{
    let (front, _) = lines.split_at(count.min(lines.len()));
    front
}

// Returns the lines after the first `count` lines.
fn behind<'a, 'b>(lines: &'b [&'a str], count: usize) -> &'b [&'a str]
    ensures { IsStretch lines.now result.now }
{
    let (_, behind) = lines.split_at(count.min(lines.len()));
    behind
}

// Returns the body of a function: the lines after its first one that are indented deeper.
fn body_in<'a, 'b>(lines: &'b [&'a str], number: usize) -> Option<&'b [&'a str]>
    ensures { IfSome result (λ body. IsStretch lines.now body.now) }
{
    let header = header_in(lines, number)?;
    let rest = behind(lines, header.saturating_add(1));
    Some(front(rest, end_in(rest)))
}

// Counts the first lines that are indented deeper than that of a function.
fn end_in(lines: &[&str]) -> usize {
    for (at, line) in lines.iter().enumerate() {
        if !line.starts_with("    ") {
            return at;
        }
    }
    lines.len()
}

// Finds the first line of the function with this number, among those that are defined.
fn header_in(lines: &[&str], number: usize) -> Option<usize> {
    let mut left = number;
    for (at, line) in lines.iter().enumerate() {
        if !line.starts_with("  (func ") {
            continue;
        }
        if left == 0 {
            return Some(at);
        }
        left -= 1;
    }
    None
}

// Finds the line of an instruction, counted from 0 in the body.
fn place_in(body: &[&str], instruction: u32) -> Option<usize> {
    let mut left = instruction;
    for (at, line) in body.iter().enumerate() {
        if !is_numbered(line) {
            continue;
        }
        if left == 0 {
            return Some(at);
        }
        left -= 1;
    }
    None
}

/// Appends the lines of a body around an instruction to a text, or its last lines where no instruction is named.
pub fn push_around(text: &mut TextBuilder, body: &[&str], instruction: Option<u32>)
    ensures { ListsPart text.old text.new instruction body.now }
{
    let shown = shown_of(body, first_shown(body, instruction));
    push_lines(text, shown.lines, shown.first, instruction);
}

// Finds the first line that is shown.
fn first_shown(body: &[&str], instruction: Option<u32>) -> usize {
    match instruction {
        Some(instruction) => place_in(body, instruction)
            .unwrap_or(body.len())
            .saturating_sub(BEFORE),
        None => body.len().saturating_sub(SHOWN),
    }
}

// The lines that are shown, and the number of the first instruction among them.
#[derive(Clone, Copy)]
struct Shown<'a, 'b> {
    lines: &'b [&'a str],
    first: u64,
}

// Counts the lines with an instruction.
fn instructions_in(lines: &[&str]) -> usize
    ensures counted { result ≡ count_by (λ l. is_numbered l.now) lines.now }
    ensures few { result ≤ length lines.now }
{
    lines.iter().filter(|line| is_numbered(line)).count()
}

// Finds what is shown of a body from a line on.
fn shown_of<'a, 'b>(body: &'b [&'a str], from: usize) -> Shown<'a, 'b>
    ensures cut { Cuts body.now result }
    ensures small { result.first + length result.lines.now < 2 ^ 64 }
{
    let (before, rest) = body.split_at(from.min(body.len()));
    let (lines, _) = rest.split_at(SHOWN.min(rest.len()));
    let first = instructions_in(before) as u64;
    Shown { lines, first }
}

// Appends lines to a text, each instruction after its number. `first` is the number of the first instruction, and `>`
// marks the instruction that is named.
fn push_lines(text: &mut TextBuilder, lines: &[&str], first: u64, marked: Option<u32>)
    requires { first + length lines.now < 2 ^ 64 }
    ensures { Gains text.old text.new (listed marked first (texts lines.now)) }
{
    let mut number = first;
    for line in lines {
        number = push_line(text, number, marked, line);
    }
}

// Appends a line to a text, and returns the number of the next instruction.
fn push_line(text: &mut TextBuilder, number: u64, marked: Option<u32>, line: &str) -> u64
    requires { number + 1 < 2 ^ 64 }
    ensures next { result ≡ next_number number line.now }
    ensures gains { Gains text.old text.new (listed_line marked number line.now) }
{
    if !is_numbered(line) {
        text.show(&format_args!("         {line}"));
        text.put("\n");
        return number;
    }
    let mark = mark(is_marked(number, marked));
    text.show(&format_args!("{mark} {number:6} {line}"));
    text.put("\n");
    number + 1
}

fn is_marked(number: u64, marked: Option<u32>) -> bool
    ensures { result ≡ is_marked number marked }
{
    match marked {
        Some(marked) => number == u64::from(marked),
        None => false,
    }
}

fn mark(is_marked: bool) -> &'static str
    ensures { result.now ≡ mark is_marked }
{
    if is_marked { ">" } else { " " }
}
