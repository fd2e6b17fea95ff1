//! Globals and memory as each call begins (Core 1.0, 4.5.4).

ghost use Rattle.std.specs.Prelude.{◌≡◌, Some, length, replicate, IfOk, IsSome};
ghost use Rattle.verified.specs.Memory.{memory_bytes};
ghost use Rattle.semantics.specs.Start.{constant_value, constant_plain, initial_globals};
ghost use Rattle.interp.specs.inside.Begun.{AreInitial, cells_laid_in, cell_memory_laid, cell_segment_laid};
ghost use Rattle.interp.specs.inside.Kept.{count_kept, masked};
ghost use Rattle.semantics.specs.inside.Touched.{marks};

use crate::cell::of_value;
use crate::globals::Globals;
use crate::memory::Memory;
use std::alloc::{AllocError, Global};
use wasm_ast::{Body, Data, Global as GlobalDefinition, Instr, Module, Plain, Value, Variable};

/// Evaluates the initial value of each global, as a cell. The only error is that an allocation fails.
pub fn initial_cells(alloc: Global, definitions: &[GlobalDefinition]) -> Result<Globals, AllocError>
    requires { IsSome (initial_globals definitions.now) }
    ensures initial { IfOk result (AreInitial definitions.now) }
    ensures long { IfOk result (λ cells. length cells ≡ length definitions.now) }
{
    let mut globals = Globals::zeros(alloc, definitions.len())?;
    write_globals(alloc, definitions, &mut globals);
    Ok(globals)
}

fn write_globals(alloc: Global, definitions: &[GlobalDefinition], globals: &mut Globals)
    requires long { length definitions.now ≡ length globals.old }
    requires there { IsSome (initial_globals definitions.now) }
    ensures initial { AreInitial definitions.now globals.new }
    ensures kept { length globals.new ≡ length globals.old }
{
    let none = Globals::new(alloc);
    let mut place = 0;
    for definition in definitions {
        match constant_value(&none, &definition.initial) {
            Some(value) => globals.set_at(place, of_value(value)),
            None => unreachable!(),
        }
        place += 1;
    }
}

/// Writes the data segments over zeros in order, as far as their bytes are kept.
pub fn write_memory(module: &Module, globals: &Globals, memory: &mut Memory)
    requires zeros { memory.old
        ≡ masked (marks «module».now) (replicate (memory_bytes «module».now) 0) }
    requires there { IsSome (cell_memory_laid globals.now «module».now) }
    ensures laid { cell_memory_laid globals.now «module».now ≡ Some memory.new }
    ensures kept { count_kept memory.new ≡ count_kept memory.old }
{
    write_segments(module.data.as_slice(), globals, memory);
}

fn write_segments(segments: &[Data], globals: &Globals, memory: &mut Memory)
    requires { IsSome (cells_laid_in globals.now segments.now memory.old) }
    ensures laid { cells_laid_in globals.now segments.now memory.old ≡ Some memory.new }
    ensures kept { count_kept memory.new ≡ count_kept memory.old }
{
    for segment in segments {
        write_segment(segment, globals, memory);
    }
}

fn write_segment(segment: &Data, globals: &Globals, memory: &mut Memory)
    requires { IsSome (cell_segment_laid globals.now segment.now memory.old) }
    ensures laid { cell_segment_laid globals.now segment.now memory.old ≡ Some memory.new }
    ensures kept { count_kept memory.new ≡ count_kept memory.old }
{
    match constant_value(globals, &segment.offset) {
        Some(place) => memory.write_kept(of_value(place), segment.bytes.as_slice()),
        None => unreachable!(),
    }
}

// Evaluates a constant expression (Core 1.0, 3.3.7). The value of a global is the i64 of its cell.
fn constant_value(globals: &Globals, body: &Body) -> Option<Value>
    ensures { result ≡ constant_value globals.now body.now }
{
    match body.as_slice() {
        [Instr::Plain(plain)] => constant_plain(globals, *plain),
        _ => None,
    }
}

fn constant_plain(globals: &Globals, plain: Plain) -> Option<Value>
    ensures { result ≡ constant_plain globals.now plain }
{
    match plain {
        Plain::Const(value) => Some(value),
        Plain::Variable(Variable::GlobalGet(number)) => match globals.find(number) {
            Some(cell) => Some(Value::I64(cell)),
            None => None,
        },
        _ => None,
    }
}
