//! What each call of a module begins with, made once.

ghost use Rattle.std.specs.Prelude.{◌≡◌, IfOk};
ghost use Rattle.interp.specs.inside.Begun.{AreInitial, HasStartRoom, IsReset};

use crate::globals::Globals;
use crate::memory::Memory;
use crate::start::initial::{initial_cells, write_memory};
use crate::walk::Walk;
use std::alloc::{AllocError, Global};
use std::marker::Model;
use verified::Verified;
use wasm_ast::Function;

/// The globals and the kept bytes that each call of the module begins with. Its model is the module.
#[derive(Drop)]
pub struct Image<'a> {
    verified: &'a Verified,
    globals: Globals,
    memory: Memory<'a>,
}

impl<'a> Model for Image<'a> {
    ghost use Rattle.wasm_ast.specs.declared.module.Module.{Module as AnyModule};
    ghost use Rattle.wasm_ast.specs.contracts.module.Module as module_type;
    ghost use Rattle.interp.specs.inside.Begun.{IsImage};

    ghost Value = { AnyModule };

    ghost coded = { module_type.the_row.coded };

    ghost view = { λ image. image.verified.now };

    ghost invariant = { λ image. IsImage image.verified.now image.globals image.memory };
}

impl<'a> Image<'a> {
    /// Evaluates the initial globals and writes the data segments. It takes time by the number of globals and by the
    /// bytes of the segments. The only error is that an allocation fails.
    pub fn new(alloc: Global, verified: &'a Verified) -> Result<Image<'a>, AllocError>
        ensures { IfOk result (λ image. image ≡ verified.now) }
    {
        let module = verified.module();
        let globals = initial_cells(alloc, module.globals.as_slice())?;
        let mut memory = Memory::zeros(alloc, verified)?;
        write_memory(module, &globals, &mut memory);
        Ok(Image {
            verified,
            globals,
            memory,
        })
    }

    /// Returns the globals that each call begins with.
    pub fn globals(&self) -> &Globals
        ensures { AreInitial self.now.globals result.now }
    {
        &self.globals
    }

    /// Resets the walk to where a call of the function begins. It takes time by the locals of the function, by the
    /// globals that the last call set, and by the kept bytes.
    pub fn reset(&self, function: &Function, walk: &mut Walk<'a>)
        requires { HasStartRoom self.now function.now walk.old.room }
        ensures reset { IsReset self.now function.now walk.new }
        ensures room { walk.new.room ≡ walk.old.room }
    {
        walk.entries.clear();
        walk.operands.clear();
        walk.locals.clear();
        walk.locals.add(function.locals.as_slice());
        walk.globals.renew();
        walk.memory.copy_from(&self.memory);
    }
}
