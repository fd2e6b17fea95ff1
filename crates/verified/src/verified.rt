//! Modules in the bounded profile.

ghost use Rattle.std.specs.Prelude.{◌≡◌, min, IfOk};
ghost use Rattle.wasm_ast.specs.Limits.{IsWithinLimits};
ghost use Rattle.verified.specs.Bodies.{bodies_of};
ghost use Rattle.verified.specs.Modules.{IsTyped};
ghost use Rattle.verified.specs.Cells.{IsDefined, MayRun, locals_at, own_height, most_told};
ghost use Rattle.verified.specs.Compute.{IsComputeNumber};
ghost use Rattle.verified.specs.Facts.{IsSizeOfCompute, IsHeightAt, IsDepthAt};
ghost use Rattle.verified.specs.Hosts.{AreHostCalls};
ghost use Rattle.verified.specs.Profile.{IsBounded, HasCompute};
ghost use Rattle.verified.specs.Reached.{reached_below, reached_bytes};
ghost use Rattle.verified.specs.inside.Tables.{AreTables};

use crate::cells::Cells;
use crate::extents::bytes_below;
use crate::memory::memory_bytes;
use crate::tables::Tables;
use crate::{FlatBody, HostCall, Valid, flat_bodies};
use std::alloc::{AllocError, Global};
use std::marker::Model;
use wasm_ast::Module;

/// A valid module in the bounded profile. `bounded_profile::verify` finds out whether a module is one.
pub struct Verified {
    // In a box, so that moving the owner moves one pointer.
    judged: Box<Judged>,
}

impl Drop for Verified {
    fn drop(self) {
        let Verified { judged: _ } = self;
    }
}

/// A module with its tables and the flat forms of its functions' bodies.
#[derive(Drop)]
pub struct Judged {
    valid: Valid,
    tables: Tables,
    bodies: Vec<FlatBody>,
}

impl Model for Verified {
    ghost use Rattle.wasm_ast.specs.declared.module.Module.{Module as AnyModule};
    ghost use Rattle.verified.specs.Modules.{IsTyped};
    ghost use Rattle.verified.specs.Profile.{IsBounded};
    ghost use Rattle.verified.specs.inside.Tables.{AreTables};
    ghost use Rattle.wasm_ast.specs.contracts.module.Module as module_type;
    ghost use Rattle.verified.specs.Bodies.{bodies_of};
    ghost use Rattle.std.specs.Prelude.{◌≡◌};

    ghost Value = { AnyModule };

    ghost coded = { module_type.the_row.coded };

    ghost view = { λ verified. verified.judged.value.valid };

    ghost invariant = { λ verified. IsBounded verified.judged.value.valid
        × IsTyped verified.judged.value.valid
        × AreTables verified.judged.value.valid verified.judged.value.tables
        × (verified.judged.value.bodies.items ≡ bodies_of verified.judged.value.valid) };
}

impl Verified {
    /// Keeps a module that is proved to be in the bounded profile, with its tables. The only error is that an
    /// allocation fails.
    pub fn of(alloc: Global, valid: Valid, tables: Tables) -> Result<Verified, AllocError>
        requires bounded { IsBounded valid }
        requires tables { AreTables valid tables }
        ensures { IfOk result (λ verified. verified ≡ valid) }
    {
        let bodies = flat_bodies(alloc, valid.module())?;
        let judged = Box::new(
            alloc,
            Judged {
                valid,
                tables,
                bodies,
            },
        )?;
        Ok(Verified { judged })
    }

    /// Returns the module. It allocates nothing.
    pub fn module(&self) -> &Module
        ensures value { result.now ≡ self.now }
        ensures typed { IsTyped self.now }
        ensures within { IsWithinLimits self.now }
        ensures bounded { IsBounded self.now }
    {
        self.judged.valid.module()
    }

    // Returns the tables of the module.
    fn tables(&self) -> &Tables
        ensures tables { AreTables self.now result.now }
        ensures typed { IsTyped self.now }
        ensures bounded { IsBounded self.now }
    {
        &self.judged.tables
    }

    /// Returns the flat form of the body of each function that the module defines, in order. It allocates nothing.
    pub fn flat_bodies(&self) -> &[FlatBody]
        ensures { result.now ≡ bodies_of self.now }
    {
        self.judged.bodies.as_slice()
    }

    /// Returns the number of `compute`. It allocates nothing.
    pub fn compute(&self) -> u32
        ensures { IsComputeNumber self.now result }
    {
        self.tables().facts.compute
    }

    /// Returns the host's function of each imported function, in order. It allocates nothing.
    pub fn host_calls(&self) -> &[HostCall]
        ensures { AreHostCalls self.now result.now }
    {
        self.tables().calls.as_slice()
    }

    /// Returns the size of `compute` with calls inlined, in units (`cost::inlined_size`).
    pub fn size(&self) -> u32
        ensures { IsSizeOfCompute self.now result }
    {
        self.tables().facts.size
    }

    /// Returns the greatest height of the operand stack in a call of `compute`. It counts the operands of all active
    /// functions, and those under each block.
    pub fn max_operands(&self) -> u32
        ensures { (compute : HasCompute self.now) → IsHeightAt self.now compute.number result }
    {
        self.tables().facts.max_operands
    }

    /// Returns the length of the longest chain of calls that begins with `compute`. It is 1 where `compute` calls
    /// only the host.
    pub fn max_frames(&self) -> u32
        ensures { (compute : HasCompute self.now) → IsDepthAt self.now compute.number result }
    {
        self.tables().facts.max_frames
    }

    /// Returns the cells that the frame of a function needs, which the module defines. The operands are those of its
    /// own body, without those of its callees. A count of more than 32 bits is capped at the greatest `u32`; no
    /// function that `compute` may reach has one. It allocates nothing.
    pub fn cells(&self, function: u32) -> Cells
        requires { IsDefined self.now function }
        ensures locals { result.locals ≡ locals_at self.now function }
        ensures operands { result.operands ≡ min (own_height self.now function) most_told }
        ensures exact { MayRun self.now function → result.operands ≡ own_height self.now function }
    {
        let tables = self.tables();
        tables.cells[function as usize - tables.calls.len()]
    }

    /// Counts the bytes of the memory that loads and stores reach. All functions count, called or not; each byte
    /// counts once. It allocates nothing.
    pub fn reach(&self) -> u32
        ensures { result ≡ reached_bytes self.now }
    {
        bytes_below(
            self.tables().extents.as_slice(),
            memory_bytes(self.module()) as u32,
        )
    }

    /// Counts the reached bytes that are below this byte. It allocates nothing.
    pub fn place(&self, byte: u32) -> u32
        ensures { result ≡ reached_below self.now byte }
    {
        bytes_below(self.tables().extents.as_slice(), byte)
    }

    /// Copies the module. The only error is that an allocation fails.
    pub fn copy(&self, alloc: Global) -> Result<Verified, AllocError>
        ensures { IfOk result (λ copy. copy ≡ self.now) }
    {
        let valid = copy_valid(alloc, &self.judged.valid)?;
        let tables = self.judged.tables.copy(alloc)?;
        Verified::of(alloc, valid, tables)
    }
}

// Copies a valid module.
fn copy_valid(alloc: Global, valid: &Valid) -> Result<Valid, AllocError>
    ensures { IfOk result (λ copy. copy ≡ valid.now) }
{
    let copy = Box::new(alloc, valid.module().copy(alloc)?)?;
    Ok(Valid::of(copy))
}
