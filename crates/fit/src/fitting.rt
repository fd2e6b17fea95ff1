//! Modules that are rewritten.

ghost use Rattle.std.specs.Prelude.{◌≡◌, IfOk, true};
ghost use Rattle.verified.specs.Profile.{IsBounded};
ghost use Rattle.fit.specs.Fit.{KeepsModule, SameOutside};

use crate::items::takers;
use crate::rewriting::{Surroundings, rewritten_body};
use bounded_profile::{ProfileFault, verify};
use std::alloc::{AllocError, Global};
use validate::{Valid, ValidFault, validate};
use wasm_ast::{FuncType, Function, Module, Sequence, ValType};

/// Rewrites a module nearer to the bounded profile. The result is valid, and the same except for the bodies of functions. A
/// module that is in the profile is returned as it is, and so is one whose rewriting is not valid.
///
/// In each body it drops code that is never reached, makes a block of a loop to which nothing goes back, and changes loops
/// that take a message or an edge in the midst of their code to ones that take it first or last.
///
/// It takes time by the length of the module and by the depth of its blocks. A body gets at most twice as long, and some
/// instructions longer for each loop. The only error is that memory ran out.
pub fn fit(alloc: Global, valid: Valid) -> Result<Valid, AllocError>
    ensures outside { IfOk result (KeepsModule valid) }
    ensures bounded { IfOk result (λ fitted. IsBounded valid → fitted ≡ valid) }
{
    if is_bounded(alloc, &valid)? {
        return Ok(valid);
    }
    let module = rewritten_module(alloc, valid.module())?;
    match validate(alloc, module) {
        Ok(fitted) => Ok(fitted),
        Err(ValidFault::OutOfMemory) => Err(AllocError),
        Err(ValidFault::Breaks(_, _)) => Ok(valid),
    }
}

// Whether a module is in the bounded profile. It judges a copy.
fn is_bounded(alloc: Global, valid: &Valid) -> Result<bool, AllocError>
    ensures { IfOk result (λ bounded. IsBounded valid.now → bounded ≡ true) }
{
    let Ok(copy) = validate(alloc, valid.module().copy(alloc)?) else {
        // The module is valid: there was no memory to see that.
        return Err(AllocError);
    };
    match verify(alloc, copy) {
        Ok(_) => Ok(true),
        Err(ProfileFault::OutOfMemory) => Err(AllocError),
        Err(_) => Ok(false),
    }
}

// The module with each body rewritten.
fn rewritten_module(alloc: Global, module: &Module) -> Result<Module, AllocError>
    ensures { IfOk result (KeepsModule «module».now) }
{
    let mut copy = module.copy(alloc)?;
    copy.functions = rewritten_functions(alloc, module)?;
    Ok(copy)
}

fn rewritten_functions(alloc: Global, module: &Module) -> Result<Sequence<Function>, AllocError>
    ensures { IfOk result (SameOutside «module».now.functions) }
{
    let takers = takers(alloc, module.imports.as_slice())?;
    let mut functions = Vec::new(alloc);
    for function in module.functions.as_slice() {
        let around = Surroundings {
            takers: takers.as_slice(),
            gives: result_of(module.types.as_slice(), function.type_number),
        };
        functions.push(rewritten_function(alloc, around, function)?)?;
    }
    Ok(Sequence::from(functions))
}

// The result of a function whose type has this number.
fn result_of(types: &[FuncType], type_number: u32) -> Option<ValType> {
    match types.get(type_number as usize) {
        Some(func_type) => func_type.results.as_slice().first().copied(),
        None => None,
    }
}

fn rewritten_function(
    alloc: Global,
    around: Surroundings,
    function: &Function,
) -> Result<Function, AllocError>
    ensures number { IfOk result (λ f. f.type_number ≡ function.now.type_number) }
    ensures locals { IfOk result (λ f. f.locals ≡ function.now.locals) }
{
    let locals = function.locals.as_slice().to_vec(alloc)?;
    Ok(Function {
        type_number: function.type_number,
        locals: Sequence::from(locals),
        body: rewritten_body(alloc, around, &function.body)?,
    })
}
