ghost use Rattle.std.specs.Prelude.{◌≡◌, ◌++◌, ℕ, List, Some, map, reverse};
ghost use Rattle.verified.specs.declared.imports.HostCall.{HostCall as AnyCall};
ghost use Rattle.wasm_ast.specs.declared.types.Value.{Value as AnyValue};
ghost use Rattle.wasm_ast.specs.Values.{type_of};
ghost use Rattle.verified.specs.Effects.{Answers, host_effect};
ghost use Rattle.verified.specs.Host.{Host};
ghost use Rattle.verified.specs.Imports.{module_name, name_of, type_of_call, call_named};

/// States that each host function is imported by its module and name, and by no others.
pub fn each_import_is_one_call()
    ensures named { (call : AnyCall) → call_named module_name (name_of call) ≡ Some call }
    ensures only { («module» name : List ℕ) (call : AnyCall) → call_named «module» name ≡ Some call
        → («module» ≡ module_name) × (name ≡ name_of call) }
{}

/// States what a call does whose arguments have the types of its parameters (Core 1.0, 4.4.7). It leaves
/// results of its types on the operands beneath, or traps. Only `aggregate` and `aggregated` may trap.
pub fn calls_fit_their_types()
    ensures { (call : AnyCall) (arguments others : List AnyValue) (host : Host)
        → map type_of arguments ≡ reverse (type_of_call call).parameters
        → Answers call others (host_effect call (arguments ++ others) host) }
{}
