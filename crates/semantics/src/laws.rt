//! Laws of every run of the machine.

ghost use Rattle.std.specs.Prelude.{◌≡◌, ◌+◌, ◌≤◌, ℕ};
ghost use Rattle.wasm_ast.specs.declared.module.Module.{Module as AnyModule};
ghost use Rattle.verified.specs.declared.call.CallInput.{CallInput as AnyInput};
ghost use Rattle.verified.specs.declared.call.CallOutcome.{CallOutcome as AnyOutcome};
ghost use Rattle.verified.specs.Modules.{IsTyped};
ghost use Rattle.verified.specs.Profile.{IsBounded};
ghost use Rattle.semantics.specs.Bounded.{CallsEnd, FactsHold, Ends, ComesToItsEnd, MeetsNoFault, HasBounds};
ghost use Rattle.semantics.specs.Call.{IsOutcome, Outcome, SameOutcome, IsTrapped, IsStuck, shown};
ghost use Rattle.semantics.specs.Outcomes.{AreOutcomes, Given, HasOneOutcome, given_of};
ghost use Rattle.semantics.specs.Instructions.{instructions, units};
ghost use Rattle.semantics.specs.Machine.{Machine, IsOver, run};
ghost use Rattle.semantics.specs.Start.{Starts};

/// Proves that a run that is over stays over.
pub fn an_end_stays()
    ensures { (m : AnyModule) (n k : ℕ) (x : Machine) → IsOver (run m n x) → n ≤ k
        → run m k x ≡ run m n x }
{}

/// Proves that a call has one end: one outcome, or one count at which it traps or has no step, or no first step.
pub fn one_outcome()
    ensures outcome { (m : AnyModule) (input : AnyInput) (a b : AnyOutcome)
        → IsOutcome m input a → IsOutcome m input b → SameOutcome a b }
    ensures trap { (m : AnyModule) (input : AnyInput) (a b : ℕ)
        → IsTrapped m input a → IsTrapped m input b → a ≡ b }
    ensures stuck { (m : AnyModule) (input : AnyInput) (a b : ℕ)
        → IsStuck m input a → IsStuck m input b → a ≡ b }
    ensures outcome_no_trap { (m : AnyModule) (input : AnyInput) (a : AnyOutcome) (b : ℕ)
        → IsOutcome m input a → IsTrapped m input b → ⊥ }
    ensures outcome_not_stuck { (m : AnyModule) (input : AnyInput) (a : AnyOutcome) (b : ℕ)
        → IsOutcome m input a → IsStuck m input b → ⊥ }
    ensures trap_not_stuck { (m : AnyModule) (input : AnyInput) (a b : ℕ)
        → IsTrapped m input a → IsStuck m input b → ⊥ }
{}

/// Proves that the calls of a module in the bounded profile have one function from input to outcome. What a call
/// returns is the value of that function.
pub fn calls_are_a_function()
    ensures one { (m : AnyModule) → IsTyped m → IsBounded m → HasOneOutcome m }
    ensures told { (m : AnyModule) (outcomes : Given → Outcome) → AreOutcomes m outcomes
        → (input : AnyInput) (outcome : AnyOutcome) → IsOutcome m input outcome
        → shown outcome ≡ outcomes (given_of input) }
{}

/// Proves that a run executes no more instructions than it counts units, whatever the module. So a call executes at
/// most the units of its outcome.
pub fn instructions_are_counted()
    ensures run { (m : AnyModule) (n : ℕ) (x : Machine)
        → units x + instructions m n x ≤ units (run m n x) }
    ensures call { (m : AnyModule) (input : AnyInput) (outcome : AnyOutcome) → IsOutcome m input outcome
        → (first : Machine) → Starts m input first → (n : ℕ) → instructions m n first ≤ outcome.units }
{}

/// Proves that each compute call of a module in the bounded profile ends. It never traps, and there is a step for
/// each of its instructions. It counts no more than the size of `compute`, times one more than there are messages and
/// edges, and executes no more instructions. It never has more operands or frames than the module's bounds.
pub fn calls_end()
    ensures ends { (m : AnyModule) → CallsEnd m }
    ensures facts { (m : AnyModule) → FactsHold m }
    ensures always { (m : AnyModule) → IsTyped m → IsBounded m → (input : AnyInput)
        → ComesToItsEnd m input }
    ensures faults { (m : AnyModule) (input : AnyInput) (units most_operands most_frames : ℕ)
        → Ends m input units most_operands most_frames → MeetsNoFault m input units }
    ensures bounds { (m : AnyModule) → IsBounded m → HasBounds m }
{}
