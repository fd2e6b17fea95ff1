//! Advice on modules that are not valid.

use crate::advice::Advice;
use validate::Rule;

/// Returns the advice on a module that breaks this rule of validity.
pub fn advice_of(rule: Rule) -> Advice {
    let (sentence, text) = words_of(rule);
    Advice {
        sentence,
        text,
        c: IN_C,
        rust: IN_RUST,
    }
}

const IN_C: &str =
    "  Usual cause: a function is declared in two files with two types, or a tool has changed the module.
  Write instead: one declaration, in a header.
";

const IN_RUST: &str =
    "  Usual cause: a function is declared twice with two types, or a tool has changed the module.
  Write instead: one declaration.
";

// Returns what is wrong, and what to write in text.
fn words_of(rule: Rule) -> (&'static str, &'static str) {
    match rule {
        Rule::TypeNumber => (
            "The module is not valid: a number names no type.",
            "  Usual cause: types are counted from 0, and this is past the last.
  Write instead: the parameters and results themselves, as (func (param i64) (result i64) ..).
",
        ),
        Rule::Function => (
            "The module is not valid: a number names no function.",
            "  Usual cause: functions are counted from 0, the imported ones first, and this is past the last.
  Write instead: names, as (func $f ..) and (call $f).
",
        ),
        Rule::Local => (
            "The module is not valid: a number names no local.",
            "  Usual cause: locals are counted from 0, the parameters first, and this is past the last.
  Write instead: names, as (local $x i64) and (local.get $x).
",
        ),
        Rule::Global => (
            "The module is not valid: a number names no global.",
            "  Usual cause: globals are counted from 0, and this is past the last.
  Write instead: names, as (global $x (mut i64) (i64.const 0)) and (global.get $x).
",
        ),
        Rule::Label => (
            "The module is not valid: a number names no label.",
            "  Usual cause: labels are counted from 0, the innermost block first, and this is past the function's own.
  Write instead: names, as (block $end ..) and (br $end).
",
        ),
        Rule::Memory => (
            "The module is not valid: there is no memory.",
            "  Usual cause: a load, a store or a data segment in a module without memory.
  Write instead: (memory 1) beside the functions.
",
        ),
        Rule::Table => (
            "The module is not valid: there is no table.",
            "  Usual cause: call_indirect or an element segment, which the bounded profile refuses too.
  Write instead: call functions by their names.
",
        ),
        Rule::Mismatch => (
            "The module is not valid: there are operands or results of the wrong type or number.",
            "  Usual cause: i32 in place of i64 or the other way round, an operand that is missing, or one that is left at the end of a block.
  Write instead: i64.extend_i32_u or i32.wrap_i64 between the types; `drop` for what nobody takes; (result i64) where a block leaves one.
",
        ),
        Rule::Immutable => (
            "The module is not valid: a constant global is set.",
            "  Usual cause: the global is declared without `mut`.
  Write instead: (global $x (mut i64) (i64.const 0))
",
        ),
        Rule::Alignment => (
            "The module is not valid: an alignment is greater than the width of the access.",
            "  Usual cause: `align=` on a load or a store counts bytes, at most as many as are read or written.
  Write instead: the same without `align=`.
",
        ),
        Rule::DuplicateExport => (
            "The module is not valid: two exports have one name.",
            "  Usual cause: (export \"compute\") at two functions.
  Write instead: another name, or no export.
",
        ),
        Rule::ConstExpr => (
            "The module is not valid: an initial value or an offset is not one constant instruction.",
            "  Usual cause: arithmetic, or the value of another global.
  Write instead: the number, as (i64.const 12).
",
        ),
        Rule::Limits => (
            "The module passes a limit: two results, tables or memories, a maximum below its minimum, or more than 1,024 functions, 1,024 \
            parameters and locals of a function, or 128 blocks deep.",
            "  Usual cause: two memories, two results, or generated text.
  Write instead: one memory, at most one result; a function for a part of a large one.
",
        ),
        Rule::StartType => (
            "The module is not valid: the start function takes or gives something.",
            "  Usual cause: (start ..), which the bounded profile refuses too.
  Write instead: a call where compute begins.
",
        ),
    }
}
