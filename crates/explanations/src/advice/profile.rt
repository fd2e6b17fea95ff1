//! Advice on the rules of the bounded profile.

use crate::advice::Advice;
use crate::listing::Sight;
use profile_rules::ProfileRule;

/// Returns the advice on a rule, by the kind of code at the place.
pub fn advice_of(rule: ProfileRule, sight: Sight) -> Advice {
    match rule {
        ProfileRule::P1 => P1,
        ProfileRule::P2 => P2,
        ProfileRule::P3 => P3,
        ProfileRule::P4 => P4,
        ProfileRule::P5 => P5,
        ProfileRule::P6 => P6,
        ProfileRule::P7 => P7,
        ProfileRule::P8 => P8,
        ProfileRule::P9 => loop_advice_of(sight),
        ProfileRule::P10 => memory_advice_of(sight),
        ProfileRule::P11 => P11,
        ProfileRule::P12 => P12,
        ProfileRule::P13 => P13,
        ProfileRule::P14 => P14,
    }
}

/// Returns the advice on functions that call each other.
pub fn recursion() -> Advice {
    P12
}

fn loop_advice_of(sight: Sight) -> Advice {
    match sight {
        Sight::TakesItems => P9_MOVED,
        _ => P9_COUNTS,
    }
}

fn memory_advice_of(sight: Sight) -> Advice {
    match sight {
        Sight::Nothing => P10_PAGES,
        Sight::HasGlobals => P10_STACK,
        _ => P10_INDEX,
    }
}

const P1: Advice = Advice {
    sentence: "each import is a function of the module \"pregel\", with its type.",
    text: "  Usual cause: a misspelled name, another type, another module, or an imported memory, table or global.
  Write instead: one of the fourteen functions of docs/API.md, as (import \"pregel\" \"send\" (func $send (param i64 i64)));
    memories, tables and globals are defined.
",
    c: "  Usual cause: a function is declared with import attributes of its own, or one of the fourteen with another type.
  Write instead: only what pregel.h declares.
",
    rust: "  Usual cause: an `extern \"C\"` block of your own.
  Write instead: only what pregel.rs declares.
",
};

const P2: Advice = Advice {
    sentence: "the module defines a function without parameters and results, and exports it as \"compute\".",
    text: "  Usual cause: no function is exported by this name, or it has parameters or results, or it is an imported one.
  Write instead: (func (export \"compute\") ..)
",
    c: "  Usual cause: compute is not defined in the file, is static, or pregel.h is not included.
  Write instead: #include \"pregel.h\" and `void compute(void) { .. }`.
",
    rust: "  Usual cause: compute is missing, has another type, or lacks #[no_mangle].
  Write instead: #[no_mangle] pub extern \"C\" fn compute() { .. }
",
};

const P3: Advice = Advice {
    sentence: "there is no start function.",
    text: "  Usual cause: (start ..)
  Write instead: a call of that function where compute begins. Nothing lives from one call of compute to the next.
",
    c: "  Usual cause: the linker was given another option than pregel-cc gives.
  Write instead: link by `wasm-ld --no-entry`; what is to run first is called where compute begins.
",
    rust: "  Usual cause: the linker was given another option than pregel-cc gives.
  Write instead: a cdylib, as pregel-cc makes; what is to run first is called where compute begins.
",
};

const P4: Advice = Advice {
    sentence: "there are no element segments.",
    text: "  Usual cause: (elem ..), for call_indirect.
  Write instead: `if` or br_table, and call each function by its number.
",
    c: "  Usual cause: the address of a function is taken: a function pointer, or a table of functions.
  Write instead: `if` or `switch`, and call each function by its name.
",
    rust: "  Usual cause: a panic that the compiler could not rule out, whose message brings a table of functions along: an index out of range, a
    division by a variable, `unwrap`, an overflow with checks on. Or a function pointer, or a `dyn` trait.
  Write instead:
    divide(n, d), modulo(n, d)          for  n / d, n % d
    get(i), `if let`, unwrap_or         for  [i], unwrap
    generic functions, closures, match  for  tables of functions
",
};

const P5: Advice = Advice {
    sentence: "there is no indirect call.",
    text: "  Usual cause: call_indirect
  Write instead: `if` or br_table, and call each function by its number.
",
    c: "  Usual cause: a call by a function pointer that the compiler could not resolve.
  Write instead: `if` or `switch`, and call each function by its name.
",
    rust: "  Usual cause: a call by a function pointer or a `dyn` trait.
  Write instead: generic functions and closures, `if` and `match`.
",
};

const P6: Advice = Advice {
    sentence: "there is no unreachable instruction.",
    text: "  Usual cause: unreachable, also where nothing comes.
  Write instead: return, with an answer where the function has one.
",
    c: "  Usual cause: __builtin_trap(), __builtin_unreachable(), a loop without end and without effect, a function that ends without `return`
    of a value, or wasm-opt, which `clang` runs where it links by itself.
  Write instead: `if (bad) { aggregate(AGGREGATOR_OR, 1); return; }`; compile and link by two commands, as pregel-cc does.
",
    rust: "  Usual cause: a panic that the compiler could not rule out: an index or slice out of range, `unwrap`, `expect`, a division by a variable,
    an overflow with checks on.
  Write instead: `get`, `if let`, `unwrap_or`, the wrapping_ functions; divide(n, d) for n / d.
",
};

const P7: Advice = Advice {
    sentence: "memory does not grow.",
    text: "  Usual cause: memory.grow
  Write instead: all the pages that you need, up to 16, as (memory 4).
",
    c: "  Usual cause: __builtin_wasm_memory_grow, or an allocator.
  Write instead: static variables; all memory is there from the beginning.
",
    rust: "  Usual cause: an allocator: Vec, String, Box.
  Write instead: local variables and arrays; all memory is there from the beginning.
",
};

const P8: Advice = Advice {
    sentence: "nothing follows br, br_table or return in a sequence.",
    text: "  Usual cause: an instruction between br, br_table or return and the end of its block.
  Write instead: the same without it, since it is never executed.
",
    c: "  Usual cause: a compiler that does not remove code that cannot be reached. (Clang does from -O1 on.)
  Write instead: the same with -O2.
",
    rust: "  Usual cause: a compiler that does not remove code that cannot be reached.
  Write instead: the same with -O 2.
",
};

const P9_COUNTS: Advice = Advice {
    sentence: "each loop takes a message or an edge each time round.",
    text: "  Usual cause: this loop takes none itself: it counts, or runs until a condition holds.
  Write instead:
    its body, written out as often as it can run; or calls of a function that does a part of it
    i64.clz, i64.ctz, i64.popcnt    in place of loops over bits
    one step in each superstep      where the number of steps has no bound: stay active, and keep the state in the value
",
    c: "  Usual cause: this loop takes none itself: it counts, or runs until a condition holds.
  Write instead:
    UNROLL for (int i = 0; i < 20; i++) if (i < n) ..    where 20 is enough; a constant number of times is written out
    __builtin_clzll, __builtin_ctzll, __builtin_popcountll    in place of loops over bits
    one step in each superstep    where the number of steps has no bound: stay active, and keep the state in the value
",
    rust: "  Usual cause: this loop takes none itself: it counts, or runs until a condition holds; or a range of constants was not written out.
  Write instead:
    for i in 0..20 { if i < n { .. } }    where 20 is enough: a small constant range is written out
    leading_zeros, trailing_zeros, count_ones    in place of loops over bits
    one step in each superstep    where the number of steps has no bound: stay active, and keep the state in the value
",
};

const P9_MOVED: Advice = Advice {
    sentence: "the call of next_message or next_edge comes first in its loop (or last, before the only branch back).",
    text: "  Usual cause: something stands before the call, or the loop also goes back from elsewhere than its end.
  Write instead: one of these two shapes
    (block $end (loop $items (br_if $end (i32.eqz (call $next_message))) .. (br $items)))
    (loop $items (block $next ..) (br_if $items (call $next_message)))    with nothing else that branches to $items
",
    c: "  Usual cause: the loop has another condition beside the call, or the compiler moved code before the call.
  Write instead:
    EACH_MESSAGE if (n < 3) ..           for  while (n < 3 && next_message()) ..
    EACH_MESSAGE found |= ..             for  while (!found && next_message()) ..
    EACH_MESSAGE .. and EACH_EDGE ..     for  while (next_message() || next_edge()) ..
    EACH_MESSAGE { .. }                  for  while (next_message()) { .. }  in general
    sums and ?: in place of `if` in an UNROLL loop within a loop over items
",
    rust: "  Usual cause: `break` in a loop that only computes, or code that the compiler moved before the call.
  Write instead:
    for m in messages() { if !done { .. } }    for  if .. { break; }
    messages().fold(0, |sum, m| ..)            for a loop that only computes
    another level: pregel-cc -O s, -O 3        the verdict depends on it
",
};

const P10_PAGES: Advice = Advice {
    sentence: "memory has at most 16 pages of 64 KB, and the data lie in it.",
    text: "  Usual cause: (memory 17) or more, or a data segment that passes the memory's end.
  Write instead: (memory 16) or less; what a vertex keeps is its value of 64 bits.
",
    c: "  Usual cause: static variables of more than 1,000,000 bytes.
  Write instead: smaller ones; what a vertex keeps is its value of 64 bits.
",
    rust: "  Usual cause: rustc's stack of 1 MB, or data of that size.
  Write instead: link with -C link-arg=-zstack-size=1024, as pregel-cc does.
",
};

// Returns the advice on an address in text, whatever else the function has.
const ADDRESS_IN_TEXT: &str =
    "  Usual cause: the address comes from a local, a global, a block or arithmetic, or the access passes the memory's end.
  Write instead: a constant right before it, with `offset=` if you like, as (i32.load offset=8 (i32.const 0)). To choose among
    places, load from each and choose among the values.
";

const P10_STACK: Advice = Advice {
    sentence: "each address is a constant.",
    text: ADDRESS_IN_TEXT,
    c: "  Usual cause: a variable on the stack, at an address that is computed: an array with an index that is not constant, `&x` or a struct
    given to a function that is not inlined, a volatile local variable, or -O0.
  Write instead:
    AT(array, i) and SET_AT(array, i, x)    for  array[i]
    PREGEL_INLINE                           before a function that is given `&x`
    static variables                        for structs that are given around (they have their first values again in each call)
",
    rust: "  Usual cause: a variable on the stack, at an address that is computed: an array with an index that is not constant, `&mut x` given to a
    function that is not inlined, a struct as a result.
  Write instead:
    for i in 0..8 { counts[i] += (i == n) as i64; }    for  counts[n] += 1
    #[inline(always)]                                  before a function that is given `&mut x`
",
};

const P10_INDEX: Advice = Advice {
    sentence: "each address is a constant.",
    text: ADDRESS_IN_TEXT,
    c: "  Usual cause: an array or a table of constants with an index that is not constant, or a pointer that may point to several variables.
  Write instead:
    AT(array, i) and SET_AT(array, i, x)    for  array[i]
    0x1311110d0b070503ull >> i * 8 & 255    for  a table of small constants
    x = a ? 1 : x; y = a ? y : 1;           for  *(a ? &x : &y) = 1, and for two branches with one assignment each
",
    rust: "  Usual cause: a table of constants with an index that is not constant, or a `match` that was made one.
  Write instead:
    0x1311_110d_0b07_0503u64 >> (i * 8) & 255    for  a table of small constants
    for i in 0..8 { if i == n { found = TABLE[i]; } }
",
};

const P11: Advice = Advice {
    sentence: "each divisor is a constant other than 0 (and for signed division other than -1).",
    text: "  Usual cause: the divisor comes from a local, a call or arithmetic.
  Write instead:
    (i64.div_u (local.get $x) (i64.const 10))    the constant right before the division
    shifts                                       for powers of 2
    (i64.sub (i64.const 0) (local.get $x))       for x / -1
    a weight in the graph file: the edge carries 2^32 / d, and n / d is (n * edge_value) >> 32
",
    c: "  Usual cause: `/` or `%` by a variable.
  Write instead:
    divide(n, d)     for  n / d    (no signs; some 160 units; 0 where d is 0)
    modulo(n, d)     for  n % d
    -n               for  n / -1
    a weight in the graph file: the edge carries 2^32 / d, and n / d is  n * edge_value() >> 32
",
    rust: "  Usual cause: `/` or `%` by a variable.
  Write instead:
    divide(n, d)     for  n / d    (no signs; some 160 units; 0 where d is 0)
    modulo(n, d)     for  n % d
    a weight in the graph file: the edge carries 2^32 / d, and n / d is  n * edge.value >> 32
",
};

const P12: Advice = Advice {
    sentence: "no function calls itself, directly or by way of others.",
    text: "  Usual cause: recursion.
  Write instead: a loop over items, one step in each superstep, or a function for each depth.
",
    c: "  Usual cause: recursion that the compiler did not turn into a loop.
  Write instead: a loop over items, one step in each superstep, or a function for each depth.
",
    rust: "  Usual cause: recursion that the compiler did not turn into a loop.
  Write instead: a loop over items, one step in each superstep, or a function for each depth.
",
};

const P13: Advice = Advice {
    sentence: "the number of an aggregator is a constant from 0 to 7.",
    text: "  Usual cause: the number comes from a local or arithmetic, or is above 7. For `aggregate` it is the operand below the value.
  Write instead: (call $aggregate (i32.const 0) (local.get $value))
",
    c: "  Usual cause: aggregate or aggregated is imported by your own declaration, or called with a number outside 0 to 7.
  Write instead: aggregate() and aggregated() of pregel.h, which choose among eight calls with constants.
",
    rust: "  Usual cause: aggregate or aggregated with a number outside 0 to 7.
  Write instead: aggregate::<0>(value), the number between 0 and 7.
",
};

const P14: Advice = Advice {
    sentence: "the size of compute, with the functions that it calls counted once for each call, is at most 8,388,608.",
    text: "  Usual cause: functions each of which calls the one before several times, so that the size doubles each time.
  Write instead: fewer calls, the result of a call kept in a local, one step in each superstep.
",
    c: "  Usual cause: UNROLL loops within each other, or functions that call others many times.
  Write instead: fewer times round, the result of a call kept in a variable, one step in each superstep.
",
    rust: "  Usual cause: ranges within each other that are written out, or functions that call others many times.
  Write instead: fewer times round, the result of a call kept in a variable, one step in each superstep.
",
};
