//! Advice on bytes that are not a module.

use crate::advice::Advice;
use wasm_decode::DecodeRule;

/// Returns the advice on bytes that break this rule.
pub fn advice_of(rule: DecodeRule) -> Advice {
    match rule {
        DecodeRule::BadByte => BAD_BYTE,
        DecodeRule::Unsupported => UNSUPPORTED,
        DecodeRule::OverLimit => OVER_LIMIT,
        DecodeRule::Magic
        | DecodeRule::Version
        | DecodeRule::Truncated
        | DecodeRule::Leb
        | DecodeRule::SectionOrder
        | DecodeRule::SectionSize
        | DecodeRule::Utf8
        | DecodeRule::CountMismatch => NO_MODULE,
    }
}

const BAD_BYTE: Advice = Advice {
    sentence: "The module has an instruction that came after WebAssembly 1.0.",
    text: "  Usual cause: another assembler, with later features switched on.
  Write instead: instructions of WebAssembly 1.0; `pregel asm` makes a module of text.
",
    c: "  Usual cause: sign extension, bulk memory and the like, which newer compilers use by themselves.
  Write instead: compile with -mcpu=mvp, as pregel-cc does; no __builtin_wasm functions of later versions.
",
    rust: "  Usual cause: sign extension, bulk memory and the like, which newer compilers use by themselves. The libraries that come with rustc
    may hold such instructions too.
  Write instead: compile with -C target-cpu=mvp, as pregel-cc does.
",
};

const UNSUPPORTED: Advice = Advice {
    sentence: "The module has floating-point numbers, or something that came after WebAssembly 1.0.",
    text: "  Usual cause: f32 or f64.
  Write instead: whole numbers: billionths, or a fraction of 2^32.
",
    c: "  Usual cause: float or double.
  Write instead: whole numbers: billionths, or a fraction of 2^32.
",
    rust: "  Usual cause: f32 or f64.
  Write instead: whole numbers: billionths, or a fraction of 2^32.
",
};

const OVER_LIMIT: Advice = Advice {
    sentence: "The module is larger than a limit: 1,048,576 bytes, 1,024 functions, 1,024 parameters and locals of a function, 128 blocks deep.",
    text: "  Usual cause: names that another assembler adds, large data segments, or generated text.
  Write instead: a smaller module; `pregel asm` adds no names.
",
    c: "  Usual cause: debug information; UNROLL loops that run a thousand times; `switch` or `if` 128 deep.
  Write instead: no -g (pregel-cc strips the module); fewer times round; a function for a part, which is not inlined.
",
    rust: "  Usual cause: debug information of the libraries.
  Write instead: -C strip=symbols, as pregel-cc does.
",
};

const NO_MODULE: Advice = Advice {
    sentence: "The bytes are no WebAssembly 1.0 module.",
    text: "  Usual cause: the file is text, and its name does not end in `.wat`; or it was cut.
  Write instead: a name that ends in `.wat`.
",
    c: "  Usual cause: a linker or tool other than wasm-ld has written the file.
  Write instead: clang and wasm-ld as pregel-cc calls them.
",
    rust: "  Usual cause: a linker or tool other than wasm-ld has written the file.
  Write instead: rustc and wasm-ld as pregel-cc calls them.
",
};
