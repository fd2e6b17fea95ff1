//! The keywords of the text format (Core 1.0, 6.3.1).

ghost use Rattle.std.specs.Prelude.{◌≡◌};
ghost use Rattle.wat_syntax.specs.Keywords.{type_text, of_type, comparison_text, unary_text, binary_text, division_text, numeric_text, load_text, lookup, store_text};

use wasm_ast::{Binary, Comparison, Conversion, Division, Load, Numeric, Store, Unary, ValType};

/// A keyword of a module's fields, of types, or of an instruction (Core 1.0, 6.3.1).
#[derive(Clone, Copy)]
pub enum Keyword {
    Module,
    /// `type`, of a field or of a type use.
    FuncType,
    Func,
    Param,
    Result,
    Local,
    Import,
    Export,
    Table,
    Memory,
    Global,
    Mut,
    Start,
    Elem,
    Data,
    Offset,
    Funcref,
    Type(ValType),
    Block,
    Loop,
    If,
    Then,
    Else,
    End,
    Br,
    BrIf,
    BrTable,
    Return,
    Call,
    CallIndirect,
    Unreachable,
    Nop,
    Drop,
    Select,
    LocalGet,
    LocalSet,
    LocalTee,
    GlobalGet,
    GlobalSet,
    Load(Load),
    Store(Store),
    MemorySize,
    MemoryGrow,
    Const(ValType),
    Numeric(Numeric),
}

/// Every keyword.
const KEYWORDS: [Keyword; 124] = [
    Keyword::Module,
    Keyword::FuncType,
    Keyword::Func,
    Keyword::Param,
    Keyword::Result,
    Keyword::Local,
    Keyword::Import,
    Keyword::Export,
    Keyword::Table,
    Keyword::Memory,
    Keyword::Global,
    Keyword::Mut,
    Keyword::Start,
    Keyword::Elem,
    Keyword::Data,
    Keyword::Offset,
    Keyword::Funcref,
    Keyword::Block,
    Keyword::Loop,
    Keyword::If,
    Keyword::Then,
    Keyword::Else,
    Keyword::End,
    Keyword::Br,
    Keyword::BrIf,
    Keyword::BrTable,
    Keyword::Return,
    Keyword::Call,
    Keyword::CallIndirect,
    Keyword::Unreachable,
    Keyword::Nop,
    Keyword::Drop,
    Keyword::Select,
    Keyword::LocalGet,
    Keyword::LocalSet,
    Keyword::LocalTee,
    Keyword::GlobalGet,
    Keyword::GlobalSet,
    Keyword::MemorySize,
    Keyword::MemoryGrow,
    Keyword::Type(ValType::I32),
    Keyword::Const(ValType::I32),
    Keyword::Numeric(Numeric::Eqz(ValType::I32)),
    Keyword::Numeric(Numeric::Unary(ValType::I32, Unary::Clz)),
    Keyword::Numeric(Numeric::Unary(ValType::I32, Unary::Ctz)),
    Keyword::Numeric(Numeric::Unary(ValType::I32, Unary::Popcnt)),
    Keyword::Numeric(Numeric::Binary(ValType::I32, Binary::Add)),
    Keyword::Numeric(Numeric::Binary(ValType::I32, Binary::Sub)),
    Keyword::Numeric(Numeric::Binary(ValType::I32, Binary::Mul)),
    Keyword::Numeric(Numeric::Binary(ValType::I32, Binary::And)),
    Keyword::Numeric(Numeric::Binary(ValType::I32, Binary::Or)),
    Keyword::Numeric(Numeric::Binary(ValType::I32, Binary::Xor)),
    Keyword::Numeric(Numeric::Binary(ValType::I32, Binary::Shl)),
    Keyword::Numeric(Numeric::Binary(ValType::I32, Binary::ShrS)),
    Keyword::Numeric(Numeric::Binary(ValType::I32, Binary::ShrU)),
    Keyword::Numeric(Numeric::Binary(ValType::I32, Binary::Rotl)),
    Keyword::Numeric(Numeric::Binary(ValType::I32, Binary::Rotr)),
    Keyword::Numeric(Numeric::Division(ValType::I32, Division::DivS)),
    Keyword::Numeric(Numeric::Division(ValType::I32, Division::DivU)),
    Keyword::Numeric(Numeric::Division(ValType::I32, Division::RemS)),
    Keyword::Numeric(Numeric::Division(ValType::I32, Division::RemU)),
    Keyword::Numeric(Numeric::Comparison(ValType::I32, Comparison::Eq)),
    Keyword::Numeric(Numeric::Comparison(ValType::I32, Comparison::Ne)),
    Keyword::Numeric(Numeric::Comparison(ValType::I32, Comparison::LtS)),
    Keyword::Numeric(Numeric::Comparison(ValType::I32, Comparison::LtU)),
    Keyword::Numeric(Numeric::Comparison(ValType::I32, Comparison::GtS)),
    Keyword::Numeric(Numeric::Comparison(ValType::I32, Comparison::GtU)),
    Keyword::Numeric(Numeric::Comparison(ValType::I32, Comparison::LeS)),
    Keyword::Numeric(Numeric::Comparison(ValType::I32, Comparison::LeU)),
    Keyword::Numeric(Numeric::Comparison(ValType::I32, Comparison::GeS)),
    Keyword::Numeric(Numeric::Comparison(ValType::I32, Comparison::GeU)),
    Keyword::Type(ValType::I64),
    Keyword::Const(ValType::I64),
    Keyword::Numeric(Numeric::Eqz(ValType::I64)),
    Keyword::Numeric(Numeric::Unary(ValType::I64, Unary::Clz)),
    Keyword::Numeric(Numeric::Unary(ValType::I64, Unary::Ctz)),
    Keyword::Numeric(Numeric::Unary(ValType::I64, Unary::Popcnt)),
    Keyword::Numeric(Numeric::Binary(ValType::I64, Binary::Add)),
    Keyword::Numeric(Numeric::Binary(ValType::I64, Binary::Sub)),
    Keyword::Numeric(Numeric::Binary(ValType::I64, Binary::Mul)),
    Keyword::Numeric(Numeric::Binary(ValType::I64, Binary::And)),
    Keyword::Numeric(Numeric::Binary(ValType::I64, Binary::Or)),
    Keyword::Numeric(Numeric::Binary(ValType::I64, Binary::Xor)),
    Keyword::Numeric(Numeric::Binary(ValType::I64, Binary::Shl)),
    Keyword::Numeric(Numeric::Binary(ValType::I64, Binary::ShrS)),
    Keyword::Numeric(Numeric::Binary(ValType::I64, Binary::ShrU)),
    Keyword::Numeric(Numeric::Binary(ValType::I64, Binary::Rotl)),
    Keyword::Numeric(Numeric::Binary(ValType::I64, Binary::Rotr)),
    Keyword::Numeric(Numeric::Division(ValType::I64, Division::DivS)),
    Keyword::Numeric(Numeric::Division(ValType::I64, Division::DivU)),
    Keyword::Numeric(Numeric::Division(ValType::I64, Division::RemS)),
    Keyword::Numeric(Numeric::Division(ValType::I64, Division::RemU)),
    Keyword::Numeric(Numeric::Comparison(ValType::I64, Comparison::Eq)),
    Keyword::Numeric(Numeric::Comparison(ValType::I64, Comparison::Ne)),
    Keyword::Numeric(Numeric::Comparison(ValType::I64, Comparison::LtS)),
    Keyword::Numeric(Numeric::Comparison(ValType::I64, Comparison::LtU)),
    Keyword::Numeric(Numeric::Comparison(ValType::I64, Comparison::GtS)),
    Keyword::Numeric(Numeric::Comparison(ValType::I64, Comparison::GtU)),
    Keyword::Numeric(Numeric::Comparison(ValType::I64, Comparison::LeS)),
    Keyword::Numeric(Numeric::Comparison(ValType::I64, Comparison::LeU)),
    Keyword::Numeric(Numeric::Comparison(ValType::I64, Comparison::GeS)),
    Keyword::Numeric(Numeric::Comparison(ValType::I64, Comparison::GeU)),
    Keyword::Load(Load::I32),
    Keyword::Load(Load::I64),
    Keyword::Load(Load::I32From8S),
    Keyword::Load(Load::I32From8U),
    Keyword::Load(Load::I32From16S),
    Keyword::Load(Load::I32From16U),
    Keyword::Load(Load::I64From8S),
    Keyword::Load(Load::I64From8U),
    Keyword::Load(Load::I64From16S),
    Keyword::Load(Load::I64From16U),
    Keyword::Load(Load::I64From32S),
    Keyword::Load(Load::I64From32U),
    Keyword::Store(Store::I32),
    Keyword::Store(Store::I64),
    Keyword::Store(Store::I32To8),
    Keyword::Store(Store::I32To16),
    Keyword::Store(Store::I64To8),
    Keyword::Store(Store::I64To16),
    Keyword::Store(Store::I64To32),
    Keyword::Numeric(Numeric::Conversion(Conversion::Wrap)),
    Keyword::Numeric(Numeric::Conversion(Conversion::ExtendS)),
    Keyword::Numeric(Numeric::Conversion(Conversion::ExtendU)),
];

impl Keyword {
    ghost use Rattle.std.specs.Prelude.{◌≡◌, ◌↔◌};
    ghost use Rattle.wat_syntax.specs.declared.keyword.Keyword.{Keyword as AnyKeyword};
    ghost use Rattle.wat_syntax.specs.Keywords.{keyword_text, lookup};

    /// Returns the spelling of the keyword.
    pub fn text(self) -> &'static str
        ensures { result.now ≡ keyword_text self }
    {
        match self {
            Keyword::Module => "module",
            Keyword::FuncType => "type",
            Keyword::Func => "func",
            Keyword::Param => "param",
            Keyword::Result => "result",
            Keyword::Local => "local",
            Keyword::Import => "import",
            Keyword::Export => "export",
            Keyword::Table => "table",
            Keyword::Memory => "memory",
            Keyword::Global => "global",
            Keyword::Mut => "mut",
            Keyword::Start => "start",
            Keyword::Elem => "elem",
            Keyword::Data => "data",
            Keyword::Offset => "offset",
            Keyword::Funcref => "funcref",
            Keyword::Type(t) => type_text(t),
            Keyword::Block => "block",
            Keyword::Loop => "loop",
            Keyword::If => "if",
            Keyword::Then => "then",
            Keyword::Else => "else",
            Keyword::End => "end",
            Keyword::Br => "br",
            Keyword::BrIf => "br_if",
            Keyword::BrTable => "br_table",
            Keyword::Return => "return",
            Keyword::Call => "call",
            Keyword::CallIndirect => "call_indirect",
            Keyword::Unreachable => "unreachable",
            Keyword::Nop => "nop",
            Keyword::Drop => "drop",
            Keyword::Select => "select",
            Keyword::LocalGet => "local.get",
            Keyword::LocalSet => "local.set",
            Keyword::LocalTee => "local.tee",
            Keyword::GlobalGet => "global.get",
            Keyword::GlobalSet => "global.set",
            Keyword::MemorySize => "memory.size",
            Keyword::MemoryGrow => "memory.grow",
            Keyword::Load(op) => load_text(op),
            Keyword::Store(op) => store_text(op),
            Keyword::Const(ValType::I32) => "i32.const",
            Keyword::Const(ValType::I64) => "i64.const",
            Keyword::Numeric(op) => numeric_text(op),
        }
    }

    /// Finds the keyword with this spelling, if there is one. No two have the same.
    pub fn named(word: &str) -> Option<Keyword>
        ensures { (k : AnyKeyword) → (result ≡ Some k) ↔ (keyword_text k ≡ word.now) }
    {
        Keyword::spelled(word.as_bytes())
    }

    /// Finds the keyword with these bytes, if there is one.
    pub fn spelled(word: &[u8]) -> Option<Keyword>
        ensures { result ≡ lookup KEYWORDS word.now }
    {
        find(&KEYWORDS, word)
    }
}

fn find(keywords: &[Keyword], word: &[u8]) -> Option<Keyword>
    ensures { result ≡ lookup keywords.now word.now }
{
    for keyword in keywords {
        if keyword.text().as_bytes() == word {
            return Some(*keyword);
        }
    }
    None
}

fn type_text(t: ValType) -> &'static str
    ensures { result.now ≡ type_text t }
{
    match t {
        ValType::I32 => "i32",
        ValType::I64 => "i64",
    }
}

fn numeric_text(op: Numeric) -> &'static str
    ensures { result.now ≡ numeric_text op }
{
    match op {
        Numeric::Eqz(ValType::I32) => "i32.eqz",
        Numeric::Eqz(ValType::I64) => "i64.eqz",
        Numeric::Comparison(t, op) => comparison_text(t, op),
        Numeric::Unary(t, op) => unary_text(t, op),
        Numeric::Binary(t, op) => binary_text(t, op),
        Numeric::Division(t, op) => division_text(t, op),
        Numeric::Conversion(Conversion::Wrap) => "i32.wrap_i64",
        Numeric::Conversion(Conversion::ExtendS) => "i64.extend_i32_s",
        Numeric::Conversion(Conversion::ExtendU) => "i64.extend_i32_u",
    }
}

fn comparison_text(t: ValType, op: Comparison) -> &'static str
    ensures { result.now ≡ of_type t (comparison_text op) }
{
    match (t, op) {
        (ValType::I32, Comparison::Eq) => "i32.eq",
        (ValType::I32, Comparison::Ne) => "i32.ne",
        (ValType::I32, Comparison::LtS) => "i32.lt_s",
        (ValType::I32, Comparison::LtU) => "i32.lt_u",
        (ValType::I32, Comparison::GtS) => "i32.gt_s",
        (ValType::I32, Comparison::GtU) => "i32.gt_u",
        (ValType::I32, Comparison::LeS) => "i32.le_s",
        (ValType::I32, Comparison::LeU) => "i32.le_u",
        (ValType::I32, Comparison::GeS) => "i32.ge_s",
        (ValType::I32, Comparison::GeU) => "i32.ge_u",
        (ValType::I64, Comparison::Eq) => "i64.eq",
        (ValType::I64, Comparison::Ne) => "i64.ne",
        (ValType::I64, Comparison::LtS) => "i64.lt_s",
        (ValType::I64, Comparison::LtU) => "i64.lt_u",
        (ValType::I64, Comparison::GtS) => "i64.gt_s",
        (ValType::I64, Comparison::GtU) => "i64.gt_u",
        (ValType::I64, Comparison::LeS) => "i64.le_s",
        (ValType::I64, Comparison::LeU) => "i64.le_u",
        (ValType::I64, Comparison::GeS) => "i64.ge_s",
        (ValType::I64, Comparison::GeU) => "i64.ge_u",
    }
}

fn unary_text(t: ValType, op: Unary) -> &'static str
    ensures { result.now ≡ of_type t (unary_text op) }
{
    match (t, op) {
        (ValType::I32, Unary::Clz) => "i32.clz",
        (ValType::I32, Unary::Ctz) => "i32.ctz",
        (ValType::I32, Unary::Popcnt) => "i32.popcnt",
        (ValType::I64, Unary::Clz) => "i64.clz",
        (ValType::I64, Unary::Ctz) => "i64.ctz",
        (ValType::I64, Unary::Popcnt) => "i64.popcnt",
    }
}

fn binary_text(t: ValType, op: Binary) -> &'static str
    ensures { result.now ≡ of_type t (binary_text op) }
{
    match (t, op) {
        (ValType::I32, Binary::Add) => "i32.add",
        (ValType::I32, Binary::Sub) => "i32.sub",
        (ValType::I32, Binary::Mul) => "i32.mul",
        (ValType::I32, Binary::And) => "i32.and",
        (ValType::I32, Binary::Or) => "i32.or",
        (ValType::I32, Binary::Xor) => "i32.xor",
        (ValType::I32, Binary::Shl) => "i32.shl",
        (ValType::I32, Binary::ShrS) => "i32.shr_s",
        (ValType::I32, Binary::ShrU) => "i32.shr_u",
        (ValType::I32, Binary::Rotl) => "i32.rotl",
        (ValType::I32, Binary::Rotr) => "i32.rotr",
        (ValType::I64, Binary::Add) => "i64.add",
        (ValType::I64, Binary::Sub) => "i64.sub",
        (ValType::I64, Binary::Mul) => "i64.mul",
        (ValType::I64, Binary::And) => "i64.and",
        (ValType::I64, Binary::Or) => "i64.or",
        (ValType::I64, Binary::Xor) => "i64.xor",
        (ValType::I64, Binary::Shl) => "i64.shl",
        (ValType::I64, Binary::ShrS) => "i64.shr_s",
        (ValType::I64, Binary::ShrU) => "i64.shr_u",
        (ValType::I64, Binary::Rotl) => "i64.rotl",
        (ValType::I64, Binary::Rotr) => "i64.rotr",
    }
}

fn division_text(t: ValType, op: Division) -> &'static str
    ensures { result.now ≡ of_type t (division_text op) }
{
    match (t, op) {
        (ValType::I32, Division::DivS) => "i32.div_s",
        (ValType::I32, Division::DivU) => "i32.div_u",
        (ValType::I32, Division::RemS) => "i32.rem_s",
        (ValType::I32, Division::RemU) => "i32.rem_u",
        (ValType::I64, Division::DivS) => "i64.div_s",
        (ValType::I64, Division::DivU) => "i64.div_u",
        (ValType::I64, Division::RemS) => "i64.rem_s",
        (ValType::I64, Division::RemU) => "i64.rem_u",
    }
}

fn load_text(op: Load) -> &'static str
    ensures { result.now ≡ load_text op }
{
    match op {
        Load::I32 => "i32.load",
        Load::I64 => "i64.load",
        Load::I32From8S => "i32.load8_s",
        Load::I32From8U => "i32.load8_u",
        Load::I32From16S => "i32.load16_s",
        Load::I32From16U => "i32.load16_u",
        Load::I64From8S => "i64.load8_s",
        Load::I64From8U => "i64.load8_u",
        Load::I64From16S => "i64.load16_s",
        Load::I64From16U => "i64.load16_u",
        Load::I64From32S => "i64.load32_s",
        Load::I64From32U => "i64.load32_u",
    }
}

fn store_text(op: Store) -> &'static str
    ensures { result.now ≡ store_text op }
{
    match op {
        Store::I32 => "i32.store",
        Store::I64 => "i64.store",
        Store::I32To8 => "i32.store8",
        Store::I32To16 => "i32.store16",
        Store::I64To8 => "i64.store8",
        Store::I64To16 => "i64.store16",
        Store::I64To32 => "i64.store32",
    }
}
