//! Readers of the fields of a module (Core 1.0, 6.6).

ghost use Rattle.std.specs.Prelude.{◌≡◌, ℕ, List, Some};
ghost use Rattle.wasm_ast.specs.declared.types.ValType.{ValType as AnyValType};
ghost use Rattle.wasm_ast.specs.declared.module.Module.{Module as AnyModule};
ghost use Rattle.wat_syntax.specs.inside.Parsing.{DraftsAny, ShowsAny, GivesAny, Drafts, Fewer, GoesOn, NoMore, Gives};
ghost use Rattle.wat_syntax.specs.inside.Reading.{group_step, item_step, local_first, number_at, number_first};
ghost use Rattle.wat_syntax.specs.inside.ReadingModule.{bytes_at, drafted, element_at, element_field_at, export_at, export_description_at, export_field_at, exported_at, field_first, field_step, function_at, function_field_at, global_at, global_field_at, heading_at, import_at, import_description_at, import_field_at, imported_at, inline_at, inline_first, inner_offset_at, keyword_at, memory_field_at, number_or_0_at, numbers_at, offset_at, offset_first, segment_at, segment_field_at, start_field_at, table_at, table_field_at, text_first, text_step};

use crate::fault::{Failure, FaultKind};
use crate::keyword::Keyword;
use crate::lexer::Token;
use crate::parser::code::{Room, folded, sequence};
use crate::parser::draft::Draft;
use crate::parser::items::{Item, repeated};
use crate::parser::names::Kind;
use crate::parser::tokens::Parser;
use crate::parser::types::ParameterNames;
use wasm_ast::{
    Body, Data, Element, Export, ExportDescription, Function, Global, Import, ImportDescription,
    Limits, MAX_NESTING, Sequence, ValType,
};

/// The deepest nesting of parentheses, the module's own included.
pub const MAX_PARENTHESES: u32 = 512;

// The nesting that remains inside a field, where two parentheses are open.
const ROOM: Room = Room {
    levels: MAX_NESTING,
    parentheses: MAX_PARENTHESES - 2,
};

// The nesting that remains inside a parenthesis in a field.
const INNER_ROOM: Room = Room {
    levels: MAX_NESTING,
    parentheses: MAX_PARENTHESES - 3,
};

/// A field of a module.
pub struct Field;

impl Item for Field {
    type Made = Draft;

    ghost Seen = { AnyModule };

    ghost seen = { drafted };

    ghost first = { λ _. field_first };

    ghost step = { λ _. field_step };

    #[tactic(auto, unfolding(crate::specs::inside::ReadingModule::field_first))]
    fn is_next(&self, parser: &Parser<'_>) -> bool {
        matches!(parser.rest, [Token::Open, Token::Key(_), ..])
    }

    #[tactic(auto, unfolding(crate::specs::inside::ReadingModule::field_step))]
    fn add(&self, parser: &mut Parser<'_>, draft: &mut Draft) -> Result<(), Failure> {
        let keyword = parser.opened()?;
        behind_keyword(parser, draft, keyword)?;
        parser.close()
    }
}

// Reads what follows a field's keyword, up to its closing parenthesis.
#[tactic(auto, unfolding(crate::specs::inside::ReadingModule::field_at))]
fn behind_keyword(
    parser: &mut Parser<'_>,
    draft: &mut Draft,
    keyword: Keyword,
) -> Result<(), Failure>
    ensures { GoesOn parser.old parser.new result
        (DraftsAny draft.old draft.new (keyword_at keyword)) }
{
    match keyword {
        Keyword::Import => import(parser, draft),
        Keyword::Func => function(parser, draft),
        Keyword::Table => table(parser, draft),
        Keyword::Memory => memory(parser, draft),
        Keyword::Global => global(parser, draft),
        Keyword::Export => export(parser, draft),
        Keyword::Start => start(parser, draft),
        Keyword::Elem => element(parser, draft),
        Keyword::Data => segment(parser, draft),
        Keyword::FuncType => later_type(parser),
        _ => Err(parser.unexpected()),
    }
}

// Reads a type that comes after another field. It is not added again where all types were read before.
fn later_type(parser: &mut Parser<'_>) -> Result<(), Failure>
    ensures shrinks { NoMore parser.old parser.new result }
{
    let t = parser.defined_type()?;
    if !parser.are_types_read {
        parser.types.push(t)?;
    }
    Ok(())
}

// ---- imports and exports

fn import(parser: &mut Parser<'_>, draft: &mut Draft) -> Result<(), Failure>
    ensures { GoesOn parser.old parser.new result (Drafts draft.old draft.new import_field_at) }
{
    if draft.has_definition() {
        return Err(parser.fault(FaultKind::Syntax));
    }
    let import = import_item(parser)?;
    draft.count_import(import.description);
    draft.imports.push(import)?;
    Ok(())
}

#[tactic(auto, unfolding(crate::specs::inside::ReadingModule::import_at))]
fn import_item(parser: &mut Parser<'_>) -> Result<Import, Failure>
    ensures { GoesOn parser.old parser.new result (Gives import_at) }
{
    let module = parser.text()?;
    let name = parser.text()?;
    let description = import_description(parser)?;
    Ok(Import {
        module,
        name,
        description,
    })
}

#[tactic(auto, unfolding(crate::specs::inside::ReadingModule::import_description_at))]
fn import_description(parser: &mut Parser<'_>) -> Result<ImportDescription, Failure>
    ensures { GoesOn parser.old parser.new result (Gives import_description_at) }
{
    let keyword = parser.opened()?;
    let _name = parser.name();
    let description = imported(parser, keyword)?;
    parser.closed(description)
}

// Reads the description of an import, after its keyword and its name.
#[tactic(auto, unfolding(crate::specs::inside::ReadingModule::imported_at))]
fn imported(parser: &mut Parser<'_>, keyword: Keyword) -> Result<ImportDescription, Failure>
    ensures { GoesOn parser.old parser.new result (Gives (imported_at keyword)) }
{
    match keyword {
        Keyword::Func => {
            parser.forget_locals();
            parser
                .type_use(ParameterNames::Bound, INNER_ROOM.parentheses)
                .map(ImportDescription::Function)
        }
        Keyword::Table => table_limits(parser).map(ImportDescription::Table),
        Keyword::Memory => parser.limits().map(ImportDescription::Memory),
        Keyword::Global => parser.global_type().map(ImportDescription::Global),
        _ => Err(parser.unexpected()),
    }
}

fn export(parser: &mut Parser<'_>, draft: &mut Draft) -> Result<(), Failure>
    ensures { GoesOn parser.old parser.new result (Drafts draft.old draft.new export_field_at) }
{
    let export = export_item(parser)?;
    draft.exports.push(export)?;
    Ok(())
}

#[tactic(auto, unfolding(crate::specs::inside::ReadingModule::export_at))]
fn export_item(parser: &mut Parser<'_>) -> Result<Export, Failure>
    ensures { GoesOn parser.old parser.new result (Gives export_at) }
{
    let name = parser.text()?;
    let description = export_description(parser)?;
    Ok(Export { name, description })
}

#[tactic(auto, unfolding(crate::specs::inside::ReadingModule::export_description_at))]
fn export_description(parser: &mut Parser<'_>) -> Result<ExportDescription, Failure>
    ensures { GoesOn parser.old parser.new result (Gives export_description_at) }
{
    let keyword = parser.opened()?;
    let description = exported(parser, keyword)?;
    parser.closed(description)
}

// Reads the description of an export, after its keyword.
#[tactic(auto, unfolding(crate::specs::inside::ReadingModule::exported_at))]
fn exported(parser: &mut Parser<'_>, keyword: Keyword) -> Result<ExportDescription, Failure>
    ensures { GoesOn parser.old parser.new result (Gives (exported_at keyword)) }
{
    match keyword {
        Keyword::Func => parser
            .index(Kind::Function)
            .map(ExportDescription::Function),
        Keyword::Table => parser.index(Kind::Table).map(ExportDescription::Table),
        Keyword::Memory => parser.index(Kind::Memory).map(ExportDescription::Memory),
        Keyword::Global => parser.index(Kind::Global).map(ExportDescription::Global),
        _ => Err(parser.unexpected()),
    }
}

// Reports whether an inline export or import comes next.
fn is_inline(parser: &Parser<'_>) -> bool
    ensures { result ≡ inline_first parser.now.0 }
{
    matches!(parser.opening(), Some(Keyword::Export | Keyword::Import))
}

// Reads the inline exports of the item that a field defines. An inline import is not supported.
#[tactic(auto, unfolding(crate::specs::inside::ReadingModule::inline_at))]
fn inline_exports(
    parser: &mut Parser<'_>,
    draft: &mut Draft,
    description: Option<ExportDescription>,
) -> Result<(), Failure>
    ensures { GoesOn parser.old parser.new result (Drafts draft.old draft.new inline_at) }
{
    if is_inline(parser) {
        all_inline_exports(parser, draft, description)
    } else {
        Ok(())
    }
}

// Reads the inline exports, where one comes next.
fn all_inline_exports(
    parser: &mut Parser<'_>,
    draft: &mut Draft,
    description: Option<ExportDescription>,
) -> Result<(), Failure>
    ensures shrinks { NoMore parser.old parser.new result }
{
    'each: while is_inline(parser) {
        inline_export(parser, draft, description)?;
    }
    Ok(())
}

fn inline_export(
    parser: &mut Parser<'_>,
    draft: &mut Draft,
    description: Option<ExportDescription>,
) -> Result<(), Failure>
    ensures shrinks { Fewer parser.old parser.new result }
{
    let Some(Keyword::Export) = parser.opening() else {
        return Err(parser.fault(FaultKind::Unsupported));
    };
    match description {
        Some(description) => named_export(parser, draft, description),
        None => Err(parser.fault(FaultKind::OverLimit)),
    }
}

// Reads the export in the parenthesis that comes next.
fn named_export(
    parser: &mut Parser<'_>,
    draft: &mut Draft,
    description: ExportDescription,
) -> Result<(), Failure>
    ensures shrinks { Fewer parser.old parser.new result }
{
    parser.enter();
    let name = parser.text()?;
    draft.exports.push(Export { name, description })?;
    parser.close()
}

// ---- definitions

// Reads the name and the inline exports of a definition, after its keyword.
#[tactic(auto, unfolding(crate::specs::inside::ReadingModule::heading_at))]
fn heading(parser: &mut Parser<'_>, draft: &mut Draft, kind: Kind) -> Result<(), Failure>
    ensures { GoesOn parser.old parser.new result (Drafts draft.old draft.new heading_at) }
{
    let _name = parser.name();
    let description = draft.next_export(kind);
    inline_exports(parser, draft, description)
}

#[tactic(auto, unfolding(crate::specs::inside::ReadingModule::defined_at))]
fn function(parser: &mut Parser<'_>, draft: &mut Draft) -> Result<(), Failure>
    ensures { GoesOn parser.old parser.new result
        (DraftsAny draft.old draft.new function_field_at) }
{
    heading(parser, draft, Kind::Function)?;
    let item = function_item(parser)?;
    draft.functions.push(item)?;
    Ok(())
}

#[tactic(auto, unfolding(crate::specs::inside::ReadingModule::function_at, crate::specs::inside::Reading::groups_at))]
fn function_item(parser: &mut Parser<'_>) -> Result<Function, Failure>
    ensures { GoesOn parser.old parser.new result (GivesAny function_at) }
{
    parser.forget_locals();
    let type_number = parser.type_use(ParameterNames::Bound, ROOM.parentheses)?;
    let mut locals = Vec::new(parser.alloc);
    repeated(&LocalGroup { type_number }, parser, &mut locals)?;
    let body = sequence(parser, ROOM)?;
    Ok(Function {
        type_number,
        locals: Sequence::from(locals),
        body,
    })
}

// A group of locals in a function of this type: several types, or a name and one type.
#[derive(Drop)]
struct LocalGroup {
    type_number: u32,
}

impl Item for LocalGroup {
    type Made = Vec<ValType>;

    ghost Seen = { List AnyValType };

    ghost seen = { λ locals. locals.items };

    ghost first = { λ _. local_first };

    ghost step = { λ _. group_step };

    fn is_next(&self, parser: &Parser<'_>) -> bool {
        matches!(parser.opening(), Some(Keyword::Local))
    }

    #[tactic(auto, unfolding(crate::specs::inside::Reading::group_step, crate::specs::inside::Reading::nameless_at))]
    fn add(&self, parser: &mut Parser<'_>, locals: &mut Vec<ValType>) -> Result<(), Failure> {
        parser.enter();
        let left = parser.rest.len();
        match parser.name() {
            Some(name) => named_local(parser, self.type_number, name, left, locals),
            None => parser.group(locals),
        }
    }
}

// Declares a local with this name, after the parameters of its function's type. `left` tokens remain at the name.
fn named_local(
    parser: &mut Parser<'_>,
    type_number: u32,
    name: u32,
    left: usize,
    locals: &mut Vec<ValType>,
) -> Result<(), Failure>
    ensures { Fewer parser.old parser.new result }
{
    let parameters = parser.parameter_count(type_number)?;
    let number = parameters.saturating_add(locals.len());
    parser.named_type(name, number, left, locals)
}

#[tactic(auto, unfolding(crate::specs::inside::ReadingModule::defined_at))]
fn table(parser: &mut Parser<'_>, draft: &mut Draft) -> Result<(), Failure>
    ensures { GoesOn parser.old parser.new result (Drafts draft.old draft.new table_field_at) }
{
    heading(parser, draft, Kind::Table)?;
    let item = table_limits(parser)?;
    draft.tables.push(item)?;
    Ok(())
}

// Reads the limits of a table, whose elements are functions.
#[tactic(auto, unfolding(crate::specs::inside::ReadingModule::table_at))]
fn table_limits(parser: &mut Parser<'_>) -> Result<Limits, Failure>
    ensures { GoesOn parser.old parser.new result (Gives table_at) }
{
    let limits = parser.limits()?;
    parser.funcref()?;
    Ok(limits)
}

#[tactic(auto, unfolding(crate::specs::inside::ReadingModule::defined_at))]
fn memory(parser: &mut Parser<'_>, draft: &mut Draft) -> Result<(), Failure>
    ensures { GoesOn parser.old parser.new result (Drafts draft.old draft.new memory_field_at) }
{
    heading(parser, draft, Kind::Memory)?;
    let limits = parser.limits()?;
    draft.memories.push(limits)?;
    Ok(())
}

#[tactic(auto, unfolding(crate::specs::inside::ReadingModule::defined_at))]
fn global(parser: &mut Parser<'_>, draft: &mut Draft) -> Result<(), Failure>
    ensures { GoesOn parser.old parser.new result (DraftsAny draft.old draft.new global_field_at) }
{
    heading(parser, draft, Kind::Global)?;
    let item = global_item(parser)?;
    draft.globals.push(item)?;
    Ok(())
}

#[tactic(auto, unfolding(crate::specs::inside::ReadingModule::global_at))]
fn global_item(parser: &mut Parser<'_>) -> Result<Global, Failure>
    ensures { GoesOn parser.old parser.new result (GivesAny global_at) }
{
    let global_type = parser.global_type()?;
    let initial = sequence(parser, ROOM)?;
    Ok(Global {
        global_type,
        initial,
    })
}

fn start(parser: &mut Parser<'_>, draft: &mut Draft) -> Result<(), Failure>
    ensures { GoesOn parser.old parser.new result (Drafts draft.old draft.new start_field_at) }
{
    if draft.start.is_some() {
        return Err(parser.fault(FaultKind::Syntax));
    }
    let n = parser.index(Kind::Function)?;
    draft.start = Some(n);
    Ok(())
}

// ---- segments

// Reads the offset of a segment: `(offset ..)`, or one folded instruction (Core 1.0, 6.6.11).
#[tactic(auto, unfolding(crate::specs::inside::ReadingModule::offset_at))]
fn offset(parser: &mut Parser<'_>) -> Result<Body, Failure>
    ensures { GoesOn parser.old parser.new result (GivesAny offset_at) }
{
    if is_offset(parser) {
        return parenthesized_offset(parser);
    }
    let mut instrs = Vec::new(parser.alloc);
    folded(parser, ROOM, &mut instrs)?;
    Ok(Body::from(instrs))
}

fn is_offset(parser: &Parser<'_>) -> bool
    ensures { result ≡ offset_first parser.now.0 }
{
    matches!(parser.opening(), Some(Keyword::Offset))
}

// Reads the inside of `(offset ..)`.
#[tactic(auto, unfolding(crate::specs::inside::ReadingModule::inner_offset_at))]
fn parenthesized_offset(parser: &mut Parser<'_>) -> Result<Body, Failure>
    ensures { GoesOn parser.old parser.new result (GivesAny inner_offset_at) }
{
    parser.enter();
    let body = sequence(parser, INNER_ROOM)?;
    parser.closed(body)
}

// Reads an index of this kind, which is 0 where none is given.
#[tactic(auto, unfolding(crate::specs::inside::ReadingModule::number_or_0_at))]
fn number_or_0(parser: &mut Parser<'_>, kind: Kind) -> Result<u32, Failure>
    ensures { GoesOn parser.old parser.new result (Gives number_or_0_at) }
{
    if parser.is_index() {
        parser.index(kind)
    } else {
        Ok(0)
    }
}

fn element(parser: &mut Parser<'_>, draft: &mut Draft) -> Result<(), Failure>
    ensures { GoesOn parser.old parser.new result
        (DraftsAny draft.old draft.new element_field_at) }
{
    let item = element_item(parser)?;
    draft.elements.push(item)?;
    Ok(())
}

#[tactic(auto, unfolding(crate::specs::inside::ReadingModule::element_at))]
fn element_item(parser: &mut Parser<'_>) -> Result<Element, Failure>
    ensures { GoesOn parser.old parser.new result (GivesAny element_at) }
{
    let table = number_or_0(parser, Kind::Table)?;
    let offset = offset(parser)?;
    let functions = functions(parser)?;
    Ok(Element {
        table,
        offset,
        functions: Sequence::from(functions),
    })
}

// Reads all functions that come next, by their indices or names.
#[tactic(auto, unfolding(crate::specs::inside::ReadingModule::numbers_at))]
fn functions(parser: &mut Parser<'_>) -> Result<Vec<u32>, Failure>
    ensures { GoesOn parser.old parser.new result (ShowsAny (λ v. v.items) numbers_at) }
{
    let mut functions = Vec::new(parser.alloc);
    repeated(&FunctionNumber, parser, &mut functions)?;
    Ok(functions)
}

// A function, given by its index or name.
struct FunctionNumber;

impl Item for FunctionNumber {
    type Made = Vec<u32>;

    ghost Seen = { List ℕ };

    ghost seen = { λ numbers. numbers.items };

    ghost first = { λ _. number_first };

    ghost step = { λ _ _. item_step number_at };

    fn is_next(&self, parser: &Parser<'_>) -> bool {
        parser.is_index()
    }

    fn add(&self, parser: &mut Parser<'_>, numbers: &mut Vec<u32>) -> Result<(), Failure> {
        let n = parser.index(Kind::Function)?;
        numbers.push(n)?;
        Ok(())
    }
}

fn segment(parser: &mut Parser<'_>, draft: &mut Draft) -> Result<(), Failure>
    ensures { GoesOn parser.old parser.new result
        (DraftsAny draft.old draft.new segment_field_at) }
{
    let item = segment_item(parser)?;
    draft.segments.push(item)?;
    Ok(())
}

#[tactic(auto, unfolding(crate::specs::inside::ReadingModule::segment_at))]
fn segment_item(parser: &mut Parser<'_>) -> Result<Data, Failure>
    ensures { GoesOn parser.old parser.new result (GivesAny segment_at) }
{
    let memory = number_or_0(parser, Kind::Memory)?;
    let offset = offset(parser)?;
    let bytes = bytes(parser)?;
    Ok(Data {
        memory,
        offset,
        bytes: Sequence::from(bytes),
    })
}

// Reads the bytes of all strings that come next.
#[tactic(auto, unfolding(crate::specs::inside::ReadingModule::bytes_at))]
fn bytes(parser: &mut Parser<'_>) -> Result<Vec<u8>, Failure>
    ensures { GoesOn parser.old parser.new result (ShowsAny (λ v. v.items) bytes_at) }
{
    let mut bytes = Vec::new(parser.alloc);
    repeated(&Text, parser, &mut bytes)?;
    Ok(bytes)
}

// A string. Its bytes are added to those before it.
struct Text;

impl Item for Text {
    type Made = Vec<u8>;

    ghost Seen = { List ℕ };

    ghost seen = { λ bytes. bytes.items };

    ghost first = { λ _. text_first };

    ghost step = { λ _ _. text_step };

    #[tactic(auto, unfolding(crate::specs::inside::ReadingModule::text_first))]
    fn is_next(&self, parser: &Parser<'_>) -> bool {
        matches!(parser.rest, [Token::Text(_), ..])
    }

    fn add(&self, parser: &mut Parser<'_>, bytes: &mut Vec<u8>) -> Result<(), Failure> {
        let more = parser.bytes()?;
        bytes.extend_from_slice(more.as_slice())?;
        Ok(())
    }
}
