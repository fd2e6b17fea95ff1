ghost use Rattle.std.specs.Prelude.{◌≡◌, ◌↔◌, IsTrue, IfSome, IfNone};
ghost use Rattle.verified.specs.declared.imports.HostCall.{HostCall as AnyCall};
ghost use Rattle.verified.specs.Imports.{name_of, type_of_call, call_named, BringsIn};

use wasm_ast::{FuncType, ValType};

/// A host function: a function of module `pregel` that a vertex program may import.
#[derive(Clone, Copy)]
pub enum HostCall {
    VertexId,
    Superstep,
    NumVertices,
    GetValue,
    SetValue,
    NextMessage,
    MessageValue,
    NextEdge,
    EdgeTarget,
    EdgeValue,
    Send,
    Aggregate,
    Aggregated,
    VoteToHalt,
}

/// The types of a host function's parameters and results.
#[derive(Clone, Copy)]
pub struct CallType {
    pub parameters: &'static [ValType],
    pub results: &'static [ValType],
}

const ALL: [HostCall; 14] = [
    HostCall::VertexId,
    HostCall::Superstep,
    HostCall::NumVertices,
    HostCall::GetValue,
    HostCall::SetValue,
    HostCall::NextMessage,
    HostCall::MessageValue,
    HostCall::NextEdge,
    HostCall::EdgeTarget,
    HostCall::EdgeValue,
    HostCall::Send,
    HostCall::Aggregate,
    HostCall::Aggregated,
    HostCall::VoteToHalt,
];

impl HostCall {
    /// Finds the host function that an import of this module, name and type brings in, if there is one.
    pub fn of_import(module: &str, name: &str, func_type: &FuncType) -> Option<HostCall>
        ensures found { IfSome result (BringsIn «module».now name.now func_type.now) }
        ensures none { IfNone result ((call : AnyCall)
            → BringsIn «module».now name.now func_type.now call → ⊥) }
    {
        let call = HostCall::named(module, name)?;
        if call.has_type(func_type) {
            Some(call)
        } else {
            None
        }
    }

    /// Finds the host function with this module and name, whatever the type of the import.
    pub fn named(module: &str, name: &str) -> Option<HostCall>
        ensures { result ≡ call_named «module».now name.now }
    {
        if module == "pregel" {
            ALL.iter().copied().find(|call| call.name() == name)
        } else {
            None
        }
    }

    /// Returns the name by which a program imports the function.
    pub fn name(self) -> &'static str
        ensures { result.now ≡ name_of self }
    {
        match self {
            HostCall::VertexId => "vertex_id",
            HostCall::Superstep => "superstep",
            HostCall::NumVertices => "num_vertices",
            HostCall::GetValue => "get_value",
            HostCall::SetValue => "set_value",
            HostCall::NextMessage => "next_message",
            HostCall::MessageValue => "message_value",
            HostCall::NextEdge => "next_edge",
            HostCall::EdgeTarget => "edge_target",
            HostCall::EdgeValue => "edge_value",
            HostCall::Send => "send",
            HostCall::Aggregate => "aggregate",
            HostCall::Aggregated => "aggregated",
            HostCall::VoteToHalt => "vote_to_halt",
        }
    }

    /// Returns the types of the function's parameters and results.
    pub fn type_of(self) -> CallType
        ensures parameters { result.parameters.now ≡ (type_of_call self).parameters }
        ensures results { result.results.now ≡ (type_of_call self).results }
    {
        let (parameters, results): (&'static [ValType], &'static [ValType]) = match self {
            HostCall::SetValue => (&[ValType::I64], &[]),
            HostCall::NextMessage | HostCall::NextEdge => (&[], &[ValType::I32]),
            HostCall::Send => (&[ValType::I64, ValType::I64], &[]),
            HostCall::Aggregate => (&[ValType::I32, ValType::I64], &[]),
            HostCall::Aggregated => (&[ValType::I32], &[ValType::I64]),
            HostCall::VoteToHalt => (&[], &[]),
            _ => (&[], &[ValType::I64]),
        };
        CallType {
            parameters,
            results,
        }
    }

    fn has_type(self, func_type: &FuncType) -> bool
        ensures { IsTrue result ↔ (func_type.now ≡ type_of_call self) }
    {
        let call_type = self.type_of();
        func_type.parameters.as_slice() == call_type.parameters
            && func_type.results.as_slice() == call_type.results
    }
}
