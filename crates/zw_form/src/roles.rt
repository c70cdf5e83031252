// The parts that nodes have in the form.
ghost use Rattle.std.specs.Prelude.{◌≡◌};
ghost use Rattle.zw_form.specs.Nodes.{role_of};

use zw_num::Arithmetic;
use zw_tree::NodeKind;

/// What a node is in the form.
#[derive(Clone, Copy, Debug, PartialEq, Eq)]
pub(crate) enum Role {
    Function,
    /// `comptime` and a block, as a member of a file.
    Comptime,
    /// `extern`
    Extern,
    /// `export`
    Export,
    /// A name that is introduced.
    Name,
    QuotedName,
    Parameter,
    Block,
    Return,
    Call,
    Operator(Arithmetic),
    /// A name that is mentioned.
    Identifier,
    QuotedIdentifier,
    Number,
    /// A node that isn't of the form.
    Other,
}

/// What a node of this kind is in the form.
pub(crate) fn role_of(kind: NodeKind) -> Role
    ensures { result ≡ role_of kind }
{
    match kind {
        NodeKind::Function => Role::Function,
        NodeKind::ComptimeBlock => Role::Comptime,
        NodeKind::ExternWord => Role::Extern,
        NodeKind::ExportWord => Role::Export,
        NodeKind::Name => Role::Name,
        NodeKind::QuotedName => Role::QuotedName,
        NodeKind::Parameter => Role::Parameter,
        NodeKind::Block => Role::Block,
        NodeKind::Return => Role::Return,
        NodeKind::Call => Role::Call,
        NodeKind::Add => Role::Operator(Arithmetic::Add),
        NodeKind::Subtract => Role::Operator(Arithmetic::Sub),
        NodeKind::AddWrap => Role::Operator(Arithmetic::AddWrap),
        NodeKind::Identifier => Role::Identifier,
        NodeKind::QuotedIdentifier => Role::QuotedIdentifier,
        NodeKind::Number => Role::Number,
        _ => Role::Other,
    }
}
