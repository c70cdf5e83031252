// What kinds of nodes are for the rules on names.
ghost use Rattle.std.specs.Prelude.{◌≡◌};
ghost use Rattle.zw_scope_sites.specs.Scopes.{is_identifier, is_initialiser, is_named_member, is_parameter_kind, is_unquoted, opens_label, is_before_result, is_block, is_capture, is_container, is_declaration, is_else, is_inside_container, is_inside_function, is_label, is_last, is_loop_part, is_member, is_name, is_step, is_taken, is_taken_by, is_variable};
ghost use Rattle.zw_tree.specs.Trees.{Forest};
ghost use Rattle.zw_tree.specs.declared.ast.Entry.{Entry};

use zw_tree::NodeKind;

/// Whether a node of this kind is a name of what its parent is, quoted or not.
pub fn is_name(kind: NodeKind) -> bool
    ensures { result ≡ is_name kind }
{
    match kind {
        NodeKind::Name => true,
        NodeKind::QuotedName => true,
        _ => false,
    }
}

/// Whether a node of this kind is a name or an identifier without quotes.
pub fn is_unquoted(kind: NodeKind) -> bool
    ensures { result ≡ is_unquoted kind }
{
    match kind {
        NodeKind::Name => true,
        NodeKind::Identifier => true,
        _ => false,
    }
}

/// Whether a node of this kind mentions a name.
pub fn is_identifier(kind: NodeKind) -> bool
    ensures { result ≡ is_identifier kind }
{
    match kind {
        NodeKind::Identifier => true,
        NodeKind::QuotedIdentifier => true,
        _ => false,
    }
}

fn is_container(kind: NodeKind) -> bool
    ensures { result ≡ is_container kind }
{
    match kind {
        NodeKind::Root => true,
        NodeKind::Struct => true,
        NodeKind::Enum => true,
        NodeKind::Union => true,
        _ => false,
    }
}

/// Whether a node with this parent is a member of a container.
pub fn is_inside_container(parent: Option<NodeKind>) -> bool
    ensures { result ≡ is_inside_container parent }
{
    match parent {
        None => false,
        Some(parent) => is_container(parent),
    }
}

/// Whether a node of this kind is a constant or a variable.
pub fn is_variable(kind: NodeKind) -> bool
    ensures { result ≡ is_variable kind }
{
    match kind {
        NodeKind::Const => true,
        NodeKind::Var => true,
        _ => false,
    }
}

/// Whether a node of this kind is a declaration: a constant, a variable or a function.
pub fn is_declaration(kind: NodeKind) -> bool
    ensures { result ≡ is_declaration kind }
{
    match kind {
        NodeKind::Const => true,
        NodeKind::Var => true,
        NodeKind::Function => true,
        _ => false,
    }
}

/// Whether a member of this kind has a name.
pub fn is_named_member(kind: NodeKind) -> bool
    ensures { result ≡ is_named_member kind }
{
    match kind {
        NodeKind::Field => true,
        NodeKind::Const => true,
        NodeKind::Var => true,
        NodeKind::Function => true,
        _ => false,
    }
}

fn is_member(kind: NodeKind) -> bool
    ensures { result ≡ is_member kind }
{
    match kind {
        NodeKind::Test => true,
        NodeKind::ComptimeBlock => true,
        NodeKind::Field => true,
        NodeKind::Const => true,
        NodeKind::Var => true,
        NodeKind::Function => true,
        _ => false,
    }
}

/// Whether a node of this kind is a capture, of a value or of a pointer to it.
pub fn is_capture(kind: NodeKind) -> bool
    ensures { result ≡ is_capture kind }
{
    match kind {
        NodeKind::Capture => true,
        NodeKind::PointerCapture => true,
        _ => false,
    }
}

/// Whether a node of this kind is a parameter.
pub fn is_parameter(kind: NodeKind) -> bool
    ensures { result ≡ is_parameter_kind kind }
{
    match kind {
        NodeKind::Parameter => true,
        _ => false,
    }
}

/// Whether a node of this kind is `.name = value` in a literal.
pub fn is_initialiser(kind: NodeKind) -> bool
    ensures { result ≡ is_initialiser kind }
{
    match kind {
        NodeKind::FieldInit => true,
        _ => false,
    }
}

/// Whether a node of this kind is a label, which is opened or named there.
pub fn is_label(kind: NodeKind) -> bool
    ensures { result ≡ is_label kind }
{
    match kind {
        NodeKind::Label => true,
        _ => false,
    }
}

pub(crate) fn is_block(kind: NodeKind) -> bool
    ensures { result ≡ is_block kind }
{
    match kind {
        NodeKind::Block => true,
        _ => false,
    }
}

/// Whether a node of this kind stands in a function before the type of its result.
pub(crate) fn is_before_result(kind: NodeKind) -> bool
    ensures { result ≡ is_before_result kind }
{
    match kind {
        NodeKind::PubWord => true,
        NodeKind::ExportWord => true,
        NodeKind::ExternWord => true,
        NodeKind::NoinlineWord => true,
        NodeKind::Name => true,
        NodeKind::QuotedName => true,
        NodeKind::Parameter => true,
        NodeKind::InferredErrorsWord => true,
        _ => false,
    }
}

pub(crate) fn is_else(kind: NodeKind) -> bool
    ensures { result ≡ is_else kind }
{
    match kind {
        NodeKind::Else => true,
        _ => false,
    }
}

fn is_step(kind: NodeKind) -> bool
    ensures { result ≡ is_step kind }
{
    match kind {
        NodeKind::ContinueExpression => true,
        _ => false,
    }
}

/// Whether a node with this parent stands in the head or is the body of a function.
pub fn is_inside_function(parent: Option<NodeKind>) -> bool
    ensures { result ≡ is_inside_function parent }
{
    match parent {
        Some(NodeKind::Function) => true,
        _ => false,
    }
}

/// Whether a label that stands in a node of this kind is opened there.
pub fn opens_label(parent: Option<NodeKind>) -> bool
    ensures { result ≡ opens_label parent }
{
    match parent {
        Some(NodeKind::Block) => true,
        Some(NodeKind::While) => true,
        Some(NodeKind::For) => true,
        _ => false,
    }
}

/// Whether a part of a loop is its body or its step, where nothing stands behind it but an `else`, or more does.
fn is_loop_part(kind: NodeKind, is_end: bool) -> bool
    ensures { (behind : Forest Entry) → is_last behind ≡ is_end → result ≡ is_loop_part kind behind }
{
    is_step(kind) || (!is_else(kind) && is_end)
}

/// Whether a child belongs to the part that a form takes, where nothing stands behind it but an `else`, or more does.
fn is_taken(parent: NodeKind, kind: NodeKind, is_end: bool) -> bool
    ensures { (behind : Forest Entry) → is_last behind ≡ is_end → result ≡ is_taken parent kind behind }
{
    match parent {
        NodeKind::Root => is_member(kind),
        NodeKind::Struct => is_member(kind),
        NodeKind::Enum => is_member(kind),
        NodeKind::Union => is_member(kind),
        NodeKind::Function => is_block(kind) && is_end,
        NodeKind::Test => is_block(kind),
        NodeKind::Block => !is_label(kind),
        NodeKind::While => is_loop_part(kind, is_end),
        NodeKind::For => is_loop_part(kind, is_end),
        NodeKind::Defer => true,
        NodeKind::ErrDefer => true,
        _ => false,
    }
}

/// The same, for a child of a node of this kind or a root.
pub(crate) fn is_taken_by(parent: Option<NodeKind>, kind: NodeKind, is_end: bool) -> bool
    ensures { (behind : Forest Entry) → is_last behind ≡ is_end → result ≡ is_taken_by parent kind behind }
{
    match parent {
        None => false,
        Some(parent) => is_taken(parent, kind, is_end),
    }
}
