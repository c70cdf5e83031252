// What single nodes of a tree say. A number past the last node is answered as that of a node that says nothing.
ghost use Rattle.std.specs.Prelude.{◌≡◌, ◌<◌, MatchOption, None};
ghost use Rattle.zw_tree.specs.Numbering.{below, children, first_root, from};
ghost use Rattle.zw_tree.specs.Trees.{count};
ghost use Rattle.zw_scope_sites.specs.Firsts.{kind_at, text_at, token_at};
ghost use Rattle.zw_scope_sites.specs.Scopes.{ends_in_body, label_in, name_in};

use crate::kinds::{is_before_result, is_block, is_label, is_name};
use zw_tree::{Ast, NodeKind};

/// The node's kind.
pub fn kind(ast: &Ast, n: u32) -> NodeKind
    ensures { result ≡ kind_at (from ast.now n) }
{
    if n < ast.count() {
        ast.node(n).kind
    } else {
        NodeKind::Unreachable
    }
}

/// The bytes that a node stands for.
pub fn text(ast: &Ast, n: u32) -> &[u8]
    ensures { result.now ≡ text_at (from ast.now n) }
{
    if n < ast.count() { ast.name(n) } else { &[] }
}

/// The node's first token.
pub fn first_token(ast: &Ast, n: u32) -> u32
    ensures { result ≡ token_at (from ast.now n) }
{
    if n < ast.count() {
        ast.node(n).first
    } else {
        0
    }
}

/// The nodes below a node, in the order of the text.
pub fn children(ast: &Ast, n: u32) -> &[u32]
    ensures { result.now ≡ children ast.now n }
{
    if n < ast.count() {
        ast.children(n)
    } else {
        &[]
    }
}

/// The child of a node that is a name, where there is one.
pub fn name_in(ast: &Ast, n: u32) -> Option<u32>
    ensures { MatchOption result
        (name_in (below ast.now n) ≡ None)
        (λ c. (c < count ast.now) × (name_in (below ast.now n) ≡ first_root (from ast.now c))) }
{
    for child in children(ast, n) {
        if is_name(kind(ast, *child)) {
            return Some(*child);
        }
    }
    None
}

/// The name of the label among the children of a node, where there is one.
pub fn label_in(ast: &Ast, n: u32) -> Option<u32>
    ensures { MatchOption result
        (label_in (below ast.now n) ≡ None)
        (λ c. (c < count ast.now) × (label_in (below ast.now n) ≡ first_root (from ast.now c))) }
{
    for child in children(ast, n) {
        if is_label(kind(ast, *child)) {
            return name_in(ast, *child);
        }
    }
    None
}

/// Whether the last child of a function is its body: a block behind the type of its result.
pub fn ends_in_body(ast: &Ast, n: u32) -> bool
    ensures { result ≡ ends_in_body (below ast.now n) }
{
    match children(ast, n) {
        [.., before, last] => !is_before_result(kind(ast, *before)) && is_block(kind(ast, *last)),
        _ => false,
    }
}
