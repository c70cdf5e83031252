// What single nodes of a tree say. A number past the last node is answered as that of a node that says nothing.
ghost use Rattle.std.specs.Prelude.{◌≡◌, ◌<◌, map, MatchOption, Some, None};
ghost use Rattle.zw_tree.specs.Numbering.{from, inside_first, siblings, after};
ghost use Rattle.zw_tree.specs.Trees.{count, none};
ghost use Rattle.zw_form.specs.Nodes.{role_at, name_at, number_at, token_at, bytes_of, plain_name, introduced, mentioned, type_of, number_in, spelled};

use crate::roles::{Role, role_of};
use zw_token::{Token, is_decimal, is_primitive_name};
use zw_tree::Ast;

/// The part that a node has in the form.
pub(crate) fn role(ast: &Ast, n: u32) -> Role
    ensures { result ≡ role_at (from ast.now n) }
{
    if n < ast.count() {
        role_of(ast.node(n).kind)
    } else {
        Role::Other
    }
}

/// The bytes that a node stands for.
fn name(ast: &Ast, n: u32) -> &[u8]
    ensures { result.now ≡ name_at (from ast.now n) }
{
    if n < ast.count() { ast.name(n) } else { &[] }
}

/// The nodes below a node, in the order of the text.
pub(crate) fn children(ast: &Ast, n: u32) -> &[u32]
    ensures { map (from ast.now) result.now ≡ siblings (inside_first (from ast.now n)) }
{
    if n < ast.count() {
        ast.children(n)
    } else {
        &[]
    }
}

/// The k-th node below a node, from 0.
pub(crate) fn child(ast: &Ast, n: u32, k: u32) -> Option<u32>
    ensures { MatchOption result
        (after k (inside_first (from ast.now n)) ≡ none)
        (λ c. (from ast.now c ≡ after k (inside_first (from ast.now n))) × (0 < count (from ast.now c))) }
{
    if n < ast.count() {
        ast.child(n, k)
    } else {
        None
    }
}

/// A name that isn't quoted, where it is none of a primitive type or value.
fn plain(name: &[u8]) -> Option<&[u8]>
    ensures { MatchOption result (plain_name name.now ≡ None) (λ x. plain_name name.now ≡ Some x.now) }
{
    if is_primitive_name(name) {
        None
    } else {
        Some(name)
    }
}

/// The name that a node introduces.
pub(crate) fn introduced(ast: &Ast, n: u32) -> Option<&[u8]>
    ensures { MatchOption result
        (introduced (from ast.now n) ≡ None)
        (λ x. introduced (from ast.now n) ≡ Some x.now) }
{
    match role(ast, n) {
        Role::Name => plain(name(ast, n)),
        Role::QuotedName => Some(name(ast, n)),
        _ => None,
    }
}

/// The name that a node mentions.
pub(crate) fn mentioned(ast: &Ast, n: u32) -> Option<&[u8]>
    ensures { MatchOption result
        (mentioned (from ast.now n) ≡ None)
        (λ x. mentioned (from ast.now n) ≡ Some x.now) }
{
    match role(ast, n) {
        Role::Identifier => plain(name(ast, n)),
        Role::QuotedIdentifier => Some(name(ast, n)),
        _ => None,
    }
}

/// Whether a type is `u32`, where it is that or `void`.
pub(crate) fn has_number(ast: &Ast, n: u32) -> Option<bool>
    ensures { result ≡ type_of (from ast.now n) }
{
    if role(ast, n) != Role::Identifier {
        return None;
    }
    let name = name(ast, n);
    if name == b"u32".as_slice() {
        Some(true)
    } else if name == b"void".as_slice() {
        Some(false)
    } else {
        None
    }
}

/// The bytes of a token. Its range lies in the text: what would lie past it is left out.
fn bytes_of<'t>(text: &'t [u8], token: &Token) -> &'t [u8]
    ensures { result.now ≡ bytes_of text.now token.now }
{
    let end = (token.end as usize).min(text.len());
    let start = (token.start as usize).min(end);
    &text[start..end]
}

/// The bytes of the token with this number, where there is one.
fn spelled<'t>(text: &'t [u8], tokens: &[Token], n: u32) -> &'t [u8]
    ensures { result.now ≡ spelled text.now tokens.now n }
{
    match tokens.get(n as usize) {
        Some(token) => bytes_of(text, token),
        None => &[],
    }
}

/// The number of a token in the list, and of a node in the tree
fn first_token(ast: &Ast, n: u32) -> u32
    ensures { result ≡ token_at (from ast.now n) }
{
    if n < ast.count() {
        ast.node(n).first
    } else {
        0
    }
}

/// The value of the number or character that a node is.
fn value(ast: &Ast, n: u32) -> Option<i128>
    ensures { result ≡ number_at (from ast.now n) }
{
    if n < ast.count() { ast.number(n) } else { None }
}

/// The value of a number of 32 bits, whose token is decimal digits alone.
pub(crate) fn number(text: &[u8], tokens: &[Token], ast: &Ast, n: u32) -> Option<u32>
    ensures { result ≡ number_in (spelled text.now tokens.now (token_at (from ast.now n))) (number_at (from ast.now n)) }
{
    let value = value(ast, n)?;
    if is_decimal(spelled(text, tokens, first_token(ast, n))) {
        u32::try_from(value).ok()
    } else {
        None
    }
}
