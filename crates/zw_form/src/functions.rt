// Members of a file: functions, from their nodes to declarations.
ghost use Rattle.std.specs.Prelude.{◌≡◌, IfOk, MatchOption, map, Some, None};
ghost use Rattle.std.specs.Option.{option_map};
ghost use Rattle.zw_tree.specs.Numbering.{from};
ghost use Rattle.zw_form.specs.Nodes.{each, param_of, signature_of, extern_tree, function_by, member_of};
ghost use Rattle.zw_form.specs.declared.roles.Role.TheVariants as role;
ghost use Rattle.zw_form.specs.Trees.{declaration_of};

use crate::nodes::{children, has_number, introduced, role};
use crate::roles::Role;
use crate::source::{Declaration, ExportedFunction, ExternFunction};
use crate::sums::{Reader, read_body};
use sqlite_items::Items;
use std::alloc::Global;
use zw_base::Oom;
use zw_token::Token;
use zw_tree::Ast;

/// The parameters of a function, all of type `u32`, and whether it gives a `u32`.
#[derive(Debug, Drop)]
pub(crate) struct Signature {
    pub(crate) params: Items<Items<u8>>,
    pub(crate) has_result: bool,
}

/// The name of a parameter of type `u32`.
fn param_name(ast: &Ast, n: u32) -> Option<&[u8]>
    ensures { MatchOption result (param_of (from ast.now n) ≡ None) (λ name. param_of (from ast.now n) ≡ Some name.now) }
{
    let Role::Parameter = role(ast, n) else {
        return None;
    };
    match children(ast, n) {
        [name, ty] if has_number(ast, *ty) == Some(true) => introduced(ast, *name),
        _ => None,
    }
}

/// The names of parameters of type `u32`.
fn read_params(alloc: Global, ast: &Ast, nodes: &[u32]) -> Result<Option<Items<Items<u8>>>, Oom>
    ensures { IfOk result (λ names. names ≡ each param_of (map (from ast.now) nodes.now)) }
{
    let mut names = Items::new(alloc);
    for n in nodes {
        let Some(name) = param_name(ast, *n) else {
            return Ok(None);
        };
        names.push(Items::from_slice(alloc, name)?)?;
    }
    Ok(Some(names))
}

/// The parameters and the type of the result that these nodes are.
fn read_signature(alloc: Global, ast: &Ast, nodes: &[u32]) -> Result<Option<Signature>, Oom>
    ensures { IfOk result (λ answer. MatchOption answer
        (signature_of (map (from ast.now) nodes.now) ≡ None)
        (λ s. signature_of (map (from ast.now) nodes.now) ≡ Some (s.params, s.has_result))) }
{
    let Some((last, nodes)) = nodes.split_last() else {
        return Ok(None);
    };
    let Some(has_result) = has_number(ast, *last) else {
        return Ok(None);
    };
    let Some(params) = read_params(alloc, ast, nodes)? else {
        return Ok(None);
    };
    Ok(Some(Signature { params, has_result }))
}

/// The function of the host with this name, whose other parts these nodes are.
fn read_extern(
    alloc: Global,
    ast: &Ast,
    name: &[u8],
    nodes: &[u32],
) -> Result<Option<Declaration>, Oom>
    ensures { IfOk result (λ d. d ≡ option_map declaration_of (option_map (extern_tree name.now) (signature_of (map (from ast.now) nodes.now)))) }
{
    let Some(Signature { params, has_result }) = read_signature(alloc, ast, nodes)? else {
        return Ok(None);
    };
    let name = Items::from_slice(alloc, name)?;
    Ok(Some(Declaration::Extern(ExternFunction {
        name,
        params,
        has_result,
    })))
}

/// The exported function with this name, whose other parts these nodes are.
fn read_export(
    alloc: Global,
    text: &[u8],
    tokens: &[Token],
    ast: &Ast,
    name: &[u8],
    nodes: &[u32],
) -> Result<Option<Declaration>, Oom>
    ensures { IfOk result (λ d. d ≡ option_map declaration_of (function_by role.Export text.now tokens.now (map (from ast.now) nodes.now) name.now)) }
{
    let Some((block, nodes)) = nodes.split_last() else {
        return Ok(None);
    };
    let Some(Signature { params, has_result }) = read_signature(alloc, ast, nodes)? else {
        return Ok(None);
    };
    if !has_result {
        return Ok(None);
    }
    let Some(Reader { steps, callees, .. }) = read_body(alloc, text, tokens, ast, *block)? else {
        return Ok(None);
    };
    let name = Items::from_slice(alloc, name)?;
    Ok(Some(Declaration::Export(ExportedFunction {
        name,
        params,
        callees,
        steps,
    })))
}

/// The declaration that a member of a file is. It is `None` where the member isn't of the form.
pub(crate) fn read_member(
    alloc: Global,
    text: &[u8],
    tokens: &[Token],
    ast: &Ast,
    n: u32,
) -> Result<Option<Declaration>, Oom>
    ensures { IfOk result (λ d. d ≡ option_map declaration_of (member_of text.now tokens.now (from ast.now n))) }
{
    let Role::Function = role(ast, n) else {
        return Ok(None);
    };
    let [linkage, name, parts @ ..] = children(ast, n) else {
        return Ok(None);
    };
    let Some(name) = introduced(ast, *name) else {
        return Ok(None);
    };
    match role(ast, *linkage) {
        Role::Extern => read_extern(alloc, ast, name, parts),
        Role::Export => read_export(alloc, text, tokens, ast, name, parts),
        _ => Ok(None),
    }
}
