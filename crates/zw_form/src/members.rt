// The members of a file: what they declare, and the first stop that they have.
ghost use Rattle.std.specs.Prelude.{◌≡◌, ◌≢◌, ℕ, ◌<◌, ◌≤◌, ◌↔◌, ◌++◌, ◌∷◌, [], List, map, slice_get, IfOk, IsTrue, MatchOption, OnOk, All, AllPairs, Some};
ghost use Rattle.std.specs.List.{filter};
ghost use Rattle.std.specs.Option.{option_map, option_to_list};
ghost use Rattle.zw_tree.specs.Numbering.{below, from, last, node_at};
ghost use Rattle.zw_tree.specs.Trees.{count, preorder};
ghost use Rattle.zw_tree.specs.declared.ast.Entry.{Entry};
ghost use Rattle.zw_form.specs.Listed.{AreFunctions, IsKept, declared_at, members_at};
ghost use Rattle.zw_form.specs.Members.{IsFirstStop, IsLight, IsWeightStop, Passes, counts, functions_of, is_new, new_among, weight_of};
ghost use Rattle.zw_names.specs.NameSets.{names_in};
ghost use Rattle.zw_form.specs.Rules.{name_of};
ghost use Rattle.zw_form.specs.Nodes.{body_nodes, is_export, is_unit};
ghost use Rattle.zw_form.specs.declared.source.Declaration.{Declaration};
ghost use Rattle.zw_token.specs.declared.token.Token.{Token};

use crate::Declaration;
use crate::functions::read_member;
use crate::nodes::{children, role};
use crate::roles::Role;
use crate::rules::{keeps_rules, may_be_function};
use indexmap::IndexSet;
use sqlite_items::Items;
use std::alloc::Global;
use zw_base::{Oom, Stop, StopKind};
use zw_names::insert;
use zw_token::Token;
use zw_tree::Ast;

/// A form isn't built yet.
pub const NOT_BUILT: StopKind = StopKind::Error(36);

/// There are more nodes of bodies than there may be.
pub const NODES: StopKind = StopKind::Limit(5);

/// The frame of a function weighs more than it may.
pub const FRAME_WEIGHT: StopKind = StopKind::Limit(11);

/// The greatest number of nodes in the bodies of a file.
pub const NODE_LIMIT: u32 = 2_000_000;

/// The greatest weight of a frame, in bytes.
pub const WEIGHT_LIMIT: u64 = 131_072;

/// The weight of a parameter, in bytes.
pub const PARAMETER_WEIGHT: u64 = 8;

/// The functions of a file: of two of one name the first. The set has their names, in their order.
#[derive(Debug, Drop)]
pub(crate) struct Functions {
    pub(crate) list: Items<Declaration>,
    pub(crate) names: IndexSet<Vec<u8>>,
    /// For each member of the file, whether it is one of them.
    marks: Items<bool>,
}

/// The functions that the members of a file declare.
pub(crate) fn functions_of(
    alloc: Global,
    text: &[u8],
    tokens: &[Token],
    ast: &Ast,
    members: &[u32],
) -> Result<Functions, Oom>
    ensures { IfOk result (AreFunctions (declared_at text.now tokens.now ast.now members.now)) }
{
    let mut functions = Functions {
        list: Items::new(alloc),
        names: IndexSet::new(alloc),
        marks: Items::new(alloc),
    };
    for member in members {
        let declaration = read_member(alloc, text, tokens, ast, *member)?;
        add(alloc, &mut functions, declaration)?;
    }
    Ok(functions)
}

/// Whether a function has `export`, or a member is a block that runs at compile time.
fn is_unit(ast: &Ast, n: u32) -> bool
    ensures { result ≡ is_unit (from ast.now n) }
{
    match role(ast, n) {
        Role::Comptime => true,
        Role::Function => match children(ast, n) {
            [first, second, ..] => is_export(role(ast, *first)) || is_export(role(ast, *second)),
            _ => false,
        },
        _ => false,
    }
}

/// Whether a node is the word `export`.
fn is_export(role: Role) -> bool
    ensures { result ≡ is_export role }
{
    match role {
        Role::Export => true,
        _ => false,
    }
}

/// Whether a tree below the root counts as a member of the file.
fn counts(alloc: Global, text: &[u8], tokens: &[Token], ast: &Ast, n: u32) -> Result<bool, Oom>
    ensures { IfOk result (λ answer. answer ≡ counts text.now tokens.now (from ast.now n)) }
{
    if is_unit(ast, n) {
        return Ok(true);
    }
    match read_member(alloc, text, tokens, ast, n)? {
        Some(declaration) => Ok(may_be_function(declaration.name())),
        None => Ok(false),
    }
}

/// Those of these nodes that count as members of the file.
pub(crate) fn counting(
    alloc: Global,
    text: &[u8],
    tokens: &[Token],
    ast: &Ast,
    nodes: &[u32],
) -> Result<Items<u32>, Oom>
    ensures { IfOk result (λ members. members ≡ filter (λ n. counts text.now tokens.now (from ast.now n)) nodes.now) }
{
    let mut members = Items::new(alloc);
    for n in nodes {
        if counts(alloc, text, tokens, ast, *n)? {
            members.push(*n)?;
        }
    }
    Ok(members)
}

/// Adds what a member declares, if it has a new name.
fn add(
    alloc: Global,
    functions: &mut Functions,
    declaration: Option<Declaration>,
) -> Result<(), Oom>
    ensures list { OnOk result (functions.new.list ≡ functions.old.list ++ new_among (names_in functions.old.names) (option_to_list declaration)) }
    ensures names { OnOk result (names_in functions.new.names ≡ names_in functions.old.names ++ map name_of (new_among (names_in functions.old.names) (option_to_list declaration))) }
    ensures marks { OnOk result (functions.new.marks ≡ functions.old.marks ++ is_new (names_in functions.old.names) declaration ∷ []) }
{
    let Some(declaration) = declaration else {
        functions.marks.push(false)?;
        return Ok(());
    };
    if !insert(alloc, &mut functions.names, declaration.name())? {
        functions.marks.push(false)?;
        return Ok(());
    }
    functions.marks.push(true)?;
    functions.list.push(declaration)?;
    Ok(())
}

/// The last node below a node, or itself where none is.
fn last_below(ast: &Ast, n: u32) -> u32
    requires { n < count ast.now }
    ensures { result ≡ last ast.now n }
{
    let mut last = n;
    while let Some(child) = ast.children(last).last() {
        last = *child;
    }
    last
}

/// The block of a function, which is its last part, where there is one.
fn block_of(ast: &Ast, member: u32) -> Option<u32>
    ensures { MatchOption result
        (body_nodes (from ast.now member) ≡ [])
        (λ block. (block < count ast.now) × (body_nodes (from ast.now member) ≡ preorder (below ast.now block))) }
{
    let last = *children(ast, member).last()?;
    let Role::Block = role(ast, last) else {
        return None;
    };
    Some(last)
}

/// The stop at the node with this number.
fn stop_at(ast: &Ast, n: u32, kind: StopKind) -> Stop
    requires { n < count ast.now }
    ensures { option_map (λ (entry : Entry). record { kind = kind; place = entry.node.place }) (node_at ast.now n) ≡ Some result }
{
    let place = ast.node(n).place;
    Stop { kind, place }
}

/// Whether the member of this index is a function that keeps the conditions, where those before it are functions.
fn keeps(alloc: Global, functions: &Functions, index: usize) -> Result<bool, Oom>
    requires named { names_in functions.now.names ≡ map name_of functions.now.list }
    requires differ { AllPairs (λ x y. x ≢ y) (map name_of functions.now.list) }
    ensures { IfOk result (λ kept. IsTrue kept ↔ IsKept functions.now index) }
{
    let Some(is_function) = functions.marks.as_slice().get(index) else {
        return Ok(false);
    };
    if !*is_function {
        return Ok(false);
    }
    let file = functions.list.as_slice();
    let Some(declaration) = file.get(index) else {
        return Ok(false);
    };
    keeps_rules(alloc, &functions.names, file, declaration)
}

/// The first stop of a member: error 36 where it doesn't keep the conditions, limit 5 where there are too many nodes.
pub(crate) fn first_stop(
    alloc: Global,
    ast: &Ast,
    members: &[u32],
    functions: &Functions,
) -> Result<Option<Stop>, Oom>
    requires there { All (λ n. n < count ast.now) members.now }
    requires named { names_in functions.now.names ≡ map name_of functions.now.list }
    requires differ { AllPairs (λ x y. x ≢ y) (map name_of functions.now.list) }
    ensures { IfOk result (λ stop. (text : List ℕ) (tokens : List Token) → AreFunctions (declared_at text tokens ast.now members.now) functions.now →
        MatchOption stop
        (All (Passes (functions_of (members_at text tokens ast.now members.now 0 []))) (members_at text tokens ast.now members.now 0 []))
        (IsFirstStop (members_at text tokens ast.now members.now 0 []))) }
{
    let mut left = NODE_LIMIT;
    for (index, member) in members.iter().enumerate() {
        if !keeps(alloc, functions, index)? {
            return Ok(Some(stop_at(ast, *member, NOT_BUILT)));
        }
        if let Some(block) = block_of(ast, *member) {
            let nodes = last_below(ast, block) - block;
            if left < nodes {
                return Ok(Some(stop_at(ast, block + 1 + left, NODES)));
            }
            left -= nodes;
        }
    }
    Ok(None)
}

/// Whether the frame of a function weighs no more than it may.
fn is_light(declaration: &Declaration) -> bool
    ensures { IsTrue result ↔ (weight_of declaration.now ≤ WEIGHT_LIMIT) }
{
    match declaration {
        Declaration::Extern(_) => true,
        Declaration::Export(function) => {
            function.params.len() as u64 <= WEIGHT_LIMIT / PARAMETER_WEIGHT
        }
    }
}

/// Whether the frame of the function of this index weighs no more than it may.
fn is_light_at(functions: &Functions, index: usize) -> bool
    ensures { IsTrue result ↔ ((d : Declaration) → slice_get functions.now.list index ≡ Some d → weight_of d ≤ WEIGHT_LIMIT) }
{
    match functions.list.as_slice().get(index) {
        Some(declaration) => is_light(declaration),
        None => true,
    }
}

/// The stop at the first function whose frame weighs too much. Each member is a function.
pub(crate) fn weight_stop(ast: &Ast, members: &[u32], functions: &Functions) -> Option<Stop>
    requires { All (λ n. n < count ast.now) members.now }
    ensures { (text : List ℕ) (tokens : List Token) → AreFunctions (declared_at text tokens ast.now members.now) functions.now →
        All (Passes (functions_of (members_at text tokens ast.now members.now 0 []))) (members_at text tokens ast.now members.now 0 []) →
        MatchOption result
        (All IsLight (members_at text tokens ast.now members.now 0 []))
        (IsWeightStop (members_at text tokens ast.now members.now 0 [])) }
{
    for (index, member) in members.iter().enumerate() {
        if !is_light_at(functions, index) {
            return Some(stop_at(ast, *member, FRAME_WEIGHT));
        }
    }
    None
}
