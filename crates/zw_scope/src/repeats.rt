// Names that an earlier one of the same form has.
ghost use Rattle.std.specs.Prelude.{◌≡◌, ◌<◌, ◌++◌, ◌∷◌, [], ℕ, List, All, IfOk, IfSome, OnOk, MatchOption};
ghost use Rattle.std.specs.Option.{option_to_list};
ghost use Rattle.zw_scope_sites.specs.Firsts.{kind_at};
ghost use Rattle.zw_scope.specs.NameRules.{Violation, names_once, repeated};
ghost use Rattle.zw_scope.specs.Repeats.{Passes, Repeats, entries, names_by};
ghost use Rattle.zw_names.specs.NameSets.{names_in};
ghost use Rattle.zw_scope.specs.Telling.{IsFirstOf};
ghost use Rattle.zw_tree.specs.Numbering.{below, from};
ghost use Rattle.zw_tree.specs.Trees.{Forest, count, none, tree};
ghost use Rattle.zw_tree.specs.declared.ast.Entry.{Entry};

use crate::told::{Told, tell};
use indexmap::IndexSet;
use std::alloc::Global;
use zw_base::Oom;
use zw_names::insert;
use zw_scope_sites::kinds::{is_initialiser, is_name, is_named_member, is_parameter};
use zw_scope_sites::nodes::{children, kind, name_in, text};
use zw_tree::{Ast, NodeKind};

/// Which of the children of a form have names that it may have once each.
#[derive(Clone, Copy)]
enum Named {
    /// Fields and declarations of a container.
    Members,
    Parameters,
    /// `.name = value` in a literal.
    Initialisers,
    /// The names of an error set, which are its children.
    Errors,
}

/// The name, where it is among those that were seen. It is seen from then on.
fn seen_before(
    alloc: Global,
    ast: &Ast,
    seen: &mut IndexSet<Vec<u8>>,
    name: u32,
) -> Result<Option<u32>, Oom>
    requires { name < count ast.now }
    ensures there { IfOk result (λ o. IfSome o (λ n. n < count ast.now)) }
    ensures told { IfOk result (λ o. (before : List (List ℕ)) → Passes before (names_in seen.old) → Repeats ast.now before name o (names_in seen.new)) }
{
    if insert(alloc, seen, text(ast, name))? {
        Ok(None)
    } else {
        Ok(Some(name))
    }
}

/// Tells each name of a list that an earlier one has.
fn tell_repeated(
    alloc: Global,
    ast: &Ast,
    names: &[u32],
    so_far: Option<Told>,
) -> Result<Option<Told>, Oom>
    requires { All (λ c. c < count ast.now) names.now }
    ensures { IfOk result (λ first. (vs : List Violation) → IsFirstOf ast.now vs so_far → IsFirstOf ast.now (vs ++ repeated [] (entries ast.now names.now)) first) }
{
    let mut first = so_far;
    let mut seen = IndexSet::new(alloc);
    for name in names {
        first = tell(ast, first, 11, seen_before(alloc, ast, &mut seen, *name)?);
    }
    Ok(first)
}

/// The name of a child that a form may have once.
fn name_of(ast: &Ast, named: Named, child: u32) -> Option<u32>
    ensures { (root : Entry) (inside behind : Forest Entry) → from ast.now child ≡ tree root inside behind → MatchOption result
        (names_by named (tree root inside none) ≡ [])
        (λ c. (c < count ast.now) × (names_by named (tree root inside none) ≡ entries ast.now (c ∷ []))) }
{
    let kind = kind(ast, child);
    let has_name = match named {
        Named::Members => is_named_member(kind),
        Named::Parameters => is_parameter(kind),
        Named::Initialisers => is_initialiser(kind),
        Named::Errors => {
            return if is_name(kind) { Some(child) } else { None };
        }
    };
    if has_name { name_in(ast, child) } else { None }
}

/// Adds a name, if there is one.
fn push(names: &mut Vec<u32>, name: Option<u32>) -> Result<(), Oom>
    ensures { OnOk result (names.new.items ≡ names.old.items ++ option_to_list name) }
{
    let Some(name) = name else {
        return Ok(());
    };
    names.push(name)?;
    Ok(())
}

/// The names of these children of a node, in their order.
fn names_by(alloc: Global, ast: &Ast, named: Named, n: u32) -> Result<Vec<u32>, Oom>
    ensures there { IfOk result (λ names. All (λ c. c < count ast.now) names.items) }
    ensures are { IfOk result (λ names. entries ast.now names.items ≡ names_by named (below ast.now n)) }
{
    let mut names = Vec::new(alloc);
    for child in children(ast, n) {
        push(&mut names, name_of(ast, named, *child))?;
    }
    Ok(names)
}

/// The names that a form may have once each, in their order.
fn names_once(alloc: Global, ast: &Ast, n: u32) -> Result<Vec<u32>, Oom>
    ensures there { IfOk result (λ names. All (λ c. c < count ast.now) names.items) }
    ensures are { IfOk result (λ names. entries ast.now names.items ≡ names_once (kind_at (from ast.now n)) (below ast.now n)) }
{
    match kind(ast, n) {
        NodeKind::Root => names_by(alloc, ast, Named::Members, n),
        NodeKind::Struct => names_by(alloc, ast, Named::Members, n),
        NodeKind::Enum => names_by(alloc, ast, Named::Members, n),
        NodeKind::Union => names_by(alloc, ast, Named::Members, n),
        NodeKind::Function => names_by(alloc, ast, Named::Parameters, n),
        NodeKind::StructLiteral => names_by(alloc, ast, Named::Initialisers, n),
        NodeKind::AnonymousStruct => names_by(alloc, ast, Named::Initialisers, n),
        NodeKind::ErrorSet => names_by(alloc, ast, Named::Errors, n),
        _ => Ok(Vec::new(alloc)),
    }
}

/// Tells each name that an earlier one of the same form has.
pub(crate) fn tell_duplicates(
    alloc: Global,
    ast: &Ast,
    n: u32,
    so_far: Option<Told>,
) -> Result<Option<Told>, Oom>
    ensures { IfOk result (λ first. (vs : List Violation) → IsFirstOf ast.now vs so_far → IsFirstOf ast.now (vs ++ repeated [] (names_once (kind_at (from ast.now n)) (below ast.now n))) first) }
{
    let names = names_once(alloc, ast, n)?;
    tell_repeated(alloc, ast, names.as_slice(), so_far)
}
