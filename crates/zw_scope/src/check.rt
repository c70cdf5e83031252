// The names of a tree: which of its nodes are mentioned, and the first violation.
ghost use Rattle.std.specs.Prelude.{◌≡◌, ◌<◌, ◌++◌, ℕ, List, IfErr, IfOk, OnOk, Some, slice_get};
ghost use Rattle.zw_scope.specs.NameRules.{AreNamed, IsNameStop, Violation, violations, mentioned_by, mentioned, violations_at};
ghost use Rattle.zw_scope_sites.specs.Scopes.{Standing, all_standing};
ghost use Rattle.std.specs.Option.{option_to_list};
ghost use Rattle.zw_scope_sites.specs.Placing.{AllPlaced};
ghost use Rattle.zw_scope.specs.Telling.{AreMarks, IsFirstOf};
ghost use Rattle.zw_tree.specs.Numbering.{first_root, from};
ghost use Rattle.zw_tree.specs.Trees.{Forest, count};
ghost use Rattle.zw_tree.specs.declared.ast.Entry.{Entry};
ghost use Rattle.zw_base.specs.declared.stop.Refused.TheVariants as refused;
ghost use Rattle.zw_base.specs.declared.stop.Stop.{Stop};
ghost use Rattle.zw_base.specs.declared.stop.StopKind.TheVariants.{Error};

use crate::repeats::tell_duplicates;
use crate::rules::{flow_at, label_at, named_at, shadow_at, unknown_at, unused_at};
use crate::told::{Told, tell};
use std::alloc::Global;
use zw_base::{Oom, Refused, Stop, StopKind};
use zw_scope_sites::place::{Sites, placed, site_at};
use zw_tree::Ast;

/// The node that the node with this number names, if any.
pub(crate) fn named(ast: &Ast, sites: &Sites, n: u32) -> Option<u32>
    requires placed { AllPlaced sites.now.lists sites.now.list.items ast.now }
    ensures { (s : Standing) → slice_get (all_standing ast.now) n ≡ Some s → mentioned_by s ≡ option_to_list result }
{
    match site_at(sites, n) {
        Some(site) => named_at(ast, &sites.lists, site, n),
        None => None,
    }
}

/// Marks a node, if there is one.
fn mark(marks: &mut Vec<bool>, node: Option<u32>)
    ensures { (file : Forest Entry) (nodes : List ℕ) → AreMarks file marks.old.items nodes → AreMarks file marks.new.items (nodes ++ option_to_list node) }
{
    let Some(node) = node else {
        return;
    };
    let at = node as usize;
    if at < marks.as_slice().len() {
        marks[at] = true;
    }
}

/// For each node, whether it is mentioned.
fn marks_of(alloc: Global, ast: &Ast, sites: &Sites) -> Result<Vec<bool>, Oom>
    requires placed { AllPlaced sites.now.lists sites.now.list.items ast.now }
    ensures { IfOk result (λ marks. AreMarks ast.now marks.items (mentioned (all_standing ast.now))) }
{
    let mut marks = vec![in alloc; false; ast.count() as usize]?;
    for n in 0..ast.count() {
        mark(&mut marks, named(ast, sites, n));
    }
    Ok(marks)
}

/// The first violation so far, with those at a node.
fn check_node(
    alloc: Global,
    ast: &Ast,
    sites: &Sites,
    marks: &[bool],
    n: u32,
    so_far: Option<Told>,
) -> Result<Option<Told>, Oom>
    requires placed { AllPlaced sites.now.lists sites.now.list.items ast.now }
    requires within { n < count ast.now }
    ensures { IfOk result (λ first. (nodes : List ℕ) (s : Standing) (vs : List Violation) → AreMarks ast.now marks.now nodes → slice_get (all_standing ast.now) n ≡ Some s → IsFirstOf ast.now vs so_far → IsFirstOf ast.now (vs ++ violations_at nodes s) first) }
{
    let Some(site) = site_at(sites, n) else {
        return Ok(so_far);
    };
    let lists = &sites.lists;
    let shadows = tell(ast, so_far, 8, shadow_at(ast, lists, site, n));
    let unknowns = tell(ast, shadows, 9, unknown_at(ast, lists, site, n));
    let unused = tell(ast, unknowns, 10, unused_at(ast, lists, site, marks, n));
    let duplicates = tell_duplicates(alloc, ast, n, unused)?;
    let labels = tell(ast, duplicates, 12, label_at(ast, lists, site, n));
    Ok(tell(ast, labels, 13, flow_at(ast, lists, site, n)))
}

/// The first violation of a file.
fn first_violation(alloc: Global, ast: &Ast) -> Result<Option<Told>, Oom>
    ensures { IfOk result (IsFirstOf ast.now (violations ast.now)) }
{
    let sites = placed(alloc, ast)?;
    let marks = marks_of(alloc, ast, &sites)?;
    let mut first = None;
    for n in 0..ast.count() {
        first = check_node(alloc, ast, &sites, marks.as_slice(), n, first)?;
    }
    Ok(first)
}

/// The stop at a node.
fn stop_at(ast: &Ast, told: Told) -> Stop
    requires { told.node < count ast.now }
    ensures { (entry : Entry) → first_root (from ast.now told.node) ≡ Some entry → result ≡ record { kind = Error told.error; place = entry.node.place } }
{
    let place = ast.node(told.node).place;
    Stop {
        kind: StopKind::Error(told.error),
        place,
    }
}

/// Checks the names, labels and jumps of a file (Zig Language Reference 0.13.0, Shadowing, Blocks, Labeled while, defer). It stops
/// at the first violation by place, and at one place by number: error 8 where a local has the name of what is visible or a
/// declaration that of a visible local, or either that of a primitive; 9 where an identifier names nothing visible; 10 where a local
/// is never mentioned; 11 where a form has a name twice; 12 where a label isn't open, or is open already; 13 where nothing takes a
/// jump, or it leaves a deferred statement. Want of memory is told alone.
pub fn check_names(alloc: Global, ast: &Ast) -> Result<(), Refused>
    ensures ok { OnOk result (AreNamed ast.now) }
    ensures stop { IfErr result (λ e. (stop : Stop) → e ≡ refused.Stop stop → IsNameStop ast.now stop) }
{
    match first_violation(alloc, ast)? {
        None => Ok(()),
        Some(told) => Err(Refused::Stop(stop_at(ast, told))),
    }
}
