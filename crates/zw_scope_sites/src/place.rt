// The sites of all nodes of a tree.
ghost use Rattle.std.specs.Prelude.{◌≡◌, ◌≢◌, ◌<◌, ℕ, suc, length, IfOk, OnOk, slice_get, replicate, Some};
ghost use Rattle.zw_tree.specs.Numbering.{after, below, children, parent};
ghost use Rattle.zw_scope_sites.specs.Lists.{Grows};
ghost use Rattle.zw_scope_sites.specs.Placing.{AllPlaced, ArePlaced, HasSite};
ghost use Rattle.zw_scope_sites.specs.Scopes.{Standing, all_standing, is_last};
ghost use Rattle.zw_tree.specs.Trees.{count};

use crate::kinds::is_else;
use crate::lists::{Lists, new_lists};
use crate::nodes::{children, kind};
use crate::sites::{Site, outermost, pass, site_of, surroundings_of};
use std::alloc::Global;
use zw_base::Oom;
use zw_tree::{Ast, NodeKind};

/// Where each node of a tree stands.
#[derive(Drop)]
pub struct Sites {
    pub lists: Lists,
    pub list: Vec<Site>,
}

/// The site of a node.
pub fn site_at(sites: &Sites, n: u32) -> Option<Site>
    ensures { result ≡ slice_get sites.now.list.items n }
{
    sites.list.as_slice().get(n as usize).copied()
}

/// Whether nothing stands behind the child of this index but an `else`.
fn is_end(ast: &Ast, nodes: &[u32], index: usize) -> bool
    requires { index < length nodes.now }
    ensures { (n : ℕ) → nodes.now ≡ children ast.now n → result ≡ is_last (after (suc index) (below ast.now n)) }
{
    match nodes.get(index + 1) {
        Some(next) => is_else(kind(ast, *next)),
        None => true,
    }
}

/// Places the children of a node that is placed.
fn place_children(
    alloc: Global,
    ast: &Ast,
    lists: &mut Lists,
    sites: &mut [Site],
    n: u32,
) -> Result<(), Oom>
    requires sized { length sites.old ≡ count ast.now }
    requires within { n < count ast.now }
    ensures grows { OnOk result (Grows lists.old lists.new) }
    ensures placed { OnOk result ((s : Standing) → slice_get (all_standing ast.now) n ≡ Some s → HasSite lists.old sites.old n s →
        (c : ℕ) (t : Standing) → parent ast.now c ≡ Some n → slice_get (all_standing ast.now) c ≡ Some t → HasSite lists.new sites.new c t) }
    ensures others { OnOk result ((m : ℕ) → parent ast.now m ≢ Some n → slice_get sites.new m ≡ slice_get sites.old m) }
{
    let view = sites[n as usize].view;
    let mut around = surroundings_of(alloc, ast, lists, n, view)?;
    let nodes = children(ast, n);
    for (k, child) in nodes.iter().enumerate() {
        sites[*child as usize] = site_of(around, kind(ast, *child), is_end(ast, nodes, k));
        around = pass(alloc, ast, lists, around, *child)?;
    }
    Ok(())
}

/// Places the roots. No root is in a part that a form takes, so what stands behind it says nothing.
fn place_roots(alloc: Global, ast: &Ast, lists: &mut Lists, sites: &mut [Site]) -> Result<(), Oom>
    requires { length sites.old ≡ count ast.now }
    ensures { OnOk result (ArePlaced lists.new sites.new ast.now 0) }
{
    let mut around = outermost();
    for n in 0..ast.count() {
        if ast.parent(n).is_some() {
            continue;
        }
        sites[n as usize] = site_of(around, kind(ast, n), true);
        around = pass(alloc, ast, lists, around, n)?;
    }
    Ok(())
}

/// Places all nodes: the roots, and then the children of each node.
fn place_all(alloc: Global, ast: &Ast, lists: &mut Lists, sites: &mut [Site]) -> Result<(), Oom>
    requires { length sites.old ≡ count ast.now }
    ensures { OnOk result (AllPlaced lists.new sites.new ast.now) }
{
    place_roots(alloc, ast, lists, sites)?;
    for n in 0..ast.count() {
        place_children(alloc, ast, lists, sites, n)?;
    }
    Ok(())
}

/// One site for each of so many nodes.
fn filled(alloc: Global, site: Site, count: u32) -> Result<Vec<Site>, Oom>
    ensures { IfOk result (λ list. list.items ≡ replicate count site) }
{
    let mut list = Vec::new(alloc);
    for _index in 0..count {
        list.push(site)?;
    }
    Ok(list)
}

/// Where each node stands.
pub fn placed(alloc: Global, ast: &Ast) -> Result<Sites, Oom>
    ensures { IfOk result (λ sites. AllPlaced sites.lists sites.list.items ast.now) }
{
    let mut lists = new_lists(alloc);
    let first = site_of(outermost(), NodeKind::Root, true);
    let mut list = filled(alloc, first, ast.count())?;
    place_all(alloc, ast, &mut lists, list.as_mut_slice())?;
    Ok(Sites { lists, list })
}
