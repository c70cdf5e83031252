// What the identifiers of a tree name, and what its containers declare.
ghost use Rattle.std.specs.Prelude.{◌≡◌, ◌<◌, ℕ, suc, Option, Some, IfOk, slice_get};
ghost use Rattle.std.specs.Option.{option_map, option_to_list};
ghost use Rattle.zw_scope.specs.MembersOf.{AreMembers, Declares, Names};
ghost use Rattle.zw_scope.specs.NameRules.{mentioned_by};
ghost use Rattle.zw_scope_sites.specs.Placing.{AllPlaced};
ghost use Rattle.zw_scope_sites.specs.Scopes.{Standing, all_standing, declared, innermost};
ghost use Rattle.zw_scope_sites.specs.declared.lists.Binding.{Binding};
ghost use Rattle.zw_tree.specs.Numbering.{below};
ghost use Rattle.zw_tree.specs.Trees.{Forest, count};
ghost use Rattle.zw_tree.specs.declared.ast.Entry.{Entry};

use crate::check::named;
use std::alloc::Global;
use zw_base::Oom;
use zw_scope_sites::lists::{Lists, innermost, new_lists};
use zw_scope_sites::place::{Sites, placed};
use zw_scope_sites::sites::declare;
use zw_tree::Ast;

/// What each identifier of a tree names, and what each container declares.
#[derive(Drop)]
pub struct Members {
    lists: Lists,
    heads: Vec<u32>,
    named: Vec<Option<u32>>,
}

/// What each node names.
fn named_of(alloc: Global, ast: &Ast, sites: &Sites) -> Result<Vec<Option<u32>>, Oom>
    requires placed { AllPlaced sites.now.lists sites.now.list.items ast.now }
    ensures { IfOk result (λ named. (n : ℕ) → n < count ast.now → (o : Option ℕ) × (slice_get named.items n ≡ Some o) × Names ast.now n o) }
{
    let mut list = Vec::new(alloc);
    for n in 0..ast.count() {
        list.push(named(ast, sites, n))?;
    }
    Ok(list)
}

/// What the children of each node declare.
fn heads_of(alloc: Global, ast: &Ast, lists: &mut Lists) -> Result<Vec<u32>, Oom>
    ensures { IfOk result (λ heads. (n : ℕ) → n < count ast.now → (head : ℕ) × (slice_get heads.items n ≡ Some head) × Declares ast.now lists.new n head) }
{
    let mut heads = Vec::new(alloc);
    for n in 0..ast.count() {
        let head = declare(alloc, ast, lists, n, 0)?;
        heads.push(head)?;
    }
    Ok(heads)
}

/// The head of what the children of a node declare.
fn head_at(members: &Members, n: u32) -> Option<u32>
    ensures { result ≡ slice_get members.now.heads.items n }
{
    members.heads.as_slice().get(n as usize).copied()
}

/// What a node names, where there is such a node.
fn named_at(members: &Members, n: u32) -> Option<Option<u32>>
    ensures { result ≡ slice_get members.now.named.items n }
{
    members.named.as_slice().get(n as usize).copied()
}

impl Members {
    /// The members of a file.
    pub fn build(alloc: Global, ast: &Ast) -> Result<Members, Oom>
        ensures { IfOk result (AreMembers ast.now) }
    {
        let sites = placed(alloc, ast)?;
        let named = named_of(alloc, ast, &sites)?;
        let mut lists = new_lists(alloc);
        let heads = heads_of(alloc, ast, &mut lists)?;
        Ok(Members {
            lists,
            heads,
            named,
        })
    }

    /// The node of the declaration of this name in a container. None exactly where there is none.
    pub fn find(&self, container: u32, name: &[u8]) -> Option<u32>
        ensures { (file : Forest Entry) → AreMembers file self.now → container < count file → result ≡ option_map (λ (b : Binding). b.node) (innermost (declared (suc container) (below file container)) name.now) }
    {
        let Some(head) = head_at(self, container) else {
            return None;
        };
        match innermost(&self.lists, head, name) {
            Some(binding) => Some(binding.node),
            None => None,
        }
    }

    /// The node of the local, parameter, capture or declaration that an identifier names. None exactly where the node is no
    /// identifier of these.
    pub fn names(&self, node: u32) -> Option<u32>
        ensures { (file : Forest Entry) (s : Standing) → AreMembers file self.now → slice_get (all_standing file) node ≡ Some s → mentioned_by s ≡ option_to_list result }
    {
        match named_at(self, node) {
            Some(named) => named,
            None => None,
        }
    }
}
