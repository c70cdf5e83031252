// Nodes in preorder, from their list in the order in which they end.
ghost use Rattle.std.specs.Prelude.{◌≡◌, ◌+◌, ◌-◌, ◌<◌, ◌^◌, ◌++◌, suc, List, length, reverse, IfOk, OnOk, Some, None};
ghost use Rattle.zw_tree.specs.Trees.{Forest, trees, count};
ghost use Rattle.zw_grammar.specs.Building.{Span};
ghost use Rattle.zw_grammar.specs.Nodes.{nodes};
ghost use Rattle.zw_parse.specs.Order.{in_order, IsTree, EndsAt, HasTree, StandsFor};
ghost use Rattle.zw_parse.specs.declared.order.Next.{Next};

use std::alloc::Global;
use zw_base::Oom;
use zw_grammar::Built;

/// A node, and the number of its parent in preorder.
#[derive(Clone, Copy, Debug, PartialEq, Eq)]
pub(crate) struct Next {
    pub(crate) node: Built,
    pub(crate) parent: Option<u32>,
}

// A tree that is still to come, by the place of its root in the list, which is its last node there.
#[derive(Clone, Copy, Debug, PartialEq, Eq)]
struct Waiting {
    at: usize,
    parent: Option<u32>,
}

// Puts the trees below a node on what waits, the first of them on top.
fn push_children(
    built: &[Built],
    at: usize,
    parent: u32,
    waiting: &mut Vec<Waiting>,
) -> Result<(), Oom>
    requires within { at < length built.now }
    requires tree { HasTree built.now at }
    ensures { OnOk result ((root : Span) (lower : Forest Span) (rest : List Next) → EndsAt built.now at root lower →
        StandsFor built.now (reverse waiting.old.items) (suc parent + count lower) rest →
        StandsFor built.now (reverse waiting.new.items) (suc parent) (in_order lower (Some parent) (suc parent) ++ rest)) }
{
    let begin = at + 1 - built[at].size;
    let mut end = at;
    while begin < end {
        let child = end - 1;
        waiting.push(Waiting {
            at: child,
            parent: Some(parent),
        })?;
        end -= built[child].size;
    }
    Ok(())
}

/// The nodes of one tree in preorder, each with the number of its parent.
pub(crate) fn preorder(alloc: Global, built: &[Built]) -> Result<Vec<Next>, Oom>
    requires tree { (forest : Forest Span) × IsTree built.now forest }
    requires short { length built.now < 2 ^ 32 }
    ensures { IfOk result (λ order. (forest : Forest Span) → IsTree built.now forest → order.items ≡ in_order forest None 0) }
{
    let mut order = Vec::new(alloc);
    let mut waiting = Vec::new(alloc);
    waiting.push(Waiting {
        at: built.len() - 1,
        parent: None,
    })?;
    while let Some(next) = waiting.pop() {
        let number = order.len() as u32;
        order.push(Next {
            node: built[next.at],
            parent: next.parent,
        })?;
        push_children(built, next.at, number, &mut waiting)?;
    }
    Ok(order)
}
