// The first violation so far.
ghost use Rattle.std.specs.Prelude.{◌≡◌, ◌<◌, ◌++◌, List, IfSome, MatchBool, Some};
ghost use Rattle.zw_scope.specs.NameRules.{NotBehind, Violation};
ghost use Rattle.zw_scope.specs.Telling.{IsFirstOf, tells};
ghost use Rattle.zw_tree.specs.Numbering.{first_root, from};
ghost use Rattle.zw_tree.specs.Trees.{count};

use zw_scope_sites::nodes::first_token;
use zw_tree::Ast;

/// A violation: the number of the error, and the node at which it is told.
#[derive(Clone, Copy)]
pub(crate) struct Told {
    pub(crate) error: u16,
    pub(crate) node: u32,
}

/// Whether a violation stands before another, by its token, and at one token by its number.
fn is_before(ast: &Ast, left: Told, right: Told) -> bool
    ensures { (v w : Violation) → first_root (from ast.now left.node) ≡ Some v.at → v.error ≡ left.error → first_root (from ast.now right.node) ≡ Some w.at → w.error ≡ right.error → MatchBool result (NotBehind v w) (NotBehind w v) }
{
    let (first, second) = (first_token(ast, left.node), first_token(ast, right.node));
    first < second || (first == second && left.error <= right.error)
}

/// The first of the violations so far and one more, if there is one at this node.
pub(crate) fn tell(ast: &Ast, so_far: Option<Told>, error: u16, node: Option<u32>) -> Option<Told>
    requires { IfSome node (λ n. n < count ast.now) }
    ensures { (vs : List Violation) → IsFirstOf ast.now vs so_far → IsFirstOf ast.now (vs ++ tells ast.now error node) result }
{
    let Some(node) = node else {
        return so_far;
    };
    let next = Told { error, node };
    let Some(told) = so_far else {
        return Some(next);
    };
    if is_before(ast, told, next) {
        Some(told)
    } else {
        Some(next)
    }
}
