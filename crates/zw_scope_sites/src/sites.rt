// What surrounds a node, with the lists of names and labels by their heads.
ghost use Rattle.std.specs.Prelude.{◌≡◌, ◌++◌, ℕ, suc, true, List, [], IfOk, OnOk, if◌then◌else◌};
ghost use Rattle.zw_scope_sites.specs.Firsts.{kind_at};
ghost use Rattle.zw_scope_sites.specs.Lists.{Grows, IsBindings};
ghost use Rattle.zw_scope_sites.specs.Scopes.{Around, Scope, around_file, base_of, behind_child, binds_local, bound, declared, ends_in_body, first_bound, in_body, in_container, in_defer, in_loop, is_last, kind_of, label_in, labelled, name_in, stands, taken_scope};
ghost use Rattle.zw_scope_sites.specs.Sites.{IsPart, IsSite, Shows, Surrounds, around_at, declared_by, with_siblings};
ghost use Rattle.zw_tree.specs.Numbering.{below, from};
ghost use Rattle.zw_tree.specs.Trees.{Forest};
ghost use Rattle.zw_tree.specs.declared.ast.Entry.{Entry};
ghost use Rattle.zw_scope_sites.specs.declared.lists.Binding.{Binding};
ghost use Rattle.zw_scope_sites.specs.declared.lists.Lists.{Lists};

use crate::kinds::{is_declaration, is_else, is_inside_container, is_taken_by};
use crate::lists::{Binding, Lists, OpenLabel, bind, innermost, open};
use crate::nodes::{children, ends_in_body, kind, label_in, name_in, text};
use sqlite_items::Items;
use std::alloc::Global;
use zw_base::Oom;
use zw_tree::{Ast, NodeKind};

/// What surrounds a node: the heads of the lists of visible names and of open labels; in how many deferred statements the innermost
/// loop stands, where there is one; whether a function or a test surrounds it, and how many deferred statements of that.
#[derive(Clone, Copy)]
pub struct View {
    pub names: u32,
    pub labels: u32,
    pub innermost_loop: Option<u32>,
    pub in_function: bool,
    pub defers: u32,
}

/// A node where it stands: its parent's kind, what surrounds it, and the head of the list of what its siblings bind.
#[derive(Clone, Copy)]
pub struct Site {
    pub parent: Option<NodeKind>,
    pub view: View,
    pub siblings: u32,
}

/// What surrounds children, without and with what their siblings bind.
#[derive(Clone, Copy)]
pub(crate) struct Part {
    view: View,
    seen: u32,
}

/// What surrounds the children of a node: the parent's kind, what surrounds the parent, what surrounds the part that it takes, and what
/// the children so far bind.
#[derive(Clone, Copy)]
pub(crate) struct Surroundings {
    parent: Option<NodeKind>,
    plain: Part,
    taken: Part,
    siblings: u32,
}

/// Binds the name of a node, where it has one, before a list.
fn bind_name(
    alloc: Global,
    ast: &Ast,
    lists: &mut Lists,
    n: u32,
    is_local: bool,
    next: u32,
) -> Result<u32, Oom>
    ensures grows { OnOk result (Grows lists.old lists.new) }
    ensures head { IfOk result (λ head. (bs : List Binding) → IsBindings lists.old next bs → IsBindings lists.new head (bound n is_local (name_in (below ast.now n)) ++ bs)) }
{
    let Some(name) = name_in(ast, n) else {
        return Ok(next);
    };
    let name = Items::from_slice(alloc, text(ast, name))?;
    bind(
        alloc,
        lists,
        Binding {
            name,
            node: n,
            is_local,
        },
        next,
    )
}

/// Binds what a member declares.
fn declare_member(
    alloc: Global,
    ast: &Ast,
    lists: &mut Lists,
    member: u32,
    next: u32,
) -> Result<u32, Oom>
    ensures grows { OnOk result (Grows lists.old lists.new) }
    ensures head { IfOk result (λ head. (bs : List Binding) → IsBindings lists.old next bs → IsBindings lists.new head (declared_by ast.now member ++ bs)) }
{
    if !is_declaration(kind(ast, member)) {
        return Ok(next);
    }
    bind_name(alloc, ast, lists, member, false, next)
}

/// Binds what the members of a container declare.
pub fn declare(alloc: Global, ast: &Ast, lists: &mut Lists, n: u32, next: u32) -> Result<u32, Oom>
    ensures grows { OnOk result (Grows lists.old lists.new) }
    ensures head { IfOk result (λ head. (bs : List Binding) → IsBindings lists.old next bs → IsBindings lists.new head (declared (suc n) (below ast.now n) ++ bs)) }
{
    let members = children(ast, n);
    let mut head = next;
    let mut left = members.len();
    while left > 0 {
        left -= 1;
        head = declare_member(alloc, ast, lists, members[left], head)?;
    }
    Ok(head)
}

/// What surrounds the members of a container whose list of visible names has this head.
fn in_container(names: u32) -> View
    ensures { (lists : Lists) (declarations : List Binding) (scope : Scope) → IsBindings lists names (declarations ++ scope.visible) → Shows lists result (in_container declarations scope) }
{
    View {
        names,
        labels: 0,
        innermost_loop: None,
        in_function: false,
        defers: 0,
    }
}

/// What surrounds the body of a function or a test.
fn in_body(view: View) -> View
    ensures { (lists : Lists) (scope : Scope) → Shows lists view scope → Shows lists result (in_body scope) }
{
    View {
        names: view.names,
        labels: 0,
        innermost_loop: None,
        in_function: true,
        defers: 0,
    }
}

/// What surrounds the body of a function, if it has one.
fn in_function(ast: &Ast, n: u32, view: View) -> View
    ensures { (lists : Lists) (scope : Scope) → Shows lists view scope → Shows lists result (if ends_in_body (below ast.now n) then in_body scope else scope) }
{
    if ends_in_body(ast, n) {
        in_body(view)
    } else {
        view
    }
}

/// What surrounds a deferred statement.
fn in_defer(view: View) -> Result<View, Oom>
    ensures { IfOk result (λ v. (lists : Lists) (scope : Scope) → Shows lists view scope → Shows lists v (in_defer scope)) }
{
    let defers = view.defers.checked_add(1).ok_or(Oom)?;
    Ok(View { defers, ..view })
}

/// What surrounds the part of a block or a loop that its label is open in.
fn labelled(
    alloc: Global,
    ast: &Ast,
    lists: &mut Lists,
    is_loop: bool,
    n: u32,
    view: View,
) -> Result<View, Oom>
    ensures grows { OnOk result (Grows lists.old lists.new) }
    ensures shows { IfOk result (λ v. (scope : Scope) → Shows lists.old view scope → Shows lists.new v (labelled is_loop (label_in (below ast.now n)) scope)) }
{
    let Some(label) = label_in(ast, n) else {
        return Ok(view);
    };
    let name = Items::from_slice(alloc, text(ast, label))?;
    let defers = view.defers;
    let labels = open(
        lists,
        OpenLabel {
            name,
            is_loop,
            defers,
        },
        view.labels,
    )?;
    Ok(View { labels, ..view })
}

/// What surrounds the parts of a loop that it takes.
fn in_loop(alloc: Global, ast: &Ast, lists: &mut Lists, n: u32, view: View) -> Result<View, Oom>
    ensures grows { OnOk result (Grows lists.old lists.new) }
    ensures shows { IfOk result (λ v. (scope : Scope) → Shows lists.old view scope → Shows lists.new v (in_loop (label_in (below ast.now n)) scope)) }
{
    let innermost_loop = Some(view.defers);
    labelled(
        alloc,
        ast,
        lists,
        true,
        n,
        View {
            innermost_loop,
            ..view
        },
    )
}

/// What surrounds the members of a container.
fn in_members(alloc: Global, ast: &Ast, lists: &mut Lists, n: u32, view: View) -> Result<View, Oom>
    ensures grows { OnOk result (Grows lists.old lists.new) }
    ensures shows { IfOk result (λ v. (scope : Scope) → Shows lists.old view scope → Shows lists.new v (in_container (declared (suc n) (below ast.now n)) scope)) }
{
    let names = declare(alloc, ast, lists, n, view.names)?;
    Ok(in_container(names))
}

/// What surrounds the part of a form that it takes.
fn taken(alloc: Global, ast: &Ast, lists: &mut Lists, n: u32, view: View) -> Result<View, Oom>
    ensures grows { OnOk result (Grows lists.old lists.new) }
    ensures shows { IfOk result (λ v. (scope : Scope) → Shows lists.old view scope → Shows lists.new v (taken_scope (kind_at (from ast.now n)) n (below ast.now n) scope)) }
{
    match kind(ast, n) {
        NodeKind::Root => in_members(alloc, ast, lists, n, view),
        NodeKind::Struct => in_members(alloc, ast, lists, n, view),
        NodeKind::Enum => in_members(alloc, ast, lists, n, view),
        NodeKind::Union => in_members(alloc, ast, lists, n, view),
        NodeKind::Function => Ok(in_function(ast, n, view)),
        NodeKind::Test => Ok(in_body(view)),
        NodeKind::Block => labelled(alloc, ast, lists, false, n, view),
        NodeKind::While => in_loop(alloc, ast, lists, n, view),
        NodeKind::For => in_loop(alloc, ast, lists, n, view),
        NodeKind::Defer => in_defer(view),
        NodeKind::ErrDefer => in_defer(view),
        _ => Ok(view),
    }
}

/// What surrounds the children of a node, before the first of them.
pub(crate) fn surroundings_of(
    alloc: Global,
    ast: &Ast,
    lists: &mut Lists,
    n: u32,
    view: View,
) -> Result<Surroundings, Oom>
    ensures grows { OnOk result (Grows lists.old lists.new) }
    ensures surrounds { IfOk result (λ around. (scope : Scope) → Shows lists.old view scope → Surrounds lists.new around (around_at ast.now n scope)) }
{
    let parent = Some(kind(ast, n));
    let taken = taken(alloc, ast, lists, n, view)?;
    Ok(Surroundings {
        parent,
        plain: Part {
            view,
            seen: view.names,
        },
        taken: Part {
            view: taken,
            seen: taken.names,
        },
        siblings: 0,
    })
}

/// The part that a child belongs to.
fn part_of(around: Surroundings, kind: NodeKind, is_end: bool) -> Part
    ensures { (lists : Lists) (a : Around) (behind : Forest Entry) → Surrounds lists around a → is_last behind ≡ is_end → IsPart lists result a.siblings (base_of a kind behind) }
{
    if is_taken_by(around.parent, kind, is_end) {
        around.taken
    } else {
        around.plain
    }
}

/// Where a child of this kind stands, when nothing stands behind it but an `else`, or more does.
pub(crate) fn site_of(around: Surroundings, kind: NodeKind, is_end: bool) -> Site
    ensures { (lists : Lists) (a : Around) (n : ℕ) (root : Entry) (inside behind : Forest Entry) → Surrounds lists around a → kind_of root ≡ kind → is_last behind ≡ is_end → IsSite lists result (stands a n root inside behind) }
{
    let part = part_of(around, kind, is_end);
    let names = if is_else(kind) {
        part.view.names
    } else {
        part.seen
    };
    Site {
        parent: around.parent,
        view: View { names, ..part.view },
        siblings: around.siblings,
    }
}

/// Binds the name of a child for those behind it.
fn bind_child(
    alloc: Global,
    ast: &Ast,
    lists: &mut Lists,
    around: Surroundings,
    n: u32,
) -> Result<Surroundings, Oom>
    ensures grows { OnOk result (Grows lists.old lists.new) }
    ensures surrounds { IfOk result (λ next. (a : Around) → Surrounds lists.old around a → Surrounds lists.new next (with_siblings a (bound n true (name_in (below ast.now n)) ++ a.siblings))) }
{
    let siblings = bind_name(alloc, ast, lists, n, true, around.siblings)?;
    let plain = bind_name(alloc, ast, lists, n, true, around.plain.seen)?;
    let taken = bind_name(alloc, ast, lists, n, true, around.taken.seen)?;
    Ok(Surroundings {
        parent: around.parent,
        plain: Part {
            view: around.plain.view,
            seen: plain,
        },
        taken: Part {
            view: around.taken.view,
            seen: taken,
        },
        siblings,
    })
}

/// Whether a parameter or a capture has the name of an earlier one.
fn is_repeated(ast: &Ast, lists: &Lists, siblings: u32, n: u32) -> bool
    ensures { (bs : List Binding) → IsBindings lists.now siblings bs → (if result then [] else bound n true (name_in (below ast.now n))) ≡ first_bound bs (bound n true (name_in (below ast.now n))) }
{
    match name_in(ast, n) {
        Some(name) => innermost(lists, siblings, text(ast, name)).is_some(),
        None => false,
    }
}

/// Binds the name of a parameter or a capture for those behind it, if no earlier one has it.
fn bind_first(
    alloc: Global,
    ast: &Ast,
    lists: &mut Lists,
    around: Surroundings,
    n: u32,
) -> Result<Surroundings, Oom>
    ensures grows { OnOk result (Grows lists.old lists.new) }
    ensures surrounds { IfOk result (λ next. (a : Around) → Surrounds lists.old around a → Surrounds lists.new next (with_siblings a (first_bound a.siblings (bound n true (name_in (below ast.now n))) ++ a.siblings))) }
{
    if is_repeated(ast, lists, around.siblings, n) {
        return Ok(around);
    }
    bind_child(alloc, ast, lists, around, n)
}

/// Binds what a child below a node that is no container binds for those behind it.
fn bind_local(
    alloc: Global,
    ast: &Ast,
    lists: &mut Lists,
    around: Surroundings,
    n: u32,
) -> Result<Surroundings, Oom>
    ensures grows { OnOk result (Grows lists.old lists.new) }
    ensures surrounds { IfOk result (λ next. (a : Around) → Surrounds lists.old around a → Surrounds lists.new next (with_siblings a (binds_local (kind_at (from ast.now n)) n (below ast.now n) a.siblings ++ a.siblings))) }
{
    match kind(ast, n) {
        NodeKind::Const => bind_child(alloc, ast, lists, around, n),
        NodeKind::Var => bind_child(alloc, ast, lists, around, n),
        NodeKind::Capture => bind_first(alloc, ast, lists, around, n),
        NodeKind::PointerCapture => bind_first(alloc, ast, lists, around, n),
        NodeKind::Parameter => bind_first(alloc, ast, lists, around, n),
        _ => Ok(around),
    }
}

/// What surrounds the children of a node behind one of them.
pub(crate) fn pass(
    alloc: Global,
    ast: &Ast,
    lists: &mut Lists,
    around: Surroundings,
    n: u32,
) -> Result<Surroundings, Oom>
    ensures grows { OnOk result (Grows lists.old lists.new) }
    ensures surrounds { IfOk result (λ next. (a : Around) → Surrounds lists.old around a → Surrounds lists.new next (behind_child a n (kind_at (from ast.now n)) (below ast.now n))) }
{
    if is_inside_container(around.parent) {
        return Ok(around);
    }
    bind_local(alloc, ast, lists, around, n)
}

/// What surrounds the roots of a file, before the first of them.
pub(crate) fn outermost() -> Surroundings
    ensures { (lists : Lists) → Surrounds lists result around_file }
{
    let view = View {
        names: 0,
        labels: 0,
        innermost_loop: None,
        in_function: false,
        defers: 0,
    };
    Surroundings {
        parent: None,
        plain: Part { view, seen: 0 },
        taken: Part { view, seen: 0 },
        siblings: 0,
    }
}
