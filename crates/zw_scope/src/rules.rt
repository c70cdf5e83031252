// The rules on names, at a single node where it stands.
ghost use Rattle.std.specs.Prelude.{◌≡◌, ◌<◌, ◌&&◌, ℕ, List, IfSome, Some, true, false, not, slice_get, unwrap_or};
ghost use Rattle.std.specs.Option.{option_to_list};
ghost use Rattle.std.specs.List.{list_any};
ghost use Rattle.zw_scope_sites.specs.Firsts.{kind_at};
ghost use Rattle.zw_scope_sites.specs.Scopes.{is_visible_local, Scope, Standing, binds, label_in};
ghost use Rattle.zw_scope.specs.NameRules.{flows, has_body, is_declared, is_parameter, unused, is_local, is_repeated, is_shadow, is_to_be_mentioned, label_takes, labels, loop_takes, mentioned_by, names_primitive, shadows, takes, takes_jump, takes_return, unknowns};
ghost use Rattle.zw_scope_sites.specs.Sites.{Shows};
ghost use Rattle.zw_scope.specs.Telling.{AreMarks, IsRead, tells};
ghost use Rattle.zw_tree.specs.Numbering.{below, first_root, from};
ghost use Rattle.zw_tree.specs.Trees.{count, tree};
ghost use Rattle.zw_tree.specs.declared.ast.Entry.{Entry};
ghost use Rattle.zw_scope_sites.specs.declared.lists.Lists.{Lists};

use zw_scope_sites::kinds::{
    is_capture, is_declaration, is_identifier, is_inside_container, is_inside_function, is_label,
    is_parameter, is_unquoted, is_variable, opens_label,
};
use zw_scope_sites::lists::{Lists, OpenLabel, binds, innermost, is_open, open_label, sees_local};
use zw_scope_sites::nodes::{ends_in_body, kind, label_in, name_in, text};
use zw_scope_sites::sites::{Site, View};
use zw_token::is_primitive_name;
use zw_tree::{Ast, NodeKind};

/// Whether a node is written without quotes, with the name of a primitive.
pub(crate) fn names_primitive(ast: &Ast, n: u32) -> bool
    ensures { (entry : Entry) → first_root (from ast.now n) ≡ Some entry → result ≡ names_primitive entry }
{
    is_unquoted(kind(ast, n)) && is_primitive_name(text(ast, n))
}

/// Whether a node is a local constant or variable, a parameter or a capture.
fn is_local(ast: &Ast, site: Site, n: u32) -> bool
    ensures { (lists : Lists) (s : Standing) → IsRead ast.now lists site n s → result ≡ is_local s }
{
    let kind = kind(ast, n);
    is_parameter(kind)
        || is_capture(kind)
        || (is_variable(kind) && !is_inside_container(site.parent))
}

/// Whether a node is a declaration of a container.
fn is_declared(ast: &Ast, site: Site, n: u32) -> bool
    ensures { (lists : Lists) (s : Standing) → IsRead ast.now lists site n s → result ≡ is_declared s }
{
    is_inside_container(site.parent) && is_declaration(kind(ast, n))
}

/// Whether a node is a parameter with the name of an earlier one.
fn is_repeated(ast: &Ast, lists: &Lists, site: Site, n: u32, name: &[u8]) -> bool
    ensures { (s : Standing) → IsRead ast.now lists.now site n s → result ≡ is_repeated s name.now }
{
    is_parameter(kind(ast, n)) && binds(lists, site.siblings, name)
}

/// Whether a local hides what is visible.
fn local_hides(ast: &Ast, lists: &Lists, site: Site, n: u32, name: &[u8]) -> bool
    ensures { (s : Standing) → IsRead ast.now lists.now site n s → result ≡ (is_local s && not (is_repeated s name.now) && binds s.scope.visible name.now) }
{
    if !is_local(ast, site, n) {
        return false;
    }
    if is_repeated(ast, lists, site, n, name) {
        return false;
    }
    binds(lists, site.view.names, name)
}

/// Whether a declaration hides a local.
fn declaration_hides(ast: &Ast, lists: &Lists, site: Site, n: u32, name: &[u8]) -> bool
    ensures { (s : Standing) → IsRead ast.now lists.now site n s → result ≡ (is_declared s && list_any (is_visible_local name.now) s.scope.visible) }
{
    if !is_declared(ast, site, n) {
        return false;
    }
    sees_local(lists, site.view.names, name)
}

/// Whether the name of a node is that of what it mustn't hide.
fn is_shadow(ast: &Ast, lists: &Lists, site: Site, n: u32, name: u32) -> bool
    ensures { (s : Standing) (entry : Entry) → IsRead ast.now lists.now site n s → first_root (from ast.now name) ≡ Some entry → result ≡ is_shadow s entry }
{
    if names_primitive(ast, name) {
        return true;
    }
    if local_hides(ast, lists, site, n, text(ast, name)) {
        return true;
    }
    declaration_hides(ast, lists, site, n, text(ast, name))
}

/// The name of a node that hides what it mustn't.
pub(crate) fn shadow_at(ast: &Ast, lists: &Lists, site: Site, n: u32) -> Option<u32>
    ensures there { IfSome result (λ c. c < count ast.now) }
    ensures told { (s : Standing) → IsRead ast.now lists.now site n s → shadows s ≡ tells ast.now 8 result }
{
    if !is_local(ast, site, n) && !is_declared(ast, site, n) {
        return None;
    }
    let name = name_in(ast, n)?;
    if is_shadow(ast, lists, site, n, name) {
        Some(name)
    } else {
        None
    }
}

/// The node that an identifier names, which is no primitive.
pub(crate) fn named_at(ast: &Ast, lists: &Lists, site: Site, n: u32) -> Option<u32>
    ensures { (s : Standing) → IsRead ast.now lists.now site n s → mentioned_by s ≡ option_to_list result }
{
    if !is_identifier(kind(ast, n)) || names_primitive(ast, n) {
        return None;
    }
    let binding = innermost(lists, site.view.names, text(ast, n))?;
    Some(binding.node)
}

/// The node, where it is an identifier that names nothing visible.
pub(crate) fn unknown_at(ast: &Ast, lists: &Lists, site: Site, n: u32) -> Option<u32>
    requires { n < count ast.now }
    ensures there { IfSome result (λ c. c < count ast.now) }
    ensures told { (s : Standing) → IsRead ast.now lists.now site n s → unknowns s ≡ tells ast.now 9 result }
{
    if is_identifier(kind(ast, n))
        && !names_primitive(ast, n)
        && named_at(ast, lists, site, n).is_none()
    {
        Some(n)
    } else {
        None
    }
}

/// Whether the function that a parameter stands in has a body.
fn has_body(ast: &Ast, site: Site, n: u32) -> bool
    requires { n < count ast.now }
    ensures { (lists : Lists) (s : Standing) → IsRead ast.now lists site n s → is_parameter s ≡ true → result ≡ has_body s }
{
    if !is_inside_function(site.parent) {
        return false;
    }
    match ast.parent(n) {
        Some(parent) => ends_in_body(ast, parent),
        None => false,
    }
}

/// Whether a node is a local that has to be mentioned: a parameter only where its function has a body.
fn is_to_be_mentioned(ast: &Ast, site: Site, n: u32) -> bool
    requires { n < count ast.now }
    ensures { (lists : Lists) (s : Standing) → IsRead ast.now lists site n s → result ≡ is_to_be_mentioned s }
{
    if !is_local(ast, site, n) {
        return false;
    }
    if !is_parameter(kind(ast, n)) {
        return true;
    }
    has_body(ast, site, n)
}

/// Whether a node is marked.
fn is_marked(marks: &[bool], n: u32) -> bool
    ensures { result ≡ unwrap_or (slice_get marks.now n) false }
{
    marks.get(n as usize).copied().unwrap_or(false)
}

/// The name of a local that has to be mentioned and isn't.
pub(crate) fn unused_at(ast: &Ast, lists: &Lists, site: Site, marks: &[bool], n: u32) -> Option<u32>
    requires { n < count ast.now }
    ensures there { IfSome result (λ c. c < count ast.now) }
    ensures told { (nodes : List ℕ) (s : Standing) → AreMarks ast.now marks.now nodes → IsRead ast.now lists.now site n s → unused nodes s ≡ tells ast.now 10 result }
{
    if !is_to_be_mentioned(ast, site, n) {
        return None;
    }
    let name = name_in(ast, n)?;
    if is_repeated(ast, lists, site, n, text(ast, name)) {
        return None;
    }
    if is_marked(marks, n) {
        return None;
    }
    Some(name)
}

/// The name of a label that names none that is open, or opens one that is open.
pub(crate) fn label_at(ast: &Ast, lists: &Lists, site: Site, n: u32) -> Option<u32>
    ensures there { IfSome result (λ c. c < count ast.now) }
    ensures told { (s : Standing) → IsRead ast.now lists.now site n s → labels s ≡ tells ast.now 12 result }
{
    if !is_label(kind(ast, n)) {
        return None;
    }
    let name = name_in(ast, n)?;
    let is_open = is_open(lists, site.view.labels, text(ast, name));
    if opens_label(site.parent) == is_open {
        Some(name)
    } else {
        None
    }
}

/// Whether the innermost loop takes a jump.
fn loop_takes(view: View) -> bool
    ensures { (lists : Lists) (scope : Scope) → Shows lists view scope → result ≡ loop_takes scope }
{
    match view.innermost_loop {
        None => false,
        Some(defers) => defers == view.defers,
    }
}

/// Whether an open label takes a jump from so many deferred statements.
fn label_takes(label: &OpenLabel, defers: u32, wants_loop: bool) -> bool
    ensures { result ≡ label_takes wants_loop defers (Some label.now) }
{
    label.defers == defers && (label.is_loop || !wants_loop)
}

/// Whether the target of a `break` or a `continue` takes it, as far as it is there.
fn takes_jump(ast: &Ast, lists: &Lists, view: View, n: u32, wants_loop: bool) -> bool
    ensures { (scope : Scope) → Shows lists.now view scope → result ≡ takes_jump wants_loop scope (label_in (below ast.now n)) }
{
    let Some(name) = label_in(ast, n) else {
        return loop_takes(view);
    };
    match open_label(lists, view.labels, text(ast, name)) {
        None => true,
        Some(label) => label_takes(label, view.defers, wants_loop),
    }
}

/// Whether a function or a test takes a `return` or a `try`.
fn takes_return(view: View) -> bool
    ensures { (lists : Lists) (scope : Scope) → Shows lists view scope → result ≡ takes_return scope }
{
    view.in_function && view.defers == 0
}

/// Whether what surrounds a form takes where it goes, if it goes anywhere.
fn takes(ast: &Ast, lists: &Lists, view: View, n: u32) -> bool
    ensures { (scope : Scope) → Shows lists.now view scope → result ≡ takes scope (below ast.now n) (kind_at (from ast.now n)) }
{
    match kind(ast, n) {
        NodeKind::Break => takes_jump(ast, lists, view, n, false),
        NodeKind::Continue => takes_jump(ast, lists, view, n, true),
        NodeKind::Return => takes_return(view),
        NodeKind::Try => takes_return(view),
        _ => true,
    }
}

/// The node, where nothing takes its jump, or the jump leaves a deferred statement.
pub(crate) fn flow_at(ast: &Ast, lists: &Lists, site: Site, n: u32) -> Option<u32>
    requires { n < count ast.now }
    ensures there { IfSome result (λ c. c < count ast.now) }
    ensures told { (s : Standing) → IsRead ast.now lists.now site n s → flows s ≡ tells ast.now 13 result }
{
    if takes(ast, lists, site.view, n) {
        None
    } else {
        Some(n)
    }
}
