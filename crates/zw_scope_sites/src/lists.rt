// Names that are bound and labels that are open, in lists that share their ends. Each list is known by its head, or 0 where it is empty:
// a list of labels by the number of its first link from 1, and a list of bindings by the head of its table of names, so that a look-up
// takes as many steps as the number of a name has bits, however long the list is.
ghost use Rattle.std.specs.Prelude.{◌≡◌, ◌<◌, ◌∷◌, [], List, suc, IfOk, IfSome, OnOk, MatchOption, None, Some};
ghost use Rattle.std.specs.List.{list_any};
ghost use Rattle.std.specs.Option.{option_map};
ghost use Rattle.zw_scope_sites.specs.Lists.{Grows, IsBindings, IsFound, IsLabels};
ghost use Rattle.zw_scope_sites.specs.Scopes.{is_open, is_visible_local, open_label, binds, innermost};

use crate::tables::{Fork, get, put};
use indexmap::IndexSet;
use sqlite_items::Items;
use std::alloc::Global;
use zw_base::Oom;
use zw_names::{number_in, number_of};

/// A name that is bound to the node of a local constant or variable, a parameter or a capture; or else to the node of a declaration
/// of a container.
#[derive(Drop)]
pub struct Binding {
    pub name: Items<u8>,
    pub node: u32,
    pub is_local: bool,
}

/// A label of a block or a loop that is open, and in how many deferred statements of its function it stands.
#[derive(Drop)]
pub struct OpenLabel {
    pub name: Items<u8>,
    pub is_loop: bool,
    pub defers: u32,
}

/// A binding, and whether a local of its name is in the list that it comes first in.
#[derive(Drop)]
struct BindingLink {
    item: Binding,
    sees_local: bool,
}

/// A label and the head of the list behind it.
#[derive(Drop)]
struct LabelLink {
    item: OpenLabel,
    next: u32,
}

/// All lists. The table of a list of bindings leads from the number of a name to that of the innermost link with this name, from 1.
#[derive(Drop)]
pub struct Lists {
    names: IndexSet<Vec<u8>>,
    forks: Vec<Fork>,
    bindings: Vec<BindingLink>,
    labels: Vec<LabelLink>,
}

/// No list but the empty ones.
pub fn new_lists(alloc: Global) -> Lists {
    Lists {
        names: IndexSet::new(alloc),
        forks: Vec::new(alloc),
        bindings: Vec::new(alloc),
        labels: Vec::new(alloc),
    }
}

/// The head of the next list. More than 2^32 - 1 links end as want of memory does.
fn head_behind(links: usize) -> Result<u32, Oom>
    ensures { IfOk result (λ head. head ≡ suc links) }
{
    match u32::try_from(links) {
        Ok(last) => last.checked_add(1).ok_or(Oom),
        Err(_) => Err(Oom),
    }
}

/// Whether a local of the name of a binding is in the list that this makes before another one.
fn will_see_local(lists: &Lists, item: &Binding, next: u32) -> bool
    ensures { (bs : List Binding) → IsBindings lists.now next bs → result ≡ list_any (is_visible_local item.now.name) (item.now ∷ bs) }
{
    if item.is_local {
        return true;
    }
    sees_local(lists, next, item.name.as_slice())
}

/// Puts a binding before a list, and gives the head of the new one.
pub(crate) fn bind(alloc: Global, lists: &mut Lists, item: Binding, next: u32) -> Result<u32, Oom>
    ensures grows { OnOk result (Grows lists.old lists.new) }
    ensures head { IfOk result (λ head. (bs : List Binding) → IsBindings lists.old next bs → IsBindings lists.new head (item ∷ bs)) }
{
    let sees_local = will_see_local(lists, &item, next);
    let name = number_of(alloc, &mut lists.names, item.name.as_slice())?;
    let link = head_behind(lists.bindings.as_slice().len())?;
    lists.bindings.push(BindingLink { item, sees_local })?;
    put(&mut lists.forks, next, name, link)
}

/// Puts an open label before a list, and gives the head of the new one.
pub(crate) fn open(lists: &mut Lists, item: OpenLabel, next: u32) -> Result<u32, Oom>
    ensures grows { OnOk result (Grows lists.old lists.new) }
    ensures head { IfOk result (λ head. (ls : List OpenLabel) → IsLabels lists.old next ls → IsLabels lists.new head (item ∷ ls)) }
{
    let head = head_behind(lists.labels.as_slice().len())?;
    lists.labels.push(LabelLink { item, next })?;
    Ok(head)
}

/// The innermost link of a name in a list.
fn found<'a>(lists: &'a Lists, head: u32, name: &[u8]) -> Option<&'a BindingLink>
    ensures { (bs : List Binding) → IsBindings lists.now head bs → IsFound (option_map (λ l. l.now) result) name.now bs }
{
    let number = number_in(&lists.names, name);
    let link = get(lists.forks.as_slice(), head, number);
    match link.checked_sub(1) {
        Some(at) => lists.bindings.get(at as usize),
        None => None,
    }
}

/// The first link of a list, where it has one.
fn first_label(lists: &Lists, head: u32) -> Option<&LabelLink>
    ensures behind { IfSome result (λ l. l.now.next < head) }
    ensures first { (ls : List OpenLabel) → IsLabels lists.now head ls → MatchOption result
        (ls ≡ [])
        (λ l. (rest : List OpenLabel) × (ls ≡ l.now.item ∷ rest) × IsLabels lists.now l.now.next rest) }
{
    let at = head.checked_sub(1)?;
    let link = lists.labels.get(at as usize)?;
    if link.next > at {
        return None;
    }
    Some(link)
}

/// The innermost binding of a name in a list.
pub fn innermost<'a>(lists: &'a Lists, head: u32, name: &[u8]) -> Option<&'a Binding>
    ensures { (bs : List Binding) → IsBindings lists.now head bs → MatchOption result
        (innermost bs name.now ≡ None)
        (λ b. innermost bs name.now ≡ Some b.now) }
{
    let link = found(lists, head, name)?;
    Some(&link.item)
}

/// Whether a local of this name is in a list.
pub fn sees_local(lists: &Lists, head: u32, name: &[u8]) -> bool
    ensures { (bs : List Binding) → IsBindings lists.now head bs → result ≡ list_any (is_visible_local name.now) bs }
{
    match found(lists, head, name) {
        Some(link) => link.sees_local,
        None => false,
    }
}

/// The innermost open label of a name in a list.
pub fn open_label<'a>(lists: &'a Lists, head: u32, name: &[u8]) -> Option<&'a OpenLabel>
    ensures { (ls : List OpenLabel) → IsLabels lists.now head ls → MatchOption result
        (open_label ls name.now ≡ None)
        (λ l. open_label ls name.now ≡ Some l.now) }
{
    let mut at = head;
    while let Some(link) = first_label(lists, at) {
        if link.item.name.as_slice() == name {
            return Some(&link.item);
        }
        at = link.next;
    }
    None
}

/// Whether a list binds a name.
pub fn binds(lists: &Lists, head: u32, name: &[u8]) -> bool
    ensures { (bs : List Binding) → IsBindings lists.now head bs → result ≡ binds bs name.now }
{
    innermost(lists, head, name).is_some()
}

/// Whether a label of this name is open in a list.
pub fn is_open(lists: &Lists, head: u32, name: &[u8]) -> bool
    ensures { (ls : List OpenLabel) → IsLabels lists.now head ls → result ≡ is_open ls name.now }
{
    open_label(lists, head, name).is_some()
}
