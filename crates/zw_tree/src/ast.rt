// A tree as a list of nodes, each with its parent and its children, to which nodes are added in preorder.
ghost use Rattle.std.specs.Prelude.{◌≡◌, ◌<◌, ◌^◌, ◌-◌, length, IfSome, IfOk, OnOk, OnErr};
ghost use Rattle.std.specs.Option.{option_map};
ghost use Rattle.zw_tree.specs.Growth.{MayGrow, grown};
ghost use Rattle.zw_tree.specs.Numbering.{node_at, child, children, parent};
ghost use Rattle.zw_tree.specs.Trees.{count, none};
ghost use Rattle.zw_tree.specs.Slots.{joined};
ghost use Rattle.zw_tree.specs.declared.ast.Entry.{Entry};

use crate::NodeKind;
use sqlite_items::Items;
use std::alloc::Global;
use std::marker::Model;
use zw_base::{Oom, Place};

/// A node: its kind, the place of its first token, and the numbers of its first and its last token in the list of tokens.
#[derive(Clone, Copy, Debug, PartialEq, Eq)]
pub struct Node {
    pub kind: NodeKind,
    pub place: Place,
    pub first: u32,
    pub last: u32,
}

/// A node with what its tokens stand for.
#[derive(Debug, Drop)]
pub struct Entry {
    pub node: Node,
    /// The bytes that a name, a builtin or a text stands for; empty for other nodes.
    pub name: Items<u8>,
    /// The value of a number or a character; None for other nodes, and for a number past 2^127 - 1.
    pub number: Option<i128>,
}

// A node with the numbers of its parent and of its children, in order.
#[derive(Debug, Drop)]
struct Slot {
    entry: Entry,
    parent: Option<u32>,
    children: Items<u32>,
}

/// A tree whose nodes are numbered from 0 in preorder: each node before its children, and these in the order of the text.
/// Contracts see the forest of what its nodes say, which is one tree from the first node on.
#[derive(Debug, Drop)]
pub struct Ast {
    slots: Vec<Slot>,
}

// Adds a node behind all others, and to the children of its parent. After want of memory nothing has changed.
fn join(slots: &mut Vec<Slot>, slot: Slot) -> Result<(), Oom>
    requires parent_within { IfSome slot.parent (λ p. p < length slots.old.items) }
    requires room { length slots.old.items < 2 ^ 32 - 1 }
    ensures ok { OnOk result (slots.new.items ≡ joined slots.old.items slot) }
    ensures err { OnErr result (slots.new.items ≡ slots.old.items) }
{
    let n = slots.len() as u32;
    let parent = slot.parent;
    slots.push(slot)?;
    let Some(p) = parent else {
        return Ok(());
    };
    match slots[p as usize].children.push(n) {
        Ok(()) => Ok(()),
        Err(e) => {
            slots.pop();
            Err(e)
        }
    }
}

impl Model for Ast {
    ghost use Rattle.std.specs.Prelude.{◌<◌, ◌^◌, length};
    ghost use Rattle.zw_tree.specs.Trees.{Forest};
    ghost use Rattle.zw_tree.specs.ForestCode.{forest_code};
    ghost use Rattle.zw_tree.specs.Slots.{AreSlots, forest_of};
    ghost use Rattle.zw_tree.specs.contracts.ast.Entry as e;
    ghost use Rattle.zw_tree.specs.declared.ast.Entry.{Entry};

    ghost Value = { Forest Entry };

    ghost coded = { forest_code e.the_row.coded };

    ghost view = { λ a. forest_of a.slots.items };

    ghost invariant = { λ a. AreSlots a.slots.items (forest_of a.slots.items) × (length a.slots.items < 2 ^ 32) };
}

impl Ast {
    /// A tree without nodes.
    pub fn new(alloc: Global) -> Ast
        ensures { result ≡ none }
    {
        Ast {
            slots: Vec::new(alloc),
        }
    }

    /// How many nodes there are.
    pub fn count(&self) -> u32
        ensures { result ≡ count self.now }
    {
        self.slots.len() as u32
    }

    /// The node with this number.
    pub fn node(&self, n: u32) -> &Node
        requires { n < count self.now }
        ensures { option_map (λ (entry : Entry). entry.node) (node_at self.now n) ≡ Some result.now }
    {
        &self.slots[n as usize].entry.node
    }

    /// The bytes that the node stands for: those of a name, a builtin or a text, and none for any other.
    pub fn name(&self, n: u32) -> &[u8]
        requires { n < count self.now }
        ensures { option_map (λ (entry : Entry). entry.name) (node_at self.now n) ≡ Some result.now }
    {
        self.slots[n as usize].entry.name.as_slice()
    }

    /// The value of the number or character that the node is. None for any other, and where the value is past 2^127 - 1.
    pub fn number(&self, n: u32) -> Option<i128>
        requires { n < count self.now }
        ensures { option_map (λ (entry : Entry). entry.number) (node_at self.now n) ≡ Some result }
    {
        self.slots[n as usize].entry.number
    }

    /// The node's parent. None exactly for a root.
    pub fn parent(&self, n: u32) -> Option<u32>
        requires { n < count self.now }
        ensures { result ≡ parent self.now n }
    {
        self.slots[n as usize].parent
    }

    /// The node's children, in the order of the text.
    pub fn children(&self, n: u32) -> &[u32]
        requires { n < count self.now }
        ensures { result.now ≡ children self.now n }
    {
        self.slots[n as usize].children.as_slice()
    }

    /// The node's k-th child, from 0. None exactly where it has no k-th one.
    pub fn child(&self, n: u32, k: u32) -> Option<u32>
        requires { n < count self.now }
        ensures { result ≡ child self.now n k }
    {
        self.children(n).get(k as usize).copied()
    }

    /// Adds the next node in preorder, as the last child of its parent, and gives its number. The first node has no parent,
    /// and the parent of each other is the last node or one of its ancestors. After want of memory nothing has changed.
    pub fn add(
        &mut self,
        parent: Option<u32>,
        node: Node,
        name: Vec<u8>,
        number: Option<i128>,
    ) -> Result<u32, Oom>
        requires place { MayGrow self.old parent }
        requires room { count self.old < 4294967295 }
        ensures number { IfOk result (λ n. n ≡ count self.old) }
        ensures ok { OnOk result (self.new ≡ grown self.old parent (record { node = node; name = name.items; number = number })) }
        ensures err { OnErr result (self.new ≡ self.old) }
    {
        let n = self.count();
        let entry = Entry {
            node,
            name: Items::from_vec(name),
            number,
        };
        let children = Items::new(*self.slots.allocator());
        join(
            &mut self.slots,
            Slot {
                entry,
                parent,
                children,
            },
        )?;
        Ok(n)
    }
}
