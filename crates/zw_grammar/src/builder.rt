// The nodes of a tree in the order in which they end, and how deep rules nest.
ghost use Rattle.std.specs.Prelude.{◌≡◌, ◌+◌, ◌-◌, ◌++◌, ℕ, List, length};
ghost use Rattle.zw_tree.specs.Trees.{Forest, trees};
ghost use Rattle.zw_grammar.specs.declared.builder.Built.{Built};
ghost use Rattle.zw_grammar.specs.Building.{Span, Begun, start_of, front, rest, is_at};
ghost use Rattle.zw_grammar.specs.Nodes.{nodes, older_nodes, opened};

use crate::Mark;
use std::alloc::Global;
use zw_base::Oom;
use zw_tree::NodeKind;

/// How many rules that count may be open at once.
pub const MAX_DEPTH: u32 = 256;

/// A node: its kind, the numbers of its first and its last terminal, and how many nodes its tree has, itself included. These are
/// the nodes right before it and itself.
#[derive(Clone, Copy, Debug, PartialEq, Eq)]
pub struct Built {
    pub kind: NodeKind,
    pub first: u32,
    pub last: u32,
    pub size: usize,
}

// A node that has begun, and how many nodes had ended before its first child.
#[derive(Clone, Copy, Debug, PartialEq, Eq)]
struct Opened {
    kind: NodeKind,
    first: u32,
    before: usize,
}

/// The trees that are built so far, as the list of their nodes in the order in which these end: each behind its children. What one
/// reading builds stands behind what earlier ones built.
#[derive(Debug, Drop)]
pub struct Builder {
    nodes: Vec<Built>,
    // How many nodes stood here before the reading.
    older: usize,
    opened: Vec<Opened>,
    depth: u32,
    passed: Option<u32>,
}

// Whether the terminal stands at this place.
fn stands_at(terminals: &[u8], place: u32, terminal: u8) -> bool
    ensures { result ≡ is_at terminals.now place terminal }
{
    match terminals.get(place as usize) {
        Some(other) => *other == terminal,
        None => false,
    }
}

// How many nodes had ended before the first child of the innermost open node, behind so many older ones.
fn nodes_before(list: &[Opened], older: usize) -> usize
    ensures { (begun : List Begun) → list.now ≡ opened older begun → result ≡ older + length (older_nodes begun) }
{
    match list.last() {
        Some(innermost) => innermost.before,
        None => older,
    }
}

// Where the last trees, as many as this, begin among nodes of which the first `least` are others: the first terminal, and how
// many nodes stand before them. Where there are none the next terminal is the first.
fn last_trees(list: &[Built], least: usize, many: u8, next: u32) -> (u32, usize)
    ensures { (older : List Built) (ended : Forest Span) → list.now ≡ older ++ nodes ended → least ≡ length older →
        (result.0 ≡ start_of next (rest (trees ended - many) ended))
        × (result.1 ≡ length (older ++ nodes (front (trees ended - many) ended))) }
{
    let mut first = next;
    let mut before = list.len();
    for _ in 0..many {
        if least < before && before <= list.len() {
            let node = list[before - 1];
            first = node.first;
            before = before.saturating_sub(node.size);
        }
    }
    (first, before)
}

impl Builder {
    ghost use Rattle.std.specs.Prelude.{◌≡◌, ◌+◌, ◌-◌, ◌<◌, ◌++◌, List, [], length, OnOk};
    ghost use Rattle.zw_tree.specs.Trees.{none, trees};
    ghost use Rattle.zw_grammar.specs.Building.{Building, nothing, begin, ends, one, enter, wrapped, marked, enclosed};
    ghost use Rattle.zw_grammar.specs.Nodes.{Holds, HoldsBehind, nodes_of};

    /// No nodes.
    pub fn new(alloc: Global) -> Builder
        ensures { Holds result nothing }
    {
        Builder {
            nodes: Vec::new(alloc),
            older: 0,
            opened: Vec::new(alloc),
            depth: 0,
            passed: None,
        }
    }

    /// The nodes that have ended, in that order.
    pub fn nodes(&self) -> &[Built]
        ensures { result.now ≡ nodes_of self.now }
    {
        self.nodes.as_slice()
    }

    /// Puts all trees of the last reading below one node, which has the terminals from the first of the text up to this one. No other
    /// node is open.
    pub fn enclose(&mut self, kind: NodeKind, last: u32) -> Result<(), Oom>
        ensures { OnOk result ((older : List Built) (b : Building) → HoldsBehind older self.old b → b.begun ≡ [] → HoldsBehind older self.new (enclosed kind last b)) }
    {
        let below = self.nodes.len().saturating_sub(self.older);
        self.nodes.push(Built {
            kind,
            first: 0,
            last,
            size: below.saturating_add(1),
        })?;
        Ok(())
    }

    /// Where the first rule begins that is nested too deep.
    pub fn passed(&self) -> Option<u32>
        ensures { result ≡ self.now.passed }
    {
        self.passed
    }

    // A reading begins: what stands here stays as it is, no node is open and no rule counts.
    pub(crate) fn begin(&mut self)
        ensures stays { nodes_of self.new ≡ nodes_of self.old }
        ensures holds { HoldsBehind (nodes_of self.new) self.new nothing }
    {
        self.older = self.nodes.len();
        self.opened.clear();
        self.depth = 0;
        self.passed = None;
    }

    // A node begins.
    fn open(&mut self, kind: NodeKind, first: u32) -> Result<(), Oom>
        ensures { OnOk result ((older : List Built) (b : Building) → HoldsBehind older self.old b → HoldsBehind older self.new (begin kind first b.ended none b)) }
    {
        let before = self.nodes.len();
        self.opened.push(Opened {
            kind,
            first,
            before,
        })?;
        Ok(())
    }

    // A node begins with the last trees of the innermost open one.
    fn wrap(&mut self, kind: NodeKind, count: u8, at: u32) -> Result<(), Oom>
        ensures { OnOk result ((older : List Built) (b : Building) → HoldsBehind older self.old b → HoldsBehind older self.new (wrapped kind at (trees b.ended - count) b)) }
    {
        let least = nodes_before(self.opened.as_slice(), self.older);
        let (first, before) = last_trees(self.nodes.as_slice(), least, count, at);
        self.opened.push(Opened {
            kind,
            first,
            before,
        })?;
        Ok(())
    }

    // The innermost open node ends.
    fn close(&mut self, last: u32) -> Result<(), Oom>
        ensures { OnOk result ((older : List Built) (b : Building) → HoldsBehind older self.old b → HoldsBehind older self.new (ends last b.begun b)) }
    {
        let Some(opened) = self.opened.pop() else {
            return Ok(());
        };
        let below = self.nodes.len().saturating_sub(opened.before);
        self.nodes.push(Built {
            kind: opened.kind,
            first: opened.first,
            last,
            size: below.saturating_add(1),
        })?;
        Ok(())
    }

    // A node without children.
    fn leaf(&mut self, kind: NodeKind, place: u32) -> Result<(), Oom>
        ensures { OnOk result ((older : List Built) (b : Building) → HoldsBehind older self.old b → HoldsBehind older self.new (one kind place b)) }
    {
        self.nodes.push(Built {
            kind,
            first: place,
            last: place,
            size: 1,
        })?;
        Ok(())
    }

    // A rule that counts begins.
    fn enter(&mut self, place: u32)
        ensures { (older : List Built) (b : Building) → HoldsBehind older self.old b → HoldsBehind older self.new (enter place b) }
    {
        if self.depth < MAX_DEPTH {
            self.depth += 1;
        } else if self.passed.is_none() {
            self.passed = Some(place);
        }
    }

    // What a mark does before the terminal with this number.
    pub(crate) fn mark(&mut self, mark: Mark, terminals: &[u8], at: u32) -> Result<(), Oom>
        ensures { OnOk result ((older : List Built) (b : Building) → HoldsBehind older self.old b → HoldsBehind older self.new (marked terminals.now at mark b)) }
    {
        match mark {
            Mark::Open(kind, back) => self.open(kind, at.saturating_sub(u32::from(back))),
            Mark::Wrap(kind, count) => self.wrap(kind, count, at),
            Mark::Close => self.close(at.saturating_sub(1)),
            Mark::Leaf(kind, back) => self.leaf(kind, at.saturating_sub(u32::from(back))),
            Mark::Word(terminal, kind, other, back) => {
                let place = at.saturating_sub(u32::from(back));
                if stands_at(terminals, place, terminal) {
                    self.leaf(kind, place)
                } else {
                    self.leaf(other, place)
                }
            }
            Mark::Enter(back) => {
                self.enter(at.saturating_sub(u32::from(back)));
                Ok(())
            }
            Mark::Leave => {
                self.depth = self.depth.saturating_sub(1);
                Ok(())
            }
        }
    }
}
