// A grammar as data: rules of alternatives, each chosen by one terminal, and what an alternative is made of.
use zw_tree::NodeKind;

/// What builds the tree, and counts how deep rules nest. A number says how many terminals before the next one the node or the
/// rule begins, since what begins may be told only by what follows: `a :` begins a label, `a +` a sum.
#[derive(Clone, Copy, Debug, PartialEq, Eq)]
pub enum Mark {
    /// A node begins.
    Open(NodeKind, u8),
    /// A node begins whose first children are the last trees, as many as this, that are finished in the innermost open node.
    Wrap(NodeKind, u8),
    /// The innermost open node ends with the last terminal that was taken.
    Close,
    /// A node of one terminal and without children.
    Leaf(NodeKind, u8),
    /// The same, of the first kind where it is this terminal, and else of the second.
    Word(u8, NodeKind, NodeKind, u8),
    /// A rule that counts for the depth begins.
    Enter(u8),
    /// The last one that began and hasn't ended ends.
    Leave,
}

/// What an alternative is made of, from the left to the right.
#[derive(Clone, Copy, Debug, PartialEq, Eq)]
pub enum Symbol {
    /// This terminal is next, and is taken.
    Take(u8),
    /// What the rule with this number reads is next.
    Read(u8),
    /// Nothing is read.
    Build(Mark),
}

/// One way to read a rule.
#[derive(Debug, Drop)]
pub struct Alternative {
    /// The terminals on which it is chosen; with none it is chosen on each.
    pub first: Vec<u8>,
    pub symbols: Vec<Symbol>,
}

/// A rule: the first of its alternatives that the next terminal chooses is read, and no other.
#[derive(Debug, Drop)]
pub struct Rule {
    pub alternatives: Vec<Alternative>,
    /// The most steps that it takes up to the next terminal, or to the rule's end.
    pub steps: u8,
    /// Whether it can be read without a terminal.
    pub may_be_empty: bool,
}

/// A line of a table of rules. The alternatives of a rule stand before its end, and what they are made of before theirs.
#[derive(Clone, Copy, Debug, PartialEq, Eq)]
pub enum Entry {
    /// The alternative is chosen on this terminal.
    On(u8),
    /// The alternative reads this next.
    Then(Symbol),
    /// An alternative ends.
    Alternative,
    /// A rule ends, with its `steps` and `may_be_empty`.
    Rule(u8, bool),
}
