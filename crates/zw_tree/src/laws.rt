// What holds of the definitions themselves: each law is the contract of a function that does nothing.
ghost use Rattle.std.specs.Prelude.{◌≡◌, ◌≢◌, ◌↔◌, ℕ, suc, ◌+◌, ◌<◌, ◌≤◌, nat_lt, cond, length, map, [], ◌∷◌, ◌++◌, Some, None};
ghost use Rattle.zw_tree.specs.Numbering.{IsBelow, below, child, children, first_root, from, last, node_at, parent};
ghost use Rattle.zw_tree.specs.Growth.{first_nodes, grown, under, IsOpen, MayGrow};
ghost use Rattle.zw_tree.specs.Trees.{Forest, count, map_forest, preorder, trees};

/// Nodes are numbered in preorder.
pub fn nodes_in_preorder<T>()
    ensures count { (forest : Forest T) → length (preorder forest) ≡ count forest }
    ensures last { (forest : Forest T) (n : ℕ) → n < count forest → last forest n < count forest }
{}

/// A forest that grows by a leaf below an open node has it as its last node, and as that node's last child. All others keep their
/// numbers, their parents and their children.
pub fn growth_keeps_numbers<T>()
    ensures preorder { (item : T) (forest : Forest T) (n : ℕ) → IsOpen forest n →
        preorder (under forest n item) ≡ preorder forest ++ item ∷ [] }
    ensures roots { (item : T) (forest : Forest T) (n : ℕ) → IsOpen forest n → trees (under forest n item) ≡ trees forest }
    ensures parent { (item : T) (forest : Forest T) (n : ℕ) → IsOpen forest n →
        parent (under forest n item) (count forest) ≡ Some n }
    ensures other_parents { (item : T) (forest : Forest T) (n : ℕ) → IsOpen forest n → (m : ℕ) → m < count forest →
        parent (under forest n item) m ≡ parent forest m }
    ensures no_children { (item : T) (forest : Forest T) (n : ℕ) → IsOpen forest n →
        children (under forest n item) (count forest) ≡ [] }
    ensures last_child { (item : T) (forest : Forest T) (n : ℕ) → IsOpen forest n →
        children (under forest n item) n ≡ children forest n ++ count forest ∷ [] }
    ensures other_children { (item : T) (forest : Forest T) (n : ℕ) → IsOpen forest n → (m : ℕ) → m < count forest → m ≢ n →
        children (under forest n item) m ≡ children forest m }
{}

/// A node's first child follows it, and each other child follows the last descendant of the one before it. There are no more
/// where the node's own last descendant is reached.
pub fn children_in_order<T>()
    ensures first { (forest : Forest T) (n : ℕ) →
        child forest n 0 ≡ cond (nat_lt n (last forest n)) (Some (suc n)) None }
    ensures next { (forest : Forest T) (n k c : ℕ) → n < count forest → child forest n k ≡ Some c →
        child forest n (suc k) ≡ cond (nat_lt (last forest c) (last forest n)) (Some (suc (last forest c))) None }
{}

/// The children of a node are the nodes whose parent it is. A parent stands before its children, and its last descendant isn't
/// before theirs.
pub fn children_have_parents<T>()
    ensures parent { (forest : Forest T) (n k c : ℕ) → n < count forest → child forest n k ≡ Some c → parent forest c ≡ Some n }
    ensures child { (forest : Forest T) (n c : ℕ) → c < count forest → parent forest c ≡ Some n →
        (k : ℕ) × (child forest n k ≡ Some c) }
    ensures order { (forest : Forest T) (n c : ℕ) → c < count forest → parent forest c ≡ Some n →
        (n < c) × (last forest c ≤ last forest n) }
{}

/// A node's descendants are the nodes behind it, up to the last of them.
pub fn descendants_are_next<T>()
    ensures { (forest : Forest T) (n m : ℕ) → n < count forest → IsBelow forest n m ↔ ((n < m) × (m ≤ last forest n)) }
{}

/// A node is the root of its tree, and the nodes below it are numbered on from it: node k of what is below node n is node
/// n + 1 + k.
pub fn subtrees_are_numbered_on<T>()
    ensures root { (forest : Forest T) (n : ℕ) → n < count forest → node_at forest n ≡ first_root (from forest n) }
    ensures below { (forest : Forest T) (n k : ℕ) → n < count forest → k < count (below forest n) →
        from forest (suc (n + k)) ≡ from (below forest n) k }
{}

/// Numbers are of the shape alone: where each node says something else, they stay as they are.
pub fn numbers_are_of_the_shape<T, U>()
    ensures preorder { (f : T → U) (forest : Forest T) → preorder (map_forest f forest) ≡ map f (preorder forest) }
    ensures parent { (f : T → U) (forest : Forest T) (n : ℕ) → parent (map_forest f forest) n ≡ parent forest n }
    ensures children { (f : T → U) (forest : Forest T) (n : ℕ) → children (map_forest f forest) n ≡ children forest n }
{}

/// A tree grows by its nodes in preorder, each below its parent.
pub fn trees_grow_in_preorder<T>()
    ensures next { (forest : Forest T) (n : ℕ) (item : T) → node_at forest n ≡ Some item →
        first_nodes forest (suc n) ≡ grown (first_nodes forest n) (parent forest n) item }
    ensures may_grow { (forest : Forest T) (n : ℕ) → trees forest ≡ 1 → n < count forest →
        MayGrow (first_nodes forest n) (parent forest n) }
    ensures all { (forest : Forest T) (n : ℕ) → count forest ≤ n → first_nodes forest n ≡ forest }
{}
