// Laws of trees of texts and of their stops.
ghost use Rattle.std.specs.Prelude.{◌≡◌, ℕ, ◌*◌, ◌<◌, ◌≤◌, ◌⊎◌, List, AllPairs, length};
ghost use Rattle.zw_base.specs.declared.stop.Stop.{Stop};
ghost use Rattle.zw_token.specs.Tokens.{Tokens};
ghost use Rattle.zw_token.specs.declared.token.Token.{Token};
ghost use Rattle.zw_tree.specs.Trees.{Forest, count, map_forest, preorder, trees};
ghost use Rattle.zw_tree.specs.declared.ast.Entry.{Entry};
ghost use Rattle.zw_grammar.specs.Orders.{AreInOrder};
ghost use Rattle.zw_grammar.specs.declared.builder.TheConstants.{MAX_DEPTH};
ghost use Rattle.zw_parse.specs.Syntax.{IsTreeOf, IsSyntaxStop, span_in};

/// A list of tokens has one tree at most.
pub fn one_tree()
    ensures { (file : ℕ) (text : List ℕ) (tokens : List Token) (a b : Forest Entry) →
        IsTreeOf file text tokens a → IsTreeOf file text tokens b → a ≡ b }
{}

/// The tokens of a text have a tree or a stop, and never both.
pub fn tree_or_stop()
    ensures either { (file : ℕ) (text : List ℕ) (tokens : List Token) → Tokens text tokens →
        ((forest : Forest Entry) × IsTreeOf file text tokens forest) ⊎ ((stop : Stop) × IsSyntaxStop file text tokens stop) }
    ensures never_both { (file : ℕ) (text : List ℕ) (tokens : List Token) (forest : Forest Entry) (stop : Stop) →
        IsTreeOf file text tokens forest → IsSyntaxStop file text tokens stop → ⊥ }
{}

/// A list of tokens has one stop at most.
pub fn one_stop_of_syntax()
    ensures { (file : ℕ) (text : List ℕ) (tokens : List Token) (a b : Stop) →
        IsSyntaxStop file text tokens a → IsSyntaxStop file text tokens b → a ≡ b }
{}

/// A tree's tokens are the list's, in order: there is one root; each node has at least one token, and with it all tokens of the nodes
/// below it; and nodes side by side have tokens one behind the other. So nodes in preorder begin with tokens in order.
pub fn tokens_of_trees()
    ensures root { (file : ℕ) (text : List ℕ) (tokens : List Token) (forest : Forest Entry) →
        IsTreeOf file text tokens forest → trees forest ≡ 1 }
    ensures order { (file : ℕ) (text : List ℕ) (tokens : List Token) (forest : Forest Entry) →
        IsTreeOf file text tokens forest → AreInOrder 0 (map_forest span_in forest) (length tokens) }
    ensures preorder { (file : ℕ) (text : List ℕ) (tokens : List Token) (forest : Forest Entry) →
        IsTreeOf file text tokens forest → AllPairs (λ (a b : Entry). a.node.first ≤ b.node.first) (preorder forest) }
{}

/// A tree has fewer than two nodes for each token. So that of a text of at most 4,194,304 bytes has fewer than 2^32.
pub fn trees_are_small()
    ensures { (file : ℕ) (text : List ℕ) (tokens : List Token) (forest : Forest Entry) →
        IsTreeOf file text tokens forest → count forest < 2 * length tokens }
{}

/// Rules nest 256 deep at most.
pub fn depth_is_limited()
    ensures { MAX_DEPTH ≡ 256 }
{}
