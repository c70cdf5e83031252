// Laws of reading by a grammar.
ghost use Rattle.std.specs.Prelude.{◌≡◌, ℕ, ◌+◌, ◌*◌, ◌≤◌, List, [], None, length};
ghost use Rattle.zw_grammar.specs.declared.grammar.Symbol.{Symbol};
ghost use Rattle.zw_grammar.specs.Balances.{Balances};
ghost use Rattle.zw_grammar.specs.Building.{Building};
ghost use Rattle.zw_grammar.specs.Nodes.{all_nodes};
ghost use Rattle.zw_grammar.specs.Orders.{AreInOrder};
ghost use Rattle.zw_grammar.specs.Plain.{PlainRule};
ghost use Rattle.zw_grammar.specs.Sizes.{AreSmall};
ghost use Rattle.zw_grammar.specs.Texts.{Reads, IsWrong, IsNested};

/// A text is read in one way at most: up to one terminal, with one tree.
pub fn one_reading()
    ensures { (rules : List PlainRule) (start : List Symbol) (text : List ℕ) (from to other : ℕ) (b c : Building) →
        Reads rules start text from to b → Reads rules start text from other c → (to ≡ other) × (b ≡ c) }
{}

/// A text that is read with no rule nested too deep has no stop: no terminal is wrong, and none begins such a rule.
pub fn read_or_stopped()
    ensures wrong { (rules : List PlainRule) (start : List Symbol) (text : List ℕ) (from to place : ℕ) (b : Building) →
        Reads rules start text from to b → IsWrong rules start text from place → ⊥ }
    ensures nested { (rules : List PlainRule) (start : List Symbol) (text : List ℕ) (from to place : ℕ) (b : Building) →
        Reads rules start text from to b → b.passed ≡ None → IsNested rules start text from place → ⊥ }
{}

/// At most one terminal is the first wrong one.
pub fn one_wrong()
    ensures { (rules : List PlainRule) (start : List Symbol) (text : List ℕ) (from place other : ℕ) →
        IsWrong rules start text from place → IsWrong rules start text from other → place ≡ other }
{}

/// At most one terminal begins the first rule that is nested too deep.
pub fn one_nested()
    ensures { (rules : List PlainRule) (start : List Symbol) (text : List ℕ) (from place other : ℕ) →
        IsNested rules start text from place → IsNested rules start text from other → place ≡ other }
{}

/// By rules whose marks balance, a text that is read leaves no node open, and its nodes stand in the order of their terminals.
pub fn nodes_in_order()
    ensures { (rules : List PlainRule) (start : List Symbol) (text : List ℕ) (from to : ℕ) (b : Building) →
        Balances rules start → Reads rules start text from to b → (b.begun ≡ []) × AreInOrder from b.ended to }
{}

/// By rules that have at most so many nodes for each terminal, a text that is read has at most so many for each of its terminals.
pub fn nodes_are_few()
    ensures { (rules : List PlainRule) (start : List Symbol) (text : List ℕ) (from to each : ℕ) (b : Building) →
        AreSmall rules start each → Reads rules start text from to b → length (all_nodes b.begun b.ended) + from * each ≤ to * each }
{}
