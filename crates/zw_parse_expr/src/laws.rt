// Laws of files.
ghost use Rattle.std.specs.Prelude.{◌≡◌, ℕ, ◌-◌, ◌*◌, ◌≤◌, ◌⊎◌, List, length, None};
ghost use Rattle.zw_grammar.specs.declared.builder.Builder.{Builder};
ghost use Rattle.zw_grammar.specs.declared.machine.End.{End};
ghost use Rattle.zw_grammar.specs.Building.{Building};
ghost use Rattle.zw_grammar.specs.Nodes.{all_nodes};
ghost use Rattle.zw_parse_expr.specs.Files.{IsFile, IsWrongFile, IsNestedFile, StopsFile, FileEnds};
ghost use Rattle.zw_parse_expr.specs.Lexemes.{Lexeme, EndsOnce};

/// A list of tokens is a file in one way at most: one tree is built of it.
pub fn one_file()
    ensures { (list : List Lexeme) (b c : Building) → IsFile list b → IsFile list c → b ≡ c }
{}

/// A list of tokens that ends once is a file, or has a token after which no file goes on, and never both.
pub fn file_or_wrong()
    ensures either { (list : List Lexeme) → EndsOnce list → ((b : Building) × IsFile list b) ⊎ ((place : ℕ) × IsWrongFile list place) }
    ensures never_both { (list : List Lexeme) (b : Building) (place : ℕ) → IsFile list b → IsWrongFile list place → ⊥ }
    ensures nested { (list : List Lexeme) (b : Building) (place : ℕ) → IsFile list b → b.passed ≡ None → IsNestedFile list place → ⊥ }
{}

/// A list of tokens that ends once is a file with no rule nested too deep, or one of its tokens begins the first rule nested too deep,
/// or a token is the first after which no file goes on and no rule before it is nested too deep.
pub fn file_or_stopped()
    ensures { (list : List Lexeme) → EndsOnce list →
        ((b : Building) × IsFile list b × (b.passed ≡ None)) ⊎ (((place : ℕ) × IsNestedFile list place) ⊎ ((place : ℕ) × StopsFile list place)) }
{}

/// A file has at most two nodes for each token before its end.
pub fn files_are_small()
    ensures { (list : List Lexeme) (b : Building) → IsFile list b → length (all_nodes b.begun b.ended) ≤ 2 * (length list - 1) }
{}

/// At most one token is the first after which no file goes on.
pub fn one_wrong_file()
    ensures { (list : List Lexeme) (place other : ℕ) → IsWrongFile list place → IsWrongFile list other → place ≡ other }
{}

/// At most one token begins the first rule that is nested too deep.
pub fn one_nested_file()
    ensures { (list : List Lexeme) (place other : ℕ) → IsNestedFile list place → IsNestedFile list other → place ≡ other }
{}

/// One end of a reading is due.
pub fn one_end()
    ensures { (list : List Lexeme) (a b : Builder) (end other : End) → FileEnds list a end → FileEnds list b other → end ≡ other }
{}
