// What holds of the definitions themselves.
ghost use Rattle.std.specs.Prelude.{◌≡◌, ◌⊎◌};
ghost use Rattle.zw_scope.specs.NameRules.{AreNamed, IsFirstViolation, Violation};
ghost use Rattle.zw_scope.specs.WorkedNames.{WorkedNames, WorkedJumps};
ghost use Rattle.zw_tree.specs.Trees.{Forest};
ghost use Rattle.zw_tree.specs.declared.ast.Entry.{Entry};

/// Which rules on names, labels and jumps small texts break, worked out by hand.
pub fn names_are_worked()
    ensures names { WorkedNames }
    ensures jumps { WorkedJumps }
{}

/// The names of a tree keep all rules, or there is a first violation.
pub fn named_or_broken()
    ensures { (forest : Forest Entry) → AreNamed forest ⊎ ((v : Violation) × IsFirstViolation forest v) }
{}

/// A tree whose names keep all rules has no first violation.
pub fn never_both()
    ensures { (forest : Forest Entry) (v : Violation) → ¬ (AreNamed forest × IsFirstViolation forest v) }
{}

/// First violations are of one error, and at one token.
pub fn one_first_violation()
    ensures { (forest : Forest Entry) (v w : Violation) → IsFirstViolation forest v → IsFirstViolation forest w → (v.error ≡ w.error) × (v.at.node.first ≡ w.at.node.first) }
{}
