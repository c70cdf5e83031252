// What holds of the definitions themselves: each law is the contract of a function that does nothing.
ghost use Rattle.std.specs.Prelude.{◌≡◌, ℕ, List, [], ◌∷◌, codes, map};
ghost use Rattle.zw_base.specs.declared.stop.Stop.{Stop};
ghost use Rattle.zw_base.specs.declared.stop.StopKind.TheVariants.{Error, Limit};
ghost use Rattle.zw_form.specs.Form.{HasForm, IsSmall, IsStopOf};
ghost use Rattle.zw_form.specs.Trees.{Tree};
ghost use Rattle.zw_form.specs.declared.members.TheConstants.{FRAME_WEIGHT, NODES, NODE_LIMIT, NOT_BUILT, PARAMETER_WEIGHT, WEIGHT_LIMIT};
ghost use Rattle.zw_form.specs.declared.names.TheConstants.{RESERVED_NAMES};

/// A text has one list of declarations at most.
pub fn one_form()
    ensures { (text : List ℕ) (a b : List Tree) → HasForm text a → HasForm text b → a ≡ b }
{}

/// A text has one stop at most.
pub fn one_stop()
    ensures { (text : List ℕ) (a b : Stop) → IsStopOf text a → IsStopOf text b → a ≡ b }
{}

/// A text of the form has no stop.
pub fn form_or_stop()
    ensures { (text : List ℕ) (trees : List Tree) (stop : Stop) → HasForm text trees → ¬ IsStopOf text stop }
{}

/// In a text of the form no frame is too heavy, and numbers are of 32 bits.
pub fn forms_are_small()
    ensures { (text : List ℕ) (trees : List Tree) → HasForm text trees → IsSmall trees }
{}

/// The numbers of the error and the limits that the members of a file may break.
pub fn stops_are_numbered()
    ensures not_built { NOT_BUILT ≡ Error 36 }
    ensures nodes { NODES ≡ Limit 5 }
    ensures frame_weight { FRAME_WEIGHT ≡ Limit 11 }
{}

/// The greatest number of nodes in the bodies of a file, the greatest weight of a frame and the weight of a parameter.
pub fn limits_are_fixed()
    ensures nodes { NODE_LIMIT ≡ 2000000 }
    ensures weight { WEIGHT_LIMIT ≡ 131072 }
    ensures parameter { PARAMETER_WEIGHT ≡ 8 }
{}

/// The names of what a module exports beside its functions.
pub fn names_are_reserved()
    ensures { map (λ name. name.now) RESERVED_NAMES ≡ codes "memory" ∷ codes "panic_cause" ∷ codes "panic_ptr" ∷ codes "panic_len" ∷ [] }
{}
