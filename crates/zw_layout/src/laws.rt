// What holds of layouts: each law is the contract of a function that does nothing.
ghost use Rattle.std.specs.Prelude.{◌≡◌, ℕ, ◌*◌, Option, Some};
ghost use Rattle.zw_types.specs.TypeTrees.{TypeTree};
ghost use Rattle.zw_types.specs.Tables.{TypeTable};
ghost use Rattle.zw_layout.specs.declared.layout.Layout.{Layout};
ghost use Rattle.zw_layout.specs.Sizes.{HasLayout};

/// A type has one layout.
pub fn one_layout()
    ensures { (table : TypeTable) (ty : TypeTree) (a b : Option Layout) → HasLayout table ty a → HasLayout table ty b → a ≡ b }
{}

/// A size is a multiple of the alignment.
pub fn whole_items()
    ensures { (table : TypeTable) (ty : TypeTree) (layout : Layout) → HasLayout table ty (Some layout) → (n : ℕ) × (layout.size ≡ n * layout.align) }
{}
