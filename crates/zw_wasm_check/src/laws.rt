// What holds of the definitions themselves: the law is the contract of a function that does nothing.
ghost use Rattle.std.specs.Prelude.{◌≡◌, ◌↔◌, Some};
ghost use Rattle.zw_wasm.specs.Validity.{IsValid, Violation, first_violation};
ghost use Rattle.zw_wasm.specs.declared.module.Module.{Module};

/// A module is valid exactly where it has no violation.
pub fn valid_without_violation()
    ensures { (m : Module) → IsValid m ↔ ((v : Violation) → first_violation m ≡ Some v → ⊥) }
{}
