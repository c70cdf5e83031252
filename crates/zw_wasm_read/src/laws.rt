// What holds of reading: each law is the contract of a function that does nothing.
ghost use Rattle.std.specs.Prelude.{◌≡◌, ℕ, List};
ghost use Rattle.zw_wasm.specs.declared.module.Module.{Module};
ghost use Rattle.zw_wasm.specs.ModuleBytes.{ModuleBytes};
ghost use Rattle.zw_wasm_read.specs.Stops.{IsStop};
ghost use Rattle.zw_wasm_read.specs.declared.stop.BadCode.{BadCode};

/// Bytes spell one module at most. So a module that was written is read again as it was.
pub fn one_module()
    ensures { (m o : Module) (bytes : List ℕ) → ModuleBytes m bytes → ModuleBytes o bytes → m ≡ o }
{}

/// Where reading stops, no module has the bytes.
pub fn no_module()
    ensures { (bytes : List ℕ) (at : ℕ) (code : BadCode) → IsStop bytes at code → (m : Module) → ModuleBytes m bytes → ⊥ }
{}

/// Reading stops at one place, and for one reason.
pub fn one_stop_of_bytes()
    ensures { (bytes : List ℕ) (at other : ℕ) (code another : BadCode) → IsStop bytes at code → IsStop bytes other another → (at ≡ other) × (code ≡ another) }
{}
