// What holds of the definitions of bytes themselves: each law is the contract of a function that does nothing.
ghost use Rattle.std.specs.Prelude.{◌≡◌, ℕ, ◌≤◌, ◌↔◌, List, length};
ghost use Rattle.zw_wasm.specs.declared.module.Instr.{Instr};
ghost use Rattle.zw_wasm.specs.declared.module.Module.{Module};
ghost use Rattle.zw_wasm.specs.declared.module.TheConstants.ExportDef.{FUNC, TABLE, MEMORY, GLOBAL};
ghost use Rattle.zw_wasm.specs.Spelling.{spelling};
ghost use Rattle.zw_wasm.specs.ModuleBytes.{ModuleBytes, EndsOnce};
ghost use Rattle.zw_wasm.specs.Fits.{Fits};
ghost use Rattle.zw_wasm.specs.WellFormed.{IsWellFormed, SequencesClose, IsEndedSequence, ExpressionsEnd};

/// The shortest spelling of a module spells it.
pub fn shortest_module()
    ensures { (m : Module) → IsWellFormed m → Fits m → ModuleBytes m (spelling m) }
{}

/// A module that has bytes is well formed and fits. So its shortest spelling spells it too, and no bytes of it are fewer.
pub fn no_shorter_module()
    ensures well_formed { (m : Module) (bytes : List ℕ) → ModuleBytes m bytes → IsWellFormed m }
    ensures fits { (m : Module) (bytes : List ℕ) → ModuleBytes m bytes → Fits m }
    ensures spelled { (m : Module) (bytes : List ℕ) → ModuleBytes m bytes → ModuleBytes m (spelling m) }
    ensures shortest { (m : Module) (bytes : List ℕ) → ModuleBytes m bytes → length (spelling m) ≤ length bytes }
{}

/// The number of each kind of export (WebAssembly Core Specification 1.0, 5.5.10).
pub fn export_kinds_are_numbered()
    ensures function { FUNC ≡ 0 }
    ensures table { TABLE ≡ 1 }
    ensures memory { MEMORY ≡ 2 }
    ensures global { GLOBAL ≡ 3 }
{}

/// Instructions are an expression where each block, loop and `if` has its end, an `if` with at most one `else` before it,
/// and their own end comes last. Lists that close themselves make one that does.
pub fn sequences_close()
    ensures compose { SequencesClose }
    ensures grammar { (instrs : List Instr) → EndsOnce instrs ↔ IsEndedSequence instrs }
    ensures examples { ExpressionsEnd }
{}
