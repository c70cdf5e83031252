// The laws of types and reduction (WebAssembly Core Specification 1.0, 7.5).
ghost use Rattle.std.specs.Prelude.{◌≡◌, ℕ, ◌≤◌, List, [], ◌∷◌, length, None, Some};
ghost use Rattle.zw_session.specs.Sessions.{Scalar};
ghost use Rattle.zw_wasm.specs.declared.module.FuncType.{FuncType};
ghost use Rattle.zw_wasm.specs.declared.module.Instr.{Instr};
ghost use Rattle.zw_wasm.specs.declared.module.Module.{Module};
ghost use Rattle.zw_wasm.specs.declared.module.TheConstants.ExportDef.{FUNC};
ghost use Rattle.zw_wasm.specs.declared.module.ValType.{ValType};
ghost use Rattle.zw_wasm.specs.Functions.{func_type};
ghost use Rattle.zw_wasm.specs.ModuleMachine.{arg_nums, export_in, first_store};
ghost use Rattle.zw_wasm.specs.Reduction.{Config, fetched, run, stands_in, step};
ghost use Rattle.zw_wasm.specs.Signature.{View};
ghost use Rattle.zw_wasm.specs.Structure.{code_of};
ghost use Rattle.zw_wasm.specs.Typing.{Context, body_control, check_code};
ghost use Rattle.zw_wasm.specs.Validity.{IsValid};
ghost use Rattle.zw_wasm_sound.specs.Configurations.{IsTypedConfig, IsTypedStore};
ghost use Rattle.zw_wasm_sound.specs.Rules.{IsTypedCode, types_of};
ghost use Rattle.zw_wasm_sound.specs.Steps.{IsTypedNext, IsTypedRun, IsTypedStep, RunsTyped};
ghost use Rattle.zw_wasm_sound.specs.WorkedTypes.{WorkedTypes};

/// A body that the validation algorithm accepts has a type as code: from no operands it leads to the results of its function, under
/// the one label to which branches return.
pub fn checked_code_is_typed()
    ensures { (x : Context) (instrs : List Instr) → check_code x 0 instrs [] (body_control x.returns) [] ≡ None → IsTypedCode x (x.returns ∷ []) x.returns (code_of instrs) [] }
{}

/// In a valid module a configuration that has a type goes on (progress and preservation): a rule applies to what is due; the step
/// comes to a configuration with the same results, to those results, to a trap with a cause, or to the host. So does any run.
pub fn valid_modules_are_sound()
    ensures next { (m : Module) (results : List ValType) (c : Config) → IsValid m → IsTypedConfig m results c → IsTypedNext m results c.world (fetched (stands_in c.frame) c.below) }
    ensures step { (m : Module) (v : View) (results : List ValType) (c : Config) → IsValid m → IsTypedConfig m results c → IsTypedStep m results (step m v c) }
    ensures run { (m : Module) (v : View) (results : List ValType) (c : Config) (bound : ℕ) → IsValid m → IsTypedConfig m results c → IsTypedRun m results (run m v bound c) }
{}

/// The store that a valid module begins with has the types of its globals, and the functions in its table are there.
pub fn first_stores_are_typed()
    ensures { (m : Module) → IsValid m → IsTypedStore m (first_store m) }
{}

/// What a valid module exports as a function has a type, and a call of it with arguments of that type, in a store of the module, comes
/// to its results, to a trap with a cause, or to the host; it leaves a store of the module. Values given for all parameters are such
/// arguments.
pub fn exports_run_as_typed()
    ensures exported { (m : Module) (name : List ℕ) (f : ℕ) → IsValid m → export_in FUNC name m.exports ≡ Some f → (t : FuncType) × (func_type m f ≡ Some t) × RunsTyped m f t }
    ensures arguments { (types : List ValType) (values : List Scalar) → length types ≤ length values → types_of (arg_nums types values) ≡ types }
{}

/// Which small code has a type and which has none, worked out by hand.
pub fn types_are_worked()
    ensures { WorkedTypes }
{}
