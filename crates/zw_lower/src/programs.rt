// The module of a program.
ghost use Rattle.std.specs.Prelude.{◌≡◌, IfOk};
ghost use Rattle.zw_lower.specs.Modules.{module_of};
ghost use Rattle.zw_lower.specs.Right.{IsRight};

use crate::bodies::bodies;
use crate::tables::{
    exports, function_numbers, imports, memory_for, most_params, panic_globals, types,
};
use sqlite_items::Items;
use std::alloc::Global;
use zw_base::Oom;
use zw_form::Program;
use zw_wasm::Module;

/// The module of a program: it imports from `env` the functions of the host that are called, and exports the program's
/// functions, its memory, and the state of a panic. It has neither a table nor a function that runs first.
///
/// Of each file that has this program the module does what the file means, and it has bytes.
#[tactic(auto, using(crate::proofs::Rightness::right_if))]
pub fn lower(alloc: Global, program: &Program) -> Result<Module, Oom>
    ensures module { IfOk result (λ m. m ≡ module_of program.now) }
    ensures right { IfOk result (IsRight program.now) }
{
    let module = module_of(alloc, program)?;
    Ok(module)
}

/// The parts of the module of a program.
fn module_of(alloc: Global, program: &Program) -> Result<Module, Oom>
    ensures { IfOk result (λ m. m ≡ module_of program.now) }
{
    let functions = program.functions.as_slice();
    Ok(Module {
        types: types(alloc, program)?,
        imports: imports(alloc, program.imports.as_slice())?,
        funcs: function_numbers(alloc, program)?,
        tables: Items::new(alloc),
        memories: Items::from_slice(alloc, &[memory_for(most_params(functions))])?,
        globals: panic_globals(alloc)?,
        exports: exports(alloc, program)?,
        start: None,
        elements: Items::new(alloc),
        codes: bodies(alloc, functions)?,
        datas: Items::new(alloc),
    })
}
