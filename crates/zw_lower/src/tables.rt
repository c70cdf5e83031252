// What a module has beside the bodies of its functions.
ghost use Rattle.std.specs.Prelude.{◌≡◌, ◌+◌, [], ◌∷◌, ◌++◌, length, map, IfOk};
ghost use Rattle.zw_lower.specs.Modules.{number_type, import_type, function_type, imports_from, numbers_from, exports_from, export_of, state_exports, zero_global, most_params, memory_for};

use sqlite_items::Items;
use std::alloc::Global;
use zw_base::Oom;
use zw_form::{Function, Import, Program};
use zw_wasm::{ExportDef, FuncImport, FuncType, GlobalDef, Instr, Limits, ValType};

/// How many calls may be active, and so how many frames the memory has room for.
const ACTIVE_CALLS: u64 = 2_048;

/// How many bytes at the start of the memory no frame lies in.
const RESERVED_BYTES: u64 = 16;

/// How many bytes of a frame a parameter weighs.
const PARAM_WEIGHT: u64 = 8;

/// The bytes of a page of memory.
const PAGE_BYTES: u64 = 65_536;

/// The types of the imported functions, and then of those with a body.
pub fn types(alloc: Global, program: &Program) -> Result<Items<FuncType>, Oom>
    ensures { IfOk result (λ types. types ≡ map import_type program.now.imports ++ map function_type program.now.functions) }
{
    let mut types = import_types(alloc, program.imports.as_slice())?;
    types.append(function_types(alloc, program.functions.as_slice())?)?;
    Ok(types)
}

fn import_types(alloc: Global, imports: &[Import]) -> Result<Items<FuncType>, Oom>
    ensures { IfOk result (λ types. types ≡ map import_type imports.now) }
{
    let mut types = Items::new(alloc);
    for import in imports {
        types.push(number_type(alloc, import.params, import.has_result)?)?;
    }
    Ok(types)
}

fn function_types(alloc: Global, functions: &[Function]) -> Result<Items<FuncType>, Oom>
    ensures { IfOk result (λ types. types ≡ map function_type functions.now) }
{
    let mut types = Items::new(alloc);
    for function in functions {
        types.push(number_type(alloc, function.params, true)?)?;
    }
    Ok(types)
}

/// So many `i32`, to one or to nothing.
fn number_type(alloc: Global, params: u32, has_result: bool) -> Result<FuncType, Oom>
    ensures { IfOk result (λ ty. ty ≡ number_type params has_result) }
{
    let params = vec![in alloc; ValType::I32; params as usize]?;
    Ok(FuncType {
        params: Items::from_vec(params),
        result: if has_result { Some(ValType::I32) } else { None },
    })
}

/// The imports of the module `env`, each with the type of its number.
pub fn imports(alloc: Global, imports: &[Import]) -> Result<Items<FuncImport>, Oom>
    ensures { IfOk result (λ items. items ≡ imports_from 0 imports.now) }
{
    let mut items = Items::new(alloc);
    for (number, import) in imports.iter().enumerate() {
        items.push(FuncImport {
            module: Items::from_slice(alloc, b"env")?,
            field: Items::from_slice(alloc, import.name.as_slice())?,
            ty: index(number)?,
        })?;
    }
    Ok(items)
}

/// A number of an item, which has 32 bits in a module.
fn index(number: usize) -> Result<u32, Oom>
    ensures { IfOk result (λ index. index ≡ number) }
{
    match u32::try_from(number) {
        Ok(index) => Ok(index),
        Err(_) => Err(Oom),
    }
}

/// The numbers of the types of the functions with a body, which stand behind those of the imported ones.
pub fn function_numbers(alloc: Global, program: &Program) -> Result<Items<u32>, Oom>
    ensures { IfOk result (λ numbers. numbers ≡ numbers_from (length program.now.imports) program.now.functions) }
{
    let mut numbers = Items::new(alloc);
    let mut number = index(program.imports.len())?;
    for _function in program.functions.as_slice() {
        numbers.push(number)?;
        number = next(number)?;
    }
    Ok(numbers)
}

/// The number of the next item.
fn next(number: u32) -> Result<u32, Oom>
    ensures { IfOk result (λ next. next ≡ number + 1) }
{
    match number.checked_add(1) {
        Some(next) => Ok(next),
        None => Err(Oom),
    }
}

/// A memory with enough pages for the frames of all active calls, which can't grow.
pub fn memory_for(params: u32) -> Limits
    ensures { result ≡ memory_for params }
{
    let bytes = RESERVED_BYTES + ACTIVE_CALLS * PARAM_WEIGHT * u64::from(params);
    let pages = bytes.div_ceil(PAGE_BYTES) as u32;
    Limits {
        least: pages,
        greatest: Some(pages),
    }
}

/// The greatest number of parameters of a function.
pub fn most_params(functions: &[Function]) -> u32
    ensures { result ≡ most_params functions.now }
{
    let mut most = 0;
    for function in functions {
        most = function.params.max(most);
    }
    most
}

/// The cause of a panic, and where its message lies.
pub fn panic_globals(alloc: Global) -> Result<Items<GlobalDef>, Oom>
    ensures { IfOk result (λ globals. globals ≡ zero_global ∷ zero_global ∷ zero_global ∷ []) }
{
    let mut globals = Items::new(alloc);
    globals.push(panic_global(alloc)?)?;
    globals.push(panic_global(alloc)?)?;
    globals.push(panic_global(alloc)?)?;
    Ok(globals)
}

/// A number that can be set and starts at 0.
fn panic_global(alloc: Global) -> Result<GlobalDef, Oom>
    ensures { IfOk result (λ global. global ≡ zero_global) }
{
    let mut init = Items::new(alloc);
    init.push(Instr::I32Const(0))?;
    init.push(Instr::End)?;
    Ok(GlobalDef {
        ty: ValType::I32,
        mutable: true,
        init,
    })
}

/// The functions under their names, the memory, and the globals of a panic.
pub fn exports(alloc: Global, program: &Program) -> Result<Items<ExportDef>, Oom>
    ensures { IfOk result (λ items. items ≡ exports_from (length program.now.imports) program.now.functions ++ state_exports) }
{
    let first = index(program.imports.len())?;
    let mut exports = function_exports(alloc, first, program.functions.as_slice())?;
    exports.push(export(alloc, b"memory", ExportDef::MEMORY, 0)?)?;
    exports.push(export(alloc, b"panic_cause", ExportDef::GLOBAL, 0)?)?;
    exports.push(export(alloc, b"panic_ptr", ExportDef::GLOBAL, 1)?)?;
    exports.push(export(alloc, b"panic_len", ExportDef::GLOBAL, 2)?)?;
    Ok(exports)
}

/// The functions under their names, with the numbers from the first on.
fn function_exports(
    alloc: Global,
    first: u32,
    functions: &[Function],
) -> Result<Items<ExportDef>, Oom>
    ensures { IfOk result (λ items. items ≡ exports_from first functions.now) }
{
    let mut exports = Items::new(alloc);
    let mut number = first;
    for function in functions {
        exports.push(export(alloc, function.name.as_slice(), ExportDef::FUNC, number)?)?;
        number = next(number)?;
    }
    Ok(exports)
}

/// An export under this name.
fn export(alloc: Global, name: &[u8], kind: u8, index: u32) -> Result<ExportDef, Oom>
    ensures { IfOk result (λ item. item ≡ export_of name.now kind index) }
{
    Ok(ExportDef {
        name: Items::from_slice(alloc, name)?,
        kind,
        index,
    })
}
