// The program of a file: what it names, by number.
ghost use Rattle.std.specs.Prelude.{◌≡◌, ◌≢◌, map, IfOk, All, AllPairs};
ghost use Rattle.zw_names.specs.NameSets.{names_in};
ghost use Rattle.zw_form.specs.Programs.{called_in, import_named, action_of, function_of, program_of};
ghost use Rattle.zw_form.specs.Rules.{name_of, externs_of, exports_of};
ghost use Rattle.zw_form.specs.declared.source.ExportedFunction.{ExportedFunction};

use crate::names::{insert_all, set_of};
use crate::rules::extern_named;
use crate::{Action, Declaration, ExportedFunction, Function, Import, Program, Step};
use indexmap::IndexSet;
use sqlite_items::Items;
use std::alloc::Global;
use zw_base::Oom;
use zw_names::number_in;

/// The program of a file whose functions have these names.
pub(crate) fn program_of(
    alloc: Global,
    functions: &IndexSet<Vec<u8>>,
    file: &[Declaration],
) -> Result<Program, Oom>
    requires named { names_in functions.now ≡ map name_of file.now }
    requires differ { AllPairs (λ x y. x ≢ y) (map name_of file.now) }
    requires params { All (λ (f : ExportedFunction). AllPairs (λ x y. x ≢ y) f.params) (exports_of file.now) }
    ensures { IfOk result (λ p. p ≡ program_of file.now) }
{
    let called = called_in(alloc, file)?;
    Ok(Program {
        imports: imports_of(alloc, functions, file, &called)?,
        functions: functions_of(alloc, &called, file)?,
    })
}

/// A number of items, which a program has in 32 bits. A list of more items ends as want of memory does.
fn count(items: usize) -> Result<u32, Oom>
    ensures { IfOk result (λ number. number ≡ items) }
{
    match u32::try_from(items) {
        Ok(number) => Ok(number),
        Err(_) => Err(Oom),
    }
}

/// The functions that exports of a file call, in the order of first reference.
fn called_in(alloc: Global, file: &[Declaration]) -> Result<IndexSet<Vec<u8>>, Oom>
    ensures { IfOk result (λ called. names_in called ≡ called_in file.now) }
{
    let mut called = IndexSet::new(alloc);
    for declaration in file {
        if let Declaration::Export(function) = declaration {
            insert_all(alloc, &mut called, function.callees.as_slice())?;
        }
    }
    Ok(called)
}

/// The extern function of this name, as an import. What isn't one takes no parameters and gives no result: a file that
/// keeps the rules calls no such function.
fn import_named(
    alloc: Global,
    functions: &IndexSet<Vec<u8>>,
    file: &[Declaration],
    name: &[u8],
) -> Result<Import, Oom>
    requires named { names_in functions.now ≡ map name_of file.now }
    requires differ { AllPairs (λ x y. x ≢ y) (map name_of file.now) }
    ensures { IfOk result (λ it. it ≡ import_named (externs_of file.now) name.now) }
{
    let (params, has_result) = match extern_named(functions, file, name) {
        Some(function) => (count(function.params.len())?, function.has_result),
        None => (0, false),
    };
    let name = Items::from_slice(alloc, name)?;
    Ok(Import {
        name,
        params,
        has_result,
    })
}

/// The extern functions of these names, as imports.
fn imports_of(
    alloc: Global,
    functions: &IndexSet<Vec<u8>>,
    file: &[Declaration],
    called: &IndexSet<Vec<u8>>,
) -> Result<Items<Import>, Oom>
    requires named { names_in functions.now ≡ map name_of file.now }
    requires differ { AllPairs (λ x y. x ≢ y) (map name_of file.now) }
    ensures { IfOk result (λ imports. imports ≡ map (import_named (externs_of file.now)) (names_in called.now)) }
{
    let mut imports = Items::new(alloc);
    for name in called.as_slice() {
        imports.push(import_named(alloc, functions, file, name.as_slice())?)?;
    }
    Ok(imports)
}

/// What a step does, with what it names by number. The number of what isn't there is the first one past the others.
fn action_of(
    imports: &IndexSet<Vec<u8>>,
    params: &IndexSet<Vec<u8>>,
    step: &Step,
) -> Result<Action, Oom>
    ensures { IfOk result (λ action. action ≡ action_of (names_in imports.now) (names_in params.now) step.now) }
{
    match step {
        Step::Parameter(name) => {
            let number = count(number_in(params, name.as_slice()))?;
            Ok(Action::Parameter(number))
        }
        Step::Number(number) => Ok(Action::Number(*number)),
        Step::Operate(operator) => Ok(Action::Operate(*operator)),
        Step::Call(callee) => {
            let number = count(number_in(imports, callee.name.as_slice()))?;
            Ok(Action::Call(number))
        }
    }
}

/// What each of these steps does.
fn actions_of(
    alloc: Global,
    imports: &IndexSet<Vec<u8>>,
    params: &IndexSet<Vec<u8>>,
    steps: &[Step],
) -> Result<Items<Action>, Oom>
    ensures { IfOk result (λ actions. actions ≡ map (action_of (names_in imports.now) (names_in params.now)) steps.now) }
{
    let mut actions = Items::new(alloc);
    for step in steps {
        actions.push(action_of(imports, params, step)?)?;
    }
    Ok(actions)
}

/// An exported function, with what it names by number.
fn function_of(
    alloc: Global,
    imports: &IndexSet<Vec<u8>>,
    function: &ExportedFunction,
) -> Result<Function, Oom>
    requires { AllPairs (λ x y. x ≢ y) function.now.params }
    ensures { IfOk result (λ it. it ≡ function_of (names_in imports.now) function.now) }
{
    let params = set_of(alloc, function.params.as_slice())?;
    Ok(Function {
        name: Items::from_slice(alloc, function.name.as_slice())?,
        params: count(function.params.len())?,
        actions: actions_of(alloc, imports, &params, function.steps.as_slice())?,
    })
}

/// The exported functions of a file, with what they name by number.
fn functions_of(
    alloc: Global,
    imports: &IndexSet<Vec<u8>>,
    file: &[Declaration],
) -> Result<Items<Function>, Oom>
    requires { All (λ (f : ExportedFunction). AllPairs (λ x y. x ≢ y) f.params) (exports_of file.now) }
    ensures { IfOk result (λ functions. functions ≡ map (function_of (names_in imports.now)) (exports_of file.now)) }
{
    let mut functions = Items::new(alloc);
    for declaration in file {
        if let Declaration::Export(function) = declaration {
            functions.push(function_of(alloc, imports, function)?)?;
        }
    }
    Ok(functions)
}
