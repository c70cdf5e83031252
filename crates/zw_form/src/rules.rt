// The rules of a file: which names its declarations have, which functions it calls, and how.
ghost use Rattle.std.specs.Prelude.{◌≡◌, ◌≢◌, ◌↔◌, [], length, map, IfOk, IfSome, IfNone, IsTrue, IsUtf8, All, AllPairs, Contains, false};
ghost use Rattle.std.specs.List.{flat_map};
ghost use Rattle.zw_names.specs.NameSets.{names_in};
ghost use Rattle.zw_form.specs.Programs.{first_of_each};
ghost use Rattle.zw_form.specs.Rules.{is_reserved, KeepsNames, KeepsSteps, IsKnown, IsCalled, name_of, externs_of, export_of, parameter_of};
ghost use Rattle.zw_form.specs.declared.source.ExternFunction.{ExternFunction};

use crate::names::{differ, differ_from, holds_all, is_reserved, set_of};
use crate::{Callee, Declaration, ExportedFunction, ExternFunction, Step};
use indexmap::IndexSet;
use sqlite_items::at;
use std::alloc::Global;
use std::str::from_utf8;
use zw_base::Oom;
use zw_names::{holds, insert, number_in};

/// The extern function of a file with this name. The set has the names of the file's functions, in their order.
pub fn extern_named<'f>(
    functions: &IndexSet<Vec<u8>>,
    file: &'f [Declaration],
    name: &[u8],
) -> Option<&'f ExternFunction>
    requires named { names_in functions.now ≡ map name_of file.now }
    requires differ { AllPairs (λ x y. x ≢ y) (map name_of file.now) }
    ensures found { IfSome result (λ f. Contains (externs_of file.now) f.now × (f.now.name ≡ name.now)) }
    ensures none { IfNone result ((f : ExternFunction) → Contains (externs_of file.now) f → f.name ≢ name.now) }
{
    match at(file, number_in(functions, name)) {
        Some(Declaration::Extern(function)) => Some(function),
        Some(Declaration::Export(_)) => None,
        None => None,
    }
}

/// Whether a function may have this name.
pub(crate) fn may_be_function(name: &[u8]) -> bool
    ensures { IsTrue result ↔ (IsUtf8 name.now × (is_reserved name.now ≡ false)) }
{
    from_utf8(name).is_ok() && !is_reserved(name)
}

/// Whether the names of a declaration keep the rules, among the names of all functions.
fn keeps_names(
    alloc: Global,
    functions: &IndexSet<Vec<u8>>,
    declaration: &Declaration,
) -> Result<bool, Oom>
    ensures { IfOk result (λ kept. IsTrue kept ↔ KeepsNames (names_in functions.now) declaration.now) }
{
    let params = declaration.params();
    if may_be_function(declaration.name()) && differ_from(functions, params) {
        differ(alloc, params)
    } else {
        Ok(false)
    }
}

/// Whether a call has the number of arguments and the use of the result that a function wants.
fn has_form(callee: &Callee, function: &ExternFunction) -> bool
    ensures { IsTrue result ↔ ((callee.now.args ≡ length function.now.params) × (callee.now.has_result ≡ function.now.has_result)) }
{
    callee.args as usize == function.params.len() && callee.has_result == function.has_result
}

/// Whether an extern function is called, and in its form.
fn is_called(functions: &IndexSet<Vec<u8>>, file: &[Declaration], callee: &Callee) -> bool
    requires named { names_in functions.now ≡ map name_of file.now }
    requires differ { AllPairs (λ x y. x ≢ y) (map name_of file.now) }
    ensures { IsTrue result ↔ (f : ExternFunction) × Contains (externs_of file.now) f × IsCalled callee.now f }
{
    match extern_named(functions, file, callee.name.as_slice()) {
        Some(function) => has_form(callee, function),
        None => false,
    }
}

/// Whether what a step names is there.
fn is_known(
    functions: &IndexSet<Vec<u8>>,
    file: &[Declaration],
    params: &IndexSet<Vec<u8>>,
    step: &Step,
) -> bool
    requires named { names_in functions.now ≡ map name_of file.now }
    requires differ { AllPairs (λ x y. x ≢ y) (map name_of file.now) }
    ensures { IsTrue result ↔ IsKnown (externs_of file.now) (names_in params.now) step.now }
{
    match step {
        Step::Parameter(name) => holds(params, name.as_slice()),
        Step::Number(_) | Step::Operate(_) => true,
        Step::Call(callee) => is_called(functions, file, callee),
    }
}

/// Whether what each of these steps names is there.
fn are_known(
    functions: &IndexSet<Vec<u8>>,
    file: &[Declaration],
    params: &IndexSet<Vec<u8>>,
    steps: &[Step],
) -> bool
    requires named { names_in functions.now ≡ map name_of file.now }
    requires differ { AllPairs (λ x y. x ≢ y) (map name_of file.now) }
    ensures { IsTrue result ↔ All (IsKnown (externs_of file.now) (names_in params.now)) steps.now }
{
    for step in steps {
        if !is_known(functions, file, params, step) {
            return false;
        }
    }
    true
}

/// The parameters that these steps read, in the order of their first reading.
fn mentioned(alloc: Global, steps: &[Step]) -> Result<IndexSet<Vec<u8>>, Oom>
    ensures { IfOk result (λ names. names_in names ≡ first_of_each [] (flat_map parameter_of steps.now)) }
{
    let mut names = IndexSet::new(alloc);
    for step in steps {
        if let Step::Parameter(name) = step {
            insert(alloc, &mut names, name.as_slice())?;
        }
    }
    Ok(names)
}

/// Whether what an exported function does keeps the rules.
fn keeps_steps(
    alloc: Global,
    functions: &IndexSet<Vec<u8>>,
    file: &[Declaration],
    function: &ExportedFunction,
) -> Result<bool, Oom>
    requires named { names_in functions.now ≡ map name_of file.now }
    requires differ { AllPairs (λ x y. x ≢ y) (map name_of file.now) }
    ensures { IfOk result (λ kept. IsTrue kept ↔ KeepsSteps (externs_of file.now) function.now) }
{
    let params = set_of(alloc, function.params.as_slice())?;
    let steps = function.steps.as_slice();
    if !are_known(functions, file, &params, steps) {
        return Ok(false);
    }
    let mentioned = mentioned(alloc, steps)?;
    Ok(holds_all(&mentioned, function.params.as_slice()))
}

/// Whether a declaration of a file keeps the rules.
pub(crate) fn keeps_rules(
    alloc: Global,
    functions: &IndexSet<Vec<u8>>,
    file: &[Declaration],
    declaration: &Declaration,
) -> Result<bool, Oom>
    requires named { names_in functions.now ≡ map name_of file.now }
    requires differ { AllPairs (λ x y. x ≢ y) (map name_of file.now) }
    ensures { IfOk result (λ kept. IsTrue kept ↔
        (KeepsNames (names_in functions.now) declaration.now × All (KeepsSteps (externs_of file.now)) (export_of declaration.now))) }
{
    if !keeps_names(alloc, functions, declaration)? {
        return Ok(false);
    }
    match declaration {
        Declaration::Extern(_) => Ok(true),
        Declaration::Export(function) => keeps_steps(alloc, functions, file, function),
    }
}
