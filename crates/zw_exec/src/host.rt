// Lines of host calls: an import's name, and each number with its sign.
ghost use Rattle.std.specs.Prelude.{◌≡◌, [], map, slice_get, IfOk};
ghost use Rattle.zw_exec.specs.Hosts.{event_text, import_name, signed_type};
ghost use Rattle.zw_wasm.specs.ModuleMachine.{param_types};
ghost use Rattle.zw_wasm_run.specs.Hosting.{IsShownCall};

use sqlite_items::at;
use std::alloc::Global;
use zw_base::{Oom, Word};
use zw_report::{ItemTy, event_line};
use zw_wasm::{FuncImport, Module, ValType};
use zw_wasm_run::Event;

/// The line of a host call.
pub fn host_line(alloc: Global, m: &Module, event: &Event) -> Result<Vec<u8>, Oom>
    requires { IsShownCall m.now [] event.now }
    ensures { IfOk result (λ line. line.items ≡ event_text m.now event.now) }
{
    let import = &m.imports.as_slice()[event.import as usize];
    let name = import_name(alloc, import)?;
    let tys = signed_types(alloc, import_params(m, import))?;
    event_line(alloc, &name, &tys, event)
}

/// The name by which lines tell an import: its field, behind its module and a dot where that isn't `env`.
fn import_name(alloc: Global, import: &FuncImport) -> Result<Word, Oom>
    ensures { IfOk result (λ name. name ≡ import_name import.now) }
{
    if import.module.as_slice() == b"env".as_slice() {
        return Word::copy(alloc, import.field.as_slice());
    }
    let mut name = Vec::from_slice(alloc, import.module.as_slice())?;
    name.push(b'.')?;
    name.extend_from_slice(import.field.as_slice())?;
    Word::copy(alloc, &name)
}

/// The types of an import's parameters; none where its type isn't there.
fn import_params<'a>(m: &'a Module, import: &FuncImport) -> &'a [ValType]
    ensures { result.now ≡ param_types (slice_get m.now.types import.now.ty) }
{
    match at(m.types.as_slice(), import.ty as usize) {
        Some(ty) => ty.params.as_slice(),
        None => &[],
    }
}

/// The types by which numbers of these types are printed with their sign.
fn signed_types(alloc: Global, params: &[ValType]) -> Result<Vec<ItemTy>, Oom>
    ensures { IfOk result (λ tys. tys.items ≡ map signed_type params.now) }
{
    params.iter().map(|ty| signed_type(*ty)).collect(alloc)
}

fn signed_type(ty: ValType) -> ItemTy
    ensures { result ≡ signed_type ty }
{
    match ty {
        ValType::I32 => ItemTy::Int {
            signed: true,
            bits: 32,
        },
        ValType::I64 => ItemTy::Int {
            signed: true,
            bits: 64,
        },
    }
}
