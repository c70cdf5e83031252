// Rows of the code of operators.
ghost use Rattle.std.specs.Prelude.{◌≤◌};

use sqlite_items::Items;
use std::alloc::Global;
use zw_base::Oom;
use zw_num::{IntTy, Operator};
use zw_outside::MemSink;
use zw_rows_base::{Field, Mistake, Problem, Report};
use zw_rows_values::{operator_named, type_of};
use zw_safety::{has_checked, push_checked};
use zw_safety_narrow::Setting;
use zw_wasm::{CodeBody, ExportDef, FuncType, GlobalDef, Instr, Module, ValType, write};

/// An operator with the types of its operands, of which there may be one, and of its result.
#[derive(Clone, Copy)]
pub struct Typed {
    pub operator: Operator,
    pub left: IntTy,
    pub right: Option<IntTy>,
    pub to: IntTy,
}

/// `code NAME`: lines `of OPERATOR TYPE.. = RUN PANIC CODE`, where the types are those of the operands, of which there are one or two, and of the
/// result: how many instructions a run takes that panics nowhere, a run that panics at the last place where one can (`-` where none can), and how many the code
/// has, or `none` where the operator isn't served; and lines `module OPERATOR TYPE.. = HEX`: the bytes of a module that exports the code
/// as its function `f`.
pub fn check_code(alloc: Global, fields: &[Field<'_>]) -> Result<Report, Mistake> {
    let mut report = Report::new(alloc);
    for field in fields {
        let line = field.line;
        let Some((case, wanted)) = line.rest.split_once(" = ") else {
            return Err(field.wrong(Problem::MissingWord));
        };
        let Some((operator, types)) = case.split_once(' ') else {
            return Err(field.wrong(Problem::MissingWord));
        };
        let Some(typed) = typed_of(operator, types) else {
            return Err(field.wrong(Problem::UnknownWord));
        };
        let came = match (line.word, code_of(alloc, typed)?) {
            ("of", Some(code)) => lengths(alloc, &code)?,
            ("module", Some(code)) => hex::encode(alloc, &bytes_of(alloc, typed, code)?)?,
            ("of" | "module", None) => String::from_str(alloc, "none")?,
            _ => return Err(field.wrong(Problem::UnknownWord)),
        };
        report.compare(case, came.as_bytes(), wanted.as_bytes())?;
    }
    Ok(report)
}

/// The operator and the types of these words.
pub fn typed_of(operator: &str, types: &str) -> Option<Typed> {
    let operator = operator_named(operator)?;
    let (left, rest) = types.split_once(' ')?;
    let left = type_of(left)?;
    match rest.split_once(' ') {
        Some((right, to)) => Some(Typed {
            operator,
            left,
            right: Some(type_of(right)?),
            to: type_of(to)?,
        }),
        None => Some(Typed {
            operator,
            left,
            right: None,
            to: type_of(rest)?,
        }),
    }
}

/// What the code is made for: the locals that it may write begin behind the operands.
fn setting(typed: Typed) -> Setting
    ensures { result.scratch ≤ 2 }
{
    Setting {
        left: typed.left,
        right: typed.right.unwrap_or(typed.left),
        to: typed.to,
        scratch: if typed.right.is_some() { 2 } else { 1 },
    }
}

/// The code of an operator, where it is served.
pub fn code_of(alloc: Global, typed: Typed) -> Result<Option<Vec<Instr>>, Oom> {
    let setting = setting(typed);
    if !has_checked(typed.operator, setting) {
        return Ok(None);
    }
    let mut code = Vec::new(alloc);
    push_checked(typed.operator, setting, &mut code)?;
    Ok(Some(code))
}

/// The numbers of instructions of a run, of the last panic, and of the code, as a row has them.
fn lengths(alloc: Global, code: &[Instr]) -> Result<String, Oom> {
    let mut run = 0u32;
    let mut panic = None;
    let mut choice = None;
    for instr in code {
        match instr {
            Instr::If(_) => {
                run = run.saturating_add(1);
                choice = Some(run);
            }
            Instr::Else => {}
            Instr::End => choice = None,
            Instr::Unreachable => {
                panic = Some(run.saturating_add(1));
                run = choice.unwrap_or(run);
            }
            _ => run = run.saturating_add(1),
        }
    }
    let count = code.len();
    match panic {
        Some(panic) => format!(in alloc; "{run} {panic} {count}"),
        None => format!(in alloc; "{run} - {count}"),
    }
}

/// The type of WebAssembly that holds the values of a type.
pub fn held_in(ty: IntTy) -> ValType {
    match ty {
        IntTy::Sized { bits, .. } if bits <= 32 => ValType::I32,
        _ => ValType::I64,
    }
}

/// The bytes of a module with the code as its function `f`. The globals 0 to 2 are those of a panic, under the names that built modules give them.
pub fn bytes_of(alloc: Global, typed: Typed, code: Vec<Instr>) -> Result<Vec<u8>, Oom> {
    let mut sink = MemSink::new(alloc, Vec::new(alloc), u64::MAX);
    let module = Module {
        types: one(alloc, signature(alloc, typed)?)?,
        imports: Items::new(alloc),
        funcs: one(alloc, 0)?,
        tables: Items::new(alloc),
        memories: Items::new(alloc),
        globals: globals(alloc)?,
        exports: exports(alloc)?,
        start: None,
        elements: Items::new(alloc),
        codes: one(alloc, body(alloc, typed, code)?)?,
        datas: Items::new(alloc),
    };
    if write(alloc, &module, &mut sink).is_err() {
        return Err(Oom);
    }
    sink.taken().to_vec(alloc)
}

/// A list of one item.
fn one<T: Drop>(alloc: Global, item: T) -> Result<Items<T>, Oom> {
    let mut items = Items::new(alloc);
    items.push(item)?;
    Ok(items)
}

/// The types of the operands and of the result.
fn signature(alloc: Global, typed: Typed) -> Result<FuncType, Oom> {
    let mut params = one(alloc, held_in(typed.left))?;
    if let Some(right) = typed.right {
        params.push(held_in(right))?;
    }
    Ok(FuncType {
        params,
        result: Some(held_in(typed.to)),
    })
}

/// The globals of a panic, which begin at 0.
fn globals(alloc: Global) -> Result<Items<GlobalDef>, Oom> {
    let mut globals = Items::new(alloc);
    for _ in 0..3 {
        let mut init = one(alloc, Instr::I32Const(0))?;
        init.push(Instr::End)?;
        globals.push(GlobalDef {
            ty: ValType::I32,
            mutable: true,
            init,
        })?;
    }
    Ok(globals)
}

/// The function and the globals under their names.
fn exports(alloc: Global) -> Result<Items<ExportDef>, Oom> {
    let mut exports = one(alloc, export(alloc, b"f", ExportDef::FUNC, 0)?)?;
    exports.push(export(alloc, b"panic_cause", ExportDef::GLOBAL, 0)?)?;
    exports.push(export(alloc, b"panic_ptr", ExportDef::GLOBAL, 1)?)?;
    exports.push(export(alloc, b"panic_len", ExportDef::GLOBAL, 2)?)?;
    Ok(exports)
}

/// An export.
fn export(alloc: Global, name: &[u8], kind: u8, index: u32) -> Result<ExportDef, Oom> {
    let name = Items::from_slice(alloc, name)?;
    Ok(ExportDef { name, kind, index })
}

/// A body that puts the operands before the code.
fn body(alloc: Global, typed: Typed, code: Vec<Instr>) -> Result<CodeBody, Oom> {
    let mut instrs = one(alloc, Instr::LocalGet(0))?;
    if typed.right.is_some() {
        instrs.push(Instr::LocalGet(1))?;
    }
    instrs.append(Items::from_vec(code))?;
    instrs.push(Instr::End)?;
    Ok(CodeBody {
        locals: Items::from_slice(alloc, &[(4, ValType::I32), (4, ValType::I64)])?,
        instrs,
    })
}
