// Rows of the code of operators as the machine runs it.
use crate::code::{bytes_of, code_of, held_in, typed_of};
use crate::machines::{Host, call, machine_of, panic_cause};
use std::alloc::Global;
use zw_num::IntTy;
use zw_rows_base::{Field, Mistake, Problem, Report};
use zw_rows_values::type_of;
use zw_wasm::{Num, ValType};
use zw_wasm_run::{Machine, Outcome};

/// More bytes than the module of any code has.
const LIMIT: usize = 1_000_000;

/// The cause of a trap that is a panic.
const UNREACHABLE: u8 = 1;

/// `runs NAME`: lines `OPERATOR TYPE.. : NUMBER.. = OUTCOME`, with the types of the one or two operands and of the result: what the
/// code of the operator comes to on these operands, each of its type. The outcome is a number, `panic CAUSE`, or `none` where the operator isn't served.
pub fn check_runs(alloc: Global, fields: &[Field<'_>]) -> Result<Report, Mistake> {
    let mut report = Report::new(alloc);
    for field in fields {
        let Some((case, wanted)) = field.line.rest.split_once(" = ") else {
            return Err(field.wrong(Problem::MissingWord));
        };
        let came = outcome_of(alloc, field, case)?;
        report.compare(field.line.rest, came.as_bytes(), wanted.as_bytes())?;
    }
    Ok(report)
}

/// What the code of a line comes to, as a row has it.
fn outcome_of(alloc: Global, field: &Field<'_>, case: &str) -> Result<String, Mistake> {
    let Some((types, numbers)) = case.split_once(" : ") else {
        return Err(field.wrong(Problem::MissingWord));
    };
    let Some(typed) = typed_of(field.line.word, types) else {
        return Err(field.wrong(Problem::UnknownWord));
    };
    let args = operands(alloc, field, types, numbers)?;
    let Some(code) = code_of(alloc, typed)? else {
        return Ok(String::from_str(alloc, "none")?);
    };
    let bytes = bytes_of(alloc, typed, code)?;
    if bytes.len() > LIMIT {
        return Err(field.wrong(Problem::Refused));
    }
    let Some(mut machine) = machine_of(alloc, &bytes)? else {
        return Ok(String::from_str(alloc, "no module")?);
    };
    let outcome = call(&mut machine, b"f", &args, &mut Host::new(alloc))?;
    shown(alloc, &machine, typed.to, outcome)
}

/// The operands of a line, by the types there.
fn operands(
    alloc: Global,
    field: &Field<'_>,
    types: &str,
    numbers: &str,
) -> Result<Vec<Num>, Mistake> {
    let mut args = Vec::new(alloc);
    let mut types = types.split_whitespace();
    for number in numbers.split_whitespace() {
        let Some(ty) = types.next() else {
            return Err(field.wrong(Problem::MissingWord));
        };
        args.push(operand(field, ty, number)?)?;
    }
    Ok(args)
}

/// A number of a type, as code has it: its type's word filled with copies of its sign.
fn operand(field: &Field<'_>, ty: &str, number: &str) -> Result<Num, Mistake> {
    let Some(ty) = type_of(ty) else {
        return Err(field.wrong(Problem::UnknownWord));
    };
    let Ok(number) = number.parse::<i128>() else {
        return Err(field.wrong(Problem::BadNumber));
    };
    if !ty.contains(number) {
        return Err(field.wrong(Problem::BadNumber));
    }
    match word_of(ty, number) {
        Some(num) => Ok(num),
        None => Err(field.wrong(Problem::BadNumber)),
    }
}

/// A number of a type as its word.
fn word_of(ty: IntTy, number: i128) -> Option<Num> {
    match held_in(ty) {
        ValType::I32 => match u32::try_from(number) {
            Ok(bits) => Some(Num::I32(bits)),
            Err(_) => Some(Num::I32(i32::try_from(number).ok()?.cast_unsigned())),
        },
        ValType::I64 => match u64::try_from(number) {
            Ok(bits) => Some(Num::I64(bits)),
            Err(_) => Some(Num::I64(i64::try_from(number).ok()?.cast_unsigned())),
        },
    }
}

/// How a call ended, as a row has it.
fn shown(
    alloc: Global,
    machine: &Machine,
    to: IntTy,
    outcome: Option<Outcome>,
) -> Result<String, Mistake> {
    let panics = match outcome {
        Some(Outcome::Result(Some(num))) => {
            let number = value(to, num);
            return Ok(format!(in alloc; "{number}")?);
        }
        Some(Outcome::Trap(UNREACHABLE)) => panic_cause(machine),
        _ => None,
    };
    match panics {
        Some(cause) => Ok(format!(in alloc; "panic {cause}")?),
        None => Ok(format!(in alloc; "{outcome:?}")?),
    }
}

/// The number that a word is, which is read with a sign where the type has one.
fn value(ty: IntTy, num: Num) -> i128 {
    let signed = matches!(ty, IntTy::Sized { signed: true, .. });
    match num {
        Num::I32(bits) if signed => i128::from(bits.cast_signed()),
        Num::I32(bits) => i128::from(bits),
        Num::I64(bits) if signed => i128::from(bits.cast_signed()),
        Num::I64(bits) => i128::from(bits),
    }
}
