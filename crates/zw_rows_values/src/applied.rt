// Rows of operators and builtins on known values.
use crate::coercions::scalar;
use crate::operators::operator_named;
use crate::types::known_type;
use std::alloc::Global;
use zw_num::Operator;
use zw_ops::{Cause, apply, is_applicable};
use zw_rows_base::{Field, Line, Mistake, Problem, Report};
use zw_types::{TypeId, Types, Value};

/// `apply NAME`: lines `OPERATOR TYPE.. : TYPE : VALUE.. = OUTCOME`: the types of the operands, that of the result, and the operands, each a number,
/// `true`, `false`, `undefined` or `type:TYPE`. The outcome is a number or a truth value, `panic N`, `wild` or `limit N`.
pub fn check_applied(alloc: Global, fields: &[Field<'_>]) -> Result<Report, Mistake> {
    let mut report = Report::new(alloc);
    for field in fields {
        let Some((given, wanted)) = field.line.rest.split_once(" = ") else {
            return Err(field.wrong(Problem::MissingWord));
        };
        let Some(operator) = operator_named(field.line.word) else {
            return Err(field.wrong(Problem::UnknownWord));
        };
        let came = outcome(alloc, field.line, operator, given)?;
        report.compare(field.line.rest, came.as_bytes(), wanted.as_bytes())?;
    }
    Ok(report)
}

/// What an operator gives, as a row has it.
fn outcome(
    alloc: Global,
    line: Line<'_>,
    operator: Operator,
    given: &str,
) -> Result<String, Mistake> {
    let Some((from, rest)) = given.split_once(" : ") else {
        return Err(Mistake::Wrong(line.number, Problem::MissingWord));
    };
    let Some((to, args)) = rest.split_once(" : ") else {
        return Err(Mistake::Wrong(line.number, Problem::MissingWord));
    };
    let mut types = Types::new(alloc);
    let from = types_of(alloc, &mut types, line, from)?;
    let to = known_type(&mut types, line, to)?;
    let args = operands_of(alloc, &mut types, line, args)?;
    if !is_applicable(&types, operator, &from, &args, to) {
        return Err(Mistake::Wrong(line.number, Problem::Refused));
    }
    match apply(alloc, &types, operator, &from, &args, to) {
        Ok(value) => shown_value(alloc, &value),
        Err(cause) => shown_cause(alloc, cause),
    }
}

/// The types of these names.
fn types_of(
    alloc: Global,
    types: &mut Types,
    line: Line<'_>,
    names: &str,
) -> Result<Vec<TypeId>, Mistake> {
    let mut ids = Vec::new(alloc);
    for name in names.split_whitespace() {
        ids.push(known_type(types, line, name)?)?;
    }
    Ok(ids)
}

/// The values of these words.
fn operands_of(
    alloc: Global,
    types: &mut Types,
    line: Line<'_>,
    words: &str,
) -> Result<Vec<Value>, Mistake> {
    let mut values = Vec::new(alloc);
    for word in words.split_whitespace() {
        values.push(operand(types, line, word)?)?;
    }
    Ok(values)
}

/// The value of this word.
fn operand(types: &mut Types, line: Line<'_>, word: &str) -> Result<Value, Mistake> {
    match word.strip_prefix("type:") {
        Some(name) => Ok(Value::OfType(known_type(types, line, name)?)),
        None => scalar(line, word),
    }
}

/// A value as a row has it.
fn shown_value(alloc: Global, value: &Value) -> Result<String, Mistake> {
    match value {
        Value::Number(number) => Ok(format!(in alloc; "{number}")?),
        Value::Truth(truth) => Ok(format!(in alloc; "{truth}")?),
        Value::Undefined => Ok(String::from_str(alloc, "undefined")?),
        _ => Ok(String::from_str(alloc, "another value")?),
    }
}

/// Why there is no value, as a row has it.
fn shown_cause(alloc: Global, cause: Cause) -> Result<String, Mistake> {
    match cause {
        Cause::Panic(number) => Ok(format!(in alloc; "panic {number}")?),
        Cause::Wild => Ok(String::from_str(alloc, "wild")?),
        Cause::Limit(number) => Ok(format!(in alloc; "limit {number}")?),
        Cause::Oom => Err(Mistake::Oom),
    }
}
