// Rows of values and their parts. A value is spelled by words, its parts before it: a number, `true`, `false` and `undefined`, and behind the
// words of its parts `parts:N` for a struct or an array of N, `some` for an optional and `payload` for an error union that hold one.
use crate::coercions::scalar;
use sqlite_items::{Boxed, Items};
use std::alloc::Global;
use zw_base::Oom;
use zw_rows_base::{Field, Line, Mistake, Problem, Report, natural};
use zw_types::Value;
use zw_values::{read_at, write_at};

/// `parts NAME`: lines `read PATH in VALUE = VALUE`, `write VALUE at PATH in VALUE = VALUE`, with `none` where the path leads nowhere, and `copy VALUE
/// = VALUE`. A path is the places of parts, with `.` between them.
pub fn check_parts(alloc: Global, fields: &[Field<'_>]) -> Result<Report, Mistake> {
    let mut report = Report::new(alloc);
    for field in fields {
        let line = field.line;
        let Some((given, wanted)) = line.rest.split_once(" = ") else {
            return Err(field.wrong(Problem::MissingWord));
        };
        let came = match line.word {
            "read" => part_read(alloc, line, given)?,
            "write" => written(alloc, line, given)?,
            "copy" => Some(value_of(alloc, line, given)?.copy(alloc)?),
            _ => return Err(field.wrong(Problem::UnknownWord)),
        };
        compare(alloc, line, &mut report, came, wanted)?;
    }
    Ok(report)
}

/// Compares a value with what is wanted.
fn compare(
    alloc: Global,
    line: Line<'_>,
    report: &mut Report,
    came: Option<Value>,
    wanted: &str,
) -> Result<(), Mistake> {
    let is_right = match came {
        Some(came) => wanted != "none" && came.equals(&value_of(alloc, line, wanted)?),
        None => wanted == "none",
    };
    if !is_right {
        report.compare(line.rest, b"another value", wanted.as_bytes())?;
    }
    Ok(())
}

/// The part that a path leads to.
fn part_read(alloc: Global, line: Line<'_>, given: &str) -> Result<Option<Value>, Mistake> {
    let Some((path, whole)) = given.split_once(" in ") else {
        return Err(Mistake::Wrong(line.number, Problem::MissingWord));
    };
    let path = path_of(alloc, line, path)?;
    let whole = value_of(alloc, line, whole)?;
    match read_at(&whole, &path) {
        Some(part) => Ok(Some(part.copy(alloc)?)),
        None => Ok(None),
    }
}

/// The value with another part where a path leads to.
fn written(alloc: Global, line: Line<'_>, given: &str) -> Result<Option<Value>, Mistake> {
    let Some((new, rest)) = given.split_once(" at ") else {
        return Err(Mistake::Wrong(line.number, Problem::MissingWord));
    };
    let Some((path, whole)) = rest.split_once(" in ") else {
        return Err(Mistake::Wrong(line.number, Problem::MissingWord));
    };
    let new = value_of(alloc, line, new)?;
    let path = path_of(alloc, line, path)?;
    let mut whole = value_of(alloc, line, whole)?;
    if write_at(alloc, &mut whole, &path, new)? {
        return Ok(Some(whole));
    }
    Ok(None)
}

/// The steps of a path.
fn path_of(alloc: Global, line: Line<'_>, path: &str) -> Result<Vec<u64>, Mistake> {
    let mut steps = Vec::new(alloc);
    for step in path.split('.') {
        steps.push(natural(line, step)?)?;
    }
    Ok(steps)
}

/// The value that these words spell.
fn value_of(alloc: Global, line: Line<'_>, words: &str) -> Result<Value, Mistake> {
    let mut values = Vec::new(alloc);
    for word in words.split_whitespace() {
        let value = next_value(alloc, line, word, &mut values)?;
        values.push(value)?;
    }
    last(line, &mut values)
}

/// The value of a word, which takes its parts from the values before it.
fn next_value(
    alloc: Global,
    line: Line<'_>,
    word: &str,
    values: &mut Vec<Value>,
) -> Result<Value, Mistake> {
    if let Some(count) = word.strip_prefix("parts:") {
        return Ok(Value::Parts(last_parts(alloc, line, count, values)?));
    }
    match word {
        "some" => Ok(Value::Optional(Some(Boxed::new(alloc, last(line, values)?)?))),
        "payload" => Ok(Value::Payload(Boxed::new(alloc, last(line, values)?)?)),
        _ => scalar(line, word),
    }
}

/// The last value, which is taken from the others.
fn last(line: Line<'_>, values: &mut Vec<Value>) -> Result<Value, Mistake> {
    match values.pop() {
        Some(value) => Ok(value),
        None => Err(Mistake::Wrong(line.number, Problem::MissingWord)),
    }
}

/// The last values, so many, in their order.
fn last_parts(
    alloc: Global,
    line: Line<'_>,
    count: &str,
    values: &mut Vec<Value>,
) -> Result<Items<Value>, Mistake> {
    let mut turned = Vec::new(alloc);
    for _ in 0..natural(line, count)? {
        turned.push(last(line, values)?)?;
    }
    Ok(in_turn(alloc, &mut turned)?)
}

/// The values from the last to the first.
fn in_turn(alloc: Global, values: &mut Vec<Value>) -> Result<Items<Value>, Oom> {
    let mut parts = Items::new(alloc);
    for _ in 0..values.len() {
        if let Some(value) = values.pop() {
            parts.push(value)?;
        }
    }
    Ok(parts)
}
