// Rows of numbers in the bytes of a module.
use std::alloc::Global;
use zw_base::Oom;
use zw_leb::{Leb, get_i32, get_i64, get_u32, put_i32, put_i64, put_u32};
use zw_rows_base::{Field, Line, Mistake, Problem, Report, hex_bytes};

/// `leb NAME`: lines `put-u32 N = HEX`, `put-i32` and `put-i64` in the same way, and `get-u32 HEX = N COUNT`, `get-i32` and `get-i64`:
/// the number at the front of the bytes and how many bytes spell it, or `none`.
pub fn check_leb(alloc: Global, fields: &[Field<'_>]) -> Result<Report, Mistake> {
    let mut report = Report::new(alloc);
    for field in fields {
        let Some((given, wanted)) = field.line.rest.split_once(" = ") else {
            return Err(field.wrong(Problem::MissingWord));
        };
        let came = match spelled(field.line.word, given) {
            Some(leb) => hex::encode(alloc, leb.as_slice())?,
            None => number_in(alloc, field.line, given)?,
        };
        report.compare(given, came.as_bytes(), wanted.as_bytes())?;
    }
    Ok(report)
}

/// The spelling of a number, where the word asks for one.
fn spelled(word: &str, number: &str) -> Option<Leb> {
    match word {
        "put-u32" => Some(put_u32(number.parse::<u32>().ok()?)),
        "put-i32" => Some(put_i32(number.parse::<i32>().ok()?)),
        "put-i64" => Some(put_i64(number.parse::<i64>().ok()?)),
        _ => None,
    }
}

/// The number at the front of the bytes, as a row has it.
fn number_in(alloc: Global, line: Line<'_>, digits: &str) -> Result<String, Mistake> {
    let bytes = hex_bytes(alloc, line, digits)?;
    let number = match line.word {
        "get-u32" => get_u32(&bytes).map(|read| (i64::from(read.0), read.1)),
        "get-i32" => get_i32(&bytes).map(|read| (i64::from(read.0), read.1)),
        "get-i64" => get_i64(&bytes),
        _ => return Err(Mistake::Wrong(line.number, Problem::UnknownWord)),
    };
    Ok(shown_number(alloc, number)?)
}

/// A number and the count of its bytes, as a row has them.
fn shown_number(alloc: Global, number: Option<(i64, usize)>) -> Result<String, Oom> {
    match number {
        Some((number, count)) => format!(in alloc; "{number} {count}"),
        None => String::from_str(alloc, "none"),
    }
}
