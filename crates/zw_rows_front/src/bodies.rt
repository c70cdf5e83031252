// Rows of the reading of a struct's members, which may end before the text does.
use std::alloc::Global;
use zw_base::{Oom, Refused};
use zw_parse_expr::{Builder, End, body};
use zw_rows_base::{Field, Mistake, Problem, Report, case_of};
use zw_token::tokens;

/// The greatest number of bytes in a text that has tokens.
const TEXT_LIMIT: usize = 4_194_304;

/// `bodies NAME`: lines `of TEXT`, a tab, and how the reading of a struct's members from the text's first token on ends: `Read(N)` before
/// the token N, `Wrong(N)` or `Nested(N)` at it. The text has escapes.
pub fn check_bodies(alloc: Global, fields: &[Field<'_>]) -> Result<Report, Mistake> {
    let mut report = Report::new(alloc);
    for field in fields {
        let case = case_of(alloc, field.line)?;
        let Some(end) = end_of_body(alloc, &case.bytes)? else {
            return Err(field.wrong(Problem::Refused));
        };
        let came = format!(in alloc; "{end:?}")?;
        report.compare(case.text, came.as_bytes(), case.wanted.as_bytes())?;
    }
    Ok(report)
}

/// How the reading ends; None where the text has no tokens.
fn end_of_body(alloc: Global, text: &[u8]) -> Result<Option<End>, Oom> {
    if text.len() > TEXT_LIMIT {
        return Ok(None);
    }
    let list = match tokens(alloc, 0, text) {
        Ok(list) => list,
        Err(Refused::Stop(_)) => return Ok(None),
        Err(Refused::Oom) => return Err(Oom),
    };
    if list.is_empty() || list.len() > u32::MAX as usize {
        return Ok(None);
    }
    let mut builder = Builder::new(alloc);
    Ok(Some(body(alloc, text, &list, 0, &mut builder)?))
}
