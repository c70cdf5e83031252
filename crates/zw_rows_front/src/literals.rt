// Rows of what tokens stand for: `numbers`, `chars` and `texts`.
ghost use Rattle.std.specs.Prelude.{IfOk, IfSome};
ghost use Rattle.zw_token.specs.Tokens.{IsOfKind, Tokens};

use std::alloc::Global;
use zw_base::{Oom, Refused};
use zw_rows_base::{Field, Mistake, Problem, Report, case_of, unescaped};
use zw_token::{Token, TokenKind, char_value, number_value, text_value, tokens};

/// The greatest number of bytes in a text that has tokens.
const TEXT_LIMIT: usize = 4_194_304;

/// The kind of the first of these tokens of a text, where it is all of the text.
fn kind_of_all(text: &[u8], list: &[Token]) -> Option<TokenKind>
    requires { Tokens text.now list.now }
    ensures { IfSome result (λ kind. IsOfKind kind text.now) }
{
    match list {
        [token, _, ..] if token.start == 0 && token.end as usize == text.len() => Some(token.kind),
        _ => None,
    }
}

/// The kind of the token that these bytes are, if they are one.
fn kind_of(alloc: Global, text: &[u8]) -> Result<Option<TokenKind>, Oom>
    ensures { IfOk result (λ kind. IfSome kind (λ kind. IsOfKind kind text.now)) }
{
    if text.len() > TEXT_LIMIT {
        return Ok(None);
    }
    match tokens(alloc, 0, text) {
        Ok(list) => Ok(kind_of_all(text, &list)),
        Err(Refused::Stop(_)) => Ok(None),
        Err(Refused::Oom) => Err(Oom),
    }
}

/// `numbers NAME`: lines `NUMBER = VALUE`, where the value is `none` past 2^127 - 1.
pub fn check_numbers(alloc: Global, fields: &[Field<'_>]) -> Result<Report, Mistake> {
    let mut report = Report::new(alloc);
    for field in fields {
        let digits = field.line.word;
        let Some(TokenKind::Number) = kind_of(alloc, digits.as_bytes())? else {
            return Err(field.wrong(Problem::BadNumber));
        };
        let came = match number_value(digits.as_bytes()) {
            Some(value) => format!(in alloc; "= {value}")?,
            None => String::from_str(alloc, "= none")?,
        };
        report.compare(digits, came.as_bytes(), field.line.rest.as_bytes())?;
    }
    Ok(report)
}

/// `chars NAME`: lines `of CHARACTER`, a tab, and its number.
pub fn check_chars(alloc: Global, fields: &[Field<'_>]) -> Result<Report, Mistake> {
    let mut report = Report::new(alloc);
    for field in fields {
        let case = case_of(alloc, field.line)?;
        let Some(TokenKind::Character) = kind_of(alloc, &case.bytes)? else {
            return Err(field.wrong(Problem::BadLiteral));
        };
        let came = char_value(&case.bytes);
        let came = format!(in alloc; "{came}")?;
        report.compare(case.text, came.as_bytes(), case.wanted.as_bytes())?;
    }
    Ok(report)
}

/// `texts NAME`: lines `of LITERAL`, a tab, and its bytes, with escapes. The literal is a text, a line text or a quoted name.
pub fn check_texts(alloc: Global, fields: &[Field<'_>]) -> Result<Report, Mistake> {
    let mut report = Report::new(alloc);
    for field in fields {
        let case = case_of(alloc, field.line)?;
        let kind = kind_of(alloc, &case.bytes)?;
        let Some(TokenKind::Text | TokenKind::LineText | TokenKind::Quoted) = kind else {
            return Err(field.wrong(Problem::BadLiteral));
        };
        let came = text_value(alloc, &case.bytes)?;
        let wanted = unescaped(alloc, field.line, case.wanted)?;
        report.compare(case.text, &came, &wanted)?;
    }
    Ok(report)
}
