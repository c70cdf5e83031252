// Rows of tokens: those of a text, the tables of keywords and signs, and names of types.
use std::alloc::Global;
use zw_base::{Oom, Refused, Stop, StopKind};
use zw_rows_base::{Field, Mistake, Problem, Report, case_of, small, words};
use zw_token::{KEYWORDS, SIGNS, Token, TokenKind, is_primitive_name, is_refused_name, tokens};

/// The greatest number of bytes in a text that has tokens.
const TEXT_LIMIT: usize = 4_194_304;

/// What is wanted of a text: its tokens, or their kinds alone, or its stop.
#[derive(Drop)]
struct Wanted<'a> {
    tokens: String,
    kinds: String,
    stop: &'a str,
}

/// `tokens NAME` and a text. What is wanted is the list by `token KIND START END`, or the kinds alone by `kinds`, or the
/// stop by `stop LINE:COLUMN: error N`.
pub fn check_tokens(
    alloc: Global,
    head: &Field<'_>,
    fields: &[Field<'_>],
) -> Result<Report, Mistake> {
    if head.bytes.len() > TEXT_LIMIT {
        return Err(head.wrong(Problem::Refused));
    }
    let mut wanted = Wanted {
        tokens: String::new(alloc),
        kinds: String::new(alloc),
        stop: "",
    };
    for field in fields {
        wanted.set(field)?;
    }
    let mut report = Report::new(alloc);
    match tokens(alloc, 0, &head.bytes) {
        Ok(list) => wanted.compare_list(alloc, &mut report, &list)?,
        Err(Refused::Stop(stop)) => wanted.compare_stop(alloc, &mut report, stop)?,
        Err(Refused::Oom) => return Err(Mistake::Oom),
    }
    Ok(report)
}

impl<'a> Wanted<'a> {
    /// Sets what a line says.
    fn set(&mut self, field: &Field<'a>) -> Result<(), Mistake> {
        let rest = field.line.rest;
        match field.line.word {
            "token" => {
                let comma = if self.tokens.is_empty() { "" } else { ", " };
                write!(self.tokens, "{comma}{rest}")?;
            }
            "kinds" => write!(self.kinds, "{rest} ")?,
            "stop" => self.stop = rest,
            _ => return Err(field.wrong(Problem::UnknownWord)),
        }
        Ok(())
    }

    /// Compares the tokens of the text, or their kinds.
    fn compare_list(&self, alloc: Global, report: &mut Report, list: &[Token]) -> Result<(), Oom> {
        report.compare("stop", b"", self.stop.as_bytes())?;
        if self.kinds.is_empty() {
            let came = shown_tokens(alloc, list)?;
            report.compare("tokens", came.as_bytes(), self.tokens.as_bytes())
        } else {
            let came = shown_kinds(alloc, list)?;
            report.compare("kinds", came.as_bytes(), self.kinds.as_bytes())
        }
    }

    /// Compares the stop of the text.
    fn compare_stop(&self, alloc: Global, report: &mut Report, stop: Stop) -> Result<(), Oom> {
        let came = shown_stop(alloc, stop)?;
        report.compare("stop", came.as_bytes(), self.stop.as_bytes())?;
        report.compare("tokens", b"", self.tokens.as_bytes())?;
        report.compare("kinds", b"", self.kinds.as_bytes())
    }
}

/// `token-lists NAME`: lines `of TEXT`, a tab, and what is wanted: the tokens, `KIND START END` with `, ` between them, or the
/// stop, `LINE:COLUMN: error N`. The text has escapes.
pub fn check_lists(alloc: Global, fields: &[Field<'_>]) -> Result<Report, Mistake> {
    let mut report = Report::new(alloc);
    for field in fields {
        let case = case_of(alloc, field.line)?;
        if case.bytes.len() > TEXT_LIMIT {
            return Err(field.wrong(Problem::Refused));
        }
        let came = match tokens(alloc, 0, &case.bytes) {
            Ok(list) => shown_tokens(alloc, &list)?,
            Err(Refused::Stop(stop)) => shown_stop(alloc, stop)?,
            Err(Refused::Oom) => return Err(Mistake::Oom),
        };
        report.compare(case.text, came.as_bytes(), case.wanted.as_bytes())?;
    }
    Ok(report)
}

/// A stop as a row has it.
fn shown_stop(alloc: Global, stop: Stop) -> Result<String, Oom> {
    let line = stop.place.line;
    let column = stop.place.column;
    match stop.kind {
        StopKind::Error(number) => format!(in alloc; "{line}:{column}: error {number}"),
        StopKind::Limit(number) => format!(in alloc; "{line}:{column}: limit {number}"),
    }
}

/// The tokens, each with its kind and its place.
fn shown_tokens(alloc: Global, list: &[Token]) -> Result<String, Oom> {
    let mut text = String::new(alloc);
    for token in list {
        let kind = shown_kind(token.kind);
        let start = token.start;
        let end = token.end;
        let comma = if text.is_empty() { "" } else { ", " };
        write!(text, "{comma}{kind} {start} {end}")?;
    }
    Ok(text)
}

/// The kinds of the tokens.
fn shown_kinds(alloc: Global, list: &[Token]) -> Result<String, Oom> {
    let mut text = String::new(alloc);
    for token in list {
        let kind = shown_kind(token.kind);
        write!(text, "{kind} ")?;
    }
    Ok(text)
}

/// The name of a kind: of a keyword or a sign what it stands for, and of the others a word with a capital.
fn shown_kind(kind: TokenKind) -> &'static str {
    match kind {
        TokenKind::Name => "Name",
        TokenKind::Quoted => "Quoted",
        TokenKind::Builtin => "Builtin",
        TokenKind::Number => "Number",
        TokenKind::Character => "Character",
        TokenKind::Text => "Text",
        TokenKind::LineText => "LineText",
        TokenKind::Keyword(number) => text_at(&KEYWORDS, number),
        TokenKind::Sign(number) => text_at(&SIGNS, number),
        TokenKind::End => "End",
    }
}

/// The text with this number.
fn text_at(table: &[&'static str], number: u8) -> &'static str {
    match table.get(usize::from(number)) {
        Some(text) => *text,
        None => "none",
    }
}

/// `names NAME`: lines `primitive WORD..`, `refused WORD..` and `plain WORD..`.
pub fn check_names(alloc: Global, fields: &[Field<'_>]) -> Result<Report, Mistake> {
    let mut report = Report::new(alloc);
    for field in fields {
        for name in words(alloc, field.line)? {
            let kind = if is_primitive_name(name.bytes()) {
                "primitive"
            } else if is_refused_name(name.bytes()) {
                "refused"
            } else {
                "plain"
            };
            if kind != field.line.word {
                report.compare(field.line.word, name.bytes(), kind.as_bytes())?;
            }
        }
    }
    Ok(report)
}

/// `tables NAME`: lines `keyword N TEXT` and `sign N TEXT`, by which a text has this number, and `constant NAME TEXT` for the
/// kinds that have a name in the code.
pub fn check_tables(alloc: Global, fields: &[Field<'_>]) -> Result<Report, Mistake> {
    let mut report = Report::new(alloc);
    for field in fields {
        let Some((key, text)) = field.line.rest.split_once(' ') else {
            return Err(field.wrong(Problem::MissingWord));
        };
        let came = match field.line.word {
            "keyword" => KEYWORDS.get(small(field.line, key)? as usize).copied(),
            "sign" => SIGNS.get(small(field.line, key)? as usize).copied(),
            "constant" => constant(key).map(shown_kind),
            _ => return Err(field.wrong(Problem::UnknownWord)),
        };
        let came = came.unwrap_or("none");
        report.compare(key, came.as_bytes(), text.as_bytes())?;
    }
    Ok(report)
}

/// The kind with this name in the code.
fn constant(name: &str) -> Option<TokenKind> {
    match name {
        "EXPORT" => Some(TokenKind::EXPORT),
        "EXTERN" => Some(TokenKind::EXTERN),
        "FN" => Some(TokenKind::FN),
        "RETURN" => Some(TokenKind::RETURN),
        "PLUS" => Some(TokenKind::PLUS),
        "PLUS_PERCENT" => Some(TokenKind::PLUS_PERCENT),
        "MINUS" => Some(TokenKind::MINUS),
        "COMMA" => Some(TokenKind::COMMA),
        "SEMICOLON" => Some(TokenKind::SEMICOLON),
        "COLON" => Some(TokenKind::COLON),
        "L_PAREN" => Some(TokenKind::L_PAREN),
        "R_PAREN" => Some(TokenKind::R_PAREN),
        "L_BRACE" => Some(TokenKind::L_BRACE),
        "R_BRACE" => Some(TokenKind::R_BRACE),
        _ => None,
    }
}
