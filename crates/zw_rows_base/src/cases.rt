// Cases of a line each: a text, and what is wanted of it.
use crate::mistake::{Mistake, Problem};
use crate::spelling::unescaped;
use crate::table::Line;
use std::alloc::Global;

/// A text, as the line spells it and by its bytes, and what is wanted.
#[derive(Drop)]
pub struct Case<'a> {
    pub text: &'a str,
    pub bytes: Vec<u8>,
    pub wanted: &'a str,
}

/// The case of a line `of TEXT`, a tab, and what is wanted. The text has escapes.
pub fn case_of<'a>(alloc: Global, line: Line<'a>) -> Result<Case<'a>, Mistake> {
    let Some((text, wanted)) = line.rest.split_once('\t') else {
        return Err(Mistake::Wrong(line.number, Problem::MissingWord));
    };
    if line.word != "of" {
        return Err(Mistake::Wrong(line.number, Problem::UnknownWord));
    }
    let bytes = unescaped(alloc, line, text)?;
    Ok(Case {
        text,
        bytes,
        wanted,
    })
}
