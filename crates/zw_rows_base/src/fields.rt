// The lines of a row with the bytes that are spelled below them.
use crate::mistake::{Mistake, Problem};
use crate::pieces::{add_piece, is_piece, takes_bytes};
use crate::table::{Line, Row};
use std::alloc::Global;

/// A line of a row, and the bytes that the pieces below it spell.
#[derive(Drop)]
pub struct Field<'a> {
    pub line: Line<'a>,
    pub bytes: Vec<u8>,
}

impl<'a> Field<'a> {
    /// That this line is wrong.
    pub fn wrong(&self, problem: Problem) -> Mistake {
        Mistake::Wrong(self.line.number, problem)
    }
}

/// The fields of a row, of which the first is its head. `named` are the bytes that have a name by now.
pub fn fields_of<'a>(
    alloc: Global,
    row: &Row<'a>,
    named: &[Field<'a>],
) -> Result<Vec<Field<'a>>, Mistake> {
    if !row.is_ended {
        return Err(Mistake::Wrong(row.line(), Problem::NoEnd));
    }
    let mut fields = Vec::new(alloc);
    for line in &row.lines {
        if is_piece(line.word) {
            add_to_last(alloc, *line, named, &mut fields)?;
        } else {
            let bytes = Vec::new(alloc);
            fields.push(Field { line: *line, bytes })?;
        }
    }
    Ok(fields)
}

/// Adds a piece to the bytes of the last field.
fn add_to_last<'a>(
    alloc: Global,
    line: Line<'a>,
    named: &[Field<'a>],
    fields: &mut Vec<Field<'a>>,
) -> Result<(), Mistake> {
    match fields.last_mut() {
        Some(field) if takes_bytes(field.line.word) => {
            add_piece(alloc, line, named, &mut field.bytes)
        }
        _ => Err(Mistake::Wrong(line.number, Problem::NoBytesWanted)),
    }
}
