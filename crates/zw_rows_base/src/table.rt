// The rows of a table, as blocks of lines.
use std::alloc::{AllocError, Global};
use std::mem;

/// A line of a row: its number in the table, from 1, its first word, and what follows behind a blank.
#[derive(Clone, Copy)]
pub struct Line<'a> {
    pub number: usize,
    pub word: &'a str,
    pub rest: &'a str,
}

/// A row: its lines, of which the first is its head, and whether an `end` stands behind them.
#[derive(Drop)]
pub struct Row<'a> {
    pub lines: Vec<Line<'a>>,
    pub is_ended: bool,
}

impl<'a> Row<'a> {
    /// The word of its head.
    pub fn kind(&self) -> &'a str {
        match self.lines.first() {
            Some(head) => head.word,
            None => "",
        }
    }

    /// What its head says behind the word.
    pub fn name(&self) -> &'a str {
        match self.lines.first() {
            Some(head) => head.rest,
            None => "",
        }
    }

    /// The number of its first line.
    pub fn line(&self) -> usize {
        match self.lines.first() {
            Some(head) => head.number,
            None => 0,
        }
    }
}

/// Splits a table into its rows. A row ends at a line `end`, or at a blank line. Lines that begin with `#` are comments.
pub fn rows_of<'a>(alloc: Global, text: &'a str) -> Result<Vec<Row<'a>>, AllocError> {
    let mut rows = Vec::new(alloc);
    let mut lines = Vec::new(alloc);
    for (index, line) in text.lines().enumerate() {
        let line = read_line(index.saturating_add(1), line.trim_start());
        if line.word.starts_with('#') {
            continue;
        }
        let is_end = line.word == "end" && !lines.is_empty();
        if !is_end && !line.word.is_empty() {
            lines.push(line)?;
        } else if !lines.is_empty() {
            let lines = mem::replace(&mut lines, Vec::new(alloc));
            rows.push(Row {
                lines,
                is_ended: is_end,
            })?;
        }
    }
    if !lines.is_empty() {
        rows.push(Row {
            lines,
            is_ended: false,
        })?;
    }
    Ok(rows)
}

/// A line with this number. What stands before its first blank is its word.
fn read_line(number: usize, line: &str) -> Line<'_> {
    match line.split_once(' ') {
        Some((word, rest)) => Line { number, word, rest },
        None => Line {
            number,
            word: line,
            rest: "",
        },
    }
}
