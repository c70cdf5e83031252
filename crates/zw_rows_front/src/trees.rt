// Rows of trees: the tree of a text, or where the text stops by the grammar.
use std::alloc::Global;
use zw_base::{Oom, Refused, Stop, StopKind};
use zw_parse::parse;
use zw_rows_base::{Field, Mistake, Problem, Report, case_of};
use zw_token::tokens;
use zw_tree::Ast;

/// The greatest number of bytes in a text that has tokens.
const TEXT_LIMIT: usize = 4_194_304;

/// The tree of a text of the file 0, or its stop.
fn tree(alloc: Global, field: &Field<'_>, text: &[u8]) -> Result<Result<Ast, Stop>, Mistake> {
    if text.len() > TEXT_LIMIT {
        return Err(field.wrong(Problem::Refused));
    }
    let tokens = match tokens(alloc, 0, text) {
        Ok(list) => list,
        Err(Refused::Stop(stop)) => return Ok(Err(stop)),
        Err(Refused::Oom) => return Err(Mistake::Oom),
    };
    match parse(alloc, 0, text, &tokens) {
        Ok(ast) => Ok(Ok(ast)),
        Err(Refused::Stop(stop)) => Ok(Err(stop)),
        Err(Refused::Oom) => Err(Mistake::Oom),
    }
}

/// A stop as a row has it.
fn shown_stop(alloc: Global, stop: Stop) -> Result<String, Oom> {
    let line = stop.place.line;
    let column = stop.place.column;
    match stop.kind {
        StopKind::Error(number) => format!(in alloc; "{line}:{column}: error {number}"),
        StopKind::Limit(number) => format!(in alloc; "{line}:{column}: limit {number}"),
    }
}

/// How far below the root the node stands, by those before it.
fn depth_below(depths: &[u32], parent: Option<u32>) -> u32 {
    match parent {
        Some(parent) => match depths.get(parent as usize) {
            Some(depth) => depth.saturating_add(1),
            None => 0,
        },
        None => 0,
    }
}

/// The nodes in preorder, one in a line: how far it stands below the root, its kind, its first and its last token.
fn shown_tree(alloc: Global, ast: &Ast) -> Result<String, Oom> {
    let mut text = String::new(alloc);
    let mut depths = Vec::new(alloc);
    for n in 0..ast.count() {
        let node = ast.node(n);
        let depth = depth_below(&depths, ast.parent(n));
        depths.push(depth)?;
        let kind = node.kind;
        let first = node.first;
        let last = node.last;
        write!(text, "{depth} {kind:?} {first} {last}\n")?;
    }
    Ok(text)
}

/// What a row's lines want, a line each.
fn wanted_lines(alloc: Global, fields: &[Field<'_>]) -> Result<String, Oom> {
    let mut text = String::new(alloc);
    for field in fields {
        let word = field.line.word;
        let rest = field.line.rest;
        write!(text, "{word} {rest}\n")?;
    }
    Ok(text)
}

/// A tree as a row has it, by its nodes or by their number alone.
fn shown_as(alloc: Global, ast: &Ast, by_number: bool) -> Result<String, Oom> {
    if by_number {
        let count = ast.count();
        return format!(in alloc; "nodes {count}\n");
    }
    shown_tree(alloc, ast)
}

/// `trees NAME` and a text. What is wanted is a line `DEPTH KIND FIRST LAST` for each node of its tree in preorder, or their number
/// alone by `nodes N`, or the stop by `stop LINE:COLUMN: error N` or `stop LINE:COLUMN: limit N`.
pub fn check_trees(
    alloc: Global,
    head: &Field<'_>,
    fields: &[Field<'_>],
) -> Result<Report, Mistake> {
    let mut report = Report::new(alloc);
    let came = match tree(alloc, head, &head.bytes)? {
        Ok(ast) => {
            let by_number = fields.iter().any(|field| field.line.word == "nodes");
            shown_as(alloc, &ast, by_number)?
        }
        Err(stop) => {
            let stop = shown_stop(alloc, stop)?;
            format!(in alloc; "stop {stop}\n")?
        }
    };
    let wanted = wanted_lines(alloc, fields)?;
    report.compare("tree", came.as_bytes(), wanted.as_bytes())?;
    Ok(report)
}

/// `tree-stops NAME`: lines `of TEXT`, a tab, and the stop, `LINE:COLUMN: error N` or `LINE:COLUMN: limit N`, or `none` where the text has a
/// tree. The text has escapes.
pub fn check_stops(alloc: Global, fields: &[Field<'_>]) -> Result<Report, Mistake> {
    let mut report = Report::new(alloc);
    for field in fields {
        let case = case_of(alloc, field.line)?;
        let came = match tree(alloc, field, &case.bytes)? {
            Ok(_) => String::from_str(alloc, "none")?,
            Err(stop) => shown_stop(alloc, stop)?,
        };
        report.compare(case.text, came.as_bytes(), case.wanted.as_bytes())?;
    }
    Ok(report)
}

/// `nodes NAME` and a text. What is wanted is a line `PARENT NAME NUMBER CHILD..` for each node of its tree in preorder: the numbers of its
/// parent and its children, the name and the number that it has, and `-` for none.
pub fn check_nodes(
    alloc: Global,
    head: &Field<'_>,
    fields: &[Field<'_>],
) -> Result<Report, Mistake> {
    let mut report = Report::new(alloc);
    let came = match tree(alloc, head, &head.bytes)? {
        Ok(ast) => shown_nodes(alloc, &ast)?,
        Err(_) => return Err(head.wrong(Problem::Refused)),
    };
    let wanted = wanted_lines(alloc, fields)?;
    report.compare("nodes", came.as_bytes(), wanted.as_bytes())?;
    Ok(report)
}

/// The nodes in preorder, one in a line.
fn shown_nodes(alloc: Global, ast: &Ast) -> Result<String, Oom> {
    let mut text = String::new(alloc);
    for n in 0..ast.count() {
        match ast.parent(n) {
            Some(parent) => write!(text, "{parent}")?,
            None => text.push_str("-")?,
        }
        add_name(&mut text, ast.name(n))?;
        match ast.number(n) {
            Some(number) => write!(text, " {number}")?,
            None => text.push_str(" -")?,
        }
        add_children(&mut text, ast.children(n))?;
    }
    Ok(text)
}

/// Adds a name, or `-` for none.
fn add_name(text: &mut String, name: &[u8]) -> Result<(), Oom> {
    text.push_str(" ")?;
    if name.is_empty() {
        text.push_str("-")?;
    }
    for byte in name {
        text.push(char::from(*byte))?;
    }
    Ok(())
}

/// Adds the numbers of children, and ends the line.
fn add_children(text: &mut String, children: &[u32]) -> Result<(), Oom> {
    for child in children {
        write!(text, " {child}")?;
    }
    text.push_str("\n")
}
