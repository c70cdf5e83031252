//! The program that runs the table of worked rows, which is read from the standard input, and prints of each row whether what
//! came is what was wanted; the head of the table says how a row is written. It must not know: what is right: expected values
//! stand in the table alone.
#![tactic(auto)]

mod kinds;

use std::alloc::Global;
use std::io;
use std::process::ExitCode;
use zw_rows_base::{Field, Mistake, Report, Row, fields_of, rows_of};

fn main(rt: HostRuntime) -> ExitCode {
    match run(&rt) {
        Ok(true) => ExitCode::SUCCESS,
        _ => ExitCode::FAILURE,
    }
}

/// Runs the rows of the table, and says whether all are right.
fn run<R: Input + Print + AllocGlobal>(rt: &R) -> io::Result<bool> {
    let alloc = rt.alloc();
    let text = io::read_to_string(alloc, rt.reader())?;
    let rows = rows_of(alloc, text.as_str())?;
    let mut named = Vec::new(alloc);
    let mut right = 0u64;
    let mut differ = 0u64;
    for row in &rows {
        match run_row(alloc, row, &mut named) {
            Ok(Outcome::Named) => {}
            Ok(Outcome::Ran(report)) => {
                let is_right = report.is_right();
                print_report(rt, row, &report)?;
                if is_right {
                    right = right.saturating_add(1);
                } else {
                    differ = differ.saturating_add(1);
                }
            }
            Err(mistake) => {
                print_mistake(rt, row, &mistake)?;
                return Ok(false);
            }
        }
    }
    let count = right.saturating_add(differ);
    println!(rt; "{count} rows, {differ} differ")?;
    Ok(differ == 0)
}

/// What a row came to.
#[derive(Drop)]
enum Outcome {
    /// It gives bytes a name.
    Named,
    /// It was run.
    Ran(Report),
}

/// Runs a row, or keeps the bytes that it names.
fn run_row<'a>(
    alloc: Global,
    row: &Row<'a>,
    named: &mut Vec<Field<'a>>,
) -> Result<Outcome, Mistake> {
    let mut fields = fields_of(alloc, row, named)?;
    if row.kind() == "bytes" {
        named.append(&mut fields)?;
        return Ok(Outcome::Named);
    }
    Ok(Outcome::Ran(kinds::check(alloc, &fields)?))
}

/// Says that a row is right, or how what came differs from what was wanted.
fn print_report<R: Print>(rt: &R, row: &Row<'_>, report: &Report) -> io::Result<()> {
    let kind = row.kind();
    let name = row.name();
    if report.is_right() {
        return println!(rt; "ok {kind} {name}");
    }
    let line = row.line();
    println!(rt; "differs {kind} {name} (line {line})")?;
    rt.print(report.text())
}

/// Says which line of the table is wrong.
fn print_mistake<R: Print>(rt: &R, row: &Row<'_>, mistake: &Mistake) -> io::Result<()> {
    let kind = row.kind();
    let name = row.name();
    println!(rt; "wrong {kind} {name}: {mistake}")
}
