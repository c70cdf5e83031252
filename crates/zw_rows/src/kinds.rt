// The kinds of rows: one call for each, and one arm.
mod command;
mod session;

use command::{check_build, check_commands};
use session::{check_machine, check_session};
use std::alloc::Global;
use zw_rows_base::{Field, Mistake, Problem, Report};
use zw_rows_front::{
    check_bodies, check_chars, check_decimals, check_lists, check_names, check_nodes,
    check_numbers, check_sink, check_source, check_tables, check_texts, check_tokens, check_trees,
};
use zw_rows_modules::{check_code, check_leb, check_reads, check_runs, check_written};
use zw_rows_values::{check_applied, check_coercions, check_num, check_parts, check_types};

/// Runs a row of these fields by its kind, which is the word of its head.
pub fn check(alloc: Global, fields: &[Field<'_>]) -> Result<Report, Mistake> {
    let Some((head, fields)) = fields.split_first() else {
        return Err(Mistake::Wrong(0, Problem::UnknownKind));
    };
    match head.line.word {
        "zig" => check_commands(alloc, fields),
        "build" => check_build(alloc, head, fields),
        "stops" => command::check_stops(alloc, fields),
        "session" => check_session(alloc, head, fields),
        "machine" => check_machine(alloc, head, fields),
        _ => of_tokens(alloc, head, fields),
    }
}

/// The same of the kinds of rows of tokens.
fn of_tokens(alloc: Global, head: &Field<'_>, fields: &[Field<'_>]) -> Result<Report, Mistake> {
    match head.line.word {
        "tokens" => check_tokens(alloc, head, fields),
        "token-lists" => check_lists(alloc, fields),
        "names" => check_names(alloc, fields),
        "tables" => check_tables(alloc, fields),
        "numbers" => check_numbers(alloc, fields),
        "chars" => check_chars(alloc, fields),
        "texts" => check_texts(alloc, fields),
        _ => of_trees(alloc, head, fields),
    }
}

/// The same of the kinds of rows of trees, and of an input and an output.
fn of_trees(alloc: Global, head: &Field<'_>, fields: &[Field<'_>]) -> Result<Report, Mistake> {
    match head.line.word {
        "trees" => check_trees(alloc, head, fields),
        "tree-stops" => zw_rows_front::check_stops(alloc, fields),
        "nodes" => check_nodes(alloc, head, fields),
        "bodies" => check_bodies(alloc, fields),
        "source" => check_source(alloc, head, fields),
        "sink" => check_sink(alloc, fields),
        "decimals" => check_decimals(alloc, fields),
        _ => of_values(alloc, head, fields),
    }
}

/// The same of the kinds of rows of the bytes of modules, and of types and values.
fn of_values(alloc: Global, head: &Field<'_>, fields: &[Field<'_>]) -> Result<Report, Mistake> {
    match head.line.word {
        "reads" => check_reads(alloc, fields),
        "written" => check_written(alloc, fields),
        "leb" => check_leb(alloc, fields),
        "num" => check_num(alloc, fields),
        "types" => check_types(alloc, fields),
        "parts" => check_parts(alloc, fields),
        "coercions" => check_coercions(alloc, fields),
        "apply" => check_applied(alloc, fields),
        "code" => check_code(alloc, fields),
        "runs" => check_runs(alloc, fields),
        _ => Err(head.wrong(Problem::UnknownKind)),
    }
}
