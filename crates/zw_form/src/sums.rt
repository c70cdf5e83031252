// Sums, statements and bodies: from their nodes to steps. What is still to be read is a list of tasks, the next one last, so that
// neither a long chain nor a deep call takes more than the list.
ghost use Rattle.std.specs.Prelude.{◌≡◌, ℕ, ◌+◌, ◌-◌, ◌*◌, ◌≤◌, false, [], List, length, MatchBool, MatchOption, IfOk, map, Some, None};
ghost use Rattle.std.specs.Option.{option_map, option_and_then};
ghost use Rattle.zw_tree.specs.Numbering.{from, inside_first, siblings, after};
ghost use Rattle.zw_tree.specs.Trees.{count};
ghost use Rattle.zw_form.specs.Nodes.{mentioned, number_in, number_at, token_at, spelled, operated, call_in, sum_of, sums_of, statement_of, returned, body_of, each};
ghost use Rattle.zw_form.specs.Trees.{Parameter, Number};
ghost use Rattle.zw_form.specs.Work.{AreOperands, Begins, Finishes, Reads, sum_work, call_work, statements_work, body_work, done, task_work, tasks_weight};
ghost use Rattle.zw_token.specs.declared.token.Token.{Token};

use crate::nodes::{child, children, mentioned, number, role};
use crate::roles::Role;
use crate::source::{Callee, Step};
use sqlite_items::Items;
use std::alloc::Global;
use zw_base::Oom;
use zw_num::Arithmetic;
use zw_token::Token;
use zw_tree::Ast;

/// What is still to be done.
#[derive(Debug, Drop)]
enum Task {
    /// To read the nodes below a node, from the k-th on.
    Children(u32, u32),
    /// To take a step.
    Take(Step),
}

/// The steps of a function up to a place in it, the names of the functions that it calls up to there, and what is still to be
/// done in the statement or sum that is read.
#[derive(Debug, Drop)]
pub(crate) struct Reader {
    pub(crate) steps: Items<Step>,
    pub(crate) callees: Items<Items<u8>>,
    tasks: Vec<Task>,
}

/// Nothing is read yet.
pub(crate) fn new_reader(alloc: Global) -> Reader
    ensures steps { result.steps ≡ [] }
    ensures callees { result.callees ≡ [] }
    ensures tasks { result.tasks.items ≡ [] }
{
    Reader {
        steps: Items::new(alloc),
        callees: Items::new(alloc),
        tasks: Vec::new(alloc),
    }
}

/// How many arguments a call has, behind its callee. More than 2^32 - 1 end as want of memory does.
fn count_args(ast: &Ast, n: u32) -> Result<u32, Oom>
    ensures { IfOk result (λ args. args ≡ length (siblings (inside_first (from ast.now n))) - 1) }
{
    match u32::try_from(children(ast, n).len().saturating_sub(1)) {
        Ok(args) => Ok(args),
        Err(_) => Err(Oom),
    }
}

/// Begins to read a call. It is false where its callee is no name.
fn begin_call(
    alloc: Global,
    ast: &Ast,
    n: u32,
    has_result: bool,
    reader: &mut Reader,
) -> Result<bool, Oom>
    ensures begins { IfOk result (λ ok. (text : List ℕ) (tokens : List Token) → Begins text tokens ast.now ok reader.old reader.new
        (option_map (call_work has_result) (option_and_then call_in (sums_of text tokens (inside_first (from ast.now n)))))) }
    ensures weight { IfOk result (λ ok. tasks_weight ast.now reader.new.tasks.items ≤ tasks_weight ast.now reader.old.tasks.items + 3 * count (inside_first (from ast.now n)) + 2) }
{
    let Some(callee) = child(ast, n, 0) else {
        return Ok(false);
    };
    let Some(name) = mentioned(ast, callee) else {
        return Ok(false);
    };
    let args = count_args(ast, n)?;
    reader.callees.push(Items::from_slice(alloc, name)?)?;
    reader.tasks.push(Task::Take(Step::Call(Callee {
        name: Items::from_slice(alloc, name)?,
        args,
        has_result,
    })))?;
    reader.tasks.push(Task::Children(n, 1))?;
    Ok(true)
}

/// Whether these are two operands, of which at least one is no number.
fn are_operands(ast: &Ast, operands: &[u32]) -> bool
    ensures { MatchBool result
        (AreOperands (map (from ast.now) operands.now))
        (AreOperands (map (from ast.now) operands.now) → ⊥) }
{
    match operands {
        [left, right] => role(ast, *left) != Role::Number || role(ast, *right) != Role::Number,
        _ => false,
    }
}

/// Begins to read an operator with its operands. It is false where it hasn't two, or both are numbers.
fn begin_operator(ast: &Ast, n: u32, operator: Arithmetic, reader: &mut Reader) -> Result<bool, Oom>
    ensures begins { IfOk result (λ ok. (text : List ℕ) (tokens : List Token) → Begins text tokens ast.now ok reader.old reader.new
        (option_map sum_work (option_and_then (operated operator) (sums_of text tokens (inside_first (from ast.now n)))))) }
    ensures weight { IfOk result (λ ok. tasks_weight ast.now reader.new.tasks.items ≤ tasks_weight ast.now reader.old.tasks.items + 3 * count (inside_first (from ast.now n)) + 2) }
{
    if !are_operands(ast, children(ast, n)) {
        return Ok(false);
    }
    reader.tasks.push(Task::Take(Step::Operate(operator)))?;
    reader.tasks.push(Task::Children(n, 0))?;
    Ok(true)
}

/// Reads a parameter.
fn read_parameter(alloc: Global, ast: &Ast, n: u32, reader: &mut Reader) -> Result<bool, Oom>
    ensures begins { IfOk result (λ ok. (text : List ℕ) (tokens : List Token) → Begins text tokens ast.now ok reader.old reader.new
        (option_map sum_work (option_map Parameter (mentioned (from ast.now n))))) }
    ensures weight { IfOk result (λ ok. tasks_weight ast.now reader.new.tasks.items ≤ tasks_weight ast.now reader.old.tasks.items + 3 * count (inside_first (from ast.now n)) + 2) }
{
    let Some(name) = mentioned(ast, n) else {
        return Ok(false);
    };
    reader
        .steps
        .push(Step::Parameter(Items::from_slice(alloc, name)?))?;
    Ok(true)
}

/// Reads a number.
fn read_number(
    text: &[u8],
    tokens: &[Token],
    ast: &Ast,
    n: u32,
    reader: &mut Reader,
) -> Result<bool, Oom>
    ensures begins { IfOk result (λ ok. Begins text.now tokens.now ast.now ok reader.old reader.new
        (option_map sum_work (option_map Number (number_in (spelled text.now tokens.now (token_at (from ast.now n))) (number_at (from ast.now n)))))) }
    ensures weight { IfOk result (λ ok. tasks_weight ast.now reader.new.tasks.items ≤ tasks_weight ast.now reader.old.tasks.items + 3 * count (inside_first (from ast.now n)) + 2) }
{
    let Some(value) = number(text, tokens, ast, n) else {
        return Ok(false);
    };
    reader.steps.push(Step::Number(value))?;
    Ok(true)
}

/// Reads the root of a sum. What is below it is put before what is still to be done. It is false where the node is no sum.
fn read_node(
    alloc: Global,
    text: &[u8],
    tokens: &[Token],
    ast: &Ast,
    n: u32,
    reader: &mut Reader,
) -> Result<bool, Oom>
    ensures begins { IfOk result (λ ok. Begins text.now tokens.now ast.now ok reader.old reader.new
        (option_map sum_work (sum_of text.now tokens.now (from ast.now n)))) }
    ensures weight { IfOk result (λ ok. tasks_weight ast.now reader.new.tasks.items ≤ tasks_weight ast.now reader.old.tasks.items + 3 * count (inside_first (from ast.now n)) + 2) }
{
    match role(ast, n) {
        Role::Identifier => read_parameter(alloc, ast, n, reader),
        Role::QuotedIdentifier => read_parameter(alloc, ast, n, reader),
        Role::Number => read_number(text, tokens, ast, n, reader),
        Role::Operator(operator) => begin_operator(ast, n, operator, reader),
        Role::Call => begin_call(alloc, ast, n, true, reader),
        _ => Ok(false),
    }
}

/// Reads the nodes below a node, from the k-th on: the root of the first of them, and puts the others and what is below that root
/// before what is still to be done. It is false where it is no sum.
fn read_next(
    alloc: Global,
    text: &[u8],
    tokens: &[Token],
    ast: &Ast,
    n: u32,
    k: u32,
    reader: &mut Reader,
) -> Result<bool, Oom>
    ensures begins { IfOk result (λ ok. Begins text.now tokens.now ast.now ok reader.old reader.new (task_work text.now tokens.now ast.now (Task.Children n k))) }
    ensures weight { IfOk result (λ ok. tasks_weight ast.now reader.new.tasks.items ≤ tasks_weight ast.now reader.old.tasks.items + 3 * count (after k (inside_first (from ast.now n)))) }
{
    let Some(sum) = child(ast, n, k) else {
        return Ok(true);
    };
    let next = k.checked_add(1).ok_or(Oom)?;
    reader.tasks.push(Task::Children(n, next))?;
    read_node(alloc, text, tokens, ast, sum, reader)
}

/// Does what is still to be done. It is false where some node is no sum.
fn finish(
    alloc: Global,
    text: &[u8],
    tokens: &[Token],
    ast: &Ast,
    reader: &mut Reader,
) -> Result<bool, Oom>
    ensures { IfOk result (λ ok. Finishes text.now tokens.now ast.now ok reader.old reader.new) }
{
    while let Some(task) = reader.tasks.pop() {
        match task {
            Task::Take(step) => reader.steps.push(step)?,
            Task::Children(n, k) => {
                if !read_next(alloc, text, tokens, ast, n, k, reader)? {
                    return Ok(false);
                }
            }
        }
    }
    Ok(true)
}

/// Reads a statement: a call of a function without a result.
fn read_statement(
    alloc: Global,
    text: &[u8],
    tokens: &[Token],
    ast: &Ast,
    n: u32,
    reader: &mut Reader,
) -> Result<bool, Oom>
    requires { reader.old.tasks.items ≡ [] }
    ensures { IfOk result (λ ok. Reads ok reader.old reader.new
        (option_map (call_work false) (statement_of text.now tokens.now (from ast.now n)))) }
{
    let Role::Call = role(ast, n) else {
        return Ok(false);
    };
    if !begin_call(alloc, ast, n, false, reader)? {
        return Ok(false);
    }
    finish(alloc, text, tokens, ast, reader)
}

/// Reads statements, in their order.
fn read_statements(
    alloc: Global,
    text: &[u8],
    tokens: &[Token],
    ast: &Ast,
    nodes: &[u32],
    reader: &mut Reader,
) -> Result<bool, Oom>
    requires { reader.old.tasks.items ≡ [] }
    ensures { IfOk result (λ ok. Reads ok reader.old reader.new
        (option_map statements_work (each (statement_of text.now tokens.now) (map (from ast.now) nodes.now)))) }
{
    for n in nodes {
        if !read_statement(alloc, text, tokens, ast, *n, reader)? {
            return Ok(false);
        }
    }
    Ok(true)
}

/// Reads what is returned: one sum.
fn read_return(
    alloc: Global,
    text: &[u8],
    tokens: &[Token],
    ast: &Ast,
    n: u32,
    reader: &mut Reader,
) -> Result<bool, Oom>
    requires { reader.old.tasks.items ≡ [] }
    ensures { IfOk result (λ ok. Reads ok reader.old reader.new
        (option_map sum_work (returned text.now tokens.now (from ast.now n)))) }
{
    let Role::Return = role(ast, n) else {
        return Ok(false);
    };
    if children(ast, n).len() != 1 {
        return Ok(false);
    }
    reader.tasks.push(Task::Children(n, 0))?;
    finish(alloc, text, tokens, ast, reader)
}

/// Reads a body: its statements, and what it returns. It is `None` where the node is no body of the form.
pub(crate) fn read_body(
    alloc: Global,
    text: &[u8],
    tokens: &[Token],
    ast: &Ast,
    n: u32,
) -> Result<Option<Reader>, Oom>
    ensures { IfOk result (λ answer. MatchOption answer
        (body_of text.now tokens.now (from ast.now n) ≡ None)
        (λ reader. option_map body_work (body_of text.now tokens.now (from ast.now n)) ≡ done reader)) }
{
    let Role::Block = role(ast, n) else {
        return Ok(None);
    };
    let Some((last, statements)) = children(ast, n).split_last() else {
        return Ok(None);
    };
    let mut reader = new_reader(alloc);
    if !read_statements(alloc, text, tokens, ast, statements, &mut reader)? {
        return Ok(None);
    }
    if !read_return(alloc, text, tokens, ast, *last, &mut reader)? {
        return Ok(None);
    }
    Ok(Some(reader))
}
