// The reader of a text of the form, from its bytes to its program.
ghost use Rattle.std.specs.Prelude.{◌≤◌, length, IfOk, IfErr};
ghost use Rattle.zw_form.specs.Form.{IsProgramOf, IsRefusal};
ghost use Rattle.zw_parse.specs.Syntax.{IsTreeOf};
ghost use Rattle.zw_token.specs.Tokens.{Tokens};

use crate::Program;
use crate::members::{counting, first_stop, functions_of, weight_stop};
use crate::nodes::children;
use crate::resolve::program_of;
use std::alloc::Global;
use zw_base::Refused;
use zw_parse::parse;
use zw_token::{Token, tokens};
use zw_tree::Ast;

/// The program of a text of the form, which has at most 4,194,304 bytes. Any other text is a stop: where it has no tokens its own
/// (errors 3, 4, 5 and 7), where it has no tree that of the grammar (error 6, limit 3), and else the first of its members (error 36,
/// limit 5), or behind these the first weight that is too great (limit 11).
pub fn read_form(alloc: Global, text: &[u8]) -> Result<Program, Refused>
    requires { length text.now ≤ 4194304 }
    ensures program { IfOk result (IsProgramOf text.now) }
    ensures refused { IfErr result (IsRefusal text.now) }
{
    let tokens = tokens(alloc, 0, text)?;
    let ast = parse(alloc, 0, text, &tokens)?;
    read_file(alloc, text, &tokens, &ast)
}

/// The program of a file with this tree.
fn read_file(alloc: Global, text: &[u8], tokens: &[Token], ast: &Ast) -> Result<Program, Refused>
    requires tokens { Tokens text.now tokens.now }
    requires tree { IsTreeOf 0 text.now tokens.now ast.now }
    ensures program { IfOk result (IsProgramOf text.now) }
    ensures refused { IfErr result (IsRefusal text.now) }
{
    let members = counting(alloc, text, tokens, ast, children(ast, 0))?;
    let members = members.as_slice();
    let functions = functions_of(alloc, text, tokens, ast, members)?;
    if let Some(stop) = first_stop(alloc, ast, members, &functions)? {
        return Err(Refused::Stop(stop));
    }
    if let Some(stop) = weight_stop(ast, members, &functions) {
        return Err(Refused::Stop(stop));
    }
    Ok(program_of(alloc, &functions.names, functions.list.as_slice())?)
}
