// What a file's own text says.
ghost use Rattle.std.specs.Prelude.{◌≤◌, length, IfOk, IfErr};
ghost use Rattle.zw_files.specs.Discovery.{HasTree};
ghost use Rattle.zw_files.specs.Gathering.{IsReadRefusal};

use std::alloc::Global;
use zw_base::Refused;
use zw_parse::parse;
use zw_scope::check_names;
use zw_token::tokens;
use zw_tree::Ast;

/// The tree of a text, the file with this number. A text that isn't read is its stop: where it has no tokens (errors 3, 4, 5 and 7),
/// no tree (error 6, limit 3), or a tree that breaks the rules on names, labels and jumps (errors 8 to 13).
pub(crate) fn read(alloc: Global, number: u32, text: &[u8]) -> Result<Ast, Refused>
    requires { length text.now ≤ 4194304 }
    ensures tree { IfOk result (HasTree number text.now) }
    ensures refused { IfErr result (IsReadRefusal number text.now) }
{
    let tokens = match tokens(alloc, number, text) {
        Ok(tokens) => tokens,
        Err(refused) => return Err(refused),
    };
    let ast = match parse(alloc, number, text, &tokens) {
        Ok(ast) => ast,
        Err(refused) => return Err(refused),
    };
    match check_names(alloc, &ast) {
        Ok(()) => Ok(ast),
        Err(refused) => Err(refused),
    }
}
