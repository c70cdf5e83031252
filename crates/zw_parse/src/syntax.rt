// The tree of a text, or its stop by the grammar.
ghost use Rattle.std.specs.Prelude.{◌≡◌, ◌≤◌, All, drop, length, IfOk, IfErr};
ghost use Rattle.zw_token.specs.Tokens.{Tokens, LiesIn};
ghost use Rattle.zw_parse_expr.specs.Files.{FileEnds};
ghost use Rattle.zw_parse_expr.specs.Lexemes.{lexemes};
ghost use Rattle.zw_parse.specs.Entries.{first_start};
ghost use Rattle.zw_parse.specs.Syntax.{IsTreeOf, IsSyntaxRefusal, stop_of};

use crate::places::place_of;
use crate::tree::tree_of;
use std::alloc::Global;
use zw_base::{Oom, Refused, Stop, StopKind};
use zw_grammar::{Builder, End};
use zw_parse_expr::root;
use zw_token::Token;
use zw_tree::{Ast, NodeKind};

/// The number of the error of a text that isn't grammatical.
pub const SYNTAX: u16 = 6;

/// The number of the limit on how deep rules nest.
pub const NESTING: u16 = 3;

// Where the token with this number begins.
fn start_at(tokens: &[Token], number: u32) -> usize
    ensures { result ≡ first_start (drop number tokens.now) }
{
    match tokens.get(number as usize) {
        Some(token) => token.start as usize,
        None => 0,
    }
}

// The stop at the token with this number.
fn stop_of(kind: StopKind, file: u32, text: &[u8], tokens: &[Token], number: u32) -> Refused
    requires short { length text.now ≤ 4194304 }
    requires within { All (LiesIn text.now) tokens.now }
    ensures { result ≡ Refused.Stop (stop_of kind file text.now tokens.now number) }
{
    let start = start_at(tokens, number);
    let place = place_of(file, text, start);
    Refused::Stop(Stop { kind, place })
}

// The tree of a file whose members the builder has read up to the token with this number, its last.
fn file_tree(
    alloc: Global,
    file: u32,
    text: &[u8],
    tokens: &[Token],
    mut builder: Builder,
    last: u32,
) -> Result<Ast, Oom>
    requires short { length text.now ≤ 4194304 }
    requires tokens { Tokens text.now tokens.now }
    requires read { FileEnds (lexemes text.now tokens.now) builder (End.Read last) }
    ensures { IfOk result (λ ast. IsTreeOf file text.now tokens.now ast) }
{
    builder.enclose(NodeKind::Root, last)?;
    let nodes = builder.nodes();
    let ast = tree_of(alloc, file, text, tokens, nodes)?;
    Ok(ast)
}

/// The tree of a text of the file with this number, from all its tokens. The text has at most 4,194,304 bytes.
///
/// A text that isn't grammatical stops at the first token after which no grammatical text goes on (error 6), and one in which
/// more than 256 declarations, statements, expressions and types are nested at the token that begins the next one (limit 3),
/// whichever stands first; at one token it is error 6 (Zig Language Reference 0.13.0, Grammar; the numbers are this project's
/// own).
pub fn parse(alloc: Global, file: u32, text: &[u8], tokens: &[Token]) -> Result<Ast, Refused>
    requires tokens { Tokens text.now tokens.now }
    requires short { length text.now ≤ 4194304 }
    ensures tree { IfOk result (λ ast. IsTreeOf file text.now tokens.now ast) }
    ensures stop { IfErr result (λ refused. IsSyntaxRefusal file text.now tokens.now refused) }
{
    let mut builder = Builder::new(alloc);
    match root(alloc, text, tokens, &mut builder)? {
        End::Read(last) => {
            let ast = file_tree(alloc, file, text, tokens, builder, last)?;
            Ok(ast)
        }
        End::Wrong(number) => Err(stop_of(StopKind::Error(SYNTAX), file, text, tokens, number)),
        End::Nested(number) => Err(stop_of(StopKind::Limit(NESTING), file, text, tokens, number)),
    }
}
