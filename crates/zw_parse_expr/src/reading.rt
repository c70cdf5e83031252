// Reading one rule of the grammar.
ghost use Rattle.std.specs.Prelude.{◌<◌, ◌^◌, [], ◌∷◌, length, IfOk};
ghost use Rattle.zw_grammar.specs.declared.grammar.Symbol.TheVariants.{Read};
ghost use Rattle.zw_grammar.specs.Building.{nothing};
ghost use Rattle.zw_grammar.specs.Completions.{CanComplete};
ghost use Rattle.zw_grammar.specs.Ends.{Ends};
ghost use Rattle.zw_grammar.specs.Nodes.{Holds, nodes_of};
ghost use Rattle.zw_token.specs.Tokens.{Tokens};
ghost use Rattle.zw_parse_expr.specs.Files.{FileEnds};
ghost use Rattle.zw_parse_expr.specs.Lexemes.{AreTokens, lexemes, terminals_of};
ghost use Rattle.zw_parse_expr.specs.Parts.{PartEnds};
ghost use Rattle.zw_parse_expr.specs.Rules.{rules};

use crate::rule::{EXPR, STRUCT_MEMBERS};
use crate::table::rules;
use crate::terminal::END;
use crate::terminals::terminals;
use std::alloc::Global;
use zw_base::Oom;
use zw_grammar::{Builder, End, Symbol, read};
use zw_token::{Token, tokens_in_order};

// Reads the rule with this number.
fn read_rule(
    alloc: Global,
    number: u8,
    text: &[u8],
    tokens: &[Token],
    from: u32,
    into: &mut Builder,
) -> Result<End, Oom>
    requires complete { CanComplete rules (Read number ∷ []) END }
    requires tokens { AreTokens text.now tokens.now }
    requires length { length tokens.now < 2 ^ 32 }
    requires from { from < length tokens.now }
    ensures { IfOk result (λ end. Ends rules (Read number ∷ []) (terminals_of (lexemes text.now tokens.now)) from (nodes_of into.old) into.new end) }
{
    let rules = rules(alloc)?;
    let terminals = terminals(alloc, text, tokens)?;
    let start = [Symbol::Read(number)];
    read(
        alloc,
        rules.as_slice(),
        &start,
        terminals.as_slice(),
        from as usize,
        into,
    )
}

/// Reads one expression from the token with the number `from` on. What is built stands behind the nodes that the builder has, which
/// stay as they are. The tokens are those of the text, fewer than 2^32, up to its end.
pub fn expr(
    alloc: Global,
    text: &[u8],
    tokens: &[Token],
    from: u32,
    into: &mut Builder,
) -> Result<End, Oom>
    requires tokens { Tokens text.now tokens.now }
    requires length { length tokens.now < 2 ^ 32 }
    requires from { from < length tokens.now }
    ensures terminals { IfOk result (λ end. Ends rules (Read EXPR ∷ []) (terminals_of (lexemes text.now tokens.now)) from (nodes_of into.old) into.new end) }
    ensures tokens { IfOk result (λ end. PartEnds (Read EXPR ∷ []) (lexemes text.now tokens.now) from (nodes_of into.old) into.new end) }
{
    tokens_in_order();
    read_rule(alloc, EXPR, text, tokens, from, into)
}

/// Reads the members of a struct, as those of a file are, from the token with the number `from` on. What is built stands behind the
/// nodes that the builder has, which stay as they are. The tokens are those of the text, fewer than 2^32, up to its end.
pub fn body(
    alloc: Global,
    text: &[u8],
    tokens: &[Token],
    from: u32,
    into: &mut Builder,
) -> Result<End, Oom>
    requires tokens { Tokens text.now tokens.now }
    requires length { length tokens.now < 2 ^ 32 }
    requires from { from < length tokens.now }
    ensures terminals { IfOk result (λ end. Ends rules (Read STRUCT_MEMBERS ∷ []) (terminals_of (lexemes text.now tokens.now)) from (nodes_of into.old) into.new end) }
    ensures tokens { IfOk result (λ end. PartEnds (Read STRUCT_MEMBERS ∷ []) (lexemes text.now tokens.now) from (nodes_of into.old) into.new end) }
{
    tokens_in_order();
    read_rule(alloc, STRUCT_MEMBERS, text, tokens, from, into)
}

/// Reads a file: the members of a struct up to the end of its tokens, into a new builder. The tokens are those of the text, fewer
/// than 2^32, up to its end. `End::Read` tells the number of that end, `End::Wrong` the first token after which no file goes on, and
/// `End::Nested` the one that begins the first rule nested too deep, where no token up to it is wrong (Zig Language Reference 0.13.0,
/// Grammar, Root).
pub fn root(alloc: Global, text: &[u8], tokens: &[Token], into: &mut Builder) -> Result<End, Oom>
    requires tokens { Tokens text.now tokens.now }
    requires length { length tokens.now < 2 ^ 32 }
    requires fresh { Holds into.old nothing }
    ensures { IfOk result (λ end. FileEnds (lexemes text.now tokens.now) into.new end) }
{
    tokens_in_order();
    match read_rule(alloc, STRUCT_MEMBERS, text, tokens, 0, into)? {
        End::Read(to) if to as usize == tokens.len() - 1 => Ok(End::Read(to)),
        End::Read(to) => Ok(End::Wrong(to)),
        End::Wrong(place) => Ok(End::Wrong(place)),
        End::Nested(place) => Ok(End::Nested(place)),
    }
}
