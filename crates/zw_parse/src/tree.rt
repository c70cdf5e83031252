// The tree of a text, node by node in preorder.
ghost use Rattle.std.specs.Prelude.{◌≡◌, ℕ, ◌≤◌, ◌<◌, ◌^◌, All, length, IfOk};
ghost use Rattle.zw_tree.specs.Trees.{Forest, map_forest};
ghost use Rattle.zw_grammar.specs.Building.{Span};
ghost use Rattle.zw_grammar.specs.declared.builder.Built.{Built};
ghost use Rattle.zw_token.specs.Tokens.{LiesIn, DoNotOverlap};
ghost use Rattle.zw_parse.specs.Order.{IsTree};
ghost use Rattle.zw_parse.specs.Spellings.{IsOneCharacter};
ghost use Rattle.zw_parse.specs.Entries.{entry_at, entry_of, span_of, ArePlaces, IsWithin};

use crate::order::preorder;
use crate::places::places;
use crate::spelling::{name_spelled, number_spelled, spelled_by};
use std::alloc::Global;
use zw_base::{Oom, Place};
use zw_grammar::Built;
use zw_token::Token;
use zw_tree::{Ast, Node};

// What a node says.
#[derive(Debug, Drop)]
struct Said {
    node: Node,
    name: Vec<u8>,
    number: Option<i128>,
}

// What the node says, whose tokens are in these lists.
fn describe(
    alloc: Global,
    text: &[u8],
    tokens: &[Token],
    places: &[Place],
    built: Built,
) -> Result<Said, Oom>
    requires within { IsWithin tokens.now built }
    requires tokens { All (LiesIn text.now) tokens.now }
    requires characters { All (IsOneCharacter text.now) tokens.now }
    requires places { length places.now ≡ length tokens.now }
    ensures { IfOk result (λ said. (file : ℕ) → ArePlaces file text.now tokens.now places.now → entry_of said ≡ entry_at file text.now tokens.now (span_of built)) }
{
    let first = built.first as usize;
    let own = &tokens[first..built.last as usize + 1];
    let spelling = spelled_by(built.kind);
    let number = number_spelled(spelling, text, &own[0]);
    let name = name_spelled(alloc, spelling, text, own)?;
    let node = Node {
        kind: built.kind,
        place: places[first],
        first: built.first,
        last: built.last,
    };
    Ok(Said { node, name, number })
}

/// The tree whose nodes are listed in the order in which they end, each with what it stands for in the text.
pub fn tree_of(
    alloc: Global,
    file: u32,
    text: &[u8],
    tokens: &[Token],
    nodes: &[Built],
) -> Result<Ast, Oom>
    requires short { length text.now ≤ 4194304 }
    requires tokens { All (LiesIn text.now) tokens.now }
    requires characters { All (IsOneCharacter text.now) tokens.now }
    requires apart { DoNotOverlap tokens.now }
    requires tree { (forest : Forest Span) × IsTree nodes.now forest }
    requires nodes { length nodes.now < 2 ^ 32 }
    requires within { All (IsWithin tokens.now) nodes.now }
    ensures { IfOk result (λ ast. (forest : Forest Span) → IsTree nodes.now forest → ast ≡ map_forest (entry_at file text.now tokens.now) forest) }
{
    let places = places(alloc, file, text, tokens)?;
    let order = preorder(alloc, nodes)?;
    let mut ast = Ast::new(alloc);
    for next in &order {
        let said = describe(alloc, text, tokens, &places, next.node)?;
        ast.add(next.parent, said.node, said.name, said.number)?;
    }
    Ok(ast)
}
