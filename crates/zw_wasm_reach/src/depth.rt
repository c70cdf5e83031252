// How deep code nests.
ghost use Rattle.std.specs.Prelude.{◌≡◌, ◌+◌, ◌<◌, ◌≤◌, List, ◌∷◌, max};
ghost use Rattle.zw_wasm.specs.declared.module.Instr.{Instr};
ghost use Rattle.zw_wasm_reach.specs.Counts as counts;

use zw_wasm::{Instr, Module};

/// How many blocks, loops and ifs of a module's functions are open within each other at most. One pass over the code.
pub fn deepest(m: &Module) -> usize
    ensures { result ≡ counts.deepest m.now }
{
    let mut greatest = 0;
    for body in m.codes.as_slice() {
        greatest = greatest.max(most_open(body.instrs.as_slice()));
    }
    greatest
}

/// The same of one body's code.
fn most_open(instrs: &[Instr]) -> usize
    ensures { result ≡ counts.most_open 0 instrs.now }
{
    let mut open = 0;
    let mut greatest = 0;
    for instr in instrs {
        greatest = greatest.max(open);
        open = open_behind(open, instr);
    }
    greatest.max(open)
}

/// How many are open behind an instruction that so many are open before.
fn open_behind(before: usize, instr: &Instr) -> usize
    requires { before < usize.MAX }
    ensures most { (is : List Instr) → counts.most_open before (instr.now ∷ is) ≡ max before (counts.most_open result is) }
    ensures by_one { result ≤ before + 1 }
{
    match instr {
        Instr::Block(_) | Instr::Loop(_) | Instr::If(_) => before + 1,
        Instr::End => before.saturating_sub(1),
        _ => before,
    }
}
