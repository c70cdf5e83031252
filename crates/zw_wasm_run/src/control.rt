// Where the sequences of a body's flat code end (4.2.12, 5.4.1).
ghost use Rattle.std.specs.Prelude.{◌+◌, ◌<◌, length, IfOk};
ghost use Rattle.zw_wasm_run.specs.Control.{AreArms, AreEnds, AreEndsFrom, IsEnd};

use std::alloc::{AllocError, Global};
use zw_wasm::Instr;

/// The end of a sequence: the place behind its `else` or `end`, and whether it is an `else`. A sequence that has
/// neither ends behind the last instruction.
#[derive(Clone, Copy, Debug)]
pub struct SequenceEnd {
    pub next: usize,
    pub by_else: bool,
}

/// For each place in the code, and for that behind it, where the sequence ends that begins there.
pub fn sequence_ends(alloc: Global, instrs: &[Instr]) -> Result<Vec<SequenceEnd>, AllocError>
    ensures { IfOk result (λ ends. AreEnds instrs.now ends.items) }
{
    let last = SequenceEnd {
        next: instrs.len(),
        by_else: false,
    };
    let mut ends = vec![in alloc; last; instrs.len() + 1]?;
    for place in (0..instrs.len()).rev() {
        ends[place] = sequence_end(instrs, place, &ends);
    }
    Ok(ends)
}

/// Where the sequence ends that begins at a place, from where those end that begin behind it.
fn sequence_end(instrs: &[Instr], place: usize, ends: &[SequenceEnd]) -> SequenceEnd
    requires inside { place < length instrs.now }
    requires behind { AreEndsFrom instrs.now (place + 1) ends.now }
    ensures { IsEnd instrs.now place result }
{
    match instrs[place] {
        Instr::End => SequenceEnd {
            next: place + 1,
            by_else: false,
        },
        Instr::Else => SequenceEnd {
            next: place + 1,
            by_else: true,
        },
        Instr::Block(_) | Instr::Loop(_) => ends[ends[place + 1].next],
        Instr::If(_) => ends[arms_at(instrs, ends, place).follows],
        _ => ends[place + 1],
    }
}

/// The places of what an `if` chooses from: the code for an operand that isn't 0, and that for 0, which is nothing where
/// there is no `else`; and of what follows both.
#[derive(Clone, Copy, Debug)]
pub struct Arms {
    pub then_code: usize,
    pub else_code: usize,
    pub follows: usize,
}

/// The arms of the `if` that stands at a place.
#[inline(always)]
pub fn arms_at(instrs: &[Instr], ends: &[SequenceEnd], place: usize) -> Arms
    requires inside { place < length instrs.now }
    requires behind { AreEndsFrom instrs.now (place + 1) ends.now }
    ensures { AreArms instrs.now place result }
{
    let then_code = place + 1;
    let end = ends[then_code];
    if end.by_else {
        Arms {
            then_code,
            else_code: end.next,
            follows: ends[end.next].next,
        }
    } else {
        Arms {
            then_code,
            else_code: instrs.len(),
            follows: end.next,
        }
    }
}
