// Labels and frames that have come to their ends (4.4.6.2, 4.4.7.2): an end takes no step.
ghost use Rattle.std.specs.Prelude.{◌≡◌, ◌+◌, ◌<◌, true, false, drop, length, Some, MatchOption, slice_get};
ghost use Rattle.zw_wasm.specs.Structure.{Ends, code_of};
ghost use Rattle.zw_wasm_run.specs.Rooms.{HoldsFewer, KeepsRoom};
ghost use Rattle.zw_wasm_run.specs.Running.{EndsFrame};
ghost use Rattle.zw_wasm_run.specs.Bodies.{body_of};
ghost use Rattle.zw_wasm_run.specs.Settling.{IsAtEnd, IsReached, IsStanding, closes};

use crate::code::Code;
use crate::stacks::{Stacks, end_frame, end_label};
use sqlite_items::at;
use zw_wasm::{Instr, Module};

/// The instruction that is due, as `settle` has it, where these are the instructions of the frame's body. Where none of them ends a
/// sequence at its place, nothing is looked up.
#[inline(always)]
pub fn next<'a>(code: &'a Code, instrs: &'a [Instr], stacks: &mut Stacks) -> Option<&'a Instr>
    requires standing { IsStanding code.now stacks.old }
    requires own { instrs.now ≡ body_of code.now stacks.old.frame.body }
    ensures due { MatchOption result (IsAtEnd code.now stacks.old stacks.new.words.items) (λ i. IsReached code.now stacks.old i.now stacks.new) }
    ensures room { KeepsRoom stacks.old stacks.new }
    ensures fewer { HoldsFewer stacks.old stacks.new }
{
    if let Some(instr) = due(instrs, stacks.frame.at) {
        return Some(instr);
    }
    settle(code, stacks)
}

/// The instruction that is due, behind the ends of labels and frames. The answer is none where the call has ended, and the
/// words are its results.
#[inline(never)]
fn settle<'a>(code: &'a Code, stacks: &mut Stacks) -> Option<&'a Instr>
    requires { IsStanding code.now stacks.old }
    ensures due { MatchOption result (IsAtEnd code.now stacks.old stacks.new.words.items) (λ i. IsReached code.now stacks.old i.now stacks.new) }
    ensures room { KeepsRoom stacks.old stacks.new }
    ensures fewer { HoldsFewer stacks.old stacks.new }
{
    'ends: loop {
        if let Some(instr) = due(code.instrs(stacks.frame.body), stacks.frame.at) {
            return Some(instr);
        }
        if !end_one(code.module(), stacks) {
            return None;
        }
    }
}

/// The instruction at a place, where no sequence ends there.
#[inline(always)]
fn due(instrs: &[Instr], place: usize) -> Option<&Instr>
    ensures { MatchOption result (code_of (drop place instrs.now) ≡ Ends) (λ i. (slice_get instrs.now place ≡ Some i.now) × (closes i.now ≡ false)) }
{
    let Some(instr) = at(instrs, place) else {
        return None;
    };
    match instr {
        Instr::End => None,
        Instr::Else => None,
        _ => Some(instr),
    }
}

/// The innermost label ends, or the frame where it has none. The answer is whether the call goes on.
fn end_one(m: &Module, stacks: &mut Stacks) -> bool
    requires { IsStanding m.now stacks.old }
    ensures ends { EndsFrame m.now stacks.old result stacks.new }
    ensures fewer { result ≡ true → length stacks.new.labels.items + length stacks.new.frames.items < length stacks.old.labels.items + length stacks.old.frames.items }
    ensures room { KeepsRoom stacks.old stacks.new }
    ensures holds { HoldsFewer stacks.old stacks.new }
{
    if stacks.frame.labels < stacks.labels.len() {
        end_label(stacks);
        return true;
    }
    end_frame(stacks)
}
