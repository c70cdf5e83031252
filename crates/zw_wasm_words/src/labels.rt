// Branches and returns among the words of a machine (4.4.5.6, 4.4.5.9, 4.4.7.2).
ghost use Rattle.std.specs.Prelude.{◌≡◌, ◌+◌, ◌-◌, ◌≤◌, ◌++◌, drop, length, take, vec_capacity};
ghost use Rattle.zw_wasm_words.specs.Frames.{BranchesOn, KeepsResults, LocalsFit, ReturnsOn};

use crate::frame::{Frame, Label};

/// Drops the operands between those below a label and those that a branch to it takes.
#[inline(always)]
pub fn unwind(label: &Label, stack: &mut Vec<u64>)
    requires { label.now.height + label.now.arity ≤ length stack.old.items }
    ensures branches { BranchesOn label.now stack.old.items stack.new.items }
    ensures fewer { length stack.new.items ≤ length stack.old.items }
    ensures room { vec_capacity stack.old ≤ vec_capacity stack.new }
{
    let kept = stack.len() - label.arity;
    drop_between(label.height, kept, stack);
}

/// Drops the operands that a return doesn't keep (4.4.5.9), and keeps the locals, as the frame has yet to end.
pub fn keep_results(frame: &Frame, stack: &mut Vec<u64>)
    requires { frame.now.operands + frame.now.arity ≤ length stack.old.items }
    ensures keeps { KeepsResults frame.now stack.old.items stack.new.items }
    ensures fewer { length stack.new.items ≤ length stack.old.items }
    ensures room { vec_capacity stack.old ≤ vec_capacity stack.new }
{
    let kept = stack.len() - frame.arity;
    drop_between(frame.operands, kept, stack);
}

/// Drops the locals of a frame at its end, so that its operands are results, which lie on the words of lower frames.
pub fn leave(frame: &Frame, stack: &mut Vec<u64>)
    requires { LocalsFit frame.now stack.old.items }
    ensures returns { ReturnsOn frame.now stack.old.items stack.new.items }
    ensures fewer { length stack.new.items ≤ length stack.old.items }
    ensures room { vec_capacity stack.old ≤ vec_capacity stack.new }
{
    drop_between(frame.locals, frame.operands, stack);
}

/// Drops the words from the one place up to the other.
fn drop_between(first: usize, behind: usize, stack: &mut Vec<u64>)
    requires order { first ≤ behind }
    requires inside { behind ≤ length stack.old.items }
    ensures items { stack.new.items ≡ take first stack.old.items ++ drop behind stack.old.items }
    ensures fewer { length stack.new.items ≤ length stack.old.items }
    ensures room { vec_capacity stack.old ≤ vec_capacity stack.new }
{
    let count = stack.len();
    stack.copy_within(behind..count, first);
    stack.truncate(first + (count - behind));
}
