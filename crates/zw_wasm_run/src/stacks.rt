// The stacks of a call that runs, and what moves all of them: branches, returns, and ends.
ghost use Rattle.std.specs.Prelude.{◌≡◌, ◌+◌, ◌-◌, ◌<◌, ◌≤◌, true, length};
ghost use Rattle.zw_wasm.specs.declared.module.Module.{Module};
ghost use Rattle.zw_wasm.specs.Reduction.{branched, returned};
ghost use Rattle.zw_wasm_words.specs.Frames.{LocalsFit};
ghost use Rattle.zw_wasm_run.specs.Running.{ActsOnStacks, EndsFrame, EndsLabel, body_of};
ghost use Rattle.zw_wasm_run.specs.Rooms.{HoldsFewer, KeepsRoom};

use zw_wasm_words::labels::{keep_results, leave, unwind};
use zw_wasm_words::{Effect, Frame, Label, NO_RULE};

/// The frame that runs, those that wait for it, the innermost last, and the labels and the words of all of them.
#[derive(Drop)]
pub struct Stacks {
    pub frame: Frame,
    pub frames: Vec<Frame>,
    pub labels: Vec<Label>,
    pub words: Vec<u64>,
}

/// A branch to the label with this number, from the innermost on; the one behind the last is the body's, where the code ends
/// at this place or before it (4.4.5.6).
#[inline(always)]
pub fn branch(n: usize, end: usize, stacks: &mut Stacks) -> Effect
    requires inside { stacks.old.frame.labels ≤ length stacks.old.labels.items }
    ensures acts { (m : Module) → length (body_of m stacks.old.frame.body) ≤ end → ActsOnStacks m (branched n) stacks.old result stacks.new }
    ensures room { KeepsRoom stacks.old stacks.new }
{
    let own = stacks.labels.len() - stacks.frame.labels;
    if n < own {
        return jump(n, stacks);
    }
    if n == own {
        return give_back(end, stacks);
    }
    Effect::Traps(NO_RULE)
}

/// A branch to a label that is there.
#[inline(always)]
fn jump(n: usize, stacks: &mut Stacks) -> Effect
    requires inside { stacks.old.frame.labels ≤ length stacks.old.labels.items }
    requires there { n < length stacks.old.labels.items - stacks.old.frame.labels }
    ensures acts { (m : Module) → ActsOnStacks m (branched n) stacks.old result stacks.new }
    ensures room { KeepsRoom stacks.old stacks.new }
{
    let place = stacks.labels.len() - 1 - n;
    let label = stacks.labels[place];
    if stacks.words.len() < label.arity || stacks.words.len() - label.arity < label.height {
        return Effect::Traps(NO_RULE);
    }
    unwind(&label, &mut stacks.words);
    stacks.labels.truncate(place);
    stacks.frame.at = label.target;
    Effect::Goes
}

/// A return goes on at the end of its frame, with its results, where the code ends at this place or before it (4.4.5.9).
pub fn give_back(end: usize, stacks: &mut Stacks) -> Effect
    requires inside { stacks.old.frame.labels ≤ length stacks.old.labels.items }
    ensures acts { (m : Module) → length (body_of m stacks.old.frame.body) ≤ end → ActsOnStacks m returned stacks.old result stacks.new }
    ensures room { KeepsRoom stacks.old stacks.new }
{
    let frame = stacks.frame;
    if stacks.words.len() < frame.arity || stacks.words.len() - frame.arity < frame.operands {
        return Effect::Traps(NO_RULE);
    }
    keep_results(&frame, &mut stacks.words);
    stacks.labels.truncate(frame.labels);
    stacks.frame.at = end;
    Effect::Goes
}

/// The innermost label ends, and its frame goes on behind it (4.4.6.2). No word moves.
pub fn end_label(stacks: &mut Stacks)
    requires own { stacks.old.frame.labels < length stacks.old.labels.items }
    ensures ends { (m : Module) → EndsLabel m stacks.old stacks.new }
    ensures fewer { length stacks.new.labels.items + 1 ≡ length stacks.old.labels.items }
    ensures kept { stacks.new.frames.items ≡ stacks.old.frames.items }
    ensures room { KeepsRoom stacks.old stacks.new }
    ensures holds { HoldsFewer stacks.old stacks.new }
{
    if let Some(label) = stacks.labels.pop() {
        stacks.frame.at = label.follows;
    }
}

/// The frame that runs ends, and leaves its results on the words of the one that waits, which goes on (4.4.7.2). The answer is
/// whether one does: else the call ends.
pub fn end_frame(stacks: &mut Stacks) -> bool
    requires none { stacks.old.frame.labels ≡ length stacks.old.labels.items }
    requires fit { LocalsFit stacks.old.frame stacks.old.words.items }
    ensures ends { (m : Module) → EndsFrame m stacks.old result stacks.new }
    ensures fewer { result ≡ true → length stacks.new.frames.items + 1 ≡ length stacks.old.frames.items }
    ensures kept { stacks.new.labels.items ≡ stacks.old.labels.items }
    ensures room { KeepsRoom stacks.old stacks.new }
    ensures holds { HoldsFewer stacks.old stacks.new }
{
    let frame = stacks.frame;
    leave(&frame, &mut stacks.words);
    let Some(below) = stacks.frames.pop() else {
        return false;
    };
    stacks.frame = below;
    true
}
