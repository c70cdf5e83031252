// The laws of validity and reduction. The functions do nothing: each contract is a law of the definitions in specs/,
// on which lowering stands.
ghost use Rattle.zw_wasm.specs.Laws.{BranchesAreTyped, BranchesRun, CodeIsStructured, SequencesCompose, ModulesStayEnded, ValuesComeIn};
ghost use Rattle.zw_wasm.specs.WorkedBodies.{BodiesAreTyped};
ghost use Rattle.zw_wasm.specs.WorkedModules.{WorkedModules};
ghost use Rattle.zw_wasm.specs.WorkedNumbers.{WorkedNumbers, WorkedReadings};
ghost use Rattle.zw_wasm.specs.WorkedPanics.{WorkedPanics};
ghost use Rattle.zw_wasm.specs.WorkedRuns.{WorkedBranches, WorkedCalls, WorkedMemory, WorkedOperators};

/// Which instruction of a body is refused first, and why.
pub fn bodies_are_typed()
    ensures { BodiesAreTyped }
{}

/// What the first violation of a module is, worked out by hand: outside bodies by section and entry, and then in bodies.
pub fn modules_are_worked()
    ensures { WorkedModules }
{}

/// What operators on numbers give, and how a host reads numbers, worked out by hand.
pub fn numbers_are_worked()
    ensures operators { WorkedNumbers }
    ensures readings { WorkedReadings }
{}

/// What a flat list of instructions is as code: a block, a loop and a choice have inside them what stands up to their `end`.
pub fn code_is_structured()
    ensures { CodeIsStructured }
{}

/// What two sequences of instructions do, one after the other, under any labels, over any frames and in any context; and
/// what blocks, loops, branches and returns do there, and how they are typed.
pub fn sequences_compose()
    ensures compose { SequencesCompose }
    ensures branches { BranchesRun }
    ensures typed { BranchesAreTyped }
{}

/// A call that ended stays ended, with the same record, under a larger bound.
pub fn module_calls_stay_ended()
    ensures { ModulesStayEnded }
{}

/// A host can hand over every value of a declared type of at most 64 bits, as a number of the type that carries it.
pub fn values_come_in()
    ensures { ValuesComeIn }
{}

/// What calls of a small module come to, worked out by hand: calls, choices, locals, a global, and a host that is told and
/// asked; blocks, loops and branches; the memory; and operators.
pub fn calls_are_worked()
    ensures calls { WorkedCalls }
    ensures branches { WorkedBranches }
    ensures memory { WorkedMemory }
    ensures operators { WorkedOperators }
{}

/// What a trap at `unreachable` is by the three numbers of a panic's state, worked out by hand: a panic has a cause that there is,
/// for a message its bytes, and without one 0 for pointer and length.
pub fn panics_are_worked()
    ensures { WorkedPanics }
{}
