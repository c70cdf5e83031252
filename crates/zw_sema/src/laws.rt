// What holds of the definitions themselves.
ghost use Rattle.zw_sema.specs.Exchanged.{MembersPart, UnreachedGrowsSilently, UnreachedKeepsPrograms, UnreachedKeepsReached, UnreachedMayGrow};
ghost use Rattle.zw_sema.specs.Known.{KnownValuesHaveTheirTypes};
ghost use Rattle.zw_sema.specs.Laws.{StaysUnderLargerBounds};
ghost use Rattle.zw_sema.specs.ProgramsOf.{ProgramsMeanTheirFiles};
ghost use Rattle.zw_sema.specs.Unreached.{UnreachedIsFree, UnreachedIsSilent};
ghost use Rattle.zw_sema.specs.WorkedDeclarations.{WorkedConstants};
ghost use Rattle.zw_sema.specs.WorkedExchanged.{WorkedExchanged};
ghost use Rattle.zw_sema.specs.WorkedExpressions.{WorkedIntegers};
ghost use Rattle.zw_sema.specs.WorkedForms.{WorkedFunctions, WorkedOperators};
ghost use Rattle.zw_sema.specs.WorkedHost.{WorkedHost, WorkedTruths};
ghost use Rattle.zw_sema.specs.WorkedStatements.{WorkedFirst};
ghost use Rattle.zw_sema.specs.WorkedLoops.{WorkedLoops};
ghost use Rattle.zw_sema.specs.WorkedRanges.{WorkedRanges};
ghost use Rattle.zw_sema.specs.WorkedBlocks.{WorkedBlocks};
ghost use Rattle.zw_sema.specs.WorkedCalls.{WorkedCalls};
ghost use Rattle.zw_sema.specs.WorkedActive.{WorkedActive};
ghost use Rattle.zw_sema.specs.WorkedRefused.{WorkedRefused};
ghost use Rattle.zw_sema.specs.WorkedStops.{WorkedStops};
ghost use Rattle.zw_sema.specs.WorkedStores.{WorkedStores};
ghost use Rattle.zw_sema.specs.WorkedEnds.{WorkedEnds};
ghost use Rattle.zw_sema.specs.WorkedCounted.{WorkedCounted};
ghost use Rattle.zw_sema.specs.WorkedPassing.{WorkedPassing};
ghost use Rattle.zw_sema.specs.WorkedEarly.{WorkedEarly};
ghost use Rattle.zw_sema.specs.WorkedWhole.{WorkedWhole};
ghost use Rattle.zw_sema.specs.WorkedReaching.{WorkedReaching};
ghost use Rattle.zw_sema.specs.WorkedPrograms.{WorkedPrograms};
ghost use Rattle.zw_sema.specs.WorkedUnreached.{WorkedUnreached};
ghost use Rattle.zw_sema.specs.WorkedTypes.{WorkedTypes};
ghost use Rattle.zw_sema.specs.WorkedWanted.{WorkedWanted};

/// What is told of small texts and what their sessions are, worked out by hand.
pub fn texts_are_worked()
    ensures integers { WorkedIntegers }
    ensures constants { WorkedConstants }
    ensures host { WorkedHost }
    ensures truths { WorkedTruths }
    ensures wanted { WorkedWanted }
{}

/// On which types operators and builtins are defined, what functions may be, and types as values, worked out by hand.
pub fn forms_are_worked()
    ensures operators { WorkedOperators }
    ensures functions { WorkedFunctions }
    ensures types { WorkedTypes }
{}

/// Where the bound on the walk's depth was enough, a larger one gives the same.
pub fn larger_bounds_give_the_same()
    ensures { StaysUnderLargerBounds }
{}

/// Where a declaration wasn't reached, another one of its name in its place changes neither the first stop nor a session.
pub fn unreached_declarations_are_free()
    ensures analyses { UnreachedIsFree }
    ensures sessions { UnreachedIsSilent }
    ensures worked { WorkedUnreached }
{}

/// Where a declaration wasn't reached, it may be any other one of its name, of more nodes or fewer: all nodes behind it have other numbers then, and
/// neither the first stop nor a session changes, and the programs of the file stay.
pub fn unreached_declarations_may_grow()
    ensures parts { MembersPart }
    ensures told { UnreachedMayGrow }
    ensures sessions { UnreachedGrowsSilently }
    ensures programs { UnreachedKeepsPrograms }
    ensures reached { UnreachedKeepsReached }
    ensures worked { WorkedExchanged }
{}

/// A file's functions as a program by numbers, and the weight of frames, worked out by hand.
pub fn programs_are_worked()
    ensures { WorkedPrograms }
{}

/// What is known of a part is a value of its type.
pub fn known_values_have_their_types()
    ensures { KnownValuesHaveTheirTypes }
{}

/// A program of a file has the file's sessions.
pub fn programs_mean_their_files()
    ensures { ProgramsMeanTheirFiles }
{}

/// Texts with statements, variables and calls, worked out by hand.
pub fn statements_are_worked()
    ensures first { WorkedFirst }
    ensures loops { WorkedLoops }
    ensures ranges { WorkedRanges }
    ensures blocks { WorkedBlocks }
    ensures calls { WorkedCalls }
    ensures active { WorkedActive }
    ensures refused { WorkedRefused }
    ensures stops { WorkedStops }
    ensures stores { WorkedStores }
    ensures ends { WorkedEnds }
    ensures counted { WorkedCounted }
    ensures passing { WorkedPassing }
    ensures early { WorkedEarly }
    ensures whole { WorkedWhole }
    ensures reaching { WorkedReaching }
{}
