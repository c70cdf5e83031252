// What holds of the definitions themselves.
ghost use Rattle.std.specs.Prelude.{◌≡◌, ℕ, List};
ghost use Rattle.std.specs.Str.{is_utf8};
ghost use Rattle.zw_session.specs.Bounds.{StaysEnded};
ghost use Rattle.zw_typed.specs.Exports.{Exported, exports_machine};
ghost use Rattle.zw_typed.specs.FlowLaws.{RunsGrow, RunsStayEnded, AreFunctionsFit, NodesFit, NeverStuck, AreFunctionsPaid, VisitsPay, OperatorsCome};
ghost use Rattle.zw_typed.specs.FlowNodes.{Function};
ghost use Rattle.zw_typed.specs.FlowPrograms.{FlowProgram, IsWellFormed};
ghost use Rattle.zw_typed.specs.HostTypes.{is_utf8_name};
ghost use Rattle.zw_typed.specs.WorkedFits.{WorkedFits};
ghost use Rattle.zw_typed.specs.WorkedFlow.{WorkedFlow};
ghost use Rattle.zw_typed.specs.WorkedFlowPrograms.{WorkedFlowPrograms};
ghost use Rattle.zw_typed.specs.WorkedPrograms.{WorkedPrograms};

/// A call of an exported function that ended stays ended under a larger bound, so that sessions of it do.
pub fn calls_stay_ended()
    ensures { (exports : List Exported) → StaysEnded (exports_machine exports) }
{}

/// A program by numbers, and the functions that it is read as, worked out by hand.
pub fn programs_are_worked()
    ensures { WorkedPrograms }
{}

/// The test of the names of functions that the host sees is that of UTF-8.
pub fn names_are_utf8()
    ensures { (name : List ℕ) → is_utf8_name name ≡ is_utf8 name }
{}

/// Sessions with statements, variables and calls, worked out by hand.
pub fn flow_is_worked()
    ensures { WorkedFlow }
{}

/// Whatever is evaluated or called, and however it ends, over whole sessions too: turns that are left only fall, what is counted only
/// grows, and host calls come behind the earlier ones.
pub fn runs_grow()
    ensures { RunsGrow }
{}

/// More turns change nothing where evaluating a node, a call or a session ended.
pub fn runs_stay_ended()
    ensures { RunsStayEnded }
{}

/// A program by numbers with a block that is left, and two that aren't well-formed, worked out by hand.
pub fn flow_programs_are_worked()
    ensures { WorkedFlowPrograms }
{}

/// A function with a variable and a loop that fits and is paid, and nodes that don't fit, worked out by hand.
pub fn fits_are_worked()
    ensures { WorkedFits }
{}

/// An operator on values of types that it is for gives a value of its type, or panics.
pub fn operators_come_to_values()
    ensures { OperatorsCome }
{}

/// Where functions fit, as those of a well-formed program do, a node that fits gives a value of its type, with the variables declared that are
/// behind it; and no session of calls that fit is stuck or wild.
pub fn programs_are_never_stuck()
    ensures nodes { (functions : List Function) → AreFunctionsFit functions → NodesFit functions }
    ensures functions { (p : FlowProgram) (w : IsWellFormed p) → AreFunctionsFit w.read.functions }
    ensures sessions { (p : FlowProgram) (w : IsWellFormed p) → NeverStuck w.read }
{}

/// Where turns and functions are paid, as those of a well-formed program are, a session counts at least as many visits as it takes turns, and
/// its work is at most 256 times its visits and moved bytes together.
pub fn visits_pay()
    ensures sessions { (functions : List Function) → AreFunctionsPaid functions → VisitsPay functions }
    ensures functions { (p : FlowProgram) (w : IsWellFormed p) → AreFunctionsPaid w.read.functions }
{}
