// What holds of the definitions themselves: each law is the contract of a function that does nothing.
ghost use Rattle.std.specs.Prelude.{◌≡◌, ℕ, List, ◌∷◌};
ghost use Rattle.std.specs.List.{AllByRecursion};
ghost use Rattle.hex.specs.Hex.{IsBytes};
ghost use Rattle.zw_base.specs.declared.stop.Stop.{Stop};
ghost use Rattle.zw_report.specs.declared.arg.Arg.{Arg};
ghost use Rattle.zw_report.specs.declared.end.End.{End};
ghost use Rattle.zw_report.specs.declared.item.ItemTy.{ItemTy};
ghost use Rattle.zw_report.specs.Lines.{HasLine, call_line, end_line, event_line, message_of};
ghost use Rattle.zw_report.specs.StopLines.{IsNamed, stop_line};
ghost use Rattle.zw_report.specs.Words.{ArePlain, IsLine, line_of};
ghost use Rattle.zw_report.specs.WorkedLines.{WorkedEnds, WorkedLines, WorkedPanics};
ghost use Rattle.zw_report.specs.WorkedStops.{WorkedStops};
ghost use Rattle.zw_wasm_run.specs.declared.event.Event.{Event};

/// Whatever a line tells, it is words of visible ASCII with one blank before each but the first, and LF at its end alone: so a
/// name, a path or a message makes no further words and no further lines.
pub fn lines_are_words()
    ensures calls { (name : List ℕ) (args : List Arg) → IsBytes name → IsLine (call_line name args) }
    ensures events { (name : List ℕ) (tys : List ItemTy) (event : Event) → IsBytes name → AllByRecursion IsBytes event.shown → IsLine (event_line name tys event) }
    ensures ends { (end : End) → HasLine end → IsBytes (message_of end) → IsLine (end_line end) }
    ensures stops { (path : List ℕ) (stop : Stop) → IsBytes path → IsNamed stop.kind → IsLine (stop_line path stop) }
{}

/// A line is read back as its words in one way.
pub fn one_reading()
    ensures { (a b : List ℕ) (v w : List (List ℕ)) → ArePlain (a ∷ v) → ArePlain (b ∷ w) → line_of a v ≡ line_of b w → (a ≡ b) × (v ≡ w) }
{}

/// Lines of calls and of host calls, worked out by hand.
pub fn lines_are_worked()
    ensures { WorkedLines }
{}

/// Lines of ends, worked out by hand.
pub fn ends_are_worked()
    ensures { WorkedEnds }
{}

/// The line of each panic.
pub fn panics_are_worked()
    ensures { WorkedPanics }
{}

/// The line of each error and of each limit.
pub fn stops_are_worked()
    ensures { WorkedStops }
{}
