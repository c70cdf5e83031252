// What holds of the definitions themselves: the law is the contract of a function that does nothing.
ghost use Rattle.zw_wasm_run.specs.WorkedCalls.{WorkedCalls};

/// What calls of small functions come to, with the steps that they are given and have left.
pub fn calls_are_worked()
    ensures { WorkedCalls }
{}
