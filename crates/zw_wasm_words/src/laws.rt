// What holds of the definitions themselves: the law is the contract of a function that does nothing.
ghost use Rattle.zw_wasm_words.specs.WorkedSegments.{WorkedSegments};

/// Which segment is the first that doesn't lie inside its table or memory, worked out by hand.
pub fn segments_are_worked()
    ensures { WorkedSegments }
{}
