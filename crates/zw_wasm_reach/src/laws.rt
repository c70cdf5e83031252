// The law of labels.
ghost use Rattle.zw_wasm_reach.specs.Counts.{LabelsStayFew};

/// What a call reaches by instructions has at most as many labels as frames times the depth of the module's code: a frame has no more labels
/// than blocks, loops and ifs stand open at a place of its body (WebAssembly Core Specification 1.0, 4.2.12, 4.4.6).
pub fn labels_stay_few()
    ensures { LabelsStayFew }
{}
