// Frames and labels, as places in the lists of words and of labels (4.2.12).

/// A label: how many operands a branch to it takes, where the branch goes on, where the code goes on behind its end, and how
/// many words lie below its operands.
#[derive(Clone, Copy, Debug)]
pub struct Label {
    pub arity: usize,
    pub target: usize,
    pub follows: usize,
    pub height: usize,
}

/// A frame: the number of its body, how many results it returns, the place in the code where it goes on, where its parameters
/// and locals begin, where its operands begin, and how many labels lie below its own.
#[derive(Clone, Copy, Debug)]
pub struct Frame {
    pub body: usize,
    pub arity: usize,
    pub at: usize,
    pub locals: usize,
    pub operands: usize,
    pub labels: usize,
}
