//! Which configurations a call comes to by instructions alone, how many values, labels and frames these have, and how deep the
//! code of a module nests. It must not know: machines, texts.
#![tactic(auto)]

mod depth;
mod laws;

pub use depth::deepest;
pub use laws::labels_stay_few;
