//! What a session of calls is asked for in words and text: the words of its calls, their arguments by type, and the replies of
//! its input. It must not know: the code of modules, machines.
#![tactic(auto)]

mod arguments;
mod input;
mod laws;
mod modulo;
mod replies;
mod request;
mod words;

pub use arguments::{Arguments, read_arguments};
pub use input::{InputErr, read_input};
pub use laws::one_request;
pub use replies::{MOST_INPUT, ReplyErr, read_replies};
pub use request::{CallWords, RequestWords, read_request};
