// The line reader: fed a byte at a time with the silence before it, or over two lent runs, it gives an answer to each bundle that has ended.
#![tactic(auto)]

mod beyond;
mod reader;

pub use reader::{Ran, Reader, Stepped};
