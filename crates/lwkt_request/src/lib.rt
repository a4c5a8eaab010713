//! The command line of the program `lwkt`: which request its words ask for.
#![tactic(auto)]

mod asking;
mod commands;
mod matched;
mod old;
mod pages;
mod ranges;
mod requests;
mod tasks;
mod wrongs;

pub use asking::request_of;
pub use pages::VERSION;
pub use requests::{Asked, Form, Layout, Request, Search, Task, Wording};
