//! Remote calls by number over a line that breaks: typed requests and replies, each request executed at most once.
//!
//! A request is a pair of a number and what is asked, a reply the same number and what is said. A [`Server`] executes each number
//! at most once, whatever bytes come, and keeps its last call: if the same request comes again, it sends the kept reply. A
//! [`Client`] numbers its calls upwards, repeats one if its caller asks for that, and accepts the reply to the pending call alone.
//! Neither allocates.
//!
//! Messages of any types can be called by, but then damage, an echo and another program's messages may pass for calls and replies.
//! If the messages are [`Numbered`], with [`Checked`] at the server and [`Replies`] at the client, echoes are `Damaged`, and the
//! others too, unless they meet a CRC-32 by chance.
//!
//! What is known without a reply: the call was executed at most once, and is never executed after a reply to a higher number.
#![tactic(auto)]

mod calling;
mod client;
pub mod laws;
mod noticing;
mod sealing;
mod server;
mod service;
mod serving;
mod waiting;

pub use client::{CallError, Client};
pub use noticing::Noticing;
pub use sealing::{Checked, Numbered, Numbering, Replies};
pub use server::{Application, LastCall, Served, Server};
pub use service::Service;
pub use serving::serve_with;
pub use waiting::{Waiting, wait_with};
