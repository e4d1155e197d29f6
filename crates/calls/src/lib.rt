// A board's calls and their answers, as values and as text.
#![tactic(auto)]

pub mod answer;
pub mod command;
pub mod commands;
pub mod hex;
pub mod line;
pub mod read;
mod unread;
