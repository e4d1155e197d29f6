// A board over a shape: arcs come into force and are struck, and it draws what obeys them.
#![tactic(auto)]

pub mod board;
mod measuring;
mod placing;
