// What the programs share: how they start and end, their arguments, the room for their input, what they read, and what they say of a
// refusal.
#![tactic(auto)]

pub mod argument;
pub mod hex;
pub mod input;
pub mod program;
mod reason;
pub mod refusal;
pub mod room;
#[cfg(test)]
mod tests;
