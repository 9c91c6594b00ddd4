// Bytes and text: what every layer above is made of. No function that another crate can call asks anything of its caller.
#![tactic(auto)]

mod byte_test;
pub mod cursor;
pub mod error;
pub mod fill;
pub mod float;
pub mod number;
pub mod outcome;
pub mod part;
pub mod placeholder;
pub mod run;
pub mod seek;
pub mod text;
pub mod utf8;
