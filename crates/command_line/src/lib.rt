// The command lines of the programs, their words and what these ask for; and the lines of what a program reads.
#![tactic(auto)]

pub mod damage;
pub mod input;
pub mod receive;
pub mod send;
pub mod words;
