// Runs a commissioning sheet: its entries go through a watch over two ends, and each gives a line.
#![tactic(auto)]

pub mod bearing;
pub mod line;
mod perform;
pub mod printout;
pub mod run;
