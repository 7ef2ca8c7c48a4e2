// Commissioning sheets: a sheet's bytes are checked and read into its entries, or refused with the place of the first bad word.
#![tactic(auto)]

pub mod check;
mod digits;
pub mod entries;
pub mod faults;
pub mod read;
mod sections;
mod sheet_reader;
mod steps;
mod tokens;
mod values;
