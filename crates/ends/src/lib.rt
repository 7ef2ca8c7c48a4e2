// Link ends: an end fits a tower to an octic, loads a key, draws tickets, and seals and opens sectors.
#![tactic(auto)]

mod boxed;
pub mod display;
pub mod end;
mod fitted;
mod inverses;
mod load;
pub mod records;
pub mod ticket;
mod walk;
mod work;
