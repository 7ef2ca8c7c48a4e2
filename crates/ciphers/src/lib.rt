// AES-128 and SM4 with the counter mode, over any way to work out the box.
#![tactic(auto)]

mod aes;
pub mod counter;
pub mod keys;
pub mod letters;
mod sm4;
