//! PEM (RFC 7468): the first block of a text as octets, and octets as a block.
//!
//! `block_in` reads the first block from a place on, and says where what follows it begins. `pem_of`
//! writes one.
#![tactic(auto)]

mod block;
mod edge;
mod octet;
#[cfg(test)]
mod tests;
mod written;

pub use block::{Block, NoBlock, block_in};
pub use written::pem_of;
