// Samples moved along a row, out of an image into lent data and back, and bits copied from bytes to bytes.
#![tactic(auto)]

pub mod copy;
mod pack;
pub mod read;
pub mod row;
mod unpack;
pub mod write;
