// Samples moved between a block, wherever it lies, and planes of samples in big-endian bytes, and from one layout of a
// block to another.
#![tactic(auto)]

mod block_store;
mod order;
pub mod part;
mod part_read;
pub mod relay;
mod runs;
mod spacing;
pub mod store;
