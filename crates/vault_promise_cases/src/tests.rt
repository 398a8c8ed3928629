//! Runs over files in memory.
mod witness;
