//! Worked cases of connections and batches over readers, writers, sources and stores of their own, and of new
//! files. This crate holds tests alone, so that each takes the libraries as they are proved.
#![tactic(auto)]

#[cfg(test)]
mod tests;
