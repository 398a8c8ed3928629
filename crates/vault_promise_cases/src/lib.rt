//! The promise's witness at work: this crate holds tests alone, so that each takes the libraries as they are
//! proved.
#![tactic(auto)]

#[cfg(test)]
mod tests;
