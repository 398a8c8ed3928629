//! Vaults in files that stop at a call, and files of schema 1: this crate holds tests alone, so that each
//! takes the libraries as they are proved.
#![tactic(auto)]

#[cfg(test)]
mod tests;
