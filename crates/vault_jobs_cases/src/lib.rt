//! Worked cases of jobs, of services over loopback, and of lists that a service follows: this crate holds
//! tests alone, so that each takes the libraries as they are proved.
#![tactic(auto)]

#[cfg(test)]
mod tests;
