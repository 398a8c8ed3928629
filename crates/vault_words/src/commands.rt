//! The subcommands: the words of each one, and the values that they give.

pub mod batch;
pub mod check;
pub mod list;
pub mod merchant;
pub mod merchants;
pub mod migrate;
pub mod pipe;
pub mod rights;
pub mod rights_file;
pub mod serve;
pub mod sweep;
pub mod trial;
