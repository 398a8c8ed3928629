//! What each subcommand does.

pub(crate) mod batch;
pub(crate) mod check;
pub(crate) mod followed;
pub(crate) mod list;
pub(crate) mod merchant;
pub(crate) mod merchants;
pub(crate) mod migrate;
pub(crate) mod pipe;
pub(crate) mod rights;
pub(crate) mod rights_file;
pub(crate) mod serve;
pub(crate) mod sweep;
pub(crate) mod trial;
