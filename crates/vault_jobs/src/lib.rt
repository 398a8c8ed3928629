//! What the program does with a vault and its streams, over any tables: it knows no words and no file.
#![tactic(auto)]

pub mod answer;
pub mod batch;
mod beginning;
mod changed;
pub mod clock;
pub mod grants;
pub mod listening;
pub mod lists;
pub mod note;
pub mod pipe;
pub mod serve_task;
mod serving;
pub mod show;
mod shown;
pub mod source;
pub mod stop;
pub mod sweep;
mod swept;
pub mod task;
pub mod trial;
