//! A vault that is served over connections and steered between them.
#![tactic(auto)]

mod carrying;
pub mod desk;
mod first_commands;
pub mod follower;
pub mod following;
pub mod kind;
mod known;
pub mod laws;
pub mod listed;
pub mod lists;
pub mod merchants;
pub mod news;
pub mod office;
pub mod remembered;
pub mod rights;
mod round;
mod said;
pub mod subject;
pub mod sweeping;
mod sweeps;
pub mod told;
pub mod turns;
pub mod whole;
