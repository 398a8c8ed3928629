//! Tables of SQLite as finite maps, and their rows as values of Rust, in any schema.
//! Nothing here knows a vault.
#![tactic(auto)]

pub mod columns;
pub mod fault;
pub mod keyed;
pub mod left;
pub mod raws;
pub mod run;
pub mod shapes;
pub mod taken;
pub mod text;
pub mod whole;
