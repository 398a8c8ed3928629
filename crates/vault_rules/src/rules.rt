//! The rules over the rows, one public function a rule.
mod bounds;
pub mod callers;
pub mod cards;
pub mod counts;
pub mod ends;
pub mod entries;
pub mod leads;
pub mod live;
pub mod merchants;
