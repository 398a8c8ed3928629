//! Worked cases. Many are lines of text: a question, ` = `, and the answer.
mod batches;
mod blank;
mod breaking;
mod connections;
mod full;
mod watching;
