//! Vaults over databases: lists of dead tokens, stops, and files of older schemas.
mod listed;
mod moved;
mod over;
mod remembered;
mod sent;
mod sent_again;
mod sessions;
mod steps;
mod stops;
