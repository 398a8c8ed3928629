//! Card numbers, the tokens that stand in their place, and the draw of a token.
//!
//! A card number is the primary account number (PAN) of ISO/IEC 7812-1, whose last digit is a
//! check digit. A token is its surrogate value in the sense of the PCI SSC Information Supplement
//! "PCI DSS Tokenization Guidelines": it has the form of a card number, and fails the check, by
//! which the two are told apart.
//!
//! Nothing here takes memory: every type is `Copy` and holds its digits itself.
#![tactic(auto)]

pub mod draw;
pub mod lead;
pub mod luhn;
pub mod mask;
pub mod pan;
pub mod short;
mod text;
pub mod token;
