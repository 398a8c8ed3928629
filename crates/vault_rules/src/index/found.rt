//! An entry beside the rows that it names.
use crate::card_rows::Card;
use crate::rows::{RawEntry, RawMerchant};

/// An entry with its merchant and the card row that it points at, where these are there.
#[derive(Clone, Copy)]
pub struct Found<'a, 'b> {
    pub(crate) entry: &'b RawEntry,
    pub(crate) merchant: Option<&'a RawMerchant>,
    pub(crate) card: Option<Card<'a>>,
}
