//! The rows of a vault's tables as they stand.

/// A row of `vault`.
#[derive(Clone, Copy, Drop)]
pub struct RawVersion {
    pub id: i64,
    pub version: i64,
}

/// A row of `merchants`.
#[derive(Drop)]
pub struct RawMerchant {
    pub rowid: i64,
    pub name: String,
    pub single_life: i64,
    pub multi_life: i64,
    pub moment: i64,
    /// How many digits its masks show at the left, at most: the column `lead_digits`.
    pub lead: i64,
}

/// A row of `counts`.
#[derive(Drop)]
pub struct RawCount {
    pub rowid: i64,
    pub merchant: String,
    pub kind: i64,
    pub total: i64,
}

/// A row of `cards2`: a card number of a merchant, and how many entries point at it.
#[derive(Drop)]
pub struct RawCard {
    pub id: i64,
    pub merchant: String,
    pub number: String,
    pub uses: i64,
}

/// A row of `entries`.
#[derive(Drop)]
pub struct RawEntry {
    pub rowid: i64,
    pub merchant: String,
    pub token: String,
    /// The id of its card row; NULL where it is purged.
    pub card: Option<i64>,
    pub usage: i64,
    pub birth: i64,
    pub expires: i64,
    /// NULL where the token isn't revoked.
    pub revoked: Option<i64>,
}

/// A row of `records`.
#[derive(Drop)]
pub struct RawRecord {
    pub rowid: i64,
    pub caller: String,
    pub request: i64,
    pub merchant: String,
    pub token: String,
    pub usage: i64,
}

/// A row of `rights`.
#[derive(Drop)]
pub struct RawRight {
    pub rowid: i64,
    pub caller: String,
    pub merchant: String,
    pub what: i64,
    /// NULL where the right has no end.
    pub ends: Option<i64>,
}
