//! The refusals of the whole product. Each has a number with one meaning, and is told by the status of a
//! message's answer, and by words.
ghost use Rattle.std.specs.Prelude.{◌≡◌, option_map};
ghost use Rattle.std.specs.List.{find};
ghost use Rattle.vault_refusal.specs.Refusal.{has_number, numbered, status_of};

use std::error::Error;
use std::fmt;

/// Why something is refused, or has stopped. The number of each stands behind it.
#[derive(Clone, Copy, Debug, Drop, PartialEq, Eq)]
pub enum Refusal {
    /// The text isn't 10 to 19 digits, with at most one space or hyphen between two.
    BadNumber = 1,
    /// The digits of a card number fail the card check.
    BadCheck = 2,
    /// The text isn't 10 to 19 bare digits that fail the card check.
    BadToken = 3,
    /// The text isn't 1 to 16 of `a` to `z`, `0` to `9` and `-`: no name of a caller or a merchant.
    BadName = 4,
    /// The text isn't 1 to 9223372036854775807 without a leading zero.
    BadRequestNumber = 5,
    /// The number of seconds is above 253402300799.
    BadMoment = 6,
    /// The merchant isn't known.
    NoMerchant = 7,
    /// The caller hasn't the right at the merchant, or its end has come.
    NoRight = 8,
    /// The merchant doesn't offer tokens of this use.
    WrongUse = 9,
    /// The request number came before with another merchant, use or card number.
    NumberReused = 10,
    /// The merchant has as many tokens as it may have, or a count can't be raised.
    Full = 11,
    /// No candidate of the draw fails the card check and is new to the merchant.
    NoCandidate = 12,
    /// The merchant has no such token.
    NoToken = 13,
    /// The token's card number is purged.
    Purged = 14,
    /// The token is revoked.
    Revoked = 15,
    /// The token has expired.
    Expired = 16,
    /// The token is live, so its card number isn't purged.
    StillLive = 17,
    /// There are as many merchants as there may be.
    TooManyMerchants = 18,
    /// The text is neither `single` nor `multi`.
    BadUse = 19,
    /// Memory was refused for a command of the words, or for the words.
    CommandMemory = 20,
    /// The store failed at a command of the words.
    CommandStore = 21,
    /// The store failed before, so nothing is done.
    Reopen = 22,
    /// The file's schema isn't this program's.
    WrongSchema = 30,
    /// The rows of the file break a rule, which is named.
    Damaged = 31,
    /// Memory was refused while an open file was read.
    OpenMemory = 32,
    /// The database failed, or the file is another program's.
    OpenStore = 33,
    /// The file itself is refused: its name, its kind, or that it is open already.
    FileRefused = 34,
    /// The first record of a batch isn't `request,number,use`, or there is none.
    BadHeader = 40,
    /// The reader of a batch failed.
    BatchRead = 41,
    /// The writer of a batch failed.
    BatchWrite = 42,
    /// The store failed at a row, or had failed before.
    BatchStore = 43,
    /// A record of a batch hasn't three fields.
    BadRecord = 44,
    /// Memory was refused for a row.
    BatchMemory = 45,
    /// There is no moment or there are no digits for a row.
    BatchSource = 46,
    /// No bytes can follow that make a head of a message.
    BadHead = 50,
    /// A head of more than 8192 bytes or 32 fields.
    HeadTooLarge = 51,
    /// Two Content-Length fields, or one that isn't one or more digits.
    BadLength = 52,
    /// A Transfer-Encoding field.
    NoCoding = 53,
    /// A body of more than 4096 bytes.
    BodyTooLarge = 54,
    /// Memory was refused for a piece of bytes.
    WireMemory = 55,
    /// The path names nothing.
    NoRoute = 56,
    /// The path takes other methods, which the Allow field names.
    BadMethod = 57,
    /// X-Vault-Caller or X-Vault-Request isn't there exactly once.
    BadFields = 58,
    /// The body isn't a JSON object with exactly the texts `number` and `use`.
    BadBody = 59,
    /// There is no moment or there are no digits for a message, or the clock jumped.
    ServiceSource = 60,
    /// The reader failed, or a peer's message didn't come in time.
    ServiceRead = 61,
    /// The writer failed, or a peer didn't take an answer in time.
    ServiceWrite = 62,
    /// The store failed at a message, or had failed before.
    ServiceStore = 63,
    /// Memory was refused for a message.
    ServiceMemory = 64,
    /// A list of rights or of merchants is no TOML document in UTF-8.
    NotToml = 70,
    /// The word of an item in it, or of a command, is no right.
    UnknownRight = 71,
    /// A key in it is no name of a caller or a merchant.
    BadKey = 72,
    /// A value in it is of another shape: of rights, a caller's no table, a merchant's no array, or an item
    /// another one; of merchants, no table of `single`, `multi` and perhaps `lead`, each a whole number.
    WrongType = 73,
    /// Memory was refused while it was read.
    RightsMemory = 74,
    /// The end of an item in it isn't 0 to 253402300799.
    BadEnd = 75,
    /// A life in a list of merchants isn't 0 to 3155760000, or a lead neither 6 nor 8.
    BadLives = 76,
    /// Listening or accepting was refused, or a list can't be read.
    Accept = 80,
    /// A sweep by the clock, and the merchant's moment is over a day ahead of it.
    MomentAhead = 81,
}

impl Refusal {
    ghost use Rattle.vault_refusal.specs.Refusal.{number_of, status_of as status_lem, words_of};

    /// Its number.
    pub fn number(self) -> u8
        ensures { result ≡ number_of self }
    {
        self as u8
    }

    /// The HTTP status of the answer to a message that it refuses.
    pub fn status(self) -> u16
        ensures { result ≡ status_lem self }
    {
        match self {
            Refusal::BadNumber
            | Refusal::BadCheck
            | Refusal::BadToken
            | Refusal::BadName
            | Refusal::BadRequestNumber
            | Refusal::BadUse
            | Refusal::BadHead
            | Refusal::BadLength
            | Refusal::BadFields
            | Refusal::BadBody => 400,
            Refusal::NoRight => 403,
            Refusal::NoMerchant | Refusal::NoToken | Refusal::NoRoute => 404,
            Refusal::BadMethod => 405,
            Refusal::NumberReused | Refusal::StillLive => 409,
            Refusal::Purged | Refusal::Revoked | Refusal::Expired => 410,
            Refusal::NoCoding => 411,
            Refusal::BodyTooLarge => 413,
            Refusal::WrongUse => 422,
            Refusal::HeadTooLarge => 431,
            Refusal::NoCandidate => 503,
            Refusal::Full | Refusal::TooManyMerchants => 507,
            _ => OTHER_STATUS,
        }
    }

    /// Its words, which show no card number.
    pub fn words(self) -> &'static str
        ensures { result.now ≡ words_of self }
    {
        match self {
            Refusal::BadNumber => "not a card number",
            Refusal::BadCheck => "wrong check digit",
            Refusal::BadToken => "not a token",
            Refusal::BadName => "not a name",
            Refusal::BadRequestNumber => "not a request number",
            Refusal::BadMoment => "not a time",
            Refusal::NoMerchant => "no such merchant",
            Refusal::NoRight => "no right",
            Refusal::WrongUse => "the merchant offers no tokens of this use",
            Refusal::NumberReused => "the request number was used for something else",
            Refusal::Full => "the merchant is full",
            Refusal::NoCandidate => "no token was found among the candidates",
            Refusal::NoToken => "no such token",
            Refusal::Purged => "the card number is purged",
            Refusal::Revoked => "the token is revoked",
            Refusal::Expired => "the token has expired",
            Refusal::StillLive => "the token is still live",
            Refusal::TooManyMerchants => "there are too many merchants",
            Refusal::BadUse => "not a use",
            Refusal::CommandMemory => "memory was refused",
            Refusal::CommandStore => "the store failed",
            Refusal::Reopen => "the store failed before",
            Refusal::WrongSchema => "the file has another schema",
            Refusal::Damaged => "the rows break a rule",
            Refusal::OpenMemory => "memory was refused",
            Refusal::OpenStore => "the database failed",
            Refusal::FileRefused => "the file is refused",
            Refusal::BadHeader => "the batch has no header",
            Refusal::BatchRead => "the reader failed",
            Refusal::BatchWrite => "the writer failed",
            Refusal::BatchStore => "the store failed",
            Refusal::BadRecord => "a record hasn't three fields",
            Refusal::BatchMemory => "memory was refused",
            Refusal::BatchSource => "no time or digits for a row",
            Refusal::BadHead => "no request can begin with these bytes",
            Refusal::HeadTooLarge => "a head has 8192 bytes and 32 fields at most",
            Refusal::BadLength => "the length of the body isn't said by one number",
            Refusal::NoCoding => "a body with a transfer coding isn't taken",
            Refusal::BodyTooLarge => "a body has 4096 bytes at most",
            Refusal::WireMemory => "memory was refused",
            Refusal::NoRoute => "no such path",
            Refusal::BadMethod => "the path doesn't take this method",
            Refusal::BadFields => "a header field is missing or there twice",
            Refusal::BadBody => "the body isn't the JSON object that is asked for",
            Refusal::ServiceSource => "no time or digits for a message",
            Refusal::ServiceRead => "the reader failed",
            Refusal::ServiceWrite => "the writer failed",
            Refusal::ServiceStore => "the store failed",
            Refusal::ServiceMemory => "memory was refused",
            Refusal::NotToml => "not a TOML document",
            Refusal::UnknownRight => "not a right",
            Refusal::BadKey => "a key isn't a name",
            Refusal::WrongType => "a value of the wrong type",
            Refusal::RightsMemory => "memory was refused",
            Refusal::BadEnd => "not an end",
            Refusal::BadLives => "not lives, or not a lead",
            Refusal::Accept => "listening or accepting was refused",
            Refusal::MomentAhead => "the merchant's time is far ahead of the clock",
        }
    }
}

impl fmt::Display for Refusal {
    ghost use Rattle.std.specs.Prelude.{Some};
    ghost use Rattle.vault_refusal.specs.Refusal.{words_of};

    ghost output = { λ refusal. Some (words_of refusal) };

    fn fmt<W: fmt::Write>(&self, f: &mut fmt::Formatter<W>) -> fmt::Result {
        let words = self.words();
        write!(f, "{words}")
    }
}

impl Error for Refusal {}

/// The HTTP status of a refusal that no message is answered with, and of a number that none has.
pub const OTHER_STATUS: u16 = 507;

/// All of them, in the order of their numbers.
const ALL: [Refusal; 58] = [
    Refusal::BadNumber,
    Refusal::BadCheck,
    Refusal::BadToken,
    Refusal::BadName,
    Refusal::BadRequestNumber,
    Refusal::BadMoment,
    Refusal::NoMerchant,
    Refusal::NoRight,
    Refusal::WrongUse,
    Refusal::NumberReused,
    Refusal::Full,
    Refusal::NoCandidate,
    Refusal::NoToken,
    Refusal::Purged,
    Refusal::Revoked,
    Refusal::Expired,
    Refusal::StillLive,
    Refusal::TooManyMerchants,
    Refusal::BadUse,
    Refusal::CommandMemory,
    Refusal::CommandStore,
    Refusal::Reopen,
    Refusal::WrongSchema,
    Refusal::Damaged,
    Refusal::OpenMemory,
    Refusal::OpenStore,
    Refusal::FileRefused,
    Refusal::BadHeader,
    Refusal::BatchRead,
    Refusal::BatchWrite,
    Refusal::BatchStore,
    Refusal::BadRecord,
    Refusal::BatchMemory,
    Refusal::BatchSource,
    Refusal::BadHead,
    Refusal::HeadTooLarge,
    Refusal::BadLength,
    Refusal::NoCoding,
    Refusal::BodyTooLarge,
    Refusal::WireMemory,
    Refusal::NoRoute,
    Refusal::BadMethod,
    Refusal::BadFields,
    Refusal::BadBody,
    Refusal::ServiceSource,
    Refusal::ServiceRead,
    Refusal::ServiceWrite,
    Refusal::ServiceStore,
    Refusal::ServiceMemory,
    Refusal::NotToml,
    Refusal::UnknownRight,
    Refusal::BadKey,
    Refusal::WrongType,
    Refusal::RightsMemory,
    Refusal::BadEnd,
    Refusal::BadLives,
    Refusal::Accept,
    Refusal::MomentAhead,
];

/// Whether a refusal has the number.
fn has_number(refusal: &Refusal, number: u8) -> bool
    ensures { result ≡ has_number number refusal.now }
{
    refusal.number() == number
}

/// The status of the first of these that has the number.
fn status_among(refusals: &[Refusal], number: u8) -> Option<u16>
    ensures { result ≡ option_map status_of (find (has_number number) refusals.now) }
{
    refusals
        .iter()
        .find(|refusal| has_number(refusal, number))
        .map(|refusal| refusal.status())
}

/// The HTTP status of the refusal with a number, where one has it.
pub fn status_at(number: u8) -> Option<u16>
    ensures { result ≡ option_map status_of (numbered number) }
{
    status_among(&ALL, number)
}
