//! Laws of what is read and answered of a connection, over the definitions of several crates.
ghost use Rattle.vault_promise.specs.Agreement.{ExchangesAgree, FaultsAgree, WantsAgree, WholeHeadsAgree};
ghost use Rattle.vault_promise.specs.Agreement.{AmbiguousFitsTwo, FaultsDifferOnlyWhereAmbiguous};
ghost use Rattle.vault_promise.specs.Apart.{TextsAreIsolated};
ghost use Rattle.vault_promise.specs.DueNumbers.{EachIsDue, FaultsTellNoNumber, OnlyDueGoesOut};
ghost use Rattle.vault_promise.specs.DueNumbers.{OnlyDueIsGiven, TextsTellNumbers};
ghost use Rattle.vault_promise.specs.Service.{EachPassage, MessagesAreClear, ServicesAgree};
ghost use Rattle.vault_promise.specs.Service.{StoppedServicesAgree};

use std::io::Write;
use vault_core::source::Source;
use vault_store::tables::Tables;

/// Two readings of the same bytes have the same fault; but where no whole head stands, the one may have none,
/// 50 or 51, and the other another one of these.
pub fn faults_agree()
    ensures { FaultsAgree }
{}

/// Two readings of the same bytes have the same fault; but where no bytes can follow that make a head, and
/// these end within a target or are past a limit of heads, or where some can follow and a 33rd field has
/// come, each may have another of none, 50 and 51.
pub fn faults_differ_only_where_ambiguous()
    ensures { FaultsDifferOnlyWhereAmbiguous }
{}

/// Such ambiguous bytes have two readings whose faults differ.
pub fn ambiguous_fits_two()
    ensures { AmbiguousFitsTwo }
{}

/// Where a whole head comes after the whole messages, two readings of the same bytes have the same fault.
pub fn whole_heads_agree()
    ensures { WholeHeadsAgree }
{}

/// What a message wants at a moment, with drawn digits, is one thing: a command, or the number of a refusal.
pub fn wants_agree()
    ensures { WantsAgree }
{}

/// Messages that are asked with the same pairs are the same exchanges: so the texts that answer them are one
/// function of the vault, the messages and the pairs.
pub fn exchanges_agree()
    ensures { ExchangesAgree }
{}

/// A card number is answered to a Detokenize alone, by a caller whose right to numbers lasts at the command's
/// moment, of a token that is live then and stands for that number.
pub fn only_due_is_given()
    ensures { OnlyDueIsGiven }
{}

/// The text that answers a message is that of an answer with a card number exactly where the reply is that
/// number: no other reply's text reads as one.
pub fn texts_tell_numbers()
    ensures { TextsTellNumbers }
{}

/// Where the text that answers a message reads as an answer with a card number, the message asks for the
/// number of a token, and at its moment its caller has the right to it and the token is live.
pub fn only_due_goes_out()
    ensures { OnlyDueGoesOut }
{}

/// Of messages that are asked one after the other this holds of each, by the vault that those before it
/// leave.
pub fn each_is_due()
    ensures { EachIsDue }
{}

/// The text that answers a fault of the bytes never reads as an answer with a card number.
pub fn faults_tell_no_number()
    ensures { FaultsTellNoNumber }
{}

/// Vaults that agree on a merchant's rows and on a caller's records send that caller the same texts there.
pub fn texts_are_isolated()
    ensures { TextsAreIsolated }
{}

/// Two services, over sources, writers and tables of any kinds, that served the same bytes to the end, with
/// the same pairs, from the same vault, sent the same bytes, told the same and keep the same vault; but where
/// some beginning of the bytes is ambiguous after its whole messages, their last answers may differ.
pub fn services_agree<W: Write, T: Tables, S: Source, X: Write, U: Tables, P: Source>()
    ensures { EachPassage S.given W.contents T.is_honest T.holds T.leaves
        (λ w. EachPassage P.given X.contents U.is_honest U.holds U.leaves (λ v. ServicesAgree w v)) }
{}

/// Bytes that are whole messages, or a beginning of some, are ambiguous nowhere.
pub fn messages_are_clear()
    ensures { MessagesAreClear }
{}

/// A service that stopped, by any fault, sent a beginning of what one sends that serves the same bytes to the
/// end from the same vault, with the same pairs and maybe more; but where some beginning of the bytes is
/// ambiguous after its whole messages, their last answers may differ.
pub fn stopped_services_agree<W: Write, T: Tables, S: Source, X: Write, U: Tables, P: Source>()
    ensures { EachPassage S.given W.contents T.is_honest T.holds T.leaves
        (λ w. EachPassage P.given X.contents U.is_honest U.holds U.leaves (λ v. StoppedServicesAgree w v)) }
{}
