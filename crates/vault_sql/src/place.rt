//! The place from which a list of dead tokens begins.
ghost use Rattle.std.specs.Prelude.{◌≡◌, ◌↔◌, IsTrue, Some};
ghost use Rattle.vault_core.specs.Changes.{plus};
ghost use Rattle.vault_core.specs.Keys.{Bytes};
ghost use Rattle.vault_core.specs.Vault.{Vault};
ghost use Rattle.vault_sql.specs.DeadBefore.{HasNoDeadBefore};
ghost use Rattle.vault_sql.specs.Places.{HasNoNumber, IsPast, first_place};

use vault_core::changes::Changes;
use vault_core::moment::Moment;
use vault_core::name::MerchantId;
use vault_core::row::Entry;
use vault_pan::token::Token;

/// A token before which none of its merchant is dead at a moment.
#[derive(Clone, Copy)]
pub struct Place {
    pub(crate) merchant: MerchantId,
    pub(crate) moment: Moment,
    pub(crate) token: Token,
}

/// The text from which a list of a merchant's tokens that are dead at a moment begins: that of the place,
/// where it is of this merchant and this moment, and else the empty one.
#[tactic(auto, using(crate::proofs::Places::none_before))]
pub(crate) fn start_of<'a>(place: &'a Option<Place>, m: &MerchantId, at: Moment) -> &'a str
    // where no dead token comes before the place, none of the merchant's comes before this one at this moment
    ensures past { (V : Vault) → IsPast place.now V → HasNoDeadBefore V m.now at result.now }
    // where the place is the merchant's and of this moment, its token is given
    ensures there { (token : Bytes)
        → place.now ≡ Some (record { merchant = m.now; moment = at; token = token }) → result.now ≡ token }
{
    match place {
        Some(place) if place.merchant == *m && place.moment == at => place.token.as_str(),
        _ => "",
    }
}

/// The place of the first of a merchant's tokens that are dead at a moment.
pub(crate) fn place_of(m: MerchantId, at: Moment, tokens: &[Token]) -> Option<Place>
    ensures { result ≡ first_place m at tokens.now }
{
    match tokens.first() {
        Some(token) => Some(Place {
            merchant: m,
            moment: at,
            token: *token,
        }),
        None => None,
    }
}

/// Whether no entry with a number is written.
fn has_no_number(change: &Option<(MerchantId, Token, Entry)>) -> bool
    ensures { IsTrue result ↔ HasNoNumber change.now }
{
    match change {
        Some((_, _, entry)) => entry.number.is_none(),
        None => true,
    }
}

/// The place that stands after changes: none, where an entry with a number is written.
#[tactic(auto, using(crate::proofs::Places::still_past))]
pub(crate) fn place_after(place: &Option<Place>, ch: &Changes) -> Option<Place>
    // where no dead token comes before the place, none comes before the new one after the changes
    ensures past { (V : Vault) → IsPast place.now V → IsPast result (plus V ch.now) }
    // where the changes write no entry with a number, the place stays
    ensures stays { HasNoNumber ch.now.entry → result ≡ place.now }
{
    if has_no_number(&ch.entry) {
        *place
    } else {
        None
    }
}
