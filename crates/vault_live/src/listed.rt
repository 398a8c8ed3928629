//! What a text comes to as a list, and at a look.
ghost use Rattle.std.specs.Prelude.{◌≡◌, ◌⊎◌, None, Some, false, true};
ghost use Rattle.vault_live.specs.Following.{in_force, pending_of, taken_of};
ghost use Rattle.vault_live.specs.ListedTexts.{IfFaulty, IfGood};
ghost use Rattle.vault_live.specs.Taking.{IfRefused, IfTaken, IfUntaken};
ghost use Rattle.vault_live.specs.Following.{is_whole as is_whole_text};

use crate::follower::Followed;
use crate::kind::Kind;
use crate::whole::is_whole;
use std::alloc::Global;

/// What a text comes to as a list.
#[derive(Drop)]
pub enum Listed<R> {
    /// It isn't known: memory was refused.
    Unknown,
    /// It is no good list, and is refused by this number.
    Faulty(u8),
    /// It is a good list of these rows.
    Good(Vec<R>),
}

/// What comes of a text at a look.
#[derive(Drop)]
pub(crate) enum Taken<R> {
    /// Nothing: it isn't settled and new, or memory was refused for it.
    Nothing,
    /// It isn't whole.
    Unfinished,
    /// It is no good list, and is refused by this number.
    Faulty(u8),
    /// It is a good list of these rows, and in force.
    Good(Vec<R>),
}

/// What comes of the text that a file has at a look, where it is settled and new. A list that is whole and
/// good is in force then. Where memory was refused for it, it has to be seen twice again.
pub(crate) fn take_list<L: Kind>(alloc: Global, list: &mut Followed, text: Vec<u8>) -> Taken<L::Row>
    // the rows are those of the text, which the look before saw too
    ensures good { IfTaken result (λ rows. (pending_of list.old ≡ Some text.items)
        × L.names text.items rows) }
    // it is whole, and in force then
    ensures taken { IfTaken result (λ rows. (is_whole_text text.items ≡ true)
        × (taken_of list.new ≡ Some text.items) × (in_force list.new ≡ text.items)) }
    // else the one in force stays
    ensures stays { IfUntaken result ((taken_of list.new ≡ taken_of list.old)
        × (in_force list.new ≡ in_force list.old)) }
    // one that is unfinished isn't whole
    ensures unfinished { result ≡ Taken.Unfinished → is_whole_text text.items ≡ false }
    // one that is refused is whole, and the number is that of its fault
    ensures faulty { IfRefused result (λ number. (is_whole_text text.items ≡ true)
        × L.faults text.items number) }
    // one of which nothing is said isn't refused
    ensures open { result ≡ Taken.Nothing → (list.new.refused ≡ list.old.refused) ⊎ (list.new.refused ≡ None) }
    // what waits to be seen again is this text, or nothing
    ensures pending { (pending_of list.new ≡ None) ⊎ (pending_of list.new ≡ Some text.items) }
{
    if !list.is_settled(&text) {
        list.wait(text);
        return Taken::Nothing;
    }
    if !is_whole(text.as_slice()) {
        list.refuse(text);
        return Taken::Unfinished;
    }
    match L::read(alloc, text.as_slice()) {
        Listed::Unknown => {
            list.lose();
            Taken::Nothing
        }
        Listed::Faulty(number) => {
            list.refuse(text);
            Taken::Faulty(number)
        }
        Listed::Good(rows) => {
            list.take(text);
            Taken::Good(rows)
        }
    }
}
