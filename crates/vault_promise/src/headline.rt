//! The sentences of the headline, of any runs of the program on one file: what each says follows from the
//! promise, whose clauses are all that its proof takes of the program.
ghost use Rattle.vault_app.specs.World.{world_at};
ghost use Rattle.vault_promise.specs.OpenedSound.{FilesOpenSound};
ghost use Rattle.vault_promise.specs.Sentences.{AnswersAreKept, ChangesAreWhole, CountsAreWithin, DoneIsDone};
ghost use Rattle.vault_promise.specs.Sentences.{MomentsAreTold, MovesKeepTheVault, NumbersAreCounted};
ghost use Rattle.vault_promise.specs.Sentences.{NumbersGoToNobodyElse, NumbersStayApart};
ghost use Rattle.vault_promise.specs.Sentences.{RequestsAnswerOnceEver, RightsFollowTheirList, StopsAreSpared};
ghost use Rattle.vault_promise.specs.Sentences.{SentencesHoldTogether, TokensYield};

use crate::laws::{each_is_due, faults_tell_no_number, only_due_is_given, texts_tell_numbers};
use crate::{promise_is_kept, rights_become_exact};
use std::io::{Read, Write};
use vault_file::paths::Paths;
use vault_listen::time::Timekeeper;
use vault_live::desk::Desk;
use vault_recover::laws::{given_is_within, requests_answer_once};

/// No two card numbers ever share a merchant's token, and no token passes the card check: not in the vault
/// that runs leave, and at no place on the way.
pub fn numbers_stay_apart<P: Paths, K: Timekeeper, D: Desk, R: Read, W: Write, E: Write>()
    ensures { NumbersStayApart }
{
    promise_is_kept::<P, K, D, R, W, E>()
}

/// A live token yields its number to a caller that is entitled, at each place on the way of runs; and a message
/// that asks for it is answered by a text with it.
pub fn tokens_yield_to_those_entitled<
    P: Paths,
    K: Timekeeper,
    D: Desk,
    R: Read,
    W: Write,
    E: Write,
>()
    ensures { TokensYield }
{
    texts_tell_numbers();
    promise_is_kept::<P, K, D, R, W, E>()
}

/// A number goes out to nobody else: each text of a run that reads as an answer with a number answers a
/// message that asks for it, of a live token, by a caller that is entitled.
///
/// Beside the promise its proof takes the laws of texts: no other text reads as such an answer.
pub fn numbers_go_to_nobody_else<P: Paths, K: Timekeeper, D: Desk, R: Read, W: Write, E: Write>()
    ensures { NumbersGoToNobodyElse }
{
    only_due_is_given();
    each_is_due();
    faults_tell_no_number();
    promise_is_kept::<P, K, D, R, W, E>()
}

/// Moments are told: a run's task is done at a moment that its words fix, or that its clock told; and each
/// message or row is answered at one that was told for it alone.
pub fn moments_are_told<P: Paths, K: Timekeeper, D: Desk, R: Read, W: Write, E: Write>()
    ensures { MomentsAreTold }
{
    promise_is_kept::<P, K, D, R, W, E>()
}

/// Each number that goes out is counted: the counts grow by the numbers that runs gave at least.
pub fn numbers_are_counted<P: Paths, K: Timekeeper, D: Desk, R: Read, W: Write, E: Write>()
    ensures { NumbersAreCounted }
{
    promise_is_kept::<P, K, D, R, W, E>()
}

/// What went out of a run is kept: each later run opens a vault in which it is done.
pub fn answers_are_kept<P: Paths, K: Timekeeper, D: Desk, R: Read, W: Write, E: Write>()
    ensures { AnswersAreKept }
{
    promise_is_kept::<P, K, D, R, W, E>()
}

/// A change that a stop cut off is done whole or not at all, and the bytes say which.
pub fn changes_are_whole<P: Paths, K: Timekeeper, D: Desk, R: Read, W: Write, E: Write>()
    ensures { ChangesAreWhole }
{
    promise_is_kept::<P, K, D, R, W, E>()
}

/// A run that ended done did its task whole; or it gave help, or is a trial, a check or a move.
pub fn what_is_done_is_whole<P: Paths, K: Timekeeper, D: Desk, R: Read, W: Write, E: Write>()
    ensures { DoneIsDone }
{
    promise_is_kept::<P, K, D, R, W, E>()
}

/// What a stop leaves is refused by neither 30 nor 31; but a file that is older, or half moved, only its move
/// isn't refused so.
pub fn stops_are_spared<P: Paths, K: Timekeeper, D: Desk, R: Read, W: Write, E: Write>()
    ensures { StopsAreSpared }
{
    promise_is_kept::<P, K, D, R, W, E>()
}

/// A move keeps the vault, in some schema at each stop, and in the newest where it is done.
pub fn moves_keep_the_vault<P: Paths, K: Timekeeper, D: Desk, R: Read, W: Write, E: Write>()
    ensures { MovesKeepTheVault }
{
    promise_is_kept::<P, K, D, R, W, E>()
}

/// Rights that a run makes by a list are exactly those of a text that its file had: before the run, or at two
/// looks of a service, one after the other.
pub fn rights_follow_their_list<P: Paths, K: Timekeeper, D: Desk, R: Read, W: Write, E: Write>()
    ensures { RightsFollowTheirList }
{
    rights_become_exact();
    promise_is_kept::<P, K, D, R, W, E>()
}

/// A file is opened only where its rows are those of a sound vault, or where it has no table.
///
/// It is of any run, whatever the bytes are: those above are of runs from a sound vault on.
pub fn files_open_where_sound<P: Paths, K: Timekeeper, D: Desk, R: Read, W: Write, E: Write>()
    ensures { FilesOpenSound P.Disk.Disk R.remaining W.contents E.contents
        (λ (time : K) (desk : D) (paths : P). world_at P.Paths (K.tells time) (D.says desk) paths) }
{
    promise_is_kept::<P, K, D, R, W, E>()
}

/// Where the vault was once empty, a merchant's count lies between the numbers answered since then and those
/// that may have been given.
pub fn counts_are_within<P: Paths, K: Timekeeper, D: Desk, R: Read, W: Write, E: Write>()
    ensures { CountsAreWithin }
{
    given_is_within();
    promise_is_kept::<P, K, D, R, W, E>()
}

/// Where the vault was once empty, one request of a caller was ever answered one token.
pub fn requests_answer_once_ever<P: Paths, K: Timekeeper, D: Desk, R: Read, W: Write, E: Write>()
    ensures { RequestsAnswerOnceEver }
{
    requests_answer_once();
    promise_is_kept::<P, K, D, R, W, E>()
}

/// All these sentences hold of one reading of the runs.
///
/// Each law alone may read them in a way of its own, as a command that was undecided is done or not.
pub fn sentences_hold_together<P: Paths, K: Timekeeper, D: Desk, R: Read, W: Write, E: Write>()
    ensures { SentencesHoldTogether }
{
    only_due_is_given();
    each_is_due();
    faults_tell_no_number();
    texts_tell_numbers();
    rights_become_exact();
    promise_is_kept::<P, K, D, R, W, E>()
}
