//! The lists that a service follows.
ghost use Rattle.std.specs.Prelude.{◌≡◌, option_map};
ghost use Rattle.vault_jobs.specs.Lists.{path_of, text_of as text_in};

use std::alloc::Global;
use vault_changes::changes::ListedRight;
use vault_core::moment::Moment;
use vault_live::desk::Desk;
use vault_live::following::Following;
use vault_live::lists::Shops;
use vault_live::rights::Rights;
use vault_merchants::read::ListedMerchant;

/// A list that a service follows: the rows that its file has before that, and the moment at which they become
/// the vault's; the file's path, and the text that lists them.
#[derive(Drop)]
pub struct ListFile<R> {
    pub rows: Vec<R>,
    pub now: Moment,
    pub path: String,
    pub text: Vec<u8>,
}

/// The lists that a service follows, where it follows any.
#[derive(Drop)]
pub struct Lists {
    pub merchants: Option<ListFile<ListedMerchant>>,
    pub rights: Option<ListFile<ListedRight>>,
}

/// The text of a list, where there is one.
pub(crate) fn text_of<R>(listed: &Option<ListFile<R>>) -> &[u8]
    ensures { result.now ≡ text_in listed.now }
{
    match listed {
        Some(it) => it.text.as_slice(),
        None => &[],
    }
}

/// The rights file that is followed, where there is one.
pub(crate) fn rights_of<'x, D: Desk>(
    alloc: Global,
    desk: &'x D,
    listed: &'x Option<ListFile<ListedRight>>,
) -> Option<Following<'x, D, Rights>>
    // where there is one, it is looked at by this desk
    ensures desk { option_map (λ it. it.desk.now) result ≡ option_map (λ it. desk.now) listed.now }
    ensures path { option_map (λ it. it.path.now) result ≡ option_map path_of listed.now }
{
    match listed {
        Some(it) => Some(Following::new(alloc, desk, it.path.as_str())),
        None => None,
    }
}

/// The list of merchants that is followed, where there is one.
pub(crate) fn shops_of<'x, D: Desk>(
    alloc: Global,
    desk: &'x D,
    listed: &'x Option<ListFile<ListedMerchant>>,
) -> Option<Shops<'x, D>>
    // where there is one, it is looked at by this desk, and begins with its rows
    ensures desk { option_map (λ it. it.list.desk.now) result ≡ option_map (λ it. desk.now) listed.now }
    ensures path { option_map (λ it. it.list.path.now) result ≡ option_map path_of listed.now }
    ensures rows { option_map (λ it. it.began.now) result ≡ option_map (λ it. it.rows.items) listed.now }
{
    match listed {
        Some(it) => Some(Shops::new(alloc, desk, it.path.as_str(), it.rows.as_slice())),
        None => None,
    }
}
