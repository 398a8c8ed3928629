//! When a text that is followed is taken.
ghost use Rattle.std.specs.Prelude.{◌≡◌, ◌⊎◌, IsTrue, None, Some};
ghost use Rattle.std.specs.Bool.{Decides};
ghost use Rattle.vault_live.specs.Following.{in_force, pending_of, taken_of, text_in};

/// A text that is followed: the one in force, one that was refused, and the one of the last look where it is
/// another.
#[derive(Drop)]
pub struct Followed<'x> {
    /// The text that was in force before the first look.
    pub(crate) began: &'x [u8],
    /// The one that was taken last since, where one was.
    pub(crate) taken: Option<Vec<u8>>,
    /// The one that was refused, where the looks since saw no other.
    refused: Option<Vec<u8>>,
    /// The one of the last look, where it is neither.
    pub(crate) pending: Option<Vec<u8>>,
}

/// Whether a text that is kept is this one.
fn is_same(text: &Option<Vec<u8>>, other: &Vec<u8>) -> bool
    ensures { Decides result (text_in text.now ≡ Some other.now.items) }
{
    match text {
        Some(text) => text == other,
        None => false,
    }
}

impl<'x> Followed<'x> {
    /// One that begins with a text that is in force.
    pub fn new(began: &'x [u8]) -> Followed<'x>
        ensures force { in_force result ≡ began.now }
        ensures none { pending_of result ≡ None }
        ensures untaken { taken_of result ≡ None }
    {
        Followed {
            began,
            taken: None,
            refused: None,
            pending: None,
        }
    }

    /// The text in force.
    fn text(&self) -> &[u8]
        ensures { result.now ≡ in_force self.now }
    {
        match &self.taken {
            Some(text) => text.as_slice(),
            None => self.began,
        }
    }

    /// Whether a text that a look found is settled and new: the look before saw it too, and it is neither the
    /// one in force nor the one that was refused.
    pub(crate) fn is_settled(&self, text: &Vec<u8>) -> bool
        // it was the file's at the look before
        ensures { IsTrue result → pending_of self.now ≡ Some text.now.items }
    {
        self.text() != text.as_slice() && is_same(&self.pending, text)
    }

    /// A look found this text, which isn't settled and new: it waits to be seen again, where it is neither
    /// the one in force nor the one that was refused.
    pub(crate) fn wait(&mut self, text: Vec<u8>)
        // one that was refused doesn't wait
        ensures once { text_in self.old.refused ≡ Some text.items → pending_of self.new ≡ None }
        // none is refused by that
        ensures open { (self.new.refused ≡ self.old.refused) ⊎ (self.new.refused ≡ None) }
        ensures force { in_force self.new ≡ in_force self.old }
        ensures taken { taken_of self.new ≡ taken_of self.old }
        // what waits to be seen again is this text, or nothing
        ensures pending { (pending_of self.new ≡ None) ⊎ (pending_of self.new ≡ Some text.items) }
    {
        self.pending = None;
        if is_same(&self.refused, &text) {
            return;
        }
        self.refused = None;
        if self.text() != text.as_slice() {
            self.pending = Some(text);
        }
    }

    /// A settled text is a good list: it is in force.
    pub(crate) fn take(&mut self, text: Vec<u8>)
        ensures force { in_force self.new ≡ text.items }
        ensures taken { taken_of self.new ≡ Some text.items }
        ensures none { pending_of self.new ≡ None }
    {
        self.pending = None;
        self.refused = None;
        self.taken = Some(text);
    }

    /// A settled text is no good list, or isn't whole: the one in force stays, and this one isn't looked into
    /// again until another was seen.
    pub(crate) fn refuse(&mut self, text: Vec<u8>)
        // it is remembered as refused
        ensures refused { text_in self.new.refused ≡ Some text.items }
        ensures force { in_force self.new ≡ in_force self.old }
        ensures taken { taken_of self.new ≡ taken_of self.old }
        ensures none { pending_of self.new ≡ None }
    {
        self.pending = None;
        self.refused = Some(text);
    }

    /// The file wasn't read: what comes next has to be seen twice.
    pub(crate) fn lose(&mut self)
        ensures open { self.new.refused ≡ self.old.refused }
        ensures force { in_force self.new ≡ in_force self.old }
        ensures taken { taken_of self.new ≡ taken_of self.old }
        ensures none { pending_of self.new ≡ None }
    {
        self.pending = None;
    }
}
