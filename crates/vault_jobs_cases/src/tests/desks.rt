//! A file that changes between two looks.
use std::alloc::Global;
use std::io::ErrorKind;
use vault_live::desk::Desk;

/// A file in memory, at every path. It has the first of these texts at look 1, the second one at look 2, and so
/// on; at an empty one, at look 0 and behind the last, it can't be read.
#[derive(Drop)]
pub struct TestDesk<'x> {
    alloc: Global,
    texts: &'x [&'x str],
}

impl<'x> TestDesk<'x> {
    /// The file that has these texts, one a look.
    pub fn new(alloc: Global, texts: &'x [&'x str]) -> TestDesk<'x> {
        TestDesk { alloc, texts }
    }
}

/// Each text is told at its look.
impl<'x> Desk for TestDesk<'x> {
    ghost use Rattle.std.specs.Prelude.{◌≡◌, ◌+◌, ℕ, Some, slice_get};

    ghost says = { λ desk _ look text. (at : ℕ) × (it : _) × (at + 1 ≡ look)
        × (slice_get desk.texts.now at ≡ Some it) × (text ≡ it.now) };

    fn read(&self, _path: &str, look: u64) -> Result<Vec<u8>, ErrorKind> {
        let Some(before) = look.checked_sub(1) else {
            return Err(ErrorKind::NotFound);
        };
        let Ok(at) = usize::try_from(before) else {
            return Err(ErrorKind::NotFound);
        };
        let Some(text) = self.texts.get(at) else {
            return Err(ErrorKind::NotFound);
        };
        if text.is_empty() {
            return Err(ErrorKind::NotFound);
        }
        let mut bytes = Vec::new(self.alloc);
        match bytes.extend_from_slice(text.as_bytes()) {
            Ok(()) => Ok(bytes),
            Err(_) => Err(ErrorKind::OutOfMemory),
        }
    }
}
