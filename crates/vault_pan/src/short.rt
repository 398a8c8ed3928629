//! The holder of short texts: up to `N` bytes that lie in the value itself.
ghost use Rattle.std.specs.Prelude.{◌≡◌, ◌+◌, ◌<◌, ◌≤◌, [], ◌∷◌, ◌++◌, length, Some, nat_eq, refl};
ghost use Rattle.std.specs.Ordering.{nat_cmp};
ghost use Rattle.std.specs.Cmp.{partial_equiv_from_equiv};
ghost use Rattle.std.specs.Cmp.Lexicographic.{pointwise, slice_cmp, nat_list_eq_equiv, nat_list_cmp_total};
ghost use Rattle.std.specs.Cmp.Lexicographic.{texts_po, texts_ties};

use std::cmp::Ordering;
use std::marker::Model;

/// A text of up to `N` bytes, which takes no memory. Contracts see the list of its bytes.
///
/// Texts are compared byte by byte, and a text stands before each that it begins. There is no `Debug`: they
/// may be a card number's.
#[derive(Clone, Copy)]
pub struct Short<const N: usize> {
    cells: [u8; N],
    len: usize,
}

impl<const N: usize> Model for Short<N> {
    ghost use Rattle.std.specs.Prelude.{◌≡◌, ℕ, ◌≤◌, List, length, take};
    ghost use Rattle.std.proofs.Common.{arith, sym, length-take-le};
    ghost use Rattle.vault_pan.specs.ShortTexts.{padded};

    ghost Value = { List ℕ };

    ghost view = { λ s. take s.len s.cells };

    ghost invariant = { λ s. (s.len ≤ N) × (length s.cells ≡ N) × (s.cells ≡ padded N (take s.len s.cells)) };

    ghost inverse = { λ xs. record { cells = padded N xs; len = length xs } };

    ghost inverse_ok = { λ s h i. record {
      cells = sym h.2 i;
      len = length-take-le s.len s.cells (omega (arith, h.0, h.1)) i;
    } };
}

impl<const N: usize> Short<N> {
    /// The empty text.
    pub fn new() -> Self
        ensures { result ≡ [] }
    {
        Short {
            cells: [0; N],
            len: 0,
        }
    }

    /// How many bytes there are.
    pub fn len(&self) -> usize
        // it is the number of the bytes
        ensures value { result ≡ length self.now }
        // it is at most `N`
        ensures fits { result ≤ N }
    {
        self.len
    }

    /// The bytes.
    pub fn bytes(&self) -> &[u8]
        // these are the text's own bytes
        ensures value { result.now ≡ self.now }
    {
        &self.cells[..self.len]
    }

    /// Appends a byte.
    pub fn push(&mut self, byte: u8)
        // there is room for one more
        requires { length self.old < N }
        // the byte stands behind those before
        ensures { self.new ≡ self.old ++ byte ∷ [] }
    {
        self.cells[self.len] = byte;
        self.len += 1;
    }

    /// Appends bytes.
    pub fn extend(&mut self, bytes: &[u8])
        // there is room for them
        requires { length self.old + length bytes.now ≤ N }
        // the bytes stand behind those before
        ensures { self.new ≡ self.old ++ bytes.now }
    {
        for byte in bytes {
            self.push(*byte);
        }
    }
}

impl<const N: usize> PartialEq for Short<N> {
    ghost eq = { pointwise nat_eq };

    ghost laws = { partial_equiv_from_equiv nat_list_eq_equiv };

    fn eq(&self, other: &Self) -> bool {
        self.bytes() == other.bytes()
    }
}

impl<const N: usize> Eq for Short<N> {
    ghost laws = { nat_list_eq_equiv };
}

impl<const N: usize> PartialOrd for Short<N> {
    ghost partial_cmp = { λ s t. Some (slice_cmp nat_cmp s t) };

    ghost laws = { texts_po };

    fn partial_cmp(&self, other: &Self) -> Option<Ordering> {
        Some(self.cmp(other))
    }
}

impl<const N: usize> Ord for Short<N> {
    ghost cmp = { slice_cmp nat_cmp };

    ghost total = { nat_list_cmp_total };

    ghost matches_partial_cmp = { λ s t. refl };

    ghost matches_eq = { texts_ties };

    fn cmp(&self, other: &Self) -> Ordering {
        self.bytes().cmp(other.bytes())
    }
}
