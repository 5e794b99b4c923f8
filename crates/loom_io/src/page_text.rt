//! Texts that are made in the page.
ghost use Rattle.std.specs.Prelude.{ℕ, ◌≡◌, ◌+◌, ◌≤◌, ◌++◌, List, length, take};

/// The most bytes of such a text.
pub const PAGE_TEXT_LIMIT: usize = 256;

/// A text of 256 bytes at most (`PAGE_TEXT_LIMIT`), made in the page.
pub trait PageText {
    /// The text.
    ghost text: { Self → List ℕ };

    /// Writes the text into the cells from a place on, and gives the place behind it. What stands before the place stays; what stands
    /// behind the text may be anything.
    fn write(&self, cells: &mut [u8], at: usize) -> usize
        requires { at + PAGE_TEXT_LIMIT ≤ length cells.old }
        ensures text { take result cells.new ≡ take at cells.old ++ text self.now }
        ensures short { result ≤ at + PAGE_TEXT_LIMIT }
        ensures len { length cells.new ≡ length cells.old };
}
