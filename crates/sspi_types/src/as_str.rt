//! A trait for values that are texts.

/// A value that is a text, borrowed as one.
pub trait AsStr {
    ghost use Rattle.std.specs.Prelude.{◌≡◌, ℕ, List};

    /// The bytes of the text.
    ghost text: { Self → List ℕ };

    /// The text.
    fn as_str(&self) -> &str
        ensures { result.now ≡ text self.now };
}
