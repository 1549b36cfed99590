//! A wrapper for values that are secret. Nothing erases their memory.

ghost use Rattle.std.specs.Prelude.{◌≡◌};
ghost use Rattle.std.specs.Borrow.{sem};
ghost use Rattle.sspi_types.specs.Secrets.{LendsValue};

/// A value that callers are asked to treat with care. It is an ordinary value: nothing erases its
/// memory.
#[derive(Drop, PartialEq, Eq)]
pub struct Secret<T> {
    /// The value, which anyone may read and change.
    pub value: T,
}

impl<T> Secret<T> {
    /// The value itself.
    pub fn into_inner(self) -> T
        ensures { result ≡ self.value }
    {
        self.value
    }
}

impl<T> From<T> for Secret<T> {
    ghost from_gives = { λ value secret. secret ≡ record { value = value } };

    fn from(value: T) -> Secret<T> {
        Secret { value }
    }
}

impl<T> AsRef<T> for Secret<T> {
    fn as_ref(&self) -> &T
        ensures { result.now ≡ self.now.value }
    {
        &self.value
    }
}

impl<T> AsMut<T> for Secret<T> {
    fn as_mut(&mut self) -> &mut T
        ensures* writes_back { sem 𝓛 (LendsValue T.row self.entry result) }
        ensures value { result.now ≡ self.old.value }
    {
        &mut self.value
    }
}
