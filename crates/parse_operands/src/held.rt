//! What a rule holds while it reads on.
ghost use Rattle.std.specs.Prelude.{◌≡◌};

/// What a rule holds while it reads on. Where it reads no more, this is let go in a function of its own, so that the frame of a
/// rule, which stands once a level of nesting, has no place for what stands in a box.
pub struct Held<T: Drop> {
    /// What is held.
    pub value: T,
}

impl<T: Drop> Drop for Held<T> {
    #[inline(never)]
    fn drop(self) {
        let Held { value: _value } = self;
    }
}

impl<T: Drop> Held<T> {
    /// What was held.
    #[inline(always)]
    pub fn take(self) -> T
        ensures { result ≡ self.value }
    {
        let Held { value } = self;
        value
    }
}
