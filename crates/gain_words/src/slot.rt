//! What some words give of an option.
ghost use Rattle.std.specs.Prelude.{◌≡◌};
ghost use Rattle.gain_words.specs.Slots.{fill, value_or};

/// What some words give of an option that is given at most once.
#[derive(Clone, Copy)]
pub enum Slot<T> {
    /// No value.
    Absent,
    /// One value, which is right.
    Once(T),
    /// A value that is wrong, or two values.
    Wrong,
}

/// The slot with one value more. `None` is a value that is wrong.
pub fn fill<T: Copy>(slot: Slot<T>, value: Option<T>) -> Slot<T>
    ensures { result ≡ fill slot value }
{
    match (slot, value) {
        (Slot::Absent, Some(value)) => Slot::Once(value),
        _ => Slot::Wrong,
    }
}

/// The value that is given, or the usual one if none is. None if the option is wrong.
pub fn value_or<T: Copy>(slot: Slot<T>, usual: T) -> Option<T>
    ensures { result ≡ value_or slot usual }
{
    match slot {
        Slot::Absent => Some(usual),
        Slot::Once(value) => Some(value),
        Slot::Wrong => None,
    }
}
