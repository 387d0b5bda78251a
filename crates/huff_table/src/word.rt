// Code words as they are kept.

/// A code word as a number, and how many bits it has: none if a value has no word.
#[derive(Clone, Copy)]
pub(crate) struct Word {
    pub(crate) code: u16,
    pub(crate) size: u8,
}

/// No code word.
pub(crate) const NONE: Word = Word { code: 0, size: 0 };

/// A value and how many bits its code word has, at most nine: none if nine bits begin with no such word.
#[derive(Clone, Copy)]
pub(crate) struct ShortWord {
    pub(crate) value: u8,
    pub(crate) size: u8,
}

/// No code word of at most nine bits.
pub(crate) const NO_SHORT: ShortWord = ShortWord { value: 0, size: 0 };
