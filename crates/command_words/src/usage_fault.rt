//! What is wrong with words that are no command.

/// What is wrong with the words, and the number of the word, from 1.
#[derive(Clone, Copy, Debug, PartialEq, Eq)]
pub struct UsageFault {
    pub word: u32,
    pub kind: UsageKind,
}

/// What is wrong with a word.
#[derive(Clone, Copy, Debug, PartialEq, Eq)]
pub enum UsageKind {
    /// There is no word.
    MissingCommand,
    /// The first word isn't a command.
    UnknownCommand,
    /// The name of a file should stand here.
    MissingName,
    /// The word doesn't begin with an option of the command and its `=`.
    UnknownOption,
    /// The option was given before.
    RepeatedOption,
    /// The option can't have this value.
    BadValue,
}
