//! The versions of an image.

/// How the tries of an image are spelled.
#[derive(Clone, Copy)]
pub enum Version {
    /// Without their kept groups: each trie keeps all groups of its keys.
    One,
    /// With the kept groups of each trie.
    Two,
}
