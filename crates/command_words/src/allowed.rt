//! Which options a command allows.

ghost use Rattle.std.specs.Prelude.{◌≡◌};
ghost use Rattle.command_words.specs.Options.{for_audit, for_build, for_classify, for_compare};
ghost use Rattle.command_words.specs.Options.{for_replay, for_session};

/// The options that a command allows. Any other is unknown to it.
#[derive(Clone, Copy)]
pub struct Allowed {
    pub categories: bool,
    pub walk: bool,
    pub max_words: bool,
    pub stats: bool,
    pub marks: bool,
}

impl Allowed {
    /// The options of `classify`: all that there are.
    pub fn for_classify() -> Allowed
        ensures { result ≡ for_classify }
    {
        Allowed {
            categories: true,
            walk: true,
            max_words: true,
            stats: true,
            marks: true,
        }
    }

    /// The option of `build`: how many words a table may have.
    pub fn for_build() -> Allowed
        ensures { result ≡ for_build }
    {
        Allowed {
            categories: false,
            walk: false,
            max_words: true,
            stats: false,
            marks: false,
        }
    }

    /// The options of `audit`: how many categories are looked at, and how many words the merged
    /// states of a family may need.
    pub fn for_audit() -> Allowed
        ensures { result ≡ for_audit }
    {
        Allowed {
            categories: true,
            walk: false,
            max_words: true,
            stats: false,
            marks: false,
        }
    }

    /// The option of `compare`: how many words the merged states of both lists may need.
    pub fn for_compare() -> Allowed
        ensures { result ≡ for_compare }
    {
        Allowed::for_build()
    }

    /// `session` has no option.
    pub fn for_session() -> Allowed
        ensures { result ≡ for_session }
    {
        let mut none = Allowed::for_build();
        none.max_words = false;
        none
    }

    /// The options of `replay`: what is printed, of tables that are made already.
    pub fn for_replay() -> Allowed
        ensures { result ≡ for_replay }
    {
        Allowed {
            categories: true,
            walk: true,
            max_words: false,
            stats: true,
            marks: true,
        }
    }
}
