//! Quotes around a word that has blanks, as iptables-save writes comments and prefixes.

ghost use Rattle.std.specs.Prelude.{◌≡◌, false};
ghost use Rattle.iptables_reader.specs.Quotes.{bare_quotes, ended_quotes, is_end, is_escape};
ghost use Rattle.iptables_reader.specs.Quotes.{first_quotes, quotes_after};

/// What the quotes of a word are after a part of it.
#[derive(Clone, Copy)]
pub(crate) enum Quotes {
    /// They ended with the part, or there are none.
    Closed,
    /// They are still open.
    Open,
    /// They ended within the part, or begin within it.
    Broken,
}

/// What the quotes are after the first part of a word.
pub(crate) fn first_quotes(text: &[u8]) -> Quotes
    ensures { result ≡ first_quotes text.now }
{
    match text {
        [] => Quotes::Closed,
        [b'"', more @ ..] => quotes_after(more),
        _ => bare_quotes(text),
    }
}

/// A word without quotes has none within it.
fn bare_quotes(text: &[u8]) -> Quotes
    ensures { result ≡ bare_quotes text.now }
{
    if text.contains(&b'"') {
        Quotes::Broken
    } else {
        Quotes::Closed
    }
}

/// What the quotes are after a part between them.
pub(crate) fn quotes_after(text: &[u8]) -> Quotes
    ensures { result ≡ quotes_after false text.now }
{
    let mut escaped = false;
    for place in 0..text.len() {
        if is_end(escaped, text[place]) {
            return ended_quotes(text.len() - place - 1);
        }
        escaped = is_escape(escaped, text[place]);
    }
    Quotes::Open
}

/// Whether a byte ends quotes: a quote that no backslash stands before.
fn is_end(escaped: bool, byte: u8) -> bool
    ensures { result ≡ is_end escaped byte }
{
    !escaped && byte == b'"'
}

/// Whether the byte after another is meant literally.
fn is_escape(escaped: bool, byte: u8) -> bool
    ensures { result ≡ is_escape escaped byte }
{
    !escaped && byte == b'\\'
}

/// Quotes that end before so many bytes of a part.
fn ended_quotes(after: usize) -> Quotes
    ensures { result ≡ ended_quotes after }
{
    if after == 0 {
        Quotes::Closed
    } else {
        Quotes::Broken
    }
}
