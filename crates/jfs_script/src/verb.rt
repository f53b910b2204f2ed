//! The names of calls.

ghost use Rattle.std.specs.Prelude.{◌≡◌};
ghost use Rattle.std.specs.Str.{bytes_eq};
ghost use Rattle.jfs_script.specs.Line.{verb_of, may_be_lazy};

/// Which call a line names.
#[derive(Clone, Copy, PartialEq, Eq, Debug)]
pub enum Verb {
    Mkdir,
    Create,
    Symlink,
    Link,
    Unlink,
    Rmdir,
    Rename,
    Chmod,
    Write,
    Fill,
    Truncate,
    Read,
    Stat,
    List,
    Readlink,
    Sync,
}

impl Verb {
    /// The call that a word names.
    #[tactic(auto, unfolding(crate::specs::Line::verb_of))]
    pub fn of(word: &[u8]) -> Option<Verb>
        ensures { result ≡ verb_of word.now }
    {
        if is_word(word, b"mkdir") {
            Some(Verb::Mkdir)
        } else if is_word(word, b"create") {
            Some(Verb::Create)
        } else if is_word(word, b"symlink") {
            Some(Verb::Symlink)
        } else if is_word(word, b"link") {
            Some(Verb::Link)
        } else if is_word(word, b"unlink") {
            Some(Verb::Unlink)
        } else if is_word(word, b"rmdir") {
            Some(Verb::Rmdir)
        } else if is_word(word, b"rename") {
            Some(Verb::Rename)
        } else if is_word(word, b"chmod") {
            Some(Verb::Chmod)
        } else if is_word(word, b"write") {
            Some(Verb::Write)
        } else if is_word(word, b"fill") {
            Some(Verb::Fill)
        } else if is_word(word, b"truncate") {
            Some(Verb::Truncate)
        } else if is_word(word, b"read") {
            Some(Verb::Read)
        } else if is_word(word, b"stat") {
            Some(Verb::Stat)
        } else if is_word(word, b"list") {
            Some(Verb::List)
        } else if is_word(word, b"readlink") {
            Some(Verb::Readlink)
        } else if is_word(word, b"sync") {
            Some(Verb::Sync)
        } else {
            None
        }
    }

    /// Whether the call may change the tree, so that a caller may be lazy about it.
    pub fn may_be_lazy(self) -> bool
        ensures { result ≡ may_be_lazy self }
    {
        !matches!(
            self,
            Verb::Read | Verb::Stat | Verb::List | Verb::Readlink | Verb::Sync
        )
    }
}

/// Whether two words are the same.
pub fn is_word(word: &[u8], wanted: &[u8]) -> bool
    ensures { result ≡ bytes_eq word.now wanted.now }
{
    word == wanted
}
