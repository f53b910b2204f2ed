//! The format's rules and their names, and the kinds of logged pages.

ghost use Rattle.std.specs.Prelude.{◌≡◌, ◌≤◌, [], ◌∷◌};
ghost use Rattle.jfs_bits.specs.Broken.{Answers};
ghost use Rattle.jfs_bits.specs.Rule.{name_of};
ghost use Rattle.jfs_bits.specs.Line.{kind_number, l2_line, line_size};

/// What a page, a record or a line of a script can break: one variant for each rule name.
#[derive(Clone, Copy, PartialEq, Eq, Debug)]
pub enum Rule {
    // The superblock.
    Short,
    Magic,
    Version,
    Bsize,
    L2bsize,
    L2bfactor,
    Pbsize,
    L2pbsize,
    Inline,
    Os2,
    Index,
    Compress,
    Size,
    Agsize,
    State,
    Log,
    Second,
    // The mount.
    Bmap,
    Imap,
    Mapsize,
    Nextiag,
    Extents,
    Root,
    // The log.
    Super,
    Ring,
    BadType,
    Length,
    Lines,
    Range,
    Place,
    Kind,
    Chain,
    Sync,
    // Inodes.
    Fields,
    Links,
    // Trees.
    Flag,
    Max,
    Count,
    Order,
    Deep,
    Slots,
    Free,
    Thin,
    Past,
    // Scripts.
    Text,
    Word,
    Lazy,
    Path,
    Name,
    Mode,
    Number,
    Hex,
    Byte,
    Target,
    // Attribute lists and longer volumes.
    Attr,
    Grow,
}

impl Rule {
    /// The rule's name, as it is printed.
    pub fn name(self) -> &'static str
        ensures { result.now ≡ name_of self }
    {
        match self {
            Rule::Short => "short",
            Rule::Magic => "magic",
            Rule::Version => "version",
            Rule::Bsize => "bsize",
            Rule::L2bsize => "l2bsize",
            Rule::L2bfactor => "l2bfactor",
            Rule::Pbsize => "pbsize",
            Rule::L2pbsize => "l2pbsize",
            Rule::Inline => "inline",
            Rule::Os2 => "os2",
            Rule::Index => "index",
            Rule::Compress => "compress",
            Rule::Size => "size",
            Rule::Agsize => "agsize",
            Rule::State => "state",
            Rule::Log => "log",
            Rule::Second => "second",
            Rule::Bmap => "bmap",
            Rule::Imap => "imap",
            Rule::Mapsize => "mapsize",
            Rule::Nextiag => "nextiag",
            Rule::Extents => "extents",
            Rule::Root => "root",
            Rule::Super => "super",
            Rule::Ring => "ring",
            Rule::BadType => "type",
            Rule::Length => "length",
            Rule::Lines => "lines",
            Rule::Range => "range",
            Rule::Place => "place",
            Rule::Kind => "kind",
            Rule::Chain => "chain",
            Rule::Sync => "sync",
            Rule::Fields => "fields",
            Rule::Links => "links",
            Rule::Flag => "flag",
            Rule::Max => "max",
            Rule::Count => "count",
            Rule::Order => "order",
            Rule::Deep => "deep",
            Rule::Slots => "slots",
            Rule::Free => "free",
            Rule::Thin => "thin",
            Rule::Past => "past",
            Rule::Text => "text",
            Rule::Word => "word",
            Rule::Lazy => "lazy",
            Rule::Path => "path",
            Rule::Name => "name",
            Rule::Mode => "mode",
            Rule::Number => "number",
            Rule::Hex => "hex",
            Rule::Byte => "byte",
            Rule::Target => "target",
            Rule::Attr => "attr",
            Rule::Grow => "grow",
        }
    }
}

/// Content where a rule holds; else the answer for it. A check of rules in their order is a row of these with `?`.
pub fn require<Answer: Drop>(holds: bool, answer: Answer) -> Result<(), Answer>
    ensures { Answers result (record { answer = answer; holds = holds } ∷ []) }
{
    if holds { Ok(()) } else { Err(answer) }
}

/// The kinds of pages that the log names, with their page types. (JFS Log, REDOPAGE.)
#[derive(Clone, Copy, PartialEq, Eq, Debug)]
pub enum PageKind {
    Inode = 1,
    Xtree = 2,
    Dtree = 4,
    Index = 8,
}

impl PageKind {
    /// The kind's number, which is the page type of a page that isn't new.
    pub fn number(self) -> u16
        ensures { result ≡ kind_number self }
    {
        self as u16
    }

    /// The logarithm of the bytes of a line, the unit of a page's ranges. (JFS Log: l2linesize.)
    pub fn l2_line(self) -> u16
        ensures value { result ≡ l2_line self }
        ensures most { result ≤ 7 }
    {
        match self {
            PageKind::Inode => 7,
            PageKind::Xtree => 4,
            PageKind::Dtree => 5,
            PageKind::Index => 4,
        }
    }

    /// The bytes of a line.
    pub fn line_size(self) -> usize
        ensures value { result ≡ line_size self }
        ensures most { result ≤ 128 }
    {
        1 << self.l2_line()
    }
}
