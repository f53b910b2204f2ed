//! What a checker finds on a volume: a kind, a page and a value.

ghost use Rattle.std.specs.Prelude.{◌≡◌};
ghost use Rattle.jfs_findings.specs.Kind.{number_of, name_of};

/// What is wrong with a volume. Each kind has a number, by which findings are in order.
#[derive(Clone, Copy, PartialEq, Eq, PartialOrd, Ord, Debug)]
pub enum FindingKind {
    /// A rule that a mount looks at is broken.
    Aggregate = 1,
    /// A page of the inode map isn't as the inodes in use say.
    Iag,
    /// An inode in use breaks a rule.
    Inode,
    /// An extent tree breaks a rule.
    Xtree,
    /// A directory tree breaks a rule.
    Dtree,
    /// A block has two owners.
    Shared,
    /// A block behind the file system part has an owner.
    Outside,
    /// A name leads to no object.
    Name,
    /// A link count isn't that of the names.
    Links,
    /// A directory's parent isn't the directory that names it.
    Parent,
    /// An inode's number of blocks isn't that of the blocks that it owns.
    Nblocks,
    /// An extent begins behind the size.
    Past,
    /// A page of an extent tree has too few entries.
    Thin,
    /// A block's bit isn't as its owners say.
    Map,
    /// A page of the block map isn't as the owners say.
    Bmap,
}

impl FindingKind {
    /// The kind's number: 1 to 15.
    pub fn number(self) -> u32
        ensures { result ≡ number_of self }
    {
        self as u32
    }

    /// The kind's name, as it is printed.
    pub fn name(self) -> &'static str
        ensures { result.now ≡ name_of self }
    {
        match self {
            FindingKind::Aggregate => "aggregate",
            FindingKind::Iag => "iag",
            FindingKind::Inode => "inode",
            FindingKind::Xtree => "xtree",
            FindingKind::Dtree => "dtree",
            FindingKind::Shared => "shared",
            FindingKind::Outside => "outside",
            FindingKind::Name => "name",
            FindingKind::Links => "links",
            FindingKind::Parent => "parent",
            FindingKind::Nblocks => "nblocks",
            FindingKind::Past => "past",
            FindingKind::Thin => "thin",
            FindingKind::Map => "map",
            FindingKind::Bmap => "bmap",
        }
    }
}

/// One thing that is wrong with a volume: its kind, the page where it shows, and an inode, a block or another number that it concerns.
#[derive(Clone, Copy, PartialEq, Eq, PartialOrd, Ord, Debug)]
pub struct Finding {
    pub kind: FindingKind,
    pub page: u32,
    pub value: u64,
}
