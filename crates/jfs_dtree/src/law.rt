//! Laws of directories.

ghost use Rattle.std.specs.Prelude.{◌≡◌, ℕ, List, [], Ok};
ghost use Rattle.jfs_dtree.specs.Spells.{IsNamedOnWay, owned_pages, spells_names};

/// What a name's way leads to is the inode that the name names, wherever a root spells names.
pub fn way_leads_to_the_name()
    ensures { (blocks : ℕ) (pages : ℕ → List ℕ) (root name : List ℕ) → IsNamedOnWay blocks pages root name }
{}

/// A directory that spells no names has no page.
pub fn empty_directories_have_no_pages()
    ensures { (blocks : ℕ) (pages : ℕ → List ℕ) (root : List ℕ) → spells_names blocks pages root ≡ Ok [] → (n : ℕ) → owned_pages blocks pages root n ≡ 0 }
{}
