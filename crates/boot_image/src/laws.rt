// What holds of all images.
ghost use Rattle.std.specs.Prelude.{◌≡◌, ◌≤◌, ℕ, List, Result, MatchResult};
ghost use Rattle.boot_image.specs.Answers.{Means};
ghost use Rattle.boot_image.specs.Entries.{Entry, Spells};
ghost use Rattle.boot_image.specs.Image.{Image};
ghost use Rattle.boot_image.specs.Same.{SameContents, ShortPaths};
ghost use Rattle.boot_image.specs.Written.{image_of};
ghost use Rattle.boot_image.specs.declared.fault.ImageFault.{ImageFault};
ghost use Rattle.boot_image.specs.declared.fault.ImageFault.TheVariants.{Memory};
ghost use Rattle.file_tree.specs.FileTree.{FileTree, most_bytes, bytes_of_all};
ghost use Rattle.file_tree.specs.Trees.{IsTree};

/// Bytes spell at most one list of entries, and so they are an image of at most one tree.
pub fn one_image()
    ensures entries { (bytes : List ℕ) (a b : List Entry) → Spells bytes a → Spells bytes b → a ≡ b }
    ensures tree { (bytes : List ℕ) (a b : FileTree) → Image bytes a → Image bytes b → a ≡ b }
{}

/// What is read of the image that is written of a tree has the paths, kinds and contents of the tree, where no path has more
/// than 1,024 bytes: `read` is any answer that `read_image` may give for the bytes that `write_image` gives. It is never
/// `NotImage`.
pub fn written_is_read()
    ensures { (tree : FileTree) → IsTree tree.nodes tree.next → bytes_of_all tree.nodes ≤ most_bytes → ShortPaths tree →
        (read : Result FileTree ImageFault) → Means (Image (image_of tree)) read →
        MatchResult read (λ after. SameContents tree after) (λ fault. fault ≡ Memory) }
{}
