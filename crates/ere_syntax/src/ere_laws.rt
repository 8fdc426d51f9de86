//! Laws of regular expressions, for those who read contracts that speak of them.
ghost use Rattle.std.specs.Prelude.{◌≡◌, ℕ, ◌≤◌, List, length};
ghost use Rattle.ere_syntax.specs.Matches.{Matches};
ghost use Rattle.ere_syntax.specs.Scan.{IsEreOf};
ghost use Rattle.ere_syntax.specs.Tree.{Tree};

/// A text has at most one tree.
pub fn one_tree()
    ensures { (text : List ℕ) (t u : Tree) → IsEreOf text t → IsEreOf text u → t ≡ u }
{}

/// A match begins and ends within the text, and does not end before it begins.
pub fn matches_inside()
    ensures { (t : Tree) (text : List ℕ) (i j : ℕ) → Matches t text i j → (i ≤ j)
        × (j ≤ length text) }
{}
