//! Expressions with their depths.

ghost use Rattle.std.specs.Prelude.{◌≡◌, []};
ghost use Rattle.awk_grammar.specs.Trees.{Length};
ghost use Rattle.awk_grammar.specs.View.{view};
ghost use Rattle.awk_parse.specs.Depths.{capped, tree_depth, trees_depth};

use awk_grammar::Expr;
use std::alloc::Global;

/// An expression and its depth.
#[derive(Drop)]
pub(crate) struct Deep {
    pub(crate) tree: Expr,
    pub(crate) depth: u64,
    ghost exact: { depth ≡ capped (tree_depth tree) },
}

/// An expression on the heap, and its depth.
#[derive(Drop)]
pub(crate) struct Part {
    pub(crate) tree: Box<Expr>,
    pub(crate) depth: u64,
    ghost exact: { depth ≡ capped (tree_depth tree.value) },
}

/// Expressions, and the greatest depth among them.
#[derive(Drop)]
pub(crate) struct DeepList {
    pub(crate) trees: Vec<Expr>,
    pub(crate) depth: u64,
    ghost exact: { depth ≡ capped (trees_depth trees.items) },
}

/// `length`, which needs no memory: so it also stands for nothing where reading stopped.
pub(crate) fn length() -> Deep
    ensures { view result.tree ≡ Length }
{
    Deep {
        tree: Expr::Length,
        depth: 1,
    }
}

/// No expressions.
pub(crate) fn none(alloc: Global) -> DeepList
    ensures { result.trees.items ≡ [] }
{
    DeepList {
        trees: Vec::new(alloc),
        depth: 0,
    }
}
