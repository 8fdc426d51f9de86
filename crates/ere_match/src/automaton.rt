//! The automaton of an expression.
ghost use Rattle.ere_match.specs.Leads.{IsLead};
ghost use Rattle.ere_match.specs.Rows.{AreClasses, IsTable};

use crate::lead::Lead;
use crate::node::Node;
use crate::row::Table;
use std::fmt;

/// The automaton of an expression, with the rows that matching needed so far.
#[derive(Drop)]
pub struct Auto {
    pub(crate) nodes: Vec<Node>,
    pub(crate) entry: usize,
    pub(crate) classes: [u8; 256],
    pub(crate) lead: Lead,
    pub(crate) table: Table,
    ghost are_classes: { AreClasses nodes.items classes },
    ghost is_lead: { IsLead nodes.items entry lead },
    ghost is_table: { ∥ IsTable nodes.items entry classes table ∥₁ },
}

impl fmt::Debug for Auto {
    fn fmt<W: fmt::Write>(&self, f: &mut fmt::Formatter<W>) -> fmt::Result {
        f.debug_struct("Auto").finish_non_exhaustive()
    }
}
