//! Why reading stopped.

/// Why reading stopped, with the line of the token at which it did; none: after the last token.
#[derive(Clone, Copy)]
pub enum Refusal {
    /// The tokens do not go on as the grammar wants.
    Syntax(Option<usize>),
    /// What is read there is deeper than the limit.
    TooDeep(Option<usize>),
    /// Memory was refused.
    NoMemory,
}
