//! The bytes with which matches begin: a search looks for the next of them, where there are few by `memchr`.
ghost use Rattle.std.specs.Prelude.{◌≡◌, ◌<◌, ◌≤◌, ℕ, Some, false, length, slice_get, true};
ghost use Rattle.memchr.specs.Find.{is_byte3};
ghost use Rattle.std.proofs.Common.{get_or};
ghost use Rattle.ere_match.specs.Leads.{IsLead, IsLedNode, IsWider, are_told, lead_has};
ghost use Rattle.ere_match.specs.Runs.{filter_set};

use crate::node::{Filter, Node};
use crate::threads::{clear, close, mark};
use memchr::{memchr, memchr2, memchr3};

/// The bytes of which one stands where a match begins.
#[derive(Clone, Copy)]
pub(crate) enum Lead {
    /// There is no match.
    Nothing,
    One(u8),
    Two(u8, u8),
    Three(u8, u8, u8),
    /// There are more: those that are marked.
    More([bool; 256]),
    /// A match can be empty.
    Any,
}

/// These marks and that of one byte more.
fn marked(marks: [bool; 256], byte: u8) -> [bool; 256]
    ensures kept { (other : ℕ) → get_or marks other false ≡ true → get_or result other false
        ≡ true }
    ensures here { get_or result byte false ≡ true }
{
    let mut marks = marks;
    marks[usize::from(byte)] = true;
    marks
}

/// The marks of these three bytes.
fn marks_of(a: u8, b: u8, c: u8) -> [bool; 256]
    ensures { (byte : ℕ) → is_byte3 a b c byte ≡ true → get_or result byte false ≡ true }
{
    let one = marked([false; 256], a);
    let two = marked(one, b);
    marked(two, c)
}

/// The first place not before `at` of a byte that is marked, or the end of the text.
fn find_marked(marks: &[bool; 256], text: &[u8], at: usize) -> usize
    requires { at ≤ length text.now }
    ensures after { at ≤ result }
    ensures inside { result ≤ length text.now }
    ensures none { (place : ℕ) → at ≤ place → place < result
        → get_or marks.now (get_or text.now place 0) false ≡ false }
    ensures found { result < length text.now → get_or marks.now (get_or text.now result 0) false
        ≡ true }
{
    for place in at..text.len() {
        if marks[usize::from(text[place])] {
            return place;
        }
    }
    text.len()
}

impl Lead {
    /// Whether the byte is one of them.
    fn has(&self, byte: u8) -> bool
        ensures { result ≡ lead_has self.now byte }
    {
        match self {
            Lead::Nothing => false,
            Lead::One(a) => byte == *a,
            Lead::Two(a, b) => byte == *a || byte == *b,
            Lead::Three(a, b, c) => byte == *a || byte == *b || byte == *c,
            Lead::More(marks) => marks[usize::from(byte)],
            Lead::Any => true,
        }
    }

    /// These bytes and one more.
    fn with(self, byte: u8) -> Lead
        ensures wider { IsWider self result }
        ensures has { lead_has result byte ≡ true }
    {
        if self.has(byte) {
            return self;
        }
        match self {
            Lead::Nothing => Lead::One(byte),
            Lead::One(a) => Lead::Two(a, byte),
            Lead::Two(a, b) => Lead::Three(a, b, byte),
            Lead::Three(a, b, c) => Lead::More(marked(marks_of(a, b, c), byte)),
            Lead::More(marks) => Lead::More(marked(marks, byte)),
            Lead::Any => Lead::Any,
        }
    }

    /// These bytes and those that the filter lets through.
    fn with_filter(self, filter: &Filter) -> Lead
        ensures wider { IsWider self result }
        ensures has { (byte : ℕ) → byte < 256 → slice_get (filter_set filter.now) byte ≡ Some true
            → lead_has result byte ≡ true }
    {
        let mut lead = self;
        for byte in 0..256usize {
            if filter.takes(byte as u8) {
                lead = lead.with(byte as u8);
            }
        }
        lead
    }

    /// These bytes and those with which a match begins at the node.
    fn with_node(self, node: &Node) -> Lead
        ensures wider { IsWider self result }
        ensures node { IsLedNode result (Some node.now) }
    {
        match node {
            Node::Take(filter, _) => self.with_filter(filter),
            Node::Accept => Lead::Any,
            _ => self,
        }
    }

    /// Whether a search for them is of use.
    #[inline(always)]
    pub(crate) fn are_told(&self) -> bool
        ensures { result ≡ are_told self.now }
    {
        !matches!(self, Lead::Any)
    }

    /// The first place not before `at` where a match can begin, or the end of the text.
    pub(crate) fn find(&self, text: &[u8], at: usize) -> usize
        requires { at ≤ length text.now }
        ensures after { at ≤ result }
        ensures inside { result ≤ length text.now }
        ensures none { (place : ℕ) → at ≤ place → place < result
            → lead_has self.now (get_or text.now place 0) ≡ false }
        ensures found { result < length text.now → lead_has self.now (get_or text.now result 0)
            ≡ true }
    {
        let rest = &text[at..];
        let found = match self {
            Lead::Nothing => None,
            Lead::One(a) => memchr(*a, rest),
            Lead::Two(a, b) => memchr2(*a, *b, rest),
            Lead::Three(a, b, c) => memchr3(*a, *b, *c, rest),
            Lead::More(marks) => return find_marked(marks, text, at),
            Lead::Any => return at,
        };
        match found {
            Some(place) => at + place,
            None => text.len(),
        }
    }
}

/// The bytes with which matches begin.
pub(crate) fn lead_of(nodes: &[Node], entry: usize, set: &mut [Option<usize>]) -> Lead
    requires { length set.old ≡ length nodes.now }
    ensures len { length set.new ≡ length set.old }
    ensures lead { IsLead nodes.now entry result }
{
    clear(set);
    mark(set, entry, 0);
    close(nodes, set, 0, true, true);
    let mut lead = Lead::Nothing;
    for id in 0..nodes.len() {
        if set[id].is_some() {
            lead = lead.with_node(&nodes[id]);
        }
    }
    lead
}
