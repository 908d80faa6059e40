ghost use Rattle.std.specs.{
  Prelude.{◌≡◌, ℕ, ◌<◌, ◌↔◌, IsSome, IfSome, Some, decimal},
  Fmt.{DisplaysOnOk},
};
ghost use Rattle.dy_dots.specs.{Dots.{head_text}, declared.nodes.TheConstants.{MAX_NODES}};

use std::fmt;
use std::marker::Model;

/// How many nodes a cluster has at most.
pub const MAX_NODES: u8 = 32;

/// The number of a node, from 0 to 31.
#[derive(Clone, Copy, Debug, Default, PartialEq, Eq, PartialOrd, Ord)]
pub struct NodeId {
    number: u8,
}

impl Model for NodeId {
    ghost Value = { ℕ };

    ghost view = { λ node. node.number };

    ghost invariant = { λ node. node.number < MAX_NODES };

    ghost inverse = { λ number. record { number = number } };
}

impl NodeId {
    /// The node of this number, where there can be one. Takes no memory.
    pub fn new(number: u8) -> Option<NodeId>
        ensures valid { IsSome result ↔ (number < MAX_NODES) }
        ensures value { IfSome result (λ node. node ≡ number) }
    {
        if number < MAX_NODES {
            Some(NodeId { number })
        } else {
            None
        }
    }

    /// The node at this place of a list of all nodes. Takes no memory.
    pub fn nth(number: usize) -> NodeId
        requires { number < MAX_NODES }
        ensures { result ≡ number }
    {
        NodeId {
            number: number as u8,
        }
    }

    /// The node's number. Takes no memory.
    pub fn number(self) -> u8
        ensures value { result ≡ self }
        ensures small { result < MAX_NODES }
    {
        self.number
    }
}

// The texts of a number of one digit: by itself, and at the head of a dot.
#[derive(Clone, Copy)]
struct DigitTexts {
    digit: &'static str,
    head: &'static str,
}

// These texts.
fn texts(digit: &'static str, head: &'static str) -> DigitTexts
    ensures { (result.digit.now ≡ digit.now) × (result.head.now ≡ head.now) }
{
    DigitTexts { digit, head }
}

// The texts of a number, where it has one digit.
fn digit_texts(number: u8) -> Option<DigitTexts>
    ensures { IfSome result (λ texts.
        (texts.digit.now ≡ decimal number) × (texts.head.now ≡ head_text number)) }
{
    match number {
        0 => Some(texts("0", "n0:")),
        1 => Some(texts("1", "n1:")),
        2 => Some(texts("2", "n2:")),
        3 => Some(texts("3", "n3:")),
        4 => Some(texts("4", "n4:")),
        5 => Some(texts("5", "n5:")),
        6 => Some(texts("6", "n6:")),
        7 => Some(texts("7", "n7:")),
        8 => Some(texts("8", "n8:")),
        9 => Some(texts("9", "n9:")),
        _ => None,
    }
}

// Prints the head of the node's dots in one piece, where it can.
pub(crate) fn print_head<W: fmt::Write>(node: NodeId, f: &mut fmt::Formatter<W>) -> fmt::Result
    ensures { DisplaysOnOk W.write_str_gives f.old result (Some (head_text node)) f.new }
{
    match digit_texts(node.number) {
        Some(texts) => f.write_str(texts.head),
        None => write!(f, "n{}:", node.number),
    }
}

impl fmt::Display for NodeId {
    ghost output = { λ node. Some (decimal node) };

    fn fmt<W: fmt::Write>(&self, f: &mut fmt::Formatter<W>) -> fmt::Result {
        match digit_texts(self.number) {
            Some(texts) => f.write_str(texts.digit),
            None => fmt::Display::fmt(&self.number, f),
        }
    }
}
