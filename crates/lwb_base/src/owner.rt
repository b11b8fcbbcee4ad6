//! Owners of data slots.

ghost use Rattle.std.specs.Prelude.{◌≡◌, ◌≤◌, SomeIff};
ghost use Rattle.lwb_base.specs.Messages.{code as code_of, node_of, stream_of};

use crate::NodeId;
use std::marker::Model;

/// The owner of a data slot: a stream of a node. Contracts see its code, 4 times the node plus the stream, which is
/// 4 to 803.
#[derive(Clone, Copy, Debug, PartialEq, Eq, PartialOrd, Ord)]
pub struct Owner {
    code: u16,
}

impl Model for Owner {
    ghost use Rattle.std.specs.Prelude.{ℕ, ◌≤◌};

    ghost Value = { ℕ };

    ghost view = { λ o. o.code };

    ghost invariant = { λ o. (4 ≤ o.code) × (o.code ≤ 803) };

    ghost inverse = { λ n. record { code = n } };
}

impl Owner {
    /// The owner that is this stream, 0 to 3, of the node.
    pub fn new(node: NodeId, stream: u8) -> Owner
        requires { stream ≤ 3 }
        ensures { result ≡ code_of node stream }
    {
        Owner {
            code: u16::from(node.number()) * 4 + u16::from(stream),
        }
    }

    /// Returns `None` if and only if the code is outside 4 to 803.
    pub fn from_code(code: u16) -> Option<Owner>
        ensures { SomeIff result ((4 ≤ code) × (code ≤ 803)) code }
    {
        if 4 <= code && code <= 803 {
            Some(Owner { code })
        } else {
            None
        }
    }

    /// Four times the id and the stream: 4 to 803.
    pub fn code(&self) -> u16
        ensures value { result ≡ self.now }
        ensures range { (4 ≤ self.now) × (self.now ≤ 803) }
    {
        self.code
    }

    /// The node of the stream.
    pub fn node(&self) -> NodeId
        ensures { result ≡ node_of self.now }
    {
        NodeId::new((self.code / 4) as u8).unwrap()
    }

    /// The stream of the node, 0 to 3.
    pub fn stream(&self) -> u8
        ensures value { result ≡ stream_of self.now }
        ensures range { result ≤ 3 }
    {
        (self.code % 4) as u8
    }
}
