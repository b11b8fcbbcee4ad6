//! A request that a host keeps until it plans.

ghost use Rattle.std.specs.Prelude.{◌≡◌};
ghost use Rattle.lwb_base.specs.Messages.{code_of};

use lwb_base::NodeId;
use schedule_codec::Ack;
use std::marker::Model;
use stream_table::code_order::Coded;

// A request that a host keeps until it plans, or what is in a place for one that is not used.
#[derive(Clone, Copy)]
pub(crate) struct Kept {
    pub(crate) ask: Ack,
}

impl Model for Kept {
    ghost use Rattle.lwb_base.specs.Messages.{Ask};

    ghost Value = { Ask };

    ghost view = { λ k. k.ask };

    ghost inverse = { λ a. record { ask = a } };
}

impl Default for Kept {
    fn default() -> Kept
        ensures { result ≡ record { node = 1; boot = 1; stream = 0; interval = 0 } }
    {
        Kept {
            ask: Ack {
                node: NodeId::new(1).unwrap(),
                boot: 1,
                stream: 0,
                interval: 0,
            },
        }
    }
}

// By the code of the stream's owner.
impl Coded for Kept {
    ghost code_of = { code_of };

    fn code(&self) -> u16 {
        let stream = self.ask.stream;
        u16::from(self.ask.node.number()) * 4 + u16::from(stream)
    }
}
