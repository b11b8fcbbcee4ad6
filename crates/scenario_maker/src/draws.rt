//! Random draws from a seeded generator.

ghost use Rattle.std.specs.Prelude.{◌≡◌, ◌+◌, ◌%◌, ◌<◌, ◌≤◌};
ghost use Rattle.lwb_base.specs.declared.limits.TheConstants.{GREATEST_ID};
ghost use Rattle.scenario_maker.specs.Drawn.{seeded, later, drawn_word};

use lwb_base::NodeId;
use rand_core::SeedableRng;
use rand_core::utils::NextWord;
use rand_pcg::Lcg64Xsh32;
use std::marker::Model;

/// Draws from the words of a seeded generator. Contracts see the generator.
#[derive(Drop)]
pub struct Draws {
    words: Lcg64Xsh32,
}

impl Model for Draws {
    ghost use Rattle.rand_pcg.specs.Lcg.{Lcg};

    ghost Value = { Lcg };

    ghost view = { λ d. d.words };
}

impl Draws {
    /// The draws of a seed.
    #[tactic(auto, unfolding(crate::specs::Drawn::seeded))]
    pub fn of_seed(seed: u64) -> Draws
        ensures { result ≡ seeded seed }
    {
        Draws {
            words: Lcg64Xsh32::seed_from_u64(seed),
        }
    }

    /// A number below `count`, by the next word.
    #[tactic(auto, using(crate::proofs::LaterWords::first_word, crate::proofs::LaterWords::one_on))]
    pub fn below(&mut self, count: u32) -> u32
        requires { 0 < count }
        ensures value { result ≡ drawn_word self.old 0 % count }
        ensures left { self.new ≡ later 1 self.old }
    {
        self.words.next_word() % count
    }

    /// One of the nodes from 1 to `nodes`, which are at most `GREATEST_ID`.
    pub fn node(&mut self, nodes: u32) -> NodeId
        requires { (1 ≤ nodes) × (nodes ≤ GREATEST_ID) }
        ensures value { result ≡ 1 + drawn_word self.old 0 % nodes }
        ensures left { self.new ≡ later 1 self.old }
    {
        node_of(1 + self.below(nodes))
    }
}

/// The node of that number, 1 to `GREATEST_ID`.
pub fn node_of(number: u32) -> NodeId
    requires { (1 ≤ number) × (number ≤ GREATEST_ID) }
    ensures { result ≡ number }
{
    NodeId::new(number as u8).unwrap()
}
