//! A network: a scenario, and the reception ratios of its links.

ghost use Rattle.std.specs.Prelude.{◌≡◌, ◌<◌, ◌^◌, length, map, IfOk};
ghost use Rattle.text_readers.specs.Faults.{IsAsDefined};
ghost use Rattle.scenario_text.specs.FloodParts.{node_id};
ghost use Rattle.network_text.specs.NetworkGrammar.{network_of, network_read};

use crate::ratio_lines::{no_ratios, parse_ratios};
use drawn_links::Ratios;
use scenario_text::{ParseFault, Scenario, parse_long};
use std::alloc::Global;
use text_readers::divided;

/// Reads a text of fewer than 2^31 bytes: the lines of a scenario over the long horizon, then possibly a line whose only word is
/// `ratios`, and the ratios of its links. The first such line divides them. Without it there are no ratios.
///
/// `Line` comes if and only if a line is rejected: one of the scenario, with the line `ratios` as the one after its last, where
/// something is missing or too big; or one of the ratios (`parse_ratios`).
pub fn parse_network(alloc: Global, bytes: &[u8]) -> Result<(Scenario, Ratios), ParseFault>
    requires { length bytes.now < 2 ^ 31 }
    ensures text { IsAsDefined (network_read result) (network_of bytes.now) }
    ensures nodes { IfOk result (λ t. t.1.nodes ≡ map node_id t.0.nodes) }
{
    let Ok(division) = divided(alloc, bytes, b"ratios") else {
        return Err(ParseFault::Memory);
    };
    let scenario = parse_long(alloc, division.above)?;
    match division.below {
        Some(below) => {
            let ratios = parse_ratios(alloc, &scenario, below, division.count + 1)?;
            Ok((scenario, ratios))
        }
        None => match no_ratios(alloc, &scenario) {
            Ok(ratios) => Ok((scenario, ratios)),
            Err(_) => Err(ParseFault::Memory),
        },
    }
}
