//! The `energy` lines of a report.

ghost use Rattle.std.specs.Prelude.{◌≡◌, ℕ, ◌++◌, Contains, List, OnOk, Some, flat_map, string_bytes};
ghost use Rattle.scenario_text.specs.declared.lines.NodeLine.{NodeLine as NodeLineOf};
ghost use Rattle.scenario_clocks.specs.StatedClocks.{scenario_clock};
ghost use Rattle.air_log.specs.Lawful.{Lawful};
ghost use Rattle.air_log.specs.declared.entry.Entry.{Entry};
ghost use Rattle.air_log.specs.NodeCharges.{charges_in};
ghost use Rattle.energy_account.specs.Accounts.{IsAccount, line_of};
ghost use Rattle.air_log.specs.declared.energy.Energy.{Energy};
ghost use Rattle.run_report.specs.RunReport.{energy_line, energy_lines};

use air_log::{Air, NodeCharge};
use energy_account::Account;
use link_trace::Links;
use lwb_base::Memory;
use scenario_text::{NodeLine, Scenario, ScenarioOver};
use std::alloc::{AllocError, Global};
use text_writers::{write_line, write_lines};

/// Writes a line for each node of the scenario: `energy NODE SENT WINDOWS SCANNED ON`, by the log of its run and what was
/// counted in it.
pub fn write_energies(
    alloc: Global,
    text: &mut String,
    s: &Scenario,
    air: &Air,
    charges: &[NodeCharge],
) -> Result<(), Memory>
    requires lawful { Lawful s.now (scenario_clock s.now) air.now }
    requires charges { charges.now ≡ charges_in s.now (scenario_clock s.now) air.now }
    ensures { OnOk result (string_bytes text.new ≡ string_bytes text.old ++ energy_lines s.now (scenario_clock s.now) air.now) }
{
    let own = ScenarioOver::new(s, s.trace());
    write_energies_over(alloc, text, &own, air, charges)
}

/// The same of a scenario over links that take the place of its trace.
pub fn write_energies_over<M: Links>(
    alloc: Global,
    text: &mut String,
    s: &ScenarioOver<'_, M>,
    air: &Air,
    charges: &[NodeCharge],
) -> Result<(), Memory>
    requires lawful { Lawful s.now (scenario_clock s.now) air.now }
    requires charges { charges.now ≡ charges_in s.now (scenario_clock s.now) air.now }
    ensures { OnOk result (string_bytes text.new ≡ string_bytes text.old ++ energy_lines s.now (scenario_clock s.now) air.now) }
{
    let account = Account::of_run(alloc, s, air, charges)?;
    write_account(text, s, &account)?;
    Ok(())
}

// The line of each node of the scenario, by the account of a log.
fn write_account<M: Links>(
    text: &mut String,
    s: &ScenarioOver<'_, M>,
    account: &Account,
) -> Result<(), AllocError>
    ensures { (air : List Entry) → IsAccount s.now (scenario_clock s.now) air account.now
        → OnOk result (string_bytes text.new ≡ string_bytes text.old ++ energy_lines s.now (scenario_clock s.now) air) }
{
    write_each(text, s.nodes(), account)
}

// The line of each of these nodes, which the account has.
fn write_each(text: &mut String, nodes: &[NodeLine], account: &Account) -> Result<(), AllocError>
    ensures { (energy : ℕ → Energy) → ((n : NodeLineOf) → Contains nodes.now n → line_of account.now n.node ≡ Some (energy n.node))
        → OnOk result (string_bytes text.new ≡ string_bytes text.old ++ flat_map (λ n. energy_line n.node (energy n.node)) nodes.now) }
{
    write_lines(text, nodes, |text, line| write_energy(text, account, line))
}

fn write_energy(text: &mut String, account: &Account, line: &NodeLine) -> Result<(), AllocError>
    ensures { (e : Energy) → line_of account.now line.now.node ≡ Some e
        → OnOk result (string_bytes text.new ≡ string_bytes text.old ++ energy_line line.now.node e) }
{
    // Each node of the scenario has a line.
    let Some(energy) = account.line(line.node) else {
        return Ok(());
    };
    let node = u64::from(line.node.number());
    let scanned = u64::from(energy.scanned);
    write_line(
        text,
        "energy",
        &[node, energy.sent, energy.windows, scanned, energy.on],
    )
}
