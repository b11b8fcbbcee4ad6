//! The put lines whose packets are dropped.

ghost use Rattle.std.specs.Prelude.{◌≡◌, IfOk, filter_map};
ghost use Rattle.bus_model.specs.DroppedPuts.{drop_of};

use bus_rules::DropLine;
use bus_terms::PutLine;
use lwb_base::Memory;
use std::alloc::Global;

/// The lines that queued no packet, in their order. `Err` means out of memory.
pub fn drops_of(alloc: Global, puts: &[PutLine]) -> Result<Vec<DropLine>, Memory>
    ensures { IfOk result (λ drops. drops.items ≡ filter_map drop_of puts.now) }
{
    let mut drops = Vec::new(alloc);
    for put in puts {
        if let Some(drop) = dropped(put) {
            drops.push(drop)?;
        }
    }
    Ok(drops)
}

fn dropped(put: &PutLine) -> Option<DropLine>
    ensures { result ≡ drop_of put.now }
{
    match put.packet {
        Some(_) => None,
        None => Some(DropLine {
            frame: put.frame,
            node: put.node,
            stream: put.stream,
        }),
    }
}
