//! The links that lead from a node.

ghost use Rattle.link_trace.specs.Order.{Ascends, by_link};
ghost use Rattle.air_check.specs.SenderLinks.{HaveLinksFrom};

use link_trace::LinkLine;
use lwb_base::NodeId;

/// The links from the node, ascending by the receiver.
pub(crate) fn links_from(links: &[LinkLine], node: NodeId) -> &[LinkLine]
    requires { Ascends by_link links.now }
    ensures { HaveLinksFrom links.now node result.now }
{
    let first = links.partition_point(|l| l.from < node);
    let rest = &links[first..];
    let count = rest.partition_point(|l| l.from <= node);
    &rest[..count]
}
