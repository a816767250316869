// Laws of listings.

ghost use Rattle.std.specs.Prelude.{◌^◌, ◌<◌};
ghost use Rattle.std.specs.List.{All};
ghost use Rattle.lg_list.specs.Listing.{listing};
ghost use Rattle.lg_list.specs.Back.{Back, IsListable};

use lg_base::{CodeBytes, Places, Target};
use lg_node::{LabelAddresses, NodeList};

/// The listing of code, read back, gives the target and the bytes. The call changes nothing: its contract is the law.
pub fn listing_reads_back(
    target: Target,
    code: &CodeBytes,
    nodes: &NodeList,
    places: &Places,
    labels: &LabelAddresses,
)
    requires { IsListable target code.now.items places.now.items nodes.now labels.now }
    ensures { Back (listing target code.now.items places.now.items nodes.now) target code.now.items }
{
    lines_are_small(nodes);
}

// The lines of nodes are numbers of 32 bits.
fn lines_are_small(nodes: &NodeList)
    ensures { All (λ n. n.line < 2 ^ 32) nodes.now.nodes }
{
    for index in 0..nodes.len() {
        nodes.node(index);
    }
}
