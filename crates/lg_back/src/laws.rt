// Laws of listings that are read back. The functions do nothing, or call once: their contracts are the laws.

ghost use Rattle.std.specs.Prelude.{◌≡◌, ◌≤◌, ℕ, List, length};
ghost use Rattle.lg_base.specs.declared.target.Target.{Target as AnyTarget};
ghost use Rattle.lg_list.specs.Back.{Back as IsBack, IsListable};
ghost use Rattle.lg_list.specs.Listing.{listing};
ghost use Rattle.lg_back.specs.Answers.{GivesBack};
ghost use Rattle.lg_back.specs.Refused.{IsBadListing};

use crate::reader::{Back, read_back};
use lg_base::{CodeBytes, Places, Stop, Target};
use lg_list::laws::listing_reads_back;
use lg_node::{LabelAddresses, NodeList};
use std::alloc::Global;

/// A text is a listing of one target and one list of bytes at most.
pub fn listings_are_of_one_code(text: &[u8])
    ensures { (t u : AnyTarget) (b c : List ℕ) → IsBack text.now t b → IsBack text.now u c → (t ≡ u) × (b ≡ c) }
{}

/// A text that is refused is no listing, and there is one line to blame.
pub fn bad_listings_have_one_line(text: &[u8])
    ensures none { (line : ℕ) (t : AnyTarget) (b : List ℕ) → IsBadListing text.now line → ¬ IsBack text.now t b }
    ensures one { (line other : ℕ) → IsBadListing text.now line → IsBadListing text.now other → line ≡ other }
{}

/// The call reads the listing of code back: the target and the bytes, or memory runs out.
pub fn listings_are_read_back(
    alloc: Global,
    text: &[u8],
    target: Target,
    code: &CodeBytes,
    nodes: &NodeList,
    places: &Places,
    labels: &LabelAddresses,
) -> Result<Back, Stop>
    requires listable { IsListable target code.now.items places.now.items nodes.now labels.now }
    requires text { text.now ≡ listing target code.now.items places.now.items nodes.now }
    requires small { length text.now ≤ 4294967294 }
    ensures { GivesBack result target code.now.items }
{
    listing_reads_back(target, code, nodes, places, labels);
    read_back(alloc, text)
}
