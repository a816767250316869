// A text that has been read.

use crate::node_list::NodeList;
use lg_base::DataImage;

/// A text that has been read: its nodes with their labels, and the bytes of its data part (at most 16,777,216).
#[derive(Drop)]
pub struct Unit {
    /// The nodes, and the labels with their places.
    pub nodes: NodeList,
    /// The bytes of the data part.
    pub image: DataImage,
}
