// Nodes: scalars, lists and maps.

use pn_text::Text;
use sqlite_items::Items;

/// A scalar: its text, and whether it was written plain, without quotes.
#[derive(Drop)]
pub struct Scalar {
    pub text: Text,
    pub plain: bool,
}

/// A value of the YAML subset. A map has its entries in the order of the file.
#[derive(Drop)]
pub enum Node {
    Scalar(Scalar),
    List(Items<Node>),
    Map(Items<(Text, Node)>),
}
