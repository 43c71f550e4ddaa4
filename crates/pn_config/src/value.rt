// What values say: texts, truth values, lists of texts, and texts under texts.
ghost use Rattle.std.specs.Prelude.{◌≡◌, ◌++◌, ◌∷◌, [], OnOk, IfOk, IfErr, Some, None};
ghost use Rattle.std.specs.Option.{option_copied};
ghost use Rattle.pn_yaml.specs.View.{view, items_view, members_view};
ghost use Rattle.pn_config.specs.Faults.{Stops};
ghost use Rattle.pn_config.specs.Values.{filled_text, flag_of, is_allowed, item_texts, member_pairs, pairs_of, text_of, texts_of, truth};

use crate::fault::Stop;
use pn_text::{Memory, Text};
use pn_yaml::Node;
use sqlite_items::Items;
use std::alloc::Global;

fn text_of(value: &Node) -> Option<&Text>
    ensures { option_copied result ≡ text_of (view value.now) }
{
    match value {
        Node::Scalar(scalar) => Some(&scalar.text),
        Node::List(_) | Node::Map(_) => None,
    }
}

fn truth(text: &str) -> Option<bool>
    ensures { result ≡ truth text.now }
{
    match text {
        "true" => Some(true),
        "false" => Some(false),
        _ => None,
    }
}

/// A truth value, which is written without quotes.
pub(crate) fn flag(value: &Node) -> Result<bool, Stop>
    ensures ok { IfOk result (λ b. flag_of (view value.now) ≡ Some b) }
    ensures fault { IfErr result (Stops (flag_of (view value.now) ≡ None)) }
{
    let Node::Scalar(scalar) = value else {
        return Err(Stop::Bad);
    };
    if !scalar.plain {
        return Err(Stop::Bad);
    }
    match truth(scalar.text.as_str()) {
        Some(truth) => Ok(truth),
        None => Err(Stop::Bad),
    }
}

/// A text other than the empty one.
pub(crate) fn filled_text(alloc: Global, value: &Node) -> Result<Text, Stop>
    ensures ok { IfOk result (λ t. filled_text (view value.now) ≡ Some t) }
    ensures fault { IfErr result (Stops (filled_text (view value.now) ≡ None)) }
{
    let Node::Scalar(scalar) = value else {
        return Err(Stop::Bad);
    };
    if scalar.text.as_str().is_empty() {
        return Err(Stop::Bad);
    }
    let text = scalar.text.copy(alloc)?;
    Ok(text)
}

/// The texts of a list.
pub(crate) fn texts(alloc: Global, value: &Node) -> Result<Items<Text>, Stop>
    ensures ok { IfOk result (λ ts. texts_of (view value.now) ≡ Some ts) }
    ensures fault { IfErr result (Stops (texts_of (view value.now) ≡ None)) }
{
    match value {
        Node::List(items) => item_texts(alloc, items.as_slice()),
        Node::Scalar(_) | Node::Map(_) => Err(Stop::Bad),
    }
}

fn item_texts(alloc: Global, items: &[Node]) -> Result<Items<Text>, Stop>
    ensures ok { IfOk result (λ ts. item_texts (items_view items.now) ≡ Some ts) }
    ensures fault { IfErr result (Stops (item_texts (items_view items.now) ≡ None)) }
{
    let mut texts = Items::new(alloc);
    for item in items {
        let Some(text) = text_of(item) else {
            return Err(Stop::Bad);
        };
        texts.push(text.copy(alloc)?)?;
    }
    Ok(texts)
}

/// The texts under the keys of a map.
pub(crate) fn pairs(alloc: Global, value: &Node) -> Result<Items<(Text, Text)>, Stop>
    ensures ok { IfOk result (λ ps. pairs_of (view value.now) ≡ Some ps) }
    ensures fault { IfErr result (Stops (pairs_of (view value.now) ≡ None)) }
{
    match value {
        Node::Map(members) => member_pairs(alloc, members.as_slice()),
        Node::Scalar(_) | Node::List(_) => Err(Stop::Bad),
    }
}

fn member_pairs(alloc: Global, members: &[(Text, Node)]) -> Result<Items<(Text, Text)>, Stop>
    ensures ok { IfOk result (λ ps. member_pairs (members_view members.now) ≡ Some ps) }
    ensures fault { IfErr result (Stops (member_pairs (members_view members.now) ≡ None)) }
{
    let mut pairs = Items::new(alloc);
    for (key, value) in members {
        let Some(text) = text_of(value) else {
            return Err(Stop::Bad);
        };
        pairs.push((key.copy(alloc)?, text.copy(alloc)?))?;
    }
    Ok(pairs)
}

/// Whether a value is the text that it has to be.
pub(crate) fn is_allowed(only: Option<&str>, value: &Node) -> bool
    ensures { result ≡ is_allowed (option_copied only.entry) (view value.now) }
{
    let Some(only) = only else {
        return true;
    };
    match text_of(value) {
        Some(text) => text.as_str() == only,
        None => false,
    }
}
