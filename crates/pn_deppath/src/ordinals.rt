// Texts that are told apart by ordinals.
ghost use Rattle.std.specs.Prelude.{◌≡◌, ◌<◌, ◌^◌, IfOk, length};
ghost use Rattle.pn_deppath.specs.Ordinals.{with_ordinals, with_place};

use crate::names::last_of;
use pn_text::{Memory, Text};
use std::alloc::Global;
use std::collections::BTreeMap;

/// The texts, of which the second, third and so on of equal ones have `(~2)`, `(~3)` and so on behind them.
pub fn with_ordinals(alloc: Global, texts: &[Text]) -> Result<Vec<Text>, Memory>
    requires { length texts.now < 2 ^ 32 }
    ensures { IfOk result (λ paths. paths.items ≡ with_ordinals texts.now) }
{
    let mut times = BTreeMap::new(alloc);
    let mut paths = Vec::new(alloc);
    for text in texts {
        let before = last_of(&times, text.as_str());
        let path = with_place(alloc, text, before)?;
        paths.push(path)?;
        let key = String::from_str(alloc, text.as_str())?;
        times.insert(key, before + 1)?;
    }
    Ok(paths)
}

// A text where that many before it are equal.
fn with_place(alloc: Global, text: &Text, before: u64) -> Result<Text, Memory>
    requires { before < 2 ^ 32 }
    ensures { IfOk result (λ path. path ≡ with_place text.now before) }
{
    if before == 0 {
        return text.copy(alloc);
    }
    let mut path = String::from_str(alloc, text.as_str())?;
    path.push_str("(~")?;
    let n = before + 1;
    let digits = format!(in alloc; "{n}")?;
    path.push_str(digits.as_str())?;
    path.push_str(")")?;
    Text::of(alloc, path.as_str())
}
