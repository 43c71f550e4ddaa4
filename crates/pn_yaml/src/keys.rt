// The keys of a map that is being read.
ghost use Rattle.std.specs.Prelude.{◌≡◌, ◌∷◌, [], List, IfOk, not};
ghost use Rattle.std.specs.Bool.{OnTrue};
ghost use Rattle.pn_yaml.specs.Data.{is_among};
ghost use Rattle.pn_yaml.specs.KeySets.{AreKeys, HasKeys, rises, seen_of};

use crate::node::Node;
use pn_text::{Memory, Text, byte_cmp};
use std::alloc::Global;
use std::collections::BTreeSet;

/// Which keys a map has so far: its members tell it while they rise, and copies of them from then on.
#[derive(Drop)]
pub(crate) struct Keys {
    rise: bool,
    copies: BTreeSet<Text>,
}

impl Keys {
    /// No keys.
    pub(crate) fn new(alloc: Global) -> Keys
        ensures { AreKeys result [] }
    {
        Keys {
            rise: true,
            copies: BTreeSet::new(alloc),
        }
    }

    /// Takes the next key, where the members have those before it. Answers whether it is new.
    pub(crate) fn add(
        &mut self,
        alloc: Global,
        members: &[(Text, Node)],
        key: &Text,
    ) -> Result<bool, Memory>
        requires { AreKeys self.old (seen_of members.now) }
        ensures new { IfOk result (λ new. new ≡ not (is_among key.now (seen_of members.now))) }
        ensures kept { IfOk result (λ new. OnTrue new (AreKeys self.new (key.now ∷ seen_of members.now))) }
    {
        if self.rise {
            if rises(members, key) {
                return Ok(true);
            }
            self.copies = copies(alloc, members)?;
            self.rise = false;
        }
        Ok(self.copies.insert(key.copy(alloc)?)?)
    }
}

// Whether the key is above the last one.
fn rises(members: &[(Text, Node)], key: &Text) -> bool
    ensures { result ≡ rises (seen_of members.now) key.now }
{
    match members.last() {
        Some((last, _)) => byte_cmp(last, key).is_lt(),
        None => true,
    }
}

fn copies(alloc: Global, members: &[(Text, Node)]) -> Result<BTreeSet<Text>, Memory>
    ensures { IfOk result (λ set. HasKeys set (seen_of members.now)) }
{
    let mut set = BTreeSet::new(alloc);
    for (key, _) in members {
        let _new = set.insert(key.copy(alloc)?)?;
    }
    Ok(set)
}
