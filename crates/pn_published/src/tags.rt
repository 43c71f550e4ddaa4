// What the file of tags says.
ghost use Rattle.std.specs.Prelude.{◌≡◌, ◌≤◌, ◌+◌, [], IfOk, IfErr, IfSome, Some, map, length};
ghost use Rattle.serde_json.specs.Data.{string};
ghost use Rattle.serde_json.specs.View.{view, members_view};
ghost use Rattle.pn_text.specs.declared.limits.TheConstants.{TEXT_LIMIT};
ghost use Rattle.pn_fs.specs.Seen.{Keeps, GaveAtMost};
ghost use Rattle.pn_fs.specs.Calls.{IsEntryName};
ghost use Rattle.pn_published.specs.Tags.{AreRising, tags_name, said_of, said_by, said_with, AreTags, IsTagsFile};
ghost use Rattle.pn_published.specs.Shelves.{tags_path};
ghost use Rattle.pn_published.specs.Listed.{said};
ghost use Rattle.pn_published.specs.Refusals.{TagsRefused, TextRefused, NoneSaid};

use crate::entries::child;
use crate::fault::PublishedFault;
use pn_fs::ReadFs;
use pn_read::{SmallFault, read_small};
use pn_text::{AbsPath, TEXT_LIMIT, Text};
use serde_json::{Map, Value};
use std::alloc::Global;

/// A tag, and the text that stands for it.
#[derive(Drop)]
pub struct SaidTag {
    pub name: Text,
    pub text: Text,
}

/// What the file of tags in a name's folder says; nothing where there is none.
pub fn read_tags<R: ReadFs>(
    alloc: Global,
    registry: &mut R,
    folder: &AbsPath,
) -> Result<Vec<SaidTag>, PublishedFault>
    requires { IsEntryName folder.now tags_name }
    ensures said { IfSome (R.seen registry.old).tree (λ t. IfOk result (λ v. IsTagsFile (t (tags_path folder.now)) (map said v.items))) }
    ensures gave { IfSome (R.seen registry.old).tree (λ t. GaveAtMost (R.seen registry.old) (TEXT_LIMIT + 1) 0 (R.seen registry.new)) }
    ensures kept { Keeps (R.seen registry.old) (R.seen registry.new) }
    ensures rising { IfOk result (λ v. AreRising (map said v.items)) }
    ensures fault { IfErr result (TagsRefused folder.now (R.seen registry.old) (R.seen registry.new)) }
{
    let path = child(alloc, folder, "tags.json")?;
    match read_small(alloc, registry, &path, TEXT_LIMIT) {
        Ok(bytes) => said_in(alloc, bytes.as_slice()),
        Err(SmallFault::Missing) => Ok(Vec::new(alloc)),
        Err(SmallFault::TooLarge(_)) => Err(PublishedFault::BadTags),
        Err(SmallFault::Fault) => Err(PublishedFault::Fault),
        Err(SmallFault::Memory) => Err(PublishedFault::Memory),
    }
}

fn said_in(alloc: Global, bytes: &[u8]) -> Result<Vec<SaidTag>, PublishedFault>
    requires { length bytes.now ≤ TEXT_LIMIT }
    ensures ok { IfOk result (λ v. AreTags bytes.now (map said v.items)) }
    ensures rising { IfOk result (λ v. AreRising (map said v.items)) }
    ensures fault { IfErr result (TextRefused bytes.now) }
{
    let Ok(text) = std::str::from_utf8(bytes) else {
        return Err(PublishedFault::BadTags);
    };
    match Value::from_str(alloc, text) {
        Ok(value) => said_by(alloc, &value),
        Err(e) if e.is_memory() => Err(PublishedFault::Memory),
        Err(_) => Err(PublishedFault::BadTags),
    }
}

fn said_by(alloc: Global, value: &Value) -> Result<Vec<SaidTag>, PublishedFault>
    ensures ok { IfOk result (λ v. said_by (view value.now) ≡ Some (map said v.items)) }
    ensures rising { IfOk result (λ v. AreRising (map said v.items)) }
    ensures fault { IfErr result (NoneSaid (said_by (view value.now))) }
{
    match value.as_object() {
        Some(members) => said_of(alloc, members),
        None => Err(PublishedFault::BadTags),
    }
}

fn said_of(alloc: Global, members: &Map<String, Value>) -> Result<Vec<SaidTag>, PublishedFault>
    ensures ok { IfOk result (λ v. said_of (members_view members.now.entries) ≡ Some (map said v.items)) }
    ensures rising { IfOk result (λ v. AreRising (map said v.items)) }
    ensures fault { IfErr result (NoneSaid (said_of (members_view members.now.entries))) }
{
    let mut all = Vec::new(alloc);
    for (name, value) in members.iter() {
        let one = said_tag(alloc, name.as_str(), value)?;
        all.push(one)?;
    }
    Ok(all)
}

fn said_tag(alloc: Global, name: &str, value: &Value) -> Result<SaidTag, PublishedFault>
    ensures ok { IfOk result (λ s. (view value.now ≡ string s.text) × (s.name ≡ name.now)) }
    ensures fault { IfErr result (NoneSaid (said_with name.now (view value.now) (Some []))) }
{
    let Some(text) = value.as_str() else {
        return Err(PublishedFault::BadTags);
    };
    let name = Text::of(alloc, name)?;
    let text = Text::of(alloc, text)?;
    Ok(SaidTag { name, text })
}
