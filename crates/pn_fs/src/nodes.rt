// The nodes of a tree in memory, each under the text of its path.
ghost use Rattle.std.specs.Prelude.{◌≡◌, ◌≢◌, ◌++◌, ◌∷◌, [], Some, None, false, OnOk, OnErr, IfOk, IfErr};
ghost use Rattle.std.specs.Option.{option_map, option_copied};
ghost use Rattle.pn_text.specs.Path.{same_path};
ghost use Rattle.pn_fs.specs.Tree.{put, grown, link, moved, IsFile, IsLink};
ghost use Rattle.pn_fs.specs.Calls.{kind_of};
ghost use Rattle.pn_fs.specs.Bodies.{entry_of};
ghost use Rattle.pn_fs.specs.Nodes.{rooted, IsShortPath};

use crate::body::Body;
use crate::kind::Kind;
use pn_text::{AbsPath, DevFault, Text};
use std::alloc::Global;
use std::collections::BTreeMap;

/// The body at a path other than `/`.
pub fn body_at<'a>(nodes: &'a BTreeMap<String, Body>, path: &AbsPath) -> Option<&'a Body>
    ensures { path.now ≢ [] → rooted nodes.now path.now ≡ option_map entry_of (option_copied result) }
{
    nodes.get(path.as_str())
}

/// What stands at a path.
pub fn kind_at(nodes: &BTreeMap<String, Body>, path: &AbsPath) -> Kind
    ensures { result ≡ kind_of (rooted nodes.now path.now) }
{
    if path.is_root() {
        return Kind::Folder;
    }
    match body_at(nodes, path) {
        Some(body) => kind_of_body(body),
        None => Kind::Absent,
    }
}

fn kind_of_body(body: &Body) -> Kind
    ensures { result ≡ kind_of (Some (entry_of body.now)) }
{
    match body {
        Body::Folder => Kind::Folder,
        Body::File(bytes) => Kind::File(bytes.len() as u64),
        Body::Link(_) => Kind::Link,
    }
}

/// The text of a link.
pub fn link_at(
    alloc: Global,
    nodes: &BTreeMap<String, Body>,
    path: &AbsPath,
) -> Result<Text, DevFault>
    requires { IsLink (rooted nodes.now) path.now }
    ensures text { IfOk result (λ text. rooted nodes.now path.now ≡ Some (link text)) }
    ensures cause { IfErr result (λ e. e ≡ DevFault.Memory) }
{
    match body_at(nodes, path) {
        Some(Body::Link(text)) => Ok(text.copy(alloc)?),
        _ => unreachable!(),
    }
}

/// Leaves a body at a path.
pub fn place(
    alloc: Global,
    nodes: &mut BTreeMap<String, Body>,
    path: &AbsPath,
    body: Body,
) -> Result<(), DevFault>
    requires { path.now ≢ [] }
    ensures path { IsShortPath path.now }
    ensures ok { OnOk result (rooted nodes.new ≡ put (rooted nodes.old) path.now (Some (entry_of body))) }
    ensures err { OnErr result (rooted nodes.new ≡ rooted nodes.old) }
    ensures cause { IfErr result (λ e. e ≡ DevFault.Memory) }
{
    let key = String::from_str(alloc, path.as_str())?;
    nodes.insert(key, body)?;
    Ok(())
}

/// Adds bytes to a file.
pub fn append(
    nodes: &mut BTreeMap<String, Body>,
    path: &AbsPath,
    bytes: &[u8],
) -> Result<(), DevFault>
    requires { IsFile (rooted nodes.old) path.now }
    ensures ok { OnOk result (rooted nodes.new ≡ put (rooted nodes.old) path.now (grown (rooted nodes.old path.now) bytes.now)) }
    ensures err { OnErr result (rooted nodes.new ≡ rooted nodes.old) }
    ensures cause { IfErr result (λ e. e ≡ DevFault.Memory) }
{
    match nodes.get_mut(path.as_str()) {
        Some(body) => extend(body, bytes),
        None => unreachable!(),
    }
}

fn extend(body: &mut Body, bytes: &[u8]) -> Result<(), DevFault>
    ensures ok { OnOk result (Some (entry_of body.new) ≡ grown (Some (entry_of body.old)) bytes.now) }
    ensures err { OnErr result (entry_of body.new ≡ entry_of body.old) }
    ensures cause { IfErr result (λ e. e ≡ DevFault.Memory) }
{
    match body {
        Body::File(all) => {
            all.extend_from_slice(bytes)?;
            Ok(())
        }
        _ => Ok(()),
    }
}

/// Takes away what stands at a path.
pub fn take_body(nodes: &mut BTreeMap<String, Body>, path: &AbsPath) -> Option<Body>
    requires { path.now ≢ [] }
    ensures body { option_map entry_of result ≡ rooted nodes.old path.now }
    ensures gone { rooted nodes.new ≡ put (rooted nodes.old) path.now None }
{
    nodes.remove(path.as_str())
}

/// Takes away what stands at a path.
pub fn remove(nodes: &mut BTreeMap<String, Body>, path: &AbsPath)
    requires { path.now ≢ [] }
    ensures { rooted nodes.new ≡ put (rooted nodes.old) path.now None }
{
    let _ = take_body(nodes, path);
}

// Leaves a body where another one stands.
fn set_body(nodes: &mut BTreeMap<String, Body>, path: &AbsPath, body: Body)
    requires some { path.now ≢ [] }
    requires stands { rooted nodes.old path.now ≢ None }
    ensures { rooted nodes.new ≡ put (rooted nodes.old) path.now (Some (entry_of body)) }
{
    match nodes.get_mut(path.as_str()) {
        Some(place) => *place = body,
        None => unreachable!(),
    }
}

/// Moves a body to another path. The one step that may be refused comes first: a folder holds the
/// new place until the body stands there.
pub fn move_body(
    alloc: Global,
    nodes: &mut BTreeMap<String, Body>,
    from: &AbsPath,
    to: &AbsPath,
) -> Result<(), DevFault>
    requires some { from.now ≢ [] }
    requires target { to.now ≢ [] }
    requires stands { rooted nodes.old from.now ≢ None }
    requires apart { same_path from.now to.now ≡ false }
    ensures path { IsShortPath to.now }
    ensures ok { OnOk result (rooted nodes.new ≡ moved (rooted nodes.old) from.now to.now) }
    ensures err { OnErr result (rooted nodes.new ≡ rooted nodes.old) }
    ensures cause { IfErr result (λ e. e ≡ DevFault.Memory) }
{
    place(alloc, nodes, to, Body::Folder)?;
    match take_body(nodes, from) {
        Some(body) => {
            set_body(nodes, to, body);
            Ok(())
        }
        None => unreachable!(),
    }
}

/// Notes two paths, or none.
pub fn touch_both(
    alloc: Global,
    touched: &mut Vec<AbsPath>,
    from: &AbsPath,
    to: &AbsPath,
) -> Result<(), DevFault>
    ensures ok { OnOk result (touched.new.items ≡ touched.old.items ++ from.now ∷ to.now ∷ []) }
    ensures err { OnErr result (touched.new.items ≡ touched.old.items) }
    ensures cause { IfErr result (λ e. e ≡ DevFault.Memory) }
{
    let first = from.copy(alloc)?;
    let second = to.copy(alloc)?;
    touched.push(first)?;
    match touched.push(second) {
        Ok(()) => Ok(()),
        Err(_) => {
            let _ = touched.pop();
            Err(DevFault::Memory)
        }
    }
}
