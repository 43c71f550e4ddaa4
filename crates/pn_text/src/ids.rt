// What a dependency and a package are called by.
ghost use Rattle.std.specs.Prelude.{◌≡◌, ◌≤◌, ◌++◌, ◌∷◌, ◌↔◌, [], MatchOption, IfOk, Ok, Some, None, option_map, IsTrue, if◌then◌else◌, true, length, string_bytes};
ghost use Rattle.semver.specs.Identifiers.{parts_of};
ghost use Rattle.semver.specs.Parse.{version_parts};
ghost use Rattle.pn_text.specs.declared.limits.TheConstants.{ID_LIMIT};
ghost use Rattle.pn_text.specs.Path.{is_part};
ghost use Rattle.pn_text.specs.Ids.{id_text, id_name, id_version, id_of, is_id, IsAtSign, ok_of, parts_text, IdLaw};

use crate::fault::{Memory, NameFault};
use crate::limits::ID_LIMIT;
use crate::name::PkgName;
use crate::text::Text;
use semver::Version;
use std::alloc::{AllocError, Global};
use std::marker::Model;

/// A dependency: `alias` with its `specifier` in the manifest of `from`, a project's folder or a package's id.
#[derive(Drop)]
pub struct Edge {
    pub from: Text,
    pub alias: PkgName,
    pub specifier: Text,
}

/// A version of a package. Contracts see its text, `name@version`.
#[derive(Drop)]
pub struct PkgId {
    name: PkgName,
    version: Version,
    text: Text,
}

impl Model for PkgId {
    ghost use Rattle.std.specs.Prelude.{ℕ, List};
    ghost use Rattle.semver.specs.Identifiers.{parts_of};
    ghost use Rattle.pn_text.specs.Ids.{IsIdOf};

    ghost Value = { List ℕ };

    ghost view = { λ a. a.text };

    ghost invariant = { λ a. IsIdOf a.name (parts_of a.version) a.text };
}

impl PkgId {
    /// The id of a name with a text, or none where the text is no SemVer version.
    pub fn of(alloc: Global, name: &PkgName, version: &str) -> Result<Option<PkgId>, Memory>
        ensures { IfOk result (λ id. id ≡ id_of name.now version.now) }
    {
        let Some(parsed) = parse_version(alloc, version)? else {
            return Ok(None);
        };
        let text = with_at(alloc, name.as_str(), version)?;
        let name = name.copy(alloc)?;
        Ok(Some(PkgId {
            name,
            version: parsed,
            text,
        }))
    }

    /// Reads `name@version`. None where the text isn't a package name, `@` and a SemVer version.
    pub fn read(alloc: Global, text: &str) -> Result<Option<PkgId>, Memory>
        ensures { IfOk result (λ id. id ≡ (if is_id text.now then Some text.now else None)) }
    {
        let (front, version) = around_at(text);
        match PkgName::read(alloc, front) {
            Ok(name) => PkgId::of(alloc, &name, version),
            Err(NameFault::Memory) => Err(Memory),
            Err(_) => Ok(None),
        }
    }

    /// The text.
    pub fn as_str(&self) -> &str
        ensures text { result.now ≡ self.now }
        ensures id { is_id result.now ≡ true }
    {
        self.text.as_str()
    }

    /// The package's name.
    pub fn name(&self) -> &PkgName
        ensures { result.now ≡ id_name self.now }
    {
        &self.name
    }

    /// The version.
    pub fn version(&self) -> &Version
        ensures { version_parts (id_version self.now) ≡ Ok (parts_of result.now) }
    {
        &self.version
    }

    /// The version's text. It is one part of a path.
    pub fn version_text(&self) -> &str
        ensures text { result.now ≡ id_version self.now }
        ensures part { IsTrue (is_part result.now) }
    {
        around_at(self.as_str()).1
    }

    /// Whether it is short enough to name a folder.
    pub fn is_short(&self) -> bool
        ensures { IsTrue result ↔ (length self.now ≤ ID_LIMIT) }
    {
        self.as_str().len() <= ID_LIMIT
    }

    /// An equal id.
    pub fn copy(&self, alloc: Global) -> Result<PkgId, Memory>
        ensures { IfOk result (λ id. id ≡ self.now) }
    {
        let name = self.name.copy(alloc)?;
        let text = self.text.copy(alloc)?;
        match parse_version(alloc, self.version_text())? {
            Some(version) => Ok(PkgId {
                name,
                version,
                text,
            }),
            None => unreachable!(),
        }
    }
}

/// A name and a version are those of their id, and an id is the one of its name and version.
pub fn id_law()
    ensures { IdLaw }
{}

// The version that a text is, or none.
fn parse_version(alloc: Global, text: &str) -> Result<Option<Version>, Memory>
    ensures { IfOk result (λ found. option_map parts_of found ≡ parts_text text.now) }
{
    match Version::parse(alloc, text) {
        Ok(version) => Ok(Some(version)),
        Err(e) if e == semver::Error::from(AllocError) => Err(Memory),
        Err(_) => Ok(None),
    }
}

// A name, `@` and a version.
fn with_at(alloc: Global, name: &str, version: &str) -> Result<Text, Memory>
    ensures { IfOk result (λ text. text ≡ id_text name.now version.now) }
{
    let mut text = String::from_str(alloc, name)?;
    text.push_str("@")?;
    text.push_str(version)?;
    Text::of(alloc, text.as_str())
}

// What stands before and behind the first `@` that doesn't begin the text.
fn around_at(text: &str) -> (&str, &str)
    ensures name { result.0.now ≡ id_name text.now }
    ensures version { result.1.now ≡ id_version text.now }
{
    match at_sign(text.as_bytes()) {
        Some(at) => (text.split_at(at).0, text.split_at(at + 1).1),
        None => text.split_at(text.len()),
    }
}

// The place of the first `@` that doesn't begin the text.
fn at_sign(text: &[u8]) -> Option<usize>
    ensures { MatchOption result ((text.now ≡ id_name text.now) × ([] ≡ id_version text.now)) (IsAtSign text.now) }
{
    for (i, b) in text.iter().enumerate() {
        if i > 0 && *b == b'@' {
            return Some(i);
        }
    }
    None
}
