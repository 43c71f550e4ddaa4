// The settings while the file is read.
ghost use Rattle.std.specs.Prelude.{◌≡◌, IfOk, IfErr, OnOk, true, false};
ghost use Rattle.pn_yaml.specs.View.{view, members_view};
ghost use Rattle.pn_config.specs.Faults.{Refuses, Stops};
ghost use Rattle.pn_config.specs.Files.{FirstBad, ReadsOn};
ghost use Rattle.pn_config.specs.Keys.{only_value};
ghost use Rattle.pn_config.specs.Values.{is_allowed};
ghost use Rattle.pn_config.specs.Settings.{IsBad, Takes, default_settings};

use crate::catalogs::{names_default, put_catalog, put_catalogs};
use crate::fault::{ConfigFault, Stop, fault_at};
use crate::key::{Key, key_of, only_value};
use crate::patterns::{all_names, names, no_names, no_paths, paths};
use crate::value::{filled_text, flag, is_allowed, pairs};
use pn_glob::PatternList;
use pn_spec::Catalogs;
use pn_text::{Memory, Text};
use pn_yaml::Node;
use sqlite_items::Items;
use std::alloc::Global;

/// What the keys that are read have said so far.
#[derive(Drop)]
pub(crate) struct Settings {
    pub packages: PatternList,
    pub catalogs: Catalogs,
    /// Whether a key gave the catalog `default`.
    pub has_default: bool,
    pub overrides: Items<(Text, Text)>,
    pub auto_install_peers: bool,
    pub strict: bool,
    pub from_root: bool,
    pub hoist: bool,
    pub hoist_pattern: PatternList,
    pub public_hoist_pattern: PatternList,
    pub shamefully: bool,
    pub virtual_text: Text,
}

impl Settings {
    fn new(alloc: Global) -> Result<Settings, Memory>
        ensures { IfOk result (λ s. s ≡ default_settings) }
    {
        let packages = no_paths(alloc)?;
        let hoist_pattern = all_names(alloc)?;
        let public_hoist_pattern = no_names(alloc)?;
        let virtual_text = Text::of(alloc, "node_modules/.pnpm")?;
        Ok(Settings {
            packages,
            catalogs: Catalogs::new(alloc),
            has_default: false,
            overrides: Items::new(alloc),
            auto_install_peers: true,
            strict: false,
            from_root: true,
            hoist: true,
            hoist_pattern,
            public_hoist_pattern,
            shamefully: false,
            virtual_text,
        })
    }

    // Takes what a value says under a key.
    fn take(&mut self, alloc: Global, kind: Key, key: &str, value: &Node) -> Result<(), Stop>
        ensures ok { OnOk result (Takes kind key.now (view value.now) self.old self.new) }
        ensures fault { IfErr result (Stops (IsBad kind key.now (view value.now) self.old)) }
    {
        match kind {
            Key::Packages => {
                self.packages = paths(alloc, value)?;
                Ok(())
            }
            Key::Catalog => self.take_catalog(alloc, key, value),
            Key::Catalogs => self.take_catalogs(alloc, key, value),
            Key::Overrides => {
                self.overrides = pairs(alloc, value)?;
                Ok(())
            }
            Key::AutoInstallPeers => {
                self.auto_install_peers = flag(value)?;
                Ok(())
            }
            Key::StrictPeerDependencies => {
                self.strict = flag(value)?;
                Ok(())
            }
            Key::ResolvePeersFromWorkspaceRoot => {
                self.from_root = flag(value)?;
                Ok(())
            }
            Key::Hoist => {
                self.hoist = flag(value)?;
                Ok(())
            }
            Key::HoistPattern => {
                self.hoist_pattern = names(alloc, value)?;
                Ok(())
            }
            Key::PublicHoistPattern => {
                self.public_hoist_pattern = names(alloc, value)?;
                Ok(())
            }
            Key::ShamefullyHoist => {
                self.shamefully = flag(value)?;
                Ok(())
            }
            Key::VirtualStoreDir => {
                self.virtual_text = filled_text(alloc, value)?;
                Ok(())
            }
            Key::Other => check_other(key, value),
        }
    }

    fn take_catalog(&mut self, alloc: Global, key: &str, value: &Node) -> Result<(), Stop>
        ensures ok { OnOk result (Takes Key.Catalog key.now (view value.now) self.old self.new) }
        ensures fault { IfErr result (Stops (IsBad Key.Catalog key.now (view value.now) self.old)) }
    {
        let _ = key; // the clauses name it
        if self.has_default {
            return Err(Stop::Bad);
        }
        put_catalog(alloc, &mut self.catalogs, "default", value)?;
        self.has_default = true;
        Ok(())
    }

    fn take_catalogs(&mut self, alloc: Global, key: &str, value: &Node) -> Result<(), Stop>
        ensures ok { OnOk result (Takes Key.Catalogs key.now (view value.now) self.old self.new) }
        ensures fault { IfErr result (Stops (IsBad Key.Catalogs key.now (view value.now) self.old)) }
    {
        let _ = key; // the clauses name it
        let default = names_default(value);
        if self.has_default && default {
            return Err(Stop::Bad);
        }
        put_catalogs(alloc, &mut self.catalogs, value)?;
        self.has_default = self.has_default || default;
        Ok(())
    }
}

// A key that is passed over, or that may have one value alone.
fn check_other(key: &str, value: &Node) -> Result<(), Stop>
    ensures ok { OnOk result (is_allowed (only_value key.now) (view value.now) ≡ true) }
    ensures fault { IfErr result (Stops (is_allowed (only_value key.now) (view value.now) ≡ false)) }
{
    if is_allowed(only_value(key), value) {
        Ok(())
    } else {
        Err(Stop::Bad)
    }
}

/// Reads the members of the file in their order.
pub(crate) fn read_members(alloc: Global, members: &[(Text, Node)]) -> Result<Settings, ConfigFault>
    ensures ok { IfOk result (ReadsOn default_settings (members_view members.now)) }
    ensures fault { IfErr result (Refuses (FirstBad default_settings (members_view members.now))) }
{
    let mut settings = match Settings::new(alloc) {
        Ok(start) => start,
        Err(_) => return Err(ConfigFault::Memory),
    };
    for (key, value) in members {
        let name = key.as_str();
        let kind = key_of(name);
        if let Err(stop) = settings.take(alloc, kind, name, value) {
            return Err(fault_at(alloc, name, stop));
        }
    }
    Ok(settings)
}
