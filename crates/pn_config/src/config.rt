// The settings as a value.
ghost use Rattle.std.specs.Prelude.{◌≡◌, [], IfOk, IfErr, if◌then◌else◌};
ghost use Rattle.std.specs.Option.{option_map};
ghost use Rattle.pn_text.specs.Faults.{JoinFault};
ghost use Rattle.pn_text.specs.Path.{path_text};
ghost use Rattle.pn_yaml.specs.View.{view};
ghost use Rattle.pn_config.specs.Faults.{Refuses};
ghost use Rattle.pn_config.specs.Files.{NamesBad, ReadsConfig, ReadsFile, config_of};
ghost use Rattle.pn_config.specs.Folders.{resolved};
ghost use Rattle.pn_config.specs.Settings.{all_names};

use crate::fault::ConfigFault;
use crate::folder::resolve;
use crate::overrides::Overrides;
use crate::patterns::all_names;
use crate::settings::{Settings, read_members};
use pn_glob::PatternList;
use pn_spec::Catalogs;
use pn_text::{AbsPath, Memory, PathFault, Text};
use pn_yaml::Node;
use std::alloc::Global;

/// The settings of a workspace.
#[derive(Drop)]
pub struct Config {
    /// Which folders are projects; the root is one in any case.
    pub packages: PatternList,
    pub hoist_pattern: PatternList,
    pub public_hoist_pattern: PatternList,
    pub catalogs: Catalogs,
    /// The overrides of the file and of the root manifest.
    pub overrides: Overrides,
    pub auto_install_peers: bool,
    /// Whether a bad or missing peer is an error.
    pub strict: bool,
    /// Whether peers may come from the root project.
    pub from_root: bool,
    pub hoist: bool,
    /// The virtual store's folder as it is written.
    pub virtual_text: Text,
}

impl Config {
    /// Reads the settings of a workspace file, or of none, with the overrides of the root manifest; where both have a
    /// selector, the file's text counts. Refuses with the first bad key in the file's order, which is empty where
    /// the file is no map.
    pub fn read(
        alloc: Global,
        workspace: Option<&Node>,
        root_overrides: &[(Text, Text)],
    ) -> Result<Config, ConfigFault>
        ensures ok { IfOk result (ReadsConfig (option_map (λ n. view n.now) workspace.entry) root_overrides.now) }
        ensures fault { IfErr result (Refuses (NamesBad (option_map (λ n. view n.now) workspace.entry))) }
    {
        let settings = read_file(alloc, workspace)?;
        match with_overrides(alloc, settings, root_overrides) {
            Ok(config) => Ok(config),
            Err(_) => Err(ConfigFault::Memory),
        }
    }

    /// The virtual store's folder: the setting from the root on, or from `/` where it begins with a slash. Empty parts
    /// and `.` count for nothing, and `..` leads to the parent, from `/` to `/`. Refuses with `Long` past 4,096 bytes.
    pub fn virtual_store(&self, alloc: Global, root: &AbsPath) -> Result<AbsPath, PathFault>
        ensures ok { IfOk result (λ p. p ≡ resolved self.now.virtual_text root.now) }
        ensures fault { IfErr result (JoinFault (path_text (resolved self.now.virtual_text root.now))) }
    {
        resolve(alloc, root, self.virtual_text.as_str())
    }
}

fn read_file(alloc: Global, workspace: Option<&Node>) -> Result<Settings, ConfigFault>
    ensures ok { IfOk result (ReadsFile (option_map (λ n. view n.now) workspace.entry)) }
    ensures fault { IfErr result (Refuses (NamesBad (option_map (λ n. view n.now) workspace.entry))) }
{
    match workspace {
        None => read_members(alloc, &[]),
        Some(Node::Map(members)) => read_members(alloc, members.as_slice()),
        Some(Node::Scalar(_) | Node::List(_)) => Err(no_map(alloc)),
    }
}

fn no_map(alloc: Global) -> ConfigFault
    ensures { Refuses (λ k. k ≡ []) result }
{
    match Text::of(alloc, "") {
        Ok(key) => ConfigFault::BadKey(key),
        Err(_) => ConfigFault::Memory,
    }
}

// Patterns of the names that are hoisted publicly: all of them where `shamefullyHoist` says so.
fn public_names(
    alloc: Global,
    shamefully: bool,
    patterns: PatternList,
) -> Result<PatternList, Memory>
    ensures { IfOk result (λ l. l ≡ (if shamefully then all_names else patterns)) }
{
    if shamefully {
        return all_names(alloc);
    }
    Ok(patterns)
}

fn with_overrides(
    alloc: Global,
    settings: Settings,
    root_overrides: &[(Text, Text)],
) -> Result<Config, Memory>
    ensures { IfOk result (λ c. c ≡ config_of root_overrides.now settings) }
{
    let overrides = Overrides::joined(alloc, root_overrides, settings.overrides.as_slice())?;
    let Settings {
        packages,
        catalogs,
        has_default: _,
        overrides: _,
        auto_install_peers,
        strict,
        from_root,
        hoist,
        hoist_pattern,
        public_hoist_pattern,
        shamefully,
        virtual_text,
    } = settings;
    let public_hoist_pattern = public_names(alloc, shamefully, public_hoist_pattern)?;
    Ok(Config {
        packages,
        hoist_pattern,
        public_hoist_pattern,
        catalogs,
        overrides,
        auto_install_peers,
        strict,
        from_root,
        hoist,
        virtual_text,
    })
}
