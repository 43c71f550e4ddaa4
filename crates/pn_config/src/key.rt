// The keys of the file.
ghost use Rattle.std.specs.Prelude.{◌≡◌};
ghost use Rattle.std.specs.Option.{option_copied};
ghost use Rattle.pn_config.specs.Keys.{key_of, only_value};

/// A key that says something. `Other` is one that is passed over, or that may have one value alone.
#[derive(Clone, Copy, Debug, PartialEq, Eq)]
pub(crate) enum Key {
    Packages,
    Catalog,
    Catalogs,
    Overrides,
    AutoInstallPeers,
    StrictPeerDependencies,
    ResolvePeersFromWorkspaceRoot,
    Hoist,
    HoistPattern,
    PublicHoistPattern,
    ShamefullyHoist,
    VirtualStoreDir,
    Other,
}

/// The key that a text is.
pub(crate) fn key_of(text: &str) -> Key
    ensures { result ≡ key_of text.now }
{
    match text {
        "packages" => Key::Packages,
        "catalog" => Key::Catalog,
        "catalogs" => Key::Catalogs,
        "overrides" => Key::Overrides,
        "autoInstallPeers" => Key::AutoInstallPeers,
        "strictPeerDependencies" => Key::StrictPeerDependencies,
        "resolvePeersFromWorkspaceRoot" => Key::ResolvePeersFromWorkspaceRoot,
        "hoist" => Key::Hoist,
        "hoistPattern" => Key::HoistPattern,
        "publicHoistPattern" => Key::PublicHoistPattern,
        "shamefullyHoist" => Key::ShamefullyHoist,
        "virtualStoreDir" => Key::VirtualStoreDir,
        _ => Key::Other,
    }
}

/// The one value that a key may have.
pub(crate) fn only_value(key: &str) -> Option<&'static str>
    ensures { option_copied result ≡ only_value key.now }
{
    match key {
        "nodeLinker" => Some("isolated"),
        "linkWorkspacePackages" => Some("false"),
        "dedupeDirectDeps" => Some("false"),
        "injectWorkspacePackages" => Some("false"),
        "excludeLinksFromLockfile" => Some("false"),
        "sharedWorkspaceLockfile" => Some("true"),
        "lockfile" => Some("true"),
        "modulesDir" => Some("node_modules"),
        "resolutionMode" => Some("highest"),
        _ => None,
    }
}
