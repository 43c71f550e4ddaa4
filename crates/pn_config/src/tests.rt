// Files with what they say, and the virtual store's folder.
use crate::{Config, ConfigFault};
use pn_glob::PatternList;
use pn_text::{AbsPath, PathFault, Text};
use std::alloc::{AllocError, Global};
use std::test::Fail;

// Files, and what they say: what is true of `autoInstallPeers`, `strictPeerDependencies`,
// `resolvePeersFromWorkspaceRoot` and `hoist`; the virtual store; overrides; catalogs; which of some folders and names
// the patterns match.
const GOOD: &[(&str, &str)] = &[
    (
        "",
        "auto root hoist | node_modules/.pnpm | | | | a @s/b types | ",
    ),
    (
        "# nothing\n",
        "auto root hoist | node_modules/.pnpm | | | | a @s/b types | ",
    ),
    (
        "autoInstallPeers: false\nhoist: false\nstrictPeerDependencies: true\nresolvePeersFromWorkspaceRoot: false\n",
        "strict | node_modules/.pnpm | | | | a @s/b types | ",
    ),
    (
        "autoInstallPeers: true\nhoist: true\nstrictPeerDependencies: false\nresolvePeersFromWorkspaceRoot: true\n",
        "auto root hoist | node_modules/.pnpm | | | | a @s/b types | ",
    ),
    (
        "packages:\n  - 'packages/*'\n  - a\n  - '!packages/y'\n",
        "auto root hoist | node_modules/.pnpm | | | a packages/x | a @s/b types | ",
    ),
    (
        "packages: [./a/, '{b,packages}/**']\n",
        "auto root hoist | node_modules/.pnpm | | | a packages/x packages/y b/c/d | a @s/b types | ",
    ),
    (
        "packages: []\n",
        "auto root hoist | node_modules/.pnpm | | | | a @s/b types | ",
    ),
    (
        "hoistPattern: ['@s/*']\npublicHoistPattern: ['!a']\n",
        "auto root hoist | node_modules/.pnpm | | | | @s/b | @s/b types ",
    ),
    (
        "hoistPattern: []\npublicHoistPattern: [types]\n",
        "auto root hoist | node_modules/.pnpm | | | | | types ",
    ),
    (
        "shamefullyHoist: true\npublicHoistPattern: [types]\n",
        "auto root hoist | node_modules/.pnpm | | | | a @s/b types | a @s/b types ",
    ),
    (
        "publicHoistPattern: [types]\nshamefullyHoist: false\n",
        "auto root hoist | node_modules/.pnpm | | | | a @s/b types | types ",
    ),
    (
        "virtualStoreDir: ../vs\n",
        "auto root hoist | ../vs | | | | a @s/b types | ",
    ),
    (
        "overrides: {b>c: '-', b: $b, 'a b': ''}\n",
        "auto root hoist | node_modules/.pnpm | a b= b=$b b>c=- | | | a @s/b types | ",
    ),
    (
        "overrides: {}\n",
        "auto root hoist | node_modules/.pnpm | | | | a @s/b types | ",
    ),
    (
        "catalog: {react: ^18.2.0, c: 'npm:d@1', b: latest}\n",
        "auto root hoist | node_modules/.pnpm | | default/b=latest default/c=npm:d@1 default/react=^18.2.0 | | a @s/b types | ",
    ),
    (
        "catalogs: {x: {a: 1.x}, default: {b: '*'}}\n",
        "auto root hoist | node_modules/.pnpm | | default/b=* x/a=1.x | | a @s/b types | ",
    ),
    (
        "catalogs: {x: {'@s/b': 1}, 'a b': {}}\ncatalog: {a: 2}\n",
        "auto root hoist | node_modules/.pnpm | | default/a=2 x/@s/b=1 | | a @s/b types | ",
    ),
    (
        "nodeLinker: isolated\nlinkWorkspacePackages: false\ndedupeDirectDeps: 'false'\ninjectWorkspacePackages: false\nexcludeLinksFromLockfile: \"false\"\nsharedWorkspaceLockfile: true\nlockfile: true\nmodulesDir: node_modules\nresolutionMode: highest\n",
        "auto root hoist | node_modules/.pnpm | | | | a @s/b types | ",
    ),
    (
        "dedupePeerDependents: 5\nonlyBuiltDependencies: [x, {y: [z]}]\n1: a\n'': b\nHoist: c\nhoistpattern: {}\n",
        "auto root hoist | node_modules/.pnpm | | | | a @s/b types | ",
    ),
];

// Files, and the first bad key.
const BAD: &[(&str, &str)] = &[
    ("[hoist]\n", ""),
    ("hoist: 'true'\n", "hoist"),
    ("hoist: True\n", "hoist"),
    ("autoInstallPeers: yes\n", "autoInstallPeers"),
    ("strictPeerDependencies:\n", "strictPeerDependencies"),
    (
        "resolvePeersFromWorkspaceRoot: [true]\n",
        "resolvePeersFromWorkspaceRoot",
    ),
    ("shamefullyHoist: 1\n", "shamefullyHoist"),
    ("packages: a\n", "packages"),
    ("packages: {}\n", "packages"),
    ("packages: [a, [b]]\n", "packages"),
    ("packages: ['a[b]']\n", "packages"),
    ("packages: ['{a,b,c,d,e}{a,b,c,d,e}{a,b,c}']\n", "packages"),
    ("hoistPattern: '*'\n", "hoistPattern"),
    ("hoistPattern: ['{a,b}']\n", "hoistPattern"),
    ("publicHoistPattern: [a, {}]\n", "publicHoistPattern"),
    ("publicHoistPattern: ['!(a']\n", "publicHoistPattern"),
    ("virtualStoreDir: ''\n", "virtualStoreDir"),
    ("virtualStoreDir:\n", "virtualStoreDir"),
    ("virtualStoreDir: [vs]\n", "virtualStoreDir"),
    ("overrides:\n", "overrides"),
    ("overrides: [a]\n", "overrides"),
    ("overrides: {a: 1, b: []}\n", "overrides"),
    ("catalog: x\n", "catalog"),
    ("catalog: {a: 'workspace:*'}\n", "catalog"),
    ("catalog: {a: 'catalog:'}\n", "catalog"),
    ("catalog: {a: 'git+x:y'}\n", "catalog"),
    ("catalog: {_a: 1}\n", "catalog"),
    ("catalog: {a: {b: 1}}\n", "catalog"),
    ("catalogs: []\n", "catalogs"),
    ("catalogs: {x: 1}\n", "catalogs"),
    ("catalogs: {x: {a: 1, b: 'file:x'}}\n", "catalogs"),
    ("catalogs: {x: {'': 1}}\n", "catalogs"),
    ("catalog: {}\ncatalogs: {default: {}}\n", "catalogs"),
    ("catalogs: {x: {}, default: {}}\ncatalog: {}\n", "catalog"),
    ("nodeLinker: hoisted\n", "nodeLinker"),
    ("linkWorkspacePackages: true\n", "linkWorkspacePackages"),
    ("dedupeDirectDeps: no\n", "dedupeDirectDeps"),
    (
        "injectWorkspacePackages: [false]\n",
        "injectWorkspacePackages",
    ),
    (
        "excludeLinksFromLockfile: true\n",
        "excludeLinksFromLockfile",
    ),
    (
        "sharedWorkspaceLockfile: false\n",
        "sharedWorkspaceLockfile",
    ),
    ("lockfile: false\n", "lockfile"),
    ("modulesDir: modules\n", "modulesDir"),
    ("resolutionMode: time-based\n", "resolutionMode"),
    ("x: 1\nhoist: no\nlockfile: no\n", "hoist"),
    ("lockfile: no\nhoist: no\n", "lockfile"),
    ("hoist: true\nnodeLinker: {}\npackages: a\n", "nodeLinker"),
];

const FOLDERS: &[&str] = &["a", "packages/x", "packages/y", "b/c/d"];

const NAMES: &[&str] = &["a", "@s/b", "types"];

fn push_flag(told: &mut String, flag: bool, name: &str) -> Result<(), AllocError> {
    if flag {
        told.push_str(name)?;
        told.push_str(" ")?;
    }
    Ok(())
}

fn push_matches(
    told: &mut String,
    patterns: &PatternList,
    texts: &[&str],
) -> Result<(), AllocError> {
    told.push_str("| ")?;
    for &text in texts {
        push_flag(told, patterns.matches(text), text)?;
    }
    Ok(())
}

fn push_overrides(told: &mut String, config: &Config) -> Result<(), AllocError> {
    for (selector, text) in config.overrides.as_slice() {
        told.push_str(selector.as_str())?;
        told.push_str("=")?;
        told.push_str(text.as_str())?;
        told.push_str(" ")?;
    }
    Ok(())
}

fn push_catalogs(told: &mut String, config: &Config) -> Result<(), AllocError> {
    told.push_str("| ")?;
    for entry in config.catalogs.as_slice() {
        told.push_str(entry.catalog.as_str())?;
        told.push_str("/")?;
        told.push_str(entry.name.as_str())?;
        told.push_str("=")?;
        told.push_str(entry.text.as_str())?;
        told.push_str(" ")?;
    }
    Ok(())
}

fn told_config(alloc: Global, config: &Config) -> Result<String, AllocError> {
    let mut told = String::new(alloc);
    push_flag(&mut told, config.auto_install_peers, "auto")?;
    push_flag(&mut told, config.strict, "strict")?;
    push_flag(&mut told, config.from_root, "root")?;
    push_flag(&mut told, config.hoist, "hoist")?;
    told.push_str("| ")?;
    told.push_str(config.virtual_text.as_str())?;
    told.push_str(" | ")?;
    push_overrides(&mut told, config)?;
    push_catalogs(&mut told, config)?;
    push_matches(&mut told, &config.packages, FOLDERS)?;
    push_matches(&mut told, &config.hoist_pattern, NAMES)?;
    push_matches(&mut told, &config.public_hoist_pattern, NAMES)?;
    Ok(told)
}

fn read(alloc: Global, text: &str, root: &[(Text, Text)]) -> Result<Config, ConfigFault> {
    if text.len() > u32::MAX as usize {
        return Err(ConfigFault::Memory);
    }
    match pn_yaml::read(alloc, text.as_bytes()) {
        Ok(node) => Config::read(alloc, Some(&node), root),
        Err(_) => Err(ConfigFault::Memory),
    }
}

fn told(alloc: Global, text: &str) -> Result<String, AllocError> {
    match read(alloc, text, &[]) {
        Ok(config) => told_config(alloc, &config),
        Err(ConfigFault::BadKey(key)) => format!(in alloc; "bad key {key}"),
        Err(ConfigFault::Memory) => Err(AllocError),
    }
}

#[test]
fn each_setting_is_read(rt: HostRuntime) -> Result<(), Fail> {
    for &(text, wanted) in GOOD {
        assert_eq!(rt; told(rt.alloc(), text)?.as_str(), wanted, "{text}");
    }
    Ok(())
}

#[test]
fn the_first_bad_key_is_named(rt: HostRuntime) -> Result<(), Fail> {
    for &(text, wanted) in BAD {
        let told = told(rt.alloc(), text)?;
        assert_eq!(rt;
            told.as_str().strip_prefix("bad key "),
            Some(wanted),
            "{text}"
        );
    }
    Ok(())
}

#[test]
fn no_file_has_the_defaults(rt: HostRuntime) -> Result<(), Fail> {
    let config = Config::read(rt.alloc(), None, &[])?;
    let told = told_config(rt.alloc(), &config)?;
    assert_eq!(rt;
        told.as_str(),
        "auto root hoist | node_modules/.pnpm | | | | a @s/b types | "
    );
    Ok(())
}

#[test]
fn the_overrides_of_the_file_count_first(rt: HostRuntime) -> Result<(), Fail> {
    let root = [
        (Text::of(rt.alloc(), "b")?, Text::of(rt.alloc(), "1")?),
        (Text::of(rt.alloc(), "a")?, Text::of(rt.alloc(), "1")?),
    ];
    let config = read(rt.alloc(), "overrides: {c: 2, b: 2}\n", &root)?;
    let mut told = String::new(rt.alloc());
    push_overrides(&mut told, &config)?;
    assert_eq!(rt; told.as_str(), "a=1 b=2 c=2 ");
    Ok(())
}

// Settings, roots, and where the virtual store is.
const STORES: &[(&str, &str, &str)] = &[
    ("node_modules/.pnpm", "/w", "/w/node_modules/.pnpm"),
    ("./node_modules//.pnpm/", "/w/x", "/w/x/node_modules/.pnpm"),
    ("x/../node_modules/.pnpm", "/w", "/w/node_modules/.pnpm"),
    ("../vs", "/w", "/vs"),
    ("../../../vs", "/w", "/vs"),
    ("a/../../b", "/w/x", "/w/b"),
    ("vs", "/", "/vs"),
    (".", "/w", "/w"),
    ("..", "/w", "/"),
    ("..", "/", "/"),
    ("/x/./y//", "/w", "/x/y"),
    ("/..", "/w", "/"),
    ("/", "/w", "/"),
    ("/../a/../b/c/..", "/w", "/b"),
    ("...", "/w", "/w/..."),
];

fn store(alloc: Global, setting: &str, root: &str) -> Result<AbsPath, PathFault> {
    let Ok(text) = format!(in alloc; "virtualStoreDir: '{setting}'\n") else {
        return Err(PathFault::Memory);
    };
    let Ok(config) = read(alloc, text.as_str(), &[]) else {
        return Err(PathFault::Memory);
    };
    let root = AbsPath::read(alloc, root)?;
    config.virtual_store(alloc, &root)
}

#[test]
fn the_virtual_store_is_found_from_the_root(rt: HostRuntime) -> Result<(), Fail> {
    for &(setting, root, wanted) in STORES {
        assert_eq!(rt;
            store(rt.alloc(), setting, root)?.as_str(),
            wanted,
            "{setting}"
        );
    }
    Ok(())
}

#[test]
fn only_the_whole_path_may_be_too_long(rt: HostRuntime) -> Result<(), Fail> {
    let mut long = String::new(rt.alloc());
    for _ in 0..5000 {
        long.push_str("x")?;
    }
    assert!(rt; store(rt.alloc(), long.as_str(), "/w").err() == Some(PathFault::Long));
    long.push_str("/../y")?;
    assert_eq!(rt; store(rt.alloc(), long.as_str(), "/w")?.as_str(), "/w/y");
    Ok(())
}
