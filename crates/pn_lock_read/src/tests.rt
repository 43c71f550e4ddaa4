// Lockfiles, and what is read of them.
use crate::read;
use pn_lock_print::print;
use std::alloc::Global;
use std::test::Fail;

// Lockfiles, and how the locks that they spell are printed.
const GOOD: &[(&str, &str)] = &[
    (
        "lockfileVersion: '9.0'\n\nsettings:\n  autoInstallPeers: true\n  excludeLinksFromLockfile: false\n\nimporters:\n\n  .: {}\n",
        "lockfileVersion: '9.0'\n\nsettings:\n  autoInstallPeers: true\n  excludeLinksFromLockfile: false\n\nimporters:\n\n  .: {}\n",
    ),
    (
        "lockfileVersion: '9.0'\n\nsettings:\n  autoInstallPeers: true\n  excludeLinksFromLockfile: false\n\nimporters:\n\n  .:\n    dependencies:\n      a:\n        specifier: 1.0.0\n        version: 1.0.0\n\npackages:\n\n  a@1.0.0:\n    resolution: {integrity: sha512-z4PhNX7vuL3xVChQ1m2AB9Yg5AULVxXcg/SpIdNs6c5H0NE8XYXysP+DGNKHfuwvY7kxvUdBeoGlODJ6+SfaPg==}\n\n  b@1.0.0:\n    resolution: {integrity: sha512-z4PhNX7vuL3xVChQ1m2AB9Yg5AULVxXcg/SpIdNs6c5H0NE8XYXysP+DGNKHfuwvY7kxvUdBeoGlODJ6+SfaPg==}\n\nsnapshots:\n\n  a@1.0.0:\n    dependencies:\n      b: 1.0.0\n\n  b@1.0.0: {}\n",
        "lockfileVersion: '9.0'\n\nsettings:\n  autoInstallPeers: true\n  excludeLinksFromLockfile: false\n\nimporters:\n\n  .:\n    dependencies:\n      a:\n        specifier: 1.0.0\n        version: 1.0.0\n\npackages:\n\n  a@1.0.0:\n    resolution: {integrity: sha512-z4PhNX7vuL3xVChQ1m2AB9Yg5AULVxXcg/SpIdNs6c5H0NE8XYXysP+DGNKHfuwvY7kxvUdBeoGlODJ6+SfaPg==}\n\n  b@1.0.0:\n    resolution: {integrity: sha512-z4PhNX7vuL3xVChQ1m2AB9Yg5AULVxXcg/SpIdNs6c5H0NE8XYXysP+DGNKHfuwvY7kxvUdBeoGlODJ6+SfaPg==}\n\nsnapshots:\n\n  a@1.0.0:\n    dependencies:\n      b: 1.0.0\n\n  b@1.0.0: {}\n",
    ),
    (
        "lockfileVersion: '9.0'\n\nsettings:\n  autoInstallPeers: true\n  excludeLinksFromLockfile: false\n\ncatalogs:\n  default:\n    react:\n      specifier: ^18.2.0\n      version: 18.3.1\n    react-dom:\n      specifier: ^18.2.0\n      version: 18.3.1\n\nimporters:\n\n  .:\n    devDependencies:\n      typescript:\n        specifier: ^5.4.0\n        version: 5.4.5\n\n  packages/app:\n    dependencies:\n      '@acme/ui':\n        specifier: workspace:^\n        version: link:../ui\n      react:\n        specifier: 'catalog:'\n        version: 18.3.1\n      react-dom:\n        specifier: 'catalog:'\n        version: 18.3.1(react@18.3.1)\n\n  packages/ui:\n    devDependencies:\n      react:\n        specifier: 'catalog:'\n        version: 18.3.1\n\npackages:\n\n  js-tokens@4.0.0:\n    resolution: {integrity: sha512-z4PhNX7vuL3xVChQ1m2AB9Yg5AULVxXcg/SpIdNs6c5H0NE8XYXysP+DGNKHfuwvY7kxvUdBeoGlODJ6+SfaPg==}\n\n  loose-envify@1.4.0:\n    resolution: {integrity: sha512-z4PhNX7vuL3xVChQ1m2AB9Yg5AULVxXcg/SpIdNs6c5H0NE8XYXysP+DGNKHfuwvY7kxvUdBeoGlODJ6+SfaPg==}\n\n  react-dom@18.3.1:\n    resolution: {integrity: sha512-z4PhNX7vuL3xVChQ1m2AB9Yg5AULVxXcg/SpIdNs6c5H0NE8XYXysP+DGNKHfuwvY7kxvUdBeoGlODJ6+SfaPg==}\n    peerDependencies:\n      react: ^18.3.1\n\n  react@18.3.1:\n    resolution: {integrity: sha512-z4PhNX7vuL3xVChQ1m2AB9Yg5AULVxXcg/SpIdNs6c5H0NE8XYXysP+DGNKHfuwvY7kxvUdBeoGlODJ6+SfaPg==}\n\n  scheduler@0.23.2:\n    resolution: {integrity: sha512-z4PhNX7vuL3xVChQ1m2AB9Yg5AULVxXcg/SpIdNs6c5H0NE8XYXysP+DGNKHfuwvY7kxvUdBeoGlODJ6+SfaPg==}\n\n  typescript@5.4.5:\n    resolution: {integrity: sha512-z4PhNX7vuL3xVChQ1m2AB9Yg5AULVxXcg/SpIdNs6c5H0NE8XYXysP+DGNKHfuwvY7kxvUdBeoGlODJ6+SfaPg==}\n\nsnapshots:\n\n  js-tokens@4.0.0: {}\n\n  loose-envify@1.4.0:\n    dependencies:\n      js-tokens: 4.0.0\n\n  react-dom@18.3.1(react@18.3.1):\n    dependencies:\n      loose-envify: 1.4.0\n      react: 18.3.1\n      scheduler: 0.23.2\n\n  react@18.3.1:\n    dependencies:\n      loose-envify: 1.4.0\n\n  scheduler@0.23.2:\n    dependencies:\n      loose-envify: 1.4.0\n\n  typescript@5.4.5: {}\n",
        "lockfileVersion: '9.0'\n\nsettings:\n  autoInstallPeers: true\n  excludeLinksFromLockfile: false\n\ncatalogs:\n  default:\n    react:\n      specifier: ^18.2.0\n      version: 18.3.1\n    react-dom:\n      specifier: ^18.2.0\n      version: 18.3.1\n\nimporters:\n\n  .:\n    devDependencies:\n      typescript:\n        specifier: ^5.4.0\n        version: 5.4.5\n\n  packages/app:\n    dependencies:\n      '@acme/ui':\n        specifier: workspace:^\n        version: link:../ui\n      react:\n        specifier: 'catalog:'\n        version: 18.3.1\n      react-dom:\n        specifier: 'catalog:'\n        version: 18.3.1(react@18.3.1)\n\n  packages/ui:\n    devDependencies:\n      react:\n        specifier: 'catalog:'\n        version: 18.3.1\n\npackages:\n\n  js-tokens@4.0.0:\n    resolution: {integrity: sha512-z4PhNX7vuL3xVChQ1m2AB9Yg5AULVxXcg/SpIdNs6c5H0NE8XYXysP+DGNKHfuwvY7kxvUdBeoGlODJ6+SfaPg==}\n\n  loose-envify@1.4.0:\n    resolution: {integrity: sha512-z4PhNX7vuL3xVChQ1m2AB9Yg5AULVxXcg/SpIdNs6c5H0NE8XYXysP+DGNKHfuwvY7kxvUdBeoGlODJ6+SfaPg==}\n\n  react-dom@18.3.1:\n    resolution: {integrity: sha512-z4PhNX7vuL3xVChQ1m2AB9Yg5AULVxXcg/SpIdNs6c5H0NE8XYXysP+DGNKHfuwvY7kxvUdBeoGlODJ6+SfaPg==}\n    peerDependencies:\n      react: ^18.3.1\n\n  react@18.3.1:\n    resolution: {integrity: sha512-z4PhNX7vuL3xVChQ1m2AB9Yg5AULVxXcg/SpIdNs6c5H0NE8XYXysP+DGNKHfuwvY7kxvUdBeoGlODJ6+SfaPg==}\n\n  scheduler@0.23.2:\n    resolution: {integrity: sha512-z4PhNX7vuL3xVChQ1m2AB9Yg5AULVxXcg/SpIdNs6c5H0NE8XYXysP+DGNKHfuwvY7kxvUdBeoGlODJ6+SfaPg==}\n\n  typescript@5.4.5:\n    resolution: {integrity: sha512-z4PhNX7vuL3xVChQ1m2AB9Yg5AULVxXcg/SpIdNs6c5H0NE8XYXysP+DGNKHfuwvY7kxvUdBeoGlODJ6+SfaPg==}\n\nsnapshots:\n\n  js-tokens@4.0.0: {}\n\n  loose-envify@1.4.0:\n    dependencies:\n      js-tokens: 4.0.0\n\n  react-dom@18.3.1(react@18.3.1):\n    dependencies:\n      loose-envify: 1.4.0\n      react: 18.3.1\n      scheduler: 0.23.2\n\n  react@18.3.1:\n    dependencies:\n      loose-envify: 1.4.0\n\n  scheduler@0.23.2:\n    dependencies:\n      loose-envify: 1.4.0\n\n  typescript@5.4.5: {}\n",
    ),
    (
        "lockfileVersion: '9.0'\nimporters: {}\n",
        "lockfileVersion: '9.0'\n\nsettings:\n  autoInstallPeers: true\n  excludeLinksFromLockfile: false\n\nimporters: {}\n",
    ),
    (
        "# made by hand\nlockfileVersion: 9.0\ntime: {a@1.0.0: '2020-01-01'}\nsettings: {autoInstallPeers: false, dedupe: x}\noverrides:\n  b>c: '-'\n  b: 2.0.0\nsnapshots:\n  b@2.0.0(p@1.0.0):\n    optional: true\n    transitivePeerDependencies: [z, '@s/q']\n    optionalDependencies: {lib: link:./packages//lib/, p: p@1.0.0}\n    id: x\n  p@1.0.0: {}\ncatalogs: {empty: {}, default: {b: {version: 2.0.0, specifier: ^2.0.0}}}\npackages:\n  p@1.0.0:\n    engines: {node: '>=6'}\n    cpu: [x64]\n    hasBin: true\n    resolution: {tarball: x, integrity: sha512-z4PhNX7vuL3xVChQ1m2AB9Yg5AULVxXcg/SpIdNs6c5H0NE8XYXysP+DGNKHfuwvY7kxvUdBeoGlODJ6+SfaPg==}\n  b@2.0.0:\n    deprecated: no more\n    peerDependenciesMeta: {z: {optional: true}, y: {optional: false}, x: {}}\n    peerDependencies: {z: '*', p: '*'}\n    resolution: {integrity: sha512-z4PhNX7vuL3xVChQ1m2AB9Yg5AULVxXcg/SpIdNs6c5H0NE8XYXysP+DGNKHfuwvY7kxvUdBeoGlODJ6+SfaPg==}\nimporters:\n  packages/lib:\n    publishDirectory: dist\n    devDependencies:\n      c: {version: b@2.0.0(p@1.0.0), specifier: npm:b@2}\n      b: {version: 2.0.0(p@1.0.0), specifier: 'catalog:'}\n    optionalDependencies:\n      self: {specifier: link:., version: link:../../packages/lib}\n  .: {}\n",
        "lockfileVersion: '9.0'\n\nsettings:\n  autoInstallPeers: false\n  excludeLinksFromLockfile: false\n\ncatalogs:\n  default:\n    b:\n      specifier: ^2.0.0\n      version: 2.0.0\n\noverrides:\n  b: 2.0.0\n  b>c: '-'\n\nimporters:\n\n  .: {}\n\n  packages/lib:\n    devDependencies:\n      b:\n        specifier: 'catalog:'\n        version: 2.0.0(p@1.0.0)\n      c:\n        specifier: npm:b@2\n        version: b@2.0.0(p@1.0.0)\n    optionalDependencies:\n      self:\n        specifier: link:.\n        version: link:.\n\npackages:\n\n  b@2.0.0:\n    resolution: {integrity: sha512-z4PhNX7vuL3xVChQ1m2AB9Yg5AULVxXcg/SpIdNs6c5H0NE8XYXysP+DGNKHfuwvY7kxvUdBeoGlODJ6+SfaPg==}\n    peerDependencies:\n      p: '*'\n      z: '*'\n    peerDependenciesMeta:\n      z:\n        optional: true\n\n  p@1.0.0:\n    resolution: {integrity: sha512-z4PhNX7vuL3xVChQ1m2AB9Yg5AULVxXcg/SpIdNs6c5H0NE8XYXysP+DGNKHfuwvY7kxvUdBeoGlODJ6+SfaPg==}\n\nsnapshots:\n\n  b@2.0.0(p@1.0.0):\n    optionalDependencies:\n      lib: link:packages/lib\n      p: 1.0.0\n    transitivePeerDependencies:\n      - '@s/q'\n      - z\n\n  p@1.0.0: {}\n",
    ),
];

// Texts that spell no lock, and why.
const BAD: &[(&str, &str)] = &[
    ("", "version "),
    ("lockfileVersion: '6.0'\n", "version 6.0"),
    ("lockfileVersion: ['9.0']\n", "version "),
    ("lockfileVersion: '9.0'\n", "another form at importers"),
    (
        "lockfileVersion: '9.0'\nsettings: {autoInstallPeers: 'true'}\nimporters: {}\n",
        "another form at settings>autoInstallPeers",
    ),
    (
        "lockfileVersion: '9.0'\nsettings: {excludeLinksFromLockfile: true}\nimporters: {}\n",
        "another form at settings>excludeLinksFromLockfile",
    ),
    (
        "lockfileVersion: '9.0'\ncatalogs: {c: {_: {}}}\nimporters: {}\n",
        "another form at catalogs>c>_",
    ),
    (
        "lockfileVersion: '9.0'\noverrides: {a: []}\nimporters: {}\n",
        "another form at overrides>a",
    ),
    (
        "lockfileVersion: '9.0'\nimporters: {../x: {}}\n",
        "another form at importers>../x",
    ),
    (
        "lockfileVersion: '9.0'\nimporters: {.: {dependencies: {a: {}}}}\n",
        "another form at importers>.>dependencies>a>specifier",
    ),
    (
        "lockfileVersion: '9.0'\nimporters: {.: {dependencies: {_a: {specifier: '1', version: '1.0.0'}}}}\n",
        "another form at importers>.>dependencies>_a",
    ),
    (
        "lockfileVersion: '9.0'\nimporters: {.: {dependencies: {a: {specifier: '1', version: '1'}}}}\n",
        "another form at importers>.>dependencies>a>version",
    ),
    (
        "lockfileVersion: '9.0'\nimporters: {.: {devDependencies: {a: x}, dependencies: {a: {specifier: '1', version: 'link:.'}}}}\n",
        "another form at importers>.>devDependencies>a",
    ),
    (
        "lockfileVersion: '9.0'\nimporters: {}\npackages: {a: {}}\n",
        "another form at packages>a",
    ),
    (
        "lockfileVersion: '9.0'\nimporters: {}\npackages: {a@1.0.0: {resolution: {}}}\n",
        "another form at packages>a@1.0.0>resolution>integrity",
    ),
    (
        "lockfileVersion: '9.0'\nimporters: {}\npackages: {a@1.0.0: {resolution: {integrity: sha1-x}}}\n",
        "another form at packages>a@1.0.0>resolution>integrity",
    ),
    (
        "lockfileVersion: '9.0'\nimporters: {}\npackages: {a@1.0.0: {resolution: {integrity: sha512-z4PhNX7vuL3xVChQ1m2AB9Yg5AULVxXcg/SpIdNs6c5H0NE8XYXysP+DGNKHfuwvY7kxvUdBeoGlODJ6+SfaPg==}, peerDependencies: [x]}}\n",
        "another form at packages>a@1.0.0>peerDependencies",
    ),
    (
        "lockfileVersion: '9.0'\nimporters: {}\npackages: {a@1.0.0: {resolution: {integrity: sha512-z4PhNX7vuL3xVChQ1m2AB9Yg5AULVxXcg/SpIdNs6c5H0NE8XYXysP+DGNKHfuwvY7kxvUdBeoGlODJ6+SfaPg==}, peerDependenciesMeta: {x: {optional: 'true'}}}}\n",
        "another form at packages>a@1.0.0>peerDependenciesMeta>x>optional",
    ),
    (
        "lockfileVersion: '9.0'\nimporters: {}\nsnapshots: {'a@1.0.0(b(patch_hash=c))': {}}\n",
        "another form at snapshots>a@1.0.0(b(patch_hash=c))",
    ),
    (
        "lockfileVersion: '9.0'\nimporters: {}\nsnapshots: {a@1.0.0: {dependencies: {a: 2.0.0}}}\n",
        "another form at snapshots>a@1.0.0>dependencies>a",
    ),
    (
        "lockfileVersion: '9.0'\nimporters: {}\nsnapshots: {a@1.0.0: {dependencies: {b: 2.0.0}, optionalDependencies: {b: 2.0.0}}}\n",
        "another form at snapshots>a@1.0.0>optionalDependencies>b",
    ),
    (
        "lockfileVersion: '9.0'\nimporters: {}\nsnapshots: {a@1.0.0: {transitivePeerDependencies: [c, b, c]}}\n",
        "another form at snapshots>a@1.0.0>transitivePeerDependencies",
    ),
    (
        "lockfileVersion: '9.0'\nimporters: {.: {dependencies: {a: {specifier: '1', version: 'link:x'}}}}\nsnapshots: {x: {}}\n",
        "another form at snapshots>x",
    ),
    (
        "lockfileVersion: '9.0'\nimporters: {.: {dependencies: {a: {specifier: '1', version: 'link:x'}}}}\n",
        ". leads to link:x, which isn't there",
    ),
    (
        "lockfileVersion: '9.0'\nimporters: {.: {dependencies: {a: {specifier: '1', version: 'link:..'}}}}\n",
        ". leads to link:.., which isn't there",
    ),
    (
        "lockfileVersion: '9.0'\nimporters: {.: {dependencies: {a: {specifier: '1', version: 'link:/'}}}}\n",
        ". leads to link:/, which isn't there",
    ),
    (
        "lockfileVersion: '9.0'\nimporters: {.: {dependencies: {a: {specifier: '1', version: '1.0.0'}}}}\n",
        ". leads to a@1.0.0, which isn't there",
    ),
    (
        "lockfileVersion: '9.0'\nimporters: {}\nsnapshots: {a@1.0.0(b@2.0.0): {}}\n",
        "a@1.0.0(b@2.0.0) leads to a@1.0.0, which isn't there",
    ),
    (
        "lockfileVersion: '9.0'\nimporters: {}\npackages: {a@1.0.0: {resolution: {integrity: sha512-z4PhNX7vuL3xVChQ1m2AB9Yg5AULVxXcg/SpIdNs6c5H0NE8XYXysP+DGNKHfuwvY7kxvUdBeoGlODJ6+SfaPg==}}}\nsnapshots: {a@1.0.0: {dependencies: {c: b@2.0.0}}}\n",
        "a@1.0.0 leads to b@2.0.0, which isn't there",
    ),
];

// Whether the lock that a text spells is printed as another one.
fn is_printed(alloc: Global, text: &str, wanted: &str) -> Result<bool, Fail> {
    if text.len() > 65536 {
        return Ok(false);
    }
    let Ok(node) = pn_yaml::read(alloc, text.as_bytes()) else {
        return Ok(false);
    };
    match read(alloc, &node) {
        Ok(lock) => {
            let bytes = print(alloc, &lock)?;
            Ok(bytes.as_slice() == wanted.as_bytes())
        }
        Err(_) => Ok(false),
    }
}

// Whether a text is refused with these words.
fn is_refused(alloc: Global, text: &str, wanted: &str) -> Result<bool, Fail> {
    if text.len() > 65536 {
        return Ok(false);
    }
    let Ok(node) = pn_yaml::read(alloc, text.as_bytes()) else {
        return Ok(false);
    };
    match read(alloc, &node) {
        Ok(_) => Ok(false),
        Err(fault) => {
            let told = format!(in alloc; "{fault}")?;
            Ok(told.as_str() == wanted)
        }
    }
}

#[test]
fn lockfiles_are_read(rt: HostRuntime) -> Result<(), Fail> {
    for &(text, wanted) in GOOD {
        assert!(rt; is_printed(rt.alloc(), text, wanted)?, "{text}");
    }
    Ok(())
}

#[test]
fn other_texts_are_refused(rt: HostRuntime) -> Result<(), Fail> {
    for &(text, wanted) in BAD {
        assert!(rt; is_refused(rt.alloc(), text, wanted)?, "{text}{wanted}");
    }
    Ok(())
}
