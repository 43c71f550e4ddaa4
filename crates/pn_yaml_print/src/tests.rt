// Texts that are read and printed again.
ghost use Rattle.std.specs.Prelude.{◌≡◌, ◌≤◌, true};
ghost use Rattle.pn_yaml.specs.Data.{are_apart, depth};
ghost use Rattle.pn_yaml.specs.View.{view};

use crate::print;
use pn_yaml::{Node, read};
use std::alloc::Global;
use std::test::Fail;

// The lockfile of a workspace with three projects, a catalog and a peer.
const WORKSPACE: &str = "lockfileVersion: '9.0'

settings:
  autoInstallPeers: true
  excludeLinksFromLockfile: false

catalogs:
  default:
    react:
      specifier: ^18.2.0
      version: 18.3.1
    react-dom:
      specifier: ^18.2.0
      version: 18.3.1

importers:

  .:
    devDependencies:
      typescript:
        specifier: ^5.4.0
        version: 5.4.5

  packages/app:
    dependencies:
      '@acme/ui':
        specifier: workspace:^
        version: link:../ui
      react:
        specifier: 'catalog:'
        version: 18.3.1
      react-dom:
        specifier: 'catalog:'
        version: 18.3.1(react@18.3.1)

  packages/ui:
    devDependencies:
      react:
        specifier: 'catalog:'
        version: 18.3.1

packages:

  js-tokens@4.0.0:
    resolution: {integrity: sha512-fIvNBV3y6EBRV/ibHHjLBDSpRbdhtKXf61DSzOV50xIpPgfbW/5lxDDVRmx4fZwRHf77QMVfworHea2SkYxOUA==}

  loose-envify@1.4.0:
    resolution: {integrity: sha512-gim+dAjoY082bsxzi+K/s4ZI1jbgtiAtpUSuI/sNHZG0oyCyk1zDUWK6vUlY8qXBBzx1d7gfpcLwxoquJNIXBg==}

  react-dom@18.3.1:
    resolution: {integrity: sha512-FnGjFmAyGEoXslgF8d7VmNbfm8mfYsxGzbqP8t2mz1SbNG0jG95htTxxWDIiG2fHXf7e6rDkHy0qqdzfW4pJ6g==}
    peerDependencies:
      react: ^18.3.1

  react@18.3.1:
    resolution: {integrity: sha512-s6kDyH9udNRw0pY5UOKgBo+8rXbZHDG3OHOms3bjLbqhWTojKXrqGn3pZiVndvIdtrWOEBtO5vLfAwy9ai2PYg==}

  scheduler@0.23.2:
    resolution: {integrity: sha512-m4bIcoM5rQsuMt6KuF9euMzXz9+zj4vIR+voZhjXvEXLSj8xmvSdJm4XtO6pDWZ3xnuYW03/NzNFkfhn+0NfNA==}

  typescript@5.4.5:
    resolution: {integrity: sha512-nKRw+mH0XgZ7iRLENCo0AO8KcrpAzCPCwLMo/iITvh8UXDVoUlL2FLcIAi3vbIY4C2awdobPNt0zLKro2EkTbw==}

snapshots:

  js-tokens@4.0.0: {}

  loose-envify@1.4.0:
    dependencies:
      js-tokens: 4.0.0

  react-dom@18.3.1(react@18.3.1):
    dependencies:
      loose-envify: 1.4.0
      react: 18.3.1
      scheduler: 0.23.2

  react@18.3.1:
    dependencies:
      loose-envify: 1.4.0

  scheduler@0.23.2:
    dependencies:
      loose-envify: 1.4.0

  typescript@5.4.5: {}
";

// Scalars in a block list, each form of quoting among them. One that was plain isn't quoted for its looks.
const WORDS: &str = "a:
- 'a b'
- 'a:b'
- 'a#b'
- 'it''s'
- 'a, b'
- 'x[0]'
- 'a: b'
- 'a:'
- 'a #b'
- ' a'
- 'a '
- ''
- '''a'''
- '[a]'
- '-a'
- '?'
- '@s/x'
- '*'
- '%a'
- '1.0'
- '1.0.0'
- '+1'
- '.5'
- '.'
- 'YES'
- 'null'
- '~'
- 'nulls'
- 'é'
- \"a\\nb\"
- \"\\t\\r\"
- \"\\n'\\\"\\\\\"
- \"\\x01\"
- \"\\x7Fé\"
- true
- 1.0
- a, b
-
";

const WORDS_PRINTED: &str = "a:
  - a b
  - a:b
  - a#b
  - it's
  - a, b
  - x[0]
  - 'a: b'
  - 'a:'
  - 'a #b'
  - ' a'
  - 'a '
  - ''
  - '''a'''
  - '[a]'
  - '-a'
  - '?'
  - '@s/x'
  - '*'
  - '%a'
  - '1.0'
  - 1.0.0
  - '+1'
  - '.5'
  - .
  - 'YES'
  - 'null'
  - '~'
  - nulls
  - 'é'
  - \"a\\nb\"
  - \"\\t\\r\"
  - \"\\n'\\\"\\\\\"
  - \"\\x01\"
  - \"\\x7fé\"
  - true
  - 1.0
  - a, b
  - ''
";

// The same in a flow.
const FLOW: &str =
    "resolution: {k: ['a b', 'a:b', 'a#b', 'it''s', 'a, b', 'x[0]', 'a: b', 'a:', 'a #b', ' a', 'a ', '', '''a''', '[a]', '-a', '?', '@s/x', '*', '%a', '1.0', '1.0.0', '+1', '.5', '.', 'YES', 'null', '~', 'nulls', 'é', \"a\\nb\", \"\\t\\r\", \"\\n'\\\"\\\\\", \"\\x01\", \"\\x7Fé\", true, 1.0]}";

const FLOW_PRINTED: &str =
    "resolution: {k: [a b, a:b, a#b, it's, 'a, b', 'x[0]', 'a: b', 'a:', 'a #b', ' a', 'a ', '', '''a''', '[a]', '-a', '?', '@s/x', '*', '%a', '1.0', 1.0.0, '+1', '.5', ., 'YES', 'null', '~', nulls, 'é', \"a\\nb\", \"\\t\\r\", \"\\n'\\\"\\\\\", \"\\x01\", \"\\x7fé\", true, 1.0]}
";

// Texts, and what is printed of the maps that they say.
const TEXTS: &[(&str, &str)] = &[
    ("", ""),
    ("---\n", ""),
    ("# x\n\n  \n", ""),
    ("a: b: c # d", "a: 'b: c'\n"),
    ("'a': 'it''s' # d", "a: it's\n"),
    (
        "a: \"\\\\\\\"\\/\\n\\t\\r\\0\\x41\\u00e9\"",
        "a: \"\\\\\\\"/\\n\\t\\r\\x00Aé\"\n",
    ),
    ("a:\n  b:\n    c: d\n", "a:\n  b:\n    c: d\n"),
    ("a:\n- x\n- y\nb: z\n", "a:\n  - x\n  - y\n\nb: z\n"),
    ("a:\n  - x\n  - y: z\n", "a:\n  - x\n  - 'y: z'\n"),
    ("a:\n\n# c\n  b: 1\n", "a:\n  b: 1\n"),
    ("a:\nb: 1\n", "a: ''\n\nb: 1\n"),
    ("a:\n-\n- b\n", "a:\n  - ''\n  - b\n"),
    ("a b: c", "a b: c\n"),
    (
        "a: {b: [c, d,], 'e': {}}",
        "a:\n  b:\n    - c\n    - d\n  e: {}\n",
    ),
    (
        "resolution: {b: [c, d,], 'e': {}}",
        "resolution: {b: [c, d], e: {}}\n",
    ),
    ("a: [x  , ^1.0.0]", "a:\n  - x\n  - ^1.0.0\n"),
    ("a: ['é', b]", "a:\n  - 'é'\n  - b\n"),
    ("a: {b[c: x{y}", "a:\n  b[c: x{y\n"),
    ("{a: b}", "a: b\n"),
    (
        "a: |\n  x\n   # y\n\n  z\nb: 1",
        "a: \"x\\n # y\\nz\\n\"\n\nb: 1\n",
    ),
    ("a: >\n  x\n  y\n", "a: \"x y\\n\"\n"),
    ("a: >+\n  x\n\n", "a: \"x\\n\"\n"),
    ("a: >-\n  x\n  y\n", "a: x y\n"),
    ("a:\n- |\n  x\n  y\n- z\n", "a:\n  - \"x\\ny\\n\"\n  - z\n"),
    ("a: |- # c\n  x\n", "a: x\n"),
    ("a: |+\nb: 1\n", "a: \"\\n\"\n\nb: 1\n"),
    ("a: >=18\n", "a: '>=18'\n"),
    ("---\na: 1\n", "a: 1\n"),
    ("\u{feff}a: 1\r\nb: 2\r\n", "a: 1\n\nb: 2\n"),
    ("... x: 1", "... x: 1\n"),
    (
        "a:\n- '['\n- [a, {b: '1'}]\nx:\n 'on': 'yes'\n t: true\n '5': ''\n c: \"a\\tb\\r\\\"\"\n",
        "a:\n  - '['\n  - [a, {b: '1'}]\n\nx:\n  'on': 'yes'\n  t: true\n  '5': ''\n  c: \"a\\tb\\r\\\"\"\n",
    ),
    (
        "a: [[[[[[[[[[[[[[[[[[[[[[[[[[[[[[[[[[[[[[[[[[[[[[[[[[[[[[[[[[[[[[x]]]]]]]]]]]]]]]]]]]]]]]]]]]]]]]]]]]]]]]]]]]]]]]]]]]]]]]]]]]]]]",
        "a:\n  - [[[[[[[[[[[[[[[[[[[[[[[[[[[[[[[[[[[[[[[[[[[[[[[[[[[[[[[[[[[[[x]]]]]]]]]]]]]]]]]]]]]]]]]]]]]]]]]]]]]]]]]]]]]]]]]]]]]]]]]]]]]\n",
    ),
    (
        "a:\n b:\n  c: [[[[[[[[[[[[[[[[[[[[[[[[[[[[[[[[[[[[[[[[[[[[[[[[[[[[[[[[[[[[x]]]]]]]]]]]]]]]]]]]]]]]]]]]]]]]]]]]]]]]]]]]]]]]]]]]]]]]]]]]]",
        "a:\n  b:\n    c:\n      - [[[[[[[[[[[[[[[[[[[[[[[[[[[[[[[[[[[[[[[[[[[[[[[[[[[[[[[[[[[x]]]]]]]]]]]]]]]]]]]]]]]]]]]]]]]]]]]]]]]]]]]]]]]]]]]]]]]]]]]\n",
    ),
    (WORDS, WORDS_PRINTED),
    (FLOW, FLOW_PRINTED),
    (WORKSPACE, WORKSPACE),
];

fn print_map(alloc: Global, node: &Node) -> Result<Vec<u8>, Fail>
    requires apart { are_apart (view node.now) ≡ true }
    requires flat { depth (view node.now) ≤ 64 }
{
    match node {
        Node::Map(_) => Ok(print(alloc, node)?),
        _ => Err("no map")?,
    }
}

// What is printed of the map that a text says.
fn printed(alloc: Global, text: &str) -> Result<Vec<u8>, Fail> {
    if text.len() > u32::MAX as usize {
        return Err("too long")?;
    }
    match read(alloc, text.as_bytes()) {
        Ok(node) => print_map(alloc, &node),
        Err(_) => Err("refused")?,
    }
}

#[test]
fn texts_are_read_and_printed(rt: HostRuntime) -> Result<(), Fail> {
    for &(text, wanted) in TEXTS {
        assert_eq!(rt;
            printed(rt.alloc(), text)?.as_slice(),
            wanted.as_bytes(),
            "{text}"
        );
    }
    Ok(())
}
