use super::*;
use pn_text::{AbsPath, RelPath};
use std::alloc::Global;
use std::test::Fail;

const OF_NOTHING: &str =
    "sha512-z4PhNX7vuL3xVChQ1m2AB9Yg5AULVxXcg/SpIdNs6c5H0NE8XYXysP+DGNKHfuwvY7kxvUdBeoGlODJ6+SfaPg==";

const HEX_OF_ABC: &str =
    "ddaf35a193617abacc417349ae20413112e6fa4e89a97ea20a9eeee64b55d39a2192992a274fc1a836ba3c23a3feebbd454d4423643ce80e2a9ac94fa54ca49f";

fn digest_of(pieces: &[&str]) -> Digest {
    let mut hasher = Hasher512::new();
    for piece in pieces {
        hasher.push(piece.as_bytes());
    }
    hasher.end()
}

#[test]
fn pieces_have_the_digest_of_the_whole(rt: HostRuntime) -> Result<(), Fail> {
    let alloc = rt.alloc();
    for pieces in [["abc", "", ""], ["a", "b", "c"], ["", "ab", "c"]] {
        assert_eq!(rt; digest_of(&pieces).hex(alloc)?.as_str(), HEX_OF_ABC);
    }
    let nothing = digest_of(&[]);
    let abc = digest_of(&["abc"]);
    assert!(rt; nothing < abc && nothing.copy() == nothing);
    assert!(rt; Digest::of_bytes(b"abc") == abc);
    Ok(())
}

#[test]
fn integrities_are_printed_and_read(rt: HostRuntime) -> Result<(), Fail> {
    let alloc = rt.alloc();
    let integrity = Integrity::of(digest_of(&[]));
    assert_eq!(rt; integrity.print(alloc)?.as_str(), OF_NOTHING);
    assert!(rt; Integrity::read(OF_NOTHING) == Some(integrity));
    for text in [
        "",
        "sha512-",
        "sha512-abc",
        "SHA512-z4PhNX7vuL3xVChQ1m2AB9Yg5AULVxXcg/SpIdNs6c5H0NE8XYXysP+DGNKHfuwvY7kxvUdBeoGlODJ6+SfaPg==",
        "sha512-z4PhNX7vuL3xVChQ1m2AB9Yg5AULVxXcg/SpIdNs6c5H0NE8XYXysP+DGNKHfuwvY7kxvUdBeoGlODJ6+SfaPg=",
        "sha512-z4PhNX7vuL3xVChQ1m2AB9Yg5AULVxXcg/SpIdNs6c5H0NE8XYXysP+DGNKHfuwvY7kxvUdBeoGlODJ6+SfaPh==",
        "sha512-z4PhNX7vuL3xVChQ1m2AB9Yg5AULVxXcg/SpIdNs6c5H0NE8XYXysP+DGNKHfuwvY7kxvUdBeoGlODJ6+SfaPg==\n",
        "sha512-z4PhNX7vuL3xVChQ1m2AB9Yg5AULVxXcg_SpIdNs6c5H0NE8XYXysP-DGNKHfuwvY7kxvUdBeoGlODJ6-SfaPg==",
    ] {
        assert!(rt; Integrity::read(text).is_none(), "{text}");
    }
    Ok(())
}

const HEX_OF_NOTHING: &str =
    "cf83e1357eefb8bdf1542850d66d8007d620e4050b5715dc83f4a921d36ce9ce47d0d13c5d85f2b0ff8318d2877eec2f63b931bd47417a81a538327af927da3e";

// Files of these paths with the bytes `abc`.
fn files(alloc: Global, paths: &[&str]) -> Result<Vec<(RelPath, Digest)>, Fail> {
    let mut files = Vec::new(alloc);
    for path in paths {
        files.push((RelPath::read(alloc, path)?, digest_of(&["abc"])))?;
    }
    Ok(files)
}

// Their lines, in the order given.
fn lines(alloc: Global, paths: &[&str]) -> Result<String, Fail> {
    let mut text = String::new(alloc);
    for path in paths {
        text.push_str(HEX_OF_ABC)?;
        text.push_str(" ")?;
        text.push_str(path)?;
        text.push_str("\n")?;
    }
    Ok(text)
}

#[test]
fn a_listing_has_a_line_a_file(rt: HostRuntime) -> Result<(), Fail> {
    let alloc = rt.alloc();
    let listing = Listing::of_files(alloc, files(alloc, &["x"])?)?;
    let text = listing.print(alloc)?;
    assert!(rt; text.as_slice() == lines(alloc, &["x"])?.as_bytes());
    assert_eq!(rt;
        listing.integrity(alloc)?.print(alloc)?.as_str(),
        "sha512-wx3df9cLmoqUBvHiZq8/LAzDW8CLQhMxXjV6InLIIB3Q6cZk+5ykqCYtzLWNzWkPdJFiFm6a4iu5Ff+ha4F9aA=="
    );
    Ok(())
}

#[test]
fn files_are_listed_in_byte_order(rt: HostRuntime) -> Result<(), Fail> {
    let alloc = rt.alloc();
    let mut found = files(alloc, &["b/c", "a"])?;
    found.push((RelPath::read(alloc, "a-b")?, digest_of(&[])))?;
    let listing = Listing::of_files(alloc, found)?;
    assert_eq!(rt;
        listing.integrity(alloc)?.print(alloc)?.as_str(),
        "sha512-sr1sDfkSwNkVvKgdsc4smOOQKy2tcXX9Ac8LNaI9a8xRyELlYMfLH/67cmTdu7TjWMu5zTWURnHgLB8IbUG3uQ=="
    );
    let read = Listing::read(alloc, listing.print(alloc)?.as_slice())?;
    assert!(rt; read.len() == 3);
    let second = read.as_slice().get(1).expect(&rt, "a second file");
    assert_eq!(rt; second.0.as_str(), "a-b");
    assert_eq!(rt; second.1.hex(alloc)?.as_str(), HEX_OF_NOTHING);
    assert!(rt; Digest::from_hex(HEX_OF_NOTHING.as_bytes()) == Some(second.1));
    Ok(())
}

#[test]
fn files_that_make_no_listing_are_refused(rt: HostRuntime) -> Result<(), Fail> {
    let alloc = rt.alloc();
    let cases: [(&[&str], Option<ListingFault>); 8] = [
        (&[], None),
        (&["a-b", "a/x", "b", "a/b/x", "a.b"], None),
        (&["a", "b\nc"], Some(ListingFault::BadPath(1))),
        (&["b", "a/x", "a"], Some(ListingFault::BadPath(2))),
        (&["a", "a-b", "a/b/c"], Some(ListingFault::BadPath(0))),
        (&["b", "a", "b"], Some(ListingFault::Twice(2))),
        (&["a", "a", "b\n"], Some(ListingFault::BadPath(2))),
        (&["c", "b", "b", "c"], Some(ListingFault::Twice(2))),
    ];
    for (paths, wanted) in cases {
        let found = Listing::of_files(alloc, files(alloc, paths)?).err();
        assert!(rt; found == wanted);
    }
    Ok(())
}

#[test]
fn only_the_texts_of_listings_are_read(rt: HostRuntime) -> Result<(), Fail> {
    let alloc = rt.alloc();
    let cases: [&[&str]; 9] = [
        &[""],
        &["/a"],
        &["a/"],
        &["a/../b"],
        &["a", ""],
        &["b", "a"],
        &["a", "a"],
        &["a", "a/b"],
        &["a", "a-b", "a/b"],
    ];
    for paths in cases {
        let text = lines(alloc, paths)?;
        assert!(rt; is_refused(alloc, text.as_bytes()), "{text}");
    }
    for line in [
        "",
        " x\n",
        "ddaf35a193617abacc417349ae20413112e6fa4e89a97ea20a9eeee64b55d39a2192992a274fc1a836ba3c23a3feebbd454d4423643ce80e2a9ac94fa54ca49f x",
        "Ddaf35a193617abacc417349ae20413112e6fa4e89a97ea20a9eeee64b55d39a2192992a274fc1a836ba3c23a3feebbd454d4423643ce80e2a9ac94fa54ca49f x\n",
        "ddaf35a193617abacc417349ae20413112e6fa4e89a97ea20a9eeee64b55d39a2192992a274fc1a836ba3c23a3feebbd454d4423643ce80e2a9ac94fa54ca49f\tx\n",
        "ddaf35a193617abacc417349ae20413112e6fa4e89a97ea20a9eeee64b55d39a2192992a274fc1a836ba3c23a3feebbd454d4423643ce80e2a9ac94fa54ca4 x\n",
    ] {
        assert_eq!(rt;
            is_refused(alloc, line.as_bytes()),
            !line.is_empty(),
            "{line}"
        );
    }
    let mut bytes = Vec::from_slice(alloc, HEX_OF_ABC.as_bytes())?;
    bytes.extend_from_slice(b" \xff\n")?;
    assert!(rt; is_refused(alloc, bytes.as_slice()));
    Ok(())
}

fn is_refused(alloc: Global, bytes: &[u8]) -> bool {
    Listing::read(alloc, bytes).err() == Some(ListingFault::NotListing)
}

fn planned(alloc: Global, paths: &[&str]) -> Result<Vec<(AbsPath, Planned)>, Fail> {
    let mut entries = Vec::new(alloc);
    for path in paths {
        entries.push((AbsPath::read(alloc, path)?, Planned::Folder))?;
    }
    Ok(entries)
}

fn length_of(tree: Option<PlannedTree>) -> Option<usize> {
    match tree {
        Some(tree) => Some(tree.as_slice().len()),
        None => None,
    }
}

#[test]
fn planned_trees_rise_in_byte_order(rt: HostRuntime) -> Result<(), Fail> {
    let alloc = rt.alloc();
    let rising = planned(alloc, &["/a", "/a-b", "/a/b"])?;
    assert_eq!(rt; length_of(PlannedTree::of(rising)), Some(3));
    let turned = planned(alloc, &["/a/b", "/a-b"])?;
    assert_eq!(rt; length_of(PlannedTree::of(turned)), None);
    let twice = planned(alloc, &["/a", "/a"])?;
    assert_eq!(rt; length_of(PlannedTree::of(twice)), None);
    Ok(())
}
