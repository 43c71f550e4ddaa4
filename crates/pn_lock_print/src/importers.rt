// Projects, as they are printed.
ghost use Rattle.pn_lock_print.specs.LockData.{dependency_data, importer_data};

use crate::entry::{Entry, push_filled};
use crate::nodes::pair_node;
use crate::target::goal_text;
use pn_lock::{Lock, LockDependency, LockImporter};
use pn_text::Memory;
use pn_yaml::Node;
use sqlite_items::Items;
use std::alloc::Global;

impl Entry for LockDependency {
    ghost key = { λ d. d.alias };

    ghost written = { λ l base d. dependency_data l base d };

    fn key(&self) -> &str {
        self.alias.as_str()
    }

    fn node(&self, alloc: Global, lock: &Lock, base: &str) -> Result<Node, Memory> {
        let version = goal_text(alloc, lock, base, &self.alias, self.to)?;
        pair_node(alloc, self.specifier.as_str(), version.as_str())
    }
}

impl Entry for LockImporter {
    ghost key = { λ i. i.folder };

    ghost written = { λ l base i. importer_data l i };

    fn key(&self) -> &str {
        self.folder.as_str()
    }

    fn node(&self, alloc: Global, lock: &Lock, _base: &str) -> Result<Node, Memory> {
        let base = self.folder.as_str();
        let dependencies = self.dependencies.as_slice();
        let dev = self.dev.as_slice();
        let optional = self.optional.as_slice();
        let mut members = Items::new(alloc);
        push_filled(
            alloc,
            &mut members,
            "dependencies",
            lock,
            base,
            dependencies,
        )?;
        push_filled(alloc, &mut members, "devDependencies", lock, base, dev)?;
        push_filled(
            alloc,
            &mut members,
            "optionalDependencies",
            lock,
            base,
            optional,
        )?;
        Ok(Node::Map(members))
    }
}
