// What is known of the layout of a lock.
ghost use Rattle.pn_lock_layout.specs.Laws.{FindsLaw, HeldLaw, PlacedLaw};

use pn_deppath::folder_law;

/// In an installed tree Node finds, from each folder of a snapshot's package, the package itself, by each link what the lock
/// says, and any other name as from the virtual store; and from each project's folder what its dependencies lead to.
pub fn finds_law()
    ensures { FindsLaw }
{
    folder_law() // dep paths have folders of their own
}

/// In an installed tree each listed file stands below its package folder, with bytes of that SHA-512.
pub fn held_law()
    ensures { HeldLaw }
{}

/// A root that is the only project, with the default virtual store and nothing hoisted, is placed.
pub fn placed_law()
    ensures { PlacedLaw }
{}
