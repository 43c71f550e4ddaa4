// Where links lead in a lock.
ghost use Rattle.std.specs.Prelude.{◌≡◌, length};
ghost use Rattle.pn_lock_make.specs.Targets.{IsRanked, lock_goal};

use pn_instances::Goal;
use pn_lock::LockGoal;

/// What a link leads to: a project has its place, and an instance the one that is given for it.
pub(crate) fn lock_goal(ranks: &[u32], to: Goal) -> LockGoal
    requires { IsRanked (length ranks.now) to }
    ensures { result ≡ lock_goal ranks.now to }
{
    match to {
        Goal::Project(project) => LockGoal::Importer(project.0),
        Goal::Inst(instance) => LockGoal::Snapshot(ranks[instance.0 as usize]),
    }
}
