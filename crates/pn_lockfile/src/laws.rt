// Laws of lockfiles of trees.
ghost use Rattle.pn_lockfile.specs.Laws.{AnswerLaw};

use pn_lock_read::read_law;

/// At a path of a known tree at most one lockfile is found, at most one refusal comes, and never both.
pub fn answer_law()
    ensures { AnswerLaw }
{
    read_law();
}
