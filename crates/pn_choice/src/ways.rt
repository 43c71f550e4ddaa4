// The ways that sources know.
ghost use Rattle.std.specs.Prelude.{◌≡◌, [], refl};
ghost use Rattle.std.specs.List.{Contains};
ghost use Rattle.std.proofs.Common.{◌∙◌};
ghost use Rattle.pn_choice.specs.Cached.{AreShown};
ghost use Rattle.pn_choice.specs.Calls.{knows, IsSought, ReadsThese, Learns};
ghost use Rattle.pn_choice.specs.Shows.{IsNodeOf};
ghost use Rattle.pn_choice.specs.Ways.{Goes, Broke, LeadsBy, Loses, IsUntold};
ghost use Rattle.pn_choice.specs.Goes.{rests, goes_on, broke_later, learns_nothing, learns_on, reads_on};

use crate::package::package;
use crate::sources::Sources;
use crate::way::WayFault;
use pn_fs::ReadFs;
use pn_text::PkgId;
use pn_walk::{Aim, Node, Ways, Wish};
use std::alloc::Global;

impl<'a, 'b, 'c, R: ReadFs> Ways for Sources<'a, 'b, 'c, R> {
    type Fault = WayFault;

    ghost good = { λ s. AreShown (R.seen s.registry.now).tree s.shelves.now };

    ghost leads = { λ s w a. LeadsBy (R.seen s.registry.now).tree s.held.now w a };

    ghost node = { λ s n. IsNodeOf (R.seen s.registry.now).tree n };

    ghost lost = { λ s w f. Loses (R.seen s.registry.now).tree s.held.now w f };

    ghost unread = { λ s i f. IsUntold (R.seen s.registry.now).tree i f };

    ghost follows = { λ s ws ids t. Goes (R.seen s.registry.now) (R.seen t.registry.now) s.held.now t.held.now × (t.registry.ghost_name ≡ s.registry.ghost_name) × Learns (knows s.shelves.now) (knows t.shelves.now) (R.seen s.registry.now) (IsSought (Contains ws)) ids (R.seen t.registry.now) };

    ghost stops = { λ s ws ids t. Goes (R.seen s.registry.now) (R.seen t.registry.now) s.held.now t.held.now × (t.registry.ghost_name ≡ s.registry.ghost_name) × ReadsThese (knows s.shelves.now) (knows t.shelves.now) (R.seen s.registry.now) (IsSought (Contains ws)) ids (R.seen t.registry.now) };

    ghost broke = { λ s t f. Broke (R.seen s.registry.now) (R.seen t.registry.now) f };

    ghost rests = { λ s. (rests (R.seen s.registry.now) s.held.now, refl, learns_nothing (IsSought (Contains [])) (knows s.shelves.now) (R.seen s.registry.now)) };

    ghost goes_on = { λ a b c ws vs is js h k. (goes_on (R.seen a.registry.now) (R.seen b.registry.now) (R.seen c.registry.now) a.held.now b.held.now c.held.now h.0 k.0, k.1 ∙ h.1, learns_on (knows a.shelves.now) (knows b.shelves.now) (knows c.shelves.now) (R.seen a.registry.now) (R.seen b.registry.now) (R.seen c.registry.now) ws vs is js h.2 k.2) };

    ghost may_stop = { λ a b ws is h. (h.0, h.1, h.2.reads) };

    ghost stops_later = { λ a b c ws vs is js h k. (goes_on (R.seen a.registry.now) (R.seen b.registry.now) (R.seen c.registry.now) a.held.now b.held.now c.held.now h.0 k.0, k.1 ∙ h.1, reads_on (knows a.shelves.now) (knows b.shelves.now) (knows c.shelves.now) (R.seen a.registry.now) (R.seen b.registry.now) (R.seen c.registry.now) ws vs is js h.2 k.2) };

    ghost broke_later = { λ a b c ws is f h k. broke_later (R.seen a.registry.now) (R.seen b.registry.now) (R.seen c.registry.now) a.held.now b.held.now f h.0 k };

    fn follow(&mut self, alloc: Global, wish: &Wish) -> Result<Option<Aim>, WayFault> {
        match &wish.chosen {
            Some(id) => Ok(Some(Aim::Package(id.copy(alloc)?))),
            None => self.seek(alloc, wish),
        }
    }

    fn read(&mut self, alloc: Global, id: &PkgId) -> Result<Node, WayFault> {
        package(alloc, self.registry, id)
    }
}
