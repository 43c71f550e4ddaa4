// What wishes lead to, and what packages ask for.
ghost use Rattle.std.specs.Prelude.{◌≡◌, List, [], ◌∷◌, ◌++◌, Option, OnOk, OnErr, IfOk, IfErr};
ghost use Rattle.pn_walk.specs.Keeps.{Keeps};
ghost use Rattle.pn_walk.specs.Wants.{Wish as TheWish, Id as TheId, Aim as TheAim, Node as TheNode};

use crate::node::Node;
use crate::wish::{Aim, Wish};
use pn_text::PkgId;
use std::alloc::Global;

/// What wishes lead to, and what packages ask for.
pub trait Ways {
    /// Why a wish leads nowhere, or a package isn't told.
    type Fault: Drop;

    /// What the object keeps of itself from call to call.
    ghost good: { Self → Type 0 };

    /// What a wish leads to.
    ghost leads: { Self → TheWish → Option TheAim → Type 0 };

    /// The packages.
    ghost node: { Self → TheNode → Type 0 };

    /// Why a wish leads nowhere.
    ghost lost: { Self → TheWish → Self.Fault → Type 0 };

    /// Why an id isn't that of a package.
    ghost unread: { Self → TheId → Self.Fault → Type 0 };

    /// How calls that follow these wishes and read these packages, each list in its order and no others, may leave the object.
    ghost follows: { Self → List TheWish → List TheId → Self → Type 0 };

    /// The same, where the last call may have been refused.
    ghost stops: { Self → List TheWish → List TheId → Self → Type 0 };

    /// What a refusal says of the calls before it, as that a count rose.
    ghost broke: { Self → Self → Self.Fault → Type 0 };

    /// What a wish leads to, or that it may come to nothing. No package is read.
    fn follow(&mut self, alloc: Global, wish: &Wish) -> Result<Option<Aim>, Self::Fault>
        requires { good self.old }
        ensures aim { IfOk result (leads self.old wish.now) }
        ensures lost { IfErr result (lost self.old wish.now) }
        ensures kept { Keeps (leads self.old) (leads self.new) (node self.old) (node self.new) (lost self.old) (lost self.new) (unread self.old) (unread self.new) }
        ensures good { good self.new }
        ensures follows { OnOk result (follows self.old (wish.now ∷ []) [] self.new) }
        ensures stops { OnErr result (stops self.old (wish.now ∷ []) [] self.new) }
        ensures broke { IfErr result (broke self.old self.new) };

    /// The package of an id.
    fn read(&mut self, alloc: Global, id: &PkgId) -> Result<Node, Self::Fault>
        requires { good self.old }
        ensures node { IfOk result (node self.old) }
        ensures here { IfOk result (λ n. n.id ≡ id.now) }
        ensures unread { IfErr result (unread self.old id.now) }
        ensures kept { Keeps (leads self.old) (leads self.new) (node self.old) (node self.new) (lost self.old) (lost self.new) (unread self.old) (unread self.new) }
        ensures good { good self.new }
        ensures follows { OnOk result (follows self.old [] (id.now ∷ []) self.new) }
        ensures stops { OnErr result (stops self.old [] (id.now ∷ []) self.new) }
        ensures broke { IfErr result (broke self.old self.new) };

    ghost rests: { (a : Self) → follows a [] [] a };

    ghost goes_on: { (a b c : Self) (ws vs : List TheWish) (is js : List TheId) → follows a ws is b → follows b vs js c → follows a (ws ++ vs) (is ++ js) c };

    ghost may_stop: { (a b : Self) (ws : List TheWish) (is : List TheId) → follows a ws is b → stops a ws is b };

    ghost stops_later: { (a b c : Self) (ws vs : List TheWish) (is js : List TheId) → follows a ws is b → stops b vs js c → stops a (ws ++ vs) (is ++ js) c };

    ghost broke_later: { (a b c : Self) (ws : List TheWish) (is : List TheId) (f : Self.Fault) → follows a ws is b → broke b c f → broke a c f };
}
