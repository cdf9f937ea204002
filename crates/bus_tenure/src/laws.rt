//! What holds of every election that a sender takes part in, and of what it publishes, over any
//! ratifier.

ghost use Rattle.bus_ownerbits.specs.Sizes.{election_bound};
ghost use Rattle.bus_tenure.specs.Bounds.{IsBounded};
ghost use Rattle.bus_tenure.specs.Core.{Core, GoesByFloor};
ghost use Rattle.bus_tenure.specs.Elections.{Elector, election_of};
ghost use Rattle.bus_tenure.specs.Publishing.{PublishesOnward};
ghost use Rattle.bus_tenure.specs.declared.pages.Page.{Page};

use bus_adoptcommit::Ratifier;

/// At the turn that begins a tenure the bound of an election over the ratifier is left, and each
/// step takes one turn.
pub fn elections_are_bounded<Q: Ratifier>()
    ensures { IsBounded (election_of Q.Ratifier) (election_bound Q.protocol.steps) }
{}

/// The frame that a holder publishes goes on with each log in which its owner has not left, whose
/// tenures are below its own, and of which its page says rightly whether its order has ended. So it
/// stands behind no end mark.
pub fn published_frames_go_on<Q: Ratifier>()
    ensures { (c : Core (Elector Q)) → PublishesOnward (election_of Q.Ratifier) c }
{}

/// Room goes by the floor: a frame fits that ends no further behind it than the log is long, and
/// no other.
pub fn room_goes_by_the_floor<Q: Ratifier>()
    ensures { (c : Core (Elector Q)) (page : Page) → GoesByFloor c page }
{}
