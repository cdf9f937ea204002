//! What each step on a word makes its seat show. Only `words` can pick one. Each step of a receiver
//! says here of which word it is, and so does each look of a sender. Each store of a receiver says
//! what was stored: `step.word` is the word that the step was on, and `step.first` the number that
//! a store stored there.

use crate::rule::{Planned, Seated, Told, View};
use atomic_table::{Join, Play, Split};
use bus_adoptcommit::Ratifier;
use bus_core::SenderCore;
use bus_tenure::OwnedPage;
use std::marker::PhantomData;

/// The seat shows the sender that was picked, with the turn that it took.
pub(super) struct Goes<Q, K> {
    of: PhantomData<(Q, K)>,
}

impl<Q: Ratifier, K: Told<SenderCore<Q>>> Play<Option<OwnedPage>, View<SenderCore<Q>>>
    for Goes<Q, K> {
    ghost use Rattle.bus_automaton.specs.Buses.{process_with};
    ghost use Rattle.bus_pageslot.specs.Steps.{GoesOn};

    ghost then = { λ _ m got m'. GoesOn (process_with Q.kind_of Q.op Q.fed Q.protocol)
        K.core K.word m got m' };
}

/// The next sender's seat is made.
pub(super) struct Cut<Q, K> {
    of: PhantomData<(Q, K)>,
}

impl<Q: Ratifier, K: Seated<SenderCore<Q>>> Split<View<SenderCore<Q>>> for Cut<Q, K> {
    ghost use Rattle.bus_pageslot.specs.Rule.{cut_left, cut_right};

    ghost left = { cut_left };

    ghost right = { λ _. cut_right K.core K.first };
}

/// A receiver's seat is made.
pub(super) struct CutTap<Q> {
    of: PhantomData<Q>,
}

impl<Q: Ratifier> Split<View<SenderCore<Q>>> for CutTap<Q> {
    ghost use Rattle.bus_pageslot.specs.Rule.{tap_left, tap_right};

    ghost left = { tap_left };

    ghost right = { tap_right };
}

/// A receiver's seat loaded the length.
pub(super) struct LoadsLength<Q> {
    of: PhantomData<Q>,
}

impl<Q: Ratifier> Play<Option<OwnedPage>, View<SenderCore<Q>>> for LoadsLength<Q> {
    ghost use Rattle.std.specs.Prelude.{◌≡◌};
    ghost use Rattle.bus_pageslot.specs.Steps.{Learns};
    ghost use Rattle.bus_tenure.specs.Core.{length_at};

    ghost then = { λ step m got m'. (step.word ≡ length_at) × Learns m got m' };
}

/// A receiver's seat loaded a word that it knows.
pub(super) struct LoadsWord<Q> {
    of: PhantomData<Q>,
}

impl<Q: Ratifier> Play<Option<OwnedPage>, View<SenderCore<Q>>> for LoadsWord<Q> {
    ghost use Rattle.bus_pageslot.specs.Steps.{Reads};

    ghost then = { λ step m got m'. Reads m step.word got m' };
}

/// By a turn of it a receiver's seat loaded the length.
pub(super) struct LoadsLengthInTurn<Q> {
    of: PhantomData<Q>,
}

impl<Q: Ratifier> Play<Option<OwnedPage>, View<SenderCore<Q>>> for LoadsLengthInTurn<Q> {
    ghost use Rattle.std.specs.Prelude.{◌≡◌};
    ghost use Rattle.bus_pageslot.specs.Listening.{FindsLength};
    ghost use Rattle.bus_tenure.specs.Core.{length_at};

    ghost then = { λ step m got m'. (step.word ≡ length_at) × FindsLength m got m' };
}

/// By a turn of it a receiver's seat loaded the word at its place.
pub(super) struct LoadsWordInTurn<Q> {
    of: PhantomData<Q>,
}

impl<Q: Ratifier> Play<Option<OwnedPage>, View<SenderCore<Q>>> for LoadsWordInTurn<Q> {
    ghost use Rattle.std.specs.Prelude.{◌≡◌};
    ghost use Rattle.bus_pageslot.specs.Listening.{FindsWord};
    ghost use Rattle.bus_pageslot.specs.Rule.{receiver_view_in, log_word_in};

    ghost then = { λ step m got m'. (step.word ≡ log_word_in m.0 (receiver_view_in m.0).place)
        × FindsWord m got m' };
}

/// By a turn of it a receiver's seat stored its place in its passed place.
pub(super) struct StoresPassed<Q> {
    of: PhantomData<Q>,
}

impl<Q: Ratifier> Play<Option<OwnedPage>, View<SenderCore<Q>>> for StoresPassed<Q> {
    ghost use Rattle.std.specs.Prelude.{◌≡◌};
    ghost use Rattle.bus_pageslot.specs.Rule.{passed_word_in, receiver_view_in};
    ghost use Rattle.bus_pageslot.specs.Steps.{HasPassed};

    ghost then = { λ step m _ m'. (step.word ≡ passed_word_in m.0)
        × (step.first ≡ (receiver_view_in m.0).place) × HasPassed m m' };
}

/// A receiver's seat stored the number past all places there, and has left for good.
pub(super) struct Leaves<Q> {
    of: PhantomData<Q>,
}

impl<Q: Ratifier> Play<Option<OwnedPage>, View<SenderCore<Q>>> for Leaves<Q> {
    ghost use Rattle.std.specs.Prelude.{◌≡◌};
    ghost use Rattle.bus_register.specs.declared.limits.TheConstants.{PASSED_ALL};
    ghost use Rattle.bus_pageslot.specs.Rule.{passed_word_in};
    ghost use Rattle.bus_pageslot.specs.Steps.{HasLeft};

    ghost then = { λ step m _ m'. (step.word ≡ passed_word_in m.0) × (step.first ≡ PASSED_ALL)
        × HasLeft m m' };
}

/// A receiver's seat tried to fork, to the number whose passed place this is: from the number past
/// all places to what the receiver has passed. The bus is that of the plan that was picked.
pub(super) struct Forks<Q, K> {
    of: PhantomData<(Q, K)>,
}

impl<Q: Ratifier, K: Planned> Play<Option<OwnedPage>, View<SenderCore<Q>>> for Forks<Q, K> {
    ghost use Rattle.std.specs.Prelude.{◌≡◌};
    ghost use Rattle.bus_automaton.specs.Buses.{process_with, automaton_with};
    ghost use Rattle.bus_register.specs.declared.limits.TheConstants.{PASSED_ALL};
    ghost use Rattle.bus_pageslot.specs.Looks.{IsFoundBy};
    ghost use Rattle.bus_pageslot.specs.Rule.{receiver_view_in};
    ghost use Rattle.bus_pageslot.specs.Steps as steps;

    ghost then = { λ step m got m'. (step.first ≡ PASSED_ALL)
        × (step.second ≡ (receiver_view_in m.0).passed) × steps.Forks m step.word got m'
        × IsFoundBy (process_with Q.kind_of Q.op Q.fed Q.protocol)
        (automaton_with Q.kind_of Q.op Q.fed Q.protocol) K.plan m.0 step.word got };
}

/// A copy of a receiver's seat is cut off it, where no receiver has a passed place.
pub(super) struct Copies<Q> {
    of: PhantomData<Q>,
}

impl<Q: Ratifier> Split<View<SenderCore<Q>>> for Copies<Q> {
    ghost use Rattle.bus_pageslot.specs.Steps.{copy_of};

    ghost left = { λ v. v };

    ghost right = { copy_of };
}

/// A sender's seat loaded a word, of the bus of the plan that was picked, and shows this look more:
/// the word, and the number that it found there.
pub(super) struct Looks<Q, K> {
    of: PhantomData<(Q, K)>,
}

impl<Q: Ratifier, K: Planned> Play<Option<OwnedPage>, View<SenderCore<Q>>> for Looks<Q, K> {
    ghost use Rattle.std.specs.Prelude.{◌≡◌};
    ghost use Rattle.bus_automaton.specs.Buses.{process_with, automaton_with};
    ghost use Rattle.bus_pageslot.specs.Looks.{IsFoundBy};
    ghost use Rattle.bus_pageslot.specs.Rule.{with_look};

    ghost then = { λ step m got m'.
        (m' ≡ (with_look m.0 (record { word = step.word; found = got }), m.1))
        × IsFoundBy (process_with Q.kind_of Q.op Q.fed Q.protocol)
        (automaton_with Q.kind_of Q.op Q.fed Q.protocol) K.plan m.0 step.word got };
}

/// A receiver's seat goes into another seat.
pub(super) struct Meet<Q> {
    of: PhantomData<Q>,
}

impl<Q: Ratifier> Join<View<SenderCore<Q>>> for Meet<Q> {
    ghost use Rattle.bus_pageslot.specs.declared.rule.View.TheVariants.{Spent};
    ghost use Rattle.bus_pageslot.specs.Rule.{views_joined};

    ghost both = { views_joined };

    ghost spent = { Spent };
}

/// It comes out of it again.
pub(super) struct Part<Q> {
    of: PhantomData<Q>,
}

impl<Q: Ratifier> Split<View<SenderCore<Q>>> for Part<Q> {
    ghost use Rattle.bus_pageslot.specs.Rule.{first_of, second_of};

    ghost left = { first_of };

    ghost right = { second_of };
}

/// Two joined seats loaded the length.
pub(super) struct LoadsJoined<Q> {
    of: PhantomData<Q>,
}

impl<Q: Ratifier> Play<Option<OwnedPage>, View<SenderCore<Q>>> for LoadsJoined<Q> {
    ghost use Rattle.std.specs.Prelude.{◌≡◌};
    ghost use Rattle.bus_automaton.specs.Buses.{process_with};
    ghost use Rattle.bus_pageslot.specs.Steps.{Meets};
    ghost use Rattle.bus_tenure.specs.Core.{length_at};

    ghost then = { λ step m got m'. (step.word ≡ length_at)
        × Meets (process_with Q.kind_of Q.op Q.fed Q.protocol) m got m' };
}
