//! What a listener counts, and what no fork does: each function does nothing, and its contract is
//! the law.

ghost use Rattle.std.specs.Prelude.{◌≡◌, ℕ, ◌<◌, ◌==◌, List, length, slice_index};
ghost use Rattle.std.specs.Prelude.{count_by, slice_get, Some};
ghost use Rattle.bus_register.specs.declared.limits.TheConstants.{MOST_SENDERS};
ghost use Rattle.bus_deliverylog.specs.declared.receiving.RecvTurn.{RecvTurn};
ghost use Rattle.bus_automaton.specs.Processes.{TableLayout};
ghost use Rattle.bus_core.specs.Senders.{Sender};
ghost use Rattle.bus_pageslot.specs.ReceiverViews.{ReceiverView};
ghost use Rattle.bus_receiver.specs.Forking.{ForksRefuse};
ghost use Rattle.bus_receiver.specs.Hearing.{nothing_after};
ghost use Rattle.bus_receiver.specs.HearingRuns.{hearing_after_all, items_taken};
ghost use Rattle.bus_receiver.specs.HearingRuns.{takes_leave};
ghost use Rattle.bus_tenure.specs.Elections.{Elector};

use bus_adoptcommit::Ratifier;

/// Of any answers in a row a listener counts just those items that it takes, for each sender and in
/// all, whatever numbers it began with. It notes that a sender has left just where it takes the
/// leave mark of that sender.
pub fn counts_what_it_takes()
    ensures each { (bases : List ℕ) (turns : List RecvTurn) (s : ℕ) → s < MOST_SENDERS
        → slice_index (hearing_after_all (nothing_after bases) turns).counts s
        ≡ count_by (λ item. item.sender.0 == s) (items_taken (nothing_after bases) turns) }
    ensures all { (bases : List ℕ) (turns : List RecvTurn)
        → (hearing_after_all (nothing_after bases) turns).items
        ≡ length (items_taken (nothing_after bases) turns) }
    ensures left { (bases : List ℕ) (turns : List RecvTurn) (s : ℕ) → s < MOST_SENDERS
        → slice_get (hearing_after_all (nothing_after bases) turns).left s
        ≡ Some (takes_leave s (nothing_after bases) turns) }
{}

/// Of a ring no fork passes over the number above a receiver's own, or tries another one once it
/// has found that free. And none is answered None whose first step found that number free, nor one
/// without a step where the ring has that number, or with one step where it has two.
pub fn forks_refuse<Q: Ratifier>()
    ensures { (x : TableLayout) (e : ReceiverView) → 0 < x.passers
        → ForksRefuse (Sender (Elector Q)) x e }
{}
