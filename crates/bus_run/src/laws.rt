//! What is no audit that was passed and no run that ended well, as contracts of functions without a
//! body.

ghost use Rattle.std.specs.Prelude.{ℕ, List};
ghost use Rattle.bus_register.specs.declared.registers.SenderNo.{SenderNo};
ghost use Rattle.bus_batch.specs.Frames.{Order, Spells};
ghost use Rattle.bus_pageslot.specs.Outcomes.{Outcome};
ghost use Rattle.bus_pageslot.specs.Seats.{SenderSeat};
ghost use Rattle.bus_receiver.specs.Hearing.{Hearing};
ghost use Rattle.bus_automaton.specs.ThreeWordBuses.{Held};
ghost use Rattle.bus_run.specs.Refused.{AuditRefuses, RunRefuses, SenderRefuses, TellingRefuses};
ghost use Rattle.bus_world.specs.declared.shapes.Shape.{Shape};

/// No audit is passed by a note with an item too few or too many, or without the end, nor by an
/// order that a sender has left; and none blames a receiver that noted the end.
pub fn audits_refuse()
    ensures { (left : Outcome) (order : Order) (owners : List (ℕ × SenderNo)) (h : Hearing)
        → Spells left.senders left.log order owners → AuditRefuses left order h }
{}

/// No run ends well that sent nothing where messages were asked for, one message too few, or a zero
/// in place of the number that was due; whose order has not ended; or of which a receiver was given
/// an item less.
pub fn runs_refuse()
    ensures { (shape : Shape) (messages : ℕ) (left : Outcome) → RunRefuses shape messages left }
{}

/// No sender has sent all that put nothing where messages were asked for, put a zero twice, or has
/// a message that waits; and such a one does not close. None has told a message by a log of no
/// words, or as a sender that the bus does not have.
pub fn senders_refuse()
    ensures sending { (s : SenderSeat Held) → SenderRefuses s }
    ensures telling { (senders s many : ℕ) → TellingRefuses senders s many }
{}
