//! What holds of every bus, between any two steps.

ghost use Rattle.std.specs.Prelude.{◌≡◌, ◌≢◌, ◌⊎◌, ℕ, ◌*◌, ◌<◌, ◌≤◌, Option, List, []};
ghost use Rattle.std.specs.Prelude.{◌∷◌, ◌++◌, ◌+◌, drop, false, length, slice_index, Some};
ghost use Rattle.std.specs.Prelude.{IsSomeAnd, take};
ghost use mathlib.Core.Option.{some};
ghost use lib.ListN.{get_elem?};
ghost use Rattle.bus_batch.specs.Frames.{IsLog};
ghost use Rattle.bus_register.specs.Words.{register};
ghost use Rattle.bus_register.specs.declared.limits.TheConstants.{PASSED_ALL};
ghost use Rattle.bus_register.specs.declared.registers.Op.{Op};
ghost use Rattle.bus_register.specs.declared.registers.Op.TheVariants.{Load, Store};
ghost use Rattle.bus_register.specs.declared.registers.SenderNo.{SenderNo};
ghost use Rattle.atomic_table.specs.Seated.{TableId};
ghost use Rattle.atomic_table.specs.Table.{State};
ghost use Rattle.bus_core.specs.Senders.{Sender};
ghost use Rattle.bus_core.specs.Table.{line_now};
ghost use Rattle.bus_core.specs.Telling.{FeedTells};
ghost use Rattle.bus_deliverylog.specs.declared.receiving.RecvTurn.{RecvTurn};
ghost use Rattle.bus_core.specs.Reusing.Participants.{sizes_with};
ghost use Rattle.bus_machine.specs.Machine.{words_of_frame};
ghost use Rattle.bus_ownerbits.specs.Sizes.{election_bound};
ghost use Rattle.bus_presence.specs.Reclamation.{presence_at};
ghost use Rattle.bus_tenure.specs.Core.{Layout, length_at};
ghost use Rattle.bus_tenure.specs.Elections.{Elector, election_of};
ghost use Rattle.bus_tenure.specs.declared.pages.Page.{Page};
ghost use Rattle.bus_tenure.specs.declared.turns.Turn.{Turn};
ghost use Rattle.bus_tenure.specs.declared.turns.Turn.TheVariants.{Behind, Closed, Spent};
ghost use Rattle.bus_world.specs.Headline.{Action, IsPrefix};
ghost use Rattle.bus_world.specs.Turning.{words_after};
ghost use Rattle.bus_automaton.specs.Buses.{process_by, automaton_by, layout_by, plan_after};
ghost use Rattle.bus_automaton.specs.Lawful.{floor_in};
ghost use Rattle.bus_automaton.specs.Processes.{TableLayout, base_in, log_in, passed_word};
ghost use Rattle.bus_automaton.specs.SenderTrails.{SenderTrail, with_sender_trail};
ghost use Rattle.bus_automaton.specs.declared.plans.Plan.{Plan};
ghost use Rattle.bus_pageslot.specs.Notes.{Notes};
ghost use Rattle.bus_pageslot.specs.ReceiverViews.{ReceiverView, receiver_view_after_load};
ghost use Rattle.bus_pageslot.specs.ReceiverViews.{left_for_good, passed_on};
ghost use Rattle.bus_pageslot.specs.Rings.{HasSeat, LeavesAll, RingShows, ShowsReceiver};
ghost use Rattle.bus_pageslot.specs.Rings.{StoresApart};
ghost use Rattle.bus_pageslot.specs.declared.rule.View.{View};
ghost use Rattle.bus_pageslot.specs.declared.rule.View.TheVariants as view;
ghost use Rattle.bus_pageslot.specs.Alike.{AreAlike, AlikeRefuses};
ghost use Rattle.bus_pageslot.specs.Buses.{IsNewSeat};
ghost use Rattle.bus_pageslot.specs.Carried.{WereAnswered};
ghost use Rattle.bus_pageslot.specs.Histories.{HasHistory, LeavesLog, LeavesRule, Shown};
ghost use Rattle.bus_pageslot.specs.Listening.{Hears, PassIsDue, due_load};
ghost use Rattle.bus_pageslot.specs.Looks.{FitsBy};
ghost use Rattle.bus_pageslot.specs.Promised.{IsPromised};
ghost use Rattle.bus_pageslot.specs.Rule.{Sat, TableInvariant, slot_of, receiver_view_in};
ghost use Rattle.bus_pageslot.specs.SafeSeats.{AreSafe, LeavesPast};
ghost use Rattle.bus_pageslot.specs.Seats.{SenderSeat, TookAndTold, sender_trail_of, actions_of};
ghost use Rattle.bus_pageslot.specs.Sendings.{Carries, waiting_of};
ghost use Rattle.bus_pageslot.specs.Stages.{TakesPageOf};
ghost use Rattle.bus_pageslot.specs.Steps.{Accepts, IsDue, Learns, all_in, puts_from};
ghost use Rattle.bus_pageslot.specs.StepsShown.{steps_in, steps_shown};
ghost use Rattle.bus_pageslot.specs.Truths.{IsTrueAnswer};
ghost use Rattle.bus_pageslot.specs.Turns.{Turned, tells_by};

use bus_adoptcommit::Ratifier;
use bus_automaton::laws::threads_may_go_by;
use bus_machine::laws::{events_keep_promise, machine_keeps_promise, steps_are_bounded};
use bus_ownerbits::laws::election_is_lawful;

/// Whenever the rule of the table holds, which is between any two steps of any threads, the page
/// of promises holds of what the seats show: of the actions of senders and of what receivers were
/// answered, however these are numbered, with the order and the owners that all that was published
/// spells. What a receiver knows is a beginning of that.
pub fn seats_keep_promises<Q: Ratifier>()
    ensures { let P = process_by Q.Ratifier in let A = automaton_by Q.Ratifier in
        (plan : Plan) (s : State (Option Page) (View (Sender (Elector Q))))
        (r : TableInvariant P (A plan) s)
        → IsPromised P (A plan).table_layout (base_in (A plan)) (log_in (A plan) r.state) s }
{
    threads_may_go_by::<Q>();
}

/// Between any two steps each receiver that a seat shows was answered just what the words say that
/// stand before its place, of all that was published. So of any two who has read less was answered
/// a beginning of what the other was answered, and from a fork on its maker and the new one were
/// answered the same, as far as both have read. None is so that has read no word, and was given
/// an item or a leave mark; nor are two that have read as many words, and were given two orders.
pub fn receivers_agree<Q: Ratifier>()
    ensures agree { let P = process_by Q.Ratifier in let A = automaton_by Q.Ratifier in
        (plan : Plan) (s : State (Option Page) (View (Sender (Elector Q))))
        (r : TableInvariant P (A plan) s)
        → AreAlike (A plan).table_layout (log_in (A plan) r.state) s }
    ensures refuses { (x : TableLayout) (log : List ℕ)
        (s : State (Option Page) (View (Sender (Elector Q)))) → AlikeRefuses x log s }
{
    threads_may_go_by::<Q>();
}

/// Two pages of one table have the same actions of each sender, which its seat shows. What was
/// published is as long in both, and from the floor on it is the same. Where it is the same
/// altogether, so are the order and the owners: as where no word of the log is used again, or where
/// a receiver shows that knows the log as far as the floor. What stays open is a ring of which no
/// receiver that knows so far shows, as it may be once all have left.
pub fn seats_show_one_page<Q: Ratifier>()
    ensures actions { let P = process_by Q.Ratifier in
        (x : TableLayout) (base : ℕ → ℕ) (log other : List ℕ)
        (s : State (Option Page) (View (Sender (Elector Q))))
        (h : IsPromised P x base log s) (k : IsPromised P x base other s)
        → (p : ℕ) → h.actions p ≡ k.actions p }
    ensures logs { let P = process_by Q.Ratifier in
        (x : TableLayout) (base : ℕ → ℕ) (log other : List ℕ)
        (s : State (Option Page) (View (Sender (Elector Q))))
        → IsPromised P x base log s → IsPromised P x base other s
        → (length log ≡ length other)
        × (drop (floor_in x s.words) log ≡ drop (floor_in x s.words) other) }
    ensures order { let P = process_by Q.Ratifier in
        (x : TableLayout) (base : ℕ → ℕ) (log other : List ℕ)
        (s : State (Option Page) (View (Sender (Elector Q))))
        (h : IsPromised P x base log s) (k : IsPromised P x base other s)
        → (x.passers ≡ 0) ⊎ ((log ≡ other) ⊎ ((j : ℕ) × (v : View (Sender (Elector Q)))
        × (e : ReceiverView) × (get_elem? s.views j ≡ some v) × ShowsReceiver e v
        × (floor_in x s.words ≤ length e.known)))
        → (h.order ≡ k.order) × (h.owners ≡ k.owners) }
{}

/// Each sender shows in some seat: a table with the seat of sender 0 alone, of two or more, is no
/// bus, and no page holds of it. And none in which nothing was published holds of a table whose
/// length is above 0.
pub fn no_page_without_each_sender<Q: Ratifier>()
    ensures shown { let P = process_by Q.Ratifier in let A = automaton_by Q.Ratifier in
        (plan : Plan) (s : State (Option Page) (View (Sender (Elector Q))))
        (v : Sender (Elector Q)) (sender_trail : SenderTrail) (notes : Notes)
        → 1 < (A plan).table_layout.senders
        → P.me v ≡ 0 → s.views ≡ view.Sender v sender_trail notes ∷ []
        → ¬ TableInvariant P (A plan) s }
    ensures promised { let P = process_by Q.Ratifier in
        (x : TableLayout) (base : ℕ → ℕ) (log : List ℕ)
        (s : State (Option Page) (View (Sender (Elector Q))))
        (v : Sender (Elector Q)) (sender_trail : SenderTrail) (notes : Notes) → 1 < x.senders
        → P.me v ≡ 0 → s.views ≡ view.Sender v sender_trail notes ∷ []
        → ¬ IsPromised P x base log s }
    ensures empty { let P = process_by Q.Ratifier in
        (x : TableLayout) (base : ℕ → ℕ) (s : State (Option Page) (View (Sender (Elector Q))))
        → 0 < slice_index s.words 0 → ¬ IsPromised P x base [] s }
{}

/// Of a ring, between any two steps, no word is lost that a receiver has not passed. The passed
/// place of each receiver shows what that has passed, or that it has left, unless another one has
/// taken its number since then. What one that has not left has passed are whole frames that it has
/// read. From there on each word that was published stands in its cell. And each receiver shows in
/// some seat, or the maker of seats has yet to make it one.
pub fn rings_are_safe<Q: Ratifier>()
    ensures receiver { let P = process_by Q.Ratifier in let A = automaton_by Q.Ratifier in
        (plan : Plan) (s : State (Option Page) (View (Sender (Elector Q)))) (seat : ℕ)
        (v : View (Sender (Elector Q))) (e : ReceiverView) (r : TableInvariant P (A plan) s)
        → get_elem? s.views seat ≡ some v → ShowsReceiver e v
        → 0 < (A plan).table_layout.passers
        → RingShows (A plan).table_layout s.words (log_in (A plan) r.state) s.views e }
    ensures all { let P = process_by Q.Ratifier in let A = automaton_by Q.Ratifier in
        (plan : Plan) (s : State (Option Page) (View (Sender (Elector Q)))) (me : ℕ)
        → TableInvariant P (A plan) s → me < (A plan).table_layout.passers
        → (seat : ℕ) × (v : View (Sender (Elector Q))) × (get_elem? s.views seat ≡ some v)
        × HasSeat me v }
{
    threads_may_go_by::<Q>();
}

/// A store in a receiver's passed place leaves the length, the stage and each cell of a ring. Where
/// a receiver that has not heard the end has read whole frames and stores its place, or where it
/// leaves for good, the rule holds after it, with the same page and with all that was published
/// until then.
pub fn receivers_store_apart<Q: Ratifier>()
    ensures apart { let A = automaton_by Q.Ratifier in
        (plan : Plan) (s : State (Option Page) (View (Sender (Elector Q)))) (seat : ℕ)
        (v : View (Sender (Elector Q))) (e : ReceiverView) (number : ℕ)
        → TableInvariant (process_by Q.Ratifier) (A plan) s → get_elem? s.views seat ≡ some v
        → ShowsReceiver e v → 0 < (A plan).table_layout.passers
        → StoresApart (A plan).table_layout s.words e.me number }
    ensures passes { let P = process_by Q.Ratifier in let A = automaton_by Q.Ratifier in
        (plan : Plan) (s : State (Option Page) (View (Sender (Elector Q)))) (seat : ℕ)
        (x : TableLayout) (e : ReceiverView) (r : TableInvariant P (A plan) s)
        → get_elem? s.views seat ≡ some (view.Tap x e) → e.gone ≡ false → 0 < x.passers
        → e.ended ≡ false → IsLog x.senders (take e.place e.known)
        → LeavesAll P (A plan) s r seat (passed_word x e.me) e.place
        (view.Tap x (passed_on e (passed_word x e.me))) }
    ensures leaves { let P = process_by Q.Ratifier in let A = automaton_by Q.Ratifier in
        (plan : Plan) (s : State (Option Page) (View (Sender (Elector Q)))) (seat : ℕ)
        (x : TableLayout) (e : ReceiverView) (r : TableInvariant P (A plan) s)
        → get_elem? s.views seat ≡ some (view.Tap x e) → e.gone ≡ false → 0 < x.passers
        → LeavesAll P (A plan) s r seat (passed_word x e.me) PASSED_ALL
        (view.Tap x (left_for_good e (passed_word x e.me))) }
{
    threads_may_go_by::<Q>();
}

/// With a sender's step all that was published begins with all that was before it, whatever the
/// step is for; and no sender stores a smaller length. The rule holds of the table after such a
/// step, with what was published by then. What a receiver's stores leave of it is in
/// `receivers_store_apart`. What its loads leave, and seats that are made, joined or cut apart, is
/// in `receiving_laws`, which has any number of all these steps too (`what_was_published_stays`).
pub fn steps_only_extend_the_log<Q: Ratifier>()
    ensures extends { let P = process_by Q.Ratifier in let A = automaton_by Q.Ratifier in
        (plan : Plan) (s : State (Option Page) (View (Sender (Elector Q)))) (seat : ℕ)
        (m : Sat (Sender (Elector Q))) (d : Sender (Elector Q)) (word many : ℕ) (o : Op)
        (r : TableInvariant P (A plan) s) → get_elem? s.views seat ≡ some m.0
        → IsDue P d word m many o
        → LeavesLog (A plan) (words_after s.words (Some o)) (IsPrefix (log_in (A plan) r.state)) }
    ensures rule { let P = process_by Q.Ratifier in let A = automaton_by Q.Ratifier in
        (plan : Plan) (s : State (Option Page) (View (Sender (Elector Q)))) (seat : ℕ)
        (m : Sat (Sender (Elector Q))) (d : Sender (Elector Q)) (word many : ℕ) (o : Op)
        (r : TableInvariant P (A plan) s) → get_elem? s.views seat ≡ some m.0
        → IsDue P d word m many o
        → LeavesRule P (A plan) s seat m d word o (IsPrefix (log_in (A plan) r.state)) }
    ensures refused { let P = process_by Q.Ratifier in let A = automaton_by Q.Ratifier in
        (plan : Plan) (s : State (Option Page) (View (Sender (Elector Q)))) (seat : ℕ)
        (m : Sat (Sender (Elector Q))) (d : Sender (Elector Q)) (word many n : ℕ)
        → TableInvariant P (A plan) s → get_elem? s.views seat ≡ some m.0
        → n < slice_index s.words 0
        → ¬ IsDue P d word m many (Store (record { 0 = 0 }) n) }
{
    threads_may_go_by::<Q>();
}

/// Behind each table, of either kind of rows, stands a machine with its words and its page, and the
/// seats show what led to it. So the machine's promise holds of that: each tenure has at most one
/// owner, who announced for it; what was published is a log of what was put; and a row
/// that is used again is cleared while nobody stands in a tenure of it. Whoever remembers to whom
/// it lost its tenure has seen the election of that tenure end with this sender, and is not this
/// sender. No sender takes more steps towards the page of a tenure than an election has turns, or,
/// where rows are used again, more than three of its pin.
pub fn tables_are_machines<Q: Ratifier>()
    ensures { let X = election_of Q.Ratifier in
        (plan : Plan) (s : State (Option Page) (View (Sender (Elector Q))))
        → TableInvariant (process_by Q.Ratifier) (automaton_by Q.Ratifier plan) s
        → HasHistory X (layout_by Q.protocol plan) plan.reuse plan.bases
        (election_bound Q.protocol.steps) s }
{
    machine_keeps_promise::<Q>();
    steps_are_bounded::<Q>();
    threads_may_go_by::<Q>();
}

/// Whichever seat shows a sender, alone or joined to a receiver's, the sender has the layout of the
/// table that the seat is of, also once it has accepted more. So what a sender tells by its own,
/// as how many words its log has and how many senders its bus has, is so of that table. Its batch
/// has at most as many messages as the bus's shape says.
pub fn senders_go_by_their_table<Q: Ratifier>()
    ensures layout { let P = process_by Q.Ratifier in let A = automaton_by Q.Ratifier in
        (plan : Plan) (s : State (Option Page) (View (Sender (Elector Q)))) (seat : ℕ)
        (v d : Sender (Elector Q)) (sender_trail : SenderTrail) (actions : List Action)
        → TableInvariant P (A plan) s → Shown s seat v sender_trail → Accepts P v d actions
        → P.table_layout d ≡ (A plan).table_layout }
    ensures limit { let P = process_by Q.Ratifier in let A = automaton_by Q.Ratifier in
        (plan : Plan) (s : State (Option Page) (View (Sender (Elector Q)))) (seat : ℕ)
        (v d : Sender (Elector Q)) (sender_trail : SenderTrail) (actions : List Action)
        → TableInvariant P (A plan) s → Shown s seat v sender_trail → Accepts P v d actions
        → (P.queue d).limit ≡ plan.shape.batch }
{
    threads_may_go_by::<Q>();
}

/// The words of the log that stand fit it: the length is no further behind the floor than the log
/// has words. So who copies them from the floor up to the length copies each cell once at most.
pub fn what_stands_fits<Q: Ratifier>()
    ensures { let P = process_by Q.Ratifier in let A = automaton_by Q.Ratifier in
        (plan : Plan) (s : State (Option Page) (View (Sender (Elector Q))))
        → TableInvariant P (A plan) s → let x = (A plan).table_layout in
        slice_index s.words 0 ≤ x.capacity + floor_in x s.words }
{
    election_is_lawful::<Q>();
}

/// What the numbers of a look whether there is room say for longer than the look. By them a frame
/// that is no longer than the log does not fit. Then it does not fit by other numbers either, of
/// which the length is no less and the place that was least is the same: as those of the table on
/// which that place was loaded. Of a log that is no ring it does not fit by any greater length. A
/// frame that fits by them fits while the length is the same and no passed place has less.
pub fn a_no_was_right()
    ensures ring { (x : TableLayout) (found now : ℕ → ℕ) (many me : ℕ)
        → found length_at ≤ now length_at → many ≤ x.capacity → me < x.passers
        → ((q : ℕ) → q < x.passers → found (passed_word x me) ≤ found (passed_word x q))
        → found (passed_word x me) ≡ now (passed_word x me)
        → ¬ FitsBy x found many → ¬ FitsBy x now many }
    ensures flat { (x : TableLayout) (found now : ℕ → ℕ) (many : ℕ)
        → found length_at ≤ now length_at → x.passers ≡ 0
        → ¬ FitsBy x found many → ¬ FitsBy x now many }
    ensures yes { (x : TableLayout) (found now : ℕ → ℕ) (many : ℕ)
        → now length_at ≡ found length_at
        → ((q : ℕ) → q < x.passers → found (passed_word x q) ≤ now (passed_word x q))
        → FitsBy x found many → FitsBy x now many }
{}

/// What was published grows with no step of a sender but the one that stores the length, and with
/// that by the frame of this sender and no other word.
pub fn the_log_grows_by_frames<Q: Ratifier>()
    ensures { let X = election_of Q.Ratifier in let P = process_by Q.Ratifier in
        let A = automaton_by Q.Ratifier in
        (plan : Plan) (s : State (Option Page) (View (Sender (Elector Q)))) (seat : ℕ)
        (m : Sat (Sender (Elector Q))) (d : Sender (Elector Q)) (word many : ℕ) (o : Op)
        (r : TableInvariant P (A plan) s) → get_elem? s.views seat ≡ some m.0
        → IsDue P d word m many o
        → LeavesLog (A plan) (words_after s.words (Some o))
        (λ log. log ≡ log_in (A plan) r.state ++ words_of_frame (line_now X d).publishes) }
{
    threads_may_go_by::<Q>();
    events_keep_promise::<Q>();
}

/// While a tenure is open the stage is twice its number, and but one step of a sender leaves that:
/// the one that takes the page, by the sender that the tenure's election chose. No step of a
/// receiver changes the stage.
pub fn only_owners_leave_the_stage<Q: Ratifier>()
    ensures { let X = election_of Q.Ratifier in let P = process_by Q.Ratifier in
        (plan : Plan) (s : State (Option Page) (View (Sender (Elector Q)))) (seat : ℕ)
        (m : Sat (Sender (Elector Q))) (d : Sender (Elector Q)) (word many t : ℕ) (o : Op)
        → TableInvariant P (automaton_by Q.Ratifier plan) s → get_elem? s.views seat ≡ some m.0
        → IsDue P d word m many o → slice_index s.words 1 ≡ 2 * t
        → slice_index (words_after s.words (Some o)) 1 ≢ 2 * t → TakesPageOf X d t o }
{
    election_is_lawful::<Q>();
    threads_may_go_by::<Q>();
    events_keep_promise::<Q>();
}

/// Whatever a step of a sender answers is so of all that happened until then, with this step. Lost
/// names the owner with which the sender saw that election end, and which is another sender. Own is
/// of a tenure whose election chose the sender, and whose page it took. What is Delivered stands in
/// the order, with these numbers, and is its last frame. Where a sender has Left, the last frame of
/// the order is its leave mark. It is Full where the sender's frame does not fit behind the log,
/// counted from the floor of the page that it holds. Behind is answered only where rows of words
/// are used again.
pub fn answers_are_true<Q: Ratifier>()
    ensures { let P = process_by Q.Ratifier in
        (plan : Plan) (s : State (Option Page) (View (Sender (Elector Q)))) (seat : ℕ)
        (m : Sat (Sender (Elector Q))) (d : Sender (Elector Q)) (word many : ℕ) (o : Op)
        (r : TableInvariant P (automaton_by Q.Ratifier plan) s)
        → get_elem? s.views seat ≡ some m.0
        → IsDue P d word m many o → let got = slice_index s.words (register o) in
        IsTrueAnswer (layout_by Q.protocol plan) plan.reuse r d
        (with_sender_trail (all_in P m.0 d) (P.adds d got word)).actions (P.answer d got word) }
{
    threads_may_go_by::<Q>();
    events_keep_promise::<Q>();
}

/// Where rows of words are used again the seats show that this is safe: by the steps of its pins
/// that its seat shows, whose election runs stands in its tenure, whose row has not gone on; and
/// once all presences have passed that a holder scans, nobody stands in a tenure of the next row.
pub fn rows_used_again_are_safe<Q: Ratifier>()
    ensures { (plan : Plan) (rows : ℕ) (s : State (Option Page) (View (Sender (Elector Q))))
        → plan.reuse ≡ Some rows
        → TableInvariant (process_by Q.Ratifier) (automaton_by Q.Ratifier plan) s
        → AreSafe (sizes_with (layout_by Q.protocol plan) rows) s }
{
    tables_are_machines::<Q>();
}

/// No step of a sender lowers the stage; and where rows of words are used again, none is an action
/// in a tenure whose row has gone on to a later one: so who announced itself there, whom its
/// election chose and who took its page stays as it is. No step of a receiver changes the stage.
pub fn past_tenures_are_left<Q: Ratifier>()
    ensures { let P = process_by Q.Ratifier in
        (plan : Plan) (s : State (Option Page) (View (Sender (Elector Q)))) (seat : ℕ)
        (m : Sat (Sender (Elector Q))) (d : Sender (Elector Q)) (word many : ℕ) (o : Op)
        → TableInvariant P (automaton_by Q.Ratifier plan) s → get_elem? s.views seat ≡ some m.0
        → IsDue P d word m many o → LeavesPast P plan.reuse s.words d word o }
{
    threads_may_go_by::<Q>();
    events_keep_promise::<Q>();
}

/// A sender that answers Behind is one of a bus whose rows are used again: it has loaded the
/// presence of the sender for which it waits, and has found in it the tenure that it names. Its
/// seat shows that load behind the steps of its reclamations before it.
pub fn behind_shows_its_load<Q: Ratifier>()
    ensures { let X = election_of Q.Ratifier in let P = process_by Q.Ratifier in
        (old new : SenderSeat (Sender (Elector Q))) (word t : ℕ) (p : SenderNo)
        → TookAndTold P (FeedTells X) old word (Behind t p) new
        → IsSomeAnd old.core.reuse (λ r. (sender_trail_of P new).reclaims
        ≡ (sender_trail_of P old).reclaims ++ record {
          op = Load (record { 0 = presence_at (sizes_with old.core.core.layout r.rows) p.0 });
          got = 1 + t;
        } ∷ []) }
{}

/// No turn of a receiver, but after the end, leaves its seat as it was: so none answers without a
/// step on the table. Nor is a receiver told a length, or met, without one, or by a load of another
/// word than the length.
pub fn no_turn_without_a_load<Q: Ratifier>()
    ensures turns { (x : TableLayout) (e : ReceiverView) (answer : RecvTurn) → e.ended ≡ false
        → e.place ≤ length e.known
        → ¬ Hears {C = Sender (Elector Q)} (view.Tap x e, []) answer (view.Tap x e, []) }
    ensures told { (x : TableLayout) (e : ReceiverView) (got : ℕ)
        → ¬ Learns {C = Sender (Elector Q)} (view.Tap x e, []) got (view.Tap x e, []) }
    ensures elsewhere { (x : TableLayout) (e : ReceiverView) (got word : ℕ) → word ≢ length_at
        → ¬ Learns {C = Sender (Elector Q)} (view.Tap x e, []) got
        (view.Tap x (receiver_view_after_load e word), []) }
{}

/// A turn takes at most one step. Of a sender of which one is due the seat shows one step more
/// afterwards, and else the sender is as it was. Of a receiver the seat shows one step more. It is
/// on its passed place where it has read a whole frame that it has not passed; else a load of the
/// length where it has read all that it knows; and else of the word at its place. After the end it
/// is as it was.
pub fn turns_take_one_step<Q: Ratifier>()
    ensures sender { let P = process_by Q.Ratifier in
        (old new : SenderSeat (Sender (Elector Q))) (word : ℕ) (answer : Turn) (o : Op)
        → P.op old.core word ≡ Some o → Turned P (tells_by Q.Ratifier) old word answer new
        → steps_in (sender_trail_of P new) ≡ steps_in (sender_trail_of P old) + 1 }
    ensures receiver { (x : TableLayout) (e : ReceiverView) (answer : RecvTurn)
        (m : Sat (Sender (Elector Q))) → e.ended ≡ false → e.place ≤ length e.known
        → Hears (view.Tap x e, []) answer m → steps_shown m.0 ≡ length e.loads + 1 }
    ensures passes { (x : TableLayout) (e : ReceiverView) (answer : RecvTurn)
        (m : Sat (Sender (Elector Q))) → e.ended ≡ false → PassIsDue x e
        → Hears (view.Tap x e, []) answer m
        → (receiver_view_in m.0).loads ≡ e.loads ++ passed_word x e.me ∷ [] }
    ensures loads { (x : TableLayout) (e : ReceiverView) (answer : RecvTurn)
        (m : Sat (Sender (Elector Q))) → e.ended ≡ false → ¬ PassIsDue x e
        → e.place ≤ length e.known → Hears (view.Tap x e, []) answer m
        → (receiver_view_in m.0).loads ≡ e.loads ++ due_load x e ∷ [] }
{
    threads_may_go_by::<Q>();
}

/// While the page is at home it says of each sender what the first message in its batch was
/// answered, also where that has accepted more since its last step; and those that wait behind it
/// were answered the next numbers, one by one. A sitting that goes on after a page begins with its
/// numbers. So messages that are carried there, before any other is put, get the numbers that they
/// were answered before.
pub fn carried_messages_keep_their_numbers<Q: Ratifier>()
    ensures waited { let P = process_by Q.Ratifier in
        (plan : Plan) (s : State (Option Page) (View (Sender (Elector Q)))) (seat : ℕ)
        (v d : Sender (Elector Q)) (sender_trail : SenderTrail) (actions : List Action)
        (page : Page) → TableInvariant P (automaton_by Q.Ratifier plan) s
        → Shown s seat v sender_trail → s.homes ≡ slot_of (Some page) ∷ [] → Accepts P v d actions
        → (slice_index page.next (P.me d) ≡ (P.queue d).first)
        × WereAnswered (sender_trail.actions ++ actions) (P.queue d).first (P.queue d).messages }
    ensures carried { let P = process_by Q.Ratifier in
        (plan : Plan) (page : Page) (table : TableId) (p : ℕ)
        (from old new : SenderSeat (Sender (Elector Q)))
        → IsNewSeat P (automaton_by Q.Ratifier (plan_after plan (Some page))) table p old
        → Carries P from old new
        → actions_of P new ≡ puts_from (slice_index page.next p) (waiting_of P from) }
{
    threads_may_go_by::<Q>();
    tables_are_machines::<Q>();
}

/// What a sender answers without a step is so of all that happened until then, with what it has
/// accepted since its last step. It is Closed only where the order has ended, or where its batch
/// is closed and it has left in the order. It is Spent only where no tenure is left to it: all have
/// ended, or the last was opened and it saw that election end with another owner. Where a step is
/// due `rest` is Going, of which nothing is said. Refused are Closed while the length is 0, and
/// Spent while the last tenure is not opened.
pub fn rests_are_true<Q: Ratifier>()
    ensures rests { let P = process_by Q.Ratifier in
        (plan : Plan) (s : State (Option Page) (View (Sender (Elector Q)))) (seat : ℕ)
        (v d : Sender (Elector Q)) (sender_trail : SenderTrail) (actions : List Action)
        (r : TableInvariant P (automaton_by Q.Ratifier plan) s) → Shown s seat v sender_trail
        → Accepts P v d actions
        → IsTrueAnswer (layout_by Q.protocol plan) plan.reuse r d
        (sender_trail.actions ++ actions) (P.rest d) }
    ensures refused { let P = process_by Q.Ratifier in
        (sizes : Layout) (reuse : Option ℕ) (plan : Plan)
        (s : State (Option Page) (View (Sender (Elector Q)))) (d : Sender (Elector Q))
        (actions : List Action) (r : TableInvariant P (automaton_by Q.Ratifier plan) s)
        → (slice_index s.words 0 ≡ 0 → ¬ IsTrueAnswer sizes reuse r d actions Closed)
        × (slice_index s.words 1 + 2 < 2 * sizes.rows
        → ¬ IsTrueAnswer sizes reuse r d actions Spent) }
{
    threads_may_go_by::<Q>();
    events_keep_promise::<Q>();
}
