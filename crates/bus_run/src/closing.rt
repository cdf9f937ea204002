//! What a run leaves behind, once all its workers have ended.

ghost use Rattle.std.specs.Prelude.{◌≡◌, ◌≢◌, ◌≤◌, ◌<◌, ◌⊎◌, ℕ, All};
ghost use Rattle.std.specs.Prelude.{length, map, vec_len, slice_get, Some};
ghost use Rattle.std.specs.Prelude.{None, IfOk, OnOk, IfErr, IfSome, true, false};
ghost use Rattle.std.specs.Vec.{vec_capacity};
ghost use Rattle.bus_run.specs.Audit.{OfOrder, IsSpelled, SendsEach, IsClosed, IsSummed};
ghost use Rattle.bus_run.specs.Reports.{IsRunReport};
ghost use Rattle.bus_run.specs.Left.{run_plan, IsLeftBy, IsEndedBy, IsToldByAll};
ghost use Rattle.bus_run.specs.Left.{Shown, HasLearnt, number_of, senders_of};
ghost use Rattle.bus_run.specs.Told.{HasTold};
ghost use Rattle.bus_automaton.specs.Buses.{plan_passers};
ghost use Rattle.bus_pageslot.specs.Rule.{known_in};
ghost use Rattle.bus_receiver.specs.Listening.{bus_of};
ghost use Rattle.bus_world.specs.Headline.{IsPrefix};
ghost use Rattle.bus_run.specs.Stops.{IsWhole, AreInOrder, AreUnstopped, IsFirstStop, has_gate};
ghost use Rattle.bus_run.specs.Stops.{HasSent, IsFirstUnsent, IsLate, IsOpen};
ghost use Rattle.bus_run.specs.Stops.{LeavesNoPage, LeavesOrder};
ghost use Rattle.bus_deliverylog.specs.Orders.{of_sender};
ghost use Rattle.bus_run.specs.declared.faults.RunFault.TheVariants.{Stopped as stopped};

use crate::audits::audit;
use crate::buses::{Receiver, TheBus};
use crate::faults::{RunFault, SenderFault};
use crate::reports::Report;
use crate::spawning::Workers;
use crate::workers::{ReceiveWorker, SendWorker};
use bus_pageslot::{Ended, OfBus};
use bus_receiver::Heard;
use bus_register::SenderNo;
use bus_register::limits::MOST_SENDERS;
use bus_world::Shape;

/// Ends the bus that the workers have closed, unless a worker failed, and holds what it left behind
/// against what each sender was to send and each receiver noted. The room is for these notes.
pub fn end_and_audit<B: OfBus>(
    the: TheBus<B>,
    workers: Workers<SendWorker<B>, ReceiveWorker<B>>,
    room: Vec<Heard>,
    shape: Shape,
    messages: u64,
) -> Result<Report, RunFault>
    requires senders { shape.senders ≤ MOST_SENDERS }
    requires bus { the.bus.plan ≡ run_plan shape }
    ensures whole { OnOk result
        (IsWhole (λ send_worker. number_of send_worker.sender) shape workers.send_workers.items
        workers.receive_workers.items) }
    ensures unstopped { OnOk result
        (AreUnstopped (λ send_worker. send_worker.fault) workers.send_workers.items) }
    ensures report { IfOk result
        (λ report. IsRunReport shape messages report.ended report.heards.items) }
    ensures by { let Ends = IsToldByAll (λ send_worker. send_worker.sender) shape.senders messages
        workers.send_workers.items
        (map (λ receive_worker. receive_worker.receiver.me.0) workers.receive_workers.items) in
        IfOk result (λ report. IsEndedBy (run_plan shape) Ends report.ended) }
    ensures notes { IfOk result
        (λ report. report.heards.items
        ≡ map (λ receive_worker. receive_worker.heard) workers.receive_workers.items) }

    // Who is missing comes before what stopped a sender, and that before all else.
    ensures fault { let Whole = IsWhole (λ send_worker. number_of send_worker.sender) shape
        workers.send_workers.items workers.receive_workers.items in
        IfErr result (λ fault. ((fault ≡ RunFault.Spawn) × (Whole → ⊥))
        ⊎ (Whole × IsFirstStop (λ send_worker. send_worker.fault) workers.send_workers.items fault)
        ⊎ (Whole × AreUnstopped (λ send_worker. send_worker.fault) workers.send_workers.items
        × IsLate (λ send_worker. send_worker.sender) shape messages (vec_capacity room)
        workers.send_workers.items
        (map (λ receive_worker. receive_worker.receiver.me.0) workers.receive_workers.items)
        (map (λ receive_worker. receive_worker.heard) workers.receive_workers.items) fault)) }
{
    let Workers {
        send_workers,
        receive_workers,
        ..
    } = workers;
    if !is_whole(send_workers.as_slice(), receive_workers.as_slice(), shape) {
        return Err(RunFault::Spawn);
    }
    if let Some(fault) = first_stop(send_workers.as_slice()) {
        return Err(fault);
    }
    end_whole(the, send_workers, receive_workers, room, shape, messages)
}

/// All senders have come back, in order, and all receivers.
fn is_whole<B: OfBus>(
    send_workers: &[SendWorker<B>],
    receive_workers: &[ReceiveWorker<B>],
    shape: Shape,
) -> bool
    ensures whole { result ≡ true
        → IsWhole (λ send_worker. number_of send_worker.sender) shape send_workers.now
        receive_workers.now }
    ensures missing { result ≡ false
        → IsWhole (λ send_worker. number_of send_worker.sender) shape send_workers.now
        receive_workers.now → ⊥ }
{
    let all_send = send_workers.len() as u64 == shape.senders && !send_workers.is_empty();
    let all_hear = receive_workers.len() as u64 == shape.receivers && !receive_workers.is_empty();
    all_send && all_hear && are_in_order(send_workers)
}

/// The worker at each place is that of the sender with the number of the place.
fn are_in_order<B: OfBus>(send_workers: &[SendWorker<B>]) -> bool
    ensures order { result ≡ true
        → AreInOrder (λ send_worker. number_of send_worker.sender) send_workers.now }
    ensures other { result ≡ false
        → AreInOrder (λ send_worker. number_of send_worker.sender) send_workers.now → ⊥ }
{
    for (place, send_worker) in send_workers.iter().enumerate() {
        if send_worker.number() != place as u64 {
            return false;
        }
    }
    true
}

/// What stopped a sender: a gate before all else, and then what stopped the lowest.
fn first_stop<B: OfBus>(send_workers: &[SendWorker<B>]) -> Option<RunFault>
    ensures stop { IfSome result (IsFirstStop (λ send_worker. send_worker.fault) send_workers.now) }
    ensures none { result ≡ None
        → AreUnstopped (λ send_worker. send_worker.fault) send_workers.now }
{
    if gate_refused(send_workers) {
        return Some(RunFault::Gate);
    }
    for (place, send_worker) in send_workers.iter().enumerate() {
        if send_worker.fault.is_some() {
            return Some(RunFault::Stopped {
                sender: place as u64,
            });
        }
    }
    None
}

/// A gate let a sender's worker not through.
fn gate_refused<B: OfBus>(send_workers: &[SendWorker<B>]) -> bool
    ensures { result ≡ has_gate (λ send_worker. send_worker.fault) send_workers.now }
{
    for send_worker in send_workers {
        if matches!(send_worker.fault, Some(SenderFault::Gate)) {
            return true;
        }
    }
    false
}

/// Ends the bus of all the workers, of which no sender was stopped.
fn end_whole<B: OfBus>(
    the: TheBus<B>,
    send_workers: Vec<SendWorker<B>>,
    receive_workers: Vec<ReceiveWorker<B>>,
    room: Vec<Heard>,
    shape: Shape,
    messages: u64,
) -> Result<Report, RunFault>
    requires senders { shape.senders ≤ MOST_SENDERS }
    requires bus { the.bus.plan ≡ run_plan shape }
    requires whole { IsWhole (λ send_worker. number_of send_worker.sender) shape send_workers.items
        receive_workers.items }
    ensures report { IfOk result
        (λ report. IsRunReport shape messages report.ended report.heards.items) }
    ensures by { let Ends = IsToldByAll (λ send_worker. send_worker.sender) shape.senders messages
        send_workers.items
        (map (λ receive_worker. receive_worker.receiver.me.0) receive_workers.items) in
        IfOk result (λ report. IsEndedBy (run_plan shape) Ends report.ended) }
    ensures notes { IfOk result
        (λ report. report.heards.items
        ≡ map (λ receive_worker. receive_worker.heard) receive_workers.items) }
    ensures late { IfErr result
        (IsLate (λ send_worker. send_worker.sender) shape messages (vec_capacity room)
        send_workers.items
        (map (λ receive_worker. receive_worker.receiver.me.0) receive_workers.items)
        (map (λ receive_worker. receive_worker.heard) receive_workers.items)) }
{
    if let Some(sender) = first_unsent(send_workers.as_slice(), messages) {
        return Err(RunFault::Stopped { sender });
    }
    let (first, heards) = notes_of(receive_workers, room)?;
    let told = tell_all(&the, send_workers, first, messages);
    let ended = end_closed(the, told)?;
    all_sent(&ended, shape.senders, messages)?;
    audit(&ended, heards.as_slice())?;
    Ok(Report { ended, heards })
}

/// The lowest sender that has not put so many messages, or of which one waits.
fn first_unsent<B: OfBus>(send_workers: &[SendWorker<B>], messages: u64) -> Option<u64>
    ensures unsent { IfSome result
        (IsFirstUnsent (λ send_worker. HasSent messages send_worker.sender) send_workers.now) }
    ensures none { result ≡ None
        → All (λ send_worker. HasSent messages send_worker.sender) send_workers.now }
{
    for (place, send_worker) in send_workers.iter().enumerate() {
        if !send_worker.has_put(messages) {
            return Some(place as u64);
        }
    }
    None
}

/// The first receiver, and what each noted.
fn notes_of<B: OfBus>(
    receive_workers: Vec<ReceiveWorker<B>>,
    room: Vec<Heard>,
) -> Result<(Receiver, Vec<Heard>), RunFault>
    requires { 0 < vec_len receive_workers }
    ensures table { IfOk result (λ noted. bus_of noted.0 ≡ B.table) }
    ensures notes { IfOk result
        (λ noted. noted.1.items ≡ map (λ receive_worker. receive_worker.heard)
        receive_workers.items) }
    ensures summed { IfOk result (λ noted. All IsSummed noted.1.items) }
    ensures first { IfOk result (λ noted. slice_get
        (map (λ receive_worker. receive_worker.receiver.me.0) receive_workers.items) 0
        ≡ Some noted.0.me.0) }
    ensures room { OnOk result (length receive_workers.items ≤ vec_capacity room) }
    ensures full { IfErr result
        (λ fault. (fault ≡ RunFault.NoMemory)
        × (vec_capacity room < length receive_workers.items)) }
{
    if room.capacity() < receive_workers.len() {
        return Err(RunFault::NoMemory);
    }
    let mut heards = room;
    heards.clear();
    let mut first = None;
    for receive_worker in receive_workers {
        let ReceiveWorker {
            receiver,
            heard,
            ..
        } = receive_worker;
        heards.push_reserved(heard);
        if first.is_none() {
            first = Some(receiver);
        }
    }
    match first {
        Some(first) => Ok((first, heards)),
        None => unreachable!(),
    }
}

/// Each sender tells a receiver of the log, which then knows all that each has put.
fn tell_all<B: OfBus>(
    the: &TheBus<B>,
    send_workers: Vec<SendWorker<B>>,
    first: Receiver,
    messages: u64,
) -> Receiver
    requires table { bus_of first ≡ B.table }
    requires sent { All (λ send_worker. HasSent messages send_worker.sender) send_workers.items }
    ensures table { bus_of result ≡ B.table }
    ensures learnt { HasLearnt (length send_workers.items) first.me.0 result.me.0 }
    ensures told { All (λ send_worker. HasTold (senders_of send_worker.sender)
        (number_of send_worker.sender) messages (known_in result.me.0))
        send_workers.items }
{
    let mut first = first;
    for send_worker in send_workers {
        tell(&mut first, send_worker, the, messages);
    }
    first
}

/// A worker's sender tells a receiver of the log.
fn tell<B: OfBus>(
    receiver: &mut Receiver,
    send_worker: SendWorker<B>,
    the: &TheBus<B>,
    messages: u64,
)
    requires table { bus_of receiver.old ≡ B.table }
    requires sent { HasSent messages send_worker.sender }
    ensures table { bus_of receiver.new ≡ B.table }
    ensures learnt { HasLearnt 1 receiver.old.me.0 receiver.new.me.0 }
    ensures told { HasTold (senders_of send_worker.sender) (number_of send_worker.sender) messages
        (known_in receiver.new.me.0) }
{
    let SendWorker { mut sender, .. } = send_worker;
    receiver.told(&mut sender, &the.bus);
}

/// Ends the bus by its receiver. Its order has to have ended, for which the first sender answers.
/// No word of its log was used again, so the order stands whole.
fn end_closed<B: OfBus>(the: TheBus<B>, first: Receiver) -> Result<Ended, RunFault>
    requires table { bus_of first ≡ B.table }
    requires flat { plan_passers the.bus.plan ≡ 0 }
    ensures of { IfOk result (λ ended. ended.senders ≡ the.bus.plan.shape.senders) }
    ensures left { IfOk result
        (λ ended. IsLeftBy the.bus.plan first.me.0 ended.log (Some ended.page)) }
    ensures whole { IfOk result (λ ended. ended.floor ≡ 0) }
    ensures words { IfOk result (λ ended. ended.page.words ≡ length ended.log) }
    ensures closed { IfOk result (λ ended. OfOrder ended IsClosed) }
    ensures front { IfOk result (λ ended. IsPrefix (known_in first.me.0) ended.log) }
    ensures open { let Ends : Shown → Type 0 = λ seen. seen ≡ first.me.0 in
        IfErr result (λ fault. (fault ≡ stopped 0) × (LeavesNoPage the.bus.plan Ends
        ⊎ LeavesOrder the.bus.plan Ends IsOpen)) }
{
    let Ok(ended) = Receiver::end(the.into_bus(), first) else {
        return Err(RunFault::Stopped { sender: 0 });
    };
    if !ended.page().ended {
        return Err(RunFault::Stopped { sender: 0 });
    }
    Ok(ended)
}

/// Sees that each sender has so many items in the order that the bus left behind. The order stands
/// whole.
fn all_sent(ended: &Ended, senders: u64, messages: u64) -> Result<(), RunFault>
    requires senders { senders ≤ MOST_SENDERS }
    requires whole { ended.now.floor ≡ 0 }
    ensures ok { OnOk result (OfOrder ended.now (SendsEach senders messages)) }
    ensures fault { IfErr result (λ fault. (s : ℕ) × (fault ≡ stopped s) × (s < senders)
        × IsSpelled ended.now × OfOrder ended.now (λ order. SendsEach s messages order
        × (length (of_sender s order) ≢ messages))) }
{
    for number in 0..senders {
        if ended.count(SenderNo(number as u8)) != messages {
            return Err(RunFault::Stopped { sender: number });
        }
    }
    Ok(())
}
