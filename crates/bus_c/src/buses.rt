//! How a bus is opened.

ghost use Rattle.std.specs.Prelude.{◌≡◌, Some, None, map, IfOk, OnOk, OnErr, length};
ghost use Rattle.bus_c.specs.Opened.{OpenAnswered, held_by, boxed, holds};
ghost use Rattle.bus_c.specs.Opened.{heard_by, boxed_receiver, hears};

use crate::receiver::CReceiver;
use crate::seats::{ReceiverSeat, SenderSeat, seat_receiver, seat_sender};
use crate::sender::CSender;
use bus_embed::codes::{NO_MEMORY, OK};
use bus_embed::{
    Left, ReceiverHandle, SenderHandle, Sizes, ThreeWord, open_bus, open_bus_after, refused_code,
};
use std::alloc::{AllocError, Global};

/// Opens a bus of these sizes with as many senders and receivers as there are handles to fill.
/// What the handles held is given up. A fault changes no handle.
#[unsafe(no_mangle)]
pub extern "C" fn bus_c_open(
    alloc: Global,
    sizes: &Sizes,
    senders: &mut [CSender],
    receivers: &mut [CReceiver],
) -> u32
    ensures { OpenAnswered sizes.now None senders.old receivers.old result senders.new
        receivers.new }
{
    let many = senders.len() as u64;
    let hearing = receivers.len() as u64;
    match open_bus(alloc, *sizes, many, hearing) {
        Ok((sending, receiving)) => {
            match hand_out(alloc, sending, receiving, senders, receivers) {
                Ok(()) => OK,
                Err(_) => NO_MEMORY,
            }
        }
        Err(fault) => refused_code(fault),
    }
}

/// The same of a bus whose senders go on with the next numbers of a bus that left this.
#[unsafe(no_mangle)]
pub extern "C" fn bus_c_open_after(
    alloc: Global,
    sizes: &Sizes,
    left: &Left,
    senders: &mut [CSender],
    receivers: &mut [CReceiver],
) -> u32
    ensures { OpenAnswered sizes.now (Some left.now) senders.old receivers.old result senders.new
        receivers.new }
{
    let many = senders.len() as u64;
    let hearing = receivers.len() as u64;
    match open_bus_after(alloc, *sizes, many, hearing, left) {
        Ok((sending, receiving)) => {
            match hand_out(alloc, sending, receiving, senders, receivers) {
                Ok(()) => OK,
                Err(_) => NO_MEMORY,
            }
        }
        Err(fault) => refused_code(fault),
    }
}

/// Fills the handles with these, in order, or changes none.
fn hand_out(
    alloc: Global,
    sending: Vec<SenderHandle<ThreeWord>>,
    receiving: Vec<ReceiverHandle<ThreeWord>>,
    senders: &mut [CSender],
    receivers: &mut [CReceiver],
) -> Result<(), AllocError>
    requires senders { length sending.items ≡ length senders.old }
    requires receivers { length receiving.items ≡ length receivers.old }
    ensures filled { OnOk result ((map held_by senders.new ≡ map holds sending.items)
        × (map heard_by receivers.new ≡ map hears receiving.items)) }
    ensures refused { OnErr result ((senders.new ≡ senders.old)
        × (receivers.new ≡ receivers.old)) }
{
    let sending = box_senders(alloc, sending)?;
    let receiving = box_receivers(alloc, receiving)?;
    fill_senders(senders, sending);
    fill_receivers(receivers, receiving);
    Ok(())
}

/// Each of these senders in a box.
fn box_senders(
    alloc: Global,
    senders: Vec<SenderHandle<ThreeWord>>,
) -> Result<Vec<Box<SenderSeat>>, AllocError>
    ensures { IfOk result (λ boxes. map boxed boxes.items ≡ map holds senders.items) }
{
    let mut boxes = Vec::new(alloc);
    for handle in senders {
        boxes.push(Box::new(alloc, seat_sender(handle))?)?;
    }
    Ok(boxes)
}

/// Each of these receivers in a box.
fn box_receivers(
    alloc: Global,
    receivers: Vec<ReceiverHandle<ThreeWord>>,
) -> Result<Vec<Box<ReceiverSeat>>, AllocError>
    ensures { IfOk result (λ boxes. map boxed_receiver boxes.items ≡ map hears receivers.items) }
{
    let mut boxes = Vec::new(alloc);
    for handle in receivers {
        boxes.push(Box::new(alloc, seat_receiver(handle))?)?;
    }
    Ok(boxes)
}

/// Puts these into the handles, in order.
fn fill_senders(senders: &mut [CSender], seats: Vec<Box<SenderSeat>>)
    requires { length seats.items ≡ length senders.old }
    ensures { map held_by senders.new ≡ map boxed seats.items }
{
    for (place, seat) in seats.into_iter().enumerate() {
        senders[place].hold(seat);
    }
}

/// Puts these into the handles, in order.
fn fill_receivers(receivers: &mut [CReceiver], seats: Vec<Box<ReceiverSeat>>)
    requires { length seats.items ≡ length receivers.old }
    ensures { map heard_by receivers.new ≡ map boxed_receiver seats.items }
{
    for (place, seat) in seats.into_iter().enumerate() {
        receivers[place].hold(seat);
    }
}
