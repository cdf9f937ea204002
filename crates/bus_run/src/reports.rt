//! What a run leaves behind, and the text that says so.

ghost use Rattle.std.specs.Prelude.{◌≡◌, ◌≤◌, ◌++◌, All, length, IfOk, IfErr, OnOk};
ghost use Rattle.std.specs.Prelude.{string_bytes};
ghost use Rattle.bus_run.specs.Audit.{OfOrder, IsFair};
ghost use Rattle.bus_run.specs.RunText.{sender_line, sender_lines, receiver_line, receiver_lines};
ghost use Rattle.bus_run.specs.RunText.{page_lines, report_text as text_of};
ghost use Rattle.bus_run.specs.Stops.{IsTextFault};

use crate::audits::audit;
use crate::faults::RunFault;
use bus_pageslot::Ended;
use bus_receiver::Heard;
use bus_register::SenderNo;
use bus_register::limits::MOST_SENDERS;
use bus_tenure::Page;
use std::alloc::{AllocError, Global};

/// What a run leaves behind: the bus, whose order stands whole, and what each receiver noted.
#[derive(Drop)]
pub struct Report {
    pub ended: Ended,
    pub heards: Vec<Heard>,
    ghost whole: { ended.floor ≡ 0 },
}

/// The lines of a run that passes the audit.
pub fn report_text(alloc: Global, report: &Report, senders: u64) -> Result<String, RunFault>
    requires { senders ≤ MOST_SENDERS }
    ensures fair { OnOk result
        (OfOrder report.now.ended (λ order. All (IsFair order) report.now.heards.items)) }
    ensures text { IfOk result
        (λ text. OfOrder report.now.ended
        (λ order. string_bytes text
        ≡ text_of order report.now.ended.page senders report.now.heards.items)) }
    ensures words { OnOk result (report.now.ended.page.words ≡ length report.now.ended.log) }
    ensures fault { IfErr result
        (IsTextFault report.now.ended report.now.heards.items) }
{
    let heards = report.heards.as_slice();
    audit(&report.ended, heards)?;
    let mut text = String::new(alloc);
    push_senders(&mut text, &report.ended, senders)?;
    push_receivers(&mut text, heards)?;
    push_page(&mut text, report.ended.page())?;
    Ok(text)
}

/// Puts a line for each sender at the end of a text. The order stands whole.
fn push_senders(text: &mut String, ended: &Ended, senders: u64) -> Result<(), AllocError>
    requires senders { senders ≤ MOST_SENDERS }
    requires whole { ended.now.floor ≡ 0 }
    ensures { OnOk result
        (OfOrder ended.now
        (λ order. string_bytes text.new ≡ string_bytes text.old ++ sender_lines order senders)) }
{
    for number in 0..senders {
        push_sender(text, number, ended.count(SenderNo(number as u8)))?;
    }
    Ok(())
}

fn push_sender(text: &mut String, number: u64, count: u64) -> Result<(), AllocError>
    ensures { OnOk result
        (string_bytes text.new ≡ string_bytes text.old ++ sender_line number count) }
{
    write!(text, "sender {number}: {count}\n")
}

/// Puts a line for each receiver at the end of a text.
fn push_receivers(text: &mut String, heards: &[Heard]) -> Result<(), AllocError>
    ensures { OnOk result
        (string_bytes text.new ≡ string_bytes text.old ++ receiver_lines 0 heards.now) }
{
    for (place, heard) in heards.iter().enumerate() {
        push_receiver(text, place as u64, heard)?;
    }
    Ok(())
}

fn push_receiver(text: &mut String, number: u64, heard: &Heard) -> Result<(), AllocError>
    ensures { OnOk result
        (string_bytes text.new ≡ string_bytes text.old ++ receiver_line number heard.now) }
{
    write!(text, "receiver {number}: {}", heard.items())?;
    if heard.ended() {
        text.push_str(" end")?;
    }
    text.push_str("\n")
}

/// Puts the lines of the page at the end of a text, and that the audit was passed.
fn push_page(text: &mut String, page: &Page) -> Result<(), AllocError>
    ensures { OnOk result (string_bytes text.new ≡ string_bytes text.old ++ page_lines page.now) }
{
    write!(
        text,
        "tenures {}\nwords {}\naudit ok\n",
        page.tenures, page.words
    )
}
