//! A run: a bus with a worker for each sender and each receiver, held at its end against what each
//! sender was to send and each receiver noted.
//!
//! Two senders of four messages each and one receiver, with the seed 7:
//!
//! ```
//! use bus_run::{OpenGate, report_text, run};
//!
//! match run(&rt, rt.alloc(), 2, 1, 4, 7, &OpenGate) {
//!     Ok(report) => {
//!         let text = report_text(rt.alloc(), &report, 2).ok().context("memory")?;
//!         print!(&rt; "{text}")?;
//!     }
//!     Err(fault) => bail!("{fault:?}"),
//! }
//! ```
#![tactic(auto)]

pub mod audits;
pub mod buses;
pub mod closing;
pub mod faults;
pub mod gates;
pub mod laws;
pub mod limits;
pub mod reports;
pub mod runs;
pub mod spawning;
pub mod workers;

pub use audits::{AuditFault, audit};
pub use faults::{RunFault, SenderFault};
pub use gates::{Gate, OpenGate};
pub use reports::{Report, report_text};
pub use runs::run;
