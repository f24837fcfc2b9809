//! Orders: what the program can be asked for, as plain data.
//!
//! [`Order`], [`Page`] and [`LogOrder`] are what a [`Task`] may be, and [`Asked`] is a task with the manner in which it is carried out
//! ([`Manner`]). app_command_line finds the task that words ask for, the engines carry orders out, and the C library gives them orders
//! without any words. It uses live_replica and judge_workers for what orders name.
#![tactic(auto)]

mod coloring;
mod detail;
mod drive;
mod expected;
mod form;
mod judging;
mod length;
mod line_judging;
mod listing;
mod log_order;
mod manner;
mod order;
mod page;

pub use coloring::Coloring;
pub use detail::Detail;
pub use drive::{Drive, MAX_SEALS, Store};
pub use expected::Expected;
pub use form::{Form, ListForm, LongForm};
pub use judge_workers::Workers;
pub use judging::Judging;
pub use length::Length;
pub use line_judging::{BlankLines, LineJudging};
pub use listing::{Listing, MAX_LISTED};
pub use live_replica::Delivery;
pub use log_order::{LogJudging, LogOrder, MAX_EVERY};
pub use manner::{Asked, MAX_LEAST_READS, Manner};
pub use order::{Order, Task};
pub use page::{Page, PageOf, USUAL_LISTED};
