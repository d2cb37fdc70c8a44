//! Values of records, and the small types that contracts see as lists.
#![tactic(auto)]

mod bytes;
mod canonical_form;
mod copied;
mod date;
mod decimal;
mod items;
mod kind;
mod laws;
mod memory;
mod name;
mod numeral;
mod text;
mod value;
mod write;

pub use bytes::Bytes;
pub use canonical_form::canonical;
pub use copied::{Copied, copied_items};
pub use date::civil_date;
pub use items::Items;
pub use kind::{Kind, fits};
pub use laws::{
    canonical_bytes_differ, days_and_dates_agree, spellings_are_exact, value_order_is_total,
};
pub use memory::NoMemory;
pub use name::{Name, Name0};
pub use text::{TextFault, read_text};
pub use value::{Value, cmp, copy_value};
pub use write::write_text;
