//! Values as bytes, as rows and frames have them: numbers, flags, leases, kinds, object names and
//! texts.
#![tactic(auto)]

mod laws;
mod reading;
mod writing;

pub use laws::what_stands_in_front_is_one_value;
pub use reading::{
    flag_at, id_at, kind_at, lease_at, name_at, optional_lease_at, optional_u32_at,
    optional_u64_at, text_at, u32_at, u64_at,
};
pub use writing::{
    add_flag, add_kind, add_optional_u32, add_optional_u64, add_text, add_u32, add_u64,
};
