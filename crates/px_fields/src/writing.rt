//! Values as bytes, added to others. Where memory wants, bytes of the value may have been added.

ghost use Rattle.std.specs.Prelude.{◌≡◌, ◌<◌, ◌^◌, ◌++◌, ◌∷◌, [], length, OnOk};
ghost use Rattle.px_fields.specs.Fields.{flag, kind_code, optional_u32, optional_u64, text_bytes, u32_bytes, u64_bytes};

use px_base::{Bytes, Kind};
use std::alloc::AllocError;

/// Adds a number of four bytes.
pub fn add_u32(bytes: &mut Bytes, number: u32) -> Result<(), AllocError>
    ensures { OnOk result (bytes.new ≡ bytes.old ++ u32_bytes number) }
{
    bytes.extend_from_slice(&number.to_be_bytes())
}

/// Adds a number of eight bytes.
pub fn add_u64(bytes: &mut Bytes, number: u64) -> Result<(), AllocError>
    ensures { OnOk result (bytes.new ≡ bytes.old ++ u64_bytes number) }
{
    bytes.extend_from_slice(&number.to_be_bytes())
}

/// Adds a flag.
pub fn add_flag(bytes: &mut Bytes, set: bool) -> Result<(), AllocError>
    ensures { OnOk result (bytes.new ≡ bytes.old ++ flag set ∷ []) }
{
    bytes.push(if set { 1 } else { 0 })
}

/// Adds a flag that says whether there is a number, and four bytes of the number, or of 0.
pub fn add_optional_u32(bytes: &mut Bytes, number: Option<u32>) -> Result<(), AllocError>
    ensures { OnOk result (bytes.new ≡ bytes.old ++ optional_u32 number) }
{
    add_flag(bytes, number.is_some())?;
    let number = match number {
        Some(number) => number,
        None => 0,
    };
    add_u32(bytes, number)
}

/// Adds a flag that says whether there is a number, and eight bytes of the number, or of 0.
pub fn add_optional_u64(bytes: &mut Bytes, number: Option<u64>) -> Result<(), AllocError>
    ensures { OnOk result (bytes.new ≡ bytes.old ++ optional_u64 number) }
{
    add_flag(bytes, number.is_some())?;
    let number = match number {
        Some(number) => number,
        None => 0,
    };
    add_u64(bytes, number)
}

/// Adds the byte of a kind.
pub fn add_kind(bytes: &mut Bytes, kind: Kind) -> Result<(), AllocError>
    ensures { OnOk result (bytes.new ≡ bytes.old ++ kind_code kind ∷ []) }
{
    let code = match kind {
        Kind::Commit => 1,
        Kind::Tree => 2,
        Kind::Blob => 3,
        Kind::Tag => 4,
    };
    bytes.push(code)
}

/// Adds two bytes of the length of a text, and the text.
pub fn add_text(bytes: &mut Bytes, text: &[u8]) -> Result<(), AllocError>
    requires { length text.now < 2 ^ 16 }
    ensures { OnOk result (bytes.new ≡ bytes.old ++ text_bytes text.now) }
{
    let size = text.len() as u16;
    bytes.extend_from_slice(&size.to_be_bytes())?;
    bytes.extend_from_slice(text)
}
