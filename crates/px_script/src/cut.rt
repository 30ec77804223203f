//! Bytes in two at a byte that parts them.

ghost use Rattle.std.specs.Prelude.{IfNone, IfSome};
ghost use Rattle.px_script.specs.Words.{HasNo, IsCutAt};

/// What stands before the first byte that is `mark`, and what stands after it. `None` where there is
/// no such byte.
pub fn cut_at(bytes: &[u8], mark: u8) -> Option<(&[u8], &[u8])>
    ensures some { IfSome result (λ parts. IsCutAt mark bytes.now parts.0.now parts.1.now) }
    ensures none { IfNone result (HasNo mark bytes.now) }
{
    for (place, byte) in bytes.iter().enumerate() {
        if *byte == mark {
            return Some((&bytes[..place], &bytes[place + 1..]));
        }
    }
    None
}
