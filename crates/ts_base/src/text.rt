//! Numbers written after a text.

ghost use Rattle.std.specs.Prelude.{◌≡◌, ◌++◌, OnOk, OnErr};
ghost use Rattle.std.specs.Fmt.{signed_decimal};
ghost use Rattle.ts_base.specs.Text.{ext_text};

use crate::error::Memory;
use crate::ext::Ext;
use itoa::Buffer;

/// Appends the decimal text of `n` to `text`, which stays as it is after `Memory`.
pub fn push_number(text: &mut Vec<u8>, n: i64) -> Result<(), Memory>
    ensures ok { OnOk result (text.new.items ≡ text.old.items ++ signed_decimal n) }
    ensures err { OnErr result (text.new.items ≡ text.old.items) }
{
    let mut buffer = Buffer::new();
    text.extend_from_slice(buffer.format(n).as_bytes())?;
    Ok(())
}

/// Appends the number, `-inf` or `+inf` to `text`, which stays as it is after `Memory`.
pub fn push_ext(text: &mut Vec<u8>, e: Ext) -> Result<(), Memory>
    ensures ok { OnOk result (text.new.items ≡ text.old.items ++ ext_text e) }
    ensures err { OnErr result (text.new.items ≡ text.old.items) }
{
    match e {
        Ext::NegInf => Ok(text.extend_from_slice(b"-inf")?),
        Ext::Int(n) => push_number(text, n),
        Ext::PosInf => Ok(text.extend_from_slice(b"+inf")?),
    }
}
