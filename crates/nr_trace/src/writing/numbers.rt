//! Numbers at the end of bytes.

ghost use Rattle.std.specs.Prelude.{◌≡◌, ◌++◌, OnOk};
ghost use Rattle.std.specs.Int.{w16, w32, w64, to_be_bytes};

use vs_types::Memory;

pub(crate) fn put_u16(out: &mut Vec<u8>, number: u16) -> Result<(), Memory>
    ensures { OnOk result (out.new.items ≡ out.old.items ++ to_be_bytes w16 number) }
{
    out.extend_from_slice(&number.to_be_bytes())?;
    Ok(())
}

pub(crate) fn put_u32(out: &mut Vec<u8>, number: u32) -> Result<(), Memory>
    ensures { OnOk result (out.new.items ≡ out.old.items ++ to_be_bytes w32 number) }
{
    out.extend_from_slice(&number.to_be_bytes())?;
    Ok(())
}

pub(crate) fn put_u64(out: &mut Vec<u8>, number: u64) -> Result<(), Memory>
    ensures { OnOk result (out.new.items ≡ out.old.items ++ to_be_bytes w64 number) }
{
    out.extend_from_slice(&number.to_be_bytes())?;
    Ok(())
}
