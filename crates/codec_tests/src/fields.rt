//! Numbers and bytes put one behind the other.
use crate::rows::bytes_of;
use byte_fields::{bits16, bits32, bits64, put_bytes, put_u8, put_u16, put_u32, put_u64};
use std::alloc::{AllocError, Global};
use std::test::*;

fn written(alloc: Global) -> Result<Vec<u8>, AllocError> {
    let mut out = Vec::new(alloc);
    put_u8(&mut out, 2)?;
    put_u16(&mut out, bits16(-2))?;
    put_u32(&mut out, bits32(-128))?;
    put_u64(&mut out, bits64(2147483648))?;
    put_bytes(&mut out, &[104, 105])?;
    Ok(out)
}

#[test]
fn lowest_byte_first(rt: HostRuntime) -> Result<(), Fail> {
    let out = written(rt.alloc()).ok().ok_or("there is memory")?;
    let bytes = bytes_of(rt.alloc(), "02 feff 80ffffff 0000008000000000 6869").ok_or(
        "there is memory",
    )?;
    assert_eq!(rt; out.as_slice(), bytes.as_slice());
    Ok(())
}
