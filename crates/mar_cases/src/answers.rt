//! What is said of a value, or of bytes that spell none. No function of this crate has an `ensures`: what they say is
//! compared with the whole output that is wanted.
use bytes::BytesMut;
use mar_types::{Decode, Read, Write};
use std::alloc::{AllocError, Global};
use std::fmt::{Debug, Display};

// The bytes that spell a value.
pub(crate) fn in_hex<T: Write>(alloc: Global, value: &T) -> Result<String, AllocError> {
    let mut buf = BytesMut::new(alloc);
    value.write(&mut buf)?;
    hex::encode(alloc, buf.as_slice())
}

// The value and the bytes that spell it.
pub(crate) fn spelled<T: Write + Debug>(alloc: Global, value: &T) -> Result<String, AllocError> {
    let text = in_hex(alloc, value)?;
    format!(in alloc; "{value:?} {text}")
}

// The value that these bytes spell under the configuration and the bytes that spell it, or why they are refused.
pub(crate) fn told_by<T: Read + Debug>(
    alloc: Global,
    bytes: &[u8],
    cfg: &T::Cfg,
) -> Result<String, AllocError> {
    match T::decode_cfg(alloc, bytes, cfg) {
        Ok(value) => spelled(alloc, &value),
        Err(error) => error.to_string(alloc),
    }
}

// The same of what needs no configuration.
pub(crate) fn told<T: Read<Cfg = ()> + Debug>(
    alloc: Global,
    bytes: &[u8],
) -> Result<String, AllocError> {
    told_by::<T>(alloc, bytes, &())
}

// The same of a value that is printed in both ways.
pub(crate) fn shown<T: Read<Cfg = ()> + Debug + Display>(
    alloc: Global,
    bytes: &[u8],
) -> Result<String, AllocError> {
    match T::decode_cfg(alloc, bytes, &()) {
        Ok(value) => {
            let text = spelled(alloc, &value)?;
            format!(in alloc; "{value} {text}")
        }
        Err(error) => error.to_string(alloc),
    }
}

// Whether the value is written as the bytes that it was read from.
pub(crate) fn is_spelled_by<T: Write>(
    alloc: Global,
    value: &T,
    bytes: &[u8],
) -> Result<&'static str, AllocError> {
    let mut buf = BytesMut::new(alloc);
    value.write(&mut buf)?;
    if buf.as_slice() == bytes {
        Ok("written so")
    } else {
        Ok("written otherwise")
    }
}
