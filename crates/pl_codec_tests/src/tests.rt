use pl_codec::{decode_all, encode_all};
use std::test::Fail;

// A definition; a row with a null, an integer, a greater one, a text and a truth value; a row that
// is removed; a next id. As the format has them.
const PAYLOAD: &[u8] = b"\x01\0\0\0\x1aCREATE TABLE n (c integer)\
\x02\x01n\0\0\0\0\0\0\0\x01\x05\0\x01\xff\xff\xff\xff\x02\0\0\0\x01\0\0\0\0\x03\0\0\0\x02hi\x04\x01\
\x03\x01n\0\0\0\0\0\0\0\x07\
\x04\x01n\0\0\0\0\0\0\0\x08";

#[test]
fn a_payload_is_read_and_written_alike(rt: HostRuntime) -> Result<(), Fail> {
    let alloc = rt.alloc();
    let Some(ops) = decode_all(alloc, PAYLOAD)? else {
        assert!(rt; false, "it is a payload");
        return Ok(());
    };
    assert_eq!(rt; ops.len(), 4);
    let written = encode_all(alloc, ops.as_slice())?;
    assert!(rt; written.as_slice() == PAYLOAD);

    let cut = decode_all(alloc, &PAYLOAD[..PAYLOAD.len() - 1])?;
    assert!(rt; cut.is_none());
    Ok(())
}
