// Header texts, in either byte order.
use std::test::Fail;
use text::strings::{TextFault, read_string};
use wire::order::ByteOrder;
use wire::refusal::{Fault, Layer};

// What stands after the NUL is neither checked nor left over.
#[test]
fn reads_to_the_nul(rt: HostRuntime) -> Result<(), Fail> {
    let (text, rest) = read_string(ByteOrder::Little, b"\x03\0\0\0a\0\xFF")?;
    assert!(rt; text == "a");
    assert!(rt; rest.is_empty());
    Ok(())
}

#[test]
fn reads_the_length_in_its_order(rt: HostRuntime) -> Result<(), Fail> {
    let (text, rest) = read_string(ByteOrder::Big, b"\0\0\0\x01ab")?;
    assert!(rt; text == "a");
    assert!(rt; rest == b"b".as_slice());
    assert_eq!(rt;
        read_string(ByteOrder::Little, b"\0\0\0\x01ab").err(),
        Some(TextFault::PastEnd)
    );
    Ok(())
}

#[test]
fn refuses_what_is_no_text(rt: HostRuntime) {
    assert_eq!(rt;
        read_string(ByteOrder::Little, b"\x02\0\0\0\xC3\x28").err(),
        Some(TextFault::IllFormed)
    );
    assert_eq!(rt;
        read_string(ByteOrder::Little, b"\0\0\0").err(),
        Some(TextFault::ShortLength)
    );
    assert_eq!(rt;
        read_string(ByteOrder::Little, b"\xFF\xFF\xFF\xFFa").err(),
        Some(TextFault::PastEnd)
    );
    assert_eq!(rt;
        read_string(ByteOrder::Big, b"\xFF\xFF\xFF\xFFa").err(),
        Some(TextFault::PastEnd)
    );
}

#[test]
fn places_a_fault(rt: HostRuntime) {
    assert_eq!(rt;
        TextFault::IllFormed.refusal(3, 8).fault(),
        Fault {
            number: 10,
            layer: Layer::Section,
            feature: 3,
            offset: 12,
        }
    );
}
