// A count that calls alone would not reach in a test's time.
use crate::shelf::Shelf;
use image::kinds::Image;
use std::test::Fail;
use table::row::Row;
use wire::refusal::Refusal;

// The highest count is kept, and one filing more is refused.
#[test]
fn full_count_is_refused(rt: HostRuntime) -> Result<(), Fail> {
    let bytes = vec![in rt.alloc(); 0u8; 5]?;
    let (mut shelf, opened) = Shelf::open(5, 1, bytes);
    opened?;
    let store = Image::open(b"PRH\x01\0")?;
    let mut rows = [Row::BLANK; 1];
    let mut work = [0u8; 5];
    assert_eq!(rt; shelf.file(&store, &mut rows, &mut work), Ok(1));
    if let Some(held) = shelf.place_of(1) {
        shelf.recount(held, u32::MAX - 1);
    }
    assert_eq!(rt; shelf.file(&store, &mut rows, &mut work), Ok(1));
    assert_eq!(rt; shelf.count(1), Ok(u32::MAX));
    assert_eq!(rt;
        shelf.file(&store, &mut rows, &mut work),
        Err(Refusal::CountFull)
    );
    assert_eq!(rt; shelf.count(1), Ok(u32::MAX));
    Ok(())
}
