//! Words at their least and their greatest numbers.
use firing_words::{HALF_WORD, MAX_ENTRIES, pack, unpack};
use std::test::Fail;

#[test]
fn packs_the_greatest_numbers(rt: HostRuntime) -> Result<(), Fail> {
    let most = HALF_WORD - 1;
    assert_eq!(rt; pack(0, 0), 0);
    assert_eq!(rt; pack(0, most), most);
    assert_eq!(rt; pack(most, most), u64::MAX);
    assert_eq!(rt; unpack(u64::MAX), (most, most));
    assert_eq!(rt; unpack(HALF_WORD), (1, 0));
    assert_eq!(rt; unpack(pack(MAX_ENTRIES, most)), (MAX_ENTRIES, most));
    Ok(())
}
