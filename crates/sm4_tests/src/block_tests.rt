use crate::vectors::BLOCKS;
use sm4::Sm4;

#[test]
fn blocks_both_ways(rt: HostRuntime) {
    for case in &BLOCKS {
        let cipher = Sm4::new(&case.key.to_be_bytes());
        let coded = u128::from_be_bytes(cipher.encrypt(case.plain.to_be_bytes()));
        assert_eq!(rt; coded, case.coded);
        let plain = u128::from_be_bytes(cipher.decrypt(case.coded.to_be_bytes()));
        assert_eq!(rt; plain, case.plain);
    }
}

#[test]
fn a_million_times(rt: HostRuntime) {
    let example = BLOCKS[0];
    let cipher = Sm4::new(&example.key.to_be_bytes());
    let mut block = example.plain.to_be_bytes();
    for _ in 0..1_000_000u32 {
        let next = cipher.encrypt(block);
        block = next;
    }
    assert_eq!(rt;
        u128::from_be_bytes(block),
        0x595298c7c6fd271f0402f804c33d3f66
    );
    for _ in 0..1_000_000u32 {
        let next = cipher.decrypt(block);
        block = next;
    }
    assert_eq!(rt; u128::from_be_bytes(block), example.plain);
}
