//! Numbers that a hasher writes, of each type.

use sketch_base::MurmurHash3X64128;
use std::hash::Hasher;
use std::test::Fail;

const FOX: &[u8] = b"The quick brown fox jumps over the lazy dog";

#[test]
fn numbers_go_the_way_of_their_bytes(rt: HostRuntime) {
    for start in 0..16 {
        let mut numbers = MurmurHash3X64128::with_seed(7);
        let mut bytes = MurmurHash3X64128::with_seed(7);
        let (front, _) = FOX.split_at(start);
        numbers.write(front);
        bytes.write(front);
        numbers.write_u8(1);
        numbers.write_u16(0x0302);
        numbers.write_u32(0x0706_0504);
        numbers.write_u64(0x0f0e_0d0c_0b0a_0908);
        numbers.write_usize(0x1716_1514_1312_1110);
        numbers.write_u128(0x2726_2524_2322_2120_1f1e_1d1c_1b1a_1918);
        bytes.write(&[
            1, 2, 3, 4, 5, 6, 7, 8, 9, 10, 11, 12, 13, 14, 15, 16, 17, 18, 19, 20, 21, 22, 23, 24,
            25, 26, 27, 28, 29, 30, 31, 32, 33, 34, 35, 36, 37, 38, 39,
        ]);
        numbers.write_i8(-1);
        numbers.write_i16(-2);
        numbers.write_i32(-3);
        numbers.write_i64(-4);
        numbers.write_isize(-5);
        numbers.write_i128(-6);
        for (low, size) in [
            (0xff, 1),
            (0xfe, 2),
            (0xfd, 4),
            (0xfc, 8),
            (0xfb, 8),
            (0xfa, 16),
        ] {
            bytes.write(&[low]);
            for _ in 1..size {
                bytes.write(&[0xff]);
            }
        }
        assert_eq!(rt;
            numbers.finish128(),
            bytes.finish128(),
            "after {start} bytes"
        );
        assert_eq!(rt;
            numbers.finish(),
            bytes.finish128().0,
            "after {start} bytes"
        );
    }
}
