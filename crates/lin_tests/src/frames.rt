//! Outside vectors, and each public call once.

use arrayvec::ArrayVec;
use lin_frame::{
    Answer, FrameId, Layout, Place, SumKind, Value, ValueBytes, answer, checksum, pack,
    packing_is_inverse, passes, protected, unpack, unprotect,
};
use lin_text::Many;
use std::alloc::Global;
use std::process::Abort;
use std::test::Fail;

/// The protected identifiers of 0 to 63.
const PROTECTED: [u8; 64] = [
    0x80, 0xC1, 0x42, 0x03, 0xC4, 0x85, 0x06, 0x47, 0x08, 0x49, 0xCA, 0x8B, 0x4C, 0x0D, 0x8E, 0xCF,
    0x50, 0x11, 0x92, 0xD3, 0x14, 0x55, 0xD6, 0x97, 0xD8, 0x99, 0x1A, 0x5B, 0x9C, 0xDD, 0x5E, 0x1F,
    0x20, 0x61, 0xE2, 0xA3, 0x64, 0x25, 0xA6, 0xE7, 0xA8, 0xE9, 0x6A, 0x2B, 0xEC, 0xAD, 0x2E, 0x6F,
    0xF0, 0xB1, 0x32, 0x73, 0xB4, 0xF5, 0x76, 0x37, 0x78, 0x39, 0xBA, 0xFB, 0x3C, 0x7D, 0xFE, 0xBF,
];

/// The protected identifier of a number.
fn pid_of(id: u8) -> Result<u8, Fail> {
    Ok(protected(FrameId::new(id).ok_or("no identifier")?))
}

#[test]
fn identifiers(rt: HostRuntime) -> Result<(), Fail> {
    for (id, pid) in [
        (0x00, 0x80),
        (0x01, 0xC1),
        (0x02, 0x42),
        (0x3C, 0x3C),
        (0x3D, 0x7D),
    ] {
        assert_eq!(rt; pid_of(id)?, pid);
    }
    assert_eq!(rt; unprotect(0x81), None);
    assert_eq!(rt; unprotect(0xC1).ok_or("no identifier")?.value(), 0x01);
    assert_eq!(rt; FrameId::new(64), None);
    for id in 0..64 {
        let pid = PROTECTED[id as usize];
        assert_eq!(rt; pid_of(id)?, pid);
        assert_eq!(rt; unprotect(pid).ok_or("no identifier")?.value(), id);
        assert_eq!(rt; unprotect(pid ^ 0x40), None, "of {id}");
        assert_eq!(rt; unprotect(pid ^ 0x80), None, "of {id}");
    }
    Ok(())
}

/// Bytes, the kind of their checksum, the protected identifier before them, and the checksum.
const SUMS: &[(SumKind, u8, &[u8], u8)] = &[
    (SumKind::Classic, 0, &[0x4A, 0x55, 0x93, 0xE5], 0xE6),
    (SumKind::Enhanced, 0xC1, &[0x01], 0x3D),
    (
        SumKind::Classic,
        0,
        &[0x00, 0xFF, 0xFF, 0xFF, 0xFF, 0xFF, 0xFF, 0xFF],
        0x00,
    ),
];

/// Data, the kind of its checksum, the protected identifier before it, and the answer.
const ANSWERS: &[(SumKind, u8, &[u8], &[u8])] = &[
    (
        SumKind::Classic,
        0x3C,
        &[0x01, 0x03, 0x22, 0x06, 0x2E, 0xFF, 0xFF, 0xFF],
        &[0x01, 0x03, 0x22, 0x06, 0x2E, 0xFF, 0xFF, 0xFF, 0xA5],
    ),
    (SumKind::Enhanced, 0xC4, &[0x42, 0x11], &[0x42, 0x11, 0xE7]),
];

/// Bytes of an answer, the kind of its checksum, the protected identifier before it, how many data
/// bytes it must have, and whether it passes.
const CHECKS: &[(SumKind, u8, usize, &[u8], bool)] = &[
    (
        SumKind::Classic,
        0x3C,
        8,
        &[0x01, 0x03, 0x22, 0x06, 0x2F, 0xFF, 0xFF, 0xFF, 0xA4],
        true,
    ),
    (
        SumKind::Classic,
        0x3C,
        8,
        &[0x01, 0x03, 0x22, 0x06, 0x2F, 0xFF, 0xFF, 0xFF, 0xA5],
        false,
    ),
    (SumKind::Enhanced, 0xC4, 2, &[0x42, 0x11, 0xE7], true),
    (SumKind::Enhanced, 0x42, 2, &[0x42, 0x11, 0xE7], false),
    (SumKind::Enhanced, 0xC4, 3, &[0x42, 0x11, 0xE7], false),
    (SumKind::Enhanced, 0xC4, 0, &[], false),
];

#[test]
fn checksums(rt: HostRuntime) {
    for (kind, pid, bytes, sum) in SUMS {
        assert_eq!(rt; checksum(*kind, *pid, bytes), *sum, "{bytes:?} after {pid}");
    }
    for (kind, pid, bytes, wanted) in ANSWERS {
        assert!(rt; !bytes.is_empty());
        assert!(rt; bytes.len() <= 8);
        assert_eq!(rt; answer(*kind, *pid, bytes).as_slice(), *wanted);
    }
    for (kind, pid, len, bytes, good) in CHECKS {
        assert_eq!(rt;
            passes(*kind, *pid, *len, bytes),
            *good,
            "{bytes:?} after {pid}"
        );
    }
    let mut bytes = ArrayVec::new();
    bytes.push(0x07);
    assert_eq!(rt; Answer::new(bytes).as_slice(), [0x07].as_slice());
}

fn scalar_place(offset: u8, size: u8) -> Place {
    Place {
        offset,
        size,
        array: false,
    }
}

/// The frame of a layout with one value, where the layout is good and the value fits.
fn packed_one(rt: &impl Abort, layout: &Layout, value: Value) -> [u8; 8] {
    let values = [value];
    assert!(rt; layout.is_good());
    assert!(rt; layout.fits(&values));
    pack(layout, &values)
}

fn one_place(alloc: Global, len: u8, pid: Option<u8>, place: Place) -> Result<Layout, Fail> {
    Ok(Layout {
        len,
        pid,
        places: Many::new(Vec::from_array(alloc, [place])?),
    })
}

/// An array is packed into its bytes, and found there.
fn expect_array(rt: &impl Abort, alloc: Global) -> Result<(), Fail> {
    let place = Place {
        offset: 16,
        size: 24,
        array: true,
    };
    let layout = one_place(alloc, 6, Some(0x42), place)?;
    let mut bytes = ArrayVec::new();
    bytes.push(0x12);
    bytes.push(0x34);
    bytes.push(0x56);
    let frame = packed_one(rt, &layout, Value::Bytes(ValueBytes::new(bytes)));
    assert_eq!(rt; frame, [0x42, 0xFF, 0x12, 0x34, 0x56, 0xFF, 0xFF, 0xFF]);
    assert!(rt; layout.is_good());
    assert_eq!(rt; layout.places.as_slice().len(), 1);
    match unpack(&layout, &frame, 0) {
        Value::Bytes(bytes) => assert_eq!(rt; bytes.as_slice(), [0x12, 0x34, 0x56].as_slice()),
        Value::Scalar(_) => return Err("no array".into()),
    }
    Ok(())
}

#[test]
fn packed_frames(rt: HostRuntime) -> Result<(), Fail> {
    let light = Layout {
        len: 2,
        pid: None,
        places: Many::new(Vec::from_array(rt.alloc(), [scalar_place(0, 4), scalar_place(4, 10)])?),
    };
    assert!(rt; light.is_good());
    for (level, byte) in [(2, 0x52), (3, 0x53)] {
        let values = [Value::Scalar(level), Value::Scalar(0x155)];
        assert!(rt; light.fits(&values));
        assert_eq!(rt;
            pack(&light, &values),
            [byte, 0xD5, 0xFF, 0xFF, 0xFF, 0xFF, 0xFF, 0xFF]
        );
    }
    for (pid, key) in [(0x42, 0x11), (0x03, 0x22)] {
        let layout = one_place(rt.alloc(), 2, Some(pid), scalar_place(8, 8))?;
        let frame = packed_one(&rt, &layout, Value::Scalar(key));
        assert_eq!(rt; frame, [pid, key as u8, 0xFF, 0xFF, 0xFF, 0xFF, 0xFF, 0xFF]);
    }
    let fan = one_place(rt.alloc(), 1, None, scalar_place(0, 8))?;
    for speed in [0x05, 0x07, 0x09] {
        assert_eq!(rt;
            packed_one(&rt, &fan, Value::Scalar(speed)),
            [speed as u8, 0xFF, 0xFF, 0xFF, 0xFF, 0xFF, 0xFF, 0xFF]
        );
    }
    packing_is_inverse();
    expect_array(&rt, rt.alloc())
}

fn unpacked_scalar(rt: &impl Abort, layout: &Layout, bytes: &[u8; 8]) -> Option<u16> {
    assert!(rt; layout.is_good());
    assert_eq!(rt; layout.places.as_slice().len(), 1);
    match unpack(layout, bytes, 0) {
        Value::Scalar(number) => Some(number),
        Value::Bytes(_) => None,
    }
}

#[test]
fn scalar_at_each_offset(rt: HostRuntime) -> Result<(), Fail> {
    for offset in 0..49 {
        let layout = one_place(rt.alloc(), 8, None, scalar_place(offset, 16))?;
        let frame = packed_one(&rt, &layout, Value::Scalar(0xA5C3));
        for bit in 0..64 {
            let is_inside = bit >= offset && bit < offset + 16;
            let is_one = !is_inside || 0xA5C3u16 >> (bit - offset) & 1 == 1;
            assert_eq!(rt;
                frame[bit as usize / 8] >> (bit % 8) & 1 == 1,
                is_one,
                "at {offset} and {bit}"
            );
        }
        assert_eq!(rt; unpacked_scalar(&rt, &layout, &frame), Some(0xA5C3));
    }
    Ok(())
}

/// Lengths of frames, the protected identifier in the first byte, the offset and size of the one
/// scalar, and whether the layout is good.
const LAYOUTS: &[(u8, Option<u8>, u8, u8, bool)] = &[
    (2, None, 0, 17, false),
    (2, None, 0, 0, false),
    (2, None, 9, 8, false),
    (2, None, 7, 8, true),
    (2, Some(0x42), 7, 8, false),
    (0, None, 0, 1, false),
    (9, None, 0, 1, false),
];

#[test]
fn layouts(rt: HostRuntime) -> Result<(), Fail> {
    for (len, pid, offset, size, good) in LAYOUTS {
        let layout = one_place(rt.alloc(), *len, *pid, scalar_place(*offset, *size))?;
        assert_eq!(rt;
            layout.is_good(),
            *good,
            "{size} bits at {offset} of {len} bytes"
        );
    }
    let overlapping = Vec::from_array(rt.alloc(), [scalar_place(0, 5), scalar_place(4, 1)])?;
    assert!(rt;
        !Layout {
            len: 1,
            pid: None,
            places: Many::new(overlapping)
        }
        .is_good()
    );
    assert!(rt; scalar_place(0, 4).fits(&Value::Scalar(15)));
    assert!(rt; !scalar_place(0, 4).fits(&Value::Scalar(16)));
    Ok(())
}
