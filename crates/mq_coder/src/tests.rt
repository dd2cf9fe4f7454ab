// Codes that are known from outside.
use super::*;
use arrayvec::ArrayVec;

/// Puts a list of symbols, each of which has a context below 19.
fn put_all(encoder: &mut Encoder, symbols: &[(u8, bool)]) {
    for (cx, bit) in symbols {
        if *cx < 19 && encoder.has_room() {
            encoder.put(*cx, *bit);
        }
    }
}

/// The whole ended code: the kept ones of the bytes that were put out, then the tail.
fn whole(bytes: &[u8], code: &EndedCode) -> ArrayVec<u8, 8> {
    let mut all = ArrayVec::new();
    for byte in bytes.iter().take(code.kept as usize) {
        let _ = all.try_push(*byte);
    }
    for byte in code.tail.as_slice() {
        let _ = all.try_push(*byte);
    }
    all
}

#[test]
fn codes_short_lists(rt: HostRuntime) {
    let mut buffer = [0; 64];
    let mut encoder = Encoder::new(&mut buffer);
    assert_eq!(rt;
        whole(&[], &ending(&encoder.mark())).as_slice(),
        [0xFF, 0x7F].as_slice()
    );
    assert_eq!(rt;
        whole(&[], &ending(&Mark::default())).as_slice(),
        [0xFF, 0x7F].as_slice()
    );
    put_all(
        &mut encoder,
        &[(0, false), (0, false), (0, true), (9, false)],
    );
    let mark = encoder.mark();
    assert_eq!(rt; encoder.count(), 0);
    assert_eq!(rt;
        whole(encoder.finish(), &ending(&mark)).as_slice(),
        [0x0C].as_slice()
    );
    assert_eq!(rt; ended_len(&mark), 1);
}

#[test]
fn codes_signs(rt: HostRuntime) {
    for (sign, code) in [(false, 0x03), (true, 0x07)] {
        let mut buffer = [0; 64];
        let mut encoder = Encoder::new(&mut buffer);
        put_all(&mut encoder, &[(0, true), (9, sign)]);
        assert_eq!(rt; ending(&encoder.mark()).tail.as_slice(), [code].as_slice());
    }
}

#[test]
fn ends_at_an_earlier_mark(rt: HostRuntime) {
    let mut buffer = [0; 256];
    let mut encoder = Encoder::new(&mut buffer);
    put_all(&mut encoder, &[(18, false); 40]);
    let mark = encoder.mark();
    put_all(&mut encoder, &[(18, true); 40]);
    let code = ending(&mark);
    let bytes = encoder.finish();
    assert_eq!(rt;
        whole(bytes, &code).as_slice(),
        [0xAC, 0x01, 0xFF, 0x7F, 0xFF, 0x7F].as_slice()
    );
    assert_eq!(rt; ended_len(&mark), 6);
}

#[test]
fn goes_on_where_it_was_left(rt: HostRuntime) {
    let mut buffer = [0; 256];
    let mut encoder = Encoder::new(&mut buffer);
    put_all(&mut encoder, &[(18, false); 40]);
    let mark = encoder.mark();
    let contexts = encoder.contexts();
    put_all(&mut encoder, &[(18, false); 40]);
    assert!(rt; mark.count as usize <= buffer.len());
    let mut next = Encoder::resume(&mut buffer, &mark, &contexts);
    let code = ending(&next.mark());
    put_all(&mut next, &[(18, true); 40]);
    assert_eq!(rt;
        whole(next.finish(), &code).as_slice(),
        [0xAC, 0x01, 0xFF, 0x7F, 0xFF, 0x7F].as_slice()
    );
}
