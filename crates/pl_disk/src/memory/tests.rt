use crate::{Area, Disk, Host, MemoryHost, MemorySource, Pick, Source, UntoldHost};
use std::test::Fail;

// Calls 0 to 6: a write past the end, a sync, and writes to both files of which only a part is settled.
#[test]
fn a_crash_leaves_what_the_pick_says(rt: HostRuntime) -> Result<(), Fail> {
    let alloc = rt.alloc();
    let fail = Vec::new(alloc);
    let mut host = MemoryHost::new(alloc, b"abcd".to_vec(alloc)?, Vec::new(alloc), fail)?;
    for (area, at, bytes, synced) in [
        (Area::A, 2, b"XYZ", true),
        (Area::A, 1, b"pqr", false),
        (Area::B, 0, b"mno", false),
    ] {
        assert!(rt; at <= host.area(area).len() as u64);
        assert!(rt; host.write_at(area, at, bytes).is_ok());
        if synced {
            assert!(rt; host.sync().is_ok());
        }
    }
    assert!(rt; host.say(b"said").is_ok());
    assert_eq!(rt; host.calls(), 5);
    for (call, pick, a, b) in [
        (0, Pick::Old, b"abcd".as_slice(), b"".as_slice()),
        (0, Pick::New, b"abXYZ".as_slice(), b"".as_slice()),
        (0, Pick::Fill(b'.'), b"ab...".as_slice(), b"".as_slice()),
        (1, Pick::Old, b"abXYZ".as_slice(), b"".as_slice()),
        (1, Pick::Fill(b'.'), b"abXYZ".as_slice(), b"".as_slice()),
        (2, Pick::Fill(b'.'), b"a...Z".as_slice(), b"".as_slice()),
        (4, Pick::Old, b"abXYZ".as_slice(), b"".as_slice()),
        (4, Pick::New, b"apqrZ".as_slice(), b"mno".as_slice()),
        (4, Pick::Fill(b'.'), b"a...Z".as_slice(), b"...".as_slice()),
    ] {
        assert!(rt; call < host.calls());
        let (left_a, left_b) = host.image_after(alloc, call, pick)?;
        assert_eq!(rt; left_a.as_slice(), a, "A after {call}");
        assert_eq!(rt; left_b.as_slice(), b, "B after {call}");
    }
    Ok(())
}

#[test]
fn listed_calls_fail_and_change_nothing(rt: HostRuntime) -> Result<(), Fail> {
    let alloc = rt.alloc();
    let fail = vec![in alloc; 1, 3]?;
    let mut host = MemoryHost::new(alloc, b"ab".to_vec(alloc)?, Vec::new(alloc), fail)?;
    assert!(rt; host.attach("store").is_ok());
    assert!(rt; host.say(b"one").is_err());
    assert!(rt; host.say(b"two").is_ok());
    assert!(rt; host.write_at(Area::B, 0, b"x").is_err());
    assert_eq!(rt; host.printed(), b"two".as_slice());
    assert_eq!(rt; host.area(Area::B), b"".as_slice());
    assert_eq!(rt; host.starved(), 0);
    assert_eq!(rt; host.len(Area::A).unwrap_or(0), 2);
    let mut read = [0; 2];
    assert!(rt; host.area(Area::A).len() == 2);
    assert!(rt; host.read_at(Area::A, 0, &mut read).is_ok());
    assert_eq!(rt; read, *b"ab");
    assert!(rt; UntoldHost::new().say(b"lost").is_err());

    let fail = vec![in alloc; 1]?;
    let mut source = MemorySource::new(b"abc".to_vec(alloc)?, fail);
    let mut buffer = [0; 4];
    assert!(rt; source.attach("script").is_ok());
    assert!(rt; source.take(&mut buffer).is_err());
    assert_eq!(rt; source.take(&mut buffer).unwrap_or(0), 3);
    assert_eq!(rt; buffer, *b"abc\0");
    Ok(())
}

#[test]
fn a_listed_call_does_its_part(rt: HostRuntime) -> Result<(), Fail> {
    let alloc = rt.alloc();
    let fail = vec![in alloc; 0, 1]?;
    let a = b"abc".to_vec(alloc)?;
    let mut host = MemoryHost::with_part(alloc, a, Vec::new(alloc), fail, 2)?;
    assert!(rt; host.area(Area::A).len() == 3);
    assert!(rt; host.write_at(Area::A, 1, b"XYZ").is_err());
    assert!(rt; host.say(b"said").is_err());
    assert_eq!(rt; host.area(Area::A), b"aXY".as_slice());
    assert_eq!(rt; host.printed(), b"sa".as_slice());
    assert!(rt; host.calls() == 2);
    let (left_a, _) = host.image_after(alloc, 1, Pick::Fill(b'.'))?;
    assert_eq!(rt; left_a.as_slice(), b"a..".as_slice());
    Ok(())
}
