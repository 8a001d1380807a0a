ghost use Rattle.std.specs.Prelude.{◌<◌, ◌≤◌, ◌-◌, ◌^◌};
ghost use Rattle.pl_disk.specs.Disk.{untold};

use crate::{Keeper, Step};
use pl_base::{Area, List, Name, Op, Txt, Value};
use pl_codec::encode;
use pl_disk::{Disk, Failed};
use std::test::Fail;

// Area A in memory, of which contracts know nothing but how often a call failed. Area B is empty.
#[derive(Drop)]
struct OneFile {
    bytes: [u8; OneFile::SIZE],
    len: usize,
    faults: u64,
}

impl OneFile {
    const SIZE: usize = 128;

    fn new() -> OneFile {
        OneFile {
            bytes: [0; OneFile::SIZE],
            len: 0,
            faults: 0,
        }
    }
}

fn one_more(count: u64) -> u64
    ensures rises { count < 2 ^ 64 - 1 → count < result }
    ensures least { count ≤ result }
{
    if count < u64::MAX { count + 1 } else { count }
}

impl Disk for OneFile {
    ghost view = { λ f. untold f.faults };

    ghost lawful = { λ f told. absurd told };

    fn attach(&mut self, store: &str) -> Result<(), Failed> {
        Ok(())
    }

    fn len(&mut self, area: Area) -> Result<u64, Failed> {
        match area {
            Area::A => Ok(self.len.min(OneFile::SIZE) as u64),
            Area::B => Ok(0),
        }
    }

    fn read_at(&mut self, area: Area, at: u64, into: &mut [u8]) -> Result<(), Failed> {
        if area == Area::B
            || at > OneFile::SIZE as u64
            || into.len() > OneFile::SIZE - at as usize
        {
            self.faults = one_more(self.faults);
            return Err(Failed);
        }
        let at = at as usize;
        into.copy_from_slice(&self.bytes[at..at + into.len()]);
        Ok(())
    }

    fn write_at(&mut self, area: Area, at: u64, bytes: &[u8]) -> Result<(), Failed> {
        if area == Area::B
            || at > OneFile::SIZE as u64
            || bytes.len() > OneFile::SIZE - at as usize
        {
            self.faults = one_more(self.faults);
            return Err(Failed);
        }
        let at = at as usize;
        let end = at + bytes.len();
        self.bytes[at..end].copy_from_slice(bytes);
        self.len = self.len.max(end);
        Ok(())
    }

    fn sync(&mut self) -> Result<(), Failed> {
        Ok(())
    }
}

// The store after CREATE TABLE n (c integer) and INSERT INTO n VALUES (1), as the format has it.
const STORE: &[u8] = b"\x01PLPGST01\0\0\0\0\0\0\0\0\
\x01\0\0\0\0\0\0\0\x1f\x01\0\0\0\x1aCREATE TABLE n (c integer)\
\x01\0\0\0\0\0\0\0\x11\x02\x01n\0\0\0\0\0\0\0\x01\x01\x01\0\0\0\x01\0";

#[test]
fn two_commits_are_read_back(rt: HostRuntime) -> Result<(), Fail> {
    let alloc = rt.alloc();
    let mut file = OneFile::new();
    let reader = Keeper::recover(alloc, &mut file)?;
    let Step::End(mut keeper) = reader.next(alloc, &mut file)? else {
        assert!(rt; false, "a new store has no batch");
        return Ok(());
    };
    let text = Txt::from_slice(alloc, b"CREATE TABLE n (c integer)")?;
    let ops = [Op::Define { text }];
    keeper.commit(alloc, &mut file, &ops)?;
    let row = List::from_vec(vec![in alloc; Value::Int(1)]?);
    let Some(table) = Name::of("n") else {
        assert!(rt; false, "n is a name");
        return Ok(());
    };
    let payload = encode(alloc, &Op::Put { table, id: 1, row })?;
    keeper.commit_payload(alloc, &mut file, payload.as_slice())?;
    assert_eq!(rt; keeper.head(), (Area::A, 83));
    assert_eq!(rt; file.len, STORE.len());
    assert!(rt; file.bytes[..84] == STORE[..]);

    let reader = Keeper::recover(alloc, &mut file)?;
    let Step::Read { batch, rest } = reader.next(alloc, &mut file)? else {
        assert!(rt; false, "there is a first batch");
        return Ok(());
    };
    assert_eq!(rt; batch.at, 17);
    assert!(rt; matches!(batch.ops.as_slice(), [Op::Define { .. }]));
    let Step::Read { batch, rest } = rest.next(alloc, &mut file)? else {
        assert!(rt; false, "there is a second batch");
        return Ok(());
    };
    assert_eq!(rt; batch.at, 57);
    assert!(rt; matches!(batch.ops.as_slice(), [Op::Put { id: 1, .. }]));
    let Step::End(keeper) = rest.next(alloc, &mut file)? else {
        assert!(rt; false, "there is no third batch");
        return Ok(());
    };
    assert_eq!(rt; keeper.head(), (Area::A, 83));
    Ok(())
}
