use pl_disk::{Area, Disk, Host, Source};
use pl_files::{FileHost, FileSource, Problem};
use std::os::unix::fs::symlink;
use std::test::Fail;
use std::{fs, process};

// What the user is told of the problem.
fn told(rt: HostRuntime, problem: Option<Problem>, name: &str) -> Result<String, Fail> {
    let problem = problem.ok_or("nothing failed")?;
    Ok(format!(in rt.alloc(); "{}", problem.named(name))?)
}

#[test]
fn a_store_is_written_and_locked(rt: HostRuntime) -> Result<(), Fail> {
    let id = process::id(rt.process());
    let store = format!(in rt.alloc(); "/tmp/pl_files-{id}")?;
    let alt = format!(in rt.alloc(); "{store}.alt")?;
    let mut host = FileHost::new(rt);
    assert!(rt; host.len(Area::A).is_err());
    assert!(rt; host.sync().is_err());
    assert!(rt; host.attach(store.as_str()).is_ok());
    assert!(rt; host.write_at(Area::A, 0, b"\x01first").is_ok());
    assert!(rt; host.write_at(Area::B, 0, b"second").is_ok());
    assert!(rt; host.sync().is_ok());
    assert!(rt; host.write_at(Area::A, 3, b"RS").is_ok());
    assert!(rt; host.write_at(Area::A, 1 << 63, b"far").is_err());
    assert!(rt; host.sync().is_ok());
    assert_eq!(rt; host.len(Area::A).unwrap_or(0), 6);
    let mut read = [0; 4];
    assert!(rt; host.read_at(Area::B, 2, &mut read).is_ok());
    assert_eq!(rt; read, *b"cond");
    assert!(rt; host.read_at(Area::B, 3, &mut read).is_err());

    let mut second = FileHost::new(rt);
    assert!(rt; second.attach(store.as_str()).is_err());
    assert!(rt; second.write_at(Area::A, 0, b"lost").is_err());
    let words = told(rt, second.disk_problem(), "shop")?;
    assert_eq!(rt; words.as_str(), "shop: in use by another program");
    assert_eq!(rt;
        fs::read_to_string(&rt, store.as_str())?.as_str(),
        "\x01fiRSt"
    );
    assert_eq!(rt; fs::read_to_string(&rt, alt.as_str())?.as_str(), "second");

    drop(host);
    assert!(rt; second.attach(store.as_str()).is_ok());
    assert_eq!(rt; second.len(Area::B).unwrap_or(0), 6);
    assert!(rt; second.say(b"").is_ok());
    fs::remove_file(&rt, store.as_str())?;
    fs::remove_file(&rt, alt.as_str())?;
    Ok(())
}

// What a new host answers for the store.
fn attached(rt: HostRuntime, store: &str) -> Result<String, Fail> {
    let mut host = FileHost::new(rt);
    match host.attach(store) {
        Ok(()) => Ok(String::from_str(rt.alloc(), "attached")?),
        Err(_) => told(rt, host.disk_problem(), "shop"),
    }
}

#[test]
fn another_file_is_no_store(rt: HostRuntime) -> Result<(), Fail> {
    let id = process::id(rt.process());
    let store = format!(in rt.alloc(); "/tmp/pl_files-front-{id}")?;
    let alt = format!(in rt.alloc(); "{store}.alt")?;
    let others = [
        "SELEC",
        "\0PLPGST01\0\0\0\0\0\0\0\0\x01\0",
        "SELECT 1 FROM goods;",
    ];
    for other in others {
        fs::write(&rt, store.as_str(), other)?;
        let answer = attached(rt, store.as_str())?;
        assert_eq!(rt; answer.as_str(), "shop: not a store", "{other}");
        assert_eq!(rt; fs::read_to_string(&rt, store.as_str())?.as_str(), other);
        assert!(rt; !fs::exists(&rt, alt.as_str())?, "{other}");
    }
    fs::remove_file(&rt, store.as_str())?;
    fs::write(&rt, alt.as_str(), "SELECT 1 FROM goods;")?;
    let answer = attached(rt, store.as_str())?;
    assert_eq!(rt; answer.as_str(), "shop.alt: not a store");
    assert!(rt; !fs::exists(&rt, store.as_str())?);
    fs::remove_file(&rt, alt.as_str())?;
    for unopened in ["", "S", "SPLP", "\0PLPGST01\0\0\0\0\0\0\0\0\0"] {
        fs::write(&rt, store.as_str(), unopened)?;
        let answer = attached(rt, store.as_str())?;
        assert_eq!(rt; answer.as_str(), "attached", "{unopened}");
        fs::remove_file(&rt, alt.as_str())?;
    }
    fs::remove_file(&rt, store.as_str())?;
    Ok(())
}

#[test]
fn a_link_leads_to_one_store(rt: HostRuntime) -> Result<(), Fail> {
    let id = process::id(rt.process());
    let store = format!(in rt.alloc(); "/tmp/pl_files-linked-{id}")?;
    let alt = format!(in rt.alloc(); "{store}.alt")?;
    let link = format!(in rt.alloc(); "{store}-link")?;
    // A dangling link at first.
    symlink(&rt, store.as_str(), link.as_str())?;
    let mut host = FileHost::new(rt);
    assert!(rt; host.attach(link.as_str()).is_ok());
    assert!(rt; fs::exists(&rt, alt.as_str())?);
    assert_eq!(rt;
        attached(rt, store.as_str())?.as_str(),
        "shop: in use by another program"
    );
    drop(host);
    fs::remove_file(&rt, link.as_str())?;
    fs::hard_link(&rt, store.as_str(), link.as_str())?;
    assert_eq!(rt;
        attached(rt, link.as_str())?.as_str(),
        "shop: more than one hard link"
    );
    fs::remove_file(&rt, link.as_str())?;
    fs::remove_file(&rt, store.as_str())?;
    fs::remove_file(&rt, alt.as_str())?;
    Ok(())
}

#[test]
fn a_script_is_read_to_its_end(rt: HostRuntime) -> Result<(), Fail> {
    let id = process::id(rt.process());
    let script = format!(in rt.alloc(); "/tmp/pl_files-{id}.sql")?;
    let mut source = FileSource::new(rt);
    let mut read = [0; 8];
    assert!(rt; source.attach(script.as_str()).is_err());
    assert!(rt; source.take(&mut read).is_err());
    let words = told(rt, source.problem(), "shop.sql")?;
    assert_eq!(rt; words.as_str(), "shop.sql: no such file or folder");
    fs::write(&rt, script.as_str(), "SELECT 1;\n")?;
    assert!(rt; source.attach(script.as_str()).is_ok());
    assert_eq!(rt; source.take(&mut read).unwrap_or(0), 8);
    assert_eq!(rt; read, *b"SELECT 1");
    assert_eq!(rt; source.take(&mut read).unwrap_or(0), 2);
    assert_eq!(rt; source.take(&mut read).unwrap_or(9), 0);
    fs::remove_file(&rt, script.as_str())?;
    Ok(())
}
