use crate::{
    Failed, FileFault, Files, MemFiles, MemSink, NamedFiles, NoFaultFiles, NoFaultSink, RealFiles,
    RealSink, write_all,
};
use std::alloc::Global;
use std::process::Abort;
use std::test::Fail;
use std::{env, fs, process};

/// More bytes than are taken in one turn.
static LONG: [u8; 5000] = [b'x'; 5000];

type Read = Result<&'static [u8], FileFault>;

fn named(alloc: Global) -> Result<NamedFiles, Fail> {
    let mut files = NamedFiles::new(alloc);
    for (name, bytes) in [
        ("g", b"abc".as_slice()),
        ("empty", b"".as_slice()),
        ("g", b"second".as_slice()),
    ] {
        files.add(String::from_str(alloc, name)?, bytes.to_vec(alloc)?)?;
    }
    Ok(files)
}

fn check_reads<R: Abort, F: Files>(
    rt: &R,
    alloc: Global,
    files: &mut F,
    cases: &[(&str, u64, Read)],
) {
    for (name, limit, wanted) in cases {
        let answer = files.read(alloc, name, *limit);
        let given = match &answer {
            Ok(bytes) => Ok(bytes.as_slice()),
            Err(fault) => Err(*fault),
        };
        assert_eq!(rt; given, *wanted, "{name} within {limit}");
    }
}

#[test]
fn named_files_are_read_and_listed_reads_fail(rt: HostRuntime) -> Result<(), Fail> {
    let alloc = rt.alloc();
    let mut files = MemFiles::new(named(alloc)?, vec![in alloc; 3]?);
    let too_long = Err(FileFault::TooLong { limit: 2 });
    check_reads(
        &rt,
        alloc,
        &mut files,
        &[
            ("g", 3, Ok(b"abc")),
            ("g", 2, too_long),
            ("s", 3, Err(FileFault::Failed)),
            ("g", 3, Err(FileFault::Failed)),
            ("empty", 0, Ok(b"")),
        ],
    );
    let mut files = NoFaultFiles::new(named(alloc)?);
    check_reads(
        &rt,
        alloc,
        &mut files,
        &[("g", 3, Ok(b"abc")), ("g", 2, too_long), ("s", 0, Ok(b""))],
    );
    Ok(())
}

#[test]
fn files_of_the_system_are_read_up_to_their_limit(rt: HostRuntime) -> Result<(), Fail> {
    let alloc = rt.alloc();
    let id = process::id(rt.process());
    let path = env::temp_dir(&rt)?.join(alloc, format!(in alloc; "wg_io_{id}")?.as_str())?;
    let name = path.as_path().to_str().ok_or("a name")?;
    let mut files = RealFiles::new(&rt);
    fs::write(&rt, name, LONG.as_slice())?;
    check_reads(
        &rt,
        alloc,
        &mut files,
        &[
            (name, 5000, Ok(&LONG)),
            (name, 4999, Err(FileFault::TooLong { limit: 4999 })),
        ],
    );
    fs::remove_file(&rt, name)?;
    check_reads(
        &rt,
        alloc,
        &mut files,
        &[(name, 5000, Err(FileFault::Failed))],
    );
    Ok(())
}

#[test]
fn listed_writes_fail_and_append_nothing(rt: HostRuntime) -> Result<(), Fail> {
    let alloc = rt.alloc();
    let mut out = MemSink::new(alloc, vec![in alloc; 1]?);
    for (piece, wanted, written) in [
        (b"ab".as_slice(), Ok(()), b"ab".as_slice()),
        (b"cd".as_slice(), Err(Failed), b"ab".as_slice()),
        (b"".as_slice(), Ok(()), b"ab".as_slice()),
        (b"efg".as_slice(), Ok(()), b"abefg".as_slice()),
    ] {
        assert_eq!(rt; write_all(&mut out, piece), wanted);
        assert_eq!(rt; out.bytes(), written);
    }
    assert_eq!(rt; write_all(&mut NoFaultSink::new(), b"line\n"), Ok(()));
    assert_eq!(rt; write_all(&mut RealSink::new(&rt), b"line\n"), Ok(()));
    Ok(())
}
