// The fakes and the adapters, each once at a concrete type.
use lq_base_io::{
    CalmFolder, CalmSink, FetchError, Folder, MemFolder, MemSink, RealFolder, RealSink, Sink,
    SinkFailed,
};
use std::alloc::{AllocError, Global};
use std::collections::BTreeMap;
use std::fs;
use std::io::Cursor;
use std::test::Fail;

// A folder's files: `a` with three bytes.
fn one_file(alloc: Global) -> Result<BTreeMap<String, Vec<u8>>, AllocError> {
    let mut files = BTreeMap::new(alloc);
    files.insert(
        String::from_str(alloc, "a")?,
        Vec::from_slice(alloc, b"abc")?,
    )?;
    Ok(files)
}

// What a fetch answers and leaves in the buffer.
fn fetched<F: Folder>(
    alloc: Global,
    folder: &mut F,
    name: &str,
    limit: usize,
) -> (Result<(), FetchError>, Vec<u8>) {
    let mut into = Vec::new(alloc);
    let answer = folder.fetch(name, limit, &mut into);
    (answer, into)
}

#[test]
fn folders_in_memory(rt: HostRuntime) -> Result<(), Fail> {
    let alloc = rt.alloc();
    let mut folder = MemFolder::new(one_file(alloc)?, vec![in alloc; 1u64, 3]?);
    let mut calm = CalmFolder::new(one_file(alloc)?);
    let calls = [
        ("a", 3, Ok(()), b"abc".as_slice()),
        ("a", 3, Err(FetchError::Failed), b"".as_slice()),
        ("a", 2, Err(FetchError::TooLong), b"".as_slice()),
        ("b", 9, Err(FetchError::Failed), b"".as_slice()),
        ("b", 9, Err(FetchError::Absent), b"".as_slice()),
        ("a", 4, Ok(()), b"abc".as_slice()),
    ];
    for (name, limit, answer, bytes) in calls {
        let (got, into) = fetched(alloc, &mut folder, name, limit);
        assert_eq!(rt; got, answer, "at {name} within {limit}");
        assert_eq!(rt; into.as_slice(), bytes, "at {name} within {limit}");
    }
    assert_eq!(rt;
        fetched(alloc, &mut calm, "b", 9).0,
        Err(FetchError::Absent)
    );
    assert_eq!(rt;
        fetched(alloc, &mut calm, "a", 2).0,
        Err(FetchError::TooLong)
    );
    assert_eq!(rt;
        fetched(alloc, &mut calm, "a", 3).1.as_slice(),
        b"abc".as_slice()
    );
    assert_eq!(rt; folder.files().len(), 1);
    assert_eq!(rt; calm.files().len(), 1);
    assert_eq!(rt; folder.failing(), [1, 3].as_slice());
    assert_eq!(rt; folder.calls(), 6);
    Ok(())
}

#[test]
fn sinks_in_memory(rt: HostRuntime) -> Result<(), Fail> {
    let alloc = rt.alloc();
    let mut sink = MemSink::new(Vec::new(alloc), 2, vec![in alloc; 1u64]?);
    assert_eq!(rt; sink.write(b"abc"), Ok(2));
    assert_eq!(rt; sink.write(b"c"), Err(SinkFailed));
    assert_eq!(rt; sink.write(b"c"), Ok(1));
    assert_eq!(rt; sink.write(b""), Ok(0));
    assert_eq!(rt; sink.bytes(), b"abc".as_slice());
    assert_eq!(rt; sink.most(), 2);
    assert_eq!(rt; sink.failing(), [1].as_slice());
    assert_eq!(rt; sink.calls(), 4);
    assert_eq!(rt; sink.lacking(), 0);
    assert_eq!(rt; CalmSink.write(b"abc"), Ok(3));
    Ok(())
}

#[test]
fn real_files(rt: HostRuntime) -> Result<(), Fail> {
    let alloc = rt.alloc();
    let name = "lq_io_real_files.txt";
    fs::write(&rt, name, "abc")?;
    let mut folder = RealFolder::new(&rt);
    let (whole, bytes) = fetched(alloc, &mut folder, name, 3);
    let (cut, none) = fetched(alloc, &mut folder, name, 2);
    let (in_folder, _) = fetched(alloc, &mut folder, ".", 9);
    fs::remove_file(&rt, name)?;
    let (absent, _) = fetched(alloc, &mut folder, name, 9);
    assert_eq!(rt; whole, Ok(()));
    assert_eq!(rt; bytes.as_slice(), b"abc".as_slice());
    assert_eq!(rt; cut, Err(FetchError::TooLong));
    assert_eq!(rt; none.len(), 0);
    assert_eq!(rt; in_folder, Err(FetchError::Failed));
    assert_eq!(rt; absent, Err(FetchError::Absent));
    Ok(())
}

#[test]
fn real_writers(rt: HostRuntime) -> Result<(), Fail> {
    let mut bytes = [0u8; 2];
    let mut sink = RealSink::new(Cursor::new(bytes.as_mut_slice()));
    assert_eq!(rt; sink.write(b"abc"), Ok(2));
    assert_eq!(rt; sink.write(b"c"), Err(SinkFailed));
    assert_eq!(rt; sink.write(b""), Ok(0));
    Ok(())
}
