// The objects over the real runtime, and rows over memory.
use std::alloc::Global;
use std::fs;
use std::test::Fail;
use sy_base::{
    Code, CutPut, Files, HostFiles, MemFile, MemFiles, MemSink, ReadAnswer, Sink, SinkAnswer,
    StdSink, SteadyFiles, SteadySink, Text,
};

fn file_of(alloc: Global, name: &[u8], bytes: &[u8]) -> Result<MemFile, Fail> {
    Ok(MemFile {
        name: Text::of(alloc, name)?,
        bytes: bytes.to_vec(alloc)?,
    })
}

// Two files with one name.
fn two_files(alloc: Global) -> Result<Vec<MemFile>, Fail> {
    let mut files = Vec::new(alloc);
    files.push(file_of(alloc, b"f", b"abc")?)?;
    files.push(file_of(alloc, b"f", b"second")?)?;
    Ok(files)
}

#[test]
fn files_in_memory(rt: HostRuntime) -> Result<(), Fail> {
    let alloc = rt.alloc();
    let failing = [3].to_vec(alloc)?;
    let mut files = MemFiles::new(two_files(alloc)?, failing);
    let mut into = b"<".to_vec(alloc)?;
    let rows: [(&str, usize, ReadAnswer, &[u8]); 5] = [
        ("f", 3, ReadAnswer::Done, b"<abc"),
        ("f", 2, ReadAnswer::TooLong, b"<abc"),
        ("f", 3, ReadAnswer::Failed, b"<abc"),
        ("g", 3, ReadAnswer::Failed, b"<abc"),
        ("f", 9, ReadAnswer::Done, b"<abcabc"),
    ];
    for (name, limit, answer, bytes) in rows {
        assert!(rt; limit < 10);
        assert_eq!(rt;
            files.read(alloc, name, limit, &mut into),
            answer,
            "for {name} within {limit}"
        );
        assert_eq!(rt; into.as_slice(), bytes, "for {name} within {limit}");
    }
    let mut steady = SteadyFiles::new(two_files(alloc)?);
    for (name, bytes) in [("f", b"abc".as_slice()), ("g", b"".as_slice())] {
        let mut into = Vec::new(alloc);
        assert_eq!(rt; steady.read(alloc, name, 9, &mut into), ReadAnswer::Done);
        assert_eq!(rt; into.as_slice(), bytes, "for {name}");
    }
    Ok(())
}

#[test]
fn sinks_in_memory(rt: HostRuntime) -> Result<(), Fail> {
    let alloc = rt.alloc();
    let mut cuts = Vec::new(alloc);
    for (call, after) in [(2, 1), (2, 0), (3, 9)] {
        cuts.push(CutPut { call, after })?;
    }
    let mut sink = MemSink::new(alloc, cuts);
    for (answer, written) in [
        (SinkAnswer::Done, b"ab".as_slice()),
        (SinkAnswer::Failed, b"aba".as_slice()),
        (SinkAnswer::Failed, b"abaab".as_slice()),
        (SinkAnswer::Done, b"abaabab".as_slice()),
    ] {
        assert_eq!(rt; sink.put(b"ab"), answer);
        assert_eq!(rt; sink.bytes(), written);
    }
    let mut steady = SteadySink::new(alloc);
    assert_eq!(rt; steady.put(b"ab"), SinkAnswer::Done);
    assert_eq!(rt; steady.bytes(), b"ab".as_slice());
    assert_eq!(rt; Code::NotUtf8.name(), "NotUtf8");
    Ok(())
}

#[test]
fn files_of_the_system(rt: HostRuntime) -> Result<(), Fail> {
    let alloc = rt.alloc();
    let mut content = Vec::new(alloc);
    for _ in 0..1250 {
        content.extend_from_slice(b"eightful")?;
    }
    fs::write(&rt, "sy_base_test.txt", content.as_slice())?;
    let mut files = HostFiles::new(&rt);
    let mut into = b"<".to_vec(alloc)?;
    for (name, limit, answer, size) in [
        ("sy_base_test.txt", 9_999, ReadAnswer::TooLong, 1),
        ("sy_base_no_such.txt", 9_999, ReadAnswer::Failed, 1),
        ("sy_base_test.txt", 10_000, ReadAnswer::Done, 10_001),
        ("sy_base_test.txt", 50_000, ReadAnswer::Done, 20_001),
    ] {
        assert!(rt; limit < 100_000);
        assert_eq!(rt;
            files.read(alloc, name, limit, &mut into),
            answer,
            "for {name} within {limit}"
        );
        assert_eq!(rt; into.len(), size, "for {name} within {limit}");
    }
    assert!(rt; into.len() == 20_001);
    assert_eq!(rt; &into[1..10_001], content.as_slice());
    assert_eq!(rt; &into[10_001..], content.as_slice());
    fs::remove_file(&rt, "sy_base_test.txt")?;
    Ok(())
}

#[test]
fn standard_output(rt: HostRuntime) {
    let mut sink = StdSink::new(&rt);
    assert_eq!(rt; sink.put(b"written by a test\n"), SinkAnswer::Done);
    assert_eq!(rt; sink.put(b""), SinkAnswer::Done);
}
