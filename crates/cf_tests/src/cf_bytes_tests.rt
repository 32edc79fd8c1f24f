//! Files and writers of the system, where no contract says what they hold.
use cf_bytes::{Failed, Files, StdFiles, WriterSink, put_all};
use std::alloc::Global;
use std::rt::Files as HostFiles;
use std::test::*;

// What is written to a writer that has room for so many bytes, and how that ends.
fn written(alloc: Global, room: usize, text: &str) -> Result<String, Fail> {
    let mut bytes = vec![in alloc; b'.'; room]?;
    let answer: Result<(), Failed> = put_all(
        &mut WriterSink::new(bytes.as_mut_slice()),
        text.as_bytes(),
    );
    let told = String::from_utf8(bytes).ok().ok_or("no text")?;
    Ok(format!(in alloc; "{answer:?} {told}")?)
}

#[test]
fn a_writer_without_room_fails(rt: HostRuntime) -> Result<(), Fail> {
    let rows = "5 Ok(()) abcde\n6 Ok(()) abcde.\n4 Err(Failed) abcd\n0 Err(Failed) ";
    for row in rows.lines() {
        let (room, wanted) = row.split_once(' ').ok_or("no row")?;
        let room: usize = room.parse().ok().ok_or("no number")?;
        let told = written(rt.alloc(), room.min(9), "abcde")?;
        assert_eq!(rt; told.as_str(), wanted);
    }
    Ok(())
}

// What a file of at most so many bytes is read as, and whether a reason is kept.
fn read_back<R: HostFiles>(
    alloc: Global,
    files: &mut StdFiles<R>,
    name: &str,
    most: usize,
) -> Result<String, Fail> {
    let answer = files.read(alloc, name, most);
    let reason = files.reason().is_some();
    Ok(format!(in alloc; "{answer:?} {reason}")?)
}

// What is read once a file was opened, and then refused as too big.
fn read_after_a_refusal<R: HostFiles>(
    alloc: Global,
    files: &mut StdFiles<R>,
    name: &str,
) -> Result<String, Fail> {
    let first = files.open(name, 3);
    let second = files.open(name, 2);
    let mut byte = [0u8; 1];
    let left = files.part(&mut byte);
    Ok(format!(in alloc; "{first:?} {second:?} {left:?}")?)
}

#[test]
fn files_of_the_system(rt: HostRuntime) -> Result<(), Fail> {
    let name = "cf_bytes_test_file";
    let mut files = StdFiles::new(&rt);
    files
        .write(rt.alloc(), name, b"first, and longer")
        .ok()
        .ok_or("not written")?;
    files
        .write(rt.alloc(), name, b"abc")
        .ok()
        .ok_or("not written")?;
    let rows =
        "3 Ok([97, 98, 99]) false\n9 Ok([97, 98, 99]) false\n2 Err(TooBig) false\n0 Err(TooBig) false";
    for row in rows.lines() {
        let (most, wanted) = row.split_once(' ').ok_or("no row")?;
        let most: usize = most.parse().ok().ok_or("no number")?;
        let told = read_back(rt.alloc(), &mut files, name, most)?;
        assert_eq!(rt; told.as_str(), wanted);
    }
    let told = read_after_a_refusal(rt.alloc(), &mut files, name)?;
    assert_eq!(rt; told.as_str(), "Ok(()) Err(TooBig) Ok(0)");
    std::fs::remove_file(&rt, name)?;
    let told = read_back(rt.alloc(), &mut files, name, 3)?;
    assert_eq!(rt; told.as_str(), "Err(Failed) true");
    let reason = format!(in rt.alloc(); "{}", files.reason().ok_or("no reason")?)?;
    assert!(rt; reason.as_str().starts_with("No such file"));
    Ok(())
}
