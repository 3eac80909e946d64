//! What a start finds in a file of the system, and a replacement of its bytes.

use crate::tests::comparing::check_same;
use std::alloc::Global;
use std::fs;
use std::io::{Sink, sink};
use std::os::unix::fs::symlink;
use std::process::Abort;
use std::rt::Files;
use system_io::{KeptFile, ReadFault, SystemFile, begin, replace};

/// That a start over a file reads these bytes, or none.
fn expect_start<F: KeptFile + Drop>(
    rt: &impl Abort,
    alloc: Global,
    file: &mut F,
    bytes: Option<&[u8]>,
) {
    let got = begin(alloc, file).ok().expect(rt, "a file that is read");
    check_same(rt, got.as_deref(), bytes, "what is kept");
}

/// Whether a start can't read a file.
fn is_unreadable<F: KeptFile + Drop>(alloc: Global, file: &mut F) -> bool {
    matches!(begin(alloc, file), Err(ReadFault::Unreadable))
}

/// Starts over a file and puts bytes into it, and tells whether both were done.
fn is_put<F: KeptFile + Drop>(alloc: Global, file: &mut F, bytes: &[u8]) -> bool {
    begin(alloc, file).is_ok() && replace(file, bytes).is_ok()
}

/// The folder of the test, its kept file and the one beside it.
const FOLDER: &str = "/tmp/checks-test-kept";

const KEPT: &str = "/tmp/checks-test-kept/kept";

const BESIDE: &str = "/tmp/checks-test-kept/kept.new";

/// A file of the system.
fn file_at<'a, R: Files<File = fs::File> + AllocGlobal + Abort>(
    rt: &'a R,
    path: &str,
) -> SystemFile<'a, R, Sink> {
    SystemFile::at(rt, rt.alloc(), sink(), path).expect(rt, "memory")
}

/// That the kept file is read as these bytes.
fn expect_read<R: Files<File = fs::File> + AllocGlobal + Abort>(rt: &R, bytes: Option<&[u8]>) {
    expect_start(rt, rt.alloc(), &mut file_at(rt, KEPT), bytes);
}

/// That what stands at a path is refused.
fn expect_unread<R: Files<File = fs::File> + AllocGlobal + Abort>(rt: &R, path: &str) {
    let told = is_unreadable(rt.alloc(), &mut file_at(rt, path));
    check_same(rt, told, true, path);
}

/// That bytes are put into the kept file, and read again.
fn expect_put_at<R: Files<File = fs::File> + AllocGlobal + Abort>(rt: &R, bytes: &[u8]) {
    let done = is_put(rt.alloc(), &mut file_at(rt, KEPT), bytes);
    check_same(rt, done, true, "a put");
    expect_read(rt, Some(bytes));
}

/// Makes a folder, in place of what an earlier run may have left.
fn make_folder<R: Files + AllocGlobal + Abort>(rt: &R, path: &str) {
    let _left = fs::remove_dir_all(rt, path).is_ok();
    fs::create_dir(rt, path).expect(rt, "a folder");
}

/// Takes a folder away.
fn remove_folder<R: Files + AllocGlobal + Abort>(rt: &R, path: &str) {
    fs::remove_dir_all(rt, path).expect(rt, "a folder");
}

/// Leaves a file beside, as an earlier run may.
fn leave_beside<R: Files + AllocGlobal + Abort>(rt: &R) {
    fs::write(rt, BESIDE, "left over").expect(rt, "a file");
}

/// That nothing stands beside.
fn expect_none_beside<R: Files + AllocGlobal + Abort>(rt: &R) {
    let stands = fs::exists(rt, BESIDE).expect(rt, "a folder");
    check_same(rt, stands, false, BESIDE);
}

/// A file of the folder to which a link leads.
const AIM: &str = "/tmp/checks-test-kept/aim";

/// Makes a link beside.
fn link_beside<R: Files + AllocGlobal + Abort>(rt: &R) {
    fs::write(rt, AIM, "another's").expect(rt, "a file");
    symlink(rt, AIM, BESIDE).expect(rt, "a link");
}

/// That the file to which the link leads is as it was.
fn expect_aim<R: Files + AllocGlobal + Abort>(rt: &R) {
    let bytes = fs::read(rt, AIM).expect(rt, "a file");
    check_same(rt, bytes.as_slice(), b"another's".as_slice(), AIM);
}

/// A file that isn't there is nothing kept; what is put is read again; what an earlier run left beside it changes nothing, and a put
/// removes it; a link that stands there is not followed.
#[test]
fn keeps_a_file_of_the_system(rt: HostRuntime) {
    make_folder(&rt, FOLDER);
    expect_read(&rt, None);
    leave_beside(&rt);
    expect_read(&rt, None);
    expect_put_at(&rt, b"first");
    expect_put_at(&rt, b"second, and longer");
    leave_beside(&rt);
    expect_read(&rt, Some(b"second, and longer"));
    expect_put_at(&rt, b"third");
    expect_none_beside(&rt);
    link_beside(&rt);
    expect_put_at(&rt, b"3");
    expect_aim(&rt);
    remove_folder(&rt, FOLDER);
}

/// The folder of a test, its kept file and the one beside it.
const SHARED: &str = "/tmp/checks-test-shared";

const SHARED_KEPT: &str = "/tmp/checks-test-shared/kept";

const SHARED_BESIDE: &str = "/tmp/checks-test-shared/kept.new";

/// What another process writes beside, and has locked, stays there: a put takes another name.
#[test]
fn leaves_what_another_process_writes(rt: HostRuntime) {
    make_folder(&rt, SHARED);
    let file = fs::create(&rt, SHARED_BESIDE).expect(&rt, "a file");
    check_same(&rt, file.try_lock().is_ok(), true, "a lock");
    let done = is_put(rt.alloc(), &mut file_at(&rt, SHARED_KEPT), b"mine");
    check_same(&rt, done, true, "a put");
    let stands = fs::exists(&rt, SHARED_BESIDE).expect(&rt, "a folder");
    check_same(&rt, stands, true, SHARED_BESIDE);
    let kept = fs::read(&rt, SHARED_KEPT).expect(&rt, "a file");
    check_same(&rt, kept.as_slice(), b"mine".as_slice(), SHARED_KEPT);
    remove_folder(&rt, SHARED);
}

/// The folder of the other test.
const OTHER: &str = "/tmp/checks-test-unkept";

const LONG: &str = "/tmp/checks-test-unkept/long";

/// Where there is no folder there is nothing to sync, and no file to read.
const NOWHERE: &str = "/tmp/checks-test-unkept/missing/kept";

/// More bytes than a kept file may have.
fn many_bytes(rt: &impl Abort, alloc: Global) -> Vec<u8> {
    let mut bytes = Vec::new(alloc);
    bytes.resize(8218, 1).expect(rt, "memory");
    bytes
}

/// Writes a file of so many bytes.
fn write_long<R: Files + AllocGlobal + Abort>(rt: &R) {
    let bytes = many_bytes(rt, rt.alloc());
    fs::write(rt, LONG, bytes.as_slice()).expect(rt, "a file");
}

/// A link to nothing.
const DANGLING: &str = "/tmp/checks-test-unkept/dangling";

/// A folder in the file's place, a file of too many bytes, a file in a folder that isn't there and a link to nothing are refused.
#[test]
fn keeps_no_file_that_it_cannot_read(rt: HostRuntime) {
    make_folder(&rt, OTHER);
    expect_unread(&rt, OTHER);
    write_long(&rt);
    expect_unread(&rt, LONG);
    expect_unread(&rt, NOWHERE);
    symlink(&rt, NOWHERE, DANGLING).expect(&rt, "a link");
    expect_unread(&rt, DANGLING);
    remove_folder(&rt, OTHER);
}
