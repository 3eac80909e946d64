//! Files with their modes, on a disk in memory and on that of the system.

use crate::tests::comparing::{check_bytes, check_same};
use std::alloc::Global;
use std::fs;
use std::io::{Sink, sink};
use std::net::{Net, UdpSocket};
use std::os::unix::fs::{PermissionsExt, symlink};
use std::process::Abort;
use std::rt::Files;
use std::time::{Clock, Duration};
use system_fakes::{AtPath, MemoryDisk};
use system_io::{Disk, NO_TAG, Port, SystemDisk, UdpPort};

/// A file of six bytes at a path is read with its mode where it may have so many, and not within five.
fn check_file<D: Disk>(rt: &impl Abort, alloc: Global, disk: &D, path: &str, mode: u32) {
    let file = disk.read_with_mode(alloc, path, 6).ok().expect(rt, path);
    check_bytes(rt, &file.bytes, b"secret", path);
    check_same(rt, file.mode, mode, path);
    check_same(rt, is_refused(alloc, disk, path), true, path);
}

/// Whether what stands at a path isn't read as a file of at most five bytes.
fn is_refused<D: Disk>(alloc: Global, disk: &D, path: &str) -> bool {
    disk.read_with_mode(alloc, path, 5).is_err() && disk.read_within(alloc, path, 5).is_err()
}

#[test]
fn a_disk_in_memory_has_modes(rt: HostRuntime) {
    let files: [AtPath<'_, &[u8]>; 3] = [
        AtPath {
            path: "pipe",
            holds: b"secret",
        },
        AtPath {
            path: "own",
            holds: b"secret",
        },
        AtPath {
            path: "shared",
            holds: b"secret",
        },
    ];
    let modes = [
        AtPath {
            path: "shared",
            holds: 0o100644u32,
        },
        AtPath {
            path: "pipe",
            holds: 0o010600,
        },
    ];
    let disk = MemoryDisk {
        files: &files,
        modes: &modes,
        folders: &[],
        failing: &[],
    };
    check_file(&rt, rt.alloc(), &disk, "own", 0o100600);
    check_file(&rt, rt.alloc(), &disk, "shared", 0o100644);
    for path in ["nowhere", "pipe"] {
        check_same(&rt, is_refused(rt.alloc(), &disk, path), true, path);
        check_same(&rt, disk.read(rt.alloc(), path).is_err(), true, path);
    }
}

const FOLDER: &str = "/tmp/checks-test-modes";

const FILE: &str = "/tmp/checks-test-modes/key";

const LINK: &str = "/tmp/checks-test-modes/link";

/// A folder with a file of six bytes, and a link to it.
fn make_files<R: Files + AllocGlobal + Abort>(rt: &R) {
    let _left = fs::remove_dir_all(rt, FOLDER).is_ok();
    fs::create_dir(rt, FOLDER).expect(rt, "a folder");
    fs::write(rt, FILE, "secret").expect(rt, "a file");
    symlink(rt, FILE, LINK).expect(rt, "a link");
}

/// That a file of the system, by its name and by the link, has this mode.
fn check_mode<R: Files + AllocGlobal + Clone + Drop + Abort>(rt: &R, mode: u32) {
    fs::set_permissions(rt, FILE, fs::Permissions::from_mode(mode)).expect(rt, "a mode");
    check_file(
        rt,
        rt.alloc(),
        &SystemDisk::new(rt, sink()),
        FILE,
        0o100000 | mode,
    );
    check_file(
        rt,
        rt.alloc(),
        &SystemDisk::new(rt, sink()),
        LINK,
        0o100000 | mode,
    );
}

#[test]
fn the_system_tells_modes(rt: HostRuntime) {
    make_files(&rt);
    for mode in [0o600u32, 0o400, 0o640, 0o604, 0o610, 0o777] {
        check_mode(&rt, mode);
    }
    fs::remove_dir_all(&rt, FOLDER).expect(&rt, "a folder");
}

/// A folder, devices and nothing are no regular files. None of them is waited for.
#[test]
fn reads_no_irregular_file(rt: HostRuntime) {
    for path in [
        "/tmp",
        "/dev/null",
        "/dev/zero",
        "/tmp/checks-test-nowhere",
        "",
    ] {
        let disk = SystemDisk::new(&rt, sink());
        check_same(&rt, is_refused(rt.alloc(), &disk, path), true, path);
        check_same(&rt, disk.read(rt.alloc(), path).is_err(), true, path);
    }
}

/// A port of the loopback to which these are sent.
fn port_with<'a, R: Net + Clock + AllocGlobal + Abort>(
    rt: &'a R,
    datagrams: &[&[u8]],
) -> UdpPort<'a, R, UdpSocket, Sink> {
    let port = UdpPort::bind(rt, rt.alloc(), sink(), "127.0.0.1:0", &[]).expect(rt, "a port");
    let own = port.own_address().expect(rt, "an address");
    let client = UdpSocket::bind(rt, "127.0.0.1:0").expect(rt, "a socket");
    for datagram in datagrams {
        check_same(rt, client.send_to(datagram, own).is_ok(), true, "a send");
    }
    port
}

/// How many bytes come next.
fn next_length(rt: &impl Abort, port: &mut impl Port) -> usize {
    let received = port.receive_in_time(Duration::from_secs(10), &mut [0; 64]);
    received
        .ok()
        .expect(rt, "no fault")
        .expect(rt, "a datagram")
}

/// Of 64 bytes that are zero, and of more that begin so, 63 come; of all else what was sent.
#[test]
fn a_port_passes_on_no_mark(rt: HostRuntime) {
    let mut other = NO_TAG;
    other[63] = 1;
    let datagrams: [&[u8]; 5] = [&NO_TAG, &[0; 100], &other, &[0; 63], &[]];
    let mut port = port_with(&rt, &datagrams);
    for wanted in [63usize, 63, 64, 63, 0] {
        check_same(&rt, next_length(&rt, &mut port), wanted, "a length");
    }
}
