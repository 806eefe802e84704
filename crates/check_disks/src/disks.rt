// Expected bytes and counts are worked out by hand from the crash model.
ghost use Rattle.std.specs.Prelude.{◌≤◌, length};

use std::fs;
use std::test::Fail;
use ws_disk::*;

// The calls of a disk, with what a test needs of their contracts.
fn put<D: Disk>(disk: &mut D, at: u64, bytes: &[u8]) -> Result<(), DiskFailed>
    requires { D.honest disk.old → at ≤ length (D.seen disk.old) }
{
    disk.write_at(at, bytes)
}

fn put_within(disk: &mut MemDisk, at: u64, bytes: &[u8]) -> Result<(), DiskFailed> {
    if at > disk.content().len() as u64 {
        return Ok(());
    }
    put(disk, at, bytes)
}

fn shorten<D: Disk>(disk: &mut D, size: u64) -> Result<(), DiskFailed>
    requires { D.honest disk.old → size ≤ length (D.seen disk.old) }
{
    disk.cut(size)
}

fn confirm<D: Disk>(disk: &mut D) -> Result<(), DiskFailed> {
    disk.sync()
}

fn measure<D: Disk>(disk: &mut D) -> Result<u64, DiskFailed> {
    disk.size()
}

// What a disk holds from that place on, as far as two more than five bytes go.
fn held<D: Disk>(rt: &HostRuntime, disk: &mut D, at: u64) -> Result<Vec<u8>, Fail> {
    let mut room = [0; 7];
    let count = disk.read_at(at, &mut room)?;
    Ok(room[..count].to_vec(rt.alloc())?)
}

fn may_go_to_a_thread<D: Disk + Send + Drop>(_disk: D) {}

#[test]
fn memory_disk_faults(rt: HostRuntime) -> Result<(), Fail> {
    let mut disk = MemDisk::made(rt.alloc(), 4, 9, &[1])?;
    assert_eq!(rt; measure(&mut disk)?, 0);
    assert_eq!(rt; confirm(&mut disk), Err(DiskFailed), "the second call");
    assert_eq!(rt;
        put_within(&mut disk, 0, &[1, 2, 3, 4, 5]),
        Err(DiskFailed),
        "past the room"
    );
    assert_eq!(rt; disk.faults(), 2);
    assert_eq!(rt; disk.content(), [].as_slice());
    Ok(())
}

#[test]
fn memory_disk_reads_what_was_written(rt: HostRuntime) -> Result<(), Fail> {
    let mut disk = MemDisk::made(rt.alloc(), 8, 9, &[])?;
    put_within(&mut disk, 0, &[1, 2, 3, 4])?;
    put_within(&mut disk, 2, &[5, 6])?;
    if disk.content().len() >= 3 {
        shorten(&mut disk, 3)?;
    }
    confirm(&mut disk)?;
    assert_eq!(rt; measure(&mut disk)?, 3);
    for (at, bytes) in [
        (0, [1, 2, 5].as_slice()),
        (2, [5].as_slice()),
        (7, [].as_slice()),
    ] {
        assert_eq!(rt; held(&rt, &mut disk, at)?.as_slice(), bytes, "from {at}");
    }
    assert_eq!(rt; disk.faults(), 0);
    may_go_to_a_thread(disk);
    Ok(())
}

#[test]
fn memory_disk_ends_with_its_record(rt: HostRuntime) -> Result<(), Fail> {
    let mut disk = MemDisk::made(rt.alloc(), 4, 4, &[])?;
    put_within(&mut disk, 0, &[1, 2, 3])?;
    assert_eq!(rt;
        put_within(&mut disk, 0, &[4, 5]),
        Err(DiskFailed),
        "five bytes in a record of four"
    );
    put_within(&mut disk, 0, &[6])?;
    confirm(&mut disk)?;
    assert_eq!(rt; measure(&mut disk), Err(DiskFailed), "a fifth call");
    assert_eq!(rt; disk.content(), [6, 2, 3].as_slice());
    assert_eq!(rt; disk.faults(), 2);
    Ok(())
}

// The three images of a disk, one behind the other, each after its length.
fn images(rt: &HostRuntime, disk: &TornDisk) -> Result<Vec<u8>, Fail> {
    let mut all = Vec::new(rt.alloc());
    for pick in [Pick::Old, Pick::New, Pick::Fill(9)] {
        let image = disk.crashed(rt.alloc(), pick)?;
        all.push((image.content().len() % 256) as u8)?;
        all.extend_from_slice(image.content())?;
    }
    Ok(all)
}

#[test]
fn torn_images_of_a_write_across_the_end(rt: HostRuntime) -> Result<(), Fail> {
    let mut disk = TornDisk::made(rt.alloc(), 8, 9, &[])?;
    put(&mut disk, 0, &[1, 2, 3, 4])?;
    assert_eq!(rt;
        images(&rt, &disk)?.as_slice(),
        [0, 4, 1, 2, 3, 4, 4, 9, 9, 9, 9].as_slice()
    );
    confirm(&mut disk)?;
    put(&mut disk, 2, &[5, 6, 7])?;
    assert_eq!(rt;
        images(&rt, &disk)?.as_slice(),
        [4, 1, 2, 3, 4, 5, 1, 2, 5, 6, 7, 5, 1, 2, 9, 9, 9].as_slice()
    );
    assert_eq!(rt; disk.faults(), 0);
    may_go_to_a_thread(disk);
    Ok(())
}

#[test]
fn torn_images_of_a_cut(rt: HostRuntime) -> Result<(), Fail> {
    let mut disk = TornDisk::made(rt.alloc(), 8, 9, &[])?;
    put(&mut disk, 0, &[1, 2, 3, 4])?;
    confirm(&mut disk)?;
    shorten(&mut disk, 2)?;
    assert_eq!(rt;
        images(&rt, &disk)?.as_slice(),
        [4, 1, 2, 3, 4, 2, 1, 2, 2, 1, 2].as_slice()
    );
    put(&mut disk, 2, &[8])?;
    assert_eq!(rt;
        images(&rt, &disk)?.as_slice(),
        [4, 1, 2, 3, 4, 3, 1, 2, 8, 3, 1, 2, 9].as_slice()
    );
    assert_eq!(rt; held(&rt, &mut disk, 1)?.as_slice(), [2, 8].as_slice());
    Ok(())
}

#[test]
fn torn_disk_faults(rt: HostRuntime) -> Result<(), Fail> {
    let mut disk = TornDisk::made(rt.alloc(), 4, 4, &[1])?;
    put(&mut disk, 0, &[1, 2])?;
    assert_eq!(rt; confirm(&mut disk), Err(DiskFailed), "the second call");
    assert_eq!(rt;
        put(&mut disk, 2, &[3, 4, 5]),
        Err(DiskFailed),
        "past the room"
    );
    assert_eq!(rt; measure(&mut disk)?, 2);
    assert_eq!(rt; measure(&mut disk), Err(DiskFailed), "a fifth call");
    assert_eq!(rt;
        images(&rt, &disk)?.as_slice(),
        [0, 2, 1, 2, 2, 9, 9].as_slice()
    );
    assert_eq!(rt; disk.faults(), 3);
    Ok(())
}

const PATH: &str = "ws_disk_test_file";

#[test]
fn file_disk_on_a_real_file(rt: HostRuntime) -> Result<(), Fail> {
    let _ = fs::remove_file(&rt, PATH);
    let mut disk = FileDisk::made(rt, PATH);
    assert_eq!(rt; measure(&mut disk)?, 0, "made empty");
    put(&mut disk, 0, &[1, 2, 3, 4])?;
    put(&mut disk, 3, &[5, 6, 7])?;
    confirm(&mut disk)?;
    assert_eq!(rt;
        held(&rt, &mut disk, 0)?.as_slice(),
        [1, 2, 3, 5, 6, 7].as_slice()
    );
    shorten(&mut disk, 4)?;
    put(&mut disk, 4, &[8])?;
    confirm(&mut disk)?;
    assert_eq!(rt; disk.faults(), 0);
    may_go_to_a_thread(disk);
    let mut again = FileDisk::made(rt, PATH);
    assert_eq!(rt;
        held(&rt, &mut again, 0)?.as_slice(),
        [1, 2, 3, 5, 8].as_slice(),
        "reopened"
    );
    fs::remove_file(&rt, PATH)?;
    Ok(())
}

#[test]
fn file_disk_counts_faults(rt: HostRuntime) -> Result<(), Fail> {
    let mut disk = FileDisk::made(rt, "ws_disk_no_folder/file");
    assert_eq!(rt; measure(&mut disk), Err(DiskFailed));
    assert_eq!(rt; confirm(&mut disk), Err(DiskFailed));
    assert_eq!(rt; disk.faults(), 2);
    Ok(())
}

#[test]
fn gated_write(rt: HostRuntime) -> Result<(), Fail> {
    let mut disk = MemDisk::holding(rt.alloc(), &[7, 0], 8, 9, &[])?;
    write_gated(&mut disk, 1, &[5, 6])?;
    assert_eq!(rt; disk.content(), [7, 1, 5, 6].as_slice());
    Ok(())
}
